//! Answers that come one after another.

use std::alloc::{AllocError, Global};

/// How often the same answer came one after another.
#[derive(Drop)]
pub struct Turns {
    answer: String,
    count: u64,
}

impl Turns {
    /// No answers.
    pub fn new(alloc: Global) -> Turns {
        Turns {
            answer: String::new(alloc),
            count: 0,
        }
    }

    /// Appends how often the last answer came, and what it is, in a line.
    pub fn put(&self, out: &mut String, alloc: Global) -> Result<(), AllocError> {
        if self.count == 0 {
            return Ok(());
        }
        let digits = self.count.to_string(alloc)?;
        if !out.is_empty() {
            out.push_str("\n")?;
        }
        out.push_str(&digits)?;
        out.push_str(" ")?;
        out.push_str(&self.answer)
    }

    /// Counts an answer.
    pub fn count(
        &mut self,
        out: &mut String,
        alloc: Global,
        answer: &str,
    ) -> Result<(), AllocError> {
        if self.answer.as_str() != answer {
            self.put(out, alloc)?;
            self.count = 0;
            self.answer.clear();
            self.answer.push_str(answer)?;
        }
        self.count = self.count.saturating_add(1);
        Ok(())
    }
}

//! Inputs in memory that keep what is fetched.

ghost use Rattle.lucy_io.specs.InputsInMemory.{input_of};
ghost use Rattle.std.specs.Prelude.{Some};

use lucy_io::{Ending, FetchError, Inputs, MemoryInputs};
use std::alloc::{AllocError, Global};

/// Inputs in memory, and the fetches so far: the name and the ending of each.
#[derive(Drop)]
pub struct Kept {
    inputs: MemoryInputs,
    fetches: Vec<(String, Ending)>,
}

impl Kept {
    /// Inputs that nothing was fetched of.
    pub fn new(alloc: Global, inputs: MemoryInputs) -> Kept {
        Kept {
            inputs,
            fetches: Vec::new(alloc),
        }
    }

    /// Appends what was fetched, and how each fetch ended.
    pub fn put_fetches(&self, out: &mut String) -> Result<(), AllocError> {
        if self.fetches.is_empty() {
            return out.push_str("nothing");
        }
        for (place, fetch) in self.fetches.iter().enumerate() {
            if place > 0 {
                out.push_str(", ")?;
            }
            put_fetch(out, fetch.0.as_str(), fetch.1)?;
        }
        Ok(())
    }
}

fn put_fetch(out: &mut String, name: &str, ending: Ending) -> Result<(), AllocError> {
    out.push_str(name)?;
    out.push_str(match ending {
        Ending::Given => " given",
        Ending::Absent => " absent",
        Ending::Failed => " failed",
    })
}

impl Inputs for Kept {
    ghost told = { λ k. Some (input_of k.inputs.pairs) };

    ghost journal = { λ k. k.inputs.journal };

    fn fetch(
        &mut self,
        alloc: Global,
        name: &str,
        most: usize,
    ) -> Result<Option<Vec<u8>>, FetchError> {
        let kept = String::from_str(alloc, name)?;
        self.fetches.reserve(1)?;
        let given = self.inputs.fetch(alloc, name, most);
        let ending = match &given {
            Ok(Some(_)) => Ending::Given,
            Ok(None) => Ending::Absent,
            Err(_) => Ending::Failed,
        };
        self.fetches.push_reserved((kept, ending));
        given
    }
}

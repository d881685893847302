//! What is known of each variable's bounds, and why.

use crate::numbers::{floored, minus, plus, size, times};
use lucy_clauses::{Part, Range};
use std::alloc::{AllocError, Global};

/// A side of a variable.
#[derive(Clone, Copy, Debug, PartialEq, Eq)]
pub enum Side {
    /// It is at least a number.
    Low,
    /// It is at most a number.
    High,
}

/// What an inequality is.
#[derive(Clone, Copy, Debug, PartialEq, Eq)]
pub enum Source {
    /// A true atom.
    Atom(u32),
    /// An entry.
    Entry(usize),
}

/// A multiple of a true atom.
#[derive(Clone, Copy, Debug, PartialEq, Eq)]
pub struct TimesAtom {
    /// How many times.
    pub by: i128,
    /// The atom's number.
    pub atom: u32,
}

/// A multiple of an entry.
#[derive(Clone, Copy, Debug, PartialEq, Eq)]
pub struct TimesEntry {
    /// How many times.
    pub by: i128,
    /// The entry's number.
    pub entry: usize,
}

/// A sum of a true atom and entries, divided by a number.
#[derive(Debug, Drop)]
pub struct Row {
    /// The atom's number.
    pub atom: u32,
    /// The entries of the other parts.
    pub others: Vec<TimesEntry>,
    /// The divisor.
    pub by: i128,
}

/// A sum of true atoms and entries, divided by a number.
#[derive(Debug, Drop)]
pub struct Cut {
    /// The atoms.
    pub atoms: Vec<TimesAtom>,
    /// The entries.
    pub entries: Vec<TimesEntry>,
    /// The divisor.
    pub by: i128,
}

/// Why an entry holds.
#[derive(Debug, Drop)]
pub enum Why {
    /// By the variable's range.
    Range,
    /// By a true atom of that variable alone.
    Atom(u32),
    /// By a true atom and other entries.
    Row(Row),
    /// By a rounded sum. It is no bound of one variable.
    Cut(Cut),
}

/// A bound of a variable.
#[derive(Debug, Drop)]
pub struct Entry {
    /// The variable.
    pub variable: u32,
    /// The side.
    pub side: Side,
    /// The bound.
    pub value: i128,
    /// Why it holds.
    pub why: Why,
    // The entry of that side before.
    before: usize,
}

// The entries of both sides of a variable.
#[derive(Clone, Copy, Debug, PartialEq, Eq)]
struct Ends {
    low: usize,
    high: usize,
}

/// Bounds, those that were found last at the end.
#[derive(Debug, Drop)]
pub struct Bounds {
    /// All entries.
    pub entries: Vec<Entry>,
    ends: Vec<Ends>,
    // Of each variable and side the look in which a row moved it last.
    low_moved: Vec<u64>,
    high_moved: Vec<u64>,
    look: u64,
    /// Variables with a new bound.
    pub changed: Vec<u32>,
}

fn range_entry(variable: u32, side: Side, value: i64) -> Entry {
    Entry {
        variable,
        side,
        value: i128::from(value),
        why: Why::Range,
        before: 0,
    }
}

impl Bounds {
    /// No variables.
    pub fn new(alloc: Global) -> Bounds {
        Bounds {
            entries: Vec::new(alloc),
            ends: Vec::new(alloc),
            low_moved: Vec::new(alloc),
            high_moved: Vec::new(alloc),
            look: 0,
            changed: Vec::new(alloc),
        }
    }

    /// Adds a variable with its range.
    pub fn add(&mut self, variable: u32, range: Range) -> Result<(), AllocError> {
        let low = self.entries.len();
        self.entries
            .push(range_entry(variable, Side::Low, range.lo))?;
        let high = self.entries.len();
        self.entries
            .push(range_entry(variable, Side::High, range.hi))?;
        self.ends.push(Ends { low, high })?;
        self.low_moved.push(0)?;
        self.high_moved.push(0)?;
        self.changed.push(variable)?;
        Ok(())
    }

    /// A new look begins, in which rows may move each side once.
    pub fn begin(&mut self) {
        self.look = self.look.saturating_add(1);
    }

    /// The entry of a side.
    pub fn end(&self, variable: u32, side: Side) -> usize {
        match self.ends.get(variable as usize) {
            Some(ends) => match side {
                Side::Low => ends.low,
                Side::High => ends.high,
            },
            None => usize::MAX,
        }
    }

    /// The bound of an entry.
    pub fn value(&self, entry: usize) -> i128 {
        match self.entries.get(entry) {
            Some(entry) => entry.value,
            None => 0,
        }
    }

    /// The least number.
    pub fn low(&self, variable: u32) -> i128 {
        self.value(self.end(variable, Side::Low))
    }

    /// The greatest number.
    pub fn high(&self, variable: u32) -> i128 {
        self.value(self.end(variable, Side::High))
    }

    /// The least value of a part.
    pub fn reach(&self, part: Part) -> i128 {
        if 0 < part.by {
            times(part.by, self.low(part.variable))
        } else {
            times(part.by, self.high(part.variable))
        }
    }

    /// The least value of a sum.
    pub fn least(&self, parts: &[Part]) -> i128 {
        let mut sum = 0;
        for part in parts {
            sum = plus(sum, self.reach(*part));
        }
        sum
    }

    /// The greatest value of a sum.
    pub fn greatest(&self, parts: &[Part]) -> i128 {
        let mut sum = 0;
        for part in parts {
            let other = Part {
                variable: part.variable,
                by: minus(0, part.by),
            };
            sum = minus(sum, self.reach(other));
        }
        sum
    }

    // The entry that bounds a part from below.
    fn below(&self, part: Part) -> TimesEntry {
        let side = if 0 < part.by { Side::Low } else { Side::High };
        TimesEntry {
            by: size(part.by),
            entry: self.end(part.variable, side),
        }
    }

    // The entry that bounds a part from above.
    fn above(&self, part: Part) -> TimesEntry {
        let side = if 0 < part.by { Side::High } else { Side::Low };
        TimesEntry {
            by: size(part.by),
            entry: self.end(part.variable, side),
        }
    }

    /// The entries of a sum's least value, but for that of one variable.
    pub fn below_all(
        &self,
        alloc: Global,
        parts: &[Part],
        but: Option<u32>,
    ) -> Result<Vec<TimesEntry>, AllocError> {
        let mut all = Vec::new(alloc);
        for part in parts {
            if Some(part.variable) != but {
                all.push(self.below(*part))?;
            }
        }
        Ok(all)
    }

    /// The entries of a sum's greatest value.
    pub fn above_all(&self, alloc: Global, parts: &[Part]) -> Result<Vec<TimesEntry>, AllocError> {
        let mut all = Vec::new(alloc);
        for part in parts {
            all.push(self.above(*part))?;
        }
        Ok(all)
    }

    /// The bound that a sum of at most `bound`, whose other parts are at least `rest`, gives a part's variable.
    pub fn given(part: Part, bound: i128, rest: i128) -> i128 {
        let most = floored(minus(bound, rest), size(part.by));
        if 0 < part.by { most } else { minus(0, most) }
    }

    /// Whether a bound is better than the one that is there.
    pub fn is_better(&self, variable: u32, side: Side, value: i128) -> bool {
        match side {
            Side::Low => self.low(variable) < value,
            Side::High => value < self.high(variable),
        }
    }

    fn put_end(&mut self, variable: u32, side: Side, entry: usize) {
        if let Some(ends) = self.ends.get_mut(variable as usize) {
            match side {
                Side::Low => ends.low = entry,
                Side::High => ends.high = entry,
            }
        }
    }

    /// A new bound.
    pub fn push(
        &mut self,
        variable: u32,
        side: Side,
        value: i128,
        why: Why,
    ) -> Result<(), AllocError> {
        let number = self.entries.len();
        let before = self.end(variable, side);
        self.entries.push(Entry {
            variable,
            side,
            value,
            why,
            before,
        })?;
        self.put_end(variable, side, number);
        self.changed.push(variable)?;
        Ok(())
    }

    /// A rounded sum.
    pub fn push_cut(&mut self, cut: Cut) -> Result<usize, AllocError> {
        let number = self.entries.len();
        self.entries.push(Entry {
            variable: u32::MAX,
            side: Side::Low,
            value: 0,
            why: Why::Cut(cut),
            before: 0,
        })?;
        Ok(number)
    }

    /// Whether a row moved this side in this look.
    pub fn is_moved(&self, variable: u32, side: Side) -> bool {
        let moved = match side {
            Side::Low => self.low_moved.get(variable as usize).copied(),
            Side::High => self.high_moved.get(variable as usize).copied(),
        };
        moved == Some(self.look)
    }

    /// A row moves this side in this look.
    pub fn note_moved(&mut self, variable: u32, side: Side) {
        match side {
            Side::Low => self.note_low(variable),
            Side::High => self.note_high(variable),
        }
    }

    fn note_low(&mut self, variable: u32) {
        let look = self.look;
        if let Some(moved) = self.low_moved.get_mut(variable as usize) {
            *moved = look;
        }
    }

    fn note_high(&mut self, variable: u32) {
        let look = self.look;
        if let Some(moved) = self.high_moved.get_mut(variable as usize) {
            *moved = look;
        }
    }

    /// Keeps the first entries.
    pub fn undo(&mut self, mark: usize) {
        for _ in mark..self.entries.len() {
            if let Some(entry) = self.entries.pop() {
                self.put_end(entry.variable, entry.side, entry.before);
            }
        }
        self.changed.clear();
    }
}

use sqlite_items::Items;

/// An inequality that a line of a derivation refers to.
#[derive(Clone, Copy, Debug, PartialEq, Eq)]
pub enum Ref {
    /// The complement of the atom at this place of the clause.
    Negated(u32),
    /// The variable of this number is at least its range's lower bound.
    Low(u32),
    /// The variable of this number is at most its range's upper bound.
    High(u32),
    /// The earlier line of this number.
    Derived(u32),
}

/// An inequality with a multiplier.
#[derive(Clone, Copy, Debug, PartialEq, Eq)]
pub struct Times {
    /// The multiplier, at least 1 in a justified line.
    pub by: i128,
    /// The inequality.
    pub of: Ref,
}

/// A line of a derivation.
#[derive(Debug, Drop)]
pub enum Line {
    /// The sum of inequalities, each times its multiplier, in the order written.
    Sum(Items<Times>),
    /// An inequality divided by a number that divides each factor, with the bound rounded down.
    Divide {
        /// The divisor, at least 1 in a justified line.
        by: i128,
        /// The inequality.
        of: Ref,
    },
}

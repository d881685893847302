use sqlite_items::Items;

/// A leaf or an argument times a factor.
#[derive(Clone, Copy, Debug, PartialEq, Eq)]
pub struct Share {
    /// The number of the leaf or of the argument.
    pub slot: u32,
    /// The factor.
    pub by: i64,
}

/// A sum of leaves and arguments, each times a factor, and a constant.
#[derive(Debug, Drop)]
pub struct Term {
    /// The shares of leaves, by ascending leaf.
    pub leaves: Items<Share>,
    /// The shares of arguments, by ascending argument.
    pub arguments: Items<Share>,
    /// What is added to them.
    pub constant: i64,
}

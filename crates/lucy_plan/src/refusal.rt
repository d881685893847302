/// What a limit counts, or what its size is of.
#[derive(Clone, Copy, Debug, PartialEq, Eq)]
pub enum What {
    /// The bytes of an input.
    Bytes,
    /// The leaves of an object: 1 to 64.
    Leaves,
    /// A factor of a term: at most 1,000,000 in size.
    Coefficient,
    /// The constant of a term: at most 2^62 in size.
    Constant,
    /// The condition nodes of a plan: at most 4,096.
    Conditions,
    /// The transactions of a plan: at most 64.
    Transactions,
    /// The arguments of a transaction: at most 4.
    Arguments,
    /// The segments of a plan: 1 to 16.
    Segments,
    /// The left-out points of a plan: at most 256.
    Points,
    /// The depth of a plan: 16 to 2,048.
    Depth,
    /// The replicas: 1 to 16.
    Replicas,
    /// The calls of a replica: at most 4,096.
    Calls,
}

/// Why parts are no plan.
#[derive(Clone, Copy, Debug, PartialEq, Eq)]
pub enum PlanError {
    /// A count or a size is outside its limit.
    Limit {
        /// What is counted or measured.
        what: What,
        /// The count or the size, or 2^64 - 1 where that is less.
        count: u64,
    },
    /// The start is no state of the object.
    BadStart {
        /// The first leaf whose number is outside its range, or else the shorter of the two lengths.
        leaf: u32,
    },
    /// A place is out of range, out of order or taken, or a left-out point is no state of the object.
    BadIndex {
        /// The slot, leaf or transaction at fault, or the segment of the point.
        index: u32,
    },
    /// There was no memory left.
    OutOfMemory,
}

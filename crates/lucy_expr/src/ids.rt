/// Names a call that a replica accepted: the replica, and how many it had accepted before.
#[derive(Clone, Copy, Debug, PartialEq, Eq)]
pub struct Id {
    /// The replica's number.
    pub replica: u32,
    /// How many calls it had accepted before.
    pub count: u32,
}

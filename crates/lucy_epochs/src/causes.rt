/// Names the call that opened an epoch.
#[derive(Clone, Copy, Debug, PartialEq, Eq)]
pub struct By {
    /// The replica whose call it is.
    pub replica: u32,
    /// The place of the call in that replica's work.
    pub place: u32,
    /// How many calls that replica had accepted before.
    pub count: u32,
}

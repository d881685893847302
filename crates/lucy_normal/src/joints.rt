/// How several normal conditions are joined.
#[derive(Clone, Copy, Debug, PartialEq, Eq)]
pub enum Joint {
    /// Each of them holds.
    All,
    /// At least one of them holds.
    Any,
}

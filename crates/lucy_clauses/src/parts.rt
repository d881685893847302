/// A variable with its factor.
#[derive(Clone, Copy, Debug, PartialEq, Eq, Hash)]
pub struct Part {
    /// The number of the variable.
    pub variable: u32,
    /// The factor.
    pub by: i128,
}

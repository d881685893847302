/// What is asked of each term and of each named place of a plan, one question after another.
#[derive(Clone, Copy, Debug, PartialEq, Eq)]
pub(crate) enum Rule {
    /// The factors are small enough.
    Factors,
    /// The constants are small enough.
    Constants,
    /// The slots, leaves and transactions that are named exist.
    Slots,
    /// The slots of each list of shares ascend strictly.
    Orders,
}

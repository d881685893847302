/// The name of a part of a certificate.
#[derive(Clone, Copy, Debug, PartialEq, Eq)]
pub enum PartName {
    /// The closure of the segment with this number.
    Closure(u32),
    /// The segments cover the invariant.
    Cover,
}

//! Places where a caller may look on, each inside the lock of a replica.

/// Where a gate is passed, each time inside the lock of the replica that it names.
#[derive(Clone, Copy, Debug, PartialEq, Eq)]
pub enum Point {
    /// The replica accepted a call by itself.
    Commit,
    /// The replica merged what another one sent.
    Merge,
    /// The replica's part in a change was taken.
    Freeze,
    /// The replica took a record that was opened.
    Adopt,
}

/// What is told of each point that is passed.
pub trait Gate {
    /// The replica of this number passes a point. Its lock is held.
    fn at(&self, replica: u32, point: Point);
}

/// A gate that does nothing.
#[derive(Clone, Copy, Debug)]
pub struct NoGate;

impl Gate for NoGate {
    fn at(&self, _replica: u32, _point: Point) {}
}

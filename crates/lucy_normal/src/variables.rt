ghost use Rattle.std.specs.Prelude.{◌≤◌, ◌+◌, ◌^◌};

/// The variables of one state: `leaves` of them, from the number `first` on.
#[derive(Clone, Copy, Debug, PartialEq, Eq)]
pub struct Variables {
    /// The number of the first leaf's variable.
    pub first: u32,
    /// How many leaves there are.
    pub leaves: u32,
    ghost room: { first + leaves ≤ 2 ^ 32 },
}

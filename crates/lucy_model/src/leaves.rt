ghost use Rattle.std.specs.Prelude.{◌≡◌, ◌≤ℤ◌, neg_ℤ, pos, ◌^◌, ◌↔◌, IsTrue, IsSome, IfSome};

/// The greatest size of a bound of a range: 2^40.
pub const MOST_BOUND: i64 = 1 << 40;

/// How two numbers of a leaf are merged.
#[derive(Clone, Copy, Debug, PartialEq, Eq)]
pub enum Kind {
    /// The greater number stays.
    Max,
    /// The lesser number stays.
    Min,
}

/// One place of an object: how its numbers are merged, and the least and the greatest number that
/// it may have. The least is at most the greatest, and both are at most 2^40 in size.
#[derive(Clone, Copy, Debug, PartialEq, Eq)]
pub struct Leaf {
    /// How two numbers are merged.
    pub kind: Kind,
    /// The least number.
    pub lo: i64,
    /// The greatest number.
    pub hi: i64,
    ghost ordered: { lo ≤ℤ hi },
    ghost low: { neg_ℤ (pos (2 ^ 40)) ≤ℤ lo },
    ghost high: { hi ≤ℤ pos (2 ^ 40) },
}

impl Leaf {
    ghost use Rattle.lucy_model.specs.Ranges as ranges;

    /// The leaf with this kind and this range, if the range is one.
    pub fn new(kind: Kind, lo: i64, hi: i64) -> Option<Leaf>
        ensures range { IsSome result ↔ ((neg_ℤ (pos (2 ^ 40)) ≤ℤ lo) × (lo ≤ℤ hi) × (hi ≤ℤ pos (2 ^ 40))) }
        ensures value { IfSome result (λ leaf. (leaf.kind ≡ kind) × (leaf.lo ≡ lo) × (leaf.hi ≡ hi)) }
    {
        if -MOST_BOUND <= lo && lo <= hi && hi <= MOST_BOUND {
            Some(Leaf { kind, lo, hi })
        } else {
            None
        }
    }

    /// Whether a number is in the leaf's range.
    pub fn allows(&self, number: i128) -> bool
        ensures { result ≡ ranges.allows self.now number }
    {
        i128::from(self.lo) <= number && number <= i128::from(self.hi)
    }
}

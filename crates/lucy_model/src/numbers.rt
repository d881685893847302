ghost use Rattle.std.specs.Prelude.{◌≡◌, ◌<◌, ◌^◌, ⊤, List, ℤ, length};
ghost use Rattle.lucy_model.specs.Numbers.{number_at, AllBelow, IsWithin};

use crate::raws::Raw;
use crate::states::State;

/// Numbers by place, each of which is at most 2^69 in size where `are_small` holds.
pub trait Numbers {
    ghost numbers: { Self → List ℤ };

    ghost are_small: { Self → Type 0 };

    /// The number at a place.
    fn at(&self, place: u32) -> i128
        requires place { place < length (numbers self.now) }
        requires small { are_small self.now }
        ensures value { result ≡ number_at (numbers self.now) place }
        ensures size { IsWithin (2 ^ 69) result };
}

impl Numbers for State {
    ghost numbers = { λ s. s };

    ghost are_small = { λ _. ⊤ };

    fn at(&self, place: u32) -> i128 {
        i128::from(self.get(place))
    }
}

impl Numbers for Raw {
    ghost numbers = { λ r. r };

    ghost are_small = { AllBelow (2 ^ 69) };

    fn at(&self, place: u32) -> i128 {
        self.get(place)
    }
}

impl Numbers for &[i64] {
    ghost numbers = { λ s. s.now };

    ghost are_small = { λ _. ⊤ };

    fn at(&self, place: u32) -> i128 {
        i128::from(self[place as usize])
    }
}

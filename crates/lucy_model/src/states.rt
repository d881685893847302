ghost use Rattle.std.specs.Prelude.{◌≡◌, ◌<◌, ◌↔◌, IsTrue, IfOk, length};
ghost use Rattle.std.proofs.Common.{rules};
ghost use Rattle.std.specs.Cmp.Lexicographic.{pointwise};
ghost use Rattle.std.specs.Cmp.Rules.{comparing};
ghost use Rattle.std.specs.Ordering.{int_eq};
ghost use Rattle.lucy_model.specs.Numbers.{number_at};

use std::alloc::{AllocError, Global};
use std::marker::Model;

/// The numbers of an object, one for each leaf. Contracts see it as the list of its numbers.
#[derive(Clone, Debug, Drop)]
pub struct State {
    numbers: Vec<i64>,
}

impl Model for State {
    ghost use Rattle.std.specs.Prelude.{List, ℤ};

    ghost Value = { List ℤ };

    ghost view = { λ s. s.numbers.items };
}

impl State {
    /// The state with these numbers.
    pub fn new(alloc: Global, numbers: &[i64]) -> Result<State, AllocError>
        ensures { IfOk result (λ s. s ≡ numbers.now) }
    {
        let numbers = Vec::from_slice(alloc, numbers)?;
        Ok(State { numbers })
    }

    /// How many numbers it has.
    pub fn length(&self) -> usize
        ensures { result ≡ length self.now }
    {
        self.numbers.len()
    }

    /// The number at a leaf.
    pub fn get(&self, leaf: u32) -> i64
        requires { leaf < length self.now }
        ensures { result ≡ number_at self.now leaf }
    {
        self.numbers[leaf as usize]
    }

    /// Whether two states have the same numbers. The same as `==`.
    pub fn is_same(&self, other: &State) -> bool
        ensures { IsTrue result ↔ (self.now ≡ other.now) }
    {
        *self == *other
    }

    /// The numbers in the order of the leaves.
    pub fn as_slice(&self) -> &[i64]
        ensures { result.now ≡ self.now }
    {
        self.numbers.as_slice()
    }
}

impl From<Vec<i64>> for State {
    ghost from_gives = { λ numbers s. s ≡ numbers.items };

    fn from(numbers: Vec<i64>) -> State {
        State { numbers }
    }
}

impl PartialEq for State {
    ghost eq = { pointwise int_eq };

    ghost laws = { Prim.search (comparing, rules) };

    fn eq(&self, other: &State) -> bool {
        self.numbers == other.numbers
    }
}

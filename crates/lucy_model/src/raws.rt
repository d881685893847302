ghost use Rattle.std.specs.Prelude.{◌≡◌, ◌<◌, ◌↔◌, IsTrue, IfOk, length, replicate, pos, slice_set};
ghost use Rattle.lucy_model.specs.Numbers.{number_at};

use crate::states::State;
use std::alloc::{AllocError, Global};
use std::marker::Model;

/// Numbers for the leaves of an object that need not fit a state yet. Contracts see it as the list
/// of its numbers.
#[derive(Debug, Drop)]
pub struct Raw {
    numbers: Vec<i128>,
}

impl Model for Raw {
    ghost use Rattle.std.specs.Prelude.{List, ℤ};

    ghost Value = { List ℤ };

    ghost view = { λ r. r.numbers.items };
}

impl Raw {
    /// As many numbers as `length` says, all 0.
    pub fn new(alloc: Global, length: usize) -> Result<Raw, AllocError>
        ensures { IfOk result (λ r. r ≡ replicate length (pos 0)) }
    {
        let numbers = vec![in alloc; 0; length]?;
        Ok(Raw { numbers })
    }

    /// How many numbers it has.
    pub fn length(&self) -> usize
        ensures { result ≡ length self.now }
    {
        self.numbers.len()
    }

    /// The number at a leaf.
    pub fn get(&self, leaf: u32) -> i128
        requires { leaf < length self.now }
        ensures { result ≡ number_at self.now leaf }
    {
        self.numbers[leaf as usize]
    }

    /// Sets the number at a leaf, and no other.
    pub fn set(&mut self, leaf: u32, value: i128)
        requires { leaf < length self.old }
        ensures { self.new ≡ slice_set self.old leaf value }
    {
        self.numbers[leaf as usize] = value;
    }

    /// Whether these are the numbers of a state.
    pub fn is_state(&self, state: &State) -> bool
        ensures { IsTrue result ↔ (self.now ≡ state.now) }
    {
        is_slice(self.numbers.as_slice(), state.as_slice())
    }
}

fn is_slice(wide: &[i128], numbers: &[i64]) -> bool
    ensures { IsTrue result ↔ (wide.now ≡ numbers.now) }
{
    if wide.len() != numbers.len() {
        return false;
    }
    for (i, number) in wide.iter().enumerate() {
        if *number != i128::from(numbers[i]) {
            return false;
        }
    }
    true
}

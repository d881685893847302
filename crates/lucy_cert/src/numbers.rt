//! Numbers of clauses.

ghost use Rattle.std.specs.Prelude.{◌≡◌, IsTrue, Some, None, if◌then◌else◌, option_map};
ghost use Rattle.lucy_cert.specs.Numbers.{ascend_from, are_droppable};

use sqlite_items::Items;
use std::marker::Model;

/// Numbers of clauses: at least one, and each above the one before it. Contracts see their list.
#[derive(Debug, Drop)]
pub struct ClauseNumbers {
    numbers: Items<u64>,
}

impl Model for ClauseNumbers {
    ghost use Rattle.std.specs.Prelude.{List, ℕ, IsTrue};
    ghost use Rattle.lucy_cert.specs.Numbers.{are_droppable};

    ghost Value = { List ℕ };

    ghost view = { λ n. n.numbers };

    ghost invariant = { λ n. IsTrue (are_droppable n.numbers) };
}

fn ascend_from(first: u64, numbers: &[u64]) -> bool
    ensures { result ≡ ascend_from first numbers.now }
{
    let mut last = first;
    for number in numbers {
        if *number <= last {
            return false;
        }
        last = *number;
    }
    true
}

fn are_droppable(numbers: &[u64]) -> bool
    ensures { result ≡ are_droppable numbers.now }
{
    match numbers {
        [] => false,
        [first, rest @ ..] => ascend_from(*first, rest),
    }
}

impl ClauseNumbers {
    /// These numbers, where there is one and each is above the one before it.
    pub fn new(numbers: Items<u64>) -> Option<ClauseNumbers>
        ensures { option_map (λ n. n) result ≡ (if are_droppable numbers then Some numbers else None) }
    {
        if are_droppable(numbers.as_slice()) {
            Some(ClauseNumbers { numbers })
        } else {
            None
        }
    }

    /// The numbers.
    pub fn as_slice(&self) -> &[u64]
        ensures { result.now ≡ self.now }
    {
        self.numbers.as_slice()
    }

    /// At least one number, and each above the one before it.
    pub fn facts(&self)
        ensures { IsTrue (are_droppable self.now) }
    {
        let _numbers = &self.numbers;
    }
}

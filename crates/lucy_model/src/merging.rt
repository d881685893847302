ghost use Rattle.std.specs.Prelude.{◌≡◌, length, IfOk};
ghost use Rattle.lucy_model.specs.Merging as merging;

use crate::leaves::{Kind, Leaf};
use crate::states::State;
use std::alloc::{AllocError, Global};

fn merged_number(kind: Kind, left: i64, right: i64) -> i64
    ensures { result ≡ merging.merged_number kind left right }
{
    match kind {
        Kind::Max => left.max(right),
        Kind::Min => left.min(right),
    }
}

/// The merge of two states: at each leaf the greater or the lesser number, by the leaf's kind.
pub fn merge(
    alloc: Global,
    object: &[Leaf],
    left: &State,
    right: &State,
) -> Result<State, AllocError>
    requires left { length left.now ≡ length object.now }
    requires right { length right.now ≡ length object.now }
    ensures { IfOk result (λ s. s ≡ merging.merged object.now left.now right.now) }
{
    let left = left.as_slice();
    let right = right.as_slice();
    let mut numbers = Vec::with_capacity(alloc, object.len())?;
    for (i, leaf) in object.iter().enumerate() {
        let number = merged_number(leaf.kind, left[i], right[i]);
        numbers.push(number)?;
    }
    Ok(State::from(numbers))
}

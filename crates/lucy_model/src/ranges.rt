ghost use Rattle.std.specs.Prelude.{◌≡◌, map};
ghost use Rattle.std.specs.List.{list_all};
ghost use Rattle.lucy_model.specs.Terms as terms;
ghost use Rattle.lucy_model.specs.Conditions as conditions;

use crate::conditions::Condition;
use crate::terms::{Share, Term};

/// The greatest size of a factor.
pub const MOST_FACTOR: u64 = 1_000_000;

/// The greatest size of a constant.
pub const MOST_CONSTANT: u64 = 1 << 62;

/// Whether slots ascend strictly below `end`, with factors that are small enough.
fn are_shares(shares: &[Share], end: usize) -> bool
    ensures { result ≡ terms.are_shares 0 end shares.now }
{
    let mut from = 0usize;
    for share in shares {
        let slot = share.slot as usize;
        if slot < from || slot >= end || share.by.unsigned_abs() > MOST_FACTOR {
            return false;
        }
        from = slot + 1;
    }
    true
}

/// Whether this is a term over so many leaves and arguments: in both lists of shares the slots are
/// in range and ascend strictly, each factor is at most 1,000,000 in size, and the constant at most
/// 2^62.
pub fn is_term(term: &Term, leaves: usize, arguments: usize) -> bool
    ensures { result ≡ terms.is_term leaves arguments term.now }
{
    are_shares(term.leaves.as_slice(), leaves)
        && are_shares(term.arguments.as_slice(), arguments)
        && term.constant.unsigned_abs() <= MOST_CONSTANT
}

/// Whether this is a condition over so many leaves and arguments: each of its terms is one, and each
/// leaf that it names is in range.
#[cycle(ranging)]
pub fn is_condition(condition: &Condition, leaves: usize, arguments: usize) -> bool
    ensures { result ≡ conditions.is_condition leaves arguments condition.now }
{
    match condition {
        Condition::True => true,
        Condition::False => true,
        Condition::Compare { term, op: _ } => is_term(term, leaves, arguments),
        Condition::Is(leaf) => (*leaf as usize) < leaves,
        Condition::Not(part) => is_condition(part.get(), leaves, arguments),
        Condition::And(parts) => are_conditions(parts.as_slice(), leaves, arguments),
        Condition::Or(parts) => are_conditions(parts.as_slice(), leaves, arguments),
        Condition::Implies(left, right) => {
            is_condition(left.get(), leaves, arguments)
                && is_condition(right.get(), leaves, arguments)
        }
    }
}

#[cycle(ranging)]
fn are_conditions(parts: &[Condition], leaves: usize, arguments: usize) -> bool
    ensures { result ≡ list_all (λ part. part) (map (conditions.is_condition leaves arguments) parts.now) }
{
    for part in parts {
        if !is_condition(part, leaves, arguments) {
            return false;
        }
    }
    true
}

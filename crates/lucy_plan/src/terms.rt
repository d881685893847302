ghost use Rattle.std.specs.Prelude.{map};
ghost use Rattle.lucy_plan.specs.Faults as faults;

use crate::refusal::{PlanError, What};
use crate::rules::Rule;
use lucy_model::{Condition, MOST_CONSTANT, MOST_FACTOR, Share, Term};

/// Refuses a count outside its limit.
pub(crate) fn limit(what: What, least: u64, most: u64, count: u64) -> Result<(), PlanError>
    ensures { faults.Answers (faults.limit what least most count) result }
{
    if least <= count && count <= most {
        Ok(())
    } else {
        Err(PlanError::Limit { what, count })
    }
}

fn test_factors(shares: &[Share]) -> Result<(), PlanError>
    ensures { faults.Answers (faults.factor_fault shares.now) result }
{
    for share in shares {
        limit(What::Coefficient, 0, MOST_FACTOR, share.by.unsigned_abs())?;
    }
    Ok(())
}

fn test_slots(shares: &[Share], end: usize) -> Result<(), PlanError>
    ensures { faults.Answers (faults.slot_fault end shares.now) result }
{
    for share in shares {
        if share.slot as usize >= end {
            return Err(PlanError::BadIndex { index: share.slot });
        }
    }
    Ok(())
}

fn test_order(shares: &[Share]) -> Result<(), PlanError>
    ensures { faults.Answers (faults.order_fault 0 shares.now) result }
{
    let mut from = 0u64;
    for share in shares {
        let slot = u64::from(share.slot);
        if slot < from {
            return Err(PlanError::BadIndex { index: share.slot });
        }
        from = slot + 1;
    }
    Ok(())
}

/// Asks one question of a term over so many leaves and arguments.
pub(crate) fn test_term(
    rule: Rule,
    term: &Term,
    leaves: usize,
    arguments: usize,
) -> Result<(), PlanError>
    ensures { faults.Answers (faults.term_fault rule leaves arguments term.now) result }
{
    match rule {
        Rule::Factors => {
            test_factors(term.leaves.as_slice())?;
            test_factors(term.arguments.as_slice())
        }
        Rule::Constants => limit(
            What::Constant,
            0,
            MOST_CONSTANT,
            term.constant.unsigned_abs(),
        ),
        Rule::Slots => {
            test_slots(term.leaves.as_slice(), leaves)?;
            test_slots(term.arguments.as_slice(), arguments)
        }
        Rule::Orders => {
            test_order(term.leaves.as_slice())?;
            test_order(term.arguments.as_slice())
        }
    }
}

/// Asks one question of a place that is named alone: whether it is below `end`.
pub(crate) fn test_place(rule: Rule, place: u32, end: usize) -> Result<(), PlanError>
    ensures { faults.Answers (faults.place_fault rule end place) result }
{
    match rule {
        Rule::Slots => {
            if (place as usize) < end {
                Ok(())
            } else {
                Err(PlanError::BadIndex { index: place })
            }
        }
        Rule::Factors => Ok(()),
        Rule::Constants => Ok(()),
        Rule::Orders => Ok(()),
    }
}

/// Asks one question of a condition over so many leaves and arguments.
#[cycle(testing)]
pub(crate) fn test_condition(
    rule: Rule,
    condition: &Condition,
    leaves: usize,
    arguments: usize,
) -> Result<(), PlanError>
    ensures { faults.Answers (faults.condition_fault rule leaves arguments condition.now) result }
{
    match condition {
        Condition::True => Ok(()),
        Condition::False => Ok(()),
        Condition::Compare { term, op: _ } => test_term(rule, term, leaves, arguments),
        Condition::Is(leaf) => test_place(rule, *leaf, leaves),
        Condition::Not(part) => test_condition(rule, part.get(), leaves, arguments),
        Condition::And(parts) => test_conditions(rule, parts.as_slice(), leaves, arguments),
        Condition::Or(parts) => test_conditions(rule, parts.as_slice(), leaves, arguments),
        Condition::Implies(left, right) => {
            test_condition(rule, left.get(), leaves, arguments)?;
            test_condition(rule, right.get(), leaves, arguments)
        }
    }
}

#[cycle(testing)]
fn test_conditions(
    rule: Rule,
    parts: &[Condition],
    leaves: usize,
    arguments: usize,
) -> Result<(), PlanError>
    ensures { faults.Answers (faults.first_of (map (faults.condition_fault rule leaves arguments) parts.now)) result }
{
    for part in parts {
        test_condition(rule, part, leaves, arguments)?;
    }
    Ok(())
}

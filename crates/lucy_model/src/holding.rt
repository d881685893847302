ghost use Rattle.std.specs.Prelude.{◌≡◌, ◌^◌, ◌↔◌, IsTrue, [], true, length, map};
ghost use Rattle.std.specs.List.{list_all, list_any};
ghost use Rattle.lucy_model.specs.Numbers.{AllBelow};
ghost use Rattle.lucy_model.specs.Asked.{is_so};
ghost use Rattle.lucy_model.specs.Conditions.{is_condition, stands, holds_at, Holds};

use crate::conditions::{Condition, Op};
use crate::numbers::Numbers;
use crate::raws::Raw;
use crate::states::State;
use crate::values::value_over;

/// Whether a value stands in a relation to 0.
fn stands_to_zero(op: Op, value: i128) -> bool
    ensures { result ≡ stands op value }
{
    match op {
        Op::Le => value <= 0,
        Op::Lt => value < 0,
        Op::Ge => value >= 0,
        Op::Gt => value > 0,
        Op::Eq => value == 0,
        Op::Ne => value != 0,
    }
}

/// Whether a condition holds at numbers of leaves and of arguments.
#[cycle(holding)]
fn holds_over<N: Numbers>(condition: &Condition, numbers: &N, arguments: &[i64]) -> bool
    requires condition { IsTrue (is_condition (length (N.numbers numbers.now)) (length arguments.now) condition.now) }
    requires small { N.are_small numbers.now }
    ensures { IsTrue result ↔ Holds condition.now (N.numbers numbers.now) arguments.now }
{
    match condition {
        Condition::True => true,
        Condition::False => false,
        Condition::Compare { term, op } => stands_to_zero(
            *op,
            value_over(term, numbers, arguments),
        ),
        Condition::Is(leaf) => numbers.at(*leaf) >= 1,
        Condition::Not(part) => !holds_over(part.get(), numbers, arguments),
        Condition::And(parts) => all_hold(parts.as_slice(), numbers, arguments),
        Condition::Or(parts) => some_is(parts.as_slice(), numbers, arguments, true),
        Condition::Implies(left, right) => {
            !holds_over(left.get(), numbers, arguments)
                || holds_over(right.get(), numbers, arguments)
        }
    }
}

/// Whether all parts hold: none of them fails.
#[cycle(holding)]
#[tactic(auto, using(crate::proofs::Parts::all_unless))]
fn all_hold<N: Numbers>(parts: &[Condition], numbers: &N, arguments: &[i64]) -> bool
    requires parts { list_all (λ b. b)
        (map (is_condition (length (N.numbers numbers.now)) (length arguments.now)) parts.now)
        ≡ true }
    requires small { N.are_small numbers.now }
    ensures { IsTrue result
        ↔ IsTrue (list_all (λ t. t (N.numbers numbers.now) arguments.now) (map holds_at parts.now)) }
{
    !some_is(parts, numbers, arguments, false)
}

/// Whether some part holds, or whether some part fails, as `holding` says.
#[cycle(holding)]
fn some_is<N: Numbers>(parts: &[Condition], numbers: &N, arguments: &[i64], holding: bool) -> bool
    requires parts { list_all (λ b. b)
        (map (is_condition (length (N.numbers numbers.now)) (length arguments.now)) parts.now)
        ≡ true }
    requires small { N.are_small numbers.now }
    ensures { IsTrue result
        ↔ IsTrue (list_any (λ t. is_so holding (t (N.numbers numbers.now) arguments.now)) (map holds_at parts.now)) }
{
    for part in parts {
        if holds_over(part, numbers, arguments) == holding {
            return true;
        }
    }
    false
}

/// Whether a condition holds in a state, at the arguments of a call. It is a condition over so many
/// leaves and arguments.
pub fn holds(condition: &Condition, state: &State, arguments: &[i64]) -> bool
    requires { IsTrue (is_condition (length state.now) (length arguments.now) condition.now) }
    ensures { IsTrue result ↔ Holds condition.now state.now arguments.now }
{
    holds_over(condition, state, arguments)
}

/// Whether a condition without arguments holds at numbers that are below 2^69 in size.
pub fn holds_raw(condition: &Condition, raw: &Raw) -> bool
    requires condition { IsTrue (is_condition (length raw.now) 0 condition.now) }
    requires size { AllBelow (2 ^ 69) raw.now }
    ensures { IsTrue result ↔ Holds condition.now raw.now [] }
{
    holds_over(condition, raw, &[])
}

//! Labels, and how their lines are read.

ghost use Rattle.std.specs.Prelude.{◌≡◌, ◌≤◌, length, IfOk};
ghost use Rattle.lucy_io.specs.Outcomes.{Answers};
ghost use Rattle.lucy_names.specs.Plans.{AreNamesOf};
ghost use Rattle.lucy_session.specs.declared.answers.LabelError.TheVariants.{OutOfMemory};
ghost use Rattle.lucy_session.specs.Reading.{Reads};
ghost use Rattle.lucy_session.specs.Reading as reading;
ghost use Rattle.lucy_session.specs.Labels.{label_seen, claim_seen, IsClaim};
ghost use Rattle.lucy_session.specs.Labels as spec;

use crate::answers::LabelError;
use crate::cursor::Cursor;
use crate::expressions::read_expr;
use lucy_names::Names;
use lucy_plan::Plan;
use lucy_walks::Sketch;
use std::alloc::Global;

/// Which of the two states a label names.
#[derive(Clone, Copy, Debug, PartialEq, Eq)]
pub enum Side {
    Left,
    Right,
}

/// What a label says of a state.
#[derive(Drop)]
pub enum Claim {
    /// It is never reached.
    Unreach,
    /// It is reached by this expression.
    Reach(Sketch),
}

/// What a line says.
#[derive(Drop)]
pub struct Label {
    pub side: Side,
    pub claim: Claim,
}

// How many parentheses may stand open at once.
const MOST_OPEN: u32 = 256;

#[tactic(auto, unfolding(crate::specs::Labels::side))]
fn read_side(cursor: &mut Cursor<'_>) -> Result<Side, LabelError>
    ensures read { Reads (λ s. s) (spec.side cursor.old) result cursor.new }
    ensures shorter { IfOk result (λ _. length cursor.new ≤ length cursor.old) }
{
    if cursor.eat(b"left ") {
        Ok(Side::Left)
    } else if cursor.eat(b"right ") {
        Ok(Side::Right)
    } else {
        Err(LabelError::BadLabel)
    }
}

#[tactic(auto, unfolding(crate::specs::Labels::reach))]
fn read_reach(
    alloc: Global,
    plan: &Plan,
    names: &Names,
    cursor: &mut Cursor<'_>,
) -> Result<Claim, LabelError>
    requires names { AreNamesOf plan.now names.now }
    ensures read { Reads claim_seen (spec.reach plan.now cursor.old) result cursor.new }
    ensures claim { IfOk result (λ c. IsClaim plan.now (length cursor.old) (length cursor.new) (claim_seen c)) }
{
    cursor.expect(b"reach ")?;
    read_expr(alloc, plan, names, cursor, MOST_OPEN).map(|sketch| Claim::Reach(sketch))
}

#[tactic(auto, unfolding(crate::specs::Labels::claim))]
fn read_claim(
    alloc: Global,
    plan: &Plan,
    names: &Names,
    cursor: &mut Cursor<'_>,
) -> Result<Claim, LabelError>
    requires names { AreNamesOf plan.now names.now }
    ensures read { Reads claim_seen (spec.claim plan.now cursor.old) result cursor.new }
    ensures claim { IfOk result (λ c. IsClaim plan.now (length cursor.old) (length cursor.new) (claim_seen c)) }
{
    if cursor.eat(b"unreach") {
        Ok(Claim::Unreach)
    } else {
        read_reach(alloc, plan, names, cursor)
    }
}

// A line without the CR at its end.
#[tactic(auto, unfolding(crate::specs::Labels::without_return))]
fn without_return(line: &[u8]) -> &[u8]
    ensures value { result.now ≡ spec.without_return line.now }
    ensures shorter { length result.now ≤ length line.now }
{
    match line {
        [front @ .., b'\r'] => front,
        _ => line,
    }
}

/// What a line says, or `BadLabel` where it is not the text of a label.
#[tactic(auto, unfolding(crate::specs::Labels::label_of))]
pub fn read_label(
    alloc: Global,
    plan: &Plan,
    names: &Names,
    line: &[u8],
) -> Result<Label, LabelError>
    requires names { AreNamesOf plan.now names.now }
    ensures read { Answers OutOfMemory label_seen (spec.label_of plan.now line.now) result }
    ensures claim { IfOk result (λ l. IsClaim plan.now (length line.now) 0 (claim_seen l.claim)) }
{
    let mut cursor = Cursor::new(without_return(line));
    let side = read_side(&mut cursor)?;
    let claim = read_claim(alloc, plan, names, &mut cursor)?;
    cursor.end()?;
    Ok(Label { side, claim })
}

//! What a session of labels writes.

ghost use Rattle.std.specs.Prelude.{◌≡◌, ◌++◌, ◌≢◌, OnOk, IfSome, map};
ghost use Rattle.std.specs.Option.{option_map};
ghost use Rattle.lucy_report.specs.ExpressionTexts.{IsNamed};
ghost use Rattle.lucy_report.specs.LabelTexts as spec;

use crate::expression_lines::write_expression;
use crate::writing::{write_counted, write_state};
use lucy_expr::Expr;
use lucy_io::write_text;
use lucy_model::State;
use lucy_names::Names;
use lucy_session::LabelError;
use std::alloc::AllocError;

/// Appends two states whose merge breaks the invariant.
#[tactic(auto, unfolding(crate::specs::LabelTexts::pair_line))]
pub fn write_pair_line(out: &mut Vec<u8>, left: &State, right: &State) -> Result<(), AllocError>
    ensures { OnOk result (out.new.items ≡ out.old.items ++ spec.pair_line left.now right.now) }
{
    write_text(out, "pair ")?;
    write_state(out, left.as_slice())?;
    write_text(out, " ")?;
    write_state(out, right.as_slice())?;
    write_text(out, "\n")?;
    Ok(())
}

// A line of an expression, behind this word.
#[tactic(auto, unfolding(crate::specs::LabelTexts::expression_line))]
fn write_line(out: &mut Vec<u8>, word: &str, names: &Names, expr: &Expr) -> Result<(), AllocError>
    requires { IsNamed names.now.txns expr.now.tree }
    ensures { OnOk result (out.new.items ≡ out.old.items ++ spec.expression_line word.now names.now.txns expr.now.tree) }
{
    write_text(out, word)?;
    write_text(out, " ")?;
    write_expression(out, names, expr)?;
    write_text(out, "\n")?;
    Ok(())
}

// What was found for a state, if something was.
fn write_found_line(
    out: &mut Vec<u8>,
    word: &str,
    names: &Names,
    found: Option<&Expr>,
) -> Result<(), AllocError>
    requires { IfSome found (λ e. IsNamed names.now.txns e.now.tree) }
    ensures { OnOk result (out.new.items ≡ out.old.items ++ spec.found_line word.now names.now.txns (option_map (λ e. e.now) found.entry)) }
{
    match found {
        None => Ok(()),
        Some(expr) => write_line(out, word, names, expr),
    }
}

/// Appends what was found for both states of a pair. The names have one for the transaction of each
/// call in it.
#[tactic(auto, unfolding(crate::specs::LabelTexts::found_lines))]
pub fn write_found_lines(
    out: &mut Vec<u8>,
    names: &Names,
    left: Option<&Expr>,
    right: Option<&Expr>,
) -> Result<(), AllocError>
    requires left { IfSome left (λ e. IsNamed names.now.txns e.now.tree) }
    requires right { IfSome right (λ e. IsNamed names.now.txns e.now.tree) }
    ensures { OnOk result (out.new.items ≡ out.old.items ++ spec.found_lines names.now.txns (option_map (λ e. e.now) left.entry, option_map (λ e. e.now) right.entry)) }
{
    write_found_line(out, "found left", names, left)?;
    write_found_line(out, "found right", names, right)?;
    Ok(())
}

// The number of the first call that breaks the invariant.
#[tactic(auto, unfolding(crate::specs::LabelTexts::not_reached))]
fn write_not_reached(out: &mut Vec<u8>, at: u64) -> Result<(), AllocError>
    ensures { OnOk result (out.new.items ≡ out.old.items ++ spec.not_reached at) }
{
    write_counted(out, "not reached at ", at)?;
    Ok(())
}

fn write_refusal_words(out: &mut Vec<u8>, error: LabelError) -> Result<(), AllocError>
    ensures { OnOk result (out.new.items ≡ out.old.items ++ spec.refusal_words error) }
{
    match error {
        LabelError::BadLabel => write_text(out, "bad label"),
        LabelError::AlreadyReachable => write_text(out, "already reachable"),
        LabelError::TooMany => write_text(out, "too many"),
        LabelError::NotReached { at } => write_not_reached(out, at),
        LabelError::OtherState => write_text(out, "other state"),
        LabelError::OutOfMemory => Err(AllocError),
    }
}

/// Appends why a label is refused. Want of memory is no refusal, and an error here.
#[tactic(auto, unfolding(crate::specs::LabelTexts::refused_line))]
pub fn write_refused_line(out: &mut Vec<u8>, error: LabelError) -> Result<(), AllocError>
    ensures { OnOk result (out.new.items ≡ out.old.items ++ spec.refused_line error) }
{
    write_text(out, "refused: ")?;
    write_refusal_words(out, error)?;
    write_text(out, "\n")?;
    Ok(())
}

/// Appends that the input ended while a pair was shown.
#[tactic(auto, unfolding(crate::specs::LabelTexts::undecided))]
pub fn write_undecided(out: &mut Vec<u8>) -> Result<(), AllocError>
    ensures { OnOk result (out.new.items ≡ out.old.items ++ spec.undecided) }
{
    write_text(out, "undecided\n")
}

// Each state behind a space.
fn write_spaced_states(out: &mut Vec<u8>, states: &[State]) -> Result<(), AllocError>
    ensures { OnOk result (out.new.items ≡ out.old.items ++ spec.spaced_states states.now) }
{
    for state in states {
        write_text(out, " ")?;
        write_state(out, state.as_slice())?;
    }
    Ok(())
}

#[tactic(auto, unfolding(crate::specs::LabelTexts::confluent_if))]
fn write_confluent_if(out: &mut Vec<u8>, states: &[State]) -> Result<(), AllocError>
    ensures { OnOk result (out.new.items ≡ out.old.items ++ spec.confluent_if states.now) }
{
    write_text(out, "confluent if unreachable:")?;
    write_spaced_states(out, states)?;
    write_text(out, "\n")?;
    Ok(())
}

/// Appends that the plan is confluent, if none of these states is reached.
pub fn write_confluent(out: &mut Vec<u8>, states: &[State]) -> Result<(), AllocError>
    ensures { OnOk result (out.new.items ≡ out.old.items ++ spec.confluent states.now) }
{
    if states.is_empty() {
        write_text(out, "confluent\n")
    } else {
        write_confluent_if(out, states)
    }
}

/// Appends that the plan is not confluent: two expressions that are reached, whose merge breaks the
/// invariant. The names have one for the transaction of each call in them.
#[tactic(auto, unfolding(crate::specs::LabelTexts::not_confluent))]
pub fn write_not_confluent(
    out: &mut Vec<u8>,
    names: &Names,
    left: &Expr,
    right: &Expr,
) -> Result<(), AllocError>
    requires left { IsNamed names.now.txns left.now.tree }
    requires right { IsNamed names.now.txns right.now.tree }
    ensures { OnOk result (out.new.items ≡ out.old.items ++ spec.not_confluent names.now.txns left.now.tree right.now.tree) }
{
    write_text(out, "not confluent\n")?;
    write_line(out, "left", names, left)?;
    write_line(out, "right", names, right)?;
    Ok(())
}

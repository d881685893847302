//! Expressions as text.

ghost use Rattle.std.specs.Prelude.{◌≡◌, ◌++◌, ◌<◌, ◌∷◌, [], List, All, OnOk, IfOk, reverse, length};
ghost use Rattle.lucy_expr.specs.declared.turns.Turn.{Turn as TurnValue};
ghost use Rattle.lucy_report.specs.ExpressionTexts as spec;
ghost use Rattle.lucy_report.specs.ExpressionSteps as steps;

use crate::writing::write_numbered;
use lucy_expr::{Expr, Id, Turn};
use lucy_io::{write_number, write_text};
use lucy_names::Names;
use lucy_plan::Call;
use std::alloc::{AllocError, Global};

/// Which part of a node is being written.
#[derive(Clone, Copy)]
pub enum Open {
    /// Its last part, behind which its parenthesis closes.
    Last,
    /// The left part of a merge.
    Left,
}

// Each number behind a space.
fn write_spaced(out: &mut Vec<u8>, numbers: &[i64]) -> Result<(), AllocError>
    ensures { OnOk result (out.new.items ≡ out.old.items ++ spec.spaced_numbers numbers.now) }
{
    for number in numbers {
        write_text(out, " ")?;
        write_number(out, *number)?;
    }
    Ok(())
}

// A call of a replica, and the space before what it is applied to.
#[tactic(auto, unfolding(crate::specs::ExpressionTexts::call_words))]
fn write_call(out: &mut Vec<u8>, names: &Names, replica: u32, call: &Call) -> Result<(), AllocError>
    requires { call.now.txn < length names.now.txns }
    ensures { OnOk result (out.new.items ≡ out.old.items ++ spec.call_words names.now.txns replica call.now) }
{
    write_numbered(out, "(do ", replica)?;
    write_text(out, " ")?;
    write_text(out, names.txn(call.txn))?;
    write_spaced(out, call.arguments.as_slice())?;
    write_text(out, " ")?;
    Ok(())
}

// What stands behind a whole expression, up to the next one.
fn write_closing(out: &mut Vec<u8>, pending: &mut Vec<Open>) -> Result<(), AllocError>
    ensures text { OnOk result (out.new.items ≡ out.old.items ++ steps.closing (reverse pending.old.items)) }
    ensures pending { OnOk result (reverse pending.new.items ≡ steps.still_open (reverse pending.old.items)) }
{
    while let Some(innermost) = pending.pop() {
        match innermost {
            Open::Last => write_text(out, ")")?,
            Open::Left => {
                write_text(out, " ")?;
                pending.push(Open::Last)?;
                return Ok(());
            }
        }
    }
    Ok(())
}

// One node, with what stands behind it up to the next one.
fn write_turn(
    out: &mut Vec<u8>,
    names: &Names,
    pending: &mut Vec<Open>,
    turn: &Turn,
) -> Result<(), AllocError>
    requires { steps.IsTurnNamed names.now.txns turn.now }
    ensures { OnOk result ((rest : List TurnValue) → out.new.items ++ steps.text_on names.now.txns (reverse pending.new.items) rest
        ≡ out.old.items ++ steps.text_on names.now.txns (reverse pending.old.items) (turn.now ∷ rest)) }
{
    match turn {
        Turn::Start => {
            write_text(out, "start")?;
            write_closing(out, pending)?;
        }
        Turn::Apply { id, call } => {
            write_call(out, names, id.replica, call)?;
            pending.push(Open::Last)?;
        }
        Turn::Merge => {
            write_text(out, "(merge ")?;
            pending.push(Open::Left)?;
        }
    }
    Ok(())
}

// The text of these nodes.
fn write_turns(out: &mut Vec<u8>, names: &Names, turns: &[Turn]) -> Result<(), AllocError>
    requires { All (steps.IsTurnNamed names.now.txns) turns.now }
    ensures { OnOk result (out.new.items ≡ out.old.items ++ steps.text_on names.now.txns [] turns.now) }
{
    let mut pending = Vec::new(*out.allocator());
    for turn in turns {
        write_turn(out, names, &mut pending, turn)?;
    }
    Ok(())
}

/// Appends an expression: the start, a call on an expression, or a merge of two. The names have one
/// for the transaction of each call in it.
pub fn write_expression(out: &mut Vec<u8>, names: &Names, expr: &Expr) -> Result<(), AllocError>
    requires { spec.IsNamed names.now.txns expr.now.tree }
    ensures { OnOk result (out.new.items ≡ out.old.items ++ spec.expression_text names.now.txns expr.now.tree) }
{
    let turns = expr.flat(*out.allocator())?;
    write_turns(out, names, turns.as_slice())
}

/// An expression as it stands in a label: the start, a call on an expression, or a merge of two. The
/// names have one for the transaction of each call in it.
pub fn expr_text(alloc: Global, names: &Names, expr: &Expr) -> Result<Vec<u8>, AllocError>
    requires { spec.IsNamed names.now.txns expr.now.tree }
    ensures { IfOk result (λ text. text.items ≡ spec.expression_text names.now.txns expr.now.tree) }
{
    let mut text = Vec::new(alloc);
    write_expression(&mut text, names, expr)?;
    Ok(text)
}

//! Expressions, and how their texts are read.

ghost use Rattle.std.specs.Prelude.{◌≡◌, ◌+◌, ◌-◌, ◌*◌, ◌<◌, ◌≤◌, [], IsTrue, IfOk, IfSome, OnOk, length, option_copied, int_le, ◌&&◌, pos};
ghost use Rattle.lucy_names.specs.Plans.{AreNamesOf};
ghost use Rattle.lucy_names.specs.Tables.{place_of};
ghost use Rattle.lucy_plan.specs.Calls.{Fits, are_arguments};
ghost use Rattle.lucy_walks.specs.Sketches.{tree_of};
ghost use Rattle.lucy_session.specs.Reading.{Reads};
ghost use Rattle.lucy_session.specs.Labels.{IsRead};
ghost use Rattle.lucy_session.specs.Expressions as spec;

use crate::answers::LabelError;
use crate::cursor::Cursor;
use lucy_io::read_decimal;
use lucy_names::Names;
use lucy_plan::{Call, Limits, Plan, Txn};
use lucy_walks::Sketch;
use sqlite_items::Items;
use std::alloc::Global;
use std::sync::Arc;

// A canonical decimal from `lo` to `hi`.
#[tactic(auto, unfolding(crate::specs::Expressions::between))]
fn between(text: &[u8], lo: i64, hi: i64) -> Option<i64>
    ensures value { result ≡ spec.between lo hi text.now }
    ensures within { IfSome result (λ x. IsTrue (int_le lo x && int_le x hi)) }
{
    let number = i64::try_from(read_decimal(text)?).ok()?;
    if lo <= number && number <= hi {
        Some(number)
    } else {
        None
    }
}

// A number within limits, and a space.
#[tactic(auto, unfolding(crate::specs::Expressions::number))]
fn read_number(cursor: &mut Cursor<'_>, limits: Limits) -> Result<i64, LabelError>
    ensures read { Reads (λ x. x) (spec.number limits.lo limits.hi cursor.old) result cursor.new }
    ensures within { IfOk result (λ x. IsTrue (int_le limits.lo x && int_le x limits.hi)) }
    ensures shorter { IfOk result (λ _. length cursor.new < length cursor.old) }
{
    let digits = cursor.field()?;
    match between(digits, limits.lo, limits.hi) {
        Some(number) => Ok(number),
        None => Err(LabelError::BadLabel),
    }
}

// A replica, 0 to 15, and a space.
#[tactic(auto, unfolding(crate::specs::Expressions::replica, crate::specs::Expressions::number))]
fn read_replica(cursor: &mut Cursor<'_>) -> Result<u32, LabelError>
    ensures read { Reads (λ r. r) (spec.replica cursor.old) result cursor.new }
    ensures few { IfOk result (λ r. r < 16) }
    ensures shorter { IfOk result (λ _. length cursor.new < length cursor.old) }
{
    let digits = cursor.field()?;
    match between(digits, 0, 15) {
        Some(number) => Ok(number.unsigned_abs() as u32),
        None => Err(LabelError::BadLabel),
    }
}

// A number for each parameter, a space behind each.
fn read_arguments(
    alloc: Global,
    cursor: &mut Cursor<'_>,
    mut params: &[Limits],
) -> Result<Items<i64>, LabelError>
    ensures read { Reads (λ a. a) (spec.arguments_on [] params.entry.now cursor.old) result cursor.new }
    ensures fit { IfOk result (λ a. IsTrue (are_arguments params.entry.now a)) }
    ensures shorter { IfOk result (λ _. length cursor.new ≤ length cursor.old) }
{
    let mut arguments = Items::new(alloc);
    while let [limits, others @ ..] = params {
        let argument = read_number(cursor, *limits)?;
        arguments.push(argument)?;
        params = others;
    }
    Ok(arguments)
}

fn params_of(txn: Option<&Txn>) -> &[Limits]
    ensures { result.now ≡ spec.params_of (option_copied txn.entry) }
{
    match txn {
        None => &[],
        Some(txn) => txn.params.as_slice(),
    }
}

// A transaction's name, and a space.
#[tactic(auto, unfolding(crate::specs::Expressions::txn))]
fn read_txn(plan: &Plan, names: &Names, cursor: &mut Cursor<'_>) -> Result<u32, LabelError>
    requires names { AreNamesOf plan.now names.now }
    ensures read { Reads (λ t. t) (spec.txn plan.now cursor.old) result cursor.new }
    ensures there { IfOk result (λ t. t < length plan.now.txns) }
    ensures shorter { IfOk result (λ _. length cursor.new < length cursor.old) }
{
    let _plan = plan;
    let name = cursor.field()?;
    match names.find_txn_bytes(name) {
        Some(txn) => Ok(txn),
        None => Err(LabelError::BadLabel),
    }
}

// A transaction's name and its arguments.
#[tactic(auto, unfolding(crate::specs::Expressions::call))]
fn read_call(
    alloc: Global,
    plan: &Plan,
    names: &Names,
    cursor: &mut Cursor<'_>,
) -> Result<Call, LabelError>
    requires names { AreNamesOf plan.now names.now }
    ensures read { Reads (λ c. c) (spec.call plan.now cursor.old) result cursor.new }
    ensures fits { IfOk result (Fits plan.now) }
    ensures shorter { IfOk result (λ _. length cursor.new < length cursor.old) }
{
    let txn = read_txn(plan, names, cursor)?;
    let params = params_of(plan.parts().txns.get(txn as usize));
    read_arguments(alloc, cursor, params).map(|arguments| Call { txn, arguments })
}

// `Ok` where one more parenthesis may be opened.
#[tactic(auto, unfolding(crate::specs::Expressions::opened))]
fn opened(plan: &Plan, cursor: &Cursor<'_>, depth: u32) -> Result<(), LabelError>
    ensures read { Reads (λ u. u) (spec.opened depth cursor.now) result cursor.now }
    ensures inside { OnOk result (spec.Inside plan.now depth) }
{
    let _plan = plan;
    if depth == 0 {
        Err(LabelError::BadLabel)
    } else {
        Ok(())
    }
}

// A call and what it is applied to, behind their parenthesis.
#[cycle(expressions)]
#[tactic(auto, unfolding(crate::specs::Expressions::apply))]
fn read_apply(
    alloc: Global,
    plan: &Plan,
    names: &Names,
    cursor: &mut Cursor<'_>,
    depth: u32,
) -> Result<Sketch, LabelError>
    requires names { AreNamesOf plan.now names.now }
    ensures read { Reads tree_of (spec.apply plan.now depth (spec.inner plan.now depth) cursor.old) result cursor.new }
    ensures sketch { IfOk result (λ s. IsRead plan.now (length cursor.old + 4) (length cursor.new) (tree_of s)) }
{
    opened(plan, cursor, depth)?;
    let replica = read_replica(cursor)?;
    let call = read_call(alloc, plan, names, cursor)?;
    let inner = read_expr(alloc, plan, names, cursor, depth - 1)?;
    cursor.expect(b")")?;
    let inner = Arc::new(alloc, inner)?;
    Ok(Sketch::Apply {
        replica,
        call,
        inner,
    })
}

// Two expressions that are merged, behind their parenthesis.
#[cycle(expressions)]
#[tactic(auto, unfolding(crate::specs::Expressions::merge))]
fn read_merge(
    alloc: Global,
    plan: &Plan,
    names: &Names,
    cursor: &mut Cursor<'_>,
    depth: u32,
) -> Result<Sketch, LabelError>
    requires names { AreNamesOf plan.now names.now }
    ensures read { Reads tree_of (spec.merge plan.now depth (spec.inner plan.now depth) cursor.old) result cursor.new }
    ensures sketch { IfOk result (λ s. IsRead plan.now (length cursor.old + 7) (length cursor.new) (tree_of s)) }
{
    opened(plan, cursor, depth)?;
    let left = read_expr(alloc, plan, names, cursor, depth - 1)?;
    let left = Arc::new(alloc, left)?;
    cursor.expect(b" ")?;
    let right = read_expr(alloc, plan, names, cursor, depth - 1)?;
    let right = Arc::new(alloc, right)?;
    cursor.expect(b")")?;
    Ok(Sketch::Merge { left, right })
}

/// An expression in which `depth` more parentheses may stand open, as a sketch: its calls have no names yet.
#[cycle(expressions)]
#[tactic(auto, unfolding(crate::specs::Expressions::expr_in))]
pub fn read_expr(
    alloc: Global,
    plan: &Plan,
    names: &Names,
    cursor: &mut Cursor<'_>,
    depth: u32,
) -> Result<Sketch, LabelError>
    requires names { AreNamesOf plan.now names.now }
    ensures read { Reads tree_of (spec.expr plan.now depth cursor.old) result cursor.new }
    ensures sketch { IfOk result (λ s. IsRead plan.now (length cursor.old) (length cursor.new) (tree_of s)) }
{
    if cursor.eat(b"start") {
        Ok(Sketch::Start)
    } else if cursor.eat(b"(do ") {
        read_apply(alloc, plan, names, cursor, depth)
    } else if cursor.eat(b"(merge ") {
        read_merge(alloc, plan, names, cursor, depth)
    } else {
        Err(LabelError::BadLabel)
    }
}

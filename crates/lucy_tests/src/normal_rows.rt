use crate::formulas::{parts_of, spelled, spelled_clauses};
use crate::making::{plan_of, wrong_row};
use lucy_clauses::{Formula, Range, are_small};
use lucy_model::{Condition, is_condition};
use lucy_normal::{
    Normal, Variables, add_all, add_any, at_least, at_least_other, at_most, at_most_other, linear,
    normal_form, one_all, one_any, put, put_all,
};
use lucy_plan::Plan;
use sqlite_items::Items;
use std::alloc::{AllocError, Global};

// A formula over x and y, of 0 to 5, without a clause.
fn empty(alloc: Global) -> Result<Formula, AllocError> {
    let range = Range { lo: 0, hi: 5 };
    Ok(Formula {
        ranges: Items::from_slice(alloc, &[range, range])?,
        clauses: Items::new(alloc),
    })
}

fn two(alloc: Global, first: Normal, second: Normal) -> Result<Items<Normal>, AllocError> {
    let mut parts = Items::new(alloc);
    parts.push(first)?;
    parts.push(second)?;
    Ok(parts)
}

// x <= 1 and y >= 2
fn inner(alloc: Global) -> Result<Normal, AllocError> {
    let first = at_most(alloc, 0, 1)?;
    let second = at_least(alloc, 1, 2)?;
    let parts = two(alloc, Normal::Atom(first), Normal::Atom(second))?;
    Ok(Normal::All(parts))
}

// x <= y or the inner part
fn within(alloc: Global) -> Result<Normal, AllocError> {
    let first = at_most_other(alloc, 0, 1)?;
    let second = inner(alloc)?;
    let parts = two(alloc, Normal::Atom(first), second)?;
    Ok(Normal::Any(parts))
}

// x >= y, and the part before
fn middle(alloc: Global) -> Result<Normal, AllocError> {
    let first = at_least_other(alloc, 0, 1)?;
    let second = within(alloc)?;
    let parts = two(alloc, Normal::Atom(first), second)?;
    Ok(Normal::All(parts))
}

// y <= 4 or the middle part
fn outer(alloc: Global) -> Result<Normal, AllocError> {
    let first = at_most(alloc, 1, 4)?;
    let second = middle(alloc)?;
    let parts = two(alloc, Normal::Atom(first), second)?;
    Ok(Normal::Any(parts))
}

// Whether the formula with the clauses of a normal condition is spelled so.
fn is_spelled(alloc: Global, part: &Normal, want: &str) -> Option<bool> {
    let mut formula = empty(alloc).ok()?;
    put(alloc, &mut formula, part).ok()?;
    let text = spelled(alloc, &formula).ok()?;
    Some(text.as_str() == want)
}

// The same with the clauses alone.
fn has_clauses(alloc: Global, part: &Normal, want: &str) -> Option<bool> {
    let mut formula = empty(alloc).ok()?;
    put(alloc, &mut formula, part).ok()?;
    let text = spelled_clauses(alloc, &formula).ok()?;
    Some(text.as_str() == want)
}

fn is_outer_spelled(alloc: Global, want: &str) -> Option<bool> {
    let part = outer(alloc).ok()?;
    is_spelled(alloc, &part, want)
}

// The inner part and what holds nowhere.
fn parts(alloc: Global) -> Result<Items<Normal>, AllocError> {
    let inner = inner(alloc)?;
    two(alloc, inner, Normal::Any(Items::new(alloc)))
}

// Whether the clauses of these parts, one after the other, are spelled so.
fn are_spelled(alloc: Global, parts: &[Normal], want: &str) -> Option<bool> {
    let mut formula = empty(alloc).ok()?;
    put_all(alloc, &mut formula, parts).ok()?;
    let text = spelled_clauses(alloc, &formula).ok()?;
    Some(text.as_str() == want)
}

fn are_several_spelled(alloc: Global, want: &str) -> Option<bool> {
    let parts = parts(alloc).ok()?;
    are_spelled(alloc, parts.as_slice(), want)
}

// The text of a row, with its line ends.
fn lines_of(alloc: Global, text: &str) -> Result<String, AllocError> {
    let mut lines = String::new(alloc);
    for line in text.split_terminator('/') {
        lines.push_str(line)?;
        lines.push_str("\n")?;
    }
    Ok(lines)
}

// The same where `/` stands for LF.
fn has_lines(alloc: Global, part: &Normal, want: &str) -> Option<bool> {
    let want = lines_of(alloc, want).ok()?;
    has_clauses(alloc, part, want.as_str())
}

// A sum of parts that is at most a bound, and its clauses, with `/` for LF.
const LINEARS: &str = "2*0 4*1|5|1*0 2*1 <= 2/
-2*1 -2*0|-3|-1*0 -1*1 <= -2/
5*3 -5*3|0|
5*3 -5*3|-1|none/";

fn normal_of(alloc: Global, parts: &str, bound: i128) -> Option<Normal> {
    let parts = parts_of(alloc, parts)?;
    if !are_small(&parts) || bound.unsigned_abs() > 9 {
        return None;
    }
    linear(alloc, &parts, bound).ok()
}

fn is_normal(alloc: Global, row: &str) -> Option<bool> {
    let mut fields = row.split('|');
    let parts = fields.next()?;
    let part = normal_of(alloc, parts, fields.next()?.parse::<i128>().ok()?)?;
    has_lines(alloc, &part, fields.next()?)
}

// The inner part is spread among the parts of an `All`, the outer one is a part.
fn flat_all(alloc: Global) -> Result<Normal, AllocError> {
    let mut parts = Items::new(alloc);
    add_all(alloc, &mut parts, inner(alloc)?)?;
    add_all(alloc, &mut parts, outer(alloc)?)?;
    Ok(one_all(parts))
}

fn is_flat_all(alloc: Global, want: &str) -> Option<bool> {
    let part = flat_all(alloc).ok()?;
    has_clauses(alloc, &part, want)
}

// The inner part is one of an `Any`, the outer one is spread.
fn flat_any(alloc: Global) -> Result<Normal, AllocError> {
    let mut parts = Items::new(alloc);
    add_any(alloc, &mut parts, inner(alloc)?)?;
    add_any(alloc, &mut parts, outer(alloc)?)?;
    Ok(one_any(parts))
}

fn is_flat_any(alloc: Global, want: &str) -> Option<bool> {
    let part = flat_any(alloc).ok()?;
    has_clauses(alloc, &part, want)
}

// The inner part alone, so without a name.
fn alone(alloc: Global) -> Result<Normal, AllocError> {
    let mut parts = Items::new(alloc);
    add_any(alloc, &mut parts, inner(alloc)?)?;
    Ok(one_any(parts))
}

fn is_alone(alloc: Global, want: &str) -> Option<bool> {
    let part = alone(alloc).ok()?;
    has_clauses(alloc, &part, want)
}

// The leaf x, a condition on it and on another leaf y, its clauses on the variables 4 and 5, and those of its negative, with `/` for
// LF.
const NORMAL_FORMS: &str = "max x in 0..9;|true||none/
max x in 0..9;|false|none/|
orflag x;|x|-1*4 <= -1/|1*4 <= 0/
max x in 0..9;|x + y <= 1|1*4 1*5 <= 1/|-1*4 -1*5 <= -2/
max x in 0..9;|x > y|-1*4 1*5 <= -1/|1*4 -1*5 <= 0/
max x in 0..9;|2*x < 3*y|2*4 -3*5 <= -1/|-2*4 3*5 <= 0/
max x in 0..9;|2*x + 2*y >= 3|-1*4 -1*5 <= -2/|1*4 1*5 <= 1/
max x in 0..9;|x = y|1*4 -1*5 <= 0/-1*4 1*5 <= 0/|1*4 -1*5 <= -1, -1*4 1*5 <= -1/";

// The normal form of a condition on the variables 4 and 5, or of its negative.
fn turned(alloc: Global, condition: &Condition, positive: bool) -> Option<Normal> {
    if !is_condition(condition, 2, 0) {
        return None;
    }
    let at = Variables {
        first: 4,
        leaves: 2,
    };
    normal_form(alloc, condition, at, positive).ok()
}

fn is_turned(alloc: Global, condition: &Condition, positive: bool, want: &str) -> Option<bool> {
    let part = turned(alloc, condition, positive)?;
    has_lines(alloc, &part, want)
}

// A plan with this leaf and this invariant.
fn plan_with(alloc: Global, leaf: &str, invariant: &str) -> Option<Plan> {
    let text = format!(in alloc;
        "lucy 1 object {{ {} max y in 0..9; }} start {{ }} invariant {}; segment main when true do; end",
        leaf, invariant
    );
    plan_of(alloc, &text.ok()?)
}

fn are_turned(alloc: Global, plan: &Plan, want: &str, negative: &str) -> Option<bool> {
    let condition = &plan.parts().invariant;
    let yes = is_turned(alloc, condition, true, want)?;
    let no = is_turned(alloc, condition, false, negative)?;
    Some(yes && no)
}

fn is_right(alloc: Global, row: &str) -> Option<bool> {
    let mut words = row.split('|');
    let plan = plan_with(alloc, words.next()?, words.next()?)?;
    let right = are_turned(alloc, &plan, words.next()?, words.next()?);
    drop(plan);
    right
}

// Parts within parts are named.
const OUTER: &str = "over 0..5 0..5 0..1 0..1
1*1 <= 4, -1*2 <= -1
1*2 <= 0, -1*0 1*1 <= 0
1*2 <= 0, 1*0 -1*1 <= 0, -1*3 <= -1
1*3 <= 0, 1*0 <= 1
1*3 <= 0, -1*1 <= -2
";

// Several are put in order.
const SEVERAL: &str = "1*0 <= 1\n-1*1 <= -2\nnone\n";

// An `All` is flat.
const FLAT_ALL: &str = "1*0 <= 1
-1*1 <= -2
1*1 <= 4, -1*2 <= -1
1*2 <= 0, -1*0 1*1 <= 0
1*2 <= 0, 1*0 -1*1 <= 0, -1*3 <= -1
1*3 <= 0, 1*0 <= 1
1*3 <= 0, -1*1 <= -2
";

// An `Any` is flat.
const FLAT_ANY: &str = "-1*2 <= -1, 1*1 <= 4, -1*3 <= -1
1*2 <= 0, 1*0 <= 1
1*2 <= 0, -1*1 <= -2
1*3 <= 0, -1*0 1*1 <= 0
1*3 <= 0, 1*0 -1*1 <= 0, -1*4 <= -1
1*4 <= 0, 1*0 <= 1
1*4 <= 0, -1*1 <= -2
";

// A part alone stands for itself.
const ALONE: &str = "1*0 <= 1\n-1*1 <= -2\n";

fn are_spelled_so(alloc: Global) -> [Option<bool>; 5] {
    [
        is_outer_spelled(alloc, OUTER),
        are_several_spelled(alloc, SEVERAL),
        is_flat_all(alloc, FLAT_ALL),
        is_flat_any(alloc, FLAT_ANY),
        is_alone(alloc, ALONE),
    ]
}

#[test]
fn normal_conditions_are_put(rt: HostRuntime) {
    assert_eq!(rt; are_spelled_so(rt.alloc()), [Some(true); 5]);
}

fn wrong_rows(alloc: Global) -> [Option<&'static str>; 2] {
    [
        wrong_row(alloc, LINEARS, is_normal),
        wrong_row(alloc, NORMAL_FORMS, is_right),
    ]
}

#[test]
fn conditions_have_normal_forms(rt: HostRuntime) {
    assert_eq!(rt; wrong_rows(rt.alloc()), [None; 2]);
}

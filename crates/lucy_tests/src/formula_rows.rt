use crate::asking::{Question, formula_of};
use crate::formulas::{is_model, spelled};
use crate::making::{numbers_of, plan_of, wrong_row};
use lucy_clauses::Formula;
use lucy_closure::{read_pair, read_state};
use lucy_plan::Plan;
use std::alloc::Global;

// x <= y in the range 0..10.
const ORDERED: &str =
    "lucy 1 object { max x in 0..10; max y in 0..10; } start { } invariant x <= y; segment main when true do; end";

// x + y <= 1 in the range 0..1.
const FEW: &str =
    "lucy 1 object { max x in 0..1; max y in 0..1; } start { } invariant x + y <= 1; segment main when true do; end";

// The greater x and the lesser y; the segment is that where x > 0 only x = y, but for (2, 2).
const MIXED: &str =
    "lucy 1 object { max x in 0..3; min y in 0..3; } start { } invariant 2*x + 2*y >= 3; segment main when x > 0 => x = y except (2, 2) do; end";

fn has_text(alloc: Global, formula: &Formula, want: &str) -> Option<bool> {
    let text = spelled(alloc, formula).ok()?;
    Some(text.as_str() == want)
}

// Whether the formula of a question is spelled so.
fn is_spelled(alloc: Global, plan: &str, question: Question, want: &str) -> Option<bool> {
    let formula = formula_of(alloc, plan, question)?;
    has_text(alloc, &formula, want)
}

// The closure formula of ordered numbers.
const CLOSURE: &str = "over 0..10 0..10 0..10 0..10 0..10 0..10
1*0 -1*1 <= 0
1*2 -1*3 <= 0
1*0 -1*4 <= 0
1*2 -1*4 <= 0
-1*0 1*4 <= 0, -1*2 1*4 <= 0
1*1 -1*5 <= 0
1*3 -1*5 <= 0
-1*1 1*5 <= 0, -1*3 1*5 <= 0
-1*4 1*5 <= -1
";

// The segment holds everywhere, so the last clause has no atom.
const COVER: &str = "over 0..10 0..10
1*0 -1*1 <= 0
none
";

// The closure formula with fresh variables.
const FRESH_CLOSURE: &str = "over 0..3 0..3 0..3 0..3 0..3 0..3 0..1 0..1 0..1 0..1
-1*0 -1*1 <= -2
1*0 <= 0, -1*6 <= -1
1*6 <= 0, 1*0 -1*1 <= 0
1*6 <= 0, -1*0 1*1 <= 0
1*0 <= 1, -1*0 <= -3, 1*1 <= 1, -1*1 <= -3
-1*2 -1*3 <= -2
1*2 <= 0, -1*7 <= -1
1*7 <= 0, 1*2 -1*3 <= 0
1*7 <= 0, -1*2 1*3 <= 0
1*2 <= 1, -1*2 <= -3, 1*3 <= 1, -1*3 <= -3
1*0 -1*4 <= 0
1*2 -1*4 <= 0
-1*0 1*4 <= 0, -1*2 1*4 <= 0
-1*1 1*5 <= 0
-1*3 1*5 <= 0
1*1 -1*5 <= 0, 1*3 -1*5 <= 0
1*4 1*5 <= 1, -1*8 <= -1, -1*9 <= -1
1*8 <= 0, -1*4 <= -1
1*8 <= 0, 1*4 -1*5 <= -1, -1*4 1*5 <= -1
1*9 <= 0, 1*4 <= 2
1*9 <= 0, -1*4 <= -2
1*9 <= 0, 1*5 <= 2
1*9 <= 0, -1*5 <= -2
";

// The whole closure with the point (0, 3).
const POINTED: &str = "over 0..3 0..3 0..3 0..3 0..3 0..3
-1*0 -1*1 <= -2
1*0 <= -1, -1*0 <= -1, 1*1 <= 2, -1*1 <= -4
-1*2 -1*3 <= -2
1*2 <= -1, -1*2 <= -1, 1*3 <= 2, -1*3 <= -4
1*0 -1*4 <= 0
1*2 -1*4 <= 0
-1*0 1*4 <= 0, -1*2 1*4 <= 0
-1*1 1*5 <= 0
-1*3 1*5 <= 0
1*1 -1*5 <= 0, 1*3 -1*5 <= 0
1*4 1*5 <= 1
";

// The cover with fresh variables.
const FRESH_COVER: &str = "over 0..3 0..3 0..1 0..1
-1*0 -1*1 <= -2
-1*2 <= -1, -1*3 <= -1
1*2 <= 0, -1*0 <= -1
1*2 <= 0, 1*0 -1*1 <= -1, -1*0 1*1 <= -1
1*3 <= 0, 1*0 <= 2
1*3 <= 0, -1*0 <= -2
1*3 <= 0, 1*1 <= 2
1*3 <= 0, -1*1 <= -2
";

fn are_spelled(alloc: Global) -> [Option<bool>; 5] {
    [
        is_spelled(alloc, ORDERED, Question::Segment, CLOSURE),
        is_spelled(alloc, ORDERED, Question::Cover, COVER),
        is_spelled(alloc, MIXED, Question::Segment, FRESH_CLOSURE),
        is_spelled(alloc, MIXED, Question::Whole("0 3"), POINTED),
        is_spelled(alloc, MIXED, Question::Cover, FRESH_COVER),
    ]
}

#[test]
fn formulas_of_plans(rt: HostRuntime) {
    assert_eq!(rt; are_spelled(rt.alloc()), [Some(true); 5]);
}

// Two states and their merge; whether they are a model of the closure formula of a sum, which has nine clauses over six variables.
const CLOSURE_MODELS: &str = "yes 1 0 0 1 1 1
no 1 0 0 1 1 0
no 1 0 1 0 1 0";

fn is_sought(alloc: Global, row: &str) -> Option<bool> {
    let formula = formula_of(alloc, FEW, Question::Segment)?;
    if formula.clauses.len() != 9 {
        return None;
    }
    is_model(alloc, &formula, row)
}

// A point; whether two states and their merge are a model of the whole closure with it.
const POINTS: &str = "0 1|no 1 0 0 1 1 1
1 0|no 1 0 0 1 1 1
0 0|yes 1 0 0 1 1 1
1 1|yes 1 0 0 1 1 1";

fn is_sought_off(alloc: Global, row: &str) -> Option<bool> {
    let (point, row) = row.split_once('|')?;
    let formula = formula_of(alloc, FEW, Question::Whole(point))?;
    is_model(alloc, &formula, row)
}

// An assignment to the variables of two states and their merge; the pair that is read from it, the lesser state first.
const PAIRS: &str = "1 0 0 1 1 1|0 1|1 0
0 1 1 0 1 1|0 1|1 0
5 7 5 6 0 0|5 6|5 7
5 6 5 7 0 0|5 6|5 7
3 3 3 3 9 9|3 3|3 3";

fn is_pair(
    alloc: Global,
    plan: &Plan,
    numbers: &[i64],
    left: &[i64],
    right: &[i64],
) -> Option<bool> {
    if plan.parts().object.len() != 2 || numbers.len() != 6 {
        return None;
    }
    let pair = read_pair(alloc, plan, numbers).ok()?;
    Some(pair.0.as_slice() == left && pair.1.as_slice() == right)
}

fn is_pair_read(alloc: Global, row: &str) -> Option<bool> {
    let mut fields = row.split('|');
    let numbers = numbers_of(alloc, fields.next()?)?;
    let left = numbers_of(alloc, fields.next()?)?;
    let right = numbers_of(alloc, fields.next()?)?;
    let plan = plan_of(alloc, FEW)?;
    let is_read = is_pair(alloc, &plan, &numbers, &left, &right);
    drop(plan);
    is_read
}

fn is_state(alloc: Global, plan: &Plan, numbers: [i64; 3], want: [i64; 2]) -> Option<bool> {
    if plan.parts().object.len() != 2 {
        return None;
    }
    let state = read_state(alloc, plan, &numbers).ok()?;
    Some(state.as_slice() == want.as_slice())
}

fn is_state_read(alloc: Global) -> Option<bool> {
    let plan = plan_of(alloc, FEW)?;
    let is_read = is_state(alloc, &plan, [7, 5, 1], [7, 5]);
    drop(plan);
    is_read
}

fn wrong_rows(alloc: Global) -> [Option<&'static str>; 3] {
    [
        wrong_row(alloc, CLOSURE_MODELS, is_sought),
        wrong_row(alloc, POINTS, is_sought_off),
        wrong_row(alloc, PAIRS, is_pair_read),
    ]
}

#[test]
fn models_of_formulas(rt: HostRuntime) {
    assert_eq!(rt; wrong_rows(rt.alloc()), [None; 3]);
}

#[test]
fn a_state_is_read(rt: HostRuntime) {
    assert_eq!(rt; is_state_read(rt.alloc()), Some(true));
}

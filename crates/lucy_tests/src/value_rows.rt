use crate::making::{numbers_of, plan_of, wrong_row, yes_or_no};
use lucy_model::{Kind, Leaf, Raw, Share, State, Term, eval, holds, is_condition, is_term, merge};
use lucy_plan::Plan;
use sqlite_items::Items;
use std::alloc::Global;

// A range; whether a leaf may have it. The greatest number is 2^40.
const RANGES: &str = "0 0 yes
0 1 yes
1 0 no
-1099511627776 1099511627776 yes
-1099511627777 0 no
0 1099511627777 no";

fn is_kept(_alloc: Global, row: &str) -> Option<bool> {
    let mut words = row.split(' ');
    let lo = words.next()?.parse::<i64>().ok()?;
    let hi = words.next()?.parse::<i64>().ok()?;
    let want = yes_or_no(words.next()?)?;
    Some(Leaf::new(Kind::Max, lo, hi).is_some() == want)
}

// Two states over leaves that keep the greatest, the least and the greatest; their merge.
const MERGES: &str = "1 1 -3|2 2 -4|2 1 -3";

fn state_of(alloc: Global, text: &str) -> Option<State> {
    let state = State::from(numbers_of(alloc, text)?);
    if state.length() != 3 {
        return None;
    }
    Some(state)
}

fn merged(alloc: Global, left: &State, right: &State) -> Option<State> {
    let most = Leaf::new(Kind::Max, -9, 9)?;
    let least = Leaf::new(Kind::Min, -9, 9)?;
    if left.length() != 3 || right.length() != 3 {
        return None;
    }
    merge(alloc, &[most, least, most], left, right).ok()
}

// Whether a merge and its clone are this state.
fn is_cloned(merged: &State, want: &State) -> Option<bool> {
    let again = merged.clone().ok()?;
    Some(merged.length() == 3 && merged.as_slice() == want.as_slice() && again == *merged)
}

fn is_merged(alloc: Global, left: &State, right: &State, want: &State) -> Option<bool> {
    let merge = merged(alloc, left, right)?;
    is_cloned(&merge, want)
}

// Whether two states have this merge in both orders.
fn is_merge(alloc: Global, row: &str) -> Option<bool> {
    let mut fields = row.split('|');
    let left = state_of(alloc, fields.next()?)?;
    let right = state_of(alloc, fields.next()?)?;
    let want = state_of(alloc, fields.next()?)?;
    Some(is_merged(alloc, &left, &right, &want)? && is_merged(alloc, &right, &left, &want)?)
}

fn is_at(alloc: Global, raw: &Raw, numbers: [i64; 3]) -> Option<bool> {
    let state = State::new(alloc, &numbers).ok()?;
    Some(raw.is_state(&state))
}

// What is told of three numbers that are set one by one.
fn told_of_raw(alloc: Global) -> Option<[bool; 5]> {
    let mut raw = Raw::new(alloc, 3).ok()?;
    if raw.length() != 3 {
        return None;
    }
    let begins = is_at(alloc, &raw, [0, 0, 0])?;
    raw.set(1, 7);
    let is_set = is_at(alloc, &raw, [0, 7, 0])?;
    let is_begin = is_at(alloc, &raw, [0, 0, 0])?;
    let got = raw.get(1);
    raw.set(1, 1 << 68);
    let is_far = is_at(alloc, &raw, [0, 7, 0])?;
    Some([begins, is_set, !is_begin, got == 7, !is_far])
}

// Two shares of leaves as FACTOR*SLOT, a factor of the second argument, which is 6, and a number; the value at the state (10, -4, MAX).
const VALUES: &str = "3*0 -2*1 5 7 75
0*0 1*2 -1 -1 9223372036854775800
1000000*1 1000000*2 1000000 4611686018427387904 9223376648540794236387904";

fn share_of(word: &str) -> Option<Share> {
    let (by, slot) = word.split_once('*')?;
    let slot = slot.parse::<u32>().ok()?;
    let by = by.parse::<i64>().ok()?;
    Some(Share { slot, by })
}

fn value(alloc: Global, leaves: [Share; 2], by: i64, constant: i64) -> Option<i128> {
    let argument = Share { slot: 1, by };
    let term = Term {
        leaves: Items::from_slice(alloc, &leaves).ok()?,
        arguments: Items::from_slice(alloc, &[argument]).ok()?,
        constant,
    };
    if !is_term(&term, 3, 2) {
        return None;
    }
    let state = State::new(alloc, &[10, -4, i64::MAX]).ok()?;
    Some(eval(&term, &state, &[99, 6]))
}

fn is_value(alloc: Global, row: &str) -> Option<bool> {
    let mut words = row.split(' ');
    let leaves = [share_of(words.next()?)?, share_of(words.next()?)?];
    let by = words.next()?.parse::<i64>().ok()?;
    let constant = words.next()?.parse::<i64>().ok()?;
    let want = words.next()?.parse::<i128>().ok()?;
    Some(value(alloc, leaves, by, constant)? == want)
}

// Two shares as FACTOR*SLOT and a number; whether a term over two leaves, or over two arguments, may have them.
const TERMS: &str = "1*0 1*1 0 yes
1*1 1*0 0 no
1*1 1*1 0 no
1*0 1*2 0 no
1*0 1000000*1 0 yes
1*0 -1000001*1 0 no
1*0 1*1 4611686018427387904 yes
1*0 1*1 4611686018427387905 no";

// Whether a term over two leaves and two arguments may have these.
fn is_ranged_over(
    alloc: Global,
    leaves: &[Share],
    arguments: &[Share],
    constant: i64,
) -> Option<bool> {
    let term = Term {
        leaves: Items::from_slice(alloc, leaves).ok()?,
        arguments: Items::from_slice(alloc, arguments).ok()?,
        constant,
    };
    Some(if arguments.is_empty() {
        is_term(&term, 2, 0)
    } else {
        is_term(&term, 0, 2)
    })
}

fn is_ranged(alloc: Global, row: &str) -> Option<bool> {
    let mut words = row.split(' ');
    let shares = [share_of(words.next()?)?, share_of(words.next()?)?];
    let constant = words.next()?.parse::<i64>().ok()?;
    let want = yes_or_no(words.next()?)?;
    let over_leaves = is_ranged_over(alloc, &shares, &[], constant)?;
    let over_arguments = is_ranged_over(alloc, &[], &shares, constant)?;
    Some(over_leaves == want && over_arguments == want)
}

// A condition; whether it holds where x is 5.
const COMPARISONS: &str = "x - 6 <= 0 yes
x - 5 <= 0 yes
x - 4 <= 0 no
x - 6 < 0 yes
x - 5 < 0 no
x - 4 < 0 no
x - 6 >= 0 no
x - 5 >= 0 yes
x - 4 >= 0 yes
x - 6 > 0 no
x - 5 > 0 no
x - 4 > 0 yes
x - 6 = 0 no
x - 5 = 0 yes
x - 4 = 0 no
x - 6 != 0 yes
x - 5 != 0 no
x - 4 != 0 yes";

// Whether the invariant of a plan with one leaf holds where the leaf is 5.
fn holds_at_five(alloc: Global, plan: &Plan) -> Option<bool> {
    let condition = &plan.parts().invariant;
    if !is_condition(condition, 1, 0) {
        return None;
    }
    let state = State::new(alloc, &[5]).ok()?;
    Some(holds(condition, &state, &[]))
}

// A plan with this invariant.
fn plan_with(alloc: Global, invariant: &str) -> Option<Plan> {
    let text = format!(in alloc;
        "lucy 1 object {{ max x in 0..9; }} start {{ }} invariant {}; segment main when true do; end",
        invariant
    );
    plan_of(alloc, &text.ok()?)
}

fn is_compared(alloc: Global, row: &str) -> Option<bool> {
    let (condition, want) = row.rsplit_once(' ')?;
    let plan = plan_with(alloc, condition)?;
    let held = holds_at_five(alloc, &plan);
    drop(plan);
    Some(held? == yes_or_no(want)?)
}

fn wrong_rows(alloc: Global) -> [Option<&'static str>; 5] {
    [
        wrong_row(alloc, RANGES, is_kept),
        wrong_row(alloc, MERGES, is_merge),
        wrong_row(alloc, VALUES, is_value),
        wrong_row(alloc, TERMS, is_ranged),
        wrong_row(alloc, COMPARISONS, is_compared),
    ]
}

#[test]
fn states_and_conditions(rt: HostRuntime) {
    assert_eq!(rt; wrong_rows(rt.alloc()), [None; 5]);
}

#[test]
fn raw_numbers_are_set_one_by_one(rt: HostRuntime) {
    assert_eq!(rt; told_of_raw(rt.alloc()), Some([true; 5]));
}

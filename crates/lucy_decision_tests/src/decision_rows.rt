//! What is decided of small formulas, and what their stores come to.

use crate::decisions::decided;
use crate::formulas::formula_of;
use crate::making::wrong_row;
use lucy_clauses::Formula;
use lucy_units::{Found, Store};
use std::alloc::Global;

// Ranges; clauses with a semicolon between two; whether there is a model; and what a propagation without assumptions
// comes to.
const FORMULAS: &str = "0..3|1*0 <= 1; -1*0 <= -1|model|quiet
0..3|1*0 <= 0; -1*0 <= -1|refuted|conflict
0..3|1*0 <= 1, -1*0 <= -3; -1*0 <= -2; 1*0 <= 2|refuted|conflict
0..3|1*0 <= 1, -1*0 <= -3; -1*0 <= -2|model|quiet
0..3 0..3|1*0 1*1 <= 3; -1*0 -1*1 <= -3; 1*0 -1*1 <= 0; -1*0 1*1 <= 0|refuted|quiet
0..3 0..3|1*0 1*1 <= 4; -1*0 -1*1 <= -4; 1*0 -1*1 <= 0; -1*0 1*1 <= 0|model|quiet
-2..2 -2..2|2*0 3*1 <= -7; 1*0 <= -1, 1*1 <= -2|model|quiet
-2..2 -2..2|2*0 3*1 <= -11|refuted|quiet
3..2|1*0 <= 5|refuted|quiet";

fn formula(alloc: Global, ranges: &str, clauses: &str) -> Option<Formula> {
    let mut lines = String::new(alloc);
    for clause in clauses.split("; ") {
        if !lines.is_empty() {
            lines.push_str("\n").ok()?;
        }
        lines.push_str(clause).ok()?;
    }
    formula_of(alloc, ranges, lines.as_str())
}

fn propagated(alloc: Global, formula: &Formula) -> Option<&'static str> {
    let mut store = Store::new(alloc, formula).ok()?;
    match store.propagate(alloc).ok()? {
        Found::Conflict(_) => Some("conflict"),
        Found::Quiet => Some("quiet"),
    }
}

fn is_decided(alloc: Global, row: &str) -> Option<bool> {
    let (ranges, row) = row.split_once('|')?;
    let (clauses, row) = row.split_once('|')?;
    let (decision, propagation) = row.split_once('|')?;
    let formula = formula(alloc, ranges, clauses)?;
    Some(decided(alloc, &formula)? == decision && propagated(alloc, &formula)? == propagation)
}

#[test]
fn small_formulas_are_decided(rt: HostRuntime) {
    assert_eq!(rt; wrong_row(rt.alloc(), FORMULAS, is_decided), None);
}

//! Formulas of few small ranges, made from a seed, are decided as a slow program says, which tries all assignments.

use crate::decisions::{decided, decided_spoiled};
use crate::formulas::normal;
use lucy_clauses::{Atom, Clause, Formula, Part, Plain, Range};
use sqlite_items::Items;
use std::alloc::Global;

const SEEDS: u64 = 150;

// The most assignments that a formula has.
const MOST_TRIES: u32 = 256;

// What a variable's factor is drawn from.
const FACTORS: [i128; 8] = [0, 0, 0, 1, -1, 2, -2, 3];

// A number below another one, at random, and the next seed.
fn draw(seed: &mut u64, below: u64) -> u64 {
    let next = seed
        .wrapping_mul(6_364_136_223_846_793_005)
        .wrapping_add(1_442_695_040_888_963_407);
    *seed = next;
    (next >> 33).checked_rem(below).unwrap_or(0)
}

// One of the numbers from `lo` on.
fn draw_number(seed: &mut u64, lo: i64, count: u64) -> i64 {
    lo.wrapping_add(i64::try_from(draw(seed, count)).unwrap_or(0))
}

fn made_ranges(alloc: Global, seed: &mut u64) -> Option<Items<Range>> {
    let mut ranges = Items::new(alloc);
    for _ in 0..draw(seed, 3).wrapping_add(2) {
        let lo = draw_number(seed, -2, 4);
        let hi = draw_number(seed, lo, 4);
        ranges.push(Range { lo, hi }).ok()?;
    }
    Some(ranges)
}

fn made_parts(alloc: Global, seed: &mut u64, count: u32) -> Option<Vec<Part>> {
    let mut parts = Vec::new(alloc);
    for variable in 0..count {
        let by = *FACTORS.get(draw(seed, 8) as usize)?;
        if by != 0 {
            parts.push(Part { variable, by }).ok()?;
        }
    }
    Some(parts)
}

fn made_plain(alloc: Global, seed: &mut u64, count: u32) -> Option<Plain> {
    let parts = made_parts(alloc, seed, count)?;
    let bound = draw_number(seed, -4, 9);
    normal(alloc, parts.as_slice(), i128::from(bound))
}

// An inequality without variables stands for no atom.
fn made_clause(alloc: Global, seed: &mut u64, count: u32) -> Option<Clause> {
    let mut atoms: Items<Atom> = Items::new(alloc);
    for _ in 0..draw(seed, 2).wrapping_add(1) {
        if let Plain::Atom(atom) = made_plain(alloc, seed, count)? {
            atoms.push(atom).ok()?;
        }
    }
    Some(Clause { atoms })
}

fn made_clauses(alloc: Global, seed: &mut u64, count: u32) -> Option<Items<Clause>> {
    let mut clauses = Items::new(alloc);
    for _ in 0..draw(seed, 6).wrapping_add(3) {
        let clause = made_clause(alloc, seed, count)?;
        if !clause.atoms.is_empty() {
            clauses.push(clause).ok()?;
        }
    }
    Some(clauses)
}

fn made_formula(alloc: Global, seed: u64) -> Option<Formula> {
    let mut seed = seed;
    let ranges = made_ranges(alloc, &mut seed)?;
    let count = u32::try_from(ranges.len()).ok()?;
    let clauses = made_clauses(alloc, &mut seed, count)?;
    Some(Formula { ranges, clauses })
}

fn holds_atom(atom: &Atom, numbers: &[i64]) -> bool {
    let mut sum = 0i128;
    for part in &atom.parts {
        if let Some(number) = numbers.get(part.variable as usize) {
            sum = sum.wrapping_add(part.by.wrapping_mul(i128::from(*number)));
        }
    }
    sum <= atom.bound
}

fn holds_clause(clause: &Clause, numbers: &[i64]) -> bool {
    for atom in clause.atoms.as_slice() {
        if holds_atom(atom, numbers) {
            return true;
        }
    }
    false
}

fn holds_all(clauses: &[Clause], numbers: &[i64]) -> bool {
    for clause in clauses {
        if !holds_clause(clause, numbers) {
            return false;
        }
    }
    true
}

// Moves to the next assignment; whether there was one.
fn moves(ranges: &[Range], numbers: &mut Vec<i64>) -> bool {
    for (place, range) in ranges.iter().enumerate() {
        let Some(number) = numbers.get_mut(place) else {
            return false;
        };
        if *number < range.hi {
            *number = number.wrapping_add(1);
            return true;
        }
        *number = range.lo;
    }
    false
}

fn lows(alloc: Global, ranges: &[Range]) -> Option<Vec<i64>> {
    let mut numbers = Vec::new(alloc);
    for range in ranges {
        numbers.push(range.lo).ok()?;
    }
    Some(numbers)
}

// `model` where some assignment is one, else `refuted`.
fn tried(alloc: Global, formula: &Formula) -> Option<&'static str> {
    let mut numbers = lows(alloc, formula.ranges.as_slice())?;
    for _ in 0..MOST_TRIES {
        if holds_all(formula.clauses.as_slice(), numbers.as_slice()) {
            return Some("model");
        }
        if !moves(formula.ranges.as_slice(), &mut numbers) {
            return Some("refuted");
        }
    }
    None
}

fn is_decided(alloc: Global, seed: u64) -> Option<bool> {
    let formula = made_formula(alloc, seed)?;
    Some(decided(alloc, &formula)? == tried(alloc, &formula)?)
}

fn is_decided_spoiled(alloc: Global, seed: u64) -> Option<bool> {
    let formula = made_formula(alloc, seed)?;
    Some(decided_spoiled(alloc, &formula, seed)? == tried(alloc, &formula)?)
}

fn is_open(alloc: Global, seed: u64) -> Option<bool> {
    let formula = made_formula(alloc, seed)?;
    Some(tried(alloc, &formula)? == "model")
}

// How many seeds are so, or the first that could not be tried.
fn count_of(alloc: Global, is_so: fn(Global, u64) -> Option<bool>) -> Result<u64, u64>
    requires { IsAlwaysCallable is_so }
{
    let mut count = 0u64;
    for seed in 0..SEEDS {
        match is_so(alloc, seed) {
            Some(true) => count = count.wrapping_add(1),
            Some(false) => {}
            None => return Err(seed),
        }
    }
    Ok(count)
}

#[test]
fn made_formulas_are_decided(rt: HostRuntime) {
    assert_eq!(rt; count_of(rt.alloc(), is_decided), Ok(SEEDS));
}

#[test]
fn a_spoiled_engine_changes_no_verdict(rt: HostRuntime) {
    assert_eq!(rt; count_of(rt.alloc(), is_decided_spoiled), Ok(SEEDS));
}

#[test]
fn both_verdicts_are_met_often(rt: HostRuntime) {
    let found = count_of(rt.alloc(), is_open);
    assert_eq!(rt; matches!(found, Ok(30..=120)), true);
}

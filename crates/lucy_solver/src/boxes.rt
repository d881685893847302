//! Boxes: the ranges that a search has left, and which atoms and clauses are false all over them.
ghost use Rattle.std.specs.Prelude.{◌≡◌, ◌≤◌, ◌+◌, ◌^◌, ◌+ℤ◌, ◌*ℤ◌, true, slice_get, unsigned_abs};
ghost use Rattle.std.specs.List.{list_all};
ghost use Rattle.lucy_solver.specs.Boxes.{end_of, reach, reaches, least, exceeds, is_fit, all_exceed, all_fit, Exceeded};

use lucy_clauses::{Atom, Clause, Part, Ref};

/// What is left of a variable's range, and what says so.
#[derive(Clone, Copy, Debug, PartialEq, Eq)]
pub struct Bound {
    /// The least number that is left.
    pub lo: i64,
    /// The greatest number that is left.
    pub hi: i64,
    /// What says that the variable is at least `lo`: the range, or the decision at a place.
    pub low: Ref,
    /// What says that the variable is at most `hi`.
    pub high: Ref,
}

// The end of a bound at which a factor times the variable is least.
fn end_of(by: i128, bound: Bound) -> i64
    ensures { result ≡ end_of by bound }
{
    if 0 < by { bound.lo } else { bound.hi }
}

fn product(by: i128, number: i64) -> i128
    requires { unsigned_abs (by *ℤ number) ≤ 2 ^ 100 }
    ensures { result ≡ by *ℤ number }
{
    by * i128::from(number)
}

fn added(sum: i128, more: i128) -> i128
    requires { unsigned_abs sum + unsigned_abs more ≤ 2 ^ 100 }
    ensures { result ≡ sum +ℤ more }
{
    sum + more
}

// The least value of a part over a box.
fn reach(part: Part, bounds: &[Bound]) -> i128
    requires { unsigned_abs (reach part.by (slice_get bounds.now part.variable)) ≤ 2 ^ 100 }
    ensures { result ≡ reach part.by (slice_get bounds.now part.variable) }
{
    match bounds.get(part.variable as usize) {
        Some(bound) => product(part.by, end_of(part.by, *bound)),
        None => 0,
    }
}

// The least value of a sum over a box.
fn least(parts: &[Part], bounds: &[Bound]) -> i128
    requires { reaches bounds.now parts.now ≤ 2 ^ 100 }
    ensures { result ≡ least bounds.now parts.now }
{
    let mut sum = 0;
    for part in parts {
        sum = added(sum, reach(*part, bounds));
    }
    sum
}

// Whether an atom is false all over a box.
fn exceeds(atom: &Atom, bounds: &[Bound]) -> bool
    requires { is_fit bounds.now atom.now ≡ true }
    ensures { result ≡ exceeds bounds.now atom.now }
{
    atom.bound < least(&atom.parts, bounds)
}

// Whether a clause is false all over a box.
fn all_exceed(clause: &Clause, bounds: &[Bound]) -> bool
    requires { list_all (is_fit bounds.now) clause.now.atoms ≡ true }
    ensures { result ≡ all_exceed bounds.now clause.now }
{
    for atom in clause.atoms.as_slice() {
        if !exceeds(atom, bounds) {
            return false;
        }
    }
    true
}

/// The first clause that is false all over a box.
pub fn exceeded(clauses: &[Clause], bounds: &[Bound]) -> Option<usize>
    requires { all_fit bounds.now clauses.now ≡ true }
    ensures { Exceeded bounds.now clauses.now result }
{
    for (i, clause) in clauses.iter().enumerate() {
        if all_exceed(clause, bounds) {
            return Some(i);
        }
    }
    None
}

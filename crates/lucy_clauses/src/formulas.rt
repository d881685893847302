ghost use Rattle.std.specs.Prelude.{◌≡◌, ◌≤◌, ◌+◌, ◌*◌, ◌-◌, ◌^◌, ◌+ℤ◌, ◌*ℤ◌, max, min, length, true, IsTrue, ◌↔◌, IfOk, unsigned_abs};
ghost use Rattle.std.specs.List.{list_all};
ghost use Rattle.lucy_clauses.specs.Sums.{number_at, sum_at, is_true};
ghost use Rattle.lucy_clauses.specs.Formulas.{clause_true, are_within, Models, range_size, weight, weight_at, names_below, is_narrow_atom, is_narrow_clause, is_narrow};

use crate::atoms::Atom;
use crate::parts::Part;
use sqlite_items::Items;
use std::alloc::{AllocError, Global};

/// At least one of the atoms holds. A clause with no atom holds nowhere.
#[derive(Debug, Drop)]
pub struct Clause {
    /// The atoms.
    pub atoms: Items<Atom>,
}

/// The numbers that a variable may have, both bounds among them. There is none where `lo` is above `hi`.
#[derive(Clone, Copy, Debug, PartialEq, Eq, Hash)]
pub struct Range {
    /// The least number.
    pub lo: i64,
    /// The greatest number.
    pub hi: i64,
}

/// Every clause holds, over variables with a range each.
#[derive(Debug, Drop)]
pub struct Formula {
    /// The range of each variable, by its number.
    pub ranges: Items<Range>,
    /// The clauses.
    pub clauses: Items<Clause>,
}

// The greatest weight of an atom of a narrow formula.
const MOST_WEIGHT: u128 = 1 << 100;

fn range_size(range: Range) -> u64
    ensures { result ≡ range_size range }
{
    range.lo.unsigned_abs().max(range.hi.unsigned_abs()).max(1)
}

fn names_below(parts: &[Part], count: usize) -> bool
    ensures { result ≡ names_below count parts.now }
{
    for part in parts {
        if part.variable as usize >= count {
            return false;
        }
    }
    true
}

fn weight_added(total: u128, by: i128, size: u64) -> u128
    ensures { result ≡ min (total + unsigned_abs by * size) (2 ^ 128 - 1) }
{
    total.saturating_add(by.unsigned_abs().saturating_mul(u128::from(size)))
}

// The weight of the parts behind a first one.
fn weight(first: u128, parts: &[Part], ranges: &[Range]) -> u128
    requires { names_below (length ranges.now) parts.now ≡ true }
    ensures { result ≡ min (first + weight ranges.now parts.now) (2 ^ 128 - 1) }
{
    let mut total = first;
    for part in parts {
        total = weight_added(total, part.by, range_size(ranges[part.variable as usize]));
    }
    total
}

/// True exactly where each number is in its range. There is one number for each range. Takes no memory.
pub fn are_within(ranges: &[Range], numbers: &[i64]) -> bool
    requires { length numbers.now ≡ length ranges.now }
    ensures { result ≡ are_within ranges.now numbers.now }
{
    for i in 0..ranges.len() {
        let range = ranges[i];
        if numbers[i] < range.lo || numbers[i] > range.hi {
            return false;
        }
    }
    true
}

fn part_added(sum: i128, by: i128, number: i64) -> i128
    requires { unsigned_abs sum + unsigned_abs by * max 1 (unsigned_abs number) ≤ 2 ^ 101 }
    ensures { result ≡ sum +ℤ by *ℤ number }
{
    sum + by * i128::from(number)
}

fn sum_of(parts: &[Part], numbers: &[i64]) -> i128
    requires weight { weight_at numbers.now parts.now ≤ 2 ^ 101 }
    requires names { names_below (length numbers.now) parts.now ≡ true }
    ensures { result ≡ sum_at parts.now numbers.now }
{
    let mut sum = 0;
    for part in parts {
        sum = part_added(sum, part.by, numbers[part.variable as usize]);
    }
    sum
}

impl Atom {
    /// True exactly where the atom names variables that have a range, and the size of its bound plus the sum of each
    /// factor's size times the greater size of its variable's two bounds, with 1 in place of 0, is at most 2^100.
    /// Takes no memory.
    pub fn is_narrow(&self, ranges: &[Range]) -> bool
        ensures { result ≡ is_narrow_atom ranges.now self.now }
    {
        names_below(&self.parts, ranges.len())
            && weight(self.bound.unsigned_abs(), &self.parts, ranges) <= MOST_WEIGHT
    }

    /// True exactly where the atom holds in the assignment. The atom is narrow, and the assignment has one number for
    /// each range, within it. Takes no memory.
    pub fn is_true(&self, ranges: &[Range], assignment: &[i64]) -> bool
        requires narrow { is_narrow_atom ranges.now self.now ≡ true }
        requires within { are_within ranges.now assignment.now ≡ true }
        ensures { result ≡ is_true assignment.now self.now }
    {
        sum_of(&self.parts, assignment) <= self.bound
    }
}

fn are_all_same(left: &[Atom], right: &[Atom]) -> bool
    ensures { IsTrue result ↔ (left.now ≡ right.now) }
{
    if left.len() != right.len() {
        return false;
    }
    for i in 0..left.len() {
        if !left[i].is_same(&right[i]) {
            return false;
        }
    }
    true
}

impl Clause {
    /// True exactly where each atom is narrow. Takes no memory.
    pub fn is_narrow(&self, ranges: &[Range]) -> bool
        ensures { result ≡ is_narrow_clause ranges.now self.now }
    {
        for atom in self.atoms.as_slice() {
            if !atom.is_narrow(ranges) {
                return false;
            }
        }
        true
    }

    /// True exactly where an atom holds in the assignment. The clause is narrow, and the assignment has one number for
    /// each range, within it. Takes no memory.
    pub fn is_true(&self, ranges: &[Range], assignment: &[i64]) -> bool
        requires narrow { is_narrow_clause ranges.now self.now ≡ true }
        requires within { are_within ranges.now assignment.now ≡ true }
        ensures { result ≡ clause_true assignment.now self.now }
    {
        for atom in self.atoms.as_slice() {
            if atom.is_true(ranges, assignment) {
                return true;
            }
        }
        false
    }

    /// The same clause once more.
    pub fn copied(&self, alloc: Global) -> Result<Clause, AllocError>
        ensures { IfOk result (λ c. c ≡ self.now) }
    {
        let mut atoms = Items::new(alloc);
        for atom in self.atoms.as_slice() {
            let copy = atom.copied(alloc)?;
            atoms.push(copy)?;
        }
        Ok(Clause { atoms })
    }

    /// True exactly where the two clauses are equal: the same atoms in the same order. Takes no memory.
    pub fn is_same(&self, other: &Clause) -> bool
        ensures { IsTrue result ↔ (self.now ≡ other.now) }
    {
        are_all_same(self.atoms.as_slice(), other.atoms.as_slice())
    }
}

fn are_clauses_true(clauses: &[Clause], ranges: &[Range], numbers: &[i64]) -> bool
    requires narrow { list_all (is_narrow_clause ranges.now) clauses.now ≡ true }
    requires within { are_within ranges.now numbers.now ≡ true }
    ensures { result ≡ list_all (clause_true numbers.now) clauses.now }
{
    for clause in clauses {
        if !clause.is_true(ranges, numbers) {
            return false;
        }
    }
    true
}

impl Formula {
    /// True exactly where each atom names variables that have a range, and the size of its bound plus the sum of each
    /// factor's size times the greater size of its variable's two bounds, with 1 in place of 0, is at most 2^100.
    /// Takes no memory.
    pub fn narrow(&self) -> bool
        ensures { result ≡ is_narrow self.now }
    {
        for clause in self.clauses.as_slice() {
            if !clause.is_narrow(self.ranges.as_slice()) {
                return false;
            }
        }
        true
    }

    /// True exactly where each number is in its range and each clause has a true atom. The assignment has one number
    /// for each range, and the formula is narrow. Takes no memory.
    pub fn holds_under(&self, assignment: &[i64]) -> bool
        requires numbers { length assignment.now ≡ length self.now.ranges }
        requires narrow { is_narrow self.now ≡ true }
        ensures { IsTrue result ↔ Models self.now assignment.now }
    {
        let ranges = self.ranges.as_slice();
        are_within(ranges, assignment)
            && are_clauses_true(self.clauses.as_slice(), ranges, assignment)
    }
}

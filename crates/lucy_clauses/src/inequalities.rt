//! Inequalities while they are derived.

ghost use Rattle.std.specs.Prelude.{◌≡◌, ◌⊎◌, IfOk, OnErr, true, false, if◌then◌else◌, Some, None, Ok, Err, [], ◌∷◌, pos, negsuc, neg_ℤ, ◌<◌, ◌^◌};
ghost use Rattle.lucy_clauses.specs.Sums.{form, complement};
ghost use Rattle.lucy_clauses.specs.Lines as lines;

use crate::adding::{bound_with, merged};
use crate::atoms::Atom;
use crate::dividing::{divide_all, is_divisor};
use crate::numbers::floor;
use crate::parts::Part;
use std::alloc::{AllocError, Global};
use std::marker::Model;

/// The inequality `sum of the parts <= bound` while it is derived: variables ascending and no factor 0, each at most
/// 2^126 in size. There may be no part, and the factors may have a common divisor.
#[derive(Debug, Drop)]
pub struct Inequality {
    /// The variables with their factors.
    pub parts: Vec<Part>,
    /// The greatest value of the sum.
    pub bound: i128,
}

impl Model for Inequality {
    ghost use Rattle.lucy_clauses.specs.Sums.{Form};
    ghost use Rattle.lucy_clauses.specs.Normal.{IsGathered};

    ghost Value = { Form };

    ghost view = { λ f. record { parts = f.parts.items; bound = f.bound } };

    ghost invariant = { λ f. IsGathered f.parts.items };
}

// The number of a bound with the other sign.
fn negative_bound(bound: i64) -> i128
    ensures { result ≡ neg_ℤ bound }
{
    -i128::from(bound)
}

impl Inequality {
    /// `0 <= 0`. Takes no memory.
    pub fn new(alloc: Global) -> Inequality
        ensures { result ≡ form [] (pos 0) }
    {
        Inequality {
            parts: Vec::new(alloc),
            bound: 0,
        }
    }

    /// The inequality that an atom is. Takes no memory.
    pub fn of(atom: Atom) -> Inequality
        ensures { result ≡ atom }
    {
        let Atom { parts, bound } = atom;
        Inequality { parts, bound }
    }

    /// The inequality that an atom is.
    pub fn from_atom(alloc: Global, atom: &Atom) -> Result<Inequality, AllocError>
        ensures { IfOk result (λ f. f ≡ atom.now) }
    {
        let copy = atom.copied(alloc)?;
        Ok(Inequality::of(copy))
    }

    /// The inequality that the complement of an atom is.
    pub fn from_complement(alloc: Global, atom: &Atom) -> Result<Inequality, AllocError>
        ensures { IfOk result (λ f. f ≡ complement atom.now) }
    {
        let mut opposite = atom.copied(alloc)?;
        opposite.complement();
        Ok(Inequality::of(opposite))
    }

    // The inequality of one variable with the factor 1 or -1.
    fn single(alloc: Global, variable: u32, by: i128, bound: i128) -> Result<Inequality, AllocError>
        requires { by ≡ pos 1 ⊎ by ≡ negsuc 0 }
        ensures { IfOk result (λ f. f ≡ lines.one_variable variable by bound) }
    {
        let mut parts = Vec::new(alloc);
        parts.push(Part { variable, by })?;
        Ok(Inequality { parts, bound })
    }

    /// That a variable is at least a bound.
    pub fn at_least(alloc: Global, variable: u32, bound: i64) -> Result<Inequality, AllocError>
        ensures { IfOk result (λ f. f ≡ lines.one_variable variable (negsuc 0) (neg_ℤ bound)) }
    {
        Inequality::single(alloc, variable, -1, negative_bound(bound))
    }

    /// That a variable is at most a bound.
    pub fn at_most(alloc: Global, variable: u32, bound: i64) -> Result<Inequality, AllocError>
        ensures { IfOk result (λ f. f ≡ lines.one_variable variable (pos 1) bound) }
    {
        Inequality::single(alloc, variable, 1, i128::from(bound))
    }

    /// The same inequality once more.
    pub fn copied(&self, alloc: Global) -> Result<Inequality, AllocError>
        ensures { IfOk result (λ f. f ≡ self.now) }
    {
        let parts = Vec::from_slice(alloc, &self.parts)?;
        Ok(Inequality {
            parts,
            bound: self.bound,
        })
    }

    /// Adds `by` times another inequality. `false` exactly where a number passes the limit of 2^126, each product and
    /// each sum among them; it is then as it was. Takes time in proportion to the parts of both.
    pub fn add_multiple(
        &mut self,
        alloc: Global,
        by: i128,
        other: &Inequality,
    ) -> Result<bool, AllocError>
        ensures sum { IfOk result (λ fits. lines.add_multiple by other.now self.old ≡ (if fits then Some self.new else None)) }
        ensures kept { IfOk result (λ fits. fits ≡ false → self.new ≡ self.old) }
        ensures memory { OnErr result (self.new ≡ self.old) }
    {
        let Some(bound) = bound_with(by, other.bound, self.bound) else {
            return Ok(false);
        };
        let Some(parts) = merged(alloc, by, &other.parts, &self.parts)? else {
            return Ok(false);
        };
        self.parts = parts;
        self.bound = bound;
        Ok(true)
    }

    /// Divides by a number, with the bound rounded down. `false` exactly where the number is not at least 1 or does not
    /// divide each factor; it is then as it was. Takes no memory.
    pub fn divide(&mut self, by: i128) -> bool
        ensures quotient { lines.quotient_form by self.old ≡ (if result then Ok self.new else Err lines.no_conflict) }
        ensures kept { result ≡ false → self.new ≡ self.old }
    {
        if !is_divisor(by, &self.parts) {
            return false;
        }
        let divisor = by.unsigned_abs();
        divide_all(&mut self.parts, divisor);
        self.bound = floor(self.bound, divisor);
        true
    }

    /// True exactly where it is `0 <= bound` with a bound below 0. Takes no memory.
    pub fn is_contradiction(&self) -> bool
        ensures { result ≡ lines.is_contradiction self.now }
    {
        self.parts.is_empty() && self.bound < 0
    }
}

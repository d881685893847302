ghost use Rattle.std.specs.Prelude.{◌≡◌, ◌+ℤ◌, IfOk, IsTrue, ◌↔◌, List, ℤ, Bool, true, [], not, int_le, if◌then◌else◌};
ghost use Rattle.lucy_clauses.specs.Sums.{form, is_true, sum_at, complement};
ghost use Rattle.lucy_clauses.specs.Parts.{is_within, stays_within};
ghost use Rattle.lucy_clauses.specs.Normal.{IsNormal, is_normal};

use crate::dividing::{common_divisor, divide_all, negate_all};
use crate::gathering::gather;
use crate::normality::is_normal;
use crate::numbers::{below_negative, floor};
use crate::parts::Part;
use std::alloc::{AllocError, Global};
use std::hash::{Hash, Hasher};
use std::marker::Model;

/// The inequality `sum of the parts <= bound` in normal form: at least one part, variables ascending, no factor 0,
/// each at most 2^126 in size, and no common divisor of the factors but 1.
#[derive(Debug, Drop)]
pub struct Atom {
    /// The variables with their factors.
    pub parts: Vec<Part>,
    /// The greatest value of the sum.
    pub bound: i128,
}

impl Model for Atom {
    ghost use Rattle.lucy_clauses.specs.Sums.{Form};
    ghost use Rattle.lucy_clauses.specs.Normal.{IsNormal};

    ghost Value = { Form };

    ghost view = { λ t. record { parts = t.parts.items; bound = t.bound } };

    ghost invariant = { λ t. IsNormal t.parts.items };
}

/// Two atoms are equal exactly where their parts and their bounds are.
impl PartialEq for Atom {
    ghost use Rattle.lucy_clauses.specs.Equality.{same_form};
    ghost use Rattle.lucy_clauses.specs.EqualForms.{form_partial_equivalence};

    ghost eq = { same_form };

    ghost laws = { form_partial_equivalence };

    fn eq(&self, other: &Atom) -> bool
        ensures same { result ≡ same_form self.now other.now }
        ensures equal { IsTrue result ↔ (self.now ≡ other.now) }
    {
        self.is_same(other)
    }
}

impl Eq for Atom {
    ghost use Rattle.lucy_clauses.specs.EqualForms.{form_equivalence};

    ghost laws = { form_equivalence };
}

impl Hash for Atom {
    ghost use Rattle.std.specs.Prelude.{◌++◌};
    ghost use Rattle.std.specs.Hash as fed;
    ghost use Rattle.lucy_clauses.specs.EqualForms.{form_decides};

    ghost hash_input = { λ t. fed.slice ⟦<Part as Hash>⟧.hash_input t.parts ++ fed.i128 t.bound };

    ghost respects_eq = { (fed.same_Alike (λ t. fed.slice ⟦<Part as Hash>⟧.hash_input t.parts ++ fed.i128 t.bound) form_decides).fed };

    fn hash<H: Hasher>(&self, state: &mut H) {
        self.parts.hash(state);
        self.bound.hash(state);
    }
}

/// An inequality in normal form, which may be left with no variable.
#[derive(Debug, Drop)]
pub enum Plain {
    /// It holds in each assignment.
    Always,
    /// It holds in none.
    Never,
    /// It holds where the atom does.
    Atom(Atom),
}

ghost use Rattle.lucy_clauses.specs.Plain.{IsPlainForm, plain_true, constant_plain};

// An inequality without a variable.
fn without_variable(bound: i128) -> Plain
    ensures { result ≡ constant_plain bound }
{
    if 0 <= bound {
        Plain::Always
    } else {
        Plain::Never
    }
}

impl Atom {
    /// The normal form of `sum of the parts <= bound`, with the same integer solutions. `parts` may stand in any order
    /// and name a variable more than once. Each sum of equal variables, taken from the front, and the bound are at most
    /// 2^126 in size.
    pub fn normal(alloc: Global, parts: &[Part], bound: i128) -> Result<Plain, AllocError>
        requires sums { stays_within [] parts.now ≡ true }
        requires bound { is_within bound ≡ true }
        ensures form { IfOk result (λ plain. IsPlainForm parts.now bound plain) }
        ensures solutions { IfOk result (λ plain. (a : List ℤ) → plain_true a plain ≡ int_le (sum_at parts.now a) bound) }
    {
        let mut gathered = gather(alloc, parts)?;
        if gathered.is_empty() {
            return Ok(without_variable(bound));
        }
        let common = common_divisor(&gathered);
        divide_all(&mut gathered, common);
        Ok(Plain::Atom(Atom {
            parts: gathered,
            bound: floor(bound, common),
        }))
    }

    /// The atom with these parts and this bound, exactly where the parts are in normal form. Takes no memory.
    pub fn from_parts(parts: Vec<Part>, bound: i128) -> Option<Atom>
        ensures { result ≡ (if is_normal parts.items then Some (form parts.items bound) else None) }
    {
        if is_normal(&parts) {
            Some(Atom { parts, bound })
        } else {
            None
        }
    }

    /// Makes it the atom that holds exactly where it does not. Takes no memory.
    pub fn complement(&mut self)
        ensures form { self.new ≡ complement self.old }
        ensures opposite { (a : List ℤ) → is_true a self.new ≡ not (is_true a self.old) }
    {
        negate_all(&mut self.parts);
        self.bound = below_negative(self.bound);
    }

    /// The same atom once more.
    pub fn copied(&self, alloc: Global) -> Result<Atom, AllocError>
        ensures { IfOk result (λ t. t ≡ self.now) }
    {
        let parts = Vec::from_slice(alloc, &self.parts)?;
        Ok(Atom {
            parts,
            bound: self.bound,
        })
    }

    /// True exactly where the two atoms are equal: the same parts and the same bound. Takes no memory.
    pub fn is_same(&self, other: &Atom) -> bool
        ensures { IsTrue result ↔ (self.now ≡ other.now) }
    {
        self.bound == other.bound && are_same(&self.parts, &other.parts)
    }
}

fn are_same(left: &[Part], right: &[Part]) -> bool
    ensures { IsTrue result ↔ (left.now ≡ right.now) }
{
    if left.len() != right.len() {
        return false;
    }
    for i in 0..left.len() {
        if left[i] != right[i] {
            return false;
        }
    }
    true
}

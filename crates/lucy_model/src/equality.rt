ghost use Rattle.std.specs.Prelude.{◌≡◌, ◌↔◌, IsTrue};

use crate::conditions::Condition;
use crate::terms::{Share, Term};

fn same_shares(left: &[Share], right: &[Share]) -> bool
    ensures { IsTrue result ↔ (left.now ≡ right.now) }
{
    if left.len() != right.len() {
        return false;
    }
    for (i, share) in left.iter().enumerate() {
        if *share != right[i] {
            return false;
        }
    }
    true
}

impl Term {
    /// Whether two terms are one: the same shares in the same order, and the same constant.
    pub fn is_same(&self, other: &Term) -> bool
        ensures { IsTrue result ↔ (self.now ≡ other.now) }
    {
        same_shares(self.leaves.as_slice(), other.leaves.as_slice())
            && same_shares(self.arguments.as_slice(), other.arguments.as_slice())
            && self.constant == other.constant
    }
}

impl Condition {
    /// Whether two conditions are one, part by part.
    pub fn is_same(&self, other: &Condition) -> bool
        ensures { IsTrue result ↔ (self.now ≡ other.now) }
    {
        same_conditions(self, other)
    }
}

#[cycle(comparing)]
fn same_conditions(left: &Condition, right: &Condition) -> bool
    ensures { IsTrue result ↔ (left.now ≡ right.now) }
{
    match (left, right) {
        (Condition::True, Condition::True) => true,
        (Condition::False, Condition::False) => true,
        (Condition::Compare { term: s, op: p }, Condition::Compare { term: t, op: q }) => {
            *p == *q && s.is_same(t)
        }
        (Condition::Is(i), Condition::Is(j)) => *i == *j,
        (Condition::Not(c), Condition::Not(d)) => same_conditions(c.get(), d.get()),
        (Condition::And(cs), Condition::And(ds)) => same_parts(cs.as_slice(), ds.as_slice()),
        (Condition::Or(cs), Condition::Or(ds)) => same_parts(cs.as_slice(), ds.as_slice()),
        (Condition::Implies(c, e), Condition::Implies(d, f)) => {
            same_conditions(c.get(), d.get()) && same_conditions(e.get(), f.get())
        }
        _ => false,
    }
}

#[cycle(comparing)]
fn same_parts(left: &[Condition], right: &[Condition]) -> bool
    ensures { IsTrue result ↔ (left.now ≡ right.now) }
{
    if left.len() != right.len() {
        return false;
    }
    for (i, part) in left.iter().enumerate() {
        if !same_conditions(part, &right[i]) {
            return false;
        }
    }
    true
}

ghost use Rattle.std.specs.Prelude.{◌≡◌, IfOk, [], ◌∷◌};
ghost use Rattle.std.specs.List.{AllZip};
ghost use Rattle.lucy_model.specs.Negations.{IsNegation, IsOpposite};
ghost use Rattle.lucy_model.specs.Opposites as relations;

use crate::conditions::{Condition, Op};
use crate::terms::Term;
use sqlite_items::{Boxed, Items};
use std::alloc::{AllocError, Global};

/// The same term again.
fn term_copied(alloc: Global, term: &Term) -> Result<Term, AllocError>
    ensures { IfOk result (λ t. t ≡ term.now) }
{
    let leaves = Items::from_slice(alloc, term.leaves.as_slice())?;
    let arguments = Items::from_slice(alloc, term.arguments.as_slice())?;
    Ok(Term {
        leaves,
        arguments,
        constant: term.constant,
    })
}

/// `Not` of a part.
fn not_of(alloc: Global, part: Condition) -> Result<Condition, AllocError>
    ensures { IfOk result (λ c. c ≡ Condition.Not part) }
{
    Ok(Condition::Not(Boxed::new(alloc, part)?))
}

/// `Implies` of two parts.
fn implies_of(alloc: Global, left: Condition, right: Condition) -> Result<Condition, AllocError>
    ensures { IfOk result (λ c. c ≡ Condition.Implies left right) }
{
    let left = Boxed::new(alloc, left)?;
    Ok(Condition::Implies(left, Boxed::new(alloc, right)?))
}

/// `Compare` of a copied term.
fn compare_of(alloc: Global, term: &Term, op: Op) -> Result<Condition, AllocError>
    ensures { IfOk result (λ c. c ≡ Condition.Compare term.now op) }
{
    let term = term_copied(alloc, term)?;
    Ok(Condition::Compare { term, op })
}

/// The same condition again.
#[cycle(copying)]
fn copied(alloc: Global, condition: &Condition) -> Result<Condition, AllocError>
    ensures { IfOk result (λ c. c ≡ condition.now) }
{
    match condition {
        Condition::True => Ok(Condition::True),
        Condition::False => Ok(Condition::False),
        Condition::Compare { term, op } => compare_of(alloc, term, *op),
        Condition::Is(leaf) => Ok(Condition::Is(*leaf)),
        Condition::Not(part) => {
            let part = copied(alloc, part.get())?;
            not_of(alloc, part)
        }
        Condition::And(parts) => {
            let parts = copies(alloc, parts.as_slice())?;
            Ok(Condition::And(parts))
        }
        Condition::Or(parts) => {
            let parts = copies(alloc, parts.as_slice())?;
            Ok(Condition::Or(parts))
        }
        Condition::Implies(left, right) => {
            let left = copied(alloc, left.get())?;
            let right = copied(alloc, right.get())?;
            implies_of(alloc, left, right)
        }
    }
}

#[cycle(copying)]
fn copies(alloc: Global, parts: &[Condition]) -> Result<Items<Condition>, AllocError>
    ensures { IfOk result (λ cs. cs ≡ parts.now) }
{
    let mut all = Items::new(alloc);
    for part in parts {
        let copy = copied(alloc, part)?;
        all.push(copy)?;
    }
    Ok(all)
}

/// The relation in which a number stands to 0 exactly where it does not stand in this one.
pub fn opposite(op: Op) -> Op
    ensures value { result ≡ relations.opposite op }
    ensures means { IsOpposite result op }
{
    match op {
        Op::Le => Op::Gt,
        Op::Lt => Op::Ge,
        Op::Ge => Op::Lt,
        Op::Gt => Op::Le,
        Op::Eq => Op::Ne,
        Op::Ne => Op::Eq,
    }
}

fn both(alloc: Global, left: Condition, right: Condition) -> Result<Condition, AllocError>
    ensures { IfOk result (λ c. c ≡ Condition.And (left ∷ right ∷ [])) }
{
    let mut parts = Items::new(alloc);
    parts.push(left)?;
    parts.push(right)?;
    Ok(Condition::And(parts))
}

/// A condition that holds exactly where the given one does not. It is a condition over as many
/// leaves and arguments.
#[cycle(negating)]
pub fn negate(alloc: Global, condition: &Condition) -> Result<Condition, AllocError>
    ensures { IfOk result (λ c. IsNegation c condition.now) }
{
    match condition {
        Condition::True => Ok(Condition::False),
        Condition::False => Ok(Condition::True),
        Condition::Compare { term, op } => compare_of(alloc, term, opposite(*op)),
        Condition::Is(leaf) => not_of(alloc, Condition::Is(*leaf)),
        Condition::Not(part) => copied(alloc, part.get()),
        Condition::And(parts) => {
            let parts = negations(alloc, parts.as_slice())?;
            Ok(Condition::Or(parts))
        }
        Condition::Or(parts) => {
            let parts = negations(alloc, parts.as_slice())?;
            Ok(Condition::And(parts))
        }
        Condition::Implies(left, right) => {
            let left = copied(alloc, left.get())?;
            let right = negate(alloc, right.get())?;
            both(alloc, left, right)
        }
    }
}

#[cycle(negating)]
fn negations(alloc: Global, parts: &[Condition]) -> Result<Items<Condition>, AllocError>
    ensures { IfOk result (λ cs. AllZip IsNegation cs parts.now) }
{
    let mut all = Items::new(alloc);
    for part in parts {
        let negation = negate(alloc, part)?;
        all.push(negation)?;
    }
    Ok(all)
}

//! Conditions, with a count of their nodes in text order.

ghost use Rattle.std.specs.Prelude.{◌≡◌, List, ◌∷◌, [], IfOk};
ghost use Rattle.lucy_model.specs.declared.conditions.Condition.{Condition};
ghost use Rattle.lucy_model.specs.declared.conditions.Condition.TheVariants as form;
ghost use Rattle.lucy_gather.specs.declared.scopes.Entry.{Entry};
ghost use Rattle.lucy_gather.specs.declared.scopes.Scope.{Scope};
ghost use Rattle.lucy_gather.specs.Steps.{Gives, Answers};
ghost use Rattle.lucy_gather.specs.Conditions as spec;
ghost use Rattle.lucy_gather.specs.Conditions.{Counted};

use crate::error::ElabError;
use crate::scopes::{Entry, Meaning, Scope, atom_at, flag_at, meaning_of, number_at};
use crate::terms::compared;
use lucy_model::{Condition, Op};
use lucy_plan::{MOST_NODES, What};
use lucy_tree::{Chain, Cond, Factor, Name, Path, Relation, Term, Then, Unary};
use sqlite_items::{Boxed, Items};
use std::alloc::{AllocError, Global};

#[tactic(auto, unfolding(crate::specs::Conditions::counted))]
fn counted(count: &mut u32) -> Result<(), ElabError>
    ensures { Gives (spec.counted count.old) result count.new }
{
    if u64::from(*count) >= MOST_NODES {
        return Err(ElabError::Limit {
            what: What::Conditions,
            count: MOST_NODES + 1,
        });
    }
    *count += 1;
    Ok(())
}

fn op_of(relation: Relation) -> Op
    ensures { result ≡ spec.op_of relation }
{
    match relation {
        Relation::LessEqual => Op::Le,
        Relation::Less => Op::Lt,
        Relation::GreaterEqual => Op::Ge,
        Relation::Greater => Op::Gt,
        Relation::Equal => Op::Eq,
        Relation::NotEqual => Op::Ne,
    }
}

/// A fault at the first token of a comparison, which comes before the count's.
#[tactic(auto, unfolding(crate::specs::Conditions::opened))]
fn opened(scope: &Scope, params: &[Entry], term: &Term) -> Result<(), ElabError>
    ensures answers { Answers (spec.opened scope.now params.now term.now) result }
    ensures exact { result ≡ spec.opened scope.now params.now term.now }
{
    match (term.minus, &term.first.first) {
        (None, Factor::Path(path)) => {
            number_at(scope, params, path)?;
            Ok(())
        }
        _ => Ok(()),
    }
}

#[tactic(auto, unfolding(crate::specs::Conditions::comparison))]
fn comparison(
    alloc: Global,
    scope: &Scope,
    params: &[Entry],
    left: &Term,
    relation: Relation,
    right: &Term,
    count: &mut u32,
) -> Result<Condition, ElabError>
    ensures { Gives (spec.comparison scope.now params.now left.now relation right.now count.old) result count.new }
{
    opened(scope, params, left)?;
    counted(count)?;
    let term = compared(alloc, scope, params, left, right)?;
    Ok(Condition::Compare {
        term,
        op: op_of(relation),
    })
}

/// Refuses an atom that its set does not have. A fault of the set's path comes later.
#[tactic(auto, unfolding(crate::specs::Conditions::known))]
fn known(scope: &Scope, params: &[Entry], atom: &Name, set: &Path) -> Result<(), ElabError>
    ensures answers { Answers (spec.known scope.now params.now atom.now set.now) result }
    ensures exact { result ≡ spec.known scope.now params.now atom.now set.now }
{
    match meaning_of(scope, params, set) {
        Some(Meaning::Set { group, .. }) => {
            match scope.entries.held(group, atom.text.as_slice()) {
                None => Err(ElabError::UnknownName(atom.span.start)),
                Some(_) => Ok(()),
            }
        }
        _ => Ok(()),
    }
}

#[tactic(auto, unfolding(crate::specs::Conditions::member))]
fn member(
    scope: &Scope,
    params: &[Entry],
    atom: &Name,
    set: &Path,
    count: &mut u32,
) -> Result<Condition, ElabError>
    ensures { Gives (spec.member scope.now params.now atom.now set.now count.old) result count.new }
{
    known(scope, params, atom, set)?;
    counted(count)?;
    let leaf = atom_at(scope, params, set, atom)?;
    Ok(Condition::Is(leaf))
}

#[tactic(auto, unfolding(crate::specs::Conditions::flag))]
fn flag(
    scope: &Scope,
    params: &[Entry],
    path: &Path,
    count: &mut u32,
) -> Result<Condition, ElabError>
    ensures { Gives (spec.flag scope.now params.now path.now count.old) result count.new }
{
    let leaf = flag_at(scope, params, path)?;
    counted(count)?;
    Ok(Condition::Is(leaf))
}

fn implies(alloc: Global, left: Condition, right: Condition) -> Result<Condition, AllocError>
    ensures { IfOk result (λ c. c ≡ form.Implies left right) }
{
    Ok(Condition::Implies(Boxed::new(alloc, left)?, Boxed::new(alloc, right)?))
}

/// What stands between two `and`, or between two `or`.
trait Part {
    /// What a list of such parts says.
    ghost joined: { List Condition → Condition };

    /// What one says, over a scope and parameters.
    ghost step: { Scope → List Entry → Self → Counted };

    /// The condition that a list of such parts is.
    fn join(parts: Items<Condition>) -> Condition
        ensures { result ≡ joined parts };

    /// What it says. Counts its nodes.
    fn condition(
        &self,
        alloc: Global,
        scope: &Scope,
        params: &[Entry],
        count: &mut u32,
    ) -> Result<Condition, ElabError>
        ensures { Gives (step scope.now params.now self.now count.old) result count.new };
}

fn parts_of<P: Part>(
    alloc: Global,
    scope: &Scope,
    params: &[Entry],
    others: &[Then<P>],
    first: Condition,
    count: &mut u32,
) -> Result<Items<Condition>, ElabError>
    ensures { Gives (spec.all_of (P.step scope.now params.now) others.now (first ∷ []) count.old) result count.new }
{
    let mut found = Items::new(alloc);
    found.push(first)?;
    for other in others {
        let part = other.item.condition(alloc, scope, params, count)?;
        found.push(part)?;
    }
    Ok(found)
}

/// One condition is itself; more are a list, which is counted at the first `and` or `or`.
fn listed_of<P: Part>(
    alloc: Global,
    scope: &Scope,
    params: &[Entry],
    others: &[Then<P>],
    first: Condition,
    count: &mut u32,
) -> Result<Condition, ElabError>
    ensures { Gives (spec.listed P.joined (P.step scope.now params.now) others.now first count.old) result count.new }
{
    if others.is_empty() {
        return Ok(first);
    }
    counted(count)?;
    let parts = parts_of(alloc, scope, params, others, first, count)?;
    Ok(P::join(parts))
}

impl Part for Unary {
    ghost joined = { form.And };

    ghost step = { spec.unary_of };

    fn join(parts: Items<Condition>) -> Condition {
        Condition::And(parts)
    }

    #[cycle(conditions)]
    #[tactic(auto, using(crate::proofs::ConditionLemmas::parens_is))]
    fn condition(
        &self,
        alloc: Global,
        scope: &Scope,
        params: &[Entry],
        count: &mut u32,
    ) -> Result<Condition, ElabError> {
        match self {
            Unary::Not { inner, .. } => {
                counted(count)?;
                let inner = inner.get().condition(alloc, scope, params, count)?;
                Ok(Condition::Not(Boxed::new(alloc, inner)?))
            }
            Unary::True(_) => {
                counted(count)?;
                Ok(Condition::True)
            }
            Unary::False(_) => {
                counted(count)?;
                Ok(Condition::False)
            }
            Unary::Parens { inner, .. } => {
                let inner = condition_of(alloc, scope, params, inner.get(), count)?;
                Ok(inner)
            }
            Unary::Member { atom, set, .. } => member(scope, params, atom, set.get(), count),
            Unary::Compare {
                left,
                relation,
                right,
                ..
            } => comparison(
                alloc,
                scope,
                params,
                left.get(),
                *relation,
                right.get(),
                count,
            ),
            Unary::Flag(path) => flag(scope, params, path, count),
        }
    }
}

impl<P: Part> Part for Chain<P> {
    ghost joined = { form.Or };

    ghost step = { λ scope params. spec.chained P.joined (P.step scope params) };

    fn join(parts: Items<Condition>) -> Condition {
        Condition::Or(parts)
    }

    fn condition(
        &self,
        alloc: Global,
        scope: &Scope,
        params: &[Entry],
        count: &mut u32,
    ) -> Result<Condition, ElabError> {
        let first = self.first.condition(alloc, scope, params, count)?;
        listed_of(alloc, scope, params, self.others.as_slice(), first, count)
    }
}

/// The condition itself, or with the one that it implies, which is counted at the `=>`.
#[cycle(conditions)]
fn implied_of(
    alloc: Global,
    scope: &Scope,
    params: &[Entry],
    implied: &Option<Then<Boxed<Cond>>>,
    left: Condition,
    count: &mut u32,
) -> Result<Condition, ElabError>
    ensures { Gives (spec.implied_by (spec.condition_of scope.now params.now) implied.now left count.old) result count.new }
{
    match implied {
        None => Ok(left),
        Some(implied) => {
            counted(count)?;
            let right = condition_of(alloc, scope, params, implied.item.get(), count)?;
            let both = implies(alloc, left, right)?;
            Ok(both)
        }
    }
}

/// What a condition says, over a scope and the parameters of a transaction. Counts its nodes. The count means nothing
/// after a refusal.
#[cycle(conditions)]
pub fn condition_of(
    alloc: Global,
    scope: &Scope,
    params: &[Entry],
    cond: &Cond,
    count: &mut u32,
) -> Result<Condition, ElabError>
    ensures { Gives (spec.condition_of scope.now params.now cond.now count.old) result count.new }
{
    let left = cond.left.condition(alloc, scope, params, count)?;
    implied_of(alloc, scope, params, &cond.implied, left, count)
}

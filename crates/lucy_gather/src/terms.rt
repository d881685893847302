//! Terms: products gathered by leaf and by argument.

ghost use Rattle.std.specs.Prelude.{◌≡◌, ◌≤◌, ◌+ℤ◌, Ok};
ghost use Rattle.lucy_gather.specs.Steps.{Gives, Answers};
ghost use Rattle.lucy_gather.specs.Ranges.{is_there};
ghost use Rattle.lucy_gather.specs.Terms as spec;
ghost use Rattle.lucy_plan.specs.Sizes.{most_constant};

use crate::error::ElabError;
use crate::places::{one_more, slot_of};
use crate::ranges::signed;
use crate::scopes::{Entry, Scope, Variable, number_at, size_at};
use lucy_model::{MOST_CONSTANT, MOST_FACTOR, Share, Term};
use lucy_plan::What;
use lucy_tree::{Added, Factor, Product, Sign, Span, Then};
use sqlite_items::{Boxed, Items};
use std::alloc::Global;

/// A factor while it is gathered.
#[derive(Clone, Copy)]
pub struct Wide {
    pub by: i128,
}

/// The factor of each leaf and of each argument, and the constant, of what was read so far.
#[derive(Drop)]
pub struct Gathered {
    pub leaves: Items<Wide>,
    pub arguments: Items<Wide>,
    pub constant: i128,
}

/// The sum. It passes 128 bits only where more products were read than any memory holds, since
/// each of them is below 2^64 in size.
fn plus(sum: i128, by: i128) -> Result<i128, ElabError>
    ensures { Answers (Ok (sum +ℤ by)) result }
{
    match sum.checked_add(by) {
        Some(sum) => Ok(sum),
        None => Err(ElabError::OutOfMemory),
    }
}

#[tactic(auto, unfolding(crate::specs::Terms::shifted))]
fn shifted(gathered: &mut Gathered, by: i128) -> Result<(), ElabError>
    ensures { Gives (spec.shifted by gathered.old) result gathered.new }
{
    gathered.constant = plus(gathered.constant, by)?;
    Ok(())
}

#[tactic(auto, unfolding(crate::specs::Terms::raised))]
fn raised(factors: &mut Items<Wide>, slot: usize, by: i128) -> Result<(), ElabError>
    ensures { Gives (spec.raised slot by factors.old) result factors.new }
{
    match factors.get(slot) {
        None => Ok(()),
        Some(factor) => {
            let sum = plus(factor.by, by)?;
            factors.set(slot, Wide { by: sum });
            Ok(())
        }
    }
}

/// Raises so many factors from a first one on.
fn raised_all(
    factors: &mut Items<Wide>,
    first: usize,
    count: usize,
    by: Wide,
) -> Result<(), ElabError>
    ensures { Gives (spec.raised_all first count by factors.old) result factors.new }
{
    let mut leaf = first;
    for _done in 0..count {
        raised(factors, leaf, by.by)?;
        leaf = one_more(leaf)?;
    }
    Ok(())
}

#[tactic(auto, unfolding(crate::specs::Terms::gather, crate::specs::Terms::gathered_in))]
fn gather(gathered: &mut Gathered, variable: Variable, by: i128) -> Result<(), ElabError>
    ensures { Gives (spec.gather variable by gathered.old) result gathered.new }
{
    match variable {
        Variable::Leaf(leaf) => {
            raised(&mut gathered.leaves, leaf as usize, by)?;
            Ok(())
        }
        Variable::Argument(slot) => {
            raised(&mut gathered.arguments, slot as usize, by)?;
            Ok(())
        }
        Variable::Leaves { first, count } => {
            raised_all(&mut gathered.leaves, first, count, Wide { by })?;
            Ok(())
        }
    }
}

#[tactic(auto, unfolding(crate::specs::Terms::times_by))]
fn times_by(
    scope: &Scope,
    params: &[Entry],
    gathered: &mut Gathered,
    by: i128,
    star: usize,
    factor: &Factor,
) -> Result<(), ElabError>
    ensures { Gives (spec.times_by scope.now params.now by star factor.now gathered.old) result gathered.new }
{
    match factor {
        Factor::Number(_) => Err(ElabError::NotLinear(star)),
        Factor::Path(path) => {
            let variable = number_at(scope, params, path)?;
            gather(gathered, variable, by)
        }
        Factor::Size { set, .. } => {
            let variable = size_at(scope, params, set.get())?;
            gather(gathered, variable, by)
        }
    }
}

#[tactic(auto, unfolding(crate::specs::Terms::number_first))]
fn number_first(
    scope: &Scope,
    params: &[Entry],
    gathered: &mut Gathered,
    by: i128,
    second: &Option<Then<Boxed<Factor>>>,
) -> Result<(), ElabError>
    ensures { Gives (spec.number_first scope.now params.now by second.now gathered.old) result gathered.new }
{
    match second {
        None => shifted(gathered, by),
        Some(second) => times_by(
            scope,
            params,
            gathered,
            by,
            second.mark.start,
            second.item.get(),
        ),
    }
}

#[tactic(auto, unfolding(crate::specs::Terms::variable_first))]
fn variable_first(
    scope: &Scope,
    params: &[Entry],
    gathered: &mut Gathered,
    variable: Variable,
    by: i128,
    second: &Option<Then<Boxed<Factor>>>,
) -> Result<(), ElabError>
    ensures { Gives (spec.variable_first scope.now params.now variable by second.now gathered.old) result gathered.new }
{
    match second {
        None => gather(gathered, variable, by),
        Some(second) => Err(ElabError::NotLinear(second.mark.start)),
    }
}

#[tactic(auto, unfolding(crate::specs::Terms::product_by))]
fn product_in(
    scope: &Scope,
    params: &[Entry],
    gathered: &mut Gathered,
    is_minus: bool,
    product: &Product,
) -> Result<(), ElabError>
    ensures { Gives (spec.product_in scope.now params.now is_minus product.now gathered.old) result gathered.new }
{
    match &product.first {
        Factor::Number(number) => number_first(
            scope,
            params,
            gathered,
            signed(is_minus, number.value),
            &product.second,
        ),
        Factor::Path(path) => {
            let variable = number_at(scope, params, path)?;
            variable_first(
                scope,
                params,
                gathered,
                variable,
                signed(is_minus, 1),
                &product.second,
            )
        }
        Factor::Size { set, .. } => {
            let variable = size_at(scope, params, set.get())?;
            variable_first(
                scope,
                params,
                gathered,
                variable,
                signed(is_minus, 1),
                &product.second,
            )
        }
    }
}

fn is_minus(sign: Sign) -> bool
    ensures { result ≡ spec.is_minus sign }
{
    match sign {
        Sign::Plus => false,
        Sign::Minus => true,
    }
}

/// On the right side of a relation each sign is the other one.
fn turned(is_right: bool, is_minus: bool) -> bool
    ensures { result ≡ spec.turned is_right is_minus }
{
    if is_right { !is_minus } else { is_minus }
}

#[tactic(auto, unfolding(crate::specs::Terms::added_in))]
fn added_in(
    scope: &Scope,
    params: &[Entry],
    gathered: &mut Gathered,
    is_right: bool,
    added: &Added,
) -> Result<(), ElabError>
    ensures { Gives (spec.added_in scope.now params.now is_right added.now gathered.old) result gathered.new }
{
    product_in(
        scope,
        params,
        gathered,
        turned(is_right, is_minus(added.sign)),
        &added.product,
    )
}

fn others_in(
    scope: &Scope,
    params: &[Entry],
    gathered: &mut Gathered,
    is_right: bool,
    others: &[Added],
) -> Result<(), ElabError>
    ensures { Gives (spec.others_in scope.now params.now is_right others.now gathered.old) result gathered.new }
{
    for added in others {
        added_in(scope, params, gathered, is_right, added)?;
    }
    Ok(())
}

/// Whether there is a `-`.
pub fn is_there(minus: Option<Span>) -> bool
    ensures { result ≡ is_there minus }
{
    match minus {
        None => false,
        Some(_) => true,
    }
}

#[tactic(auto, unfolding(crate::specs::Terms::term_in))]
fn term_in(
    scope: &Scope,
    params: &[Entry],
    gathered: &mut Gathered,
    is_right: bool,
    term: &lucy_tree::Term,
) -> Result<(), ElabError>
    ensures { Gives (spec.term_in scope.now params.now is_right term.now gathered.old) result gathered.new }
{
    product_in(
        scope,
        params,
        gathered,
        turned(is_right, is_there(term.minus)),
        &term.first,
    )?;
    others_in(scope, params, gathered, is_right, term.others.as_slice())?;
    Ok(())
}

/// A size, as a limit tells it.
fn told(size: u128) -> u64
    ensures { result ≡ spec.told size }
{
    if size > u128::from(u64::MAX) {
        u64::MAX
    } else {
        size as u64
    }
}

#[tactic(auto, unfolding(crate::specs::Terms::within))]
fn within(what: What, most: u64, number: i128) -> Result<i64, ElabError>
    requires { most ≤ most_constant }
    ensures { Answers (spec.within what most number) result }
{
    let size = number.unsigned_abs();
    if size > u128::from(most) {
        return Err(ElabError::Limit {
            what,
            count: told(size),
        });
    }
    Ok(number as i64)
}

#[tactic(auto, unfolding(crate::specs::Terms::share_in))]
fn share_in(shares: &mut Items<Share>, place: usize, factor: Wide) -> Result<(), ElabError>
    ensures { Gives (spec.share_in place factor shares.old) result shares.new }
{
    if factor.by == 0 {
        return Ok(());
    }
    let by = within(What::Coefficient, MOST_FACTOR, factor.by)?;
    let slot = slot_of(place)?;
    shares.push(Share { slot, by })?;
    Ok(())
}

fn shares_in(shares: &mut Items<Share>, factors: &[Wide]) -> Result<(), ElabError>
    ensures { Gives (spec.shares_in factors.now shares.old) result shares.new }
{
    for (place, factor) in factors.iter().enumerate() {
        share_in(shares, place, *factor)?;
    }
    Ok(())
}

#[tactic(auto, unfolding(crate::specs::Terms::shares_of))]
fn shares_of(alloc: Global, factors: &[Wide]) -> Result<Items<Share>, ElabError>
    ensures { Answers (spec.shares_of factors.now) result }
{
    let mut shares = Items::new(alloc);
    shares_in(&mut shares, factors)?;
    Ok(shares)
}

#[tactic(auto, unfolding(crate::specs::Terms::term_of))]
fn term_of(alloc: Global, gathered: &Gathered) -> Result<Term, ElabError>
    ensures { Answers (spec.term_of gathered.now) result }
{
    let leaves = shares_of(alloc, gathered.leaves.as_slice())?;
    let arguments = shares_of(alloc, gathered.arguments.as_slice())?;
    let constant = within(What::Constant, MOST_CONSTANT, gathered.constant)?;
    Ok(Term {
        leaves,
        arguments,
        constant,
    })
}

fn nothing(alloc: Global, scope: &Scope, params: &[Entry]) -> Result<Gathered, ElabError>
    ensures { Answers (Ok (spec.nothing scope.now params.now)) result }
{
    let leaves = Items::from_vec(vec![in alloc; Wide { by: 0 }; scope.leaves.len()]?);
    let arguments = Items::from_vec(vec![in alloc; Wide { by: 0 }; params.len()]?);
    Ok(Gathered {
        leaves,
        arguments,
        constant: 0,
    })
}

/// What a change assigns.
#[tactic(auto, unfolding(crate::specs::Terms::assigned))]
pub fn assigned(
    alloc: Global,
    scope: &Scope,
    params: &[Entry],
    term: &lucy_tree::Term,
) -> Result<Term, ElabError>
    ensures { Answers (spec.assigned scope.now params.now term.now) result }
{
    let mut gathered = nothing(alloc, scope, params)?;
    term_in(scope, params, &mut gathered, false, term)?;
    let term = term_of(alloc, &gathered)?;
    Ok(term)
}

/// The left side less the right one.
#[tactic(auto, unfolding(crate::specs::Terms::compared))]
pub fn compared(
    alloc: Global,
    scope: &Scope,
    params: &[Entry],
    left: &lucy_tree::Term,
    right: &lucy_tree::Term,
) -> Result<Term, ElabError>
    ensures { Answers (spec.compared scope.now params.now left.now right.now) result }
{
    let mut gathered = nothing(alloc, scope, params)?;
    term_in(scope, params, &mut gathered, false, left)?;
    term_in(scope, params, &mut gathered, true, right)?;
    let term = term_of(alloc, &gathered)?;
    Ok(term)
}

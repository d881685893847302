//! Transactions.

ghost use Rattle.std.specs.Prelude.{◌≡◌, ◌+◌, Ok};
ghost use Rattle.lucy_gather.specs.Steps.{Gives, Answers};
ghost use Rattle.lucy_elaborate.specs.Txns as spec;

use crate::changes::branches_of;
use crate::limits::next_place;
use lucy_gather::{ElabError, Entry, Meaning, Scope, held_param, limits_between};
use lucy_plan::{Limits, MOST_ARGUMENTS, MOST_TXNS, Segment, Txn, What};
use lucy_tree::{Chain, Name, Param, Then};
use sqlite_items::Items;
use std::alloc::Global;
use std::str;

/// The parameters of a transaction, and their ranges.
#[derive(Drop)]
pub struct Head {
    pub params: Items<Entry>,
    pub limits: Items<Limits>,
}

/// The transactions and segments so far, and how many condition nodes and points they have.
#[derive(Drop)]
pub struct Found {
    pub txns: Items<Txn>,
    pub segments: Items<Segment>,
    pub conditions: u32,
    pub points: u32,
}

/// A name's text.
#[tactic(auto, unfolding(crate::specs::Txns::text_of))]
pub fn text_of(alloc: Global, name: &Name) -> Result<lucy_plan::Name, ElabError>
    ensures { Answers (spec.text_of name.now) result }
{
    match str::from_utf8(name.text.as_slice()) {
        Err(_) => Err(ElabError::UnknownName(name.span.start)),
        Ok(text) => {
            let name = lucy_plan::Name::new(alloc, text)?;
            Ok(name)
        }
    }
}

/// The place of the next parameter.
#[tactic(auto, unfolding(crate::specs::Txns::next_param))]
fn next_param(head: &Head) -> Result<u32, ElabError>
    ensures { Gives (spec.next_param head.now) result head.now }
{
    next_place(head.params.len(), MOST_ARGUMENTS, What::Arguments)
}

#[tactic(auto, unfolding(crate::specs::Txns::unused))]
fn unused(scope: &Scope, head: &Head, name: &Name) -> Result<(), ElabError>
    ensures { Gives (spec.unused scope.now name.now head.now) result head.now }
{
    if scope.entries.held(0, name.text.as_slice()).is_some() {
        return Err(ElabError::Twice(name.span.start));
    }
    match held_param(head.params.as_slice(), name.text.as_slice()) {
        Some(_) => Err(ElabError::Twice(name.span.start)),
        None => Ok(()),
    }
}

#[tactic(auto, unfolding(crate::specs::Txns::with_param))]
fn with_param(
    alloc: Global,
    head: &mut Head,
    name: &Name,
    place: u32,
    limits: Limits,
) -> Result<(), ElabError>
    ensures { Gives (spec.with_param name.now place limits head.old) result head.new }
{
    let name = Items::from_slice(alloc, name.text.as_slice())?;
    head.params.push(Entry {
        group: 0,
        name,
        meaning: Meaning::Argument(place),
    })?;
    head.limits.push(limits)?;
    Ok(())
}

#[tactic(auto, unfolding(crate::specs::Txns::param_in))]
fn param_in(alloc: Global, scope: &Scope, head: &mut Head, param: &Param) -> Result<(), ElabError>
    ensures { Gives (spec.param_in scope.now param.now head.old) result head.new }
{
    unused(scope, head, &param.name)?;
    let place = next_param(head)?;
    let limits = limits_between(param.bounds)?;
    with_param(alloc, head, &param.name, place, limits)?;
    Ok(())
}

fn later_params(
    alloc: Global,
    scope: &Scope,
    head: &mut Head,
    params: &[Then<Param>],
) -> Result<(), ElabError>
    ensures { Gives (spec.later_params scope.now params.now head.old) result head.new }
{
    for param in params {
        param_in(alloc, scope, head, &param.item)?;
    }
    Ok(())
}

#[tactic(auto, unfolding(crate::specs::Txns::params_in))]
fn params_in(
    alloc: Global,
    scope: &Scope,
    head: &mut Head,
    params: &Option<Chain<Param>>,
) -> Result<(), ElabError>
    ensures { Gives (spec.params_in scope.now params.now head.old) result head.new }
{
    match params {
        None => Ok(()),
        Some(params) => {
            param_in(alloc, scope, head, &params.first)?;
            later_params(alloc, scope, head, params.others.as_slice())?;
            Ok(())
        }
    }
}

#[tactic(auto, unfolding(crate::specs::Txns::head_of))]
fn head_of(alloc: Global, scope: &Scope, params: &Option<Chain<Param>>) -> Result<Head, ElabError>
    ensures { Answers (spec.head_of scope.now params.now) result }
{
    let mut head = Head {
        params: Items::new(alloc),
        limits: Items::new(alloc),
    };
    params_in(alloc, scope, &mut head, params)?;
    Ok(head)
}

#[tactic(auto, unfolding(crate::specs::Txns::txn_of))]
fn txn_of(
    alloc: Global,
    scope: &Scope,
    txn: &lucy_tree::Txn,
    count: &mut u32,
) -> Result<Txn, ElabError>
    ensures { Gives (spec.txn_of scope.now txn.now count.old) result count.new }
{
    let name = text_of(alloc, &txn.name)?;
    let Head { params, limits } = head_of(alloc, scope, &txn.params)?;
    branches_of(
        alloc,
        scope,
        params.as_slice(),
        txn.branches.as_slice(),
        count,
    )
    .map(|branches| Txn {
        name,
        params: limits,
        branches,
    })
}

#[tactic(auto, unfolding(crate::specs::Txns::room_for_txn))]
fn room_for_txn(found: &Found) -> Result<(), ElabError>
    ensures { Gives (spec.room_for_txn found.now) result found.now }
{
    next_place(found.txns.len(), MOST_TXNS, What::Transactions)?;
    Ok(())
}

fn is_txn_named(txns: &[Txn], name: &[u8]) -> bool
    ensures { result ≡ spec.is_txn_named name.now txns.now }
{
    for txn in txns {
        if txn.name.as_str().as_bytes() == name {
            return true;
        }
    }
    false
}

#[tactic(auto, unfolding(crate::specs::Txns::new_txn))]
fn new_txn(found: &Found, name: &Name) -> Result<(), ElabError>
    ensures { Gives (spec.new_txn name.now found.now) result found.now }
{
    if is_txn_named(found.txns.as_slice(), name.text.as_slice()) {
        Err(ElabError::Twice(name.span.start))
    } else {
        Ok(())
    }
}

#[tactic(auto, unfolding(crate::specs::Txns::with_txn))]
fn with_txn(found: &mut Found, txn: Txn) -> Result<(), ElabError>
    ensures { Gives (spec.with_txn txn found.old) result found.new }
{
    found.txns.push(txn)?;
    Ok(())
}

#[tactic(auto, unfolding(crate::specs::Txns::txn_in))]
fn txn_in(
    alloc: Global,
    scope: &Scope,
    found: &mut Found,
    txn: &lucy_tree::Txn,
) -> Result<(), ElabError>
    ensures { Gives (spec.txn_in scope.now txn.now found.old) result found.new }
{
    room_for_txn(found)?;
    new_txn(found, &txn.name)?;
    let made = txn_of(alloc, scope, txn, &mut found.conditions)?;
    with_txn(found, made)?;
    Ok(())
}

/// The transactions of a plan, behind those found.
pub fn txns_in(
    alloc: Global,
    scope: &Scope,
    found: &mut Found,
    txns: &[lucy_tree::Txn],
) -> Result<(), ElabError>
    ensures { Gives (spec.txns_in scope.now txns.now found.old) result found.new }
{
    for txn in txns {
        txn_in(alloc, scope, found, txn)?;
    }
    Ok(())
}

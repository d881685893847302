//! The text of the invariant and of transactions.

ghost use Rattle.std.specs.Prelude.{◌≡◌, ◌++◌, OnOk};
ghost use Rattle.lucy_tree.specs.Words.{each, maybe, chain_words, then_words};
ghost use Rattle.lucy_tree.specs.Spelling as words;
ghost use Rattle.lucy_lexer.specs.declared.token.TokenKind.TheVariants as k;
ghost use Rattle.lucy_print.specs.Layout.{laid, texts};

use crate::conditions::put_cond;
use crate::listed::{Listed, put_each};
use crate::marks::{put, put_bounds, put_name, put_path};
use crate::terms::put_term;
use lucy_lexer::TokenKind;
use lucy_tree::{Assigned, Branch, Chain, Change, Invariant, Param, Then, Txn};
use std::alloc::AllocError;

pub fn put_invariant(out: &mut Vec<u8>, invariant: &Invariant) -> Result<(), AllocError>
    ensures { OnOk result (out.new.items ≡ out.old.items ++ laid (words.invariant_words invariant.now)) }
{
    put(out, TokenKind::Invariant)?;
    put_cond(out, &invariant.cond)?;
    put(out, TokenKind::Semicolon)
}

fn put_param(out: &mut Vec<u8>, param: &Param) -> Result<(), AllocError>
    ensures { OnOk result (out.new.items ≡ out.old.items ++ laid (words.param_words param.now)) }
{
    put_name(out, &param.name)?;
    put_bounds(out, param.bounds)
}

impl Listed for Then<Param> {
    ghost use Rattle.lucy_lexer.specs.declared.token.TokenKind.TheVariants as k;
    ghost use Rattle.lucy_tree.specs.Words.{then_words};
    ghost use Rattle.lucy_tree.specs.Spelling.{param_words};

    ghost words = { then_words k.Comma param_words };

    fn put(&self, out: &mut Vec<u8>) -> Result<(), AllocError> {
        put(out, TokenKind::Comma)?;
        put_param(out, &self.item)
    }
}

/// Appends the parameters after the first.
#[tactic(auto, using(crate::proofs::Laying::texts_are))]
fn put_params(out: &mut Vec<u8>, others: &[Then<Param>]) -> Result<(), AllocError>
    ensures { OnOk result (out.new.items ≡ out.old.items ++ laid (each (then_words k.Comma words.param_words) others.now)) }
{
    put_each(out, others)
}

fn put_all_params(out: &mut Vec<u8>, params: &Option<Chain<Param>>) -> Result<(), AllocError>
    ensures { OnOk result (out.new.items ≡ out.old.items ++ laid (maybe (chain_words k.Comma words.param_words) params.now)) }
{
    match params {
        None => Ok(()),
        Some(params) => {
            put_param(out, &params.first)?;
            put_params(out, params.others.as_slice())
        }
    }
}

fn put_assigned(out: &mut Vec<u8>, value: &Assigned) -> Result<(), AllocError>
    ensures { OnOk result (out.new.items ≡ out.old.items ++ laid (words.assigned_words value.now)) }
{
    match value {
        Assigned::Term(term) => put_term(out, term),
        Assigned::On(_) => put(out, TokenKind::On),
        Assigned::Off(_) => put(out, TokenKind::Off),
    }
}

fn put_change(out: &mut Vec<u8>, change: &Change) -> Result<(), AllocError>
    ensures { OnOk result (out.new.items ≡ out.old.items ++ laid (words.change_words change.now)) }
{
    match change {
        Change::Assign { path, value, .. } => {
            put_path(out, path)?;
            put(out, TokenKind::Assign)?;
            put_assigned(out, value)?;
            put(out, TokenKind::Semicolon)
        }
        Change::Insert { atom, set, .. } => {
            put(out, TokenKind::Insert)?;
            put_name(out, atom)?;
            put(out, TokenKind::Into)?;
            put_path(out, set)?;
            put(out, TokenKind::Semicolon)
        }
    }
}

impl Listed for Change {
    ghost use Rattle.lucy_tree.specs.Spelling.{change_words};

    ghost words = { change_words };

    fn put(&self, out: &mut Vec<u8>) -> Result<(), AllocError> {
        put_change(out, self)
    }
}

fn put_changes(out: &mut Vec<u8>, changes: &[Change]) -> Result<(), AllocError>
    ensures { OnOk result (out.new.items ≡ out.old.items ++ texts words.change_words changes.now) }
{
    put_each(out, changes)
}

fn put_branch(out: &mut Vec<u8>, branch: &Branch) -> Result<(), AllocError>
    ensures { OnOk result (out.new.items ≡ out.old.items ++ laid (words.branch_words branch.now)) }
{
    put(out, TokenKind::When)?;
    put_cond(out, &branch.cond)?;
    put(out, TokenKind::OpenBrace)?;
    put_changes(out, branch.changes.as_slice())?;
    put(out, TokenKind::CloseBrace)
}

impl Listed for Branch {
    ghost use Rattle.lucy_tree.specs.Spelling.{branch_words};

    ghost words = { branch_words };

    fn put(&self, out: &mut Vec<u8>) -> Result<(), AllocError> {
        put_branch(out, self)
    }
}

fn put_branches(out: &mut Vec<u8>, branches: &[Branch]) -> Result<(), AllocError>
    ensures { OnOk result (out.new.items ≡ out.old.items ++ texts words.branch_words branches.now) }
{
    put_each(out, branches)
}

fn put_txn(out: &mut Vec<u8>, txn: &Txn) -> Result<(), AllocError>
    ensures { OnOk result (out.new.items ≡ out.old.items ++ laid (words.txn_words txn.now)) }
{
    put(out, TokenKind::Txn)?;
    put_name(out, &txn.name)?;
    put(out, TokenKind::OpenParen)?;
    put_all_params(out, &txn.params)?;
    put(out, TokenKind::CloseParen)?;
    put(out, TokenKind::OpenBrace)?;
    put_branches(out, txn.branches.as_slice())?;
    put(out, TokenKind::CloseBrace)
}

impl Listed for Txn {
    ghost use Rattle.lucy_tree.specs.Spelling.{txn_words};

    ghost words = { txn_words };

    fn put(&self, out: &mut Vec<u8>) -> Result<(), AllocError> {
        put_txn(out, self)
    }
}

pub fn put_txns(out: &mut Vec<u8>, txns: &[Txn]) -> Result<(), AllocError>
    ensures { OnOk result (out.new.items ≡ out.old.items ++ texts words.txn_words txns.now) }
{
    put_each(out, txns)
}

//! The text of conditions.

ghost use Rattle.std.specs.Prelude.{◌≡◌, ◌++◌, OnOk, codes};
ghost use Rattle.lucy_tree.specs.Words.{each, then_words, chain_words, maybe};
ghost use Rattle.lucy_tree.specs.Spelling as words;
ghost use Rattle.lucy_lexer.specs.declared.token.TokenKind.TheVariants as k;
ghost use Rattle.lucy_print.specs.Layout.{laid, texts};

use crate::marks::{put, put_name, put_path};
use crate::terms::{put_relation, put_term};
use lucy_lexer::TokenKind;
use lucy_tree::{Cond, Conj, Disj, Name, Path, Then, Unary};
use sqlite_items::Boxed;
use std::alloc::AllocError;

fn put_member(out: &mut Vec<u8>, atom: &Name, set: &Path) -> Result<(), AllocError>
    ensures { OnOk result (out.new.items ≡ out.old.items ++ (laid (words.name_words atom.now) ++ (codes "in " ++ laid (words.path_words set.now)))) }
{
    put_name(out, atom)?;
    put(out, TokenKind::In)?;
    put_path(out, set)
}

#[cycle(conditions)]
fn put_unary(out: &mut Vec<u8>, unary: &Unary) -> Result<(), AllocError>
    ensures { OnOk result (out.new.items ≡ out.old.items ++ laid (words.unary_words unary.now)) }
{
    match unary {
        Unary::Not { inner, .. } => {
            put(out, TokenKind::Not)?;
            put_unary(out, inner.get())
        }
        Unary::True(_) => put(out, TokenKind::True),
        Unary::False(_) => put(out, TokenKind::False),
        Unary::Parens { inner, .. } => {
            put(out, TokenKind::OpenParen)?;
            put_cond(out, inner.get())?;
            put(out, TokenKind::CloseParen)
        }
        Unary::Member { atom, set, .. } => put_member(out, atom, set.get()),
        Unary::Compare {
            left,
            relation,
            right,
            ..
        } => {
            put_term(out, left.get())?;
            put_relation(out, *relation)?;
            put_term(out, right.get())
        }
        Unary::Flag(path) => put_path(out, path),
    }
}

#[cycle(conditions)]
fn put_ands(out: &mut Vec<u8>, others: &[Then<Unary>]) -> Result<(), AllocError>
    ensures { OnOk result (out.new.items ≡ out.old.items ++ texts (then_words k.And words.unary_words) others.now) }
{
    for other in others {
        put(out, TokenKind::And)?;
        put_unary(out, &other.item)?;
    }
    Ok(())
}

#[cycle(conditions)]
fn put_conj(out: &mut Vec<u8>, conj: &Conj) -> Result<(), AllocError>
    ensures { OnOk result (out.new.items ≡ out.old.items ++ laid (chain_words k.And words.unary_words conj.now)) }
{
    put_unary(out, &conj.first)?;
    put_ands(out, conj.others.as_slice())
}

#[cycle(conditions)]
fn put_ors(out: &mut Vec<u8>, others: &[Then<Conj>]) -> Result<(), AllocError>
    ensures { OnOk result (out.new.items ≡ out.old.items ++ texts (then_words k.Or (chain_words k.And words.unary_words)) others.now) }
{
    for other in others {
        put(out, TokenKind::Or)?;
        put_conj(out, &other.item)?;
    }
    Ok(())
}

#[cycle(conditions)]
fn put_disj(out: &mut Vec<u8>, disj: &Disj) -> Result<(), AllocError>
    ensures { OnOk result (out.new.items ≡ out.old.items ++ laid (chain_words k.Or (chain_words k.And words.unary_words) disj.now)) }
{
    put_conj(out, &disj.first)?;
    put_ors(out, disj.others.as_slice())
}

#[cycle(conditions)]
fn put_implied(out: &mut Vec<u8>, implied: &Option<Then<Boxed<Cond>>>) -> Result<(), AllocError>
    ensures { OnOk result (out.new.items ≡ out.old.items ++ laid (maybe (then_words k.Arrow words.cond_words) implied.now)) }
{
    match implied {
        None => Ok(()),
        Some(right) => {
            put(out, TokenKind::Arrow)?;
            put_cond(out, right.item.get())
        }
    }
}

#[cycle(conditions)]
#[tactic(auto, using(crate::proofs::CondParts::cond_text))]
pub fn put_cond(out: &mut Vec<u8>, cond: &Cond) -> Result<(), AllocError>
    ensures { OnOk result (out.new.items ≡ out.old.items ++ laid (words.cond_words cond.now)) }
{
    put_disj(out, &cond.left)?;
    put_implied(out, &cond.implied)
}

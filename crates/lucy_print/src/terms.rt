//! The text of terms.

ghost use Rattle.std.specs.Prelude.{◌≡◌, ◌++◌, OnOk};
ghost use Rattle.lucy_tree.specs.Words.{each, maybe, then_words};
ghost use Rattle.lucy_tree.specs.Spelling as words;
ghost use Rattle.lucy_lexer.specs.declared.token.TokenKind.TheVariants as k;
ghost use Rattle.lucy_print.specs.Layout.{laid, texts, written_kind, text_of};

use crate::listed::{Listed, put_each};
use crate::marks::{put, put_number, put_path};
use lucy_lexer::TokenKind;
use lucy_tree::{Added, Factor, Product, Relation, Sign, Term, Then};
use sqlite_items::Boxed;
use std::alloc::AllocError;

fn put_factor(out: &mut Vec<u8>, factor: &Factor) -> Result<(), AllocError>
    ensures { OnOk result (out.new.items ≡ out.old.items ++ laid (words.factor_words factor.now)) }
{
    match factor {
        Factor::Number(number) => put_number(out, *number),
        Factor::Path(path) => put_path(out, path),
        Factor::Size { set, .. } => {
            put(out, TokenKind::Size)?;
            put(out, TokenKind::OpenParen)?;
            put_path(out, set.get())?;
            put(out, TokenKind::CloseParen)
        }
    }
}

fn put_times(out: &mut Vec<u8>, second: &Option<Then<Boxed<Factor>>>) -> Result<(), AllocError>
    ensures { OnOk result (out.new.items ≡ out.old.items ++ laid (maybe (then_words k.Star words.factor_words) second.now)) }
{
    match second {
        None => Ok(()),
        Some(times) => {
            put(out, TokenKind::Star)?;
            put_factor(out, times.item.get())
        }
    }
}

fn put_product(out: &mut Vec<u8>, product: &Product) -> Result<(), AllocError>
    ensures { OnOk result (out.new.items ≡ out.old.items ++ laid (words.product_words product.now)) }
{
    put_factor(out, &product.first)?;
    put_times(out, &product.second)
}

fn put_sign(out: &mut Vec<u8>, added: &Added) -> Result<(), AllocError>
    ensures { OnOk result (out.new.items ≡ out.old.items ++ laid (words.added_words added.now)) }
{
    match added.sign {
        Sign::Plus => put(out, TokenKind::Plus)?,
        Sign::Minus => put(out, TokenKind::Minus)?,
    }
    put_product(out, &added.product)
}

impl Listed for Added {
    ghost use Rattle.lucy_tree.specs.Spelling.{added_words};

    ghost words = { added_words };

    fn put(&self, out: &mut Vec<u8>) -> Result<(), AllocError> {
        put_sign(out, self)
    }
}

fn put_added(out: &mut Vec<u8>, others: &[Added]) -> Result<(), AllocError>
    ensures { OnOk result (out.new.items ≡ out.old.items ++ texts words.added_words others.now) }
{
    put_each(out, others)
}

pub fn put_term(out: &mut Vec<u8>, term: &Term) -> Result<(), AllocError>
    ensures { OnOk result (out.new.items ≡ out.old.items ++ laid (words.term_words term.now)) }
{
    if term.minus.is_some() {
        put(out, TokenKind::Minus)?;
    }
    put_product(out, &term.first)?;
    put_added(out, term.others.as_slice())
}

/// Appends the sign of a comparison.
pub fn put_relation(out: &mut Vec<u8>, relation: Relation) -> Result<(), AllocError>
    ensures { OnOk result (out.new.items ≡ out.old.items ++ text_of (written_kind (words.relation_kind relation))) }
{
    match relation {
        Relation::LessEqual => put(out, TokenKind::LessEqual),
        Relation::Less => put(out, TokenKind::Less),
        Relation::GreaterEqual => put(out, TokenKind::GreaterEqual),
        Relation::Greater => put(out, TokenKind::Greater),
        Relation::Equal => put(out, TokenKind::Equal),
        Relation::NotEqual => put(out, TokenKind::NotEqual),
    }
}

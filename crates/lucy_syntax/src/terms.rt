//! Names, numbers and terms.

ghost use Rattle.std.specs.Prelude.{◌≡◌, Ok};
ghost use Rattle.lucy_syntax.specs.Input.{Reads};
ghost use Rattle.lucy_syntax.specs.Terms as spec;

use crate::cursor::Cursor;
use crate::error::SyntaxError;
use crate::listed::{Listed, many};
use lucy_lexer::TokenKind;
use lucy_tree::{
    Added, Bounds, Factor, Int, Name, Path, Product, Relation, Sign, Span, Term, Then,
};
use sqlite_items::{Boxed, Items};
use std::alloc::Global;

impl Listed for Name {
    ghost use Rattle.std.specs.Prelude.{[], ◌∷◌};
    ghost use Rattle.lucy_lexer.specs.declared.token.TokenKind.TheVariants as k;
    ghost use Rattle.lucy_syntax.specs.Input.{ahead, name};
    ghost use Rattle.lucy_syntax.specs.Lists.{alone};

    type Mark = Span;

    type Item = Name;

    ghost begun = { ahead (k.Name ∷ []) };

    ghost read = { name };

    ghost joined = { alone };

    fn begun(cursor: &mut Cursor<'_>) -> Option<Span> {
        cursor.ahead(&[TokenKind::Name])
    }

    fn read(alloc: Global, cursor: &mut Cursor<'_>) -> Result<Name, SyntaxError> {
        cursor.name(alloc)
    }

    fn joined(_: Span, item: Name) -> Name {
        item
    }
}

/// Any number of names.
#[tactic(auto, unfolding(crate::specs::Terms::names))]
pub fn names(alloc: Global, cursor: &mut Cursor<'_>) -> Result<Items<Name>, SyntaxError>
    ensures { Reads (spec.names cursor.old) result cursor.new }
{
    many(alloc, cursor)
}

impl Listed for Then<Name> {
    ghost use Rattle.lucy_lexer.specs.declared.token.TokenKind.TheVariants as k;
    ghost use Rattle.lucy_syntax.specs.Input.{eat, name};
    ghost use Rattle.lucy_syntax.specs.Lists.{then_of};

    type Mark = Span;

    type Item = Name;

    ghost begun = { eat k.Dot };

    ghost read = { name };

    ghost joined = { then_of };

    fn begun(cursor: &mut Cursor<'_>) -> Option<Span> {
        cursor.eat(TokenKind::Dot)
    }

    fn read(alloc: Global, cursor: &mut Cursor<'_>) -> Result<Name, SyntaxError> {
        cursor.name(alloc)
    }

    fn joined(mark: Span, item: Name) -> Then<Name> {
        Then { mark, item }
    }
}

#[tactic(auto, unfolding(crate::specs::Terms::steps))]
fn steps(alloc: Global, cursor: &mut Cursor<'_>) -> Result<Items<Then<Name>>, SyntaxError>
    ensures { Reads (spec.steps cursor.old) result cursor.new }
{
    many(alloc, cursor)
}

#[tactic(auto, unfolding(crate::specs::Terms::path))]
pub fn path(alloc: Global, cursor: &mut Cursor<'_>) -> Result<Path, SyntaxError>
    ensures { Reads (spec.path cursor.old) result cursor.new }
{
    let first = cursor.name(alloc)?;
    let others = steps(alloc, cursor)?;
    Ok(Path { first, others })
}

/// A path in memory of its own, so that what holds it stays small.
pub fn boxed_path(alloc: Global, cursor: &mut Cursor<'_>) -> Result<Boxed<Path>, SyntaxError>
    ensures { Reads (spec.path cursor.old) result cursor.new }
{
    let path = path(alloc, cursor)?;
    Ok(Boxed::new(alloc, path)?)
}

#[tactic(auto, unfolding(crate::specs::Terms::int))]
pub fn int(cursor: &mut Cursor<'_>) -> Result<Int, SyntaxError>
    ensures { Reads (spec.int cursor.old) result cursor.new }
{
    let minus = cursor.eat(TokenKind::Minus);
    let number = cursor.number()?;
    Ok(Int { minus, number })
}

#[tactic(auto, unfolding(crate::specs::Terms::bounds))]
pub fn bounds(cursor: &mut Cursor<'_>) -> Result<Bounds, SyntaxError>
    ensures { Reads (spec.bounds cursor.old) result cursor.new }
{
    let in_word = cursor.expect(TokenKind::In)?;
    let low = int(cursor)?;
    let dots = cursor.expect(TokenKind::DotDot)?;
    let high = int(cursor)?;
    Ok(Bounds {
        in_word,
        low,
        dots,
        high,
    })
}

#[tactic(auto, unfolding(crate::specs::Terms::size))]
fn size(alloc: Global, cursor: &mut Cursor<'_>) -> Result<Factor, SyntaxError>
    ensures { Reads (spec.size cursor.old) result cursor.new }
{
    let word = cursor.expect(TokenKind::Size)?;
    let open_paren = cursor.expect(TokenKind::OpenParen)?;
    let set = boxed_path(alloc, cursor)?;
    cursor
        .expect(TokenKind::CloseParen)
        .map(|close_paren| Factor::Size {
            word,
            open_paren,
            set,
            close_paren,
        })
}

#[tactic(auto, unfolding(crate::specs::Terms::factor))]
fn factor(alloc: Global, cursor: &mut Cursor<'_>) -> Result<Factor, SyntaxError>
    ensures { Reads (spec.factor cursor.old) result cursor.new }
{
    match cursor.peek() {
        Some(TokenKind::Number(_)) => {
            let number = cursor.number()?;
            Ok(Factor::Number(number))
        }
        Some(TokenKind::Name) => {
            let path = path(alloc, cursor)?;
            Ok(Factor::Path(path))
        }
        Some(TokenKind::Size) => size(alloc, cursor),
        _ => Err(cursor.refuse()),
    }
}

#[tactic(auto, unfolding(crate::specs::Terms::times))]
fn times(alloc: Global, cursor: &mut Cursor<'_>) -> Result<Option<Then<Boxed<Factor>>>, SyntaxError>
    ensures { Reads (spec.times cursor.old) result cursor.new }
{
    match cursor.eat(TokenKind::Star) {
        None => Ok(None),
        Some(mark) => {
            let item = factor(alloc, cursor)?;
            Ok(Some(Then {
                mark,
                item: Boxed::new(alloc, item)?,
            }))
        }
    }
}

/// A product whose first factor is read.
#[tactic(auto, unfolding(crate::specs::Terms::product_after))]
#[inline(always)]
pub fn product_after(
    alloc: Global,
    cursor: &mut Cursor<'_>,
    first: Factor,
) -> Result<Product, SyntaxError>
    ensures { Reads (spec.product_after first cursor.old) result cursor.new }
{
    let second = times(alloc, cursor)?;
    Ok(Product { first, second })
}

#[tactic(auto, unfolding(crate::specs::Terms::product))]
fn product(alloc: Global, cursor: &mut Cursor<'_>) -> Result<Product, SyntaxError>
    ensures { Reads (spec.product cursor.old) result cursor.new }
{
    let first = factor(alloc, cursor)?;
    product_after(alloc, cursor, first)
}

/// Reads a `+` or a `-`, if one comes next.
#[tactic(auto, unfolding(crate::specs::Terms::sign))]
fn sign(cursor: &mut Cursor<'_>) -> Option<(Sign, Span)>
    ensures { spec.sign cursor.old ≡ Ok (result, cursor.new) }
{
    match cursor.eat(TokenKind::Plus) {
        Some(mark) => Some((Sign::Plus, mark)),
        None => match cursor.eat(TokenKind::Minus) {
            Some(mark) => Some((Sign::Minus, mark)),
            None => None,
        },
    }
}

impl Listed for Added {
    ghost use Rattle.lucy_syntax.specs.Terms.{added_of, product, sign};

    type Mark = (Sign, Span);

    type Item = Product;

    ghost begun = { sign };

    ghost read = { product };

    ghost joined = { added_of };

    fn begun(cursor: &mut Cursor<'_>) -> Option<(Sign, Span)> {
        sign(cursor)
    }

    fn read(alloc: Global, cursor: &mut Cursor<'_>) -> Result<Product, SyntaxError> {
        product(alloc, cursor)
    }

    fn joined((sign, mark): (Sign, Span), product: Product) -> Added {
        Added {
            sign,
            mark,
            product,
        }
    }
}

#[tactic(auto, unfolding(crate::specs::Terms::added))]
fn added(alloc: Global, cursor: &mut Cursor<'_>) -> Result<Items<Added>, SyntaxError>
    ensures { Reads (spec.added cursor.old) result cursor.new }
{
    many(alloc, cursor)
}

/// A term whose first product is read.
#[tactic(auto, unfolding(crate::specs::Terms::term_after))]
pub fn term_after(
    alloc: Global,
    cursor: &mut Cursor<'_>,
    minus: Option<Span>,
    first: Product,
) -> Result<Term, SyntaxError>
    ensures { Reads (spec.term_after minus first cursor.old) result cursor.new }
{
    let others = added(alloc, cursor)?;
    Ok(Term {
        minus,
        first,
        others,
    })
}

#[tactic(auto, unfolding(crate::specs::Terms::term))]
pub fn term(alloc: Global, cursor: &mut Cursor<'_>) -> Result<Term, SyntaxError>
    ensures { Reads (spec.term cursor.old) result cursor.new }
{
    let minus = cursor.eat(TokenKind::Minus);
    let first = product(alloc, cursor)?;
    term_after(alloc, cursor, minus, first)
}

/// A term in memory of its own, so that what holds it stays small.
pub fn boxed_term(alloc: Global, cursor: &mut Cursor<'_>) -> Result<Boxed<Term>, SyntaxError>
    ensures { Reads (spec.term cursor.old) result cursor.new }
{
    let term = term(alloc, cursor)?;
    Ok(Boxed::new(alloc, term)?)
}

/// The relation that a token stands for.
pub fn relation_of(kind: Option<TokenKind>) -> Option<Relation>
    ensures { result ≡ spec.relation_of kind }
{
    match kind {
        Some(TokenKind::LessEqual) => Some(Relation::LessEqual),
        Some(TokenKind::Less) => Some(Relation::Less),
        Some(TokenKind::GreaterEqual) => Some(Relation::GreaterEqual),
        Some(TokenKind::Greater) => Some(Relation::Greater),
        Some(TokenKind::Equal) => Some(Relation::Equal),
        Some(TokenKind::NotEqual) => Some(Relation::NotEqual),
        _ => None,
    }
}

//! Conditions.

ghost use Rattle.std.specs.Prelude.{◌≡◌, ◌<◌, OnOk};
ghost use Rattle.lucy_syntax.specs.Input.{Reads};
ghost use Rattle.lucy_syntax.specs.Input as input;
ghost use Rattle.lucy_syntax.specs.Conditions as spec;
ghost use Rattle.lucy_tree.specs.Spelling as tree;

use crate::cursor::Cursor;
use crate::error::{SyntaxError, refused};
use crate::terms::{boxed_path, boxed_term, path, product_after, relation_of, term_after};
use lucy_lexer::TokenKind;
use lucy_tree::{Cond, Conj, Disj, Factor, Path, Relation, Span, Term, Then, Unary};
use sqlite_items::{Boxed, Items};
use std::alloc::Global;

/// The sign of a relation.
fn relation_kind(relation: Relation) -> TokenKind
    ensures { result ≡ tree.relation_kind relation }
{
    match relation {
        Relation::LessEqual => TokenKind::LessEqual,
        Relation::Less => TokenKind::Less,
        Relation::GreaterEqual => TokenKind::GreaterEqual,
        Relation::Greater => TokenKind::Greater,
        Relation::Equal => TokenKind::Equal,
        Relation::NotEqual => TokenKind::NotEqual,
    }
}

/// A comparison whose left term is read.
#[tactic(auto, unfolding(crate::specs::Conditions::compared))]
fn compared(alloc: Global, cursor: &mut Cursor<'_>, left: Boxed<Term>) -> Result<Unary, SyntaxError>
    ensures { Reads (spec.compared left cursor.old) result cursor.new }
{
    match relation_of(cursor.peek()) {
        None => refused(left, cursor.refuse()),
        Some(relation) => match cursor.expect(relation_kind(relation)) {
            Err(error) => refused(left, error),
            Ok(mark) => boxed_term(alloc, cursor).map(|right| Unary::Compare {
                left,
                relation,
                mark,
                right,
            }),
        },
    }
}

#[tactic(auto, unfolding(crate::specs::Conditions::comparison))]
fn comparison(alloc: Global, cursor: &mut Cursor<'_>) -> Result<Unary, SyntaxError>
    ensures { Reads (spec.comparison cursor.old) result cursor.new }
{
    let left = boxed_term(alloc, cursor)?;
    compared(alloc, cursor, left)
}

/// A comparison whose first path is read.
#[tactic(auto, unfolding(crate::specs::Conditions::compared_path))]
fn compared_path(alloc: Global, cursor: &mut Cursor<'_>, path: Path) -> Result<Unary, SyntaxError>
    ensures { Reads (spec.compared_path path cursor.old) result cursor.new }
{
    let first = product_after(alloc, cursor, Factor::Path(path))?;
    let left = term_after(alloc, cursor, None, first)?;
    compared(alloc, cursor, Boxed::new(alloc, left)?)
}

/// A membership whose path is read; a path of more names is a flag.
#[tactic(auto, unfolding(crate::specs::Conditions::member))]
fn member(alloc: Global, cursor: &mut Cursor<'_>, named: Path) -> Result<Unary, SyntaxError>
    ensures { Reads (spec.member named cursor.old) result cursor.new }
{
    if !named.others.is_empty() {
        return Ok(Unary::Flag(named));
    }
    let word = cursor.expect(TokenKind::In)?;
    let set = boxed_path(alloc, cursor)?;
    let Path {
        first: atom,
        others: _,
    } = named;
    Ok(Unary::Member { atom, word, set })
}

/// What the token after a path decides for.
#[tactic(auto, unfolding(crate::specs::Conditions::after_path))]
fn after_path(alloc: Global, cursor: &mut Cursor<'_>, path: Path) -> Result<Unary, SyntaxError>
    ensures { Reads (spec.after_path path cursor.old) result cursor.new }
{
    match cursor.peek() {
        Some(TokenKind::In) => member(alloc, cursor, path),
        Some(
            TokenKind::Plus
            | TokenKind::Minus
            | TokenKind::Star
            | TokenKind::LessEqual
            | TokenKind::Less
            | TokenKind::GreaterEqual
            | TokenKind::Greater
            | TokenKind::Equal
            | TokenKind::NotEqual,
        ) => compared_path(alloc, cursor, path),
        _ => Ok(Unary::Flag(path)),
    }
}

#[tactic(auto, unfolding(crate::specs::Conditions::from_path))]
fn from_path(alloc: Global, cursor: &mut Cursor<'_>) -> Result<Unary, SyntaxError>
    ensures { Reads (spec.from_path cursor.old) result cursor.new }
{
    let path = path(alloc, cursor)?;
    after_path(alloc, cursor, path)
}

/// Reads a token that opens a nesting of conditions, where `depth` more may be opened.
fn opened(cursor: &mut Cursor<'_>, depth: u32, kind: TokenKind) -> Result<Span, SyntaxError>
    ensures span { Reads (input.opened depth kind cursor.old) result cursor.new }
    ensures inside { OnOk result (spec.Inside depth) }
{
    let span = cursor.opened(depth, kind)?;
    Ok(span)
}

#[cycle(conditions)]
#[tactic(auto, unfolding(crate::specs::Conditions::negated))]
fn negated(alloc: Global, cursor: &mut Cursor<'_>, depth: u32) -> Result<Unary, SyntaxError>
    ensures { Reads (spec.negated depth (spec.inner_cond depth) (spec.inner_unary depth) cursor.old) result cursor.new }
{
    let word = opened(cursor, depth, TokenKind::Not)?;
    let inner = unary(alloc, cursor, depth - 1)?;
    Ok(Unary::Not {
        word,
        inner: Boxed::new(alloc, inner)?,
    })
}

#[cycle(conditions)]
#[tactic(auto, unfolding(crate::specs::Conditions::in_parens))]
fn in_parens(alloc: Global, cursor: &mut Cursor<'_>, depth: u32) -> Result<Unary, SyntaxError>
    ensures { Reads (spec.in_parens depth (spec.inner_cond depth) (spec.inner_unary depth) cursor.old) result cursor.new }
{
    let open_paren = opened(cursor, depth, TokenKind::OpenParen)?;
    let inner = Boxed::new(alloc, cond(alloc, cursor, depth - 1)?)?;
    let close_paren = cursor.expect(TokenKind::CloseParen)?;
    Ok(Unary::Parens {
        open_paren,
        inner,
        close_paren,
    })
}

#[cycle(conditions)]
#[tactic(auto, unfolding(crate::specs::Conditions::unary_in))]
fn unary(alloc: Global, cursor: &mut Cursor<'_>, depth: u32) -> Result<Unary, SyntaxError>
    ensures { Reads (spec.unary depth cursor.old) result cursor.new }
{
    match cursor.peek() {
        Some(TokenKind::Not) => negated(alloc, cursor, depth),
        Some(TokenKind::True) => {
            let word = cursor.expect(TokenKind::True)?;
            Ok(Unary::True(word))
        }
        Some(TokenKind::False) => {
            let word = cursor.expect(TokenKind::False)?;
            Ok(Unary::False(word))
        }
        Some(TokenKind::OpenParen) => in_parens(alloc, cursor, depth),
        Some(TokenKind::Name) => from_path(alloc, cursor),
        Some(TokenKind::Number(_) | TokenKind::Minus | TokenKind::Size) => {
            comparison(alloc, cursor)
        }
        _ => Err(cursor.refuse()),
    }
}

#[cycle(conditions)]
fn ands(
    alloc: Global,
    cursor: &mut Cursor<'_>,
    depth: u32,
) -> Result<Items<Then<Unary>>, SyntaxError>
    ensures { Reads (spec.ands depth (spec.inner_cond depth) (spec.inner_unary depth) cursor.old) result cursor.new }
{
    let mut found = Items::new(alloc);
    for _turn in 0..cursor.left() {
        match cursor.eat(TokenKind::And) {
            None => return Ok(found),
            Some(mark) => {
                let item = unary(alloc, cursor, depth)?;
                found.push(Then { mark, item })?;
            }
        }
    }
    Ok(found)
}

#[cycle(conditions)]
#[tactic(auto, unfolding(crate::specs::Conditions::conj_in))]
fn conj(alloc: Global, cursor: &mut Cursor<'_>, depth: u32) -> Result<Conj, SyntaxError>
    ensures { Reads (spec.conj_in depth (spec.inner_cond depth) (spec.inner_unary depth) cursor.old) result cursor.new }
{
    let first = unary(alloc, cursor, depth)?;
    ands(alloc, cursor, depth).map(|others| Conj { first, others })
}

#[cycle(conditions)]
fn ors(alloc: Global, cursor: &mut Cursor<'_>, depth: u32) -> Result<Items<Then<Conj>>, SyntaxError>
    ensures { Reads (spec.ors depth (spec.inner_cond depth) (spec.inner_unary depth) cursor.old) result cursor.new }
{
    let mut found = Items::new(alloc);
    for _turn in 0..cursor.left() {
        match cursor.eat(TokenKind::Or) {
            None => return Ok(found),
            Some(mark) => {
                let item = conj(alloc, cursor, depth)?;
                found.push(Then { mark, item })?;
            }
        }
    }
    Ok(found)
}

#[cycle(conditions)]
#[tactic(auto, unfolding(crate::specs::Conditions::disj_in))]
fn disj(alloc: Global, cursor: &mut Cursor<'_>, depth: u32) -> Result<Disj, SyntaxError>
    ensures { Reads (spec.disj_in depth (spec.inner_cond depth) (spec.inner_unary depth) cursor.old) result cursor.new }
{
    let first = conj(alloc, cursor, depth)?;
    ors(alloc, cursor, depth).map(|others| Disj { first, others })
}

#[cycle(conditions)]
#[tactic(auto, unfolding(crate::specs::Conditions::implied))]
fn implied(
    alloc: Global,
    cursor: &mut Cursor<'_>,
    depth: u32,
) -> Result<Option<Then<Boxed<Cond>>>, SyntaxError>
    ensures { Reads (spec.implied depth (spec.inner_cond depth) (spec.inner_unary depth) cursor.old) result cursor.new }
{
    let mark = opened(cursor, depth, TokenKind::Arrow)?;
    let right = cond(alloc, cursor, depth - 1)?;
    Ok(Some(Then {
        mark,
        item: Boxed::new(alloc, right)?,
    }))
}

/// A condition in which `depth` more `(`, `not` and `=>` may be open.
#[cycle(conditions)]
#[tactic(auto, unfolding(crate::specs::Conditions::cond_in))]
pub fn cond(alloc: Global, cursor: &mut Cursor<'_>, depth: u32) -> Result<Cond, SyntaxError>
    ensures { Reads (spec.cond depth cursor.old) result cursor.new }
{
    let left = disj(alloc, cursor, depth)?;
    match cursor.peek() {
        Some(TokenKind::Arrow) => {
            implied(alloc, cursor, depth).map(|implied| Cond { left, implied })
        }
        _ => Ok(Cond {
            left,
            implied: None,
        }),
    }
}

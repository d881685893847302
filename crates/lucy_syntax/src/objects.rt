//! The object and its start.

ghost use Rattle.std.specs.Prelude.{◌≡◌, OnOk};
ghost use Rattle.lucy_syntax.specs.Input as input;
ghost use Rattle.lucy_syntax.specs.Input.{Reads};
ghost use Rattle.lucy_syntax.specs.Objects as spec;
ghost use Rattle.lucy_tree.specs.Spelling as tree;

use crate::cursor::Cursor;
use crate::error::SyntaxError;
use crate::listed::{Listed, many};
use crate::terms::{bounds, int, names, path};
use lucy_lexer::TokenKind;
use lucy_tree::{Extreme, Field, FlagKind, Object, Setting, Span, Start, Value};
use sqlite_items::Items;
use std::alloc::Global;

/// How many `(`, `not`, `=>` and `pair` may be open at once.
pub const DEEPEST: u32 = 64;

/// The words that a field begins with.
const FIELD_WORDS: [TokenKind; 6] = [
    TokenKind::Max,
    TokenKind::Min,
    TokenKind::OrFlag,
    TokenKind::AndFlag,
    TokenKind::Set,
    TokenKind::Pair,
];

fn extreme_kind(extreme: Extreme) -> TokenKind
    ensures { result ≡ tree.extreme_kind extreme }
{
    match extreme {
        Extreme::Max => TokenKind::Max,
        Extreme::Min => TokenKind::Min,
    }
}

fn flag_kind(kind: FlagKind) -> TokenKind
    ensures { result ≡ tree.flag_kind kind }
{
    match kind {
        FlagKind::Or => TokenKind::OrFlag,
        FlagKind::And => TokenKind::AndFlag,
    }
}

#[tactic(auto, unfolding(crate::specs::Objects::number_field))]
fn number_field(
    alloc: Global,
    cursor: &mut Cursor<'_>,
    extreme: Extreme,
) -> Result<Field, SyntaxError>
    ensures { Reads (spec.number_field extreme cursor.old) result cursor.new }
{
    let word = cursor.expect(extreme_kind(extreme))?;
    let name = cursor.name(alloc)?;
    let bounds = bounds(cursor)?;
    cursor
        .expect(TokenKind::Semicolon)
        .map(|semicolon| Field::Number {
            extreme,
            word,
            name,
            bounds,
            semicolon,
        })
}

#[tactic(auto, unfolding(crate::specs::Objects::flag_field))]
fn flag_field(alloc: Global, cursor: &mut Cursor<'_>, kind: FlagKind) -> Result<Field, SyntaxError>
    ensures { Reads (spec.flag_field kind cursor.old) result cursor.new }
{
    let word = cursor.expect(flag_kind(kind))?;
    let name = cursor.name(alloc)?;
    cursor
        .expect(TokenKind::Semicolon)
        .map(|semicolon| Field::Flag {
            kind,
            word,
            name,
            semicolon,
        })
}

#[tactic(auto, unfolding(crate::specs::Objects::set_field))]
fn set_field(alloc: Global, cursor: &mut Cursor<'_>) -> Result<Field, SyntaxError>
    ensures { Reads (spec.set_field cursor.old) result cursor.new }
{
    let word = cursor.expect(TokenKind::Set)?;
    let name = cursor.name(alloc)?;
    let open_brace = cursor.expect(TokenKind::OpenBrace)?;
    let atoms = names(alloc, cursor)?;
    let close_brace = cursor.expect(TokenKind::CloseBrace)?;
    cursor
        .expect(TokenKind::Semicolon)
        .map(|semicolon| Field::Set {
            word,
            name,
            open_brace,
            atoms,
            close_brace,
            semicolon,
        })
}

/// Reads a `pair`, where `depth` more may be opened.
fn opened_pair(cursor: &mut Cursor<'_>, depth: u32) -> Result<Span, SyntaxError>
    ensures span { Reads (input.opened depth TokenKind.Pair cursor.old) result cursor.new }
    ensures inside { OnOk result (spec.InPair depth) }
{
    let span = cursor.opened(depth, TokenKind::Pair)?;
    Ok(span)
}

#[cycle(fields)]
#[tactic(auto, unfolding(crate::specs::Objects::pair_field))]
fn pair_field(alloc: Global, cursor: &mut Cursor<'_>, depth: u32) -> Result<Field, SyntaxError>
    ensures { Reads (spec.pair_field depth (spec.inner_fields depth) cursor.old) result cursor.new }
{
    let word = opened_pair(cursor, depth)?;
    let name = cursor.name(alloc)?;
    let open_brace = cursor.expect(TokenKind::OpenBrace)?;
    let fields = fields(alloc, cursor, depth - 1)?;
    let close_brace = cursor.expect(TokenKind::CloseBrace)?;
    Ok(Field::Pair {
        word,
        name,
        open_brace,
        fields,
        close_brace,
    })
}

#[cycle(fields)]
#[tactic(auto, unfolding(crate::specs::Objects::field_in))]
fn field(alloc: Global, cursor: &mut Cursor<'_>, depth: u32) -> Result<Field, SyntaxError>
    ensures { Reads (spec.field depth cursor.old) result cursor.new }
{
    match cursor.peek() {
        Some(TokenKind::Max) => number_field(alloc, cursor, Extreme::Max),
        Some(TokenKind::Min) => number_field(alloc, cursor, Extreme::Min),
        Some(TokenKind::OrFlag) => flag_field(alloc, cursor, FlagKind::Or),
        Some(TokenKind::AndFlag) => flag_field(alloc, cursor, FlagKind::And),
        Some(TokenKind::Set) => set_field(alloc, cursor),
        Some(TokenKind::Pair) => pair_field(alloc, cursor, depth),
        _ => Err(cursor.refuse()),
    }
}

/// Fields among which `depth` more pairs may be open.
#[cycle(fields)]
fn fields(alloc: Global, cursor: &mut Cursor<'_>, depth: u32) -> Result<Items<Field>, SyntaxError>
    ensures { Reads (spec.fields depth cursor.old) result cursor.new }
{
    let mut found = Items::new(alloc);
    for _turn in 0..cursor.left() {
        match cursor.ahead(&FIELD_WORDS) {
            None => return Ok(found),
            Some(_) => {
                let item = field(alloc, cursor, depth)?;
                found.push(item)?;
            }
        }
    }
    Ok(found)
}

#[tactic(auto, unfolding(crate::specs::Objects::object))]
pub fn object(alloc: Global, cursor: &mut Cursor<'_>) -> Result<Object, SyntaxError>
    ensures { Reads (spec.object cursor.old) result cursor.new }
{
    let word = cursor.expect(TokenKind::Object)?;
    let open_brace = cursor.expect(TokenKind::OpenBrace)?;
    let fields = fields(alloc, cursor, DEEPEST)?;
    cursor
        .expect(TokenKind::CloseBrace)
        .map(|close_brace| Object {
            word,
            open_brace,
            fields,
            close_brace,
        })
}

#[tactic(auto, unfolding(crate::specs::Objects::members))]
fn members(alloc: Global, cursor: &mut Cursor<'_>) -> Result<Value, SyntaxError>
    ensures { Reads (spec.members cursor.old) result cursor.new }
{
    let open_brace = cursor.expect(TokenKind::OpenBrace)?;
    let atoms = names(alloc, cursor)?;
    cursor
        .expect(TokenKind::CloseBrace)
        .map(|close_brace| Value::Set {
            open_brace,
            atoms,
            close_brace,
        })
}

#[tactic(auto, unfolding(crate::specs::Objects::value))]
fn value(alloc: Global, cursor: &mut Cursor<'_>) -> Result<Value, SyntaxError>
    ensures { Reads (spec.value cursor.old) result cursor.new }
{
    match cursor.peek() {
        Some(TokenKind::Number(_) | TokenKind::Minus) => {
            let int = int(cursor)?;
            Ok(Value::Int(int))
        }
        Some(TokenKind::On) => {
            let word = cursor.expect(TokenKind::On)?;
            Ok(Value::On(word))
        }
        Some(TokenKind::Off) => {
            let word = cursor.expect(TokenKind::Off)?;
            Ok(Value::Off(word))
        }
        Some(TokenKind::OpenBrace) => members(alloc, cursor),
        _ => Err(cursor.refuse()),
    }
}

#[tactic(auto, unfolding(crate::specs::Objects::setting))]
fn setting(alloc: Global, cursor: &mut Cursor<'_>) -> Result<Setting, SyntaxError>
    ensures { Reads (spec.setting cursor.old) result cursor.new }
{
    let path = path(alloc, cursor)?;
    let equal = cursor.expect(TokenKind::Equal)?;
    let value = value(alloc, cursor)?;
    cursor
        .expect(TokenKind::Semicolon)
        .map(|semicolon| Setting {
            path,
            equal,
            value,
            semicolon,
        })
}

impl Listed for Setting {
    ghost use Rattle.std.specs.Prelude.{[], ◌∷◌};
    ghost use Rattle.lucy_lexer.specs.declared.token.TokenKind.TheVariants as k;
    ghost use Rattle.lucy_syntax.specs.Input.{ahead};
    ghost use Rattle.lucy_syntax.specs.Lists.{alone};
    ghost use Rattle.lucy_syntax.specs.Objects.{setting};

    type Mark = Span;

    type Item = Setting;

    ghost begun = { ahead (k.Name ∷ []) };

    ghost read = { setting };

    ghost joined = { alone };

    fn begun(cursor: &mut Cursor<'_>) -> Option<Span> {
        cursor.ahead(&[TokenKind::Name])
    }

    fn read(alloc: Global, cursor: &mut Cursor<'_>) -> Result<Setting, SyntaxError> {
        setting(alloc, cursor)
    }

    fn joined(_: Span, item: Setting) -> Setting {
        item
    }
}

#[tactic(auto, unfolding(crate::specs::Objects::settings))]
fn settings(alloc: Global, cursor: &mut Cursor<'_>) -> Result<Items<Setting>, SyntaxError>
    ensures { Reads (spec.settings cursor.old) result cursor.new }
{
    many(alloc, cursor)
}

#[tactic(auto, unfolding(crate::specs::Objects::start))]
pub fn start(alloc: Global, cursor: &mut Cursor<'_>) -> Result<Start, SyntaxError>
    ensures { Reads (spec.start cursor.old) result cursor.new }
{
    let word = cursor.expect(TokenKind::Start)?;
    let open_brace = cursor.expect(TokenKind::OpenBrace)?;
    let settings = settings(alloc, cursor)?;
    cursor
        .expect(TokenKind::CloseBrace)
        .map(|close_brace| Start {
            word,
            open_brace,
            settings,
            close_brace,
        })
}

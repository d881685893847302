//! The text of single tokens, and of what many rules share.

ghost use Rattle.std.specs.Prelude.{◌≡◌, ◌++◌, ◌∷◌, [], OnOk};
ghost use Rattle.std.specs.Fmt.{decimal};
ghost use Rattle.lucy_lexer.specs.Laws.{separator_byte};
ghost use Rattle.lucy_lexer.specs.Kind.{written as written_of};
ghost use Rattle.lucy_tree.specs.Words.{each, then_words};
ghost use Rattle.lucy_tree.specs.Spelling as words;
ghost use Rattle.lucy_lexer.specs.declared.token.TokenKind.TheVariants as k;
ghost use Rattle.lucy_print.specs.Layout.{laid, separator};

use crate::listed::{Listed, put_each};
use lucy_lexer::{TokenKind, written};
use lucy_tree::{Bounds, Int, Name, Number, Path, Then};
use std::alloc::AllocError;

/// The byte after a token that is no name.
fn separator(kind: TokenKind) -> u8
    ensures { result ≡ separator_byte (separator kind) }
{
    match kind {
        TokenKind::Semicolon | TokenKind::OpenBrace | TokenKind::CloseBrace | TokenKind::End => {
            b'\n'
        }
        _ => b' ',
    }
}

/// Appends a sign or a reserved word, and the byte after it.
pub fn put(out: &mut Vec<u8>, kind: TokenKind) -> Result<(), AllocError>
    ensures { OnOk result (out.new.items ≡ out.old.items ++ (written_of kind ++ separator_byte (separator kind) ∷ [])) }
{
    out.extend_from_slice(written(kind))?;
    out.push(separator(kind))?;
    Ok(())
}

/// Appends the digits of a number, and a byte after them.
pub fn put_digits(out: &mut Vec<u8>, value: u64, after: u8) -> Result<(), AllocError>
    ensures { OnOk result (out.new.items ≡ out.old.items ++ (decimal value ++ after ∷ [])) }
{
    let digits = value.to_string(*out.allocator())?;
    out.extend_from_slice(digits.as_bytes())?;
    out.push(after)?;
    Ok(())
}

pub fn put_name(out: &mut Vec<u8>, name: &Name) -> Result<(), AllocError>
    ensures { OnOk result (out.new.items ≡ out.old.items ++ laid (words.name_words name.now)) }
{
    out.extend_from_slice(name.text.as_slice())?;
    out.push(b' ')?;
    Ok(())
}

impl Listed for Name {
    ghost use Rattle.lucy_tree.specs.Spelling.{name_words};

    ghost words = { name_words };

    fn put(&self, out: &mut Vec<u8>) -> Result<(), AllocError> {
        put_name(out, self)
    }
}

/// Appends names with nothing between them.
#[tactic(auto, using(crate::proofs::Laying::texts_are))]
pub fn put_names(out: &mut Vec<u8>, names: &[Name]) -> Result<(), AllocError>
    ensures { OnOk result (out.new.items ≡ out.old.items ++ laid (each words.name_words names.now)) }
{
    put_each(out, names)
}

impl Listed for Then<Name> {
    ghost use Rattle.lucy_lexer.specs.declared.token.TokenKind.TheVariants as k;
    ghost use Rattle.lucy_tree.specs.Words.{then_words};
    ghost use Rattle.lucy_tree.specs.Spelling.{name_words};

    ghost words = { then_words k.Dot name_words };

    fn put(&self, out: &mut Vec<u8>) -> Result<(), AllocError> {
        put(out, TokenKind::Dot)?;
        put_name(out, &self.item)
    }
}

#[tactic(auto, using(crate::proofs::Laying::texts_are))]
fn put_steps(out: &mut Vec<u8>, steps: &[Then<Name>]) -> Result<(), AllocError>
    ensures { OnOk result (out.new.items ≡ out.old.items ++ laid (each (then_words k.Dot words.name_words) steps.now)) }
{
    put_each(out, steps)
}

pub fn put_path(out: &mut Vec<u8>, path: &Path) -> Result<(), AllocError>
    ensures { OnOk result (out.new.items ≡ out.old.items ++ laid (words.path_words path.now)) }
{
    put_name(out, &path.first)?;
    put_steps(out, path.others.as_slice())
}

pub fn put_number(out: &mut Vec<u8>, number: Number) -> Result<(), AllocError>
    ensures { OnOk result (out.new.items ≡ out.old.items ++ laid (words.number_words number)) }
{
    put_digits(out, number.value, b' ')
}

pub fn put_int(out: &mut Vec<u8>, int: Int) -> Result<(), AllocError>
    ensures { OnOk result (out.new.items ≡ out.old.items ++ laid (words.int_words int)) }
{
    if int.minus.is_some() {
        put(out, TokenKind::Minus)?;
    }
    put_number(out, int.number)
}

pub fn put_bounds(out: &mut Vec<u8>, bounds: Bounds) -> Result<(), AllocError>
    ensures { OnOk result (out.new.items ≡ out.old.items ++ laid (words.bounds_words bounds)) }
{
    put(out, TokenKind::In)?;
    put_int(out, bounds.low)?;
    put(out, TokenKind::DotDot)?;
    put_int(out, bounds.high)
}

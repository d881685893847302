//! The text of the object and of its start.

ghost use Rattle.std.specs.Prelude.{◌≡◌, ◌++◌, OnOk, codes};
ghost use Rattle.lucy_tree.specs.Words.{each};
ghost use Rattle.lucy_tree.specs.Spelling as words;
ghost use Rattle.lucy_print.specs.Layout.{laid, texts, written_kind, text_of};

use crate::listed::{Listed, put_each};
use crate::marks::{put, put_bounds, put_int, put_name, put_names, put_path};
use lucy_lexer::TokenKind;
use lucy_tree::{Extreme, Field, FlagKind, Name, Object, Setting, Start, Value};
use std::alloc::AllocError;

fn put_extreme(out: &mut Vec<u8>, extreme: Extreme) -> Result<(), AllocError>
    ensures { OnOk result (out.new.items ≡ out.old.items ++ text_of (written_kind (words.extreme_kind extreme))) }
{
    match extreme {
        Extreme::Max => put(out, TokenKind::Max),
        Extreme::Min => put(out, TokenKind::Min),
    }
}

fn put_flag_kind(out: &mut Vec<u8>, kind: FlagKind) -> Result<(), AllocError>
    ensures { OnOk result (out.new.items ≡ out.old.items ++ text_of (written_kind (words.flag_kind kind))) }
{
    match kind {
        FlagKind::Or => put(out, TokenKind::OrFlag),
        FlagKind::And => put(out, TokenKind::AndFlag),
    }
}

/// Appends a set's name, and its atoms in braces.
fn put_set(out: &mut Vec<u8>, name: &Name, atoms: &[Name]) -> Result<(), AllocError>
    ensures { OnOk result (out.new.items ≡ out.old.items ++ (codes "set " ++ laid (words.name_words name.now) ++ codes "{\n" ++ laid (each words.name_words atoms.now) ++ codes "}\n;\n")) }
{
    put(out, TokenKind::Set)?;
    put_name(out, name)?;
    put(out, TokenKind::OpenBrace)?;
    put_names(out, atoms)?;
    put(out, TokenKind::CloseBrace)?;
    put(out, TokenKind::Semicolon)
}

#[cycle(fields)]
fn put_field(out: &mut Vec<u8>, field: &Field) -> Result<(), AllocError>
    ensures { OnOk result (out.new.items ≡ out.old.items ++ laid (words.field_words field.now)) }
{
    match field {
        Field::Number {
            extreme,
            name,
            bounds,
            ..
        } => {
            put_extreme(out, *extreme)?;
            put_name(out, name)?;
            put_bounds(out, *bounds)?;
            put(out, TokenKind::Semicolon)
        }
        Field::Flag { kind, name, .. } => {
            put_flag_kind(out, *kind)?;
            put_name(out, name)?;
            put(out, TokenKind::Semicolon)
        }
        Field::Set { name, atoms, .. } => put_set(out, name, atoms.as_slice()),
        Field::Pair { name, fields, .. } => {
            put(out, TokenKind::Pair)?;
            put_name(out, name)?;
            put(out, TokenKind::OpenBrace)?;
            put_fields(out, fields.as_slice())?;
            put(out, TokenKind::CloseBrace)
        }
    }
}

#[cycle(fields)]
fn put_fields(out: &mut Vec<u8>, fields: &[Field]) -> Result<(), AllocError>
    ensures { OnOk result (out.new.items ≡ out.old.items ++ texts words.field_words fields.now) }
{
    for field in fields {
        put_field(out, field)?;
    }
    Ok(())
}

pub fn put_object(out: &mut Vec<u8>, object: &Object) -> Result<(), AllocError>
    ensures { OnOk result (out.new.items ≡ out.old.items ++ laid (words.object_words object.now)) }
{
    put(out, TokenKind::Object)?;
    put(out, TokenKind::OpenBrace)?;
    put_fields(out, object.fields.as_slice())?;
    put(out, TokenKind::CloseBrace)
}

fn put_value(out: &mut Vec<u8>, value: &Value) -> Result<(), AllocError>
    ensures { OnOk result (out.new.items ≡ out.old.items ++ laid (words.value_words value.now)) }
{
    match value {
        Value::Int(int) => put_int(out, *int),
        Value::On(_) => put(out, TokenKind::On),
        Value::Off(_) => put(out, TokenKind::Off),
        Value::Set { atoms, .. } => {
            put(out, TokenKind::OpenBrace)?;
            put_names(out, atoms.as_slice())?;
            put(out, TokenKind::CloseBrace)
        }
    }
}

fn put_setting(out: &mut Vec<u8>, setting: &Setting) -> Result<(), AllocError>
    ensures { OnOk result (out.new.items ≡ out.old.items ++ laid (words.setting_words setting.now)) }
{
    put_path(out, &setting.path)?;
    put(out, TokenKind::Equal)?;
    put_value(out, &setting.value)?;
    put(out, TokenKind::Semicolon)
}

impl Listed for Setting {
    ghost use Rattle.lucy_tree.specs.Spelling.{setting_words};

    ghost words = { setting_words };

    fn put(&self, out: &mut Vec<u8>) -> Result<(), AllocError> {
        put_setting(out, self)
    }
}

fn put_settings(out: &mut Vec<u8>, settings: &[Setting]) -> Result<(), AllocError>
    ensures { OnOk result (out.new.items ≡ out.old.items ++ texts words.setting_words settings.now) }
{
    put_each(out, settings)
}

pub fn put_start(out: &mut Vec<u8>, start: &Start) -> Result<(), AllocError>
    ensures { OnOk result (out.new.items ≡ out.old.items ++ laid (words.start_words start.now)) }
{
    put(out, TokenKind::Start)?;
    put(out, TokenKind::OpenBrace)?;
    put_settings(out, start.settings.as_slice())?;
    put(out, TokenKind::CloseBrace)
}

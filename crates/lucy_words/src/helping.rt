//! The help.

ghost use Rattle.std.specs.Prelude.{◌≡◌, ◌++◌, ◌∷◌, IfOk, OnOk};
ghost use Rattle.lucy_words.specs.Grammar.{places_of, rows_of};
ghost use Rattle.lucy_words.specs.Help as spec;

use crate::forms::{FORMS, Form, Slot};
use lucy_io::write_text;
use std::alloc::{AllocError, Global};

// A space and how a place is shown.
fn write_place(out: &mut Vec<u8>, text: &str) -> Result<(), AllocError>
    ensures { OnOk result (out.new.items ≡ out.old.items ++ 32 ∷ text.now) }
{
    write_text(out, " ")?;
    write_text(out, text)
}

fn write_places(out: &mut Vec<u8>, mut places: &[(&str, Slot)]) -> Result<(), AllocError>
    ensures { OnOk result (out.new.items ≡ out.old.items ++ spec.words_of (places_of places.entry.now)) }
{
    while let [place, rest @ ..] = places {
        write_place(out, place.0)?;
        places = rest;
    }
    Ok(())
}

// The line of a form.
fn write_form(out: &mut Vec<u8>, places: &[(&str, Slot)]) -> Result<(), AllocError>
    ensures { OnOk result (out.new.items ≡ out.old.items ++ spec.line_of (places_of places.now)) }
{
    write_text(out, "lucy")?;
    write_places(out, places)?;
    write_text(out, "\n")
}

fn write_forms(out: &mut Vec<u8>, mut forms: &[(Form, &[(&str, Slot)])]) -> Result<(), AllocError>
    ensures { OnOk result (out.new.items ≡ out.old.items ++ spec.lines_of (rows_of forms.entry.now)) }
{
    while let [form, rest @ ..] = forms {
        write_form(out, form.1)?;
        forms = rest;
    }
    Ok(())
}

// A line for each form of the table.
#[tactic(auto, unfolding(crate::specs::Help::help_text))]
fn write_help(out: &mut Vec<u8>) -> Result<(), AllocError>
    ensures { OnOk result (out.new.items ≡ out.old.items ++ spec.help_text) }
{
    write_forms(out, &FORMS)
}

/// The help: a line for each form, in the order of the table. It is `lucy` and the words of the form, where names and
/// numbers are shown in capitals.
pub fn help(alloc: Global) -> Result<Vec<u8>, AllocError>
    ensures { IfOk result (λ text. text.items ≡ spec.help_text) }
{
    let mut out = Vec::new(alloc);
    write_help(&mut out)?;
    Ok(out)
}

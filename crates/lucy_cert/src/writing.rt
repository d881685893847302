//! The text of a certificate.

ghost use Rattle.std.specs.Prelude.{◌≡◌, ◌++◌, ◌∷◌, [], map, MatchOption, OnOk, IfOk, codes, decimal};
ghost use Rattle.std.specs.Fmt.{signed_decimal};
ghost use Rattle.std.specs.List.{flat_map};
ghost use Rattle.lucy_cert.specs.declared.entries.Entry.TheVariants as entry;
ghost use Rattle.lucy_clauses.specs.declared.lines.Line.TheVariants as line;
ghost use Rattle.lucy_cert.specs.Cutting.{behind_spaces};
ghost use Rattle.lucy_cert.specs.Tokens.{part_text, ref_text};
ghost use Rattle.lucy_cert.specs.Texts as spec;

use crate::certificate::Certificate;
use crate::names::PartName;
use crate::steps::{Proof, ProofStep};
use lucy_clauses::{Atom, Clause, Line, Part, Ref, Times};
use lucy_io::{write_count, write_decimal, write_text};
use sqlite_items::Items;
use std::alloc::{AllocError, Global};

// ---- pieces

fn write_number(out: &mut Vec<u8>, number: i128) -> Result<(), AllocError>
    ensures { OnOk result (out.new.items ≡ out.old.items ++ signed_decimal number) }
{
    write_decimal(out, number)
}

// A space and a factor with its variable.
fn write_part(out: &mut Vec<u8>, part: Part) -> Result<(), AllocError>
    ensures { OnOk result (out.new.items ≡ out.old.items ++ (32 ∷ part_text part)) }
{
    write_text(out, " ")?;
    write_number(out, part.by)?;
    write_text(out, "*")?;
    write_count(out, u64::from(part.variable))
}

fn write_parts(out: &mut Vec<u8>, parts: &[Part]) -> Result<(), AllocError>
    ensures { OnOk result (out.new.items ≡ out.old.items ++ behind_spaces (map part_text parts.now)) }
{
    for part in parts {
        write_part(out, *part)?;
    }
    Ok(())
}

fn write_atom_parts(out: &mut Vec<u8>, atom: &Atom) -> Result<(), AllocError>
    ensures { OnOk result (out.new.items ≡ out.old.items ++ behind_spaces (map part_text atom.now.parts)) }
{
    write_parts(out, atom.parts.as_slice())
}

fn write_bound(out: &mut Vec<u8>, atom: &Atom, comma: &str) -> Result<(), AllocError>
    ensures { OnOk result (out.new.items ≡ out.old.items ++ behind_spaces (codes "<=" ∷ (signed_decimal atom.now.bound ++ comma.now) ∷ [])) }
{
    write_text(out, " <= ")?;
    write_number(out, atom.bound)?;
    write_text(out, comma)
}

fn write_atom(out: &mut Vec<u8>, atom: &Atom, comma: &str) -> Result<(), AllocError>
    ensures { OnOk result (out.new.items ≡ out.old.items ++ behind_spaces (spec.atom_pieces comma.now atom.now)) }
{
    write_atom_parts(out, atom)?;
    write_bound(out, atom, comma)
}

fn comma_before(atoms: &[Atom]) -> &'static str
    ensures { result.now ≡ spec.comma_before atoms.now }
{
    match atoms {
        [] => "",
        [_, ..] => ",",
    }
}

// The first atom, and those behind it.
fn first_atom(atoms: &[Atom]) -> Option<(&Atom, &[Atom])>
    ensures { MatchOption result (atoms.now ≡ []) (λ p. atoms.now ≡ p.0.now ∷ p.1.now) }
{
    match atoms {
        [] => None,
        [atom, more @ ..] => Some((atom, more)),
    }
}

fn write_atoms(out: &mut Vec<u8>, atoms: &[Atom]) -> Result<(), AllocError>
    ensures { OnOk result (out.new.items ≡ out.old.items ++ behind_spaces (spec.clause_pieces atoms.now)) }
{
    let mut rest = atoms;
    while let Some((atom, more)) = first_atom(rest) {
        write_atom(out, atom, comma_before(more))?;
        rest = more;
    }
    Ok(())
}

// A space and a reference.
fn write_ref(out: &mut Vec<u8>, of: Ref) -> Result<(), AllocError>
    ensures { OnOk result (out.new.items ≡ out.old.items ++ (32 ∷ ref_text of)) }
{
    let (word, number) = match of {
        Ref::Negated(number) => (" n", number),
        Ref::Low(number) => (" l", number),
        Ref::High(number) => (" h", number),
        Ref::Derived(number) => (" d", number),
    };
    write_text(out, word)?;
    write_count(out, u64::from(number))
}

// A space and a multiplier or divisor, and what it goes with.
fn write_times(out: &mut Vec<u8>, times: Times) -> Result<(), AllocError>
    ensures { OnOk result (out.new.items ≡ out.old.items ++ behind_spaces (signed_decimal times.by ∷ ref_text times.of ∷ [])) }
{
    write_text(out, " ")?;
    write_number(out, times.by)?;
    write_ref(out, times.of)
}

fn write_sum(out: &mut Vec<u8>, terms: &[Times]) -> Result<(), AllocError>
    ensures { OnOk result (out.new.items ≡ out.old.items ++ behind_spaces (spec.sum_pieces terms.now)) }
{
    for times in terms {
        write_times(out, *times)?;
    }
    Ok(())
}

// A space and a number.
fn write_behind_space(out: &mut Vec<u8>, count: u64) -> Result<(), AllocError>
    ensures { OnOk result (out.new.items ≡ out.old.items ++ (32 ∷ decimal count)) }
{
    write_text(out, " ")?;
    write_count(out, count)
}

fn write_counts(out: &mut Vec<u8>, counts: &[u64]) -> Result<(), AllocError>
    ensures { OnOk result (out.new.items ≡ out.old.items ++ behind_spaces (map decimal counts.now)) }
{
    for count in counts {
        write_behind_space(out, *count)?;
    }
    Ok(())
}

// ---- lines

fn write_line(out: &mut Vec<u8>, line: &Line) -> Result<(), AllocError>
    ensures { OnOk result (out.new.items ≡ out.old.items ++ (spec.entry_text (entry.Derivation line.now) ++ 10 ∷ [])) }
{
    match line {
        Line::Sum(terms) => {
            write_text(out, "+")?;
            write_sum(out, terms.as_slice())?;
        }
        Line::Divide { by, of } => {
            write_text(out, "/")?;
            write_times(out, Times { by: *by, of: *of })?;
        }
    }
    write_text(out, "\n")
}

fn write_lines(out: &mut Vec<u8>, lines: &[Line]) -> Result<(), AllocError>
    ensures { OnOk result (out.new.items ≡ out.old.items ++ spec.lines_text (map entry.Derivation lines.now)) }
{
    for line in lines {
        write_line(out, line)?;
    }
    Ok(())
}

// A word, and the atoms of a clause.
fn write_clause(out: &mut Vec<u8>, word: &str, clause: &Clause) -> Result<(), AllocError>
    ensures { OnOk result (out.new.items ≡ out.old.items ++ (word.now ++ behind_spaces (spec.clause_pieces clause.now.atoms))) }
{
    write_text(out, word)?;
    write_atoms(out, clause.atoms.as_slice())
}

fn write_lemma(out: &mut Vec<u8>, clause: &Clause, lines: &[Line]) -> Result<(), AllocError>
    ensures { OnOk result (out.new.items ≡ out.old.items ++ spec.lines_text (spec.lemma_entries clause.now lines.now)) }
{
    write_clause(out, "lemma", clause)?;
    write_text(out, "\n")?;
    write_lines(out, lines)?;
    write_text(out, "qed\n")
}

fn write_rup(out: &mut Vec<u8>, clause: &Clause, hints: &[u64]) -> Result<(), AllocError>
    ensures { OnOk result (out.new.items ≡ out.old.items ++ (spec.entry_text (entry.Rup clause.now hints.now) ++ 10 ∷ [])) }
{
    write_clause(out, "rup", clause)?;
    write_text(out, " by")?;
    write_counts(out, hints)?;
    write_text(out, "\n")
}

fn write_drop(out: &mut Vec<u8>, numbers: &[u64]) -> Result<(), AllocError>
    ensures { OnOk result (out.new.items ≡ out.old.items ++ (spec.entry_text (entry.Drop numbers.now) ++ 10 ∷ [])) }
{
    write_text(out, "drop")?;
    write_counts(out, numbers)?;
    write_text(out, "\n")
}

fn write_step(out: &mut Vec<u8>, step: &ProofStep) -> Result<(), AllocError>
    ensures { OnOk result (out.new.items ≡ out.old.items ++ spec.lines_text (spec.step_entries step.now)) }
{
    match step {
        ProofStep::Lemma { clause, lines } => write_lemma(out, clause, lines.as_slice()),
        ProofStep::Rup { clause, hints } => write_rup(out, clause, hints.as_slice()),
        ProofStep::Drop { clauses } => write_drop(out, clauses.as_slice()),
    }
}

fn write_steps(out: &mut Vec<u8>, steps: &[ProofStep]) -> Result<(), AllocError>
    ensures { OnOk result (out.new.items ≡ out.old.items ++ spec.lines_text (flat_map spec.step_entries steps.now)) }
{
    for step in steps {
        write_step(out, step)?;
    }
    Ok(())
}

fn write_name(out: &mut Vec<u8>, name: PartName) -> Result<(), AllocError>
    ensures { OnOk result (out.new.items ≡ out.old.items ++ (spec.entry_text (entry.Part name) ++ 10 ∷ [])) }
{
    match name {
        PartName::Closure(segment) => {
            write_text(out, "part closure ")?;
            write_count(out, u64::from(segment))?;
        }
        PartName::Cover => write_text(out, "part cover")?,
    }
    write_text(out, "\n")
}

fn write_cert_part(out: &mut Vec<u8>, part: &(PartName, Proof)) -> Result<(), AllocError>
    ensures { OnOk result (out.new.items ≡ out.old.items ++ spec.lines_text (spec.part_entries part.now)) }
{
    write_name(out, part.0)?;
    write_steps(out, part.1.steps.as_slice())
}

fn write_cert_parts(out: &mut Vec<u8>, parts: &[(PartName, Proof)]) -> Result<(), AllocError>
    ensures { OnOk result (out.new.items ≡ out.old.items ++ spec.lines_text (flat_map spec.part_entries parts.now)) }
{
    for part in parts {
        write_cert_part(out, part)?;
    }
    Ok(())
}

fn write_second(out: &mut Vec<u8>, live: u64) -> Result<(), AllocError>
    ensures { OnOk result (out.new.items ≡ out.old.items ++ (codes "lucy certificate 2 live " ++ decimal live ++ 10 ∷ [])) }
{
    write_text(out, "lucy certificate 2 live ")?;
    write_count(out, live)?;
    write_text(out, "\n")
}

fn write_header(out: &mut Vec<u8>, live: Option<u64>) -> Result<(), AllocError>
    ensures { OnOk result (out.new.items ≡ out.old.items ++ (spec.entry_text (entry.Header live) ++ 10 ∷ [])) }
{
    match live {
        None => write_text(out, "lucy certificate 1\n"),
        Some(live) => write_second(out, live),
    }
}

/// The text of a certificate: the line of its version, then each part's name and steps, then the line `end`.
pub fn write(alloc: Global, certificate: &Certificate) -> Result<Vec<u8>, AllocError>
    ensures { IfOk result (λ v. v.items ≡ spec.certificate_text certificate.now) }
{
    let mut out = Vec::new(alloc);
    write_header(&mut out, certificate.live)?;
    write_cert_parts(&mut out, certificate.parts.as_slice())?;
    write_text(&mut out, "end\n")?;
    Ok(out)
}

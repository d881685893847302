ghost use Rattle.std.specs.Prelude.{◌≡◌, ◌++◌, OnOk, map, IfOk};
ghost use Rattle.std.specs.Arc.{arc_value};
ghost use Rattle.lucy_core.specs.declared.outcome.Outcome.{Outcome};
ghost use Rattle.lucy_replica.specs.Answering.{answer_of, stay_of};
ghost use Rattle.lucy_replica.specs.Legal.{records_of};
ghost use Rattle.lucy_report.specs.OutcomeTexts.{way_line, records_in, kind_word, reply_line, reply_lines, all_reply_lines, replicas_in, IsNamed};
ghost use Rattle.lucy_report.specs.OutcomeTexts as texts;
ghost use Rattle.lucy_report.specs.WorldTexts.{AreNamed, record_lines, replica_lines};

use crate::world_lines::{write_record, write_replicas};
use crate::writing::{write_counted, write_numbered};
use lucy_core::Outcome;
use lucy_io::write_text;
use lucy_names::Names;
use lucy_replica::{Closing, Life, Reply};
use std::alloc::{AllocError, Global};

// Whether threads worked, or one thread alone did.
fn write_way(out: &mut Vec<u8>, threads: bool) -> Result<(), AllocError>
    ensures { OnOk result (out.new.items ≡ out.old.items ++ way_line threads) }
{
    if threads {
        write_text(out, "threads\n")
    } else {
        write_text(out, "alone\n")
    }
}

// The records that a replica had before the present one.
fn write_closings(out: &mut Vec<u8>, names: &Names, closings: &[Closing]) -> Result<(), AllocError>
    requires { AreNamed names.now.segments (map (λ c. arc_value c.epoch) closings.now) }
    ensures { OnOk result (out.new.items ≡ out.old.items ++ record_lines names.now.segments (map (λ c. arc_value c.epoch) closings.now)) }
{
    for closing in closings {
        write_record(out, names, &closing.epoch)?;
    }
    Ok(())
}

// The records that a replica had, the present one last.
fn write_records_of(out: &mut Vec<u8>, names: &Names, life: &Life) -> Result<(), AllocError>
    requires { AreNamed names.now.segments (records_of life.now.replica) }
    ensures { OnOk result (out.new.items ≡ out.old.items ++ record_lines names.now.segments (records_of life.now.replica)) }
{
    write_closings(out, names, life.closings())?;
    write_record(out, names, life.epoch())?;
    Ok(())
}

// The records that were opened, which all replicas had.
fn write_records_in(out: &mut Vec<u8>, names: &Names, lives: &[Life]) -> Result<(), AllocError>
    requires { AreNamed names.now.segments (records_in (map (λ life. life.replica) lives.now)) }
    ensures { OnOk result (out.new.items ≡ out.old.items ++ record_lines names.now.segments (records_in (map (λ life. life.replica) lives.now))) }
{
    match lives.first() {
        Some(life) => write_records_of(out, names, life),
        None => Ok(()),
    }
}

// The kind of a reply, which ends its line.
fn write_kind(out: &mut Vec<u8>, reply: &Reply) -> Result<(), AllocError>
    ensures { OnOk result (out.new.items ≡ out.old.items ++ kind_word (answer_of reply.now)) }
{
    match reply {
        Reply::Done { .. } => write_text(out, " done\n"),
        Reply::Broken { .. } => write_text(out, " broken\n"),
        Reply::Moved { .. } => write_text(out, " moved\n"),
        Reply::Refused { .. } => write_text(out, " refused\n"),
    }
}

// The line of a reply to the call at a place.
#[tactic(auto, unfolding(crate::specs::OutcomeTexts::reply_line))]
fn write_reply(out: &mut Vec<u8>, number: u32, place: u64, reply: &Reply) -> Result<(), AllocError>
    ensures { OnOk result (out.new.items ≡ out.old.items ++ reply_line number place (answer_of reply.now)) }
{
    write_numbered(out, "reply ", number)?;
    write_counted(out, " ", place)?;
    write_kind(out, reply)?;
    Ok(())
}

// The line of each reply of a replica of this number.
fn write_replies(out: &mut Vec<u8>, number: u32, replies: &[Reply]) -> Result<(), AllocError>
    ensures { OnOk result (out.new.items ≡ out.old.items ++ reply_lines number 0 (map answer_of replies.now)) }
{
    for (place, reply) in replies.iter().enumerate() {
        write_reply(out, number, place as u64, reply)?;
    }
    Ok(())
}

// The lines of all replies.
fn write_all_replies(out: &mut Vec<u8>, lives: &[Life]) -> Result<(), AllocError>
    ensures { OnOk result (out.new.items ≡ out.old.items ++ all_reply_lines (map (λ life. life.replica) lives.now)) }
{
    for life in lives {
        write_replies(out, life.replica(), life.replies())?;
    }
    Ok(())
}

// Appends the text of what these replicas show.
#[tactic(auto, unfolding(crate::specs::OutcomeTexts::text_of))]
fn write_outcome(
    out: &mut Vec<u8>,
    names: &Names,
    threads: bool,
    lives: &[Life],
) -> Result<(), AllocError>
    requires { AreNamed names.now.segments (records_in (map (λ life. life.replica) lives.now)) }
    ensures { OnOk result (out.new.items ≡ out.old.items ++ texts.text_of names.now.segments threads (map (λ life. life.replica) lives.now)) }
{
    write_way(out, threads)?;
    write_records_in(out, names, lives)?;
    write_replicas(out, lives)?;
    write_all_replies(out, lives)?;
    write_text(out, "end\n")?;
    Ok(())
}

/// The text of an outcome: `threads` or `alone`, the records and the replicas, and the kind of each
/// reply. The names have one for the segment of each record.
pub fn outcome_text(alloc: Global, names: &Names, outcome: &Outcome) -> Result<Vec<u8>, AllocError>
    requires { IsNamed names.now.segments outcome.now }
    ensures { IfOk result (λ text. text.items ≡ texts.outcome_text names.now.segments outcome.now) }
{
    let mut text = Vec::new(alloc);
    write_outcome(&mut text, names, outcome.threads, &outcome.lives)?;
    Ok(text)
}

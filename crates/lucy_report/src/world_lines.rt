ghost use Rattle.std.specs.Prelude.{◌≡◌, ◌++◌, ◌<◌, OnOk, map, length};
ghost use Rattle.std.specs.Arc.{arc_value};
ghost use Rattle.lucy_replica.specs.Answering.{answer_of};
ghost use Rattle.lucy_report.specs.WorldTexts.{AreNamed, by_text, record_line, counts_text, replica_line, record_lines, replica_lines, world_text};
ghost use Rattle.lucy_report.specs.WorldTexts as texts;

use crate::writing::{write_counted, write_id, write_numbered, write_state};
use lucy_epochs::{By, Epoch};
use lucy_io::write_text;
use lucy_names::Names;
use lucy_replica::{Life, Reply};
use std::alloc::AllocError;
use std::sync::Arc;

// The call that opened a record, if one did.
fn write_by(out: &mut Vec<u8>, by: Option<By>) -> Result<(), AllocError>
    ensures { OnOk result (out.new.items ≡ out.old.items ++ by_text by) }
{
    match by {
        None => Ok(()),
        Some(by) => {
            write_text(out, " by ")?;
            write_id(out, by.replica, by.count)?;
            Ok(())
        }
    }
}

/// Appends the line of a record.
#[tactic(auto, unfolding(crate::specs::WorldTexts::record_line))]
pub fn write_record(out: &mut Vec<u8>, names: &Names, epoch: &Epoch) -> Result<(), AllocError>
    requires { epoch.now.segment < length names.now.segments }
    ensures { OnOk result (out.new.items ≡ out.old.items ++ record_line names.now.segments epoch.now) }
{
    write_counted(out, "epoch ", epoch.number())?;
    write_text(out, " segment ")?;
    write_text(out, names.segment(epoch.segment()))?;
    write_text(out, " opening ")?;
    write_state(out, epoch.opening().as_slice())?;
    write_by(out, epoch.by())?;
    write_text(out, "\n")?;
    Ok(())
}

/// A kind of reply.
#[derive(Clone, Copy, PartialEq, Eq)]
pub enum ReplyKind {
    Done,
    Broken,
    Moved,
    Refused,
}

fn is_of(kind: ReplyKind, reply: &Reply) -> bool
    ensures { result ≡ texts.is_of kind (answer_of reply.now) }
{
    match reply {
        Reply::Done { .. } => kind == ReplyKind::Done,
        Reply::Broken { .. } => kind == ReplyKind::Broken,
        Reply::Moved { .. } => kind == ReplyKind::Moved,
        Reply::Refused { .. } => kind == ReplyKind::Refused,
    }
}

// How many of the replies are of this kind.
fn how_many(kind: ReplyKind, replies: &[Reply]) -> u64
    ensures { result ≡ texts.how_many kind (map answer_of replies.now) }
{
    let mut count = 0;
    for reply in replies {
        if is_of(kind, reply) {
            count += 1;
        }
    }
    count
}

// How many replies there are of each kind.
#[tactic(auto, unfolding(crate::specs::WorldTexts::counts_text))]
fn write_counts(out: &mut Vec<u8>, replies: &[Reply]) -> Result<(), AllocError>
    ensures { OnOk result (out.new.items ≡ out.old.items ++ counts_text (map answer_of replies.now)) }
{
    write_counted(out, " done ", how_many(ReplyKind::Done, replies))?;
    write_counted(out, " broken ", how_many(ReplyKind::Broken, replies))?;
    write_counted(out, " moved ", how_many(ReplyKind::Moved, replies))?;
    write_counted(out, " refused ", how_many(ReplyKind::Refused, replies))?;
    Ok(())
}

// The line of a replica.
#[tactic(auto, unfolding(crate::specs::WorldTexts::replica_line))]
fn write_replica(out: &mut Vec<u8>, life: &Life) -> Result<(), AllocError>
    ensures { OnOk result (out.new.items ≡ out.old.items ++ replica_line life.now.replica) }
{
    write_numbered(out, "replica ", life.replica())?;
    write_counted(out, " epoch ", life.epoch().number())?;
    write_text(out, " state ")?;
    write_state(out, life.state().as_slice())?;
    write_counts(out, life.replies())?;
    write_text(out, "\n")?;
    Ok(())
}

fn write_records(out: &mut Vec<u8>, names: &Names, epochs: &[Arc<Epoch>]) -> Result<(), AllocError>
    requires { AreNamed names.now.segments (map arc_value epochs.now) }
    ensures { OnOk result (out.new.items ≡ out.old.items ++ record_lines names.now.segments (map arc_value epochs.now)) }
{
    for epoch in epochs {
        write_record(out, names, epoch)?;
    }
    Ok(())
}

/// Appends a line for each replica.
pub fn write_replicas(out: &mut Vec<u8>, lives: &[Life]) -> Result<(), AllocError>
    ensures { OnOk result (out.new.items ≡ out.old.items ++ replica_lines (map (λ life. life.replica) lives.now)) }
{
    for life in lives {
        write_replica(out, life)?;
    }
    Ok(())
}

/// Appends the text of a world: its records, its replicas, and the line `end`. The names have one for
/// the segment of each record.
#[tactic(auto, unfolding(crate::specs::WorldTexts::world_text))]
pub fn write_world(
    out: &mut Vec<u8>,
    names: &Names,
    epochs: &[Arc<Epoch>],
    lives: &[Life],
) -> Result<(), AllocError>
    requires { AreNamed names.now.segments (map arc_value epochs.now) }
    ensures { OnOk result (out.new.items ≡ out.old.items ++ world_text names.now.segments (map arc_value epochs.now) (map (λ life. life.replica) lives.now)) }
{
    write_records(out, names, epochs)?;
    write_replicas(out, lives)?;
    write_text(out, "end\n")?;
    Ok(())
}

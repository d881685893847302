//! How many calls each replica had accepted, record by record, counted once.
ghost use Rattle.std.specs.Prelude.{◌≡◌, ◌<◌, ◌+◌, ◌^◌, ◌==◌, ℕ, vec_len, length, map, slice_get, slice_index, IfOk};
ghost use Rattle.lucy_replica.specs.Answering.{answer_of};
ghost use Rattle.lucy_replica.specs.Facts.{accepted_in};
ghost use Rattle.lucy_replica.specs.Legal.{one_if};
ghost use Rattle.lucy_audit.specs.Tallies.{AreTallies, IsTally, accepted_at, is_at, look};

use crate::kept::how_many_records;
use lucy_replica::{Life, Reply};
use sqlite_items::Items;
use std::alloc::{AllocError, Global};

/// For each replica and each of its records, how many of its calls were accepted in records up to it.
pub fn tallies_of(alloc: Global, lives: &[Life]) -> Result<Items<Items<usize>>, AllocError>
    ensures { IfOk result (λ tallies. AreTallies (map (λ life. life.replica) lives.now) tallies) }
{
    let mut tallies = Items::new(alloc);
    for place in 0..lives.len() {
        let life = &lives[place];
        let tally = tally_of(alloc, life.replies(), how_many_records(life))?;
        tallies.push(tally)?;
    }
    Ok(tallies)
}

/// What such tallies say of a replica and of the record of this number, if they say something.
pub fn tallied(tallies: &[Items<usize>], number: u64, owner: usize) -> Option<usize>
    ensures { result ≡ look (slice_get tallies.now owner) number }
{
    let tally = tallies.get(owner)?;
    tally.as_slice().get(number as usize).copied()
}

// For each of so many records, how many of these replies accept a call in records up to it.
fn tally_of(alloc: Global, replies: &[Reply], records: usize) -> Result<Items<usize>, AllocError>
    ensures { IfOk result (λ tally. IsTally (map answer_of replies.now) tally) }
{
    let many = replies.len();
    prove!(many < usize::MAX);
    let counts = counts_of(alloc, replies, records)?;
    let mut tally = Items::new(alloc);
    let mut sum = 0;
    for number in 0..records {
        sum += counts[number];
        tally.push(sum)?;
    }
    Ok(tally)
}

// For each of so many records, how many of these replies accept a call in it.
fn counts_of(alloc: Global, replies: &[Reply], records: usize) -> Result<Vec<usize>, AllocError>
    ensures many { IfOk result (λ counts. vec_len counts ≡ records) }
    ensures each { IfOk result (λ counts. (number : ℕ) → number < records → slice_index counts.items number ≡ accepted_at number (map answer_of replies.now)) }
{
    let mut counts = vec![in alloc; 0; records]?;
    for reply in replies {
        count_reply(&mut counts, reply);
    }
    Ok(counts)
}

// Counts a reply at the record in which it accepts a call.
fn count_reply(counts: &mut Vec<usize>, reply: &Reply)
    requires few { (number : ℕ) → number < vec_len counts.old → slice_index counts.old.items number + 1 < 2 ^ 64 }
    ensures many { vec_len counts.new ≡ vec_len counts.old }
    ensures each { (number : ℕ) → number < vec_len counts.old → slice_index counts.new.items number
        ≡ slice_index counts.old.items number + one_if (is_at number (accepted_in (answer_of reply.now))) }
{
    match reply {
        Reply::Done { epoch, .. } | Reply::Moved { epoch, .. } => count_at(counts, epoch.number()),
        Reply::Broken { .. } | Reply::Refused { .. } => {}
    }
}

// Counts one at this place, if there is such a place.
fn count_at(counts: &mut Vec<usize>, at: u64)
    requires few { (number : ℕ) → number < vec_len counts.old → slice_index counts.old.items number + 1 < 2 ^ 64 }
    ensures many { vec_len counts.new ≡ vec_len counts.old }
    ensures each { (number : ℕ) → number < vec_len counts.old → slice_index counts.new.items number
        ≡ slice_index counts.old.items number + one_if (at == number) }
{
    let place = at as usize;
    if place < counts.len() {
        let count = counts[place] + 1;
        counts[place] = count;
    }
}

//! The lines of a work text.

ghost use Rattle.std.specs.Prelude.{◌≡◌, ◌<◌, [], map, length, replicate, option_copied, IfOk, OnOk};
ghost use Rattle.lucy_names.specs.Plans.{AreNamesOf};
ghost use Rattle.lucy_names.specs.Tables.{place_of};
ghost use Rattle.lucy_calls.specs.NextLines.{left};
ghost use Rattle.lucy_io.specs.Outcomes.{Answers};
ghost use Rattle.lucy_calls.specs.declared.error.CallsError.TheVariants.{OutOfMemory};
ghost use Rattle.lucy_calls.specs.Work as spec;

use crate::error::CallsError;
use crate::fields::{is_word, read_fields, read_heading};
use crate::lines::{Line, Lines, within_bytes};
use crate::numbers::{below, read_between, read_number, read_number_behind};
use crate::works::Work;
use lucy_names::Names;
use lucy_plan::{Call, Limits, Plan, Txn, What};
use sqlite_items::Items;
use std::alloc::{AllocError, Global};

/// The greatest length of a work text, in bytes.
const MOST_BYTES: u32 = 1 << 25;

/// The most replicas.
const MOST_REPLICAS: u128 = 16;

/// The most calls of one replica.
const MOST_CALLS: usize = 4096;

// A call, and the replica that is to make it.
#[derive(Drop)]
struct Placed {
    replica: u32,
    call: Call,
}

fn within(count: u128) -> Result<u32, CallsError>
    ensures { result ≡ spec.within count }
{
    if 1 <= count && count <= MOST_REPLICAS {
        Ok(count as u32)
    } else {
        Err(CallsError::Limit {
            what: What::Replicas,
            count: count.min(u128::from(u64::MAX)) as u64,
        })
    }
}

#[tactic(auto, unfolding(crate::specs::Work::replicas_in))]
fn replicas_in(line: u64, fields: &[&[u8]]) -> Result<u32, CallsError>
    ensures { result ≡ spec.replicas_in line (map (λ f. f.now) fields.now) }
{
    match fields {
        [word, digits] => {
            let count = read_number_behind(b"replicas", line, word, digits)?;
            within(count)
        }
        _ => Err(CallsError::BadLine(line)),
    }
}

#[tactic(auto, unfolding(crate::specs::Work::replicas_of))]
fn read_replicas(alloc: Global, line: Line<'_>) -> Result<u32, CallsError>
    ensures { Answers OutOfMemory (λ n. n) (spec.replicas_of line.entry.number line.entry.bytes.now) result }
{
    let fields = read_fields(alloc, line)?;
    replicas_in(line.number, fields.as_slice())
}

fn read_argument(line: u64, limits: Limits, text: &[u8]) -> Result<i64, CallsError>
    ensures { result ≡ spec.argument line limits text.now }
{
    match read_between(text, limits.lo, limits.hi) {
        Some(argument) => Ok(argument),
        None => Err(CallsError::BadArgument(line)),
    }
}

// An argument for each parameter.
fn read_arguments(
    alloc: Global,
    line: u64,
    mut params: &[Limits],
    mut texts: &[&[u8]],
) -> Result<Items<i64>, CallsError>
    ensures { Answers OutOfMemory (λ a. a) (spec.arguments_of line [] params.entry.now (map (λ t. t.now) texts.entry.now)) result }
{
    let mut arguments = Items::new(alloc);
    while let [limits, more_params @ ..] = params {
        let [text, more_texts @ ..] = texts else {
            return Err(CallsError::BadArgument(line));
        };
        let argument = read_argument(line, *limits, text)?;
        arguments.push(argument)?;
        params = more_params;
        texts = more_texts;
    }
    if texts.is_empty() {
        Ok(arguments)
    } else {
        Err(CallsError::BadArgument(line))
    }
}

fn params_of(txn: Option<&Txn>) -> &[Limits]
    ensures { result.now ≡ spec.params_of (option_copied txn.entry) }
{
    match txn {
        None => &[],
        Some(txn) => txn.params.as_slice(),
    }
}

fn find_txn(names: &Names, line: u64, name: &[u8]) -> Result<u32, CallsError>
    ensures { result ≡ spec.or_unknown line (place_of names.now.txns name.now) }
{
    match names.find_txn_bytes(name) {
        Some(txn) => Ok(txn),
        None => Err(CallsError::UnknownTxn(line)),
    }
}

#[tactic(auto, unfolding(crate::specs::Work::call_of))]
fn read_call(
    alloc: Global,
    plan: &Plan,
    names: &Names,
    line: u64,
    name: &[u8],
    texts: &[&[u8]],
) -> Result<Call, CallsError>
    requires { AreNamesOf plan.now names.now }
    ensures { Answers OutOfMemory (λ c. c) (spec.call_of plan.now line name.now (map (λ t. t.now) texts.now)) result }
{
    let txns = plan.parts().txns.as_slice();
    let txn = find_txn(names, line, name)?;
    let params = params_of(txns.get(txn as usize));
    read_arguments(alloc, line, params, texts).map(|arguments| Call { txn, arguments })
}

#[tactic(auto, unfolding(crate::specs::Work::placed))]
fn read_placed(
    alloc: Global,
    plan: &Plan,
    names: &Names,
    replicas: u32,
    line: u64,
    digits: &[u8],
    name: &[u8],
    texts: &[&[u8]],
) -> Result<Placed, CallsError>
    requires { AreNamesOf plan.now names.now }
    ensures placed { Answers OutOfMemory (λ p. (p.replica, p.call)) (spec.placed plan.now replicas line digits.now name.now (map (λ t. t.now) texts.now)) result }
    ensures within { IfOk result (λ p. p.replica < replicas) }
{
    let number = read_number(line, digits)?;
    let replica = below(replicas, line, number)?;
    read_call(alloc, plan, names, line, name, texts).map(|call| Placed { replica, call })
}

#[tactic(auto, unfolding(crate::specs::Work::placed_of))]
fn read_call_line(
    alloc: Global,
    plan: &Plan,
    names: &Names,
    replicas: u32,
    line: u64,
    fields: &[&[u8]],
) -> Result<Placed, CallsError>
    requires { AreNamesOf plan.now names.now }
    ensures placed { Answers OutOfMemory (λ p. (p.replica, p.call)) (spec.placed_of plan.now replicas line (map (λ f. f.now) fields.now)) result }
    ensures within { IfOk result (λ p. p.replica < replicas) }
{
    match fields {
        [digits, name, texts @ ..] => {
            read_placed(alloc, plan, names, replicas, line, digits, name, texts)
        }
        _ => Err(CallsError::BadLine(line)),
    }
}

fn empty_lists(alloc: Global, count: u32) -> Result<Vec<Items<Call>>, AllocError>
    ensures { IfOk result (λ v. v.items ≡ replicate count []) }
{
    let mut lists = Vec::new(alloc);
    for _i in 0..count {
        lists.push(Items::new(alloc))?;
    }
    Ok(lists)
}

// Puts a call behind the others of its replica.
#[tactic(auto, unfolding(crate::specs::Work::put))]
fn put(lists: &mut Vec<Items<Call>>, placed: Placed) -> Result<(), CallsError>
    requires { placed.replica < length lists.old.items }
    ensures put { Answers OutOfMemory (λ _. lists.new.items) (spec.put (placed.replica, placed.call) lists.old.items) result }
    ensures even { OnOk result (length lists.new.items ≡ length lists.old.items) }
{
    let calls = &mut lists[placed.replica as usize];
    if calls.len() >= MOST_CALLS {
        return Err(CallsError::Limit {
            what: What::Calls,
            count: MOST_CALLS as u64 + 1,
        });
    }
    calls.push(placed.call)?;
    Ok(())
}

// Puts a line's call behind the others of its replica.
#[tactic(auto, unfolding(crate::specs::Work::with_call))]
fn add_call(
    alloc: Global,
    plan: &Plan,
    names: &Names,
    replicas: u32,
    line: Line<'_>,
    lists: &mut Vec<Items<Call>>,
) -> Result<(), CallsError>
    requires names { AreNamesOf plan.now names.now }
    requires lists { length lists.old.items ≡ replicas }
    ensures call { Answers OutOfMemory (λ _. lists.new.items) (spec.with_call plan.now replicas line.entry.number line.entry.bytes.now lists.old.items) result }
    ensures even { OnOk result (length lists.new.items ≡ replicas) }
{
    let fields = read_fields(alloc, line)?;
    let placed = read_call_line(alloc, plan, names, replicas, line.number, fields.as_slice())?;
    put(lists, placed)
}

#[tactic(auto, unfolding(crate::specs::Work::lists_of, crate::specs::Lines::up_to_end))]
fn read_lists(
    alloc: Global,
    plan: &Plan,
    names: &Names,
    replicas: u32,
    lines: Lines<'_>,
) -> Result<Vec<Items<Call>>, CallsError>
    requires { AreNamesOf plan.now names.now }
    ensures { Answers OutOfMemory (λ v. v.items) (spec.lists_of plan.now replicas (left lines.entry)) result }
{
    let mut lists = empty_lists(alloc, replicas)?;
    let mut rest = lines;
    loop {
        let (line, after) = rest.next_line()?;
        if is_word(line.bytes, b"end") {
            after.ended()?;
            return Ok(lists);
        }
        add_call(alloc, plan, names, replicas, line, &mut lists)?;
        rest = after;
    }
}

#[tactic(auto, unfolding(crate::specs::Work::text_of))]
fn read_text(
    alloc: Global,
    plan: &Plan,
    names: &Names,
    text: &[u8],
) -> Result<Vec<Items<Call>>, CallsError>
    requires { AreNamesOf plan.now names.now }
    ensures { Answers OutOfMemory (λ v. v.items) (spec.text_of plan.now text.now) result }
{
    let (line, rest) = Lines::new(text).next_line()?;
    read_heading(alloc, b"work", line)?;
    let (line, rest) = rest.next_line()?;
    let replicas = read_replicas(alloc, line)?;
    read_lists(alloc, plan, names, replicas, rest)
}

/// The calls of a work text: the line `work 1`, the line `replicas N`, a line `J NAME ARG..` for each
/// call, the line `end`. The names are those of the plan.
///
/// Errors: `Limit` where the text has more than 2^25 bytes; else the fault of the first line that has
/// one, within a line in the order of the variants; `OutOfMemory`.
#[tactic(auto, unfolding(crate::specs::Work::work_of))]
pub fn read_work(alloc: Global, plan: &Plan, names: &Names, text: &[u8]) -> Result<Work, CallsError>
    requires { AreNamesOf plan.now names.now }
    ensures { Answers OutOfMemory (λ w. w.lists) (spec.work_of plan.now text.now) result }
{
    within_bytes(MOST_BYTES, text)?;
    read_text(alloc, plan, names, text).map(|lists| Work {
        lists: Items::from_vec(lists),
    })
}

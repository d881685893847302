//! Questions about what a plan text means.

ghost use Rattle.std.specs.Prelude.{◌≡◌, IfSome, length};

use crate::trouble::Trouble;
use crate::words::{parted, put_next, put_numbered};
use lucy_elaborate::{ElabError, elaborate};
use lucy_model::{Condition, Raw, State, holds, is_condition, negate};
use lucy_plan::{Call, Plan, What, apply, first_segment, fits, in_segment, settle, whole};
use lucy_syntax::{SyntaxError, Tree, parse};
use sqlite_items::Items;
use std::alloc::{AllocError, Global};

/// The word for what is limited.
pub fn limit(what: What) -> &'static str {
    match what {
        What::Bytes => "bytes",
        What::Leaves => "leaves",
        What::Coefficient => "coefficient",
        What::Constant => "constant",
        What::Conditions => "conditions",
        What::Transactions => "transactions",
        What::Arguments => "arguments",
        What::Segments => "segments",
        What::Points => "points",
        What::Depth => "depth",
        What::Replicas => "replicas",
        What::Calls => "calls",
    }
}

// The words of a refusal, and its place or its count.
fn words_of(refusal: ElabError) -> Result<(&'static str, u64), Trouble> {
    match refusal {
        ElabError::Version(at) => Ok(("version", at as u64)),
        ElabError::UnknownName(at) => Ok(("unknown name", at as u64)),
        ElabError::Twice(at) => Ok(("twice", at as u64)),
        ElabError::Kind(at) => Ok(("kind", at as u64)),
        ElabError::NotLinear(at) => Ok(("not linear", at as u64)),
        ElabError::Range(at) => Ok(("range", at as u64)),
        ElabError::BadStart(at) => Ok(("start", at as u64)),
        ElabError::Limit { what, count } => Ok((limit(what), count)),
        ElabError::OutOfMemory => Err(Trouble::OutOfMemory),
    }
}

fn refusal_of(alloc: Global, tree: &Tree) -> Option<ElabError> {
    elaborate(alloc, tree).err()
}

// The refusal of a text that has a tree, if its tree is refused.
fn refused(alloc: Global, text: &str) -> Result<Option<ElabError>, Trouble> {
    match parse(alloc, text.as_bytes()) {
        Ok(tree) => {
            let refusal = refusal_of(alloc, &tree);
            drop(tree);
            Ok(refusal)
        }
        Err(SyntaxError::OutOfMemory) => Err(Trouble::OutOfMemory),
        Err(_) => Err(Trouble::NotUnderstood),
    }
}

/// Why a plan text whose grammar is right is refused, or `ok`.
pub fn refusal(out: &mut String, alloc: Global, text: &str) -> Result<(), Trouble> {
    match refused(alloc, text)? {
        Some(refusal) => {
            let (words, number) = words_of(refusal)?;
            put_numbered(out, alloc, words, number)?;
        }
        None => out.push_str("ok")?,
    }
    Ok(())
}

// The refusal of a text with this end.
fn refusal_at_end(alloc: Global, text: &str, end: &str) -> Result<String, Trouble> {
    let mut whole = String::from_str(alloc, text)?;
    whole.push_str(end)?;
    let mut told = String::new(alloc);
    refusal(&mut told, alloc, &whole)?;
    Ok(told)
}

/// Why a plan text without its `end` is refused: with a fault behind it, its refusal is the same.
pub fn first_refusal(out: &mut String, alloc: Global, text: &str) -> Result<(), Trouble> {
    let once = refusal_at_end(alloc, text, " end")?;
    out.push_str(&once)?;
    let with_fault = refusal_at_end(alloc, text, " depth 3; end")?;
    let want = if once.as_str() == "ok" {
        "depth 3"
    } else {
        once.as_str()
    };
    if with_fault.as_str() != want {
        out.push_str(", and with a fault behind it ")?;
        out.push_str(&with_fault)?;
    }
    Ok(())
}

fn plan_in(alloc: Global, tree: &Tree) -> Option<Plan> {
    match elaborate(alloc, tree) {
        Ok((plan, names)) => {
            drop(names);
            Some(plan)
        }
        Err(_) => None,
    }
}

/// The plan of a text, or `None` where it is no plan.
pub fn plan_of(alloc: Global, text: &str) -> Option<Plan> {
    match parse(alloc, text.as_bytes()) {
        Ok(tree) => {
            let plan = plan_in(alloc, &tree);
            drop(tree);
            plan
        }
        Err(_) => None,
    }
}

// Numbers with spaces between them.
fn numbers(alloc: Global, text: &str) -> Option<Vec<i64>> {
    let mut numbers = Vec::new(alloc);
    for word in text.split(' ') {
        if !word.is_empty() {
            numbers.push(word.parse::<i64>().ok()?).ok()?;
        }
    }
    Some(numbers)
}

fn wide_numbers(alloc: Global, text: &str) -> Option<Vec<i128>> {
    let mut numbers = Vec::new(alloc);
    for word in text.split(' ') {
        if !word.is_empty() {
            numbers.push(word.parse::<i128>().ok()?).ok()?;
        }
    }
    Some(numbers)
}

fn state_of(alloc: Global, text: &str) -> Option<State> {
    let numbers = numbers(alloc, text)?;
    State::new(alloc, numbers.as_slice()).ok()
}

fn raw_of(alloc: Global, numbers: &[i128]) -> Result<Raw, AllocError> {
    let mut raw = Raw::new(alloc, numbers.len())?;
    let mut leaf = 0u32;
    for number in numbers {
        if (leaf as usize) < raw.length() {
            raw.set(leaf, *number);
        }
        leaf = leaf.saturating_add(1);
    }
    Ok(raw)
}

fn raw_in(alloc: Global, text: &str) -> Option<Raw> {
    let numbers = wide_numbers(alloc, text)?;
    raw_of(alloc, numbers.as_slice()).ok()
}

// Numbers for the object of a plan.
fn raw_for(alloc: Global, plan: &Plan, text: &str) -> Option<Raw>
    ensures { IfSome result (λ raw. length raw ≡ length plan.now.object) }
{
    let raw = raw_in(alloc, text)?;
    if raw.length() != plan.parts().object.len() {
        return None;
    }
    Some(raw)
}

// A state for the object of a plan.
fn state_for(alloc: Global, plan: &Plan, text: &str) -> Option<State>
    ensures { IfSome result (λ state. length state ≡ length plan.now.object) }
{
    let state = state_of(alloc, text)?;
    if state.length() != plan.parts().object.len() {
        return None;
    }
    Some(state)
}

// A transaction's place and its arguments.
fn call_of(alloc: Global, text: &str) -> Option<Call> {
    let numbers = numbers(alloc, text)?;
    let [txn, arguments @ ..] = numbers.as_slice() else {
        return None;
    };
    let txn = u32::try_from(*txn).ok()?;
    let arguments = Items::from_slice(alloc, arguments).ok()?;
    Some(Call { txn, arguments })
}

fn put_state(out: &mut String, alloc: Global, numbers: &[i64]) -> Result<(), AllocError> {
    for number in numbers {
        put_next(out, alloc, i128::from(*number))?;
    }
    Ok(())
}

fn put_raw(out: &mut String, alloc: Global, raw: &Raw) -> Result<(), AllocError> {
    let mut leaf = 0u32;
    for _turn in 0..raw.length() {
        if (leaf as usize) < raw.length() {
            put_next(out, alloc, raw.get(leaf))?;
        }
        leaf = leaf.saturating_add(1);
    }
    Ok(())
}

// What a call makes of a state.
fn put_applied(
    out: &mut String,
    alloc: Global,
    plan: &Plan,
    call: &Call,
    state: &State,
) -> Result<(), AllocError>
    requires { length state.now ≡ length plan.now.object }
{
    if !fits(plan, call) {
        return out.push_str("does not fit");
    }
    let mut made = Raw::new(alloc, state.length())?;
    apply(plan, call, state, &mut made);
    put_raw(out, alloc, &made)
}

// What a call makes of the state behind the bar.
fn put_call(out: &mut String, alloc: Global, plan: &Plan, text: &str) -> Result<(), Trouble> {
    let (call, state) = parted(text)?;
    let Some(call) = call_of(alloc, call) else {
        return Err(Trouble::NotUnderstood);
    };
    match state_for(alloc, plan, state) {
        Some(state) => Ok(put_applied(out, alloc, plan, &call, &state)?),
        None => Err(Trouble::NotUnderstood),
    }
}

fn last_txns(plan: &Plan) -> usize {
    match plan.parts().segments.as_slice().last() {
        Some(segment) => segment.txns.len(),
        None => 0,
    }
}

// How many leaves, transactions, segments and transactions of the last segment, and the depth.
fn put_counts(out: &mut String, alloc: Global, plan: &Plan) -> Result<(), AllocError> {
    let parts = plan.parts();
    for count in [
        parts.object.len(),
        parts.txns.len(),
        parts.segments.len(),
        last_txns(plan),
        parts.depth as usize,
    ] {
        put_next(out, alloc, count as i128)?;
    }
    Ok(())
}

fn put_segment(out: &mut String, alloc: Global, segment: Option<u32>) -> Result<(), AllocError> {
    match segment {
        Some(segment) => {
            let digits = segment.to_string(alloc)?;
            out.push_str(&digits)
        }
        None => out.push_str("none"),
    }
}

// Which segments numbers are in.
fn put_segments(out: &mut String, alloc: Global, plan: &Plan, raw: &Raw) -> Result<(), AllocError>
    requires { length raw.now ≡ length plan.now.object }
{
    let count = plan.parts().segments.len();
    let mut segment = 0u32;
    for _turn in 0..count {
        if (segment as usize) < plan.parts().segments.len() && in_segment(plan, segment, raw) {
            put_numbered(out, alloc, "", u64::from(segment))?;
        }
        segment = segment.saturating_add(1);
    }
    Ok(())
}

// Whether numbers are whole, which segments they are in, and which is the first.
fn put_levels(out: &mut String, alloc: Global, plan: &Plan, raw: &Raw) -> Result<(), AllocError>
    requires { length raw.now ≡ length plan.now.object }
{
    out.push_str(if whole(plan, raw) {
        "whole, in"
    } else {
        "broken, in"
    })?;
    put_segments(out, alloc, plan, raw)?;
    out.push_str(", first ")?;
    put_segment(out, alloc, first_segment(plan, raw))
}

// The state of numbers that are in a segment.
fn put_settled(out: &mut String, alloc: Global, plan: &Plan, raw: &Raw) -> Result<(), AllocError>
    requires { length raw.now ≡ length plan.now.object }
{
    if first_segment(plan, raw).is_none() {
        return out.push_str("none");
    }
    let state = settle(alloc, raw)?;
    put_state(out, alloc, state.as_slice())
}

fn put_holds(out: &mut String, condition: &Condition, state: &State) -> Result<(), AllocError> {
    if !is_condition(condition, state.length(), 0) {
        return out.push_str("is none");
    }
    out.push_str(if holds(condition, state, &[]) {
        "holds"
    } else {
        "fails"
    })
}

// Whether two conditions hold at a state.
fn put_both(
    out: &mut String,
    condition: &Condition,
    negation: &Condition,
    state: &State,
) -> Result<(), AllocError> {
    put_holds(out, condition, state)?;
    out.push_str(", negated it ")?;
    put_holds(out, negation, state)
}

// Whether the invariant holds at a state, and whether its negation does.
fn put_negated(
    out: &mut String,
    alloc: Global,
    plan: &Plan,
    state: &State,
) -> Result<(), AllocError> {
    let invariant = &plan.parts().invariant;
    let negation = negate(alloc, invariant)?;
    let put = put_both(out, invariant, &negation, state);
    drop(negation);
    put
}

fn put_negation(out: &mut String, alloc: Global, plan: &Plan, text: &str) -> Result<(), Trouble> {
    match state_of(alloc, text) {
        Some(state) => Ok(put_negated(out, alloc, plan, &state)?),
        None => Err(Trouble::NotUnderstood),
    }
}

// What is asked of numbers.
fn put_told(
    out: &mut String,
    alloc: Global,
    fact: Fact,
    plan: &Plan,
    text: &str,
) -> Result<(), Trouble> {
    let Some(raw) = raw_for(alloc, plan, text) else {
        return Err(Trouble::NotUnderstood);
    };
    match fact {
        Fact::Levels => put_levels(out, alloc, plan, &raw)?,
        Fact::Settled => put_settled(out, alloc, plan, &raw)?,
        _ => put_segment(out, alloc, first_segment(plan, &raw))?,
    }
    Ok(())
}

/// What is told of a plan.
#[derive(Clone, Copy)]
pub enum Fact {
    /// Its counts.
    Counts,
    /// Its start.
    Start,
    /// What a call makes of a state.
    Called,
    /// The first segment that numbers are in.
    Segment,
    /// Whether numbers are whole, and which segments they are in.
    Levels,
    /// The state of numbers that are in a segment.
    Settled,
    /// Whether the invariant holds, and whether its negation does.
    Negation,
}

fn put_fact(
    out: &mut String,
    alloc: Global,
    fact: Fact,
    plan: &Plan,
    text: &str,
) -> Result<(), Trouble> {
    match fact {
        Fact::Counts => Ok(put_counts(out, alloc, plan)?),
        Fact::Start => Ok(put_state(out, alloc, plan.parts().start.as_slice())?),
        Fact::Called => put_call(out, alloc, plan, text),
        Fact::Negation => put_negation(out, alloc, plan, text),
        _ => put_told(out, alloc, fact, plan, text),
    }
}

/// What is told of a plan, and of what stands behind the bar.
pub fn told(out: &mut String, alloc: Global, fact: Fact, text: &str) -> Result<(), Trouble> {
    let (plan, rest) = match text.split_once(" | ") {
        Some(parts) => parts,
        None => (text, ""),
    };
    match plan_of(alloc, plan) {
        Some(plan) => {
            let put = put_fact(out, alloc, fact, &plan, rest);
            drop(plan);
            put
        }
        None => Err(Trouble::NotUnderstood),
    }
}

//! Questions about whole calls: words and inputs in memory, what is answered, and what is fetched.

use crate::journal::Kept;
use crate::trouble::Trouble;
use crate::turns::Turns;
use crate::words::{parted, put_bytes};
use lucy_io::{MemoryInputs, MemorySink, MemorySource, Source};
use lucy_top::answer;
use std::alloc::{AllocError, Global};

// How many bytes a text may have that is written.
const ROOM: usize = 1 << 22;

/// The inputs of a call.
#[derive(Clone, Copy)]
pub enum Input {
    /// The plan, which is named `p`.
    Plan,
    /// The work, which is named `w`.
    Work,
    /// The steps, which are named `s`.
    Steps,
    /// The certificate, which is named `c`.
    Certificate,
}

/// Which inputs a row gives behind the words, with ` | ` between two.
#[derive(Clone, Copy)]
pub enum Given {
    /// A plan, work and steps.
    Run,
    /// A plan, or a plan and a certificate.
    Verdict,
    /// A plan, a certificate, work and steps.
    JudgedRun,
    /// A plan, and what is typed.
    Session,
}

// What a row says of a call.
#[derive(Clone, Copy)]
struct Request<'a> {
    words: &'a str,
    plan: &'a [u8],
    certificate: &'a [u8],
    work: &'a [u8],
    steps: &'a [u8],
    // the numbers of the fetches that fail
    failing: &'a str,
    // what the source gives, and the numbers of its takes that fail
    typed: &'a [u8],
    failing_takes: &'a str,
}

// A text and, behind a bar, what else there is.
fn with_rest(text: &str) -> (&str, &str) {
    match text.split_once(" | ") {
        Some(parts) => parts,
        None => (text, ""),
    }
}

fn run_of(text: &str) -> Result<Request, Trouble> {
    let (words, inputs) = parted(text)?;
    let (plan, inputs) = parted(inputs)?;
    let (work, inputs) = parted(inputs)?;
    let (steps, failing) = with_rest(inputs);
    Ok(Request {
        words,
        plan: plan.as_bytes(),
        certificate: b"",
        work: work.as_bytes(),
        steps: steps.as_bytes(),
        failing,
        typed: b"",
        failing_takes: "",
    })
}

fn verdict_of(text: &str) -> Result<Request, Trouble> {
    let (words, inputs) = parted(text)?;
    let (plan, inputs) = with_rest(inputs);
    let (certificate, failing) = with_rest(inputs);
    Ok(Request {
        words,
        plan: plan.as_bytes(),
        certificate: certificate.as_bytes(),
        work: b"",
        steps: b"",
        failing,
        typed: b"",
        failing_takes: "",
    })
}

fn judged_run_of(text: &str) -> Result<Request, Trouble> {
    let (words, inputs) = parted(text)?;
    let (plan, inputs) = parted(inputs)?;
    let (certificate, inputs) = parted(inputs)?;
    let (work, inputs) = parted(inputs)?;
    let (steps, failing) = with_rest(inputs);
    Ok(Request {
        words,
        plan: plan.as_bytes(),
        certificate: certificate.as_bytes(),
        work: work.as_bytes(),
        steps: steps.as_bytes(),
        failing,
        typed: b"",
        failing_takes: "",
    })
}

fn session_of(text: &str) -> Result<Request, Trouble> {
    let (words, inputs) = parted(text)?;
    let (plan, typed) = parted(inputs)?;
    let (typed, failing_takes) = with_rest(typed);
    Ok(Request {
        words,
        plan: plan.as_bytes(),
        certificate: b"",
        work: b"",
        steps: b"",
        failing: "",
        typed: typed.as_bytes(),
        failing_takes,
    })
}

fn request_of(given: Given, text: &str) -> Result<Request, Trouble> {
    match given {
        Given::Run => run_of(text),
        Given::Verdict => verdict_of(text),
        Given::JudgedRun => judged_run_of(text),
        Given::Session => session_of(text),
    }
}

// Words with a space between two; an empty text is none.
fn words_of(alloc: Global, text: &str) -> Result<Vec<String>, AllocError> {
    let mut words = Vec::new(alloc);
    if !text.is_empty() {
        for word in text.split(' ') {
            words.push(String::from_str(alloc, word)?)?;
        }
    }
    Ok(words)
}

fn number_of(word: &str) -> Result<u64, Trouble> {
    match word.parse::<u64>() {
        Ok(number) => Ok(number),
        Err(_) => Err(Trouble::NotUnderstood),
    }
}

// Numbers with spaces between them.
fn numbers_of(alloc: Global, text: &str) -> Result<Vec<u64>, Trouble> {
    let mut numbers = Vec::new(alloc);
    for word in text.split(' ') {
        if !word.is_empty() {
            numbers.push(number_of(word)?)?;
        }
    }
    Ok(numbers)
}

fn add_input(
    pairs: &mut Vec<(String, Vec<u8>)>,
    alloc: Global,
    name: &str,
    text: &[u8],
) -> Result<(), AllocError> {
    let name = String::from_str(alloc, name)?;
    pairs.push((name, Vec::from_slice(alloc, text)?))?;
    Ok(())
}

fn pairs_of(alloc: Global, request: &Request) -> Result<Vec<(String, Vec<u8>)>, AllocError> {
    let mut pairs = Vec::new(alloc);
    add_input(&mut pairs, alloc, "p", request.plan)?;
    add_input(&mut pairs, alloc, "c", request.certificate)?;
    add_input(&mut pairs, alloc, "w", request.work)?;
    add_input(&mut pairs, alloc, "s", request.steps)?;
    Ok(pairs)
}

fn inputs_of(alloc: Global, request: &Request) -> Result<Kept, Trouble> {
    let failing = numbers_of(alloc, request.failing)?;
    let pairs = pairs_of(alloc, request)?;
    Ok(Kept::new(alloc, MemoryInputs::new(alloc, pairs, failing)))
}

// A source of what is typed, which gives one byte a take.
fn source_of(alloc: Global, request: &Request) -> Result<MemorySource, Trouble> {
    let failing = numbers_of(alloc, request.failing_takes)?;
    let typed = Vec::from_slice(alloc, request.typed)?;
    Ok(MemorySource::new(typed, 1, failing))
}

// Appends a status and a text that is written.
fn put_ended(out: &mut String, alloc: Global, status: u8, text: &[u8]) -> Result<(), Trouble> {
    let digits = status.to_string(alloc)?;
    out.push_str(&digits)?;
    out.push_str(" ")?;
    put_bytes(out, text)
}

// Appends the answer to words, inputs and a source.
fn put_answer(
    out: &mut String,
    alloc: Global,
    words: &[String],
    inputs: &mut Kept,
    source: &mut MemorySource,
) -> Result<(), Trouble> {
    let mut sink = MemorySink::new(alloc, ROOM, ROOM, Vec::new(alloc))?;
    let ended = answer(alloc, words, inputs, source, &mut sink);
    put_ended(out, alloc, ended.status, sink.bytes())
}

// Appends the answer to a request. What is left are its inputs and its source.
fn put_answer_to(
    out: &mut String,
    alloc: Global,
    request: &Request,
) -> Result<(Kept, MemorySource), Trouble> {
    let words = words_of(alloc, request.words)?;
    let mut inputs = inputs_of(alloc, request)?;
    let mut source = source_of(alloc, request)?;
    put_answer(out, alloc, &words, &mut inputs, &mut source)?;
    Ok((inputs, source))
}

/// The status and the text of a call: `text` is its words, its inputs and the numbers of the fetches that fail.
pub fn answered(out: &mut String, alloc: Global, given: Given, text: &str) -> Result<(), Trouble> {
    let request = request_of(given, text)?;
    put_answer_to(out, alloc, &request)?;
    Ok(())
}

// The last line of a text.
fn last_line(text: &str) -> &str {
    let text = match text.strip_suffix("\n") {
        Some(front) => front,
        None => text,
    };
    match text.rsplit_once('\n') {
        Some((_, last)) => last,
        None => text,
    }
}

/// The status of a call, and the last line of its text.
pub fn soundness(out: &mut String, alloc: Global, text: &str) -> Result<(), Trouble> {
    let mut answer = String::new(alloc);
    answered(&mut answer, alloc, Given::Verdict, text)?;
    match answer.split_once(' ') {
        Some((status, text)) => {
            out.push_str(status)?;
            out.push_str(" ")?;
            out.push_str(last_line(text))?;
            Ok(())
        }
        None => Err(Trouble::NotUnderstood),
    }
}

/// What a call fetches, and how each fetch ends.
pub fn fetched(out: &mut String, alloc: Global, given: Given, text: &str) -> Result<(), Trouble> {
    let request = request_of(given, text)?;
    let mut answer = String::new(alloc);
    let (inputs, _) = put_answer_to(&mut answer, alloc, &request)?;
    inputs.put_fetches(out)?;
    Ok(())
}

// Appends the byte that a source gives next, if there is one.
fn put_byte(bytes: &mut Vec<u8>, source: &mut MemorySource) -> Result<(), Trouble> {
    let mut byte = [0u8];
    if let Ok(1) = source.take(&mut byte) {
        bytes.push(byte[0])?;
    }
    Ok(())
}

/// What a call leaves of what is typed.
pub fn left(out: &mut String, alloc: Global, text: &str) -> Result<(), Trouble> {
    let request = request_of(Given::Session, text)?;
    let mut answer = String::new(alloc);
    let (_, mut source) = put_answer_to(&mut answer, alloc, &request)?;
    let mut bytes = Vec::new(alloc);
    for _ in request.typed {
        put_byte(&mut bytes, &mut source)?;
    }
    put_bytes(out, &bytes)
}

// The text of an input.
fn text_in<'a>(request: Request<'a>, input: Input) -> &'a [u8] {
    match input {
        Input::Plan => request.plan,
        Input::Work => request.work,
        Input::Steps => request.steps,
        Input::Certificate => request.certificate,
    }
}

// A request with another text for an input.
fn with_text<'a>(request: Request<'a>, input: Input, text: &'a [u8]) -> Request<'a> {
    let mut other = request;
    match input {
        Input::Plan => other.plan = text,
        Input::Work => other.work = text,
        Input::Steps => other.steps = text,
        Input::Certificate => other.certificate = text,
    }
    other
}

// An answer; of a fault that stands in a line, at a byte or in a count only what stands before the number.
fn without_number(answer: &str) -> &str {
    if !answer.starts_with("3 bad ") {
        return answer;
    }
    let Some((fault, _)) = answer.split_once(": ") else {
        return answer;
    };
    match fault.rsplit_once(' ') {
        Some((front, _)) => front,
        None => fault,
    }
}

// Counts the answer to a request.
fn count_answer(
    turns: &mut Turns,
    out: &mut String,
    alloc: Global,
    request: &Request,
) -> Result<(), Trouble> {
    let mut answer = String::new(alloc);
    put_answer_to(&mut answer, alloc, request)?;
    turns.count(out, alloc, without_number(&answer))?;
    Ok(())
}

/// What a call is answered with each proper front of an input in its place, from the shortest on: how many of them, and what.
pub fn to_fronts(
    out: &mut String,
    alloc: Global,
    given: Given,
    input: Input,
    text: &str,
) -> Result<(), Trouble> {
    let request = request_of(given, text)?;
    let whole = text_in(request, input);
    let mut turns = Turns::new(alloc);
    for at in 0..whole.len() {
        if let Some(front) = whole.get(..at) {
            count_answer(&mut turns, out, alloc, &with_text(request, input, front))?;
        }
    }
    turns.put(out, alloc)?;
    Ok(())
}

//! Texts of certificates, and what is answered of them for a plan: whole, byte by byte, and in pieces.

use crate::making::{BELOW, KEPT, shared_plan, told};
use lucy_cert::read;
use lucy_judge::{Checked, Refusal, judge};
use lucy_plan::Plan;
use lucy_stream::{Stream, verify};
use std::alloc::Global;
use std::sync::Arc;

// A plan whose start breaks its invariant.
const BREAKING: &str =
    "lucy 1 object { max x in 0..10; } start { } invariant x >= 1; txn add(n in 0..10) { when true { x := x + n; } } segment main when true do add; end";

// What is answered; then lines of the certificate by their numbers, and what stands there in their place, `~` for the
// end of a line: nothing where the line is left out.
const ROWS: &str = "accepted
Rejected { part: Closure(0), step: 0, why: NoConflict }|4=+ 2 n0 1 n1 1 n2 1 n3
Rejected { part: Closure(0), step: 2, why: NoEmpty }|9=
Missing(Cover)|10=
BadLine(11)|11=
BadLine(2)|2=
BadLine(10)|9=|11=
accepted|1=lucy certificate 2 live 3
Rejected { part: Closure(0), step: 2, why: TooMany }|1=lucy certificate 2 live 2
Rejected { part: Closure(0), step: 3, why: Unknown }|1=lucy certificate 2 live 3|9=drop 9~rup by 0 5 8 9 1 6 10 4
Missing(Closure(0))|2=part closure 1
accepted|10=part closure 3~rup by~part cover";

// The same of the plan whose start breaks its invariant.
const BREAKING_ROWS: &str = "StartBreaks
StartBreaks|2=part closure 1
StartBreaks|4=+ 2 n0 1 n1 1 n2 1 n3
BadLine(11)|11=";

// What stands in the place of a line.
fn line_of<'a>(row: &'a str, number: usize, line: &'a str) -> Option<&'a str> {
    for edit in row.split('|') {
        if let Some((at, text)) = edit.split_once('=') {
            if at.parse::<usize>().ok()? == number {
                return Some(text);
            }
        }
    }
    Some(line)
}

fn push_line(text: &mut String, alloc: Global, line: &str) -> Option<()> {
    if !line.is_empty() {
        let line = line.replace(alloc, "~", "\n").ok()?;
        text.push_str(&line).ok()?;
        text.push_str("\n").ok()?;
    }
    Some(())
}

// The certificate with the edits of a row.
fn edited(alloc: Global, row: &str) -> Option<String> {
    let mut text = String::new(alloc);
    let mut number = 0usize;
    for line in KEPT.lines() {
        number = number.saturating_add(1);
        push_line(&mut text, alloc, line_of(row, number, line)?)?;
    }
    Some(text)
}

fn told_whole(alloc: Global, answer: Result<Checked, Refusal>) -> Option<String> {
    match answer {
        Ok(checked) => {
            drop(checked);
            String::from_str(alloc, "accepted").ok()
        }
        Err(refusal) => format!(in alloc; "{:?}", refusal).ok(),
    }
}

// What is answered of the certificate as a whole.
fn judged(alloc: Global, plan: Arc<Plan>, text: &str) -> Option<String> {
    match read(alloc, text.as_bytes()) {
        Ok(certificate) => told_whole(alloc, judge(alloc, plan, &certificate)),
        Err(error) => format!(in alloc; "{:?}", error).ok(),
    }
}

// What is answered of the text byte by byte.
fn streamed(alloc: Global, plan: Arc<Plan>, text: &str) -> Option<String> {
    let mut stream = Stream::new(alloc, plan).ok()?;
    for piece in text.as_bytes().chunks(1) {
        stream.feed(alloc, piece).ok()?;
    }
    told(alloc, stream.finish())
}

// Whether this is what is answered of a text in each of three ways.
fn is_answered(alloc: Global, plan: &str, text: &str, answer: &str) -> Option<bool> {
    let whole = judged(alloc, shared_plan(alloc, plan)?, text)?;
    let bytes = streamed(alloc, shared_plan(alloc, plan)?, text)?;
    let pieces = told(
        alloc,
        verify(alloc, shared_plan(alloc, plan)?, text.as_bytes()),
    )?;
    Some(whole.as_str() == answer && bytes.as_str() == answer && pieces.as_str() == answer)
}

fn is_right(alloc: Global, plan: &str, row: &str) -> Option<bool> {
    let text = edited(alloc, row)?;
    is_answered(alloc, plan, &text, row.split('|').next()?)
}

// The first row that is not right.
fn wrong_row(alloc: Global, plan: &str, rows: &'static str) -> Option<&'static str> {
    for row in rows.lines() {
        if is_right(alloc, plan, row) != Some(true) {
            return Some(row);
        }
    }
    None
}

#[test]
fn certificates_are_judged(rt: HostRuntime) {
    assert_eq!(rt; wrong_row(rt.alloc(), BELOW, ROWS), None);
}

#[test]
fn a_breaking_start_is_refused(rt: HostRuntime) {
    assert_eq!(rt; wrong_row(rt.alloc(), BREAKING, BREAKING_ROWS), None);
}

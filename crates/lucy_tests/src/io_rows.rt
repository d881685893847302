use crate::making::wrong_row;
use lucy_io::{
    Fault, FetchError, Inputs, MemoryInputs, MemorySink, MemorySource, Sink, Source, StreamSink,
    StreamSource, give_all, read_decimal, write_decimal,
};
use std::alloc::{AllocError, Global};

fn pair(alloc: Global, name: &str, text: &str) -> Result<(String, Vec<u8>), AllocError> {
    let name = String::from_str(alloc, name)?;
    Ok((name, Vec::from_slice(alloc, text.as_bytes())?))
}

fn pairs(alloc: Global) -> Result<Vec<(String, Vec<u8>)>, AllocError> {
    let mut pairs = Vec::new(alloc);
    pairs.push(pair(alloc, "a", "abcde")?)?;
    pairs.push(pair(alloc, "b", "")?)?;
    pairs.push(pair(alloc, "a", "later")?)?;
    Ok(pairs)
}

fn inputs_of(alloc: Global, failing: &[u64]) -> Result<MemoryInputs, AllocError> {
    let pairs = pairs(alloc)?;
    Ok(MemoryInputs::new(alloc, pairs, Vec::from_slice(alloc, failing)?))
}

// Each call of `fetch` in turn: name, most, and the bytes behind a `=`, that there is no input, or that the call failed.
const FETCHES: &str = "a 9 =abcde
a 9 failed
a 2 =abc
none 2 failed
none 2 nothing
b 0 =
a 5 =abcde
a 4 =abcde
a 3 =abcd
a 0 =a
a 18446744073709551615 =abcde";

// The text behind a `=`.
fn text_in(want: &str) -> Option<&str> {
    match want.split_once('=') {
        Some(("", text)) => Some(text),
        _ => None,
    }
}

fn is_text(bytes: &[u8], want: &str) -> bool {
    match text_in(want) {
        Some(text) => bytes == text.as_bytes(),
        None => false,
    }
}

fn is_told(answer: Result<Option<Vec<u8>>, FetchError>, want: &str) -> bool {
    match answer {
        Ok(Some(bytes)) => is_text(bytes.as_slice(), want),
        Ok(None) => want == "nothing",
        Err(FetchError::Failed) => want == "failed",
        Err(FetchError::OutOfMemory) => false,
    }
}

fn is_fetched(alloc: Global, inputs: &mut MemoryInputs, row: &str) -> Option<bool> {
    let mut words = row.split(' ');
    let name = words.next()?;
    let most = words.next()?.parse::<usize>().ok()?;
    let want = words.next()?;
    Some(is_told(inputs.fetch(alloc, name, most), want))
}

fn wrong_fetch(alloc: Global, inputs: &mut MemoryInputs) -> Option<&'static str> {
    for row in FETCHES.lines() {
        if is_fetched(alloc, inputs, row) != Some(true) {
            return Some(row);
        }
    }
    None
}

// The first wrong call of inputs of which the calls 1 and 3 fail.
fn wrong_of_fetches(alloc: Global) -> Option<&'static str> {
    match inputs_of(alloc, &[1, 3]) {
        Ok(mut inputs) => wrong_fetch(alloc, &mut inputs),
        Err(AllocError) => Some("no memory"),
    }
}

// Each call of `take` in turn: the room of the buffer, and the bytes behind a `=`, or that the call failed.
const TAKES: &str = "2 =ab
2 fault
8 =cde
8 =fg
8 =
8 =";

fn is_taken(source: &mut MemorySource, row: &str) -> Option<bool> {
    let (room, want) = row.split_once(' ')?;
    let room = room.parse::<usize>().ok()?;
    if room == 0 || room > 8 {
        return None;
    }
    let mut buffer = [0; 8];
    match source.take(&mut buffer[..room]) {
        Ok(count) => Some(is_text(buffer.get(..count)?, want)),
        Err(Fault) => Some(want == "fault"),
    }
}

fn wrong_take(source: &mut MemorySource) -> Option<&'static str> {
    for row in TAKES.lines() {
        if is_taken(source, row) != Some(true) {
            return Some(row);
        }
    }
    None
}

// A source of "abcdefg" that gives 3 bytes a call at the most, with call 1 failing.
fn source_of(alloc: Global) -> Result<MemorySource, AllocError> {
    let bytes = Vec::from_slice(alloc, b"abcdefg")?;
    Ok(MemorySource::new(bytes, 3, Vec::from_slice(alloc, &[1])?))
}

fn wrong_of_takes(alloc: Global) -> Option<&'static str> {
    match source_of(alloc) {
        Ok(mut source) => wrong_take(&mut source),
        Err(AllocError) => Some("no memory"),
    }
}

// Each call of `give` in turn: the piece, and how many bytes were taken, or that the call failed.
const GIFTS: &str = "ab 2
cd fault
cdefg 3
fghij 2
h fault";

fn is_given(sink: &mut MemorySink, row: &str) -> Option<bool> {
    let (piece, want) = row.split_once(' ')?;
    if piece.is_empty() {
        return None;
    }
    match sink.give(piece.as_bytes()) {
        Ok(count) => Some(want.parse::<usize>().ok() == Some(count)),
        Err(Fault) => Some(want == "fault"),
    }
}

fn wrong_gift(sink: &mut MemorySink) -> Option<&'static str> {
    for row in GIFTS.lines() {
        if is_given(sink, row) != Some(true) {
            return Some(row);
        }
    }
    None
}

// A sink with room for 7 bytes that takes 3 a call at the most, with call 1 failing.
fn sink_of(alloc: Global) -> Result<MemorySink, AllocError> {
    MemorySink::new(alloc, 7, 3, Vec::from_slice(alloc, &[1])?)
}

// The first wrong call; behind them all the sink holds the bytes of those that were taken.
fn wrong_of_gifts(alloc: Global) -> Option<&'static str> {
    match sink_of(alloc) {
        Ok(mut sink) => match wrong_gift(&mut sink) {
            None if sink.bytes() != b"abcdefg".as_slice() => Some("other bytes"),
            wrong => wrong,
        },
        Err(AllocError) => Some("no memory"),
    }
}

// The text, room, most, failing call; what is held after `give_all`, and whether it was the whole.
const WHOLES: &str = "|0|1|9|
abcdef|6|6|9|abcdef
abcdef|9|1|9|abcdef
abcdef|9|4|1|abcd
abcdef|9|4|0|
abcdef|5|4|9|abcde";

// Whether a sink of this room holds what it should after `give_all`, and that is the whole where it says so.
fn holds(mut sink: MemorySink, text: &str, held: &str) -> bool {
    let given = give_all(&mut sink, text.as_bytes());
    given.is_ok() == (text == held) && sink.bytes() == held.as_bytes()
}

fn is_held(alloc: Global, row: &str) -> Option<bool> {
    let mut words = row.split('|');
    let text = words.next()?;
    let room = words.next()?.parse::<usize>().ok()?;
    let most = words.next()?.parse::<usize>().ok()?;
    let failing = words.next()?.parse::<u64>().ok()?;
    let held = words.next()?;
    if most == 0 {
        return None;
    }
    let failing = Vec::from_slice(alloc, &[failing]).ok()?;
    let sink = MemorySink::new(alloc, room, most, failing).ok()?;
    Some(holds(sink, text, held))
}

// What a source of bytes gives to a buffer of two.
fn is_streamed(source: &mut StreamSource<&[u8]>, want: &str) -> bool {
    let mut buffer = [0; 2];
    match source.take(&mut buffer) {
        Ok(count) => buffer.get(..count) == Some(want.as_bytes()),
        Err(Fault) => false,
    }
}

fn are_streamed() -> bool {
    let mut source = StreamSource::new(b"abc".as_slice());
    is_streamed(&mut source, "ab") && is_streamed(&mut source, "c") && is_streamed(&mut source, "")
}

fn is_given_to_a_list(alloc: Global) -> bool {
    let mut sink = StreamSink::new(Vec::new(alloc));
    give_all(&mut sink, b"abc").is_ok()
}

fn is_given_to_two(room: &mut [u8]) -> bool {
    let mut narrow = StreamSink::new(room);
    give_all(&mut narrow, b"abc").is_ok()
}

// Whether a sink with room for two refuses three, and holds the first two.
fn is_filled() -> bool {
    let mut room = [0u8; 2];
    !is_given_to_two(room.as_mut_slice()) && room == *b"ab"
}

fn streams(alloc: Global) -> [bool; 3] {
    [are_streamed(), is_given_to_a_list(alloc), is_filled()]
}

const DECIMALS: &str = "0
7
10
-1
-120
4611686018427387904
170141183460469231731687303715884105727
-170141183460469231731687303715884105728";

// The numbers of these decimals.
const NUMBERS: [i128; 8] = [0, 7, 10, -1, -120, 1 << 62, i128::MAX, i128::MIN];

// Whether a number is written so, behind what is there.
fn is_written(alloc: Global, text: &str, number: i128) -> Result<bool, AllocError> {
    let mut out = Vec::from_slice(alloc, b"x")?;
    write_decimal(&mut out, number)?;
    Ok(match out.as_slice() {
        [b'x', rest @ ..] => rest == text.as_bytes(),
        _ => false,
    })
}

fn is_decimal(alloc: Global, text: &str, number: i128) -> bool {
    matches!(is_written(alloc, text, number), Ok(true))
        && read_decimal(text.as_bytes()) == Some(number)
}

fn wrong_decimal(alloc: Global) -> Option<&'static str> {
    for (text, number) in DECIMALS.lines().zip(NUMBERS) {
        if !is_decimal(alloc, text, number) {
            return Some(text);
        }
    }
    if DECIMALS.lines().count() == NUMBERS.len() {
        None
    } else {
        Some("another number of rows")
    }
}

// What is no decimal: the first is empty, and two have a space.
const REFUSED: &str =
    "\n-\n-0\n00\n01\n-01\n+1\n 1\n1 \n1.\na\n1a\n--1\n/\n:\n1/\n1:\n170141183460469231731687303715884105728\n-170141183460469231731687303715884105729\n340282366920938463463374607431768211456\n-340282366920938463463374607431768211456\n9999999999999999999999999999999999999999999";

fn is_refused(_alloc: Global, row: &str) -> Option<bool> {
    Some(read_decimal(row.as_bytes()).is_none())
}

fn wrong_rows(alloc: Global) -> [Option<&'static str>; 6] {
    [
        wrong_of_fetches(alloc),
        wrong_of_takes(alloc),
        wrong_of_gifts(alloc),
        wrong_row(alloc, WHOLES, is_held),
        wrong_decimal(alloc),
        wrong_row(alloc, REFUSED, is_refused),
    ]
}

#[test]
fn inputs_and_outputs(rt: HostRuntime) {
    assert_eq!(rt; wrong_rows(rt.alloc()), [None; 6]);
}

#[test]
fn streams_give_and_take(rt: HostRuntime) {
    assert_eq!(rt; streams(rt.alloc()), [true; 3]);
}

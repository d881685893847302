//! Texts of certificates: which come back, and at which line the others are bad.

use crate::making::wrong_row;
use lucy_cert::{CertError, read, write};
use std::alloc::Global;

// The certificate that merging keeps x <= y.
const KEPT: &str = "lucy certificate 1
part closure 0
lemma 1*0 -1*4 <= -1, -1*0 1*1 <= -1, -1*1 1*5 <= -1, 1*4 -1*5 <= 0
+ 1 n0 1 n1 1 n2 1 n3
qed
lemma 1*2 -1*4 <= -1, -1*2 1*3 <= -1, -1*3 1*5 <= -1, 1*4 -1*5 <= 0
+ 1 n0 1 n1 1 n2 1 n3
qed
rup by 0 5 8 9 1 6 10 4
part cover
end
";

// The line that is bad, or 0 where the text comes back; the text, `~` for the end of a line.
const TEXTS: &str = "0|lucy certificate 1~end~
0|lucy certificate 2 live 3~part closure 0~lemma~qed~rup by~lemma 1*7 <= 1~/ 2 d0~+~+ 3 h4 5 l0~qed~rup 1*0 <= 4 by 1 2~drop 9~drop 1 3 18446744073709551615~part closure 15~part cover~end~
0|lucy certificate 1~part cover~lemma 1*1 <= -85070591730234615865843651857942052864~qed~end~
3|lucy certificate 1~part cover~lemma 1*1 <= -85070591730234615865843651857942052865~qed~end~
1|lucy certificate 3~end~
3|lucy certificate 1~part cover~drop 9~end~
3|lucy certificate 2 live 3~part cover~drop 9 9~end~
3|lucy certificate 2 live 3~part cover~drop~end~
3|lucy certificate 1~part cover~part closure 1~end~
2|lucy certificate 1~part closure 16~end~
3|lucy certificate 1~part cover~lemma 2*0 4*1 <= 3~qed~end~
3|lucy certificate 1~part cover~lemma 1*1 1*0 <= 3~qed~end~
4|lucy certificate 1~part cover~lemma~+ 0 n0~qed~end~
4|lucy certificate 1~part cover~lemma~+ 1  n0~qed~end~
3|lucy certificate 1~part cover~lemma ~qed~end~
4|lucy certificate 1~part cover~lemma~end~
3|lucy certificate 1~end~~";

fn text_of(alloc: Global, row: &str) -> Option<String> {
    let mut text = String::new(alloc);
    for line in row.split('~') {
        if !text.is_empty() {
            text.push_str("\n").ok()?;
        }
        text.push_str(line).ok()?;
    }
    Some(text)
}

// The line that is bad, or 0 where what is read is written as the text again.
fn bad_line(alloc: Global, text: &str) -> Option<u64> {
    match read(alloc, text.as_bytes()) {
        Ok(certificate) => {
            let written = write(alloc, &certificate).ok()?;
            if written.as_slice() == text.as_bytes() {
                Some(0)
            } else {
                None
            }
        }
        Err(CertError::BadLine(line)) => Some(line),
        Err(_) => None,
    }
}

fn is_told(alloc: Global, row: &str) -> Option<bool> {
    let (line, row) = row.split_once('|')?;
    let text = text_of(alloc, row)?;
    Some(bad_line(alloc, text.as_str())? == line.parse::<u64>().ok()?)
}

// Whether each front of a text that ends before a line's end is bad at that line.
fn fronts_are_bad(alloc: Global, text: &str) -> Option<bool> {
    let mut front = String::new(alloc);
    let mut line = 1u64;
    for letter in text.chars() {
        if bad_line(alloc, front.as_str())? != line {
            return Some(false);
        }
        front.push(letter).ok()?;
        if letter == '\n' {
            line = line.wrapping_add(1);
        }
    }
    Some(bad_line(alloc, front.as_str())? == 0)
}

#[test]
fn texts_come_back_or_are_bad_at_a_line(rt: HostRuntime) {
    assert_eq!(rt; wrong_row(rt.alloc(), TEXTS, is_told), None);
}

#[test]
fn fronts_are_bad_at_their_last_line(rt: HostRuntime) {
    assert_eq!(rt; fronts_are_bad(rt.alloc(), KEPT), Some(true));
}

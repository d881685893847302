//! Words with the answers that are wanted.
use crate::{WordsError, command, help};
use std::alloc::{AllocError, Global};

// Words, each row's answer behind them: the first bad place, or `ok`. `~` is the empty word.
const ROWS: &str = "|0
check p|ok
check|1
check p q|2
check ~|1
check -|1
check -p|1
certify p|ok
certify|1
certify p q|2
verify p c|ok
verify|1
verify p|2
verify p -|2
verify p c x|3
label p|ok
label p 5 7|ok
label|1
label p q|2
label p 5|3
label p 5 x|3
label p 5 7 x|4
label p 0 0|ok
label p 18446744073709551615 1000|ok
label p 18446744073709551616 1000|2
label p 5 1001|3
label p 05 7|2
label p -0 7|2
label p -1 7|2
label p +1 7|2
label p 1a 7|2
label p ~ 7|2
label p 5 ~|3
replay p c w s|ok
replay p - w s|ok
replay|1
replay p|2
replay p c|3
replay p c w|4
replay p -c w s|2
replay p - - s|3
replay p - w -|4
replay p c w s x|5
run p c w 5|ok
run p - w 5|ok
run|1
run p|2
run p -|3
run p - w|4
run p - w 05|4
run p - w 5 x|5
run p - w 18446744073709551615|ok
run p - w 18446744073709551616|4
make-plan 7 3|ok
make-plan|1
make-plan 7|2
make-plan 7 1|ok
make-plan 7 32|ok
make-plan 7 0|2
make-plan 7 33|2
make-plan 7 3 x|3
make-work p 9 4 50|ok
make-work|1
make-work p|2
make-work p 9|3
make-work p 9 4|4
make-work p 9 1 0|ok
make-work p 9 16 4096|ok
make-work p 9 0 50|3
make-work p 9 17 50|3
make-work p 9 4 4097|4
make-work p 9 4 50 x|5
make-work - 9 4 50|1
make-steps p w 1 200|ok
make-steps|1
make-steps p|2
make-steps p w|3
make-steps p w 1|4
make-steps p w 1 0|ok
make-steps p w 1 1000|ok
make-steps p w 1 1001|4
make-steps p w 1 200 x|5
drill 7 3|ok
drill|1
drill 7|2
drill 7 0|2
drill 7 33|2
drill 7 3 x|3
help|ok
help x|1
--help|0
--version|0
Check p|0
chec|0
~|0
p check|0";

const HELP: &str = "lucy check PLAN
lucy certify PLAN
lucy verify PLAN CERT
lucy label PLAN
lucy label PLAN SEED LENGTH
lucy replay PLAN CERT WORK STEPS
lucy run PLAN CERT WORK SEED
lucy make-plan SEED SIZE
lucy make-work PLAN SEED REPLICAS CALLS
lucy make-steps PLAN WORK SEED ROUNDS
lucy drill SEED SIZE
lucy help
";

fn words_of(alloc: Global, text: &str) -> Result<Vec<String>, AllocError> {
    let mut words = Vec::new(alloc);
    for word in text.split_whitespace() {
        let word = if word == "~" { "" } else { word };
        words.push(String::from_str(alloc, word)?)?;
    }
    Ok(words)
}

fn is_answer(answer: &str, bad: Option<usize>) -> bool {
    match bad {
        None => answer == "ok",
        Some(place) => answer.parse() == Ok(place),
    }
}

fn is_right(alloc: Global, row: &str) -> Option<bool> {
    let (text, answer) = row.split_once('|')?;
    let words = words_of(alloc, text).ok()?;
    match command(alloc, words.as_slice()) {
        Ok(_) => Some(is_answer(answer, None)),
        Err(WordsError::BadWords(place)) => Some(is_answer(answer, Some(place))),
        Err(WordsError::OutOfMemory) => None,
    }
}

fn first_wrong(alloc: Global) -> Option<&'static str> {
    for row in ROWS.lines() {
        if is_right(alloc, row) != Some(true) {
            return Some(row);
        }
    }
    None
}

#[test]
fn words_have_their_answers(rt: HostRuntime) {
    assert_eq!(rt; first_wrong(rt.alloc()), None);
}

#[test]
fn the_help_has_its_lines(rt: HostRuntime) -> Result<(), AllocError> {
    let text = help(rt.alloc())?;
    assert_eq!(rt; text.as_slice(), HELP.as_bytes());
    Ok(())
}

use crate::making::wrong_row;
use lucy_fraction::{Fraction, Wide};
use std::alloc::Global;
use std::cmp::Ordering;

// A whole number, and what is made of it. A fraction is written `NUMERATOR/DENOMINATOR`, and `wide` where there is none.
const WHOLES: &str = "0 0/1
4611686018427387904 4611686018427387904/1
-4611686018427387904 -4611686018427387904/1
4611686018427387905 wide
-4611686018427387905 wide
9223372036854775807 wide
-9223372036854775808 wide";

// Two fractions, and their sum, difference, product and quotient in lowest terms.
const ROWS: &str = "1/2 1/3 5/6 1/6 1/6 3/2
1/6 1/3 1/2 -1/6 1/18 1/2
-3/4 3/4 0/1 -3/2 -9/16 -1/1
2/-6 -10/4 -17/6 13/6 5/6 2/15
4611686018427387904/1 1/1 wide 4611686018427387903/1 4611686018427387904/1 4611686018427387904/1
-4611686018427387904/1 1/1 -4611686018427387903/1 wide -4611686018427387904/1 -4611686018427387904/1
4611686018427387903/1 1/1 4611686018427387904/1 4611686018427387902/1 4611686018427387903/1 4611686018427387903/1
4611686018427387904/1 1/2 wide wide 2305843009213693952/1 wide
1/4611686018427387904 2/1 wide wide 1/2305843009213693952 wide
1/4611686018427387904 1/2 2305843009213693953/4611686018427387904 -2305843009213693951/4611686018427387904 wide 1/2305843009213693952
1/4611686018427387904 1/4611686018427387904 1/2305843009213693952 0/1 wide 1/1
4611686018427387904/3 3/4611686018427387904 wide wide 1/1 wide
4611686018427387904/1 -1/4611686018427387904 wide wide -1/1 wide
-4611686018427387903/1 1/1 -4611686018427387902/1 -4611686018427387904/1 -4611686018427387903/1 -4611686018427387903/1
-4611686018427387904/1 -1/1 wide -4611686018427387903/1 4611686018427387904/1 4611686018427387904/1
2147483648/1 2147483648/1 4294967296/1 0/1 4611686018427387904/1 1/1
2147483648/1 2147483649/1 4294967297/1 -1/1 wide 2147483648/2147483649
1/2147483648 1/2147483648 1/1073741824 0/1 1/4611686018427387904 1/1
1/2147483648 1/2147483649 wide wide wide 2147483649/2147483648
2305843009213693952/1 1/2 wide 4611686018427387903/2 1152921504606846976/1 4611686018427387904/1
1/2305843009213693952 2/1 wide -4611686018427387903/2305843009213693952 1/1152921504606846976 1/4611686018427387904";

// Two fractions with what stands between them.
const COMPARISONS: &str = "1/2 > 1/3
-1/2 < 1/3
-1/2 < -1/3
1/2 = 2/4
0/5 = 0/-7
4611686018427387904/3 > 4611686018427387903/3
-4611686018427387904/1 < 1/4611686018427387904";

// The fraction of a word, by whole numbers and a division.
fn read(word: &str) -> Option<Fraction> {
    let (top, bottom) = word.split_once('/')?;
    let bottom = Fraction::whole(bottom.parse::<i64>().ok()?).ok()?;
    if bottom.numerator() == 0 {
        return None;
    }
    let top = Fraction::whole(top.parse::<i64>().ok()?).ok()?;
    top.div(bottom).ok()
}

// Whether an answer is the one of a word, by its numerator and its denominator.
fn is_told(answer: Result<Fraction, Wide>, word: &str) -> bool {
    match (answer, word.split_once('/')) {
        (Ok(fraction), Some((top, bottom))) => {
            top.parse::<i64>().ok() == Some(fraction.numerator())
                && bottom.parse::<u64>().ok() == Some(fraction.denominator())
        }
        (Err(Wide), None) => word == "wide",
        _ => false,
    }
}

fn is_whole(_alloc: Global, row: &str) -> Option<bool> {
    let (number, word) = row.split_once(' ')?;
    let number = number.parse::<i64>().ok()?;
    Some(is_told(Fraction::whole(number), word))
}

fn is_counted(_alloc: Global, row: &str) -> Option<bool> {
    let mut words = row.split(' ');
    let p = read(words.next()?)?;
    let q = read(words.next()?)?;
    let sum = is_told(p.add(q), words.next()?);
    let difference = is_told(p.sub(q), words.next()?);
    let product = is_told(p.mul(q), words.next()?);
    if q.numerator() == 0 {
        return None;
    }
    let quotient = is_told(p.div(q), words.next()?);
    Some(sum && difference && product && quotient)
}

fn sign(ordering: Ordering) -> &'static str {
    match ordering {
        Ordering::Less => "<",
        Ordering::Equal => "=",
        Ordering::Greater => ">",
    }
}

fn is_ordered(_alloc: Global, row: &str) -> Option<bool> {
    let mut words = row.split(' ');
    let p = read(words.next()?)?;
    let want = words.next()?;
    let q = read(words.next()?)?;
    Some(sign(p.compare(q)) == want)
}

fn wrong_rows(alloc: Global) -> [Option<&'static str>; 3] {
    [
        wrong_row(alloc, WHOLES, is_whole),
        wrong_row(alloc, ROWS, is_counted),
        wrong_row(alloc, COMPARISONS, is_ordered),
    ]
}

#[test]
fn fractions(rt: HostRuntime) {
    assert_eq!(rt; wrong_rows(rt.alloc()), [None; 3]);
}

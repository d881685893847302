//! The numbers of a line.

ghost use Rattle.std.specs.Prelude.{◌≡◌, ◌^◌, ◌≤◌, ◌+◌, ◌*◌, ◌<◌, min, option_map, IfOk};
ghost use Rattle.lucy_io.specs.Decimals.{natural_of, digits_on};
ghost use Rattle.lucy_calls.specs.Numbers as numbers;

use crate::error::CallsError;
use crate::fields::is_word;
use lucy_io::read_decimal;

const MOST: u128 = 1 << 64;

// The number that a digit makes behind those before it, or 2^64 where that is less.
fn digit_added(value: u128, digit: u32) -> u128
    requires value { value ≤ 2 ^ 64 }
    requires digit { digit < 10 }
    ensures { result ≡ min (value * 10 + digit) (2 ^ 64) }
{
    (value * 10 + u128::from(digit)).min(MOST)
}

fn read_digits(text: &[u8]) -> Option<u128>
    ensures { result ≡ option_map (λ n. min n (2 ^ 64)) (digits_on 0 text.now) }
{
    let mut value = 0u128;
    for byte in text {
        let digit = char::from(*byte).to_digit(10)?;
        value = digit_added(value, digit);
    }
    Some(value)
}

// A canonical decimal without a sign, or 2^64 where that is less.
fn read_natural(text: &[u8]) -> Option<u128>
    ensures { result ≡ numbers.natural text.now }
{
    match text {
        [] => None,
        [b'0', _, ..] => None,
        _ => read_digits(text),
    }
}

/// A number without a sign, or 2^64 where that is less. `BadLine` where the text is no canonical
/// decimal without a sign.
#[tactic(auto, unfolding(crate::specs::Numbers::number))]
pub fn read_number(line: u64, text: &[u8]) -> Result<u128, CallsError>
    ensures { result ≡ numbers.number line text.now }
{
    match read_natural(text) {
        Some(number) => Ok(number),
        None => Err(CallsError::BadLine(line)),
    }
}

/// A number behind a word. `BadLine` where the word is not the one that is wanted.
#[tactic(auto, unfolding(crate::specs::Numbers::number_behind))]
pub fn read_number_behind(
    wanted: &[u8],
    line: u64,
    word: &[u8],
    digits: &[u8],
) -> Result<u128, CallsError>
    ensures { result ≡ numbers.number_behind wanted.now line word.now digits.now }
{
    if is_word(word, wanted) {
        read_number(line, digits)
    } else {
        Err(CallsError::BadLine(line))
    }
}

/// A replica's number. `BadReplica` where there is no such replica.
#[tactic(auto, unfolding(crate::specs::Numbers::below))]
pub fn below(replicas: u32, line: u64, replica: u128) -> Result<u32, CallsError>
    ensures value { result ≡ numbers.below replicas line replica }
    ensures within { IfOk result (λ r. r < replicas) }
{
    if replica < u128::from(replicas) {
        Ok(replica as u32)
    } else {
        Err(CallsError::BadReplica(line))
    }
}

/// A canonical decimal from `lo` to `hi`.
#[tactic(auto, unfolding(crate::specs::Numbers::between))]
pub fn read_between(text: &[u8], lo: i64, hi: i64) -> Option<i64>
    ensures { result ≡ numbers.between lo hi text.now }
{
    let number = i64::try_from(read_decimal(text)?).ok()?;
    if lo <= number && number <= hi {
        Some(number)
    } else {
        None
    }
}

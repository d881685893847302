//! Classes of bytes, and the number that digits spell.

ghost use Rattle.std.specs.Prelude.{◌≡◌, ◌<◌, ◌≤◌, ◌^◌, length, slice_index, true, IfSome, IfNone};
ghost use Rattle.lucy_lexer.specs.Bytes as spec;

/// A class of bytes.
#[derive(Clone, Copy, Debug)]
pub enum Class {
    /// Space, tab, CR and LF.
    Blank,
    /// `0` to `9`.
    Digit,
    /// `A` to `Z` and `a` to `z`.
    Letter,
    /// What a name goes on with: letters, digits and `_`.
    WordByte,
    /// What a comment goes on with: all but LF.
    InLine,
}

/// Whether a byte is of the class.
pub fn is_in(class: Class, b: u8) -> bool
    ensures { result ≡ spec.is_in class b }
{
    match class {
        Class::Blank => b == b' ' || b == b'\t' || b == b'\r' || b == b'\n',
        Class::Digit => b.is_ascii_digit(),
        Class::Letter => b.is_ascii_alphabetic(),
        Class::WordByte => b.is_ascii_alphanumeric() || b == b'_',
        Class::InLine => b != b'\n',
    }
}

/// How many bytes from the front on are of the class.
pub fn run(class: Class, text: &[u8]) -> usize
    ensures value { result ≡ spec.run class text.now }
    ensures within { result ≤ length text.now }
    ensures moves { 0 < length text.now → spec.is_in class (slice_index text.now 0) ≡ true → 0 < result }
{
    let mut end = 0;
    while end < text.len() && is_in(class, text[end]) {
        end += 1;
    }
    end
}

/// The largest number: 2^62.
const LARGEST: u128 = 4_611_686_018_427_387_904;

/// The number that the digits spell, if it is at most 2^62.
pub fn number(digits: &[u8]) -> Option<u64>
    ensures some { IfSome result (λ n. n ≡ spec.value_of digits.now) }
    ensures bound { IfSome result (λ n. n ≤ 2 ^ 62) }
    ensures none { IfNone result (2 ^ 62 < spec.value_of digits.now) }
{
    let mut value = 0u64;
    for digit in digits {
        let next = 10 * u128::from(value) + u128::from(digit.saturating_sub(b'0'));
        if next > LARGEST {
            return None;
        }
        value = next as u64;
    }
    Some(value)
}

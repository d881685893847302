ghost use Rattle.std.specs.Prelude.{◌≡◌, ◌++◌, ◌<◌, ◌+◌, ◌*◌, ◌^◌, is_ok, if◌then◌else◌};
ghost use Rattle.std.specs.Fmt.{signed_decimal};
ghost use Rattle.std.specs.Option.{SomeIff};
ghost use Rattle.lucy_io.specs.Decimals.{below, digits_on, natural_of, negative_of, positive_of, number_of};

use std::alloc::AllocError;

/// Appends the canonical decimal text of `value`. Where memory is wanting nothing is appended.
pub fn write_decimal(out: &mut Vec<u8>, value: i128) -> Result<(), AllocError>
    ensures { out.new.items ≡ (if is_ok result then out.old.items ++ signed_decimal value else out.old.items) }
{
    let text = value.to_string(*out.allocator())?;
    out.extend_from_slice(text.as_bytes())
}

// The number that a digit makes behind those before it.
fn digit_added(value: u128, digit: u32) -> Option<u128>
    ensures { SomeIff result (value * 10 + digit < 2 ^ 128) (value * 10 + digit) }
{
    value.checked_mul(10)?.checked_add(u128::from(digit))
}

fn read_digits(text: &[u8]) -> Option<u128>
    ensures { result ≡ below (2 ^ 128) (digits_on 0 text.now) }
{
    let mut value = 0u128;
    for byte in text {
        let digit = char::from(*byte).to_digit(10)?;
        value = digit_added(value, digit)?;
    }
    Some(value)
}

fn read_natural(text: &[u8]) -> Option<u128>
    ensures { result ≡ below (2 ^ 128) (natural_of text.now) }
{
    match text {
        [] => None,
        [b'0', _, ..] => None,
        _ => read_digits(text),
    }
}

fn read_negative(digits: &[u8]) -> Option<i128>
    ensures { result ≡ negative_of (natural_of digits.now) }
{
    let size = read_natural(digits)?;
    let less = i128::try_from(size.checked_sub(1)?).ok()?;
    Some(-1 - less)
}

fn read_positive(digits: &[u8]) -> Option<i128>
    ensures { result ≡ positive_of (natural_of digits.now) }
{
    i128::try_from(read_natural(digits)?).ok()
}

/// The number that a canonical decimal text writes: an optional `-`, then digits with no leading 0, and no `-0`.
/// `None` exactly where the text is no such text or its number is not within 128 bits.
pub fn read_decimal(text: &[u8]) -> Option<i128>
    ensures { result ≡ number_of text.now }
{
    match text {
        [] => None,
        [b'-', digits @ ..] => read_negative(digits),
        _ => read_positive(text),
    }
}

//! Texts, counts and numbers, written behind what is there.

ghost use Rattle.std.specs.Prelude.{◌≡◌, ◌++◌, OnOk, decimal};
ghost use Rattle.std.specs.Fmt.{signed_decimal};

use crate::write_decimal;
use std::alloc::AllocError;

/// Appends a text.
pub fn write_text(out: &mut Vec<u8>, text: &str) -> Result<(), AllocError>
    ensures { OnOk result (out.new.items ≡ out.old.items ++ text.now) }
{
    out.extend_from_slice(text.as_bytes())
}

/// Appends a number, in decimal.
pub fn write_number(out: &mut Vec<u8>, number: i64) -> Result<(), AllocError>
    ensures { OnOk result (out.new.items ≡ out.old.items ++ signed_decimal number) }
{
    write_decimal(out, i128::from(number))
}

/// Appends a count, in decimal.
pub fn write_count(out: &mut Vec<u8>, count: u64) -> Result<(), AllocError>
    ensures { OnOk result (out.new.items ≡ out.old.items ++ decimal count) }
{
    let text = count.to_string(*out.allocator())?;
    out.extend_from_slice(text.as_bytes())
}

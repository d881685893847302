//! Numbers, parts of an atom, bounds and references, as a piece of a line has them.

ghost use Rattle.std.specs.Prelude.{◌≡◌, ◌^◌};
ghost use Rattle.lucy_cert.specs.Tokens as spec;

use crate::cutting::cut;
use lucy_clauses::{Part, Ref};
use lucy_io::read_decimal;

/// The greatest size of a number in a certificate.
const MOST_SIZE: u128 = 1 << 126;

/// The bound of an atom, and whether another atom follows.
#[derive(Clone, Copy)]
pub struct Bound {
    pub bound: i128,
    pub more: bool,
}

/// A number of a clause.
pub fn read_u64(text: &[u8]) -> Option<u64>
    ensures { result ≡ spec.count_of (2 ^ 64) text.now }
{
    u64::try_from(read_decimal(text)?).ok()
}

/// A number of a variable or of a reference.
pub fn read_u32(text: &[u8]) -> Option<u32>
    ensures { result ≡ spec.count_of (2 ^ 32) text.now }
{
    u32::try_from(read_decimal(text)?).ok()
}

/// A number of a segment.
pub fn read_segment(text: &[u8]) -> Option<u32>
    ensures { result ≡ spec.count_of 16 text.now }
{
    let segment = read_u32(text)?;
    if segment < 16 { Some(segment) } else { None }
}

fn read_size(text: &[u8]) -> Option<i128>
    ensures { result ≡ spec.size_of text.now }
{
    let number = read_decimal(text)?;
    if number.unsigned_abs() <= MOST_SIZE {
        Some(number)
    } else {
        None
    }
}

/// A multiplier or a divisor.
pub fn read_positive(text: &[u8]) -> Option<i128>
    ensures { result ≡ spec.positive_of text.now }
{
    let number = read_size(text)?;
    if 0 < number { Some(number) } else { None }
}

/// A factor with its variable.
pub fn read_part(text: &[u8]) -> Option<Part>
    ensures { result ≡ spec.part_of text.now }
{
    let (factor, variable) = cut(text, b'*')?;
    let by = read_size(factor)?;
    let variable = read_u32(variable)?;
    Some(Part { variable, by })
}

fn bound_by(more: bool, text: &[u8]) -> Option<Bound>
    ensures { result ≡ spec.bound_by more text.now }
{
    let bound = read_size(text)?;
    Some(Bound { bound, more })
}

/// The bound of an atom, with a comma behind it where another atom follows.
pub fn read_bound(text: &[u8]) -> Option<Bound>
    ensures { result ≡ spec.bound_of text.now }
{
    match cut(text, b',') {
        None => bound_by(false, text),
        Some((number, [])) => bound_by(true, number),
        Some(_) => None,
    }
}

fn ref_by(kind: u8, number: u32) -> Option<Ref>
    ensures { result ≡ spec.ref_by kind number }
{
    match kind {
        b'n' => Some(Ref::Negated(number)),
        b'l' => Some(Ref::Low(number)),
        b'h' => Some(Ref::High(number)),
        b'd' => Some(Ref::Derived(number)),
        _ => None,
    }
}

/// A reference of a line of a derivation.
pub fn read_ref(text: &[u8]) -> Option<Ref>
    ensures { result ≡ spec.ref_of text.now }
{
    match text {
        [] => None,
        [kind, digits @ ..] => {
            let number = read_u32(digits)?;
            ref_by(*kind, number)
        }
    }
}

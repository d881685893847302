//! Whether parts are those of an atom.

ghost use Rattle.std.specs.Prelude.{◌≡◌, ◌==◌};
ghost use Rattle.lucy_clauses.specs.Dividing as divisors;
ghost use Rattle.lucy_clauses.specs.Parts.{ascends, none_zero, all_within};
ghost use Rattle.lucy_clauses.specs.Normal.{is_normal};

use crate::dividing::common_divisor;
use crate::gathering::is_zero;
use crate::numbers::is_within;
use crate::parts::Part;

fn ascend(parts: &[Part]) -> bool
    ensures { result ≡ ascends parts.now }
{
    let mut least: u64 = 0;
    for part in parts {
        let variable = u64::from(part.variable);
        if variable < least {
            return false;
        }
        least = variable + 1;
    }
    true
}

fn are_nonzero(parts: &[Part]) -> bool
    ensures { result ≡ none_zero parts.now }
{
    for part in parts {
        if is_zero(*part) {
            return false;
        }
    }
    true
}

fn are_within(parts: &[Part]) -> bool
    ensures { result ≡ all_within parts.now }
{
    for part in parts {
        if !is_within(part.by) {
            return false;
        }
    }
    true
}

fn are_coprime(parts: &[Part]) -> bool
    ensures { result ≡ (divisors.common_divisor 0 parts.now == 1) }
{
    common_divisor(parts) == 1
}

/// True exactly where there is a part, the variables ascend, no factor is 0 or above 2^126 in size, and the factors
/// have no common divisor but 1. Takes no memory.
pub fn is_normal(parts: &[Part]) -> bool
    ensures { result ≡ is_normal parts.now }
{
    if parts.is_empty() || !ascend(parts) {
        return false;
    }
    if !are_nonzero(parts) || !are_within(parts) {
        return false;
    }
    are_coprime(parts)
}

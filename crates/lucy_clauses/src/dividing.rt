ghost use Rattle.std.specs.Prelude.{◌≡◌, ◌<◌, ◌^◌, ◌&&◌, pos, int_div, int_lt, true, map, unsigned_abs, vec_len};
ghost use Rattle.std.specs.List.{list_all};
ghost use Rattle.lucy_clauses.specs.Sums.{negative_part};
ghost use Rattle.lucy_clauses.specs.Parts.{is_within, all_within};
ghost use Rattle.lucy_clauses.specs.Normal.{IsCommonDivisor};
ghost use Rattle.lucy_clauses.specs.Dividing.{divided};
ghost use Rattle.lucy_clauses.specs.Lines.{divides_part};

use crate::numbers::{gcd, negative};
use crate::parts::Part;

/// The greatest common divisor of the factors. Stops at 1.
pub fn common_divisor(parts: &[Part]) -> u128
    ensures { IsCommonDivisor parts.now result }
{
    let mut common = 0;
    for part in parts {
        if common == 1 {
            return 1;
        }
        common = gcd(common, part.by.unsigned_abs());
    }
    common
}

fn quotient(number: i128, by: u128) -> i128
    requires positive { 0 < by }
    requires within { by < 2 ^ 127 }
    ensures { result ≡ int_div number (pos by) }
{
    number / (by as i128)
}

fn divided(part: Part, by: u128) -> Part
    requires positive { 0 < by }
    requires within { by < 2 ^ 127 }
    ensures { result ≡ divided by part }
{
    Part {
        variable: part.variable,
        by: quotient(part.by, by),
    }
}

fn divides_part(by: u128, part: Part) -> bool
    requires { 0 < by }
    ensures { result ≡ divides_part by part }
{
    part.by.unsigned_abs() % by == 0
}

fn divides_all(by: u128, parts: &[Part]) -> bool
    requires { 0 < by }
    ensures { result ≡ list_all (divides_part by) parts.now }
{
    for part in parts {
        if !divides_part(by, *part) {
            return false;
        }
    }
    true
}

/// True exactly where the number is at least 1 and divides each factor. Takes no memory.
pub fn is_divisor(by: i128, parts: &[Part]) -> bool
    ensures { result ≡ (int_lt (pos 0) by && list_all (divides_part (unsigned_abs by)) parts.now) }
{
    by > 0 && divides_all(by.unsigned_abs(), parts)
}

/// Divides each factor.
pub fn divide_all(parts: &mut Vec<Part>, by: u128)
    requires positive { 0 < by }
    requires within { by < 2 ^ 127 }
    ensures { parts.new.items ≡ map (divided by) parts.old.items }
{
    for i in 0..parts.len() {
        parts[i] = divided(parts[i], by);
    }
}

fn negative_part(part: Part) -> Part
    requires { is_within part.by ≡ true }
    ensures { result ≡ negative_part part }
{
    Part {
        variable: part.variable,
        by: negative(part.by),
    }
}

/// Gives each factor the other sign.
pub fn negate_all(parts: &mut Vec<Part>)
    requires { all_within parts.old.items ≡ true }
    ensures { parts.new.items ≡ map negative_part parts.old.items }
{
    for i in 0..parts.len() {
        parts[i] = negative_part(parts[i]);
    }
}

//! Greatest common divisors, and two numbers in lowest terms.
ghost use Rattle.std.specs.Prelude.{◌<◌};
ghost use Rattle.std.specs.Int.{IsGcd};
ghost use Rattle.lucy_fraction.specs.Rationals.{IsLowest};

// The greatest common divisor of numbers of 64 bits, whose remainders cost less.
fn gcd_of_narrow(a: u64, b: u64) -> u64
    ensures { IsGcd a b result }
{
    if b == 0 { a } else { gcd_of_narrow(b, a % b) }
}

// The greatest common divisor, by remainders of 64 bits from where both numbers fit.
fn gcd(a: u128, b: u128) -> u128
    ensures { IsGcd a b result }
{
    if b == 0 {
        a
    } else if a <= u64::MAX as u128 && b <= u64::MAX as u128 {
        gcd_of_narrow(a as u64, b as u64) as u128
    } else {
        gcd(b, a % b)
    }
}

/// The two numbers divided by their greatest common divisor, which is not looked for where one is known: 0 over any
/// number is 0 over 1, and what is over 1 stays.
pub fn lowest(size: u128, bottom: u128) -> (u128, u128)
    requires { 0 < bottom }
    ensures { IsLowest size bottom result.0 result.1 }
{
    if size == 0 {
        (0, 1)
    } else if bottom == 1 {
        (size, 1)
    } else {
        let common = gcd(size, bottom);
        (size / common, bottom / common)
    }
}

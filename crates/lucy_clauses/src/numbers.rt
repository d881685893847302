ghost use Rattle.std.specs.Prelude.{◌≡◌, ◌<◌, ◌≤◌, ◌^◌, ◌+ℤ◌, ◌-ℤ◌, ◌*ℤ◌, neg_ℤ, pos, true, unsigned_abs};
ghost use Rattle.std.specs.Int.{int_div_euclid, IsGcd};
ghost use Rattle.lucy_clauses.specs.Parts.{is_within};
ghost use Rattle.lucy_clauses.specs.Lines.{fit};

/// The limit of numbers in a certificate.
pub const MOST_SIZE: u128 = 1 << 126;

/// True exactly where the number is within the limit of 2^126.
pub fn is_within(number: i128) -> bool
    ensures { result ≡ is_within number }
{
    number.unsigned_abs() <= MOST_SIZE
}

/// The sum of two numbers, where it is within the limit of 2^126.
pub fn sum(a: i128, b: i128) -> i128
    requires { is_within (a +ℤ b) ≡ true }
    ensures { result ≡ a +ℤ b }
{
    a + b
}

// The number, where it is within the limit.
fn fitted(number: i128) -> Option<i128>
    ensures { result ≡ fit number }
{
    if is_within(number) {
        Some(number)
    } else {
        None
    }
}

/// The sum of two numbers. `None` exactly where it passes the limit of 2^126.
pub fn sum_within(a: i128, b: i128) -> Option<i128>
    ensures { result ≡ fit (a +ℤ b) }
{
    match a.checked_add(b) {
        None => None,
        Some(sum) => fitted(sum),
    }
}

/// The product of two numbers. `None` exactly where it passes the limit of 2^126.
pub fn product_within(a: i128, b: i128) -> Option<i128>
    ensures { result ≡ fit (a *ℤ b) }
{
    match a.checked_mul(b) {
        None => None,
        Some(product) => fitted(product),
    }
}

/// The number with the other sign.
pub fn negative(number: i128) -> i128
    requires { is_within number ≡ true }
    ensures { result ≡ neg_ℤ number }
{
    -number
}

/// One less than the number with the other sign.
pub fn below_negative(number: i128) -> i128
    ensures { result ≡ neg_ℤ number -ℤ pos 1 }
{
    !number
}

/// The quotient, rounded down.
pub fn floor(number: i128, by: u128) -> i128
    requires positive { 0 < by }
    requires within { by < 2 ^ 127 }
    ensures { result ≡ int_div_euclid number (pos by) }
{
    number.div_euclid(by as i128)
}

/// The greatest common divisor.
pub fn gcd(a: u128, b: u128) -> u128
    ensures { IsGcd a b result }
{
    if b == 0 { a } else { gcd(b, a % b) }
}

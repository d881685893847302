ghost use Rattle.std.specs.Prelude.{◌≡◌, ◌≢◌, ◌<◌, ◌≤◌, ◌^◌, ◌*◌, pos, neg_ℤ, ◌*ℤ◌, ◌+ℤ◌, unsigned_abs, int_lt, IsTrue, ◌↔◌};
ghost use Rattle.std.specs.Ordering.{int_cmp};
ghost use Rattle.lucy_fraction.specs.Rationals.{Ratio, ratio, IsReduced, IsWithin, Gives, sum, opposite, difference, product, inverse, quotient, whole_ratio, signed_by};

use crate::reducing::lowest;
use std::cmp::Ordering;
use std::marker::Model;

// The greatest size of a numerator and of a denominator.
const LIMIT: u128 = 1 << 62;

/// The exact result is past the limit: its reduced form has a numerator or a denominator above 2^62 in size.
#[derive(Clone, Copy, Debug, PartialEq, Eq)]
pub struct Wide;

/// A fraction in its reduced form: the denominator is above 0, numerator and denominator have no common divisor
/// above 1, and both are at most 2^62 in size. So equal fractions have equal parts.
///
/// Intermediate numbers fit 128 bits: a product of two parts is at most 2^124 in size, and a sum of two such products
/// at most 2^125.
#[derive(Clone, Copy, Debug, PartialEq, Eq)]
pub struct Fraction {
    numerator: i64,
    denominator: u64,
}

impl Model for Fraction {
    ghost Value = { Ratio };

    ghost view = { λ f. record { top = f.numerator; bottom = f.denominator } };

    ghost inverse = { λ r. record { numerator = r.top; denominator = r.bottom } };

    ghost invariant = { λ f. IsReduced (ratio f.numerator f.denominator) × IsWithin (ratio f.numerator f.denominator) };
}

// The number of that size, below 0 or not.
fn signed(below_zero: bool, size: u64) -> i64
    requires { size ≤ 2 ^ 62 }
    ensures { result ≡ signed_by below_zero size }
{
    if below_zero {
        -(size as i64)
    } else {
        size as i64
    }
}

fn negated(numerator: i64) -> i64
    requires { unsigned_abs numerator ≤ 2 ^ 62 }
    ensures { result ≡ neg_ℤ numerator }
{
    -numerator
}

fn is_below_zero(number: i128) -> bool
    ensures { result ≡ int_lt number (pos 0) }
{
    number < 0
}

fn is_zero(number: i64) -> bool
    ensures { IsTrue result ↔ (number ≡ pos 0) }
{
    number == 0
}

// The number of that size with the sign of another.
fn with_sign_of(other: i64, size: u64) -> i64
    requires { size ≤ 2 ^ 62 }
    ensures { result ≡ signed_by (int_lt other (pos 0)) size }
{
    signed(other < 0, size)
}

fn size_of(number: i64) -> u64
    ensures { result ≡ unsigned_abs number }
{
    number.unsigned_abs()
}

fn is_within(size: u128, denominator: u128) -> bool
    ensures { IsTrue result ↔ ((size ≤ 2 ^ 62) × (denominator ≤ 2 ^ 62)) }
{
    size <= LIMIT && denominator <= LIMIT
}

// The fraction of parts in lowest terms.
fn in_lowest_terms(below_zero: bool, size: u128, denominator: u128) -> Fraction
    requires within { (size ≤ 2 ^ 62) × (denominator ≤ 2 ^ 62) }
    requires reduced { IsReduced (ratio (signed_by below_zero size) denominator) }
    ensures { result ≡ ratio (signed_by below_zero size) denominator }
{
    let numerator = signed(below_zero, size as u64);
    Fraction {
        numerator,
        denominator: denominator as u64,
    }
}

// The reduced form of a ratio, where it is within the limit.
fn reduced(top: i128, bottom: u128) -> Result<Fraction, Wide>
    requires { 0 < bottom }
    ensures { Gives result (ratio top bottom) }
{
    let (size, denominator) = lowest(top.unsigned_abs(), bottom);
    let below_zero = is_below_zero(top);
    if is_within(size, denominator) {
        Ok(in_lowest_terms(below_zero, size, denominator))
    } else {
        Err(Wide)
    }
}

// A numerator times a denominator.
fn times(numerator: i64, denominator: u64) -> i128
    requires numerator { unsigned_abs numerator ≤ 2 ^ 62 }
    requires denominator { denominator ≤ 2 ^ 62 }
    ensures value { result ≡ numerator *ℤ pos denominator }
    ensures size { unsigned_abs result ≤ 2 ^ 124 }
{
    i128::from(numerator) * i128::from(denominator)
}

// The product of two numerators.
fn top_product(a: i64, b: i64) -> i128
    requires a { unsigned_abs a ≤ 2 ^ 62 }
    requires b { unsigned_abs b ≤ 2 ^ 62 }
    ensures { result ≡ a *ℤ b }
{
    i128::from(a) * i128::from(b)
}

// The product of two denominators.
fn bottom_product(a: u64, b: u64) -> u128
    requires a { (0 < a) × (a ≤ 2 ^ 62) }
    requires b { (0 < b) × (b ≤ 2 ^ 62) }
    ensures value { result ≡ a * b }
    ensures positive { 0 < result }
{
    u128::from(a) * u128::from(b)
}

// The sum of two products.
fn top_sum(a: i128, b: i128) -> i128
    requires a { unsigned_abs a ≤ 2 ^ 124 }
    requires b { unsigned_abs b ≤ 2 ^ 124 }
    ensures { result ≡ a +ℤ b }
{
    a + b
}

impl Fraction {
    /// The fraction of a whole number. `Wide` exactly where the number is above 2^62 in size.
    pub fn whole(value: i64) -> Result<Fraction, Wide>
        ensures { Gives result (whole_ratio value) }
    {
        reduced(i128::from(value), 1)
    }

    /// The numerator of the reduced form, at most 2^62 in size.
    pub fn numerator(self) -> i64
        ensures value { result ≡ self.top }
        ensures reduced { IsReduced self }
        ensures within { IsWithin self }
    {
        self.numerator
    }

    /// The denominator of the reduced form, from 1 to 2^62.
    pub fn denominator(self) -> u64
        ensures value { result ≡ self.bottom }
        ensures reduced { IsReduced self }
        ensures within { IsWithin self }
    {
        self.denominator
    }

    /// The exact sum. `Wide` exactly where its reduced form is past the limit.
    pub fn add(self, other: Fraction) -> Result<Fraction, Wide>
        ensures { Gives result (sum self other) }
    {
        let (own, added) = (self.numerator, other.numerator);
        if is_zero(added) {
            return Ok(self);
        }
        if is_zero(own) {
            return Ok(other);
        }
        let left = times(self.numerator, other.denominator);
        let right = times(other.numerator, self.denominator);
        let bottom = bottom_product(self.denominator, other.denominator);
        reduced(top_sum(left, right), bottom)
    }

    /// The fraction with the other sign.
    pub fn opposite(self) -> Fraction
        ensures { result ≡ opposite self }
    {
        Fraction {
            numerator: negated(self.numerator),
            denominator: self.denominator,
        }
    }

    /// The exact difference. `Wide` exactly where its reduced form is past the limit.
    pub fn sub(self, other: Fraction) -> Result<Fraction, Wide>
        ensures { Gives result (difference self other) }
    {
        self.add(other.opposite())
    }

    /// The exact product. `Wide` exactly where its reduced form is past the limit.
    pub fn mul(self, other: Fraction) -> Result<Fraction, Wide>
        ensures { Gives result (product self other) }
    {
        let top = top_product(self.numerator, other.numerator);
        reduced(top, bottom_product(self.denominator, other.denominator))
    }

    // One over the fraction.
    fn inverse(self) -> Fraction
        requires { self.top ≢ pos 0 }
        ensures { result ≡ inverse self }
    {
        Fraction {
            numerator: with_sign_of(self.numerator, self.denominator),
            denominator: size_of(self.numerator),
        }
    }

    /// The exact quotient. `Wide` exactly where its reduced form is past the limit.
    pub fn div(self, other: Fraction) -> Result<Fraction, Wide>
        requires { other.top ≢ pos 0 }
        ensures { Gives result (quotient self other) }
    {
        self.mul(other.inverse())
    }

    /// How the fraction stands to another, by their cross products.
    pub fn compare(self, other: Fraction) -> Ordering
        ensures { result ≡ int_cmp (self.top *ℤ pos other.bottom) (other.top *ℤ pos self.bottom) }
    {
        times(self.numerator, other.denominator).cmp(&times(other.numerator, self.denominator))
    }
}

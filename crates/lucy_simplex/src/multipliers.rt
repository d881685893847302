//! The multipliers of a tableau in which nothing improves: the numbers of the auxiliary variable's line over their
//! common denominator.
ghost use Rattle.std.specs.Prelude.{◌≡◌, ◌<◌, ◌≤◌, ◌+◌, ◌*◌, ◌/◌, ◌^◌, ◌*ℤ◌, ◌++◌, ◌∷◌, [], pos, length, unsigned_abs, drop, IfOk, IfErr, OnOk, IfSome, IfNone};
ghost use Rattle.std.specs.Int.{IsGcd};
ghost use Rattle.lucy_fraction.specs.Rationals.{IsReduced};
ghost use Rattle.lucy_simplex.specs.Multipliers.{IsMultiple, AreMultiplesWide, IsCommon, AreCommonsWide, AreMultipliers, HasMultipliers};
ghost use Rattle.lucy_simplex.specs.Widths.{StopsFor};

use crate::stops::Stop;
use lucy_fraction::Fraction;
use std::alloc::{AllocError, Global};

// The limit of a common denominator.
const MOST_COMMON: u128 = 1 << 62;

fn gcd(a: u64, b: u64) -> u64
    ensures { IsGcd a b result }
{
    if b == 0 { a } else { gcd(b, a % b) }
}

fn product(a: u64, b: u64) -> u128
    ensures { result ≡ a * b }
{
    u128::from(a) * u128::from(b)
}

// The least common multiple, where it is within the limit.
fn least_multiple(a: u64, b: u64) -> Option<u64>
    requires a { 0 < a }
    requires b { 0 < b }
    ensures least { IfSome result (λ w. IsMultiple a b w) }
    ensures wide { IfNone result (AreMultiplesWide a b) }
{
    let multiple = product(a / gcd(a, b), b);
    if multiple <= MOST_COMMON {
        Some(multiple as u64)
    } else {
        None
    }
}

// A common denominator, and that of a fraction.
fn with_bottom(common: u64, number: Fraction) -> Option<u64>
    requires { 0 < common }
    ensures least { IfSome result (λ w. IsMultiple common number.bottom w) }
    ensures wide { IfNone result (AreMultiplesWide common number.bottom) }
    ensures reduced { IsReduced number }
{
    least_multiple(common, number.denominator())
}

// The common denominator of the numbers behind the first ones, those of the constant, the auxiliary variable and so many
// variables. Where it passes the limit at a variable, the first equation tells it; at a slack, that slack's equation.
fn common_of(numbers: &[Fraction], variables: usize) -> Result<u64, Stop>
    ensures common { IfOk result (λ w. IsCommon w numbers.now) }
    ensures wide { IfErr result (λ e. StopsFor (AreCommonsWide variables numbers.now) e) }
{
    let mut common = 1;
    for (place, number) in numbers.iter().enumerate() {
        let Some(next) = with_bottom(common, *number) else {
            return Err(Stop::Wide(place.saturating_sub(variables)));
        };
        common = next;
    }
    Ok(common)
}

// A numerator times a factor.
fn times(numerator: i64, factor: u64) -> i128
    requires numerator { unsigned_abs numerator ≤ 2 ^ 62 }
    requires factor { factor ≤ 2 ^ 62 }
    ensures { result ≡ numerator *ℤ pos factor }
{
    i128::from(numerator) * i128::from(factor)
}

// A fraction times a common denominator.
fn multiplier(number: Fraction, common: u64) -> i128
    requires { common ≤ 2 ^ 62 }
    ensures { result ≡ number.top *ℤ pos (common / number.bottom) }
{
    times(number.numerator(), common / number.denominator())
}

fn push_multiplier(all: &mut Vec<i128>, number: i128) -> Result<(), AllocError>
    ensures { OnOk result (all.new.items ≡ all.old.items ++ number ∷ []) }
{
    all.push(number)?;
    Ok(())
}

// Fractions times a common denominator.
fn scaled(alloc: Global, numbers: &[Fraction], common: u64) -> Result<Vec<i128>, AllocError>
    requires { common ≤ 2 ^ 62 }
    ensures { IfOk result (λ v. AreMultipliers common numbers.now v.items) }
{
    let mut all = Vec::new(alloc);
    for number in numbers {
        push_multiplier(&mut all, multiplier(*number, common))?;
    }
    Ok(all)
}

/// Multipliers of rows, lower bounds and upper bounds.
#[derive(Debug, Drop)]
pub struct Multipliers {
    /// One for each row.
    pub rows: Vec<i128>,
    /// One for each lower bound.
    pub lows: Vec<i128>,
    /// One for each upper bound.
    pub highs: Vec<i128>,
}

// The multipliers over a common denominator.
fn multipliers_over(
    alloc: Global,
    numbers: &[Fraction],
    variables: usize,
    rows: usize,
    common: u64,
) -> Result<Multipliers, AllocError>
    requires length { length numbers.now ≡ 2 + (variables + (rows + variables)) }
    requires common { IsCommon common (drop 2 numbers.now) }
    ensures { IfOk result (λ m. HasMultipliers variables rows numbers.now m.lows.items m.rows.items m.highs.items) }
{
    let lows = scaled(alloc, &numbers[2..2 + variables], common)?;
    let of_rows = scaled(alloc, &numbers[2 + variables..2 + variables + rows], common)?;
    let highs = scaled(alloc, &numbers[2 + variables + rows..], common)?;
    Ok(Multipliers {
        rows: of_rows,
        lows,
        highs,
    })
}

/// The multipliers of the auxiliary variable's line, whose numbers are those of so many variables and rows.
pub fn multipliers_of(
    alloc: Global,
    numbers: &[Fraction],
    variables: usize,
    rows: usize,
) -> Result<Multipliers, Stop>
    requires { length numbers.now ≡ 2 + (variables + (rows + variables)) }
    ensures found { IfOk result (λ m. HasMultipliers variables rows numbers.now m.lows.items m.rows.items m.highs.items) }
    ensures wide { IfErr result (λ e. StopsFor (AreCommonsWide variables (drop 2 numbers.now)) e) }
{
    match common_of(&numbers[2..], variables) {
        Ok(common) => {
            let found = multipliers_over(alloc, numbers, variables, rows, common)?;
            Ok(found)
        }
        Err(stop) => Err(stop),
    }
}

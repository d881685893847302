//! Numbers that stay within their type. Where a result is too wide it is the nearest number that there is: what comes of
//! it is tested before it is used.

use std::alloc::AllocError;

/// The sum.
pub fn plus(a: i128, b: i128) -> i128 {
    a.saturating_add(b)
}

/// The difference.
pub fn minus(a: i128, b: i128) -> i128 {
    a.saturating_sub(b)
}

/// The product.
pub fn times(a: i128, b: i128) -> i128 {
    a.saturating_mul(b)
}

/// The number without its sign.
pub fn size(a: i128) -> i128 {
    if a < 0 { minus(0, a) } else { a }
}

/// The quotient, rounded down; the number itself, where the divisor is not positive.
pub fn floored(a: i128, by: i128) -> i128 {
    if by < 1 { a } else { a.div_euclid(by) }
}

/// One more.
pub fn next(count: usize) -> usize {
    count.saturating_add(1)
}

/// The number of a place.
pub fn place_of(count: usize) -> Result<u32, AllocError> {
    match u32::try_from(count) {
        Ok(place) => Ok(place),
        Err(_) => Err(AllocError),
    }
}

/// The remainder of the quotient that is rounded down; 0, where the divisor is not positive.
pub fn remainder(a: i128, by: i128) -> i128 {
    if by < 1 { 0 } else { a.rem_euclid(by) }
}

// How many turns a common divisor takes at most.
const MOST_TURNS: u32 = 200;

/// The greatest common divisor of two numbers that are not negative.
pub fn common_divisor(a: i128, b: i128) -> i128 {
    let mut greater = a;
    let mut less = b;
    for _ in 0..MOST_TURNS {
        if less == 0 {
            return greater;
        }
        let rest = remainder(greater, less);
        greater = less;
        less = rest;
    }
    1
}

/// The least common multiple of two numbers that are positive.
pub fn common_multiple(a: i128, b: i128) -> i128 {
    times(floored(a, common_divisor(a, b)), b)
}

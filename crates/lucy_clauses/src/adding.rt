//! A multiple of ascending parts added to others, by one pass over both.

ghost use Rattle.std.specs.Prelude.{◌≡◌, ◌≤◌, ◌+◌, ◌*ℤ◌, ◌++◌, [], IfOk, OnOk, true, false, drop, length, Some, None, if◌then◌else◌};
ghost use Rattle.std.specs.Option.{option_map};
ghost use Rattle.lucy_clauses.specs.Parts.{is_zero, is_within, sum_part, grown, ascends};
ghost use Rattle.lucy_clauses.specs.Normal.{IsGathered};
ghost use Rattle.lucy_clauses.specs.Lines as lines;
ghost use Rattle.lucy_clauses.specs.Adding as adding;

use crate::gathering::is_zero;
use crate::numbers::{product_within, sum_within};
use crate::parts::Part;
use std::alloc::{AllocError, Global};

// `by` times a part, where the factor is within the limit.
fn multiple(by: i128, part: Part) -> Option<Part>
    ensures { result ≡ (if is_within (by *ℤ part.by) then Some (lines.multiple by part) else None) }
{
    match product_within(by, part.by) {
        None => None,
        Some(by) => Some(Part {
            variable: part.variable,
            by,
        }),
    }
}

// The two parts of one variable as one, where the factor is within the limit.
fn joined(old: Part, part: Part) -> Option<Part>
    ensures { result ≡ (if is_within ((sum_part old part).by) then Some (sum_part old part) else None) }
{
    match sum_within(old.by, part.by) {
        None => None,
        Some(by) => Some(Part {
            variable: part.variable,
            by,
        }),
    }
}

// The part at a place, if it is one of the variable.
fn part_of(parts: &[Part], place: usize, variable: u32) -> Option<Part>
    ensures { result ≡ adding.first_of variable (drop place parts.now) }
{
    if place >= parts.len() {
        return None;
    }
    let part = parts[place];
    if variable == part.variable {
        Some(part)
    } else {
        None
    }
}

// Puts a part behind the others, or leaves it out where its factor is 0.
fn push_part(sum: &mut Vec<Part>, part: Part) -> Result<(), AllocError>
    ensures { OnOk result (sum.new.items ≡ sum.old.items ++ grown part []) }
{
    if !is_zero(part) {
        sum.push(part)?;
    }
    Ok(())
}

// Moves the parts below a variable, from a place on, behind the sum, and tells the place of the first part that is left.
fn keep_below(
    sum: &mut Vec<Part>,
    parts: &[Part],
    place: usize,
    variable: u32,
) -> Result<usize, AllocError>
    requires { place ≤ length parts.now }
    ensures { IfOk result (λ next. adding.Keeps variable parts.now sum.old.items sum.new.items place next) }
{
    for i in place..parts.len() {
        let part = parts[i];
        if part.variable >= variable {
            return Ok(i);
        }
        sum.push(part)?;
    }
    Ok(parts.len())
}

// Puts a part that is not 0 to the sum, whose variables are below its own, and to the parts from a place on.
// `None` where the sum of two factors passes the limit.
fn add_part(
    sum: &mut Vec<Part>,
    parts: &[Part],
    place: usize,
    part: Part,
) -> Result<Option<usize>, AllocError>
    requires place { place ≤ length parts.now }
    requires nonzero { is_zero part ≡ false }
    requires within { is_within part.by ≡ true }
    requires gathered { IsGathered (sum.old.items ++ drop place parts.now) }
    requires below { adding.all_below part.variable sum.old.items ≡ true }
    ensures { IfOk result (λ next. adding.IsPlaced part parts.now sum.old.items sum.new.items place next) }
{
    let next = keep_below(sum, parts, place, part.variable)?;
    match part_of(parts, next, part.variable) {
        None => {
            sum.push(part)?;
            Ok(Some(next))
        }
        Some(old) => match joined(old, part) {
            None => Ok(None),
            Some(both) => {
                push_part(sum, both)?;
                Ok(Some(next + 1))
            }
        },
    }
}

// The same of `by` times a part.
fn add_multiple(
    sum: &mut Vec<Part>,
    parts: &[Part],
    place: usize,
    by: i128,
    part: Part,
) -> Result<Option<usize>, AllocError>
    requires place { place ≤ length parts.now }
    requires gathered { IsGathered (sum.old.items ++ drop place parts.now) }
    requires below { adding.all_below part.variable sum.old.items ≡ true }
    ensures { IfOk result (λ next. adding.IsMultiplied by part parts.now sum.old.items sum.new.items place next) }
{
    match multiple(by, part) {
        None => Ok(None),
        Some(added) => {
            if is_zero(added) {
                return Ok(Some(place));
            }
            add_part(sum, parts, place, added)
        }
    }
}

/// Parts, and `by` times more parts. `None` exactly where a product or a sum passes the limit of 2^126. Takes time in
/// proportion to the parts of both.
pub fn merged(
    alloc: Global,
    by: i128,
    more: &[Part],
    parts: &[Part],
) -> Result<Option<Vec<Part>>, AllocError>
    requires more { ascends more.now ≡ true }
    requires parts { IsGathered parts.now }
    ensures { IfOk result (λ sum. option_map (λ v. v.items) sum ≡ lines.put_multiples by more.now parts.now) }
{
    let mut sum = Vec::new(alloc);
    let mut place = 0;
    for part in more {
        match add_multiple(&mut sum, parts, place, by, *part)? {
            None => return Ok(None),
            Some(next) => place = next,
        }
    }
    sum.extend_from_slice(&parts[place..])?;
    Ok(Some(sum))
}

/// A bound, and `by` times more. `None` exactly where the product or the sum passes the limit of 2^126.
pub fn bound_with(by: i128, more: i128, bound: i128) -> Option<i128>
    ensures { result ≡ lines.bound_with by more bound }
{
    match product_within(by, more) {
        None => None,
        Some(product) => sum_within(bound, product),
    }
}

ghost use Rattle.std.specs.Prelude.{◌≡◌, ◌<◌, ◌+◌, ◌-◌, ◌^◌, ◌++◌, IfOk, OnOk, IsTrue, min, nat_le, unsigned_abs, pos, true, false, [], ◌∷◌, take, drop, not, vec_len};
ghost use Rattle.std.specs.Ordering.{int_eq};
ghost use Rattle.lucy_clauses.specs.Parts.{is_zero, is_within, all_within, sum_part, grown, put, put_any, gathered, stays_within, total_size, ascends};
ghost use Rattle.lucy_clauses.specs.Adding.{all_below};

use crate::numbers::{MOST_SIZE, sum};
use crate::parts::Part;
use std::alloc::{AllocError, Global};

// The two parts of one variable as one.
fn joined(old: Part, part: Part) -> Part
    requires { is_within ((sum_part old part).by) ≡ true }
    ensures { result ≡ sum_part old part }
{
    Part {
        variable: part.variable,
        by: sum(old.by, part.by),
    }
}

/// True exactly where the factor is 0.
pub fn is_zero(part: Part) -> bool
    ensures { result ≡ is_zero part }
{
    part.by == 0
}

// Puts the part at a place, or drops the part there where the factor is 0.
fn set_part(parts: &mut Vec<Part>, place: usize, part: Part)
    requires { place < vec_len parts.old }
    ensures { parts.new.items ≡ take place parts.old.items ++ grown part (drop (place + 1) parts.old.items) }
{
    if is_zero(part) {
        let _ = parts.remove(place);
    } else {
        parts[place] = part;
    }
}

// True exactly where each of the parts, whose variables ascend, is below the variable. Looks at the last alone.
fn are_below(parts: &[Part], variable: u32) -> bool
    requires { ascends parts.now ≡ true }
    ensures { result ≡ all_below variable parts.now }
{
    if parts.is_empty() {
        return true;
    }
    parts[parts.len() - 1].variable < variable
}

// Adds a part that is not 0 to parts whose variables ascend. It is put behind the last at once where it belongs there.
fn put(parts: &mut Vec<Part>, part: Part) -> Result<(), AllocError>
    requires nonzero { is_zero part ≡ false }
    requires ascending { ascends parts.old.items ≡ true }
    requires within { all_within (put part parts.old.items) ≡ true }
    ensures { OnOk result (parts.new.items ≡ put part parts.old.items) }
{
    if are_below(parts, part.variable) {
        parts.push(part)?;
        return Ok(());
    }
    for i in 0..parts.len() {
        let old = parts[i];
        if part.variable < old.variable {
            parts.insert(i, part)?;
            return Ok(());
        }
        if part.variable == old.variable {
            set_part(parts, i, joined(old, part));
            return Ok(());
        }
    }
    parts.push(part)?;
    Ok(())
}

// Adds a part to parts whose variables ascend.
fn put_any(parts: &mut Vec<Part>, part: Part) -> Result<(), AllocError>
    requires ascending { ascends parts.old.items ≡ true }
    requires within { all_within (put_any part parts.old.items) ≡ true }
    ensures { OnOk result (parts.new.items ≡ put_any part parts.old.items) }
{
    if !is_zero(part) {
        put(parts, part)?;
    }
    Ok(())
}

/// The parts with equal variables summed up, zero factors left out, and variables ascending.
pub fn gather(alloc: Global, parts: &[Part]) -> Result<Vec<Part>, AllocError>
    requires { stays_within [] parts.now ≡ true }
    ensures { IfOk result (λ sum. sum.items ≡ gathered parts.now) }
{
    let mut sum = Vec::new(alloc);
    for part in parts {
        put_any(&mut sum, *part)?;
    }
    Ok(sum)
}

fn size_added(total: u128, by: i128) -> u128
    ensures { result ≡ min (total + unsigned_abs by) (2 ^ 128 - 1) }
{
    total.saturating_add(by.unsigned_abs())
}

/// True exactly where the sizes of the factors together are at most 2^126. Then no sum of equal variables passes that
/// limit. Takes no memory.
pub fn are_small(parts: &[Part]) -> bool
    ensures value { result ≡ nat_le (total_size parts.now) (2 ^ 126) }
    ensures stays { IsTrue result → stays_within [] parts.now ≡ true }
{
    let mut total = 0;
    for part in parts {
        total = size_added(total, part.by);
    }
    total <= MOST_SIZE
}

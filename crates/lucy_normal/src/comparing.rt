ghost use Rattle.std.specs.Prelude.{◌≡◌, ◌≤◌, ◌<◌, ◌^◌, ◌*ℤ◌, ◌-ℤ◌, neg_ℤ, pos, negsuc, IfOk, IsTrue, map, unsigned_abs, true, [], if◌then◌else◌};
ghost use Rattle.lucy_clauses.specs.Sums.{negative_part};
ghost use Rattle.lucy_model.specs.Terms.{is_term};
ghost use Rattle.lucy_normal.specs.Normals as normals;

use crate::atoms::linear;
use crate::flattening::two;
use crate::joints::Joint;
use crate::normals::Normal;
use crate::variables::Variables;
use lucy_clauses::Part;
use lucy_model::{Op, Share, Term};
use std::alloc::{AllocError, Global};

// The share of a leaf as a part.
fn placed(at: Variables, share: Share) -> Part
    requires { share.slot < at.leaves }
    ensures { result ≡ normals.placed at.first share }
{
    Part {
        variable: at.first + share.slot,
        by: i128::from(share.by),
    }
}

// The same with the other sign.
fn placed_negative(at: Variables, share: Share) -> Part
    requires { share.slot < at.leaves }
    ensures { result ≡ negative_part (normals.placed at.first share) }
{
    Part {
        variable: at.first + share.slot,
        by: -i128::from(share.by),
    }
}

fn parts(alloc: Global, at: Variables, shares: &[Share]) -> Result<Vec<Part>, AllocError>
    requires { normals.are_slots at.leaves shares.now ≡ true }
    ensures { IfOk result (λ ps. ps.items ≡ normals.placed_all at.first shares.now) }
{
    let mut parts = Vec::with_capacity(alloc, shares.len())?;
    for share in shares {
        parts.push(placed(at, *share))?;
    }
    Ok(parts)
}

fn negative_parts(alloc: Global, at: Variables, shares: &[Share]) -> Result<Vec<Part>, AllocError>
    requires { normals.are_slots at.leaves shares.now ≡ true }
    ensures { IfOk result (λ ps. ps.items ≡ map negative_part (normals.placed_all at.first shares.now)) }
{
    let mut parts = Vec::with_capacity(alloc, shares.len())?;
    for share in shares {
        parts.push(placed_negative(at, *share))?;
    }
    Ok(parts)
}

fn negative_less(number: i64, more: i64) -> i128
    requires { unsigned_abs more ≤ 1 }
    ensures { result ≡ neg_ℤ number -ℤ more }
{
    -i128::from(number) - i128::from(more)
}

fn less(number: i64, more: i64) -> i128
    requires { unsigned_abs more ≤ 1 }
    ensures { result ≡ number -ℤ more }
{
    i128::from(number) - i128::from(more)
}

// That the term plus `more` is at most 0.
fn below(alloc: Global, at: Variables, more: i64, term: &Term) -> Result<Normal, AllocError>
    requires term { IsTrue (is_term at.leaves 0 term.now) }
    requires more { unsigned_abs more ≤ 1 }
    ensures { IfOk result (λ n. n ≡ normals.below at.first more term.now) }
{
    let parts = parts(alloc, at, term.leaves.as_slice())?;
    let normal = linear(alloc, &parts, negative_less(term.constant, more))?;
    Ok(normal)
}

// That `more` minus the term is at most 0.
fn above(alloc: Global, at: Variables, more: i64, term: &Term) -> Result<Normal, AllocError>
    requires term { IsTrue (is_term at.leaves 0 term.now) }
    requires more { unsigned_abs more ≤ 1 }
    ensures { IfOk result (λ n. n ≡ normals.above at.first more term.now) }
{
    let parts = negative_parts(alloc, at, term.leaves.as_slice())?;
    let normal = linear(alloc, &parts, less(term.constant, more))?;
    Ok(normal)
}

/// That a term without arguments stands in a relation to 0.
pub fn compared(alloc: Global, at: Variables, term: &Term, op: Op) -> Result<Normal, AllocError>
    requires { IsTrue (is_term at.leaves 0 term.now) }
    ensures { IfOk result (λ n. n ≡ normals.compared at.first term.now op) }
{
    match op {
        Op::Le => below(alloc, at, 0, term),
        Op::Lt => below(alloc, at, 1, term),
        Op::Ge => above(alloc, at, 0, term),
        Op::Gt => above(alloc, at, 1, term),
        Op::Eq => {
            let left = below(alloc, at, 0, term)?;
            let right = above(alloc, at, 0, term)?;
            two(alloc, left, right, Joint::All)
        }
        Op::Ne => {
            let left = below(alloc, at, 1, term)?;
            let right = above(alloc, at, 1, term)?;
            two(alloc, left, right, Joint::Any)
        }
    }
}

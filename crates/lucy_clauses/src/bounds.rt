//! The atoms that bound one variable.

ghost use Rattle.std.specs.Prelude.{◌≡◌, ◌≤◌, ◌^◌, ◌∷◌, [], IfOk, unsigned_abs};
ghost use Rattle.lucy_clauses.specs.Sums.{form};
ghost use Rattle.lucy_clauses.specs.Bounds as bounds;

use crate::atoms::Atom;
use crate::parts::Part;
use std::alloc::{AllocError, Global};

// The atom of one variable with the factor 1 or -1.
fn single(alloc: Global, variable: u32, by: i128, bound: i128) -> Result<Atom, AllocError>
    requires { unsigned_abs by ≡ 1 }
    ensures { IfOk result (λ t. t ≡ form (bounds.part variable by ∷ []) bound) }
{
    let mut parts = Vec::new(alloc);
    parts.push(Part { variable, by })?;
    Ok(Atom { parts, bound })
}

/// The atom `x <= bound` of a variable.
pub fn at_most(alloc: Global, variable: u32, bound: i128) -> Result<Atom, AllocError>
    ensures { IfOk result (λ t. t ≡ bounds.at_most variable bound) }
{
    single(alloc, variable, 1, bound)
}

/// The atom `x >= bound` of a variable. The bound is at most 2^126 in size.
pub fn at_least(alloc: Global, variable: u32, bound: i128) -> Result<Atom, AllocError>
    requires { unsigned_abs bound ≤ 2 ^ 126 }
    ensures { IfOk result (λ t. t ≡ bounds.at_least variable bound) }
{
    single(alloc, variable, -1, -bound)
}

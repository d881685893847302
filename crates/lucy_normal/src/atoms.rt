ghost use Rattle.std.specs.Prelude.{◌≡◌, ◌<◌, pos, ◌∷◌, [], IfOk, unsigned_abs, true};
ghost use Rattle.lucy_clauses.specs.Parts.{is_within, stays_within};
ghost use Rattle.lucy_clauses.specs.Sums.{form};
ghost use Rattle.lucy_normal.specs.Linear as linears;
ghost use Rattle.lucy_clauses.specs.Bounds.{part};

use crate::normals::Normal;
use lucy_clauses::{Atom, Part, Plain};
use sqlite_items::Items;
use std::alloc::{AllocError, Global};

// The atom `by * v + other * w <= 0` with factors of 1 or -1.
fn double(alloc: Global, v: u32, w: u32, by: i128, other: i128) -> Result<Atom, AllocError>
    requires ascending { v < w }
    requires by { unsigned_abs by ≡ 1 }
    requires other { unsigned_abs other ≡ 1 }
    ensures { IfOk result (λ t. t ≡ form (part v by ∷ part w other ∷ []) (pos 0)) }
{
    let mut parts = Vec::new(alloc);
    parts.push(Part { variable: v, by })?;
    parts.push(Part {
        variable: w,
        by: other,
    })?;
    Ok(Atom { parts, bound: 0 })
}

/// The atom `x <= y` of two variables, where `x` has the smaller number.
pub fn at_most_other(alloc: Global, x: u32, y: u32) -> Result<Atom, AllocError>
    requires { x < y }
    ensures { IfOk result (λ t. t ≡ linears.at_most_other x y) }
{
    double(alloc, x, y, 1, -1)
}

/// The atom `x >= y` of two variables, where `x` has the smaller number.
pub fn at_least_other(alloc: Global, x: u32, y: u32) -> Result<Atom, AllocError>
    requires { x < y }
    ensures { IfOk result (λ t. t ≡ linears.at_least_other x y) }
{
    double(alloc, x, y, -1, 1)
}

fn of_plain(alloc: Global, plain: Plain) -> Normal
    ensures { result ≡ linears.of_plain plain }
{
    match plain {
        Plain::Always => Normal::All(Items::new(alloc)),
        Plain::Never => Normal::Any(Items::new(alloc)),
        Plain::Atom(atom) => Normal::Atom(atom),
    }
}

/// That the sum of the parts is at most the bound: an atom in normal form, or with no variable left what the bound
/// decides. Each sum of equal variables, taken from the front, and the bound are at most 2^126 in size.
pub fn linear(alloc: Global, parts: &[Part], bound: i128) -> Result<Normal, AllocError>
    requires sums { stays_within [] parts.now ≡ true }
    requires bound { is_within bound ≡ true }
    ensures { IfOk result (λ n. n ≡ linears.linear parts.now bound) }
{
    let plain = Atom::normal(alloc, parts, bound)?;
    Ok(of_plain(alloc, plain))
}

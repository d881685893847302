//! Made plans.

ghost use Rattle.std.specs.Prelude.{◌≡◌, ◌≤◌, ◌+◌, ◌^◌, ◌<◌, IfOk};
ghost use Rattle.lucy_make.specs.Plans as spec;

use crate::plan_text::plan_text;
use lucy_net::Chaos;
use std::alloc::{AllocError, Global};

// The upper bound of a number.
fn draw_height(chaos: &mut Chaos) -> u32
    ensures { (result, chaos.new) ≡ spec.height chaos.old }
{
    10 + chaos.draw(90)
}

// By how much a number may be above the next one.
fn draw_gap(chaos: &mut Chaos) -> u32
    ensures { (result, chaos.new) ≡ spec.gap chaos.old }
{
    chaos.draw(10)
}

// A height for each number.
fn draw_heights(alloc: Global, chaos: &mut Chaos, size: u32) -> Result<Vec<u32>, AllocError>
    ensures { IfOk result (λ heights. (heights.items, chaos.new) ≡ spec.heights size chaos.old) }
{
    let mut heights = Vec::new(alloc);
    for _place in 0..size {
        heights.push(draw_height(chaos))?;
    }
    Ok(heights)
}

// A gap behind each number but the last.
fn draw_gaps(alloc: Global, chaos: &mut Chaos, size: u32) -> Result<Vec<u32>, AllocError>
    requires { 1 ≤ size }
    ensures { IfOk result (λ gaps. (gaps.items, chaos.new) ≡ spec.gaps size chaos.old) }
{
    let mut gaps = Vec::new(alloc);
    for _place in 0..size - 1 {
        gaps.push(draw_gap(chaos))?;
    }
    Ok(gaps)
}

/// The text of the plan of a seed and a size, in the layout of printed plans. It has as many numbers as the size says, of
/// which each is at most the next one and a drawn gap, and a flag; a transaction adds to each number, and one sets the flag.
/// There is a segment for each state of the flag.
pub fn make_plan(alloc: Global, seed: u64, size: u32) -> Result<Vec<u8>, AllocError>
    requires { (1 ≤ size) × (size ≤ 32) }
    ensures { IfOk result (λ text. text.items ≡ spec.made_plan seed size) }
{
    let mut chaos = Chaos::new(seed);
    let heights = draw_heights(alloc, &mut chaos, size)?;
    let gaps = draw_gaps(alloc, &mut chaos, size)?;
    plan_text(alloc, heights.as_slice(), gaps.as_slice())
}

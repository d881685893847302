//! The text of a made plan.

ghost use Rattle.std.specs.Prelude.{◌≡◌, ◌++◌, ◌^◌, ◌<◌, OnOk, IfOk};
ghost use Rattle.lucy_make.specs.PlanTexts as spec;

use lucy_io::{write_count, write_text};
use std::alloc::{AllocError, Global};

// A name or a number, with a space behind it.
fn write_named(out: &mut Vec<u8>, text: &str, number: u64) -> Result<(), AllocError>
    ensures { OnOk result (out.new.items ≡ out.old.items ++ spec.named text.now number) }
{
    write_text(out, text)?;
    write_count(out, number)?;
    write_text(out, " ")
}

// The line of a number.
fn write_number_line(out: &mut Vec<u8>, place: u64, height: u32) -> Result<(), AllocError>
    ensures { OnOk result (out.new.items ≡ out.old.items ++ spec.number_line place height) }
{
    write_text(out, "max ")?;
    write_named(out, "x", place)?;
    write_text(out, "in 0 .. ")?;
    write_named(out, "", u64::from(height))?;
    write_text(out, ";\n")
}

fn write_number_lines(out: &mut Vec<u8>, heights: &[u32]) -> Result<(), AllocError>
    ensures { OnOk result (out.new.items ≡ out.old.items ++ spec.number_lines 0 heights.now) }
{
    for (place, height) in heights.iter().enumerate() {
        write_number_line(out, place as u64, *height)?;
    }
    Ok(())
}

fn write_object(out: &mut Vec<u8>, heights: &[u32]) -> Result<(), AllocError>
    ensures { OnOk result (out.new.items ≡ out.old.items ++ spec.object_text heights.now) }
{
    write_text(out, "object {\n")?;
    write_number_lines(out, heights)?;
    write_text(out, "orflag f ;\n}\n")
}

// The comparison of a number with the next one.
fn write_below_next(out: &mut Vec<u8>, place: u64, gap: u32) -> Result<(), AllocError>
    requires { place < 2 ^ 63 }
    ensures { OnOk result (out.new.items ≡ out.old.items ++ spec.below_next place gap) }
{
    write_named(out, "x", place)?;
    write_text(out, "<= ")?;
    write_named(out, "x", place + 1)?;
    write_text(out, "+ ")?;
    write_named(out, "", u64::from(gap))
}

// The comparisons of the numbers from the second on.
fn write_more_below(out: &mut Vec<u8>, gaps: &[u32]) -> Result<(), AllocError>
    ensures { OnOk result (out.new.items ≡ out.old.items ++ spec.more_below 1 gaps.now) }
{
    for (place, gap) in gaps.iter().enumerate() {
        write_text(out, "and ")?;
        write_below_next(out, place as u64 + 1, *gap)?;
    }
    Ok(())
}

fn write_all_below(out: &mut Vec<u8>, gaps: &[u32]) -> Result<(), AllocError>
    ensures { OnOk result (out.new.items ≡ out.old.items ++ spec.all_below gaps.now) }
{
    match gaps {
        [] => write_text(out, "true "),
        [first, rest @ ..] => {
            write_below_next(out, 0, *first)?;
            write_more_below(out, rest)
        }
    }
}

fn write_invariant(out: &mut Vec<u8>, gaps: &[u32]) -> Result<(), AllocError>
    ensures { OnOk result (out.new.items ≡ out.old.items ++ spec.invariant_text gaps.now) }
{
    write_text(out, "invariant ")?;
    write_all_below(out, gaps)?;
    write_text(out, ";\n")
}

// The head of a transaction that adds to a number.
fn write_add_head(out: &mut Vec<u8>, place: u64) -> Result<(), AllocError>
    ensures { OnOk result (out.new.items ≡ out.old.items ++ spec.add_head place) }
{
    write_text(out, "txn ")?;
    write_named(out, "add", place)?;
    write_text(out, "( n in 0 .. 9 ) {\n")
}

// Its change.
fn write_add_change(out: &mut Vec<u8>, place: u64) -> Result<(), AllocError>
    ensures { OnOk result (out.new.items ≡ out.old.items ++ spec.add_change place) }
{
    write_named(out, "x", place)?;
    write_text(out, ":= ")?;
    write_named(out, "x", place)?;
    write_text(out, "+ n ;\n")
}

fn write_add(out: &mut Vec<u8>, place: u64) -> Result<(), AllocError>
    ensures { OnOk result (out.new.items ≡ out.old.items ++ spec.add_text place) }
{
    write_add_head(out, place)?;
    write_text(out, "when true {\n")?;
    write_add_change(out, place)?;
    write_text(out, "}\n}\n")
}

fn write_adds(out: &mut Vec<u8>, heights: &[u32]) -> Result<(), AllocError>
    ensures { OnOk result (out.new.items ≡ out.old.items ++ spec.each_place spec.add_text 0 heights.now) }
{
    for (place, _height) in heights.iter().enumerate() {
        write_add(out, place as u64)?;
    }
    Ok(())
}

fn write_add_name(out: &mut Vec<u8>, place: u64) -> Result<(), AllocError>
    ensures { OnOk result (out.new.items ≡ out.old.items ++ spec.add_name place) }
{
    write_named(out, "add", place)
}

fn write_add_names(out: &mut Vec<u8>, heights: &[u32]) -> Result<(), AllocError>
    ensures { OnOk result (out.new.items ≡ out.old.items ++ spec.each_place spec.add_name 0 heights.now) }
{
    for (place, _height) in heights.iter().enumerate() {
        write_add_name(out, place as u64)?;
    }
    Ok(())
}

// A segment with all transactions that add.
fn write_segment(out: &mut Vec<u8>, head: &str, heights: &[u32]) -> Result<(), AllocError>
    ensures { OnOk result (out.new.items ≡ out.old.items ++ spec.segment_text head.now heights.now) }
{
    write_text(out, head)?;
    write_add_names(out, heights)?;
    write_text(out, ";\n")
}

// The object, the start and the invariant.
fn write_front(out: &mut Vec<u8>, heights: &[u32], gaps: &[u32]) -> Result<(), AllocError>
    ensures { OnOk result (out.new.items ≡ out.old.items ++ spec.front_text heights.now gaps.now) }
{
    write_text(out, "lucy 1\n")?;
    write_object(out, heights)?;
    write_text(out, "start {\n}\n")?;
    write_invariant(out, gaps)
}

// The transactions and the segments.
fn write_back(out: &mut Vec<u8>, heights: &[u32]) -> Result<(), AllocError>
    ensures { OnOk result (out.new.items ≡ out.old.items ++ spec.back_text heights.now) }
{
    write_adds(out, heights)?;
    write_text(out, "txn flip ( ) {\nwhen true {\nf := on ;\n}\n}\n")?;
    write_segment(out, "segment low when not f do ", heights)?;
    write_segment(out, "segment high when f do ", heights)?;
    write_text(out, "end\n")
}

/// The text of the plan with these upper bounds of its numbers, and these gaps.
#[tactic(auto, unfolding(crate::specs::PlanTexts::plan_text))]
pub fn plan_text(alloc: Global, heights: &[u32], gaps: &[u32]) -> Result<Vec<u8>, AllocError>
    ensures { IfOk result (λ text. text.items ≡ spec.plan_text heights.now gaps.now) }
{
    let mut out = Vec::new(alloc);
    write_front(&mut out, heights, gaps)?;
    write_back(&mut out, heights)?;
    Ok(out)
}

//! What a plan is found to be.

ghost use Rattle.std.specs.Prelude.{◌≡◌, ◌++◌, OnOk, IfOk, slice_get};
ghost use Rattle.lucy_report.specs.FindingLines as spec;

use crate::verdict_lines::write_start_breaks;
use crate::writing::write_state;
use lucy_findings::{CoverFinding, Findings, SegmentFinding, is_sound};
use lucy_io::write_text;
use lucy_model::State;
use lucy_plan::Plan;
use std::alloc::{AllocError, Global};

fn write_start(out: &mut Vec<u8>, start: &State, holds: bool) -> Result<(), AllocError>
    ensures { OnOk result (out.new.items ≡ out.old.items ++ spec.start_line start.now holds) }
{
    if holds {
        write_text(out, "start holds\n")
    } else {
        write_start_breaks(out, start)
    }
}

#[tactic(auto, unfolding(crate::specs::FindingLines::pair_words))]
fn write_pair(out: &mut Vec<u8>, first: &State, second: &State) -> Result<(), AllocError>
    ensures { OnOk result (out.new.items ≡ out.old.items ++ spec.pair_words first.now second.now) }
{
    write_text(out, " open ")?;
    write_state(out, first.as_slice())?;
    write_text(out, " ")?;
    write_state(out, second.as_slice())?;
    Ok(())
}

fn write_segment_words(out: &mut Vec<u8>, finding: &SegmentFinding) -> Result<(), AllocError>
    ensures { OnOk result (out.new.items ≡ out.old.items ++ spec.segment_words finding.now) }
{
    match finding {
        SegmentFinding::Idle => write_text(out, " idle"),
        SegmentFinding::Closed(_) => write_text(out, " closed"),
        SegmentFinding::Open { first, second } => write_pair(out, first, second),
    }
}

// The name of the segment at a place of the plan.
fn write_name(out: &mut Vec<u8>, plan: &Plan, place: usize) -> Result<(), AllocError>
    ensures { OnOk result (out.new.items ≡ out.old.items ++ spec.name_of (slice_get plan.now.segments place)) }
{
    match plan.parts().segments.get(place) {
        None => Ok(()),
        Some(segment) => write_text(out, segment.name.as_str()),
    }
}

// The line of a segment.
#[tactic(auto, unfolding(crate::specs::FindingLines::segment_line))]
fn write_segment_line(
    out: &mut Vec<u8>,
    plan: &Plan,
    place: usize,
    finding: &SegmentFinding,
) -> Result<(), AllocError>
    ensures { OnOk result (out.new.items ≡ out.old.items ++ spec.segment_line (spec.name_of (slice_get plan.now.segments place)) finding.now) }
{
    write_text(out, "segment ")?;
    write_name(out, plan, place)?;
    write_segment_words(out, finding)?;
    write_text(out, "\n")?;
    Ok(())
}

// A line for each segment.
fn write_segments(
    out: &mut Vec<u8>,
    plan: &Plan,
    findings: &[SegmentFinding],
) -> Result<(), AllocError>
    ensures { OnOk result (out.new.items ≡ out.old.items ++ spec.segment_lines plan.now 0 findings.now) }
{
    for (place, finding) in findings.iter().enumerate() {
        write_segment_line(out, plan, place, finding)?;
    }
    Ok(())
}

fn write_cover(out: &mut Vec<u8>, cover: &CoverFinding) -> Result<(), AllocError>
    ensures { OnOk result (out.new.items ≡ out.old.items ++ spec.cover_line cover.now) }
{
    match cover {
        CoverFinding::Holds(_) => write_text(out, "cover holds\n"),
        CoverFinding::Uncovered(state) => write_uncovered(out, state),
    }
}

#[tactic(auto, unfolding(crate::specs::FindingLines::uncovered))]
fn write_uncovered(out: &mut Vec<u8>, state: &State) -> Result<(), AllocError>
    ensures { OnOk result (out.new.items ≡ out.old.items ++ spec.uncovered state.now) }
{
    write_text(out, "uncovered ")?;
    write_state(out, state.as_slice())?;
    write_text(out, "\n")?;
    Ok(())
}

fn write_sound(out: &mut Vec<u8>, sound: bool) -> Result<(), AllocError>
    ensures { OnOk result (out.new.items ≡ out.old.items ++ spec.sound_line sound) }
{
    if sound {
        write_text(out, "sound\n")
    } else {
        write_text(out, "not sound\n")
    }
}

/// What a plan is found to be: its start, each segment in order, the cover, and whether the plan is
/// sound.
#[tactic(auto, unfolding(crate::specs::FindingLines::findings_text))]
pub fn findings_text(alloc: Global, plan: &Plan, findings: &Findings) -> Result<Vec<u8>, AllocError>
    ensures { IfOk result (λ text. text.items ≡ spec.findings_text plan.now findings.now) }
{
    let mut text = Vec::new(alloc);
    write_start(&mut text, &plan.parts().start, findings.start_holds)?;
    write_segments(&mut text, plan, findings.segments.as_slice())?;
    write_cover(&mut text, &findings.cover)?;
    write_sound(&mut text, is_sound(findings))?;
    Ok(text)
}

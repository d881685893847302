//! Findings of sound plans.
ghost use Rattle.std.specs.Prelude.{◌≡◌, ◌↔◌, IsTrue};
ghost use Rattle.std.specs.List.{list_all};
ghost use Rattle.lucy_plan.specs.declared.parts.PlanParts.{PlanParts};
ghost use Rattle.lucy_plan.specs.Plans.{IsPlan};
ghost use Rattle.lucy_plan.specs.Soundness.{IsSound};
ghost use Rattle.lucy_findings.specs.Findings as spec;

use crate::findings::{CoverFinding, Findings, SegmentFinding};
use crate::laws::sound_is_sound;

// Whether none of the segments is open.
fn none_open(segments: &[SegmentFinding]) -> bool
    ensures { result ≡ list_all spec.is_not_open segments.now }
{
    for segment in segments {
        if let SegmentFinding::Open { .. } = segment {
            return false;
        }
    }
    true
}

fn is_covered(cover: &CoverFinding) -> bool
    ensures { result ≡ spec.is_covered cover.now }
{
    match cover {
        CoverFinding::Holds(_) => true,
        CoverFinding::Uncovered(_) => false,
    }
}

/// Whether a plan is found to be sound: its start satisfies the invariant, no segment is open, and the cover holds. A
/// plan is found to be so exactly where it is.
pub fn is_sound(findings: &Findings) -> bool
    ensures value { result ≡ spec.is_sound findings.now }
    ensures sound { (plan : PlanParts) → IsPlan plan → spec.AreFindings plan findings.now → IsTrue result ↔ IsSound plan }
{
    sound_is_sound();
    findings.start_holds && none_open(findings.segments.as_slice()) && is_covered(&findings.cover)
}

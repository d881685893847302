//! The certificate of a plan that is found sound.
ghost use Rattle.std.specs.Prelude.{◌≡◌, ◌++◌, ◌∷◌, [], ◌<◌, ◌^◌, max, IfOk, None, Some, true, length};
ghost use Rattle.std.specs.List.{list_all};
ghost use Rattle.lucy_cert.specs.Names.{ascend};
ghost use Rattle.lucy_cert.specs.Certificates.{part_names, contents};
ghost use Rattle.lucy_cert.specs.Writable.{is_writable, cert_part_fits, name_fits};
ghost use Rattle.lucy_trim.specs.Trimming.{trimmed, live_of};
ghost use Rattle.lucy_judge.specs.Judging.{refusal_of};
ghost use Rattle.lucy_findings.specs.Findings.{IsRefutation, AreFindings, IsSegmentFinding, AreSegmentFindings, IsCoverFinding, is_sound};
ghost use Rattle.lucy_findings.specs.Certifying as spec;

use crate::findings::{CoverFinding, Findings, SegmentFinding};
use crate::laws::found_sound_is_accepted;
use lucy_cert::{Certificate, PartName, Proof};
use lucy_clauses::Formula;
use lucy_closure::{closure_formula, cover_formula};
use lucy_plan::Plan;
use lucy_trim::trim;
use sqlite_items::Items;
use std::alloc::{AllocError, Global};

/// Parts of a certificate, and the greatest number of their live clauses.
#[derive(Drop)]
pub struct Parts {
    /// Each with its name.
    pub items: Items<(PartName, Proof)>,
    /// The number.
    pub most: u64,
}

// One part more, with the proof trimmed.
fn with_part(
    alloc: Global,
    parts: Parts,
    name: PartName,
    formula: &Formula,
    proof: &Proof,
) -> Result<Parts, AllocError>
    requires proof { IsRefutation formula.now proof.now }
    requires name { name_fits name ≡ true }
    ensures items { IfOk result (λ p. p.items ≡ parts.items ++ (name, trimmed formula.now proof.now) ∷ []) }
    ensures most { IfOk result (λ p. p.most ≡ max parts.most (live_of (trimmed formula.now proof.now))) }
    ensures fits { IfOk result (λ p. list_all (cert_part_fits true) parts.items ≡ true → list_all (cert_part_fits true) p.items ≡ true) }
{
    let Parts { items, most } = parts;
    let mut items = items;
    let (trimmed, live) = trim(alloc, formula, proof)?;
    items.push((name, trimmed))?;
    Ok(Parts {
        items,
        most: most.max(live),
    })
}

// One part more, where a segment is closed.
fn with_segment(
    alloc: Global,
    plan: &Plan,
    parts: Parts,
    segment: u32,
    finding: &SegmentFinding,
) -> Result<Parts, AllocError>
    requires there { segment < length plan.now.segments }
    requires finding { IsSegmentFinding plan.now segment finding.now }
    ensures items { IfOk result (λ p. p.items ≡ parts.items ++ spec.closure_part plan.now segment finding.now) }
    ensures most { IfOk result (λ p. p.most ≡ max parts.most (spec.most_of (spec.closure_part plan.now segment finding.now))) }
    ensures fits { IfOk result (λ p. list_all (cert_part_fits true) parts.items ≡ true → list_all (cert_part_fits true) p.items ≡ true) }
{
    let _parts = plan.parts();
    match finding {
        SegmentFinding::Closed(proof) => {
            let formula = closure_formula(alloc, plan, segment)?;
            with_part(alloc, parts, PartName::Closure(segment), &formula, proof)
        }
        SegmentFinding::Idle | SegmentFinding::Open { .. } => Ok(parts),
    }
}

// The parts of the segments that are closed.
fn with_segments(
    alloc: Global,
    plan: &Plan,
    findings: &[SegmentFinding],
) -> Result<Parts, AllocError>
    requires all { length findings.now ≡ length plan.now.segments }
    requires findings { AreSegmentFindings plan.now 0 findings.now }
    ensures items { IfOk result (λ p. p.items ≡ spec.closure_parts plan.now 0 findings.now) }
    ensures most { IfOk result (λ p. p.most ≡ spec.most_of (spec.closure_parts plan.now 0 findings.now)) }
    ensures fits { IfOk result (λ p. list_all (cert_part_fits true) p.items ≡ true) }
{
    let _parts = plan.parts();
    let mut parts = Parts {
        items: Items::new(alloc),
        most: 0,
    };
    for (segment, finding) in findings.iter().enumerate() {
        parts = with_segment(alloc, plan, parts, segment as u32, finding)?;
    }
    Ok(parts)
}

// One part more, where the cover holds.
fn with_cover(
    alloc: Global,
    plan: &Plan,
    parts: Parts,
    finding: &CoverFinding,
) -> Result<Parts, AllocError>
    requires { IsCoverFinding plan.now finding.now }
    ensures items { IfOk result (λ p. p.items ≡ parts.items ++ spec.cover_part plan.now finding.now) }
    ensures most { IfOk result (λ p. p.most ≡ max parts.most (spec.most_of (spec.cover_part plan.now finding.now))) }
    ensures fits { IfOk result (λ p. list_all (cert_part_fits true) parts.items ≡ true → list_all (cert_part_fits true) p.items ≡ true) }
{
    match finding {
        CoverFinding::Holds(proof) => {
            let formula = cover_formula(alloc, plan)?;
            with_part(alloc, parts, PartName::Cover, &formula, proof)
        }
        CoverFinding::Uncovered(_) => Ok(parts),
    }
}

// A number has 64 bits.
fn narrow(number: u64)
    ensures { number < 2 ^ 64 }
{
    let _number = number;
}

// The certificate of these parts.
fn of_parts(parts: Parts) -> Certificate
    requires ascend { ascend (part_names parts.items) ≡ true }
    ensures value { result ≡ contents parts.items (Some parts.most) }
    ensures writable { list_all (cert_part_fits true) parts.items ≡ true → is_writable result ≡ true }
{
    let Parts { items, most } = parts;
    narrow(most);
    Certificate {
        parts: items,
        live: Some(most),
    }
}

// The certificate of what was found.
fn made(alloc: Global, plan: &Plan, findings: &Findings) -> Result<Certificate, AllocError>
    requires { AreFindings plan.now findings.now }
    ensures value { IfOk result (λ c. c ≡ spec.certificate_of plan.now findings.now) }
    ensures writable { IfOk result (λ c. is_writable c ≡ true) }
{
    let closures = with_segments(alloc, plan, findings.segments.as_slice())?;
    let parts = with_cover(alloc, plan, closures, &findings.cover)?;
    Ok(of_parts(parts))
}

/// The certificate of a plan that is found sound: the trimmed proof of each closed segment, ascending, then that of the
/// cover, and the greatest of their numbers of live clauses. It is accepted for the plan, and it can be written.
pub fn certificate(
    alloc: Global,
    plan: &Plan,
    findings: &Findings,
) -> Result<Certificate, AllocError>
    requires findings { AreFindings plan.now findings.now }
    requires sound { is_sound findings.now ≡ true }
    ensures value { IfOk result (λ c. c ≡ spec.certificate_of plan.now findings.now) }
    ensures writable { IfOk result (λ c. is_writable c ≡ true) }
    ensures accepted { IfOk result (λ c. refusal_of plan.now c ≡ None) }
{
    found_sound_is_accepted();
    let certificate = made(alloc, plan, findings)?;
    Ok(certificate)
}

use crate::causes::By;
use lucy_model::{Raw, State};
use lucy_plan::{Plan, first_segment, first_segment_is_first};
use std::alloc::{AllocError, Global};
use std::marker::Model;
use std::sync::Arc;

/// An epoch's record: its number, the segment in which its replicas commit, the state that they
/// open it with, the plan, and the call that opened it, if one did. The opening is in the segment.
#[derive(Drop)]
pub struct Epoch {
    number: u64,
    segment: u32,
    opening: Arc<State>,
    plan: Arc<Plan>,
    by: Option<By>,
}

impl Model for Epoch {
    ghost use Rattle.std.specs.Arc.{arc_value};
    ghost use Rattle.lucy_plan.specs.Segments.{IsInSegment};
    ghost use Rattle.lucy_epochs.specs.Records.{Record, record_code};

    ghost Value = { Record };

    ghost coded = { record_code };

    ghost view = { λ e. record { number = e.number; segment = e.segment; opening = arc_value e.opening; plan = arc_value e.plan; by = e.by } };

    ghost invariant = { λ e. IsInSegment (arc_value e.plan) e.segment (arc_value e.opening) };
}

ghost use Rattle.std.specs.Prelude.{◌≡◌, ◌<◌, ◌^◌, ◌↔◌, IsTrue, IsSome, Some, IfOk, length};
ghost use Rattle.std.specs.Arc.{arc_value};
ghost use Rattle.lucy_plan.specs.Segments as segments;
ghost use Rattle.lucy_epochs.specs.Records.{first_record};

impl Epoch {
    /// The record with these fields.
    pub fn new(
        number: u64,
        segment: u32,
        opening: Arc<State>,
        plan: Arc<Plan>,
        by: Option<By>,
    ) -> Epoch
        requires { segments.IsInSegment (arc_value plan) segment (arc_value opening) }
        ensures { result ≡ record {
          number = number;
          segment = segment;
          opening = arc_value opening;
          plan = arc_value plan;
          by = by;
        } }
    {
        Epoch {
            number,
            segment,
            opening,
            plan,
            by,
        }
    }

    /// The record that all replicas of a plan begin at. Its start is in a segment.
    pub fn first(alloc: Global, plan: Arc<Plan>) -> Result<Epoch, AllocError>
        requires { IsSome (segments.first_segment (arc_value plan) (arc_value plan).start) }
        ensures { IfOk result (λ e. e ≡ first_record (arc_value plan)) }
    {
        let (segment, opening) = opening_of(alloc, &plan)?;
        Ok(Epoch::new(0, segment, opening, plan, None))
    }

    /// Its place in the list of records.
    pub fn number(&self) -> u64
        ensures { result ≡ self.now.number }
    {
        self.number
    }

    /// The segment in which its replicas commit.
    pub fn segment(&self) -> u32
        ensures { result ≡ self.now.segment }
    {
        self.segment
    }

    /// The state that its replicas open it with, which is in its segment.
    pub fn opening(&self) -> &Arc<State>
        ensures state { arc_value result.now ≡ self.now.opening }
        ensures in_segment { segments.IsInSegment self.now.plan self.now.segment self.now.opening }
    {
        &self.opening
    }

    /// The plan that it is of.
    pub fn plan(&self) -> &Arc<Plan>
        ensures { arc_value result.now ≡ self.now.plan }
    {
        &self.plan
    }

    /// The call that opened it: none did at the first record.
    pub fn by(&self) -> Option<By>
        ensures { result ≡ self.now.by }
    {
        self.by
    }

    /// Whether two records are equal, field by field. Their plans, which are long, are read last, and
    /// only where all else is equal.
    pub fn is_same(&self, other: &Epoch) -> bool
        ensures { IsTrue result ↔ (self.now ≡ other.now) }
    {
        self.number == other.number
            && self.segment == other.segment
            && self.by == other.by
            && self.opening.is_same(&other.opening)
            && self.plan.is_same(&other.plan)
    }

    /// Whether two records of one plan are equal, field by field. It does not read the plan.
    pub fn is_same_of_plan(&self, other: &Epoch) -> bool
        requires { self.now.plan ≡ other.now.plan }
        ensures { IsTrue result ↔ (self.now ≡ other.now) }
    {
        self.number == other.number
            && self.segment == other.segment
            && self.by == other.by
            && self.opening.is_same(&other.opening)
    }
}

/// The first segment that the start of a plan is in, and the start, to be shared.
fn opening_of(alloc: Global, plan: &Plan) -> Result<(u32, Arc<State>), AllocError>
    requires { IsSome (segments.first_segment plan.now plan.now.start) }
    ensures segment { IfOk result (λ found. segments.first_segment plan.now plan.now.start ≡ Some found.0) }
    ensures start { IfOk result (λ found. arc_value found.1 ≡ plan.now.start) }
    ensures inside { IfOk result (λ found. segments.IsInSegment plan.now found.0 (arc_value found.1)) }
{
    first_segment_is_first();
    let parts = plan.parts();
    let Some(segment) = segment_of(alloc, plan, &parts.start)? else {
        unreachable!()
    };
    let opening = shared_copy(alloc, &parts.start)?;
    Ok((segment, opening))
}

/// A copy of a state, to be shared.
fn shared_copy(alloc: Global, state: &State) -> Result<Arc<State>, AllocError>
    ensures { IfOk result (λ copy. arc_value copy ≡ state.now) }
{
    let copy = state.clone()?;
    let shared = Arc::new(alloc, copy)?;
    Ok(shared)
}

/// The first segment that a state is in.
fn segment_of(alloc: Global, plan: &Plan, state: &State) -> Result<Option<u32>, AllocError>
    requires length { length state.now ≡ length plan.now.object }
    requires few { length state.now < 2 ^ 32 }
    ensures { IfOk result (λ segment. segment ≡ segments.first_segment plan.now state.now) }
{
    let raw = raw_of(alloc, state)?;
    let segment = first_segment(plan, &raw);
    Ok(segment)
}

/// The numbers of a state.
fn raw_of(alloc: Global, state: &State) -> Result<Raw, AllocError>
    requires { length state.now < 2 ^ 32 }
    ensures { IfOk result (λ raw. raw ≡ state.now) }
{
    let mut raw = Raw::new(alloc, state.length())?;
    for leaf in 0..raw.length() as u32 {
        raw.set(leaf, i128::from(state.get(leaf)));
    }
    Ok(raw)
}

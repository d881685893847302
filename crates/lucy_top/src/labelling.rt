//! `label`.

ghost use Rattle.std.specs.Prelude.{◌≡◌, ◌≤◌, Option, IfOk, IfSome};
ghost use Rattle.std.specs.Arc.{arc_value};
ghost use Rattle.lucy_io.specs.Inputs.{Told};
ghost use Rattle.lucy_names.specs.Plans.{AreNamesOf};
ghost use Rattle.lucy_report.specs.VerdictLines.{start_breaks};
ghost use Rattle.lucy_top.specs.Labelling.{Begins, Labels};

use crate::answering::finish;
use crate::conversing::{converse, say_last};
use crate::loading::load_plan;
use lucy_io::{Inputs, Sink, Source};
use lucy_names::Names;
use lucy_plan::Plan;
use lucy_report::write_start_breaks;
use lucy_session::{Session, SessionError};
use std::alloc::{AllocError, Global};
use std::sync::Arc;

fn start_text(alloc: Global, plan: &Plan) -> Result<Vec<u8>, AllocError>
    ensures { IfOk result (λ t. t.items ≡ start_breaks plan.now.start) }
{
    let mut text = Vec::new(alloc);
    write_start_breaks(&mut text, &plan.parts().start)?;
    Ok(text)
}

// A session over a plan, where its start satisfies the invariant.
fn begin<S: Source, K: Sink>(
    alloc: Global,
    source: &mut S,
    sink: &mut K,
    plan: &Arc<Plan>,
    names: Names,
    walk: Option<(u64, u32)>,
) -> u8
    requires names { AreNamesOf (arc_value plan.now) names }
    requires walk { IfSome walk (λ w. w.1 ≤ 1000) }
    ensures begins { Begins (arc_value plan.now) walk (S.left source.old) (S.left source.new) (K.held sink.old) (K.held sink.new)
        (S.faults source.old) (S.faults source.new) (K.faults sink.old) (K.faults sink.new) result }
    ensures later { K.faults sink.old ≤ K.faults sink.new }
{
    let Ok(shared) = plan.clone() else {
        return 7;
    };
    match Session::new(alloc, shared, names) {
        Ok(session) => {
            let mut session = session;
            converse(alloc, source, sink, &mut session, walk)
        }
        Err(SessionError::StartBreaks) => say_last(sink, start_text(alloc, plan), 1),
        Err(SessionError::OutOfMemory) => 7,
    }
}

/// `label PLAN` and `label PLAN SEED LENGTH`: a session of labels over a plan, up to its end, whose status is told. A
/// walk's length is at most 1,000.
pub fn label<I: Inputs, S: Source, K: Sink>(
    alloc: Global,
    inputs: &mut I,
    source: &mut S,
    sink: &mut K,
    plan_name: &str,
    walk: Option<(u64, u32)>,
) -> u8
    requires walk { IfSome walk (λ w. w.1 ≤ 1000) }
    ensures told { I.told inputs.new ≡ I.told inputs.old }
    ensures labels { (told : Option Told) → told ≡ I.told inputs.old → Labels plan_name.now walk told (I.journal inputs.old) (I.journal inputs.new)
        (S.left source.old) (S.left source.new) (K.held sink.old) (K.held sink.new)
        (S.faults source.old) (S.faults source.new) (K.faults sink.old) (K.faults sink.new) result }
    ensures later { K.faults sink.old ≤ K.faults sink.new }
{
    match load_plan(alloc, inputs, plan_name) {
        Ok((plan, names)) => begin(alloc, source, sink, &plan, names, walk),
        Err(stop) => finish(sink, Err(stop)),
    }
}

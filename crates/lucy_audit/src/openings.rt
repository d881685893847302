//! Whether each record was opened from the one before it, by a call that has the reply that it did.
ghost use Rattle.std.specs.Prelude.{◌≡◌, ◌<◌, ◌↔◌, IsTrue, length, map, Some, slice_get, OnOk, IfOk, IfErr};
ghost use Rattle.std.specs.Option.{option_map};
ghost use Rattle.std.specs.Arc.{arc_value};
ghost use Rattle.lucy_model.specs.Merging as merging;
ghost use Rattle.lucy_plan.specs.Calls.{Fits};
ghost use Rattle.lucy_epochs.specs.Records.{next_opening};
ghost use Rattle.lucy_replica.specs.Replicas.{Stay, stays};
ghost use Rattle.lucy_replica.specs.Openings.{trees_in};
ghost use Rattle.lucy_replica.specs.Answering.{answer_of};
ghost use Rattle.lucy_audit.specs.Differences.{IsLater, named_reply, id_of};
ghost use Rattle.lucy_audit.specs.Checks.{left_of, IsCause, AreFine, IsOpened, IsNamed, named_call, AreFirst, IsMoveOf, IsMoveBy, HadAll, states_in, IsOpeningOf};

use crate::differences::{Difference, Stop};
use crate::kept::{Kept, record_of};
use lucy_epochs::{By, Epoch};
use lucy_expr::Id;
use lucy_model::{Raw, State, merge};
use lucy_plan::{Call, apply, first_segment, segment_is_whole};
use lucy_replica::{Life, Reply};
use std::alloc::{AllocError, Global};
use std::sync::Arc;

impl Kept<'_> {
    /// Whether each record of the first replica was opened from the one before it.
    pub fn compare_openings(&self, alloc: Global) -> Result<(), Stop>
        requires fine { AreFine (left_of self.now) }
        ensures ok { OnOk result ((number : _) → IsOpened (left_of self.now) number) }
        ensures err { IfErr result (λ stop. IsCause (left_of self.now) stop) }
    {
        let Some(first) = self.lives.first() else {
            return Ok(());
        };
        for number in 0..first.closings().len() {
            self.compare_opening(alloc, number)?;
        }
        Ok(())
    }

    // Whether the record after the one of this number was.
    fn compare_opening(&self, alloc: Global, number: usize) -> Result<(), Stop>
        requires fine { AreFine (left_of self.now) }
        ensures ok { OnOk result (IsOpened (left_of self.now) number) }
        ensures err { IfErr result (λ stop. IsCause (left_of self.now) stop) }
    {
        let Some((before, after)) = self.two_records(number) else {
            return Ok(());
        };
        let by = self.compare_name(before, after)?;
        let Some(call) = self.call_of(by) else {
            unreachable!()
        };
        let result = self.opening(alloc, number, before, call)?;
        if is_opening_of(after, &result) {
            return Ok(());
        }
        let kept = after.clone()?;
        Err(Stop::Found(Difference::Opening { kept, result }))
    }

    // The first replica's record of this number, and the one after it, where it has both.
    fn two_records(&self, number: usize) -> Option<(&Arc<Epoch>, &Arc<Epoch>)>
        ensures { AreFirst (left_of self.now) number (option_map (λ (two : _). (arc_value two.0.now, arc_value two.1.now)) result) }
    {
        let first = self.lives.first()?;
        let closings = first.closings();
        if number >= closings.len() {
            return None;
        }
        let after = record_of(first, number + 1)?;
        Some((&closings[number].epoch, after))
    }

    // The call that opened a record, whose reply says so.
    fn compare_name(&self, before: &Arc<Epoch>, after: &Arc<Epoch>) -> Result<By, Stop>
        requires later { IsLater (left_of self.now) (arc_value before.now) (arc_value after.now) }
        ensures ok { IfOk result (λ by. IsNamed (left_of self.now) (arc_value after.now) by) }
        ensures err { IfErr result (λ stop. IsCause (left_of self.now) stop) }
    {
        let reply = self.reply_of(after.by());
        if let Some(by) = move_to(after, reply) {
            return Ok(by);
        }
        let kept = after.clone()?;
        let reply = shared_reply(reply)?;
        Err(Stop::Found(Difference::Named { kept, reply }))
    }

    // The reply of the call that this names.
    fn reply_of(&self, by: Option<By>) -> Option<&Reply>
        ensures { option_map (λ (reply : _). answer_of reply.now) result ≡ named_reply (left_of self.now).replicas by }
    {
        let by = by?;
        let life = self.lives.get(by.replica as usize)?;
        life.replies().get(by.place as usize)
    }

    // The call that this names.
    fn call_of(&self, by: By) -> Option<&Call>
        ensures { option_map (λ (call : _). call.now) result ≡ named_call (left_of self.now).replicas by }
    {
        let life = self.lives.get(by.replica as usize)?;
        life.calls().get(by.place as usize)
    }

    // What a call gives on the merge of what all replicas had of the record of this number.
    fn opening(
        &self,
        alloc: Global,
        number: usize,
        before: &Epoch,
        call: &Call,
    ) -> Result<Raw, AllocError>
        requires some { 0 < length self.now.lives.now }
        requires had { HadAll before.now number (left_of self.now).replicas }
        requires fits { Fits before.now.plan call.now }
        ensures value { IfOk result (λ raw. raw ≡ next_opening before.now (trees_in (left_of self.now).replicas number) call.now) }
        ensures length { IfOk result (λ raw. length raw ≡ length before.now.plan.object) }
    {
        let plan = before.plan();
        let state = merged(alloc, before, self.lives, number)?;
        let mut raw = Raw::new(alloc, state.length())?;
        apply(plan, call, &state, &mut raw);
        Ok(raw)
    }
}

// The call that opened a record, where this is the reply that it did.
fn move_to(after: &Epoch, reply: Option<&Reply>) -> Option<By>
    ensures { IsMoveBy after.now (option_map (λ (told : _). answer_of told.now) reply.entry) result }
{
    let by = after.by()?;
    let reply = reply?;
    if is_move(after, by, reply) {
        return Some(by);
    }
    None
}

// Whether this is the reply that the call that this names opened a record.
fn is_move(after: &Epoch, by: By, reply: &Reply) -> bool
    ensures { IsTrue result ↔ IsMoveOf after.now by (answer_of reply.now) }
{
    match reply {
        Reply::Moved { epoch, id, .. } => is_of(by, *id) && epoch.is_same(after),
        Reply::Done { .. } | Reply::Broken { .. } | Reply::Refused { .. } => false,
    }
}

// Whether this is the id of the call that this names.
fn is_of(by: By, id: Id) -> bool
    ensures { IsTrue result ↔ (id ≡ id_of by) }
{
    by.replica == id.replica && by.count == id.count
}

// The same reply again.
fn shared_reply(reply: Option<&Reply>) -> Result<Option<Reply>, AllocError>
    ensures { IfOk result (λ again. option_map answer_of again ≡ option_map (λ (told : _). answer_of told.now) reply.entry) }
{
    match reply {
        None => Ok(None),
        Some(reply) => Ok(Some(shared(reply)?)),
    }
}

fn shared(reply: &Reply) -> Result<Reply, AllocError>
    ensures { IfOk result (λ again. answer_of again ≡ answer_of reply.now) }
{
    match reply {
        Reply::Done { epoch, id } => {
            let epoch = epoch.clone()?;
            Ok(Reply::Done { epoch, id: *id })
        }
        Reply::Broken { epoch, point } => {
            let epoch = epoch.clone()?;
            let point = point.share()?;
            Ok(Reply::Broken { epoch, point })
        }
        Reply::Moved { epoch, point, id } => {
            let epoch = epoch.clone()?;
            let point = point.share()?;
            let id = *id;
            Ok(Reply::Moved { epoch, point, id })
        }
        Reply::Refused { point, parts } => {
            let point = point.share()?;
            let parts = parts.clone()?;
            Ok(Reply::Refused { point, parts })
        }
    }
}

// Whether these numbers are the opening of a record, and its segment is their first one.
fn is_opening_of(after: &Epoch, raw: &Raw) -> bool
    requires { length raw.now ≡ length after.now.plan.object }
    ensures { IsOpeningOf after.now raw.now result }
{
    if !raw.is_state(after.opening()) {
        return false;
    }
    match first_segment(after.plan(), raw) {
        None => false,
        Some(segment) => segment == after.segment(),
    }
}

// The merge of what all replicas had of the record of this number.
fn merged(alloc: Global, before: &Epoch, lives: &[Life], number: usize) -> Result<State, AllocError>
    requires some { 0 < length lives.now }
    requires had { HadAll before.now number (map (λ life. life.replica) lives.now) }
    ensures state { IfOk result (λ state. state ≡ merging.merged_all before.now.plan.object (states_in before.now number (map (λ life. life.replica) lives.now))) }
    ensures length { IfOk result (λ state. length state ≡ length before.now.plan.object) }
{
    segment_is_whole();
    let object = before.plan().parts().object.as_slice();
    let mut state = copied(state_at(&lives[0], number))?;
    for place in 1..lives.len() {
        state = merge(alloc, object, &state, state_at(&lives[place], number))?;
    }
    Ok(state)
}

// The same state again.
fn copied(state: &State) -> Result<State, AllocError>
    ensures { IfOk result (λ copy. copy ≡ state.now) }
{
    state.clone()
}

// What a replica had of the record of this number, of which it has something.
fn state_at(life: &Life, number: usize) -> &Arc<State>
    ensures { (stay : Stay) → slice_get (stays life.now.replica) number ≡ Some stay → arc_value result.now ≡ stay.state }
{
    match life.closings().get(number) {
        Some(closing) => &closing.state,
        None => life.state(),
    }
}

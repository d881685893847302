use crate::answers::{Adoption, Received, Submitted};
use crate::laws::{newcomer_is_settled, same_exactly};
use crate::packets::Packet;
use crate::replies::{Closing, Reply};
use lucy_epochs::{By, Epoch, Grant, Part, Parts, Shares};
use lucy_expr::{Expr, Id, closed_segment_holds_values};
use lucy_judge::Checked;
use lucy_model::{Raw, State, merge, merge_is_idempotent};
use lucy_plan::{Call, Plan, apply, in_segment, segment_is_whole, settle, whole};
use std::alloc::{AllocError, Global};
use std::marker::Model;
use std::mem;
use std::sync::Arc;

/// One replica: the value behind its lock. Contracts see it as a replica without pointers, whose
/// type keeps that its records are numbered in order, that its state is the value of its expression
/// and in the segment of its record, and that its replies are right and in the order of its calls.
#[derive(Drop)]
pub struct Life {
    checked: Arc<Checked>,
    replica: u32,
    epoch: Arc<Epoch>,
    state: Arc<State>,
    expr: Expr,
    mark: Option<Expr>,
    calls: Vec<Call>,
    replies: Vec<Reply>,
    closings: Vec<Closing>,
    accepted: u32,
    // What the next adoption begins with, with the room of the present expression.
    opening: Option<Expr>,
}

impl Model for Life {
    ghost use Rattle.lucy_replica.specs.Replicas.{Seen};
    ghost use Rattle.lucy_replica.specs.Codes.{seen_code};

    ghost Value = { Seen };

    ghost coded = { seen_code };

    ghost use Rattle.lucy_replica.specs.Views.{seen_of, IsLife};

    ghost view = { seen_of };

    ghost invariant = { IsLife };
}

ghost use Rattle.std.specs.Prelude.{◌≡◌, ◌==◌, ◌<◌, ◌≤◌, ◌↔◌, map, length, ℕ, Some, slice_get, vec_len, IfOk, OnOk, OnErr, IsTrue, false};
ghost use Rattle.std.specs.List.{list_any};
ghost use Rattle.std.specs.Bool.{OnTrue};
ghost use Rattle.std.specs.Option.{option_map};
ghost use Rattle.std.specs.Arc.{arc_value};
ghost use Rattle.lucy_model.specs.Merging as merging;
ghost use Rattle.lucy_plan.specs.Calls.{Fits};
ghost use Rattle.lucy_plan.specs.Segments as segments;
ghost use Rattle.lucy_expr.specs.Reachability as reachability;
ghost use Rattle.lucy_epochs.specs.Records.{first_record};
ghost use Rattle.lucy_replica.specs.Replicas as machine;
ghost use Rattle.lucy_replica.specs.Submitting as submitting;
ghost use Rattle.lucy_replica.specs.Receiving as receiving;
ghost use Rattle.lucy_plan.specs.declared.parts.Call.{Call};
ghost use Rattle.lucy_epochs.specs.declared.causes.By.{By};
ghost use Rattle.lucy_replica.specs.Changing as changing;
ghost use Rattle.lucy_replica.specs.declared.answers.Adoption.TheVariants as adoption;
ghost use Rattle.lucy_replica.specs.Suiting.{IsNext, IsOpener, IsOutvoted, Suits};
ghost use Rattle.lucy_replica.specs.Facts.{IsSettled};
ghost use Rattle.lucy_replica.specs.Answering.{answer_of, stay_of};

impl Life {
    /// The replica of this number, one of so many, at the first record of a checked plan. It has
    /// tried none of its calls, of which there are at most 4,096.
    pub fn new(
        alloc: Global,
        checked: Arc<Checked>,
        replica: u32,
        replicas: u32,
        first: Arc<Epoch>,
        work: Vec<Call>,
    ) -> Result<Life, AllocError>
        requires number { replica < replicas }
        requires first { arc_value first ≡ first_record (arc_value checked) }
        requires fits { (place : ℕ) (call : _) → slice_get work.items place ≡ Some call → Fits (arc_value checked) call }
        requires few { length work.items ≤ 4096 }
        ensures { IfOk result (λ life. life.replica ≡ machine.newcomer replica replicas (arc_value first) work.items) }
    {
        newcomer_is_settled();
        // What a plan keeps, and what a checked one does, is known from here on.
        let _parts = checked.plan().parts();
        let state = first.opening().clone()?;
        let expr = Expr::start(alloc, replicas)?;
        Ok(Life {
            checked,
            replica,
            epoch: first,
            state,
            expr,
            mark: None,
            calls: work,
            replies: Vec::new(alloc),
            closings: Vec::new(alloc),
            accepted: 0,
            opening: None,
        })
    }

    /// What the type keeps, for callers. It does nothing.
    pub fn facts(&self)
        ensures { IsSettled self.now.replica }
    {
        let _replica = &self.replica;
    }

    /// The replica's number.
    pub fn replica(&self) -> u32
        ensures { result ≡ self.now.replica.number }
    {
        self.replica
    }

    /// Its present record.
    pub fn epoch(&self) -> &Arc<Epoch>
        ensures { arc_value result.now ≡ self.now.replica.epoch }
    {
        &self.epoch
    }

    /// Its state, which is the value of its expression.
    pub fn state(&self) -> &Arc<State>
        ensures { arc_value result.now ≡ machine.state_of self.now.replica }
    {
        &self.state
    }

    /// How its state was made.
    pub fn expr(&self) -> &Expr
        ensures { result.now ≡ self.now.replica.expression }
    {
        &self.expr
    }

    /// Where it wants a change, if it does.
    pub fn mark(&self) -> Option<&Expr>
        ensures { option_map (λ (point : _). point.now.tree) result ≡ self.now.replica.wanted }
    {
        self.mark.as_ref()
    }

    /// Its replies, in the order of its calls.
    pub fn replies(&self) -> &[Reply]
        ensures { map answer_of result.now ≡ self.now.replica.replies }
    {
        self.replies.as_slice()
    }

    /// What it had of the records before the present one, the oldest first.
    pub fn closings(&self) -> &[Closing]
        ensures { map stay_of result.now ≡ self.now.replica.closings }
    {
        self.closings.as_slice()
    }

    /// How many of its calls were accepted.
    pub fn accepted(&self) -> u32
        ensures { result ≡ submitting.accepted self.now.replica }
    {
        self.accepted
    }

    /// Its whole work, in order.
    pub fn calls(&self) -> &[Call]
        ensures { result.now ≡ self.now.replica.calls }
    {
        self.calls.as_slice()
    }

    /// The call that it tries next: the first one without a reply.
    pub fn next(&self) -> Option<&Call>
        ensures { option_map (λ (call : _). call.now) result ≡ submitting.next_call self.now.replica }
    {
        self.calls.get(self.replies.len())
    }

    /// It tries the next of its calls. `Done` and `Broken` are replies, `Wants` sets the mark.
    pub fn submit(&mut self, alloc: Global) -> Result<Submitted, AllocError>
        ensures step { IfOk result (λ s. (s ≡ (submitting.submitted self.old.replica).0) × (self.new.replica ≡ (submitting.submitted self.old.replica).1)) }
        ensures err { OnErr result (self.new.replica ≡ self.old.replica) }
    {
        let Some(call) = self.next() else {
            return Ok(Submitted::Ended);
        };
        let call = call.copied(alloc)?;
        let result = self.result(alloc, &call)?;
        self.reply(alloc, call, &result)
    }

    /// What it sends: its record, its state and its expression.
    pub fn publish(&self) -> Result<Packet, AllocError>
        ensures { IfOk result (λ packet. packet ≡ submitting.published self.now.replica) }
    {
        let epoch = self.epoch.clone()?;
        let state = self.state.clone()?;
        let expr = self.expr.share()?;
        Ok(Packet::new(epoch, state, expr))
    }

    /// It takes over what another replica sent from the same record, its own expression left. `Stale`
    /// where the records differ, and else `Deep` where the deeper of both expressions is at the plan's
    /// limit of depth or past it; both leave it as it was, and so does want of memory.
    pub fn receive(&mut self, alloc: Global, packet: &Packet) -> Result<Received, AllocError>
        ensures step { IfOk result (λ r. (r ≡ (receiving.received packet.now self.old.replica).0) × (self.new.replica ≡ (receiving.received packet.now self.old.replica).1)) }
        ensures err { OnErr result (self.new.replica ≡ self.old.replica) }
    {
        if !self.is_same(packet) {
            return Ok(Received::Stale);
        }
        self.take_in(alloc, packet)
    }

    /// As `receive`, for a packet that is known to be of this replica's plan: the plans are not read.
    pub fn receive_of_plan(
        &mut self,
        alloc: Global,
        packet: &Packet,
    ) -> Result<Received, AllocError>
        requires { packet.now.epoch.plan ≡ self.old.replica.epoch.plan }
        ensures step { IfOk result (λ r. (r ≡ (receiving.received packet.now self.old.replica).0) × (self.new.replica ≡ (receiving.received packet.now self.old.replica).1)) }
        ensures err { OnErr result (self.new.replica ≡ self.old.replica) }
    {
        if !self.is_same_of_plan(packet) {
            return Ok(Received::Stale);
        }
        self.take_in(alloc, packet)
    }

    /// The call for which it wants a change, if it does, and how a record will name that call.
    pub fn wish(&self) -> Option<(&Call, By)>
        ensures { option_map (λ (w : _). let named : Call × By = (w.0.now, w.1) in named) result ≡ changing.wish_of self.now.replica }
    {
        if self.mark.is_none() {
            return None;
        }
        match self.next() {
            None => None,
            Some(call) => Some((call, self.next_by())),
        }
    }

    /// What it gives to a change: its record, its state and its expression.
    pub fn part(&self) -> Result<Part, AllocError>
        ensures { IfOk result (λ part. part ≡ changing.contributed self.now.replica) }
    {
        let epoch = self.epoch.clone()?;
        let state = self.state.clone()?;
        let expr = self.expr.share()?;
        Ok(Part::new(self.replica, epoch, state, expr))
    }

    /// Makes room for one adoption: for a closing, for a reply and for the expression that it begins
    /// with. The replica stays as it was, with want of memory too.
    pub fn reserve(&mut self, alloc: Global) -> Result<(), AllocError>
        ensures replica { self.new.replica ≡ self.old.replica }
        ensures ok { OnOk result (1 ≤ self.new.spare) }
    {
        let opening = self.expr.opening(alloc)?;
        self.closings.reserve(1)?;
        self.replies.reserve(1)?;
        self.opening = Some(opening);
        Ok(())
    }

    /// Acts by the ruling of a change, as the coordinator of it or not. It takes no memory: room was
    /// reserved, and the grant has the shares. A record that was opened comes after the present one,
    /// and its plan is the same. The coordinator of it wants a change, and the record names its next
    /// call; if the call was refused, its own part is among the parts, and the call's result on their
    /// merge breaks the invariant. Where a record was opened, what the replica had is kept as a
    /// closing, and the coordinator's call has the reply `Moved`. A call that was refused has the reply
    /// `Refused`. Else nothing changes.
    pub fn adopt(&mut self, grant: Grant, coordinator: bool) -> Adoption
        requires room { 1 ≤ self.old.spare }
        requires suits { Suits grant coordinator self.old.replica }
        ensures { changing.adopted grant coordinator self.old.replica ≡ (result, self.new.replica) }
    {
        match grant.into_shares() {
            Shares::Opened {
                epoch,
                second,
                opening,
            } => {
                if coordinator {
                    return self.lead(epoch, second, opening);
                }
                self.follow(epoch, opening)
            }
            Shares::Broken { parts } => {
                if coordinator {
                    return self.yield_to(parts);
                }
                Adoption::Kept
            }
            Shares::Nothing => Adoption::Kept,
        }
    }
}

// What a submit and a receive do, case by case: the case of each is its `requires`.
impl Life {
    // Replies to the next call, of which this is the result, or wants a change for it.
    fn reply(&mut self, alloc: Global, call: Call, raw: &Raw) -> Result<Submitted, AllocError>
        requires next { submitting.next_call self.old.replica ≡ Some call }
        requires value { raw.now ≡ submitting.result_of self.old.replica.epoch self.old.replica.expression.tree call }
        requires length { length raw.now ≡ length self.old.replica.epoch.plan.object }
        ensures step { IfOk result (λ s. (s ≡ (submitting.submitted self.old.replica).0) × (self.new.replica ≡ (submitting.submitted self.old.replica).1)) }
        ensures err { OnErr result (self.new.replica ≡ self.old.replica) }
    {
        if !self.is_whole(raw) {
            self.refuse(&call)?;
            return Ok(Submitted::Broken);
        }
        if !self.is_inside(&call, raw) {
            self.want(&call)?;
            return Ok(Submitted::Wants);
        }
        let state = settle(alloc, raw)?;
        let id = self.accept(alloc, call, state)?;
        Ok(Submitted::Done(id))
    }

    // What the next call makes of the state.
    fn result(&self, alloc: Global, call: &Call) -> Result<Raw, AllocError>
        requires next { submitting.next_call self.now.replica ≡ Some call.now }
        ensures value { IfOk result (λ raw. raw ≡ submitting.result_of self.now.replica.epoch self.now.replica.expression.tree call.now) }
        ensures length { IfOk result (λ raw. length raw ≡ length self.now.replica.epoch.plan.object) }
    {
        let mut raw = Raw::new(alloc, self.state.length())?;
        apply(self.epoch.plan(), call, &self.state, &mut raw);
        Ok(raw)
    }

    // Whether numbers satisfy the invariant.
    fn is_whole(&self, raw: &Raw) -> bool
        requires { length raw.now ≡ length self.now.replica.epoch.plan.object }
        ensures whole { result ≡ segments.is_whole self.now.replica.epoch.plan raw.now }
        ensures numbers { OnTrue result (segments.AreStateNumbers raw.now) }
    {
        whole(self.epoch.plan(), raw)
    }

    // Whether a call with this result is inside.
    fn is_inside(&self, call: &Call, raw: &Raw) -> bool
        requires length { length raw.now ≡ length self.now.replica.epoch.plan.object }
        requires result { raw.now ≡ submitting.result_of self.now.replica.epoch self.now.replica.expression.tree call.now }
        ensures { result ≡ submitting.is_inside self.now.replica.epoch self.now.replica.expression.tree call.now }
    {
        let plan = self.epoch.plan();
        lists(plan, self.epoch.segment(), call.txn)
            && self.stays_in(raw)
            && self.expr.depth() < plan.parts().depth
    }

    // Whether numbers are in the segment of the record.
    fn stays_in(&self, raw: &Raw) -> bool
        requires { length raw.now ≡ length self.now.replica.epoch.plan.object }
        ensures { result ≡ segments.is_in_segment self.now.replica.epoch.plan self.now.replica.epoch.segment raw.now }
    {
        in_segment(self.epoch.plan(), self.epoch.segment(), raw)
    }

    // Replies to the next call that its result breaks the invariant.
    fn refuse(&mut self, call: &Call) -> Result<(), AllocError>
        requires next { submitting.next_call self.old.replica ≡ Some call.now }
        requires breaks { submitting.Breaks self.old.replica.epoch self.old.replica.expression.tree call.now }
        ensures ok { OnOk result (self.new.replica ≡ submitting.with_broken self.old.replica) }
        ensures err { OnErr result (self.new.replica ≡ self.old.replica) }
    {
        let epoch = self.epoch.clone()?;
        let point = self.expr.share()?;
        self.replies.reserve(1)?;
        self.replies.push_reserved(Reply::Broken { epoch, point });
        self.mark = None;
        Ok(())
    }

    // Wants a change for the next call.
    fn want(&mut self, call: &Call) -> Result<(), AllocError>
        requires next { submitting.next_call self.old.replica ≡ Some call.now }
        requires outside { submitting.IsOutside self.old.replica.epoch self.old.replica.expression.tree call.now }
        ensures ok { OnOk result (self.new.replica ≡ submitting.with_wanted self.old.replica) }
        ensures err { OnErr result (self.new.replica ≡ self.old.replica) }
    {
        let point = self.expr.share()?;
        self.mark = Some(point);
        Ok(())
    }

    // Accepts the next call, of which this is the result.
    fn accept(&mut self, alloc: Global, call: Call, state: State) -> Result<Id, AllocError>
        requires next { submitting.next_call self.old.replica ≡ Some call }
        requires inside { submitting.IsInside self.old.replica.epoch self.old.replica.expression.tree call }
        requires state { state ≡ submitting.result_of self.old.replica.epoch self.old.replica.expression.tree call }
        ensures ok { IfOk result (λ id. (id ≡ submitting.next_id self.old.replica) × (self.new.replica ≡ submitting.with_done self.old.replica call)) }
        ensures err { OnErr result (self.new.replica ≡ self.old.replica) }
    {
        let id = Id {
            replica: self.replica,
            count: self.accepted,
        };
        let expr = self.expr.applied(alloc, id, call)?;
        let state = Arc::new(alloc, state)?;
        let epoch = self.epoch.clone()?;
        self.replies.reserve(1)?;
        self.replies.push_reserved(Reply::Done { epoch, id });
        self.expr = expr;
        self.state = state;
        self.mark = None;
        self.accepted += 1;
        Ok(id)
    }

    // Whether a packet was sent from the record that this replica has.
    fn is_same(&self, packet: &Packet) -> bool
        ensures test { result ≡ receiving.is_same_record self.now.replica.epoch packet.now.epoch }
        ensures equal { IsTrue result ↔ (self.now.replica.epoch ≡ packet.now.epoch) }
    {
        same_exactly();
        self.epoch.is_same(packet.epoch())
    }

    // The same, where it was sent from a record of this replica's plan.
    fn is_same_of_plan(&self, packet: &Packet) -> bool
        requires { packet.now.epoch.plan ≡ self.now.replica.epoch.plan }
        ensures test { result ≡ receiving.is_same_record self.now.replica.epoch packet.now.epoch }
        ensures equal { IsTrue result ↔ (self.now.replica.epoch ≡ packet.now.epoch) }
    {
        same_exactly();
        self.epoch.is_same_of_plan(packet.epoch())
    }

    // Answers to a packet of the same record.
    fn take_in(&mut self, alloc: Global, packet: &Packet) -> Result<Received, AllocError>
        requires same { self.old.replica.epoch ≡ packet.now.epoch }
        ensures step { IfOk result (λ r. (r ≡ (receiving.received packet.now self.old.replica).0) × (self.new.replica ≡ (receiving.received packet.now self.old.replica).1)) }
        ensures err { OnErr result (self.new.replica ≡ self.old.replica) }
    {
        same_exactly();
        if self.is_deep(packet) {
            return Ok(Received::Deep);
        }
        self.take_over(alloc, packet)?;
        Ok(Received::Merged)
    }

    // Whether this expression or a packet's is as deep as the plan allows.
    fn is_deep(&self, packet: &Packet) -> bool
        ensures { result ≡ receiving.is_deep self.now.replica packet.now }
    {
        self.expr.depth().max(packet.expr().depth()) >= self.epoch.plan().parts().depth
    }

    // Merges with a packet of the same record.
    fn take_over(&mut self, alloc: Global, packet: &Packet) -> Result<(), AllocError>
        requires same { self.old.replica.epoch ≡ packet.now.epoch }
        requires shallow { receiving.is_deep self.old.replica packet.now ≡ false }
        ensures ok { OnOk result (self.new.replica ≡ receiving.with_merged self.old.replica packet.now) }
        ensures err { OnErr result (self.new.replica ≡ self.old.replica) }
    {
        closed_segment_holds_values();
        merge_is_idempotent();
        segment_is_whole();
        let expr = self.expr.merged(alloc, packet.expr())?;
        let state = self.merged(alloc, packet.state())?;
        self.expr = expr;
        self.state = state;
        // The new expression may have more room.
        self.opening = None;
        Ok(())
    }

    // The merge of the state and another one of the object.
    fn merged(&self, alloc: Global, other: &State) -> Result<Arc<State>, AllocError>
        requires { length other.now ≡ length self.now.replica.epoch.plan.object }
        ensures { IfOk result (λ state. arc_value state ≡ merging.merged self.now.replica.epoch.plan.object (machine.state_of self.now.replica) other.now) }
    {
        let object = self.epoch.plan().parts().object.as_slice();
        let state = merge(alloc, object, &self.state, other)?;
        Ok(Arc::new(alloc, state)?)
    }
}

// What it does by a ruling, case by case.
impl Life {
    // How a record names the next call, of which there is one.
    fn next_by(&self) -> By
        requires { length self.now.replica.replies < length self.now.replica.calls }
        ensures { result ≡ changing.next_by self.now.replica }
    {
        By {
            replica: self.replica,
            place: self.replies.len() as u32,
            count: self.accepted,
        }
    }

    // Takes the next record.
    fn follow(&mut self, epoch: Arc<Epoch>, opening: Arc<State>) -> Adoption
        requires room { 1 ≤ self.old.spare }
        requires next { IsNext self.old.replica (arc_value epoch) }
        requires opening { arc_value opening ≡ (arc_value epoch).opening }
        ensures answer { result ≡ adoption.Adopted }
        ensures replica { self.new.replica ≡ changing.with_epoch self.old.replica (arc_value epoch) }
    {
        let Some(start) = self.opening.take() else {
            unreachable!()
        };
        let epoch = mem::replace(&mut self.epoch, epoch);
        let state = mem::replace(&mut self.state, opening);
        let expr = mem::replace(&mut self.expr, start);
        self.closings.push_reserved(Closing { epoch, state, expr });
        self.mark = None;
        Adoption::Adopted
    }

    // Takes the next record, which its next call opened.
    fn lead(&mut self, epoch: Arc<Epoch>, second: Arc<Epoch>, opening: Arc<State>) -> Adoption
        requires room { 1 ≤ self.old.spare }
        requires next { IsNext self.old.replica (arc_value epoch) }
        requires opener { IsOpener self.old.replica (arc_value epoch) }
        requires second { arc_value second ≡ arc_value epoch }
        requires opening { arc_value opening ≡ (arc_value epoch).opening }
        ensures { changing.moved self.old.replica (arc_value epoch) self.old.replica.wanted ≡ (result, self.new.replica) }
    {
        let Some(point) = self.mark.take() else {
            unreachable!()
        };
        let Some(start) = self.opening.take() else {
            unreachable!()
        };
        let id = Id {
            replica: self.replica,
            count: self.accepted,
        };
        let epoch = mem::replace(&mut self.epoch, epoch);
        let state = mem::replace(&mut self.state, opening);
        let expr = mem::replace(&mut self.expr, start);
        self.closings.push_reserved(Closing { epoch, state, expr });
        self.replies.push_reserved(Reply::Moved {
            epoch: second,
            point,
            id,
        });
        self.accepted += 1;
        Adoption::Moved(id)
    }

    // Replies to the next call that it is refused on these parts.
    fn yield_to(&mut self, parts: Arc<Parts>) -> Adoption
        requires room { 1 ≤ self.old.spare }
        requires outvoted { IsOutvoted self.old.replica (arc_value parts) }
        ensures { changing.refused self.old.replica (arc_value parts) self.old.replica.wanted ≡ (result, self.new.replica) }
    {
        let Some(point) = self.mark.take() else {
            unreachable!()
        };
        self.replies.push_reserved(Reply::Refused { point, parts });
        Adoption::Refused
    }
}

// Whether a segment of the plan has this transaction.
fn lists(plan: &Plan, segment: u32, txn: u32) -> bool
    ensures { result ≡ reachability.lists (slice_get plan.now.segments segment) txn }
{
    match plan.parts().segments.get(segment as usize) {
        None => false,
        Some(segment) => has(segment.txns.as_slice(), txn),
    }
}

// Whether a transaction is one of these.
fn has(txns: &[u32], txn: u32) -> bool
    ensures { result ≡ list_any (λ listed. listed == txn) txns.now }
{
    txns.iter().any(|listed| *listed == txn)
}

//! All replicas together, and the steps that they take.
use crate::changes::{Change, adopted, end, granted, has_grant, is_left, note, ruled};
use crate::laws::{opening_is_safe, runs_keep_safe, steps_keep_safe};
use lucy_calls::{Step, Work};
use lucy_epochs::{Collect, Epoch, Table, rule};
use lucy_judge::Checked;
use lucy_plan::Call;
use lucy_replica::{Event, Life, Packet, Received, Stage, Submitted};
use sqlite_items::Items;
use std::alloc::{AllocError, Global};
use std::marker::Model;
use std::sync::Arc;

/// All replicas of a work, with the records that were opened, every packet that was ever sent, and
/// how far a change is. It is safe after every list of steps.
#[derive(Drop)]
pub struct World {
    table: Table,
    packets: Vec<Packet>,
    change: Change,
    lives: Vec<Life>,
}

impl Model for World {
    ghost use Rattle.lucy_core.specs.Worlds as worlds;

    ghost Value = { worlds.World };

    ghost use Rattle.lucy_core.specs.Codes.{world_code};

    ghost coded = { world_code };

    ghost use Rattle.lucy_core.specs.Views.{world_of, IsWorld};

    ghost view = { world_of };

    ghost invariant = { IsWorld };
}

ghost use Rattle.std.specs.Prelude.{◌≡◌, ◌↔◌, ◌<◌, ◌≤◌, ℕ, true, false, All, IsTrue, length, map, take, slice_get, Some, IfOk, OnErr};
ghost use Rattle.std.specs.Arc.{arc_value};
ghost use Rattle.lucy_calls.specs.Laws.{IsStepOf};
ghost use Rattle.lucy_epochs.specs.Records.{first_record};
ghost use Rattle.lucy_plan.specs.Calls.{Fits};
ghost use Rattle.lucy_replica.specs.Replicas as replica;
ghost use Rattle.lucy_core.specs.Worlds as worlds;
ghost use Rattle.lucy_core.specs.Worlds.{opening_world, IsWorkOf};
ghost use Rattle.lucy_core.specs.Steps.{submit_event, receive_event, submit_row, send_row, deliver_row, unless_frozen, if_sent, begin_by, freeze_by, open_by, thaw_by, step_of, run_of, world_after};
ghost use Rattle.lucy_core.specs.Safety.{IsSafe, KeepsFacts};

/// The event of what a replica answers to a submit.
fn submitted(answer: Submitted) -> Event
    ensures { result ≡ submit_event answer }
{
    match answer {
        Submitted::Done(id) => Event::Done(id),
        Submitted::Broken => Event::Broken,
        Submitted::Wants => Event::Wants,
        Submitted::Ended => Event::Ended,
    }
}

/// The event of what a replica answers to a packet.
fn received(answer: Received) -> Event
    ensures { result ≡ receive_event answer }
{
    match answer {
        Received::Merged => Event::Merged,
        Received::Stale => Event::Stale,
        Received::Deep => Event::Deep,
    }
}

/// The same calls again.
fn copied(alloc: Global, calls: &[Call]) -> Result<Vec<Call>, AllocError>
    ensures { IfOk result (λ copy. copy.items ≡ calls.now) }
{
    let mut copy = Vec::new(alloc);
    for call in calls {
        copy.push(call.copied(alloc)?)?;
    }
    Ok(copy)
}

/// One replica of so many, before its first call.
fn newcomer(
    alloc: Global,
    checked: &Arc<Checked>,
    first: &Arc<Epoch>,
    number: u32,
    replicas: u32,
    calls: &[Call],
) -> Result<Life, AllocError>
    requires first { arc_value first.now ≡ first_record (arc_value checked.now) }
    requires number { number < replicas }
    requires fits { (place : ℕ) (call : _) → slice_get calls.now place ≡ Some call → Fits (arc_value checked.now) call }
    requires few { length calls.now ≤ 4096 }
    ensures { IfOk result (λ life. life.replica ≡ replica.newcomer number replicas (arc_value first.now) calls.now) }
{
    let checked = checked.clone()?;
    let first = first.clone()?;
    let calls = copied(alloc, calls)?;
    Life::new(alloc, checked, number, replicas, first, calls)
}

/// The replicas of a work, each before its first call.
fn newcomers(
    alloc: Global,
    checked: &Arc<Checked>,
    first: &Arc<Epoch>,
    work: &[Items<Call>],
) -> Result<Vec<Life>, AllocError>
    requires first { arc_value first.now ≡ first_record (arc_value checked.now) }
    requires work { IsWorkOf (arc_value checked.now) work.now }
    ensures { IfOk result (λ lives. map (λ life. life.replica) lives.items ≡ worlds.newcomers (arc_value first.now) (length work.now) 0 work.now) }
{
    let replicas = work.len() as u32;
    let mut lives = Vec::new(alloc);
    for (number, calls) in work.iter().enumerate() {
        lives.push(newcomer(
            alloc,
            checked,
            first,
            number as u32,
            replicas,
            calls.as_slice(),
        )?)?;
    }
    Ok(lives)
}

impl World {
    /// The world of a work at the beginning: all replicas are at the first record of the plan, nothing
    /// was sent, and no change is on. Each call fits the plan, and there are 1 to 16 replicas with at
    /// most 4,096 calls each.
    pub fn new(alloc: Global, checked: Arc<Checked>, work: &Work) -> Result<World, AllocError>
        requires { IsWorkOf (arc_value checked) work.now.lists }
        ensures opening { IfOk result (λ w. w ≡ opening_world (arc_value checked) work.now.lists) }
        ensures safe { IfOk result (λ w. IsSafe w) }
        ensures facts { IfOk result (λ w. KeepsFacts w) }
    {
        opening_is_safe();
        let plan = checked.plan().clone()?;
        let first = Epoch::first(alloc, plan)?;
        let first = Arc::new(alloc, first)?;
        let lives = newcomers(alloc, &checked, &first, work.lists.as_slice())?;
        let table = Table::new(alloc, first)?;
        Ok(World {
            table,
            packets: Vec::new(alloc),
            change: Change::Idle,
            lives,
        })
    }

    /// The replicas.
    pub fn lives(&self) -> &[Life]
        ensures { map (λ life. life.replica) result.now ≡ self.now.replicas }
    {
        self.lives.as_slice()
    }

    /// The replicas, without all else.
    pub fn into_lives(self) -> Vec<Life>
        ensures { map (λ life. life.replica) result.items ≡ self.replicas }
    {
        let World { lives, .. } = self;
        lives
    }

    /// The records that were opened, by their numbers.
    pub fn epochs(&self) -> &[Arc<Epoch>]
        ensures { map arc_value result.now ≡ self.now.records }
    {
        self.table.list()
    }

    /// Whether the replica of this number is frozen for a change.
    pub fn is_frozen(&self, number: u32) -> bool
        ensures { result ≡ worlds.is_frozen self.now.course number }
    {
        match &self.change {
            Change::Idle => false,
            Change::Freezing { collect, .. } => collect.has(number),
            Change::Decided { grants, .. } => has_grant(grants.as_slice(), number),
        }
    }

    /// Whether a step is one that can be taken: the replica that it names is one that there is.
    pub fn takes(&self, step: Step) -> bool
        ensures { IsTrue result ↔ IsStepOf (length self.now.replicas) step }
    {
        match step {
            Step::Submit(number)
            | Step::Send(number)
            | Step::Begin(number)
            | Step::Freeze(number)
            | Step::Thaw(number) => (number as usize) < self.lives.len(),
            Step::Deliver { to, packet: _ } => (to as usize) < self.lives.len(),
            Step::OpenEpoch => true,
        }
    }

    /// Whether all steps of a list can be taken.
    pub fn takes_all(&self, steps: &[Step]) -> bool
        ensures { IsTrue result ↔ All (IsStepOf (length self.now.replicas)) steps.now }
    {
        for step in steps {
            if !self.takes(*step) {
                return false;
            }
        }
        true
    }

    /// What a world keeps, for callers. It does nothing.
    pub fn facts(&self)
        ensures safe { IsSafe self.now }
        ensures facts { KeepsFacts self.now }
    {
        let _lives = &self.lives;
    }

    /// Lets one thing happen. The replica that the step names is one that there is. After a want of
    /// memory the world is as it was.
    pub fn step(&mut self, alloc: Global, step: Step) -> Result<Event, AllocError>
        requires { IsStepOf (length self.old.replicas) step }
        ensures step { IfOk result (λ event. step_of self.old step ≡ (event, self.new)) }
        ensures err { OnErr result (self.new ≡ self.old) }
        ensures safe { IsSafe self.new }
        ensures facts { KeepsFacts self.new }
    {
        let event = self.act(alloc, step);
        self.facts();
        event
    }

    /// Lets a list of things happen, and tells what each of them was answered, in order. Each replica
    /// that a step names is one that there is. Where there is no memory left, some first steps of the
    /// list have happened and no others.
    pub fn run(&mut self, alloc: Global, steps: &[Step]) -> Result<Vec<Event>, AllocError>
        requires { All (IsStepOf (length self.old.replicas)) steps.now }
        ensures run { IfOk result (λ events. run_of self.old steps.now ≡ (events.items, self.new)) }
        ensures err { OnErr result ((n : ℕ) × (n ≤ length steps.now) × (self.new ≡ world_after self.old (take n steps.now))) }
        ensures safe { (n : ℕ) → IsSafe (world_after self.old (take n steps.now)) }
        ensures facts { (n : ℕ) → KeepsFacts (world_after self.old (take n steps.now)) }
    {
        runs_keep_safe();
        self.facts();
        let mut events = Vec::new(alloc);
        for step in steps {
            let event = self.step(alloc, *step)?;
            events.push(event)?;
        }
        Ok(events)
    }
}

// What each kind of step does.
impl World {
    fn act(&mut self, alloc: Global, step: Step) -> Result<Event, AllocError>
        requires { IsStepOf (length self.old.replicas) step }
        ensures step { IfOk result (λ event. step_of self.old step ≡ (event, self.new)) }
        ensures err { OnErr result (self.new ≡ self.old) }
    {
        match step {
            Step::Submit(number) => self.submit(alloc, number),
            Step::Send(number) => self.send(number),
            Step::Deliver { to, packet } => self.deliver(alloc, to, packet),
            Step::Begin(number) => self.begin(alloc, number),
            Step::Freeze(number) => self.freeze(alloc, number),
            Step::OpenEpoch => self.open(alloc),
            Step::Thaw(number) => Ok(self.thaw(number)),
        }
    }

    fn submit(&mut self, alloc: Global, number: u32) -> Result<Event, AllocError>
        requires { number < length self.old.replicas }
        ensures step { IfOk result (λ event. unless_frozen self.old number (submit_row self.old number (slice_get self.old.replicas number)) ≡ (event, self.new)) }
        ensures err { OnErr result (self.new ≡ self.old) }
    {
        if self.is_frozen(number) {
            return Ok(Event::Held);
        }
        self.try_next(alloc, number)
    }

    // A replica that is not frozen tries its next call.
    fn try_next(&mut self, alloc: Global, number: u32) -> Result<Event, AllocError>
        requires below { number < length self.old.replicas }
        requires free { worlds.is_frozen self.old.course number ≡ false }
        ensures step { IfOk result (λ event. submit_row self.old number (slice_get self.old.replicas number) ≡ (event, self.new)) }
        ensures err { OnErr result (self.new ≡ self.old) }
    {
        steps_keep_safe();
        let life = &mut self.lives[number as usize];
        let answer = life.submit(alloc)?;
        Ok(submitted(answer))
    }

    fn send(&mut self, number: u32) -> Result<Event, AllocError>
        requires { number < length self.old.replicas }
        ensures step { IfOk result (λ event. unless_frozen self.old number (send_row self.old (slice_get self.old.replicas number)) ≡ (event, self.new)) }
        ensures err { OnErr result (self.new ≡ self.old) }
    {
        if self.is_frozen(number) {
            return Ok(Event::Held);
        }
        self.publish(number)
    }

    // A replica that is not frozen sends what it has.
    fn publish(&mut self, number: u32) -> Result<Event, AllocError>
        requires below { number < length self.old.replicas }
        requires free { worlds.is_frozen self.old.course number ≡ false }
        ensures step { IfOk result (λ event. send_row self.old (slice_get self.old.replicas number) ≡ (event, self.new)) }
        ensures err { OnErr result (self.new ≡ self.old) }
    {
        steps_keep_safe();
        let packet = self.lives[number as usize].publish()?;
        let number = self.packets.len() as u64;
        self.packets.push(packet)?;
        Ok(Event::Sent(number))
    }

    fn deliver(&mut self, alloc: Global, to: u32, packet: u64) -> Result<Event, AllocError>
        requires { to < length self.old.replicas }
        ensures step { IfOk result (λ event. if_sent self.old to (slice_get self.old.packets packet) ≡ (event, self.new)) }
        ensures err { OnErr result (self.new ≡ self.old) }
    {
        if (packet as usize) >= self.packets.len() {
            return Ok(Event::NoPacket);
        }
        if self.is_frozen(to) {
            return Ok(Event::Held);
        }
        self.hand(alloc, to, packet)
    }

    // A replica that is not frozen gets a packet, if it was sent.
    fn hand(&mut self, alloc: Global, to: u32, packet: u64) -> Result<Event, AllocError>
        requires below { to < length self.old.replicas }
        requires free { worlds.is_frozen self.old.course to ≡ false }
        ensures step { IfOk result (λ event. if_sent self.old to (slice_get self.old.packets packet) ≡ (event, self.new)) }
        ensures err { OnErr result (self.new ≡ self.old) }
    {
        steps_keep_safe();
        let Some(packet) = self.packets.get(packet as usize) else {
            return Ok(Event::NoPacket);
        };
        let life = &mut self.lives[to as usize];
        let answer = life.receive(alloc, packet)?;
        Ok(received(answer))
    }

    fn begin(&mut self, alloc: Global, number: u32) -> Result<Event, AllocError>
        requires { number < length self.old.replicas }
        ensures step { IfOk result (λ event. begin_by self.old number self.old.course ≡ (event, self.new)) }
        ensures err { OnErr result (self.new ≡ self.old) }
    {
        steps_keep_safe();
        match self.change {
            Change::Idle => {}
            Change::Freezing { .. } => return Ok(Event::Busy(Stage::Freezing)),
            Change::Decided { .. } => return Ok(Event::Busy(Stage::Decided)),
        }
        let life = &self.lives[number as usize];
        if life.mark().is_none() {
            return Ok(Event::Nothing);
        }
        let epoch = life.epoch().clone()?;
        let collect = Collect::new(alloc, epoch, self.lives.len() as u32)?;
        self.change = Change::Freezing {
            coordinator: number,
            collect,
        };
        Ok(Event::Begun)
    }

    fn freeze(&mut self, alloc: Global, number: u32) -> Result<Event, AllocError>
        requires { number < length self.old.replicas }
        ensures step { IfOk result (λ event. freeze_by self.old number self.old.course ≡ (event, self.new)) }
        ensures err { OnErr result (self.new ≡ self.old) }
    {
        steps_keep_safe();
        match &mut self.change {
            Change::Idle => Ok(Event::Idle),
            Change::Decided { .. } => Ok(Event::Busy(Stage::Decided)),
            Change::Freezing { collect, .. } => {
                if collect.has(number) {
                    return Ok(Event::Held);
                }
                let life = &mut self.lives[number as usize];
                life.reserve(alloc)?;
                let part = life.part()?;
                collect.put(part);
                Ok(Event::Frozen)
            }
        }
    }

    fn open(&mut self, alloc: Global) -> Result<Event, AllocError>
        ensures step { IfOk result (λ event. open_by self.old self.old.course ≡ (event, self.new)) }
        ensures err { OnErr result (self.new ≡ self.old) }
    {
        steps_keep_safe();
        match &self.change {
            Change::Idle => Ok(Event::Idle),
            Change::Decided { .. } => Ok(Event::Busy(Stage::Decided)),
            Change::Freezing {
                coordinator,
                collect,
            } => {
                if !collect.is_full() {
                    return Ok(Event::Busy(Stage::Freezing));
                }
                let coordinator = *coordinator;
                let records = self.table.list().len();
                prove!(records < usize::MAX);
                let wanted = self.lives[coordinator as usize].wish();
                let ruling = rule(alloc, collect, wanted)?;
                let grants = granted(alloc, &ruling, self.lives.len())?;
                note(&mut self.table, &ruling)?;
                let event = ruled(&ruling);
                self.change = Change::Decided {
                    coordinator,
                    ruling,
                    grants,
                };
                Ok(event)
            }
        }
    }

    fn thaw(&mut self, number: u32) -> Event
        requires { number < length self.old.replicas }
        ensures { thaw_by self.old number self.old.course ≡ (result, self.new) }
    {
        steps_keep_safe();
        match &mut self.change {
            Change::Idle => Event::Idle,
            Change::Freezing { .. } => Event::Busy(Stage::Freezing),
            Change::Decided {
                coordinator,
                grants,
                ..
            } => {
                let Some(grant) = grants[number as usize].take() else {
                    return Event::Free;
                };
                let answer = self.lives[number as usize].adopt(grant, number == *coordinator);
                let event = adopted(answer);
                if !is_left(grants.as_slice()) {
                    end(&mut self.change);
                }
                event
            }
        }
    }
}

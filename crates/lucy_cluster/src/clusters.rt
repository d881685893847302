//! All replicas of a work, each behind a lock of its own, and the work of each on a thread.
use crate::deciding::{Changed, Decision, decide};
use crate::error::ClusterError;
use crate::freezing::{freeze, wanted_at};
use crate::gates::{Gate, Point};
use crate::sections::{receive, submit};
use lucy_calls::Work;
use lucy_epochs::{By, Collect, Epoch, Table, next_record_is_in_segment};
use lucy_judge::Checked;
use lucy_net::{Chaos, Fate, Mail, Weather};
use lucy_plan::Call;
use lucy_replica::{Adoption, Life, Packet, Submitted};
use sqlite_items::Items;
use std::alloc::{AllocError, Global};
use std::marker::Model;
use std::sync::{Arc, Mutex, Wait};
use std::thread::{self, Threads};

// The most packets that a replica takes in before it tries a call.
const MOST_TAKEN: u32 = 4;

/// All replicas of a work, each behind a lock of its own, with the table of records and a mailbox for
/// each. Threads share it. Contracts see the number of the replicas: what stands under a lock is known
/// by its type alone.
#[derive(Drop)]
pub struct Cluster {
    lives: Vec<Mutex<Life>>,
    table: Mutex<Table>,
    mail: Mail<Packet>,
    weather: Weather,
    seed: u64,
}

impl Model for Cluster {
    ghost use Rattle.std.specs.Prelude.{◌≡◌, ◌≤◌, ℕ, vec_len};

    ghost Value = { ℕ };

    ghost view = { λ c. vec_len c.lives };

    ghost invariant = { λ c. (c.mail ≡ vec_len c.lives) × (1 ≤ vec_len c.lives) × (vec_len c.lives ≤ 16) × (1 ≤ c.weather.of) };
}

ghost use Rattle.std.specs.Prelude.{◌≡◌, ◌<◌, ◌≤◌, ◌+◌, ℕ, List, Some, None, IfOk, IfErr, IfSome, OnErr, length, replicate, vec_len, slice_get};
ghost use Rattle.std.specs.Arc.{arc_value};
ghost use Rattle.lucy_plan.specs.Calls.{Fits};
ghost use Rattle.lucy_plan.specs.declared.parts.Call.{Call};
ghost use Rattle.lucy_plan.specs.Soundness.{IsSound};
ghost use Rattle.lucy_epochs.specs.Records.{first_record};
ghost use Rattle.lucy_epochs.specs.Sharing.{ruling_of};
ghost use Rattle.lucy_replica.specs.Replicas as replica;
ghost use Rattle.lucy_cluster.specs.Causes.{IsCause, refusal_of};
ghost use Rattle.lucy_cluster.specs.Changes.{noted, AreCollected, IsDecided, IsHandedUp, IsChanged};

impl Cluster {
    /// The replicas of a work at the first record of a checked plan, and mailboxes that lose one packet
    /// of eight and double another. Each call fits the plan, and there are 1 to 16 replicas with at most
    /// 4,096 calls each.
    pub fn new(
        alloc: Global,
        checked: Arc<Checked>,
        work: &Work,
        seed: u64,
    ) -> Result<Cluster, AllocError>
        requires fits { (number place : ℕ) (list : List Call) (call : Call) → slice_get work.now.lists number ≡ Some list → slice_get list place ≡ Some call → Fits (arc_value checked) call }
        requires some_replica { 1 ≤ length work.now.lists }
        requires few_replicas { length work.now.lists ≤ 16 }
        requires few_calls { (number : ℕ) (list : List Call) → slice_get work.now.lists number ≡ Some list → length list ≤ 4096 }
        ensures { IfOk result (λ cluster. cluster ≡ length work.now.lists) }
    {
        let weather = Weather {
            lose: 1,
            twice: 1,
            of: 8,
        };
        Cluster::with_weather(alloc, checked, work, seed, weather)
    }

    /// The same, with mailboxes in this weather. The seed determines what is drawn.
    pub fn with_weather(
        alloc: Global,
        checked: Arc<Checked>,
        work: &Work,
        seed: u64,
        weather: Weather,
    ) -> Result<Cluster, AllocError>
        requires fits { (number place : ℕ) (list : List Call) (call : Call) → slice_get work.now.lists number ≡ Some list → slice_get list place ≡ Some call → Fits (arc_value checked) call }
        requires some_replica { 1 ≤ length work.now.lists }
        requires few_replicas { length work.now.lists ≤ 16 }
        requires few_calls { (number : ℕ) (list : List Call) → slice_get work.now.lists number ≡ Some list → length list ≤ 4096 }
        requires weather { 1 ≤ weather.of }
        requires within { weather.lose + weather.twice ≤ weather.of }
        ensures { IfOk result (λ cluster. cluster ≡ length work.now.lists) }
    {
        let lists = work.lists.as_slice();
        let first = Epoch::first(alloc, checked.plan().clone()?)?;
        let first = Arc::new(alloc, first)?;
        let lives = newcomers(alloc, &checked, &first, lists)?;
        let mail = Mail::new(alloc, lists.len() as u32)?;
        let table = Table::new(alloc, first)?;
        Ok(Cluster {
            lives,
            table: Mutex::new(table),
            mail,
            weather,
            seed,
        })
    }

    /// How many replicas there are.
    pub fn replicas(&self) -> u32
        ensures { result ≡ self.now }
    {
        self.lives.len() as u32
    }

    /// Works on the calls of the replica of this number until each has a reply. Before each call it
    /// takes in at most four packets, and after each that is done it sends what it has to all others.
    /// It holds no lock when it starts a change, and outside a change no lock but that of its own replica
    /// or of one mailbox. After a refusal what was done before stands.
    pub fn work<R: Wait, G: Gate>(
        &self,
        rt: &R,
        alloc: Global,
        replica: u32,
        gate: &G,
    ) -> Result<(), ClusterError>
        requires { replica < self.now }
        ensures { IfErr result (λ e. IsCause self.now e) }
    {
        let mut chaos = Chaos::new(self.seed.wrapping_add(u64::from(replica)));
        for _ in rt.forever() {
            self.take_in(rt, alloc, replica, gate, &mut chaos)?;
            match self.submit(rt, alloc, replica, gate)? {
                Submitted::Ended => return Ok(()),
                Submitted::Done(_) => self.send(rt, replica, &mut chaos)?,
                Submitted::Broken => {}
                Submitted::Wants => {
                    let _changed = self.change(rt, alloc, replica, gate)?;
                }
            }
        }
        unreachable!()
    }

    /// Works on the calls of all replicas at the same time, each on a thread of its own where one can be
    /// made, until every call has a reply. The answer is the refusal of the replica of the least number
    /// that was refused one; what was done before stands.
    pub fn work_all<R: Threads + Wait + Sync, G: Gate + Sync>(
        &self,
        rt: &R,
        alloc: Global,
        gate: &G,
    ) -> Result<(), ClusterError>
        ensures { IfErr result (λ e. IsCause self.now e) }
    {
        let answers = thread::map_indices(
            rt,
            alloc,
            self.lives.len(),
            &|replica| { self.work(rt, alloc, replica as u32, gate) },
        )?;
        first_refusal(answers)
    }

    /// Makes a change for the replica of this number, its coordinator. The locks are taken from that of
    /// replica 0 upwards, and at last that of the table; then the change is decided, and each replica
    /// acts by the ruling before its lock is let go. After a refusal no replica has acted, and the table
    /// is as it was.
    pub fn change<R: Wait, G: Gate>(
        &self,
        rt: &R,
        alloc: Global,
        replica: u32,
        gate: &G,
    ) -> Result<Changed, ClusterError>
        requires { replica < self.now }
        ensures { IfErr result (λ e. IsCause self.now e) }
    {
        let mut life = self.lives[0].lock(rt);
        let epoch = life.epoch().clone()?;
        let collect = Collect::new(alloc, epoch, self.lives.len() as u32)?;
        let decision = self.hold(rt, alloc, gate, &mut life, 0, replica, collect, None)?;
        Ok(decision.changed())
    }

    /// The table of records and the replicas, once no thread shares the cluster any more.
    pub fn finish(self, alloc: Global) -> Result<(Table, Vec<Life>), AllocError>
        ensures { IfOk result (λ kept. vec_len kept.1 ≡ self) }
    {
        let Cluster { lives, table, .. } = self;
        let lives = lives
            .into_iter()
            .map(|life| life.into_inner())
            .collect(alloc)?;
        Ok((table.into_inner(), lives))
    }
}

// What a worker does under one lock after another.
impl Cluster {
    // The replica of this number tries its next call.
    fn submit<R: Wait, G: Gate>(
        &self,
        rt: &R,
        alloc: Global,
        replica: u32,
        gate: &G,
    ) -> Result<Submitted, AllocError>
        requires { replica < self.now }
    {
        let mut life = self.lives[replica as usize].lock(rt);
        submit(alloc, &mut life, replica, gate)
    }

    // It takes in at most four packets that wait for it.
    fn take_in<R: Wait, G: Gate>(
        &self,
        rt: &R,
        alloc: Global,
        replica: u32,
        gate: &G,
        chaos: &mut Chaos,
    ) -> Result<(), AllocError>
        requires { replica < self.now }
    {
        for _ in 0..MOST_TAKEN {
            let Some(packet) = self.mail.take(rt, replica, chaos) else {
                return Ok(());
            };
            let mut life = self.lives[replica as usize].lock(rt);
            receive(alloc, &mut life, &packet, replica, gate)?;
        }
        Ok(())
    }

    // It sends what it has to all others.
    fn send<R: Wait>(&self, rt: &R, replica: u32, chaos: &mut Chaos) -> Result<(), AllocError>
        requires { replica < self.now }
    {
        let packet = self.lives[replica as usize].lock(rt).publish()?;
        for to in 0..self.lives.len() as u32 {
            if to != replica {
                self.post(rt, to, &packet, chaos)?;
            }
        }
        Ok(())
    }

    // The packet goes on its way to a replica, as the weather is.
    fn post<R: Wait>(
        &self,
        rt: &R,
        to: u32,
        packet: &Packet,
        chaos: &mut Chaos,
    ) -> Result<(), AllocError>
        requires { to < self.now }
    {
        match self.weather.next_fate(chaos) {
            Fate::Lost => {}
            Fate::PostedOnce => self.mail.post(rt, to, packet.share()?),
            Fate::PostedTwice => {
                self.mail.post(rt, to, packet.share()?);
                self.mail.post(rt, to, packet.share()?);
            }
        }
        Ok(())
    }
}

// A change, lock by lock.
impl Cluster {
    // The part of a change from the lock of this number on: it takes the lock, and what stands under it
    // takes part. Below all replicas it takes the table's lock, and the change is decided.
    #[cycle(changing)]
    fn descend<R: Wait, G: Gate>(
        &self,
        rt: &R,
        alloc: Global,
        gate: &G,
        number: u32,
        coordinator: u32,
        collect: Collect,
        given: Option<(Call, By)>,
    ) -> Result<Decision, ClusterError>
        requires number { number ≤ self.now }
        requires collected { AreCollected self.now number collect }
        requires sound { IsSound collect.epoch.plan }
        requires fits { IfSome given (λ w. Fits collect.epoch.plan w.0) }
        ensures ok { IfOk result (λ d. IsHandedUp collect number coordinator given d) }
        ensures err { IfErr result (λ e. IsCause self.now e) }
    {
        if number as usize == self.lives.len() {
            let mut table = self.table.lock(rt);
            return decided(alloc, &mut table, &collect, &given, self.lives.len());
        }
        let mut life = self.lives[number as usize].lock(rt);
        self.hold(
            rt,
            alloc,
            gate,
            &mut life,
            number,
            coordinator,
            collect,
            given,
        )
    }

    // What a change does while the lock of the replica of this number is held, from which it is lent. The
    // replica's part is collected, the change goes on with the next lock, and when it was decided, the
    // replica acts by the ruling. After a refusal it is as it was.
    #[cycle(changing)]
    fn hold<R: Wait, G: Gate>(
        &self,
        rt: &R,
        alloc: Global,
        gate: &G,
        life: &mut Life,
        number: u32,
        coordinator: u32,
        mut collect: Collect,
        given: Option<(Call, By)>,
    ) -> Result<Decision, ClusterError>
        requires number { number < self.now }
        requires collected { AreCollected self.now number collect }
        requires fits { IfSome given (λ w. Fits collect.epoch.plan w.0) }
        ensures ok { IfOk result (λ d. IsChanged collect number coordinator given life.old.replica life.new.replica d) }
        ensures unchanged { OnErr result (life.new.replica ≡ life.old.replica) }
        ensures err { IfErr result (λ e. IsCause self.now e) }
    {
        next_record_is_in_segment();
        life.facts();
        let _lives = &self.lives;
        freeze(alloc, number, life, &mut collect)?;
        gate.at(number, Point::Freeze);
        let is_coordinator = number == coordinator;
        let wanted = wanted_at(alloc, life, is_coordinator, given)?;
        let mut decision = self.descend(rt, alloc, gate, number + 1, coordinator, collect, wanted)?;
        let Some(grant) = decision.grants.pop() else {
            unreachable!()
        };
        if has_opened(life.adopt(grant, is_coordinator)) {
            gate.at(number, Point::Adopt);
        }
        Ok(decision)
    }
}

// The first refusal, if there is one.
fn first_refusal(answers: Vec<Result<(), ClusterError>>) -> Result<(), ClusterError>
    ensures { result ≡ refusal_of answers.items }
{
    for answer in answers {
        if let Err(refusal) = answer {
            return Err(refusal);
        }
    }
    Ok(())
}

// Whether a replica took a record that was opened.
fn has_opened(answer: Adoption) -> bool {
    matches!(answer, Adoption::Moved(_) | Adoption::Adopted)
}

// The change is decided on the parts of all replicas, and there is a grant for each.
fn decided(
    alloc: Global,
    table: &mut Table,
    collect: &Collect,
    given: &Option<(Call, By)>,
    replicas: usize,
) -> Result<Decision, ClusterError>
    requires collected { AreCollected replicas replicas collect.now }
    requires some { 1 ≤ replicas }
    requires sound { IsSound collect.now.epoch.plan }
    requires fits { IfSome given.now (λ w. Fits collect.now.epoch.plan w.0) }
    ensures ok { IfOk result (λ d. IsDecided collect.now given.now (ruling_of d.ruling)) }
    ensures grants { IfOk result (λ d. d.grants.items ≡ replicate replicas (ruling_of d.ruling)) }
    ensures table { IfOk result (λ d. table.new.records ≡ noted table.old.records (ruling_of d.ruling)) }
    ensures unchanged { OnErr result (table.new.records ≡ table.old.records) }
    ensures err { IfErr result (λ e. IsCause replicas e) }
{
    collect.facts();
    let _last = table.last();
    decide(alloc, table, collect, given, replicas)
}

// The same calls again.
fn copied(alloc: Global, calls: &[Call]) -> Result<Vec<Call>, AllocError>
    ensures { IfOk result (λ copy. copy.items ≡ calls.now) }
{
    let mut copy = Vec::new(alloc);
    for call in calls {
        copy.push(call.copied(alloc)?)?;
    }
    Ok(copy)
}

// One replica of so many, before its first call.
fn newcomer(
    alloc: Global,
    checked: &Arc<Checked>,
    first: &Arc<Epoch>,
    number: u32,
    replicas: u32,
    calls: &[Call],
) -> Result<Life, AllocError>
    requires first { arc_value first.now ≡ first_record (arc_value checked.now) }
    requires number { number < replicas }
    requires fits { (place : ℕ) (call : _) → slice_get calls.now place ≡ Some call → Fits (arc_value checked.now) call }
    requires few { length calls.now ≤ 4096 }
    ensures { IfOk result (λ life. life.replica ≡ replica.newcomer number replicas (arc_value first.now) calls.now) }
{
    let checked = checked.clone()?;
    let first = first.clone()?;
    let calls = copied(alloc, calls)?;
    Life::new(alloc, checked, number, replicas, first, calls)
}

// The replicas of a work, each before its first call and behind a lock.
fn newcomers(
    alloc: Global,
    checked: &Arc<Checked>,
    first: &Arc<Epoch>,
    work: &[Items<Call>],
) -> Result<Vec<Mutex<Life>>, AllocError>
    requires first { arc_value first.now ≡ first_record (arc_value checked.now) }
    requires fits { (number place : ℕ) (list : List Call) (call : Call) → slice_get work.now number ≡ Some list → slice_get list place ≡ Some call → Fits (arc_value checked.now) call }
    requires some_replica { 1 ≤ length work.now }
    requires few_replicas { length work.now ≤ 16 }
    requires few_calls { (number : ℕ) (list : List Call) → slice_get work.now number ≡ Some list → length list ≤ 4096 }
    ensures { IfOk result (λ lives. vec_len lives ≡ length work.now) }
{
    let replicas = work.len() as u32;
    let mut lives = Vec::new(alloc);
    for (number, calls) in work.iter().enumerate() {
        let calls = calls.as_slice();
        let life = newcomer(alloc, checked, first, number as u32, replicas, calls)?;
        lives.push(Mutex::new(life)).map_err(AllocError::from)?;
    }
    Ok(lives)
}

//! Sessions.

use crate::answers::{LabelError, Next, SessionError};
use crate::drawing::draw;
use crate::evaluation::value_of;
use crate::labels::{Claim, Label, Side, read_label};
use crate::laws::closed_is_confluent;
use crate::reached::{Pair, Reached, expr_of};
use lucy_expr::Expr;
use lucy_model::{State, holds};
use lucy_names::Names;
use lucy_plan::Plan;
use lucy_walks::{Sketch, name, walk};
use std::alloc::{AllocError, Global};
use std::marker::Model;
use std::sync::Arc;

/// A session of labels over a plan whose start satisfies the invariant. Contracts see it without pointers: the plan and
/// its names, the states that labels exclude, the states that have an expression, and the pair that is shown. Its type
/// keeps that each of these expressions is reached over the whole invariant, has the state as its value, and has at
/// most 10,000 nodes, each counted as often as it stands in the tree.
#[derive(Drop)]
pub struct Session {
    plan: Arc<Plan>,
    names: Names,
    points: Vec<State>,
    reached: Vec<Reached>,
    pair: Option<Pair>,
}

impl Model for Session {
    ghost use Rattle.lucy_session.specs.Sessions.{Dialogue, dialogue_code};

    ghost Value = { Dialogue };

    ghost coded = { dialogue_code };

    ghost use Rattle.lucy_session.specs.Views.{dialogue_of};
    ghost use Rattle.lucy_session.specs.Keeping.{IsKept};

    ghost view = { dialogue_of };

    ghost invariant = { λ session. IsKept (dialogue_of session) };
}

ghost use Rattle.std.specs.Prelude.{◌≡◌, ◌≤◌, ◌↔◌, ◌++◌, false, IsTrue, Some, None, IsSome, IfOk, IfSome, OnOk, OnErr, MatchResult, length};
ghost use Rattle.std.specs.Arc.{arc_value};
ghost use Rattle.std.specs.Option.{option_map};
ghost use Rattle.lucy_io.specs.Outcomes.{Answers};
ghost use Rattle.lucy_names.specs.Plans.{AreNamesOf};
ghost use Rattle.lucy_plan.specs.Segments.{IsWhole, is_whole};
ghost use Rattle.lucy_expr.specs.Trees.{Start};
ghost use Rattle.lucy_session.specs.Keeping.{Reaches, IsKept};
ghost use Rattle.lucy_session.specs.declared.answers.Next.TheVariants as the_next;
ghost use Rattle.lucy_session.specs.declared.answers.LabelError.TheVariants.{OutOfMemory};
ghost use Rattle.lucy_session.specs.declared.answers.SessionError.TheVariants.{StartBreaks};
ghost use Rattle.lucy_walks.specs.Sketches.{tree_of};
ghost use Rattle.lucy_session.specs.Labels.{claim_seen, IsClaim, IsRead};
ghost use Rattle.lucy_session.specs.Labels as the_claim;
ghost use Rattle.lucy_session.specs.Sessions as spec;

// The most states that are excluded.
const MOST_POINTS: usize = 256;

// The replicas whose calls an expression may have.
const REPLICAS: u32 = 16;

// Whether the start satisfies the invariant.
fn start_holds(plan: &Plan) -> bool
    ensures { IsTrue result ↔ IsWhole plan.now plan.now.start }
{
    let parts = plan.parts();
    holds(&parts.invariant, &parts.start, &[])
}

// The start, and the expression that reaches it.
fn start_entry(alloc: Global, plan: &Plan) -> Result<Reached, AllocError>
    requires { IsWhole plan.now plan.now.start }
    ensures value { IfOk result (λ entry. entry ≡ spec.reached_by plan.now.start Start) }
    ensures reaches { IfOk result (Reaches plan.now) }
{
    let state = State::new(alloc, plan.parts().start.as_slice())?;
    let expr = Expr::start(alloc, REPLICAS)?;
    Ok(Reached { state, expr })
}

// The same state again.
fn copied(alloc: Global, state: &State) -> Result<State, AllocError>
    ensures { IfOk result (λ s. s ≡ state.now) }
{
    let state = State::new(alloc, state.as_slice())?;
    Ok(state)
}

// What is asked of a pair, or the expressions of both its states.
fn asked_of(alloc: Global, reached: &[Reached], pair: &Pair) -> Result<Next, AllocError>
    ensures { IfOk result (λ next. next ≡ spec.answer_of reached.now (Some pair.now)) }
{
    let left = expr_of(reached, &pair.left);
    let right = expr_of(reached, &pair.right);
    match (left, right) {
        (Some(left), Some(right)) => broken(left, right),
        (left, right) => asking(alloc, pair, left.is_none(), right.is_none()),
    }
}

// What comes next where this pair is shown, if there is one.
fn answer_of(alloc: Global, reached: &[Reached], pair: &Option<Pair>) -> Result<Next, AllocError>
    ensures { IfOk result (λ next. next ≡ spec.answer_of reached.now pair.now) }
{
    match pair {
        None => Ok(Next::Closed),
        Some(pair) => asked_of(alloc, reached, pair),
    }
}

fn broken(left: &Expr, right: &Expr) -> Result<Next, AllocError>
    ensures { IfOk result (λ next. next ≡ the_next.Broken left.now right.now) }
{
    let left = left.share()?;
    let right = right.share()?;
    Ok(Next::Broken { left, right })
}

fn asking(alloc: Global, pair: &Pair, asks_left: bool, asks_right: bool) -> Result<Next, AllocError>
    ensures { IfOk result (λ next. next ≡ the_next.Pair pair.now.left pair.now.right asks_left asks_right) }
{
    let left = copied(alloc, &pair.left)?;
    let right = copied(alloc, &pair.right)?;
    Ok(Next::Pair {
        left,
        right,
        asks_left,
        asks_right,
    })
}

// The expression that a walk finds for a state, unless the state has one.
fn found_for(
    alloc: Global,
    plan: &Plan,
    reached: &[Reached],
    seed: u64,
    length: u32,
    state: &State,
) -> Result<Option<Expr>, AllocError>
    requires length { length ≤ 1000 }
    requires start { IsWhole plan.now plan.now.start }
    ensures found { IfOk result (λ found. found ≡ option_map spec.roomy (spec.found_beside plan.now reached.now seed length state.now)) }
    ensures reaches { IfOk result (λ found. IfSome found (λ e. Reaches plan.now (spec.entry_at state.now e))) }
{
    if expr_of(reached, state).is_some() {
        return Ok(None);
    }
    let found = walk(alloc, plan, seed, length, state)?;
    Ok(found)
}

// A state with what was found for it.
fn entry_of(
    alloc: Global,
    state: &State,
    found: &Option<Expr>,
) -> Result<Option<Reached>, AllocError>
    ensures { IfOk result (λ entry. entry ≡ option_map (spec.entry_at state.now) found.now) }
{
    match found {
        None => Ok(None),
        Some(expr) => {
            let expr = expr.share()?;
            let state = copied(alloc, state)?;
            Ok(Some(Reached { state, expr }))
        }
    }
}

// Puts two entries, or those that are there, behind others.
fn put(
    reached: &mut Vec<Reached>,
    first: Option<Reached>,
    second: Option<Reached>,
) -> Result<(), AllocError>
    ensures put { OnOk result (reached.new.items ≡ reached.old.items ++ spec.listed first ++ spec.listed second) }
    ensures unchanged { OnErr result (reached.new.items ≡ reached.old.items) }
{
    reached.reserve(2)?;
    if let Some(entry) = first {
        reached.push_reserved(entry);
    }
    if let Some(entry) = second {
        reached.push_reserved(entry);
    }
    Ok(())
}

// A state of a pair.
fn state_on(alloc: Global, pair: &Pair, side: Side) -> Result<State, AllocError>
    ensures { IfOk result (λ s. s ≡ spec.state_on side pair.now) }
{
    match side {
        Side::Left => copied(alloc, &pair.left),
        Side::Right => copied(alloc, &pair.right),
    }
}

impl Session {
    /// A session over a plan, with the names that the plan holds. No state is excluded, and the start alone has an
    /// expression. `StartBreaks` exactly where the start breaks the invariant.
    pub fn new(alloc: Global, plan: Arc<Plan>, names: Names) -> Result<Session, SessionError>
        requires { AreNamesOf (arc_value plan) names }
        ensures new { IfOk result (λ session. session ≡ spec.opening (arc_value plan) names) }
        ensures starts { MatchResult result (λ _. IsWhole (arc_value plan) (arc_value plan).start) (λ e. e ≡ StartBreaks → is_whole (arc_value plan) (arc_value plan).start ≡ false) }
    {
        if !start_holds(&plan) {
            return Err(SessionError::StartBreaks);
        }
        let entry = start_entry(alloc, &plan)?;
        let mut reached = Vec::new(alloc);
        reached.push(entry)?;
        Ok(Session {
            plan,
            names,
            points: Vec::new(alloc),
            reached,
            pair: None,
        })
    }

    /// What comes next. A pair that is shown stays until a label excludes one of its states, or both have an
    /// expression, which is `Broken`. Where no pair is shown, `Closed` exactly where no two states of the invariant,
    /// neither of them excluded, have a merge that breaks it; else two such states are shown.
    pub fn next(&mut self, alloc: Global) -> Result<Next, AllocError>
        ensures answer { IfOk result (λ next. next ≡ spec.answer_of self.new.reached self.new.pair) }
        ensures stands { IfOk result (spec.Stands self.new.pair) }
        ensures pair { IfOk result (λ _. spec.Follows self.old.plan self.old.points self.old.pair self.new.pair) }
        ensures rest { self.new ≡ record self.old { pair = self.new.pair } }
        ensures means { IfOk result (spec.Means self.old.plan self.old.points) }
        ensures unchanged { OnErr result (self.new ≡ self.old) }
    {
        let _parts = self.plan.parts();
        if self.pair.is_some() {
            return answer_of(alloc, self.reached.as_slice(), &self.pair);
        }
        let pair = draw(alloc, &self.plan, self.points.as_slice())?;
        let next = answer_of(alloc, self.reached.as_slice(), &pair)?;
        self.pair = pair;
        Ok(next)
    }

    /// Takes a label, given as its line without the LF, of at most 65,536 bytes; a CR at its end is dropped. A pair is
    /// shown. A label that excludes a state ends the showing of the pair; one that reaches a state gives it its
    /// expression. The causes of a refusal are tested in the order in which `LabelError` lists them.
    #[tactic(auto, unfolding(crate::specs::Sessions::labelled))]
    pub fn label(&mut self, alloc: Global, line: &[u8]) -> Result<(), LabelError>
        requires stands { IsSome self.old.pair }
        requires line { length line.now ≤ 65536 }
        ensures label { Answers OutOfMemory (λ _. self.new) (spec.labelled self.old line.now) result }
        ensures unchanged { OnErr result (self.new ≡ self.old) }
    {
        let Label { side, claim } = read_label(alloc, &self.plan, &self.names, line)?;
        let Some(pair) = &self.pair else {
            return Ok(());
        };
        let state = state_on(alloc, pair, side)?;
        self.ask(alloc, state, &claim)
    }

    // Takes what is claimed of a state.
    fn ask(&mut self, alloc: Global, state: State, claim: &Claim) -> Result<(), LabelError>
        requires state { length state ≡ length self.old.plan.object }
        requires claim { IsClaim self.old.plan 65536 0 (claim_seen claim.now) }
        ensures label { Answers OutOfMemory (λ _. self.new) (spec.asked self.old state (claim_seen claim.now)) result }
        ensures unchanged { OnErr result (self.new ≡ self.old) }
    {
        if expr_of(self.reached.as_slice(), &state).is_some() {
            return Err(LabelError::AlreadyReachable);
        }
        match claim {
            Claim::Unreach => self.exclude(state),
            Claim::Reach(sketch) => self.reach(alloc, state, sketch),
        }
    }

    // Excludes a state of the pair.
    pub(crate) fn exclude(&mut self, state: State) -> Result<(), LabelError>
        requires { length state ≡ length self.old.plan.object }
        ensures label { Answers OutOfMemory (λ _. self.new) (spec.excluded self.old state) result }
        ensures unchanged { OnErr result (self.new ≡ self.old) }
    {
        if self.points.len() >= MOST_POINTS {
            return Err(LabelError::TooMany);
        }
        self.points.push(state)?;
        self.pair = None;
        Ok(())
    }

    // Gives a state its expression.
    fn reach(&mut self, alloc: Global, state: State, sketch: &Sketch) -> Result<(), LabelError>
        requires { IsRead self.old.plan 65536 0 (tree_of sketch.now) }
        ensures label { Answers OutOfMemory (λ _. self.new) (spec.claimed self.old state (the_claim.Reach (tree_of sketch.now))) result }
        ensures unchanged { OnErr result (self.new ≡ self.old) }
    {
        let (value, _) = value_of(alloc, &self.plan, sketch, 0)?;
        if value != state {
            return Err(LabelError::OtherState);
        }
        let expr = name(alloc, sketch)?;
        self.reached.push(Reached { state, expr })?;
        Ok(())
    }

    /// Looks for an expression of each state of the pair that has none, the left one first, by the walk of this seed
    /// and length, and takes what is found as its expression. It answers what was found for the left and the right
    /// state: `None` exactly where the state has an expression already or the walk meets none. A pair is shown, and
    /// `length` is at most 1,000.
    pub fn search(
        &mut self,
        alloc: Global,
        seed: u64,
        length: u32,
    ) -> Result<(Option<Expr>, Option<Expr>), AllocError>
        requires stands { IsSome self.old.pair }
        requires length { length ≤ 1000 }
        ensures found { IfOk result (λ found. spec.Searches self.old seed length self.old.pair found self.new) }
        ensures unchanged { OnErr result (self.new ≡ self.old) }
    {
        let Some(pair) = &self.pair else {
            return Ok((None, None));
        };
        let reached = self.reached.as_slice();
        let left = found_for(alloc, &self.plan, reached, seed, length, &pair.left)?;
        let right = found_for(alloc, &self.plan, reached, seed, length, &pair.right)?;
        let first = entry_of(alloc, &pair.left, &left)?;
        let second = entry_of(alloc, &pair.right, &right)?;
        put(&mut self.reached, first, second)?;
        Ok((left, right))
    }

    /// The states that labels exclude, in the order of the labels.
    pub fn points(&self) -> &[State]
        ensures { result.now ≡ self.now.points }
    {
        self.points.as_slice()
    }

    /// The names of the plan.
    pub fn names(&self) -> &Names
        ensures { result.now ≡ self.now.names }
    {
        &self.names
    }

    /// What the type keeps, for callers. It does nothing.
    pub fn facts(&self)
        ensures { IsKept self.now }
    {
        let _names = &self.names;
    }
}

//! Sessions over the plan of two numbers: pairs that are shown, labels that are taken and refused, and walks.

ghost use Rattle.std.specs.Prelude.{◌≡◌, IsSome, IfSome, IfOk, length};

use crate::answers::{LabelError, Next, SessionError};
use crate::session::Session;
use crate::test_plan::plan_of;
use lucy_model::State;
use lucy_names::Names;
use std::alloc::Global;
use std::sync::Arc;

// The most bytes of a label's line.
const MOST_LINE: usize = 65_536;

// The seed of walks.
const SEED: u64 = 1;

// The most rounds of a walk.
const MOST_ROUNDS: u32 = 1000;

// A session over the plan, which has two leaves, or why there is none.
fn begin(alloc: Global, top: u16, start: &[i64]) -> Option<Result<Session, SessionError>>
    ensures { IfSome result (λ r. IfOk r (λ s. length s.plan.object ≡ 2)) }
{
    let plan = plan_of(alloc, top, start)?;
    if plan.parts().object.len() != 2 {
        return None;
    }
    let Ok(Some(names)) = Names::of_plan(alloc, &plan) else {
        return None;
    };
    let Ok(plan) = Arc::new(alloc, plan) else {
        return None;
    };
    Some(Session::new(alloc, plan, names))
}

fn session_of(alloc: Global, top: u16) -> Option<Session>
    ensures { IfSome result (λ s. length s.plan.object ≡ 2) }
{
    match begin(alloc, top, &[0, 0]) {
        Some(Ok(session)) => Some(session),
        _ => None,
    }
}

// Whether the start breaks the invariant, as a session tells it.
fn is_broken(alloc: Global, start: &[i64]) -> Option<bool> {
    let session = begin(alloc, 1, start)?;
    match session {
        Ok(_) => Some(false),
        Err(SessionError::StartBreaks) => Some(true),
        Err(SessionError::OutOfMemory) => None,
    }
}

// What is answered to a label.
fn word_of(answer: Result<(), LabelError>) -> &'static str {
    match answer {
        Ok(()) => "taken",
        Err(LabelError::BadLabel) => "bad label",
        Err(LabelError::AlreadyReachable) => "already reachable",
        Err(LabelError::TooMany) => "too many",
        Err(LabelError::NotReached { at: 0 }) => "not reached at 0",
        Err(LabelError::NotReached { at: 1 }) => "not reached at 1",
        Err(LabelError::NotReached { at: 2 }) => "not reached at 2",
        Err(LabelError::NotReached { .. }) => "not reached",
        Err(LabelError::OtherState) => "other state",
        Err(LabelError::OutOfMemory) => "out of memory",
    }
}

// Where one number of each of two states is 0 and their merge breaks this, the smaller state has an x of 0.
fn is_in_order(left: &State, right: &State) -> bool {
    match (left.as_slice(), right.as_slice()) {
        ([0, y], [1, 0]) => 0 < *y,
        _ => false,
    }
}

fn asking(left: bool, right: bool) -> &'static str {
    match (left, right) {
        (true, true) => "pair, both asked",
        (true, false) => "pair, left asked",
        (false, true) => "pair, right asked",
        (false, false) => "pair, none asked",
    }
}

// What comes next.
fn next_of(next: &Next) -> &'static str {
    match next {
        Next::Closed => "closed",
        Next::Pair {
            left,
            right,
            asks_left,
            asks_right,
        } => {
            if is_in_order(left, right) {
                asking(*asks_left, *asks_right)
            } else {
                "another pair"
            }
        }
        Next::Broken { .. } => "broken",
    }
}

// Which states are excluded.
fn points_of(points: &[State]) -> &'static str {
    match points {
        [] => "none",
        [point] => match point.as_slice() {
            [0, 1] => "(0,1)",
            _ => "another one",
        },
        _ => "many",
    }
}

// What is answered to a label's line where a pair is shown.
fn labelled(alloc: Global, session: &mut Session, line: &[u8]) -> Option<&'static str>
    requires { IsSome session.old.pair }
{
    if line.len() > MOST_LINE {
        return None;
    }
    Some(word_of(session.label(alloc, line)))
}

// For which states of the pair that is shown a walk finds expressions.
fn searched(alloc: Global, session: &mut Session, rounds: u32) -> Option<&'static str>
    requires { IsSome session.old.pair }
{
    if rounds > MOST_ROUNDS {
        return None;
    }
    match session.search(alloc, SEED, rounds) {
        Ok((None, None)) => Some("none"),
        Ok((Some(_), None)) => Some("left"),
        Ok((None, Some(_))) => Some("right"),
        Ok((Some(_), Some(_))) => Some("both"),
        Err(_) => None,
    }
}

// What is answered to a line where a pair is shown: `walk` and a number of rounds, or a label.
fn done(alloc: Global, session: &mut Session, line: &str) -> Option<&'static str>
    requires { IsSome session.old.pair }
{
    match line.strip_prefix("walk ") {
        Some(rounds) => searched(alloc, session, rounds.parse().ok()?),
        None => labelled(alloc, session, line.as_bytes()),
    }
}

// What is answered to a line: `points`, `next`, or one that wants a pair.
fn said(alloc: Global, session: &mut Session, line: &str) -> Option<&'static str> {
    if line == "points" {
        return Some(points_of(session.points()));
    }
    let Ok(next) = session.next(alloc) else {
        return None;
    };
    if line == "next" {
        return Some(next_of(&next));
    }
    match next {
        Next::Closed => None,
        Next::Pair { .. } => done(alloc, session, line),
        Next::Broken { .. } => done(alloc, session, line),
    }
}

// A row is a line and what is answered to it.
fn is_right(alloc: Global, session: &mut Session, row: &str) -> Option<bool> {
    let (line, wanted) = row.split_once(": ")?;
    let word = said(alloc, session, line)?;
    Some(word == wanted)
}

// The first row that is not right.
fn wrong_row_in(alloc: Global, session: &mut Session, rows: &'static str) -> Option<&'static str> {
    for row in rows.lines() {
        if is_right(alloc, session, row) != Some(true) {
            return Some(row);
        }
    }
    None
}

fn wrong_row(alloc: Global, rows: &'static str) -> Option<&'static str> {
    match session_of(alloc, 1) {
        Some(session) => {
            let mut session = session;
            wrong_row_in(alloc, &mut session, rows)
        }
        None => Some("no session"),
    }
}

// Excludes the state of 0 and this number.
fn exclude(alloc: Global, session: &mut Session, number: i64) -> Option<()>
    requires { length session.old.plan.object ≡ 2 }
    ensures { length session.new.plan.object ≡ 2 }
{
    let state = State::new(alloc, &[0, number]).ok()?;
    session.exclude(state).ok()
}

// A session in which 256 states are excluded.
fn full_session(alloc: Global) -> Option<Session> {
    let mut session = session_of(alloc, 300)?;
    for number in 1..=256 {
        exclude(alloc, &mut session, number)?;
    }
    Some(session)
}

fn wrong_row_of_full(alloc: Global, rows: &'static str) -> Option<&'static str> {
    match full_session(alloc) {
        Some(session) => {
            let mut session = session;
            wrong_row_in(alloc, &mut session, rows)
        }
        None => Some("no full session"),
    }
}

const EXCLUDED: &str = "points: none
next: pair, both asked
left unreach: taken
points: (0,1)
next: closed
next: closed";

const BROKEN: &str = "left reach start: other state
left reach (do 0 setx (do 0 sety start)): not reached at 1
left reach (do 0 sety start): taken
left unreach: already reachable
left reach (do 0 setx (do 0 sety start)): already reachable
left unreach now: bad label
next: pair, right asked
right reach (do 1 setx start): taken
next: broken
right unreach: already reachable
points: none
next: broken";

const MERGED: &str = "left reach (merge (do 0 setx start) (do 0 sety start)): other state
left reach (do 0 sety (merge (do 0 setx start) (do 0 sety start))): not reached at 2
left reach (merge (do 3 sety start) (merge start start)): taken
right reach (merge (do 3 setx start) (do 3 setx (do 3 sety start))): not reached at 2
right reach (do 15 setx (merge start start)): taken
next: broken";

const STRICT: &str = ": bad label
left: bad label
left : bad label
left  unreach: bad label
left unreach : bad label
middle unreach: bad label
left reach: bad label
left reach (do 16 setx start): bad label
left reach (do 00 setx start): bad label
left reach (do 0 setz start): bad label
left reach (do 0 setx 1 start): bad label
left reach (do 0 setx start: bad label
left reach (do 0 setx start)): bad label
left reach (merge start  start): bad label
left reach (merge start): bad label
left reach starts: bad label
right unreach\r: taken
points: another one
next: closed";

const FULL: &str = "points: many
left unreach now: bad label
left unreach: too many
right unreach: too many
left reach start: other state
left reach (do 0 setx (do 0 sety start)): not reached at 1
right reach (do 0 setx start): taken
right unreach: already reachable
left unreach: too many
next: pair, left asked";

const WALKED: &str = "walk 0: none
next: pair, both asked
walk 1: left
next: pair, right asked
left unreach: already reachable
walk 23: none
walk 24: right
next: broken
walk 1000: none";

#[test]
fn states_are_excluded_until_the_session_is_closed(rt: HostRuntime) {
    let alloc = rt.alloc();
    assert_eq!(rt;
        [wrong_row(alloc, EXCLUDED), wrong_row(alloc, STRICT)],
        [None; 2]
    );
}

#[test]
fn expressions_are_evaluated_until_two_end_the_session(rt: HostRuntime) {
    let alloc = rt.alloc();
    assert_eq!(rt;
        [wrong_row(alloc, BROKEN), wrong_row(alloc, MERGED)],
        [None; 2]
    );
}

#[test]
fn at_most_256_states_are_excluded(rt: HostRuntime) {
    assert_eq!(rt; wrong_row_of_full(rt.alloc(), FULL), None);
}

#[test]
fn walks_find_expressions(rt: HostRuntime) {
    assert_eq!(rt; wrong_row(rt.alloc(), WALKED), None);
}

#[test]
fn the_start_has_to_satisfy_the_invariant(rt: HostRuntime) {
    let alloc = rt.alloc();
    assert_eq!(rt;
        [is_broken(alloc, &[1, 1]), is_broken(alloc, &[1, 0])],
        [Some(true), Some(false)]
    );
}

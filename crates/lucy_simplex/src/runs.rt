//! The run: pivots from tableau to tableau.
ghost use Rattle.std.specs.Prelude.{◌≡◌, ◌≢◌, ◌<◌, ◌≤◌, ◌<ℤ◌, pos, length, ℕ, List, IfOk, IfErr, IfSome, IfNone};
ghost use Rattle.std.specs.List.{All, HoldsAt};
ghost use Rattle.lucy_fraction.specs.Rationals.{Ratio};
ghost use Rattle.lucy_simplex.specs.declared.lines.Line.{Line};
ghost use Rattle.lucy_simplex.specs.Tableaus.{Equation};
ghost use Rattle.lucy_simplex.specs.Reading.{Reads, AreRead, HasShape};
ghost use Rattle.lucy_simplex.specs.Runs.{CanImprove, IsRunTooWide};
ghost use Rattle.lucy_simplex.specs.Ends.{FirstBelow, LooksLike, HasLowest, HasLeaving, HasRun, Begins, HasNext, IsLaterTooWide, Ended};
ghost use Rattle.lucy_simplex.specs.Widths.{StopsFor, HasQuotientTooWide};

use crate::lines::Line;
use crate::pivoting::pivoted;
use crate::quotients::{is_below_zero, leaving};
use crate::stops::Stop;
use std::alloc::Global;

// The place of the line whose basic variable is the auxiliary one.
fn auxiliary(lines: &[Line]) -> Option<usize>
    ensures found { IfSome result (λ place. place < length lines.now) }
    ensures basic { IfSome result (λ place. HoldsAt (λ (l : Line). l.basic ≡ 1) lines.now place) }
    ensures none { IfNone result (All (λ (l : Line). l.basic ≢ 1) lines.now) }
{
    for (i, line) in lines.iter().enumerate() {
        if line.basic == 1 {
            return Some(i);
        }
    }
    None
}

// The least variable whose number in the line is below 0, the auxiliary one aside.
fn first_below(line: &Line) -> Option<usize>
    ensures { (q : Equation) → Reads q line.now → FirstBelow q result }
{
    for place in 2..line.numbers.len() {
        if is_below_zero(line.numbers[place]) {
            return Some(place);
        }
    }
    None
}

/// What a tableau says of the run.
#[derive(Clone, Copy, Debug)]
pub enum Look {
    /// The auxiliary variable has left: the tableau has a point.
    Point,
    /// No variable improves the auxiliary one, whose line is at that place.
    Stuck(usize),
    /// The variable improves the auxiliary one, whose line is at that place.
    Improves {
        /// The place of the auxiliary variable's line.
        auxiliary: usize,
        /// The least variable that improves.
        entering: usize,
    },
}

// What the lines say.
fn looked_at(lines: &[Line]) -> Look
    ensures { (qs : List Equation) → AreRead qs lines.now → LooksLike qs result }
{
    let Some(place) = auxiliary(lines) else {
        return Look::Point;
    };
    match first_below(&lines[place]) {
        Some(entering) => Look::Improves {
            auxiliary: place,
            entering,
        },
        None => Look::Stuck(place),
    }
}

// The place of the line that leaves, where a variable improves. Some line does, since the auxiliary variable's falls.
fn leaving_place(
    lines: &[Line],
    width: usize,
    auxiliary: usize,
    entering: usize,
) -> Result<usize, Stop>
    requires shape { HasShape width lines.now }
    requires improves { (qs : List Equation) → AreRead qs lines.now → CanImprove auxiliary entering qs }
    ensures leaves { IfOk result (λ place. (qs : List Equation) → AreRead qs lines.now → HasLeaving entering place qs) }
    ensures wide { IfErr result (λ e. (qs : List Equation) → AreRead qs lines.now → StopsFor (HasQuotientTooWide entering qs) e) }
{
    match leaving(lines, entering) {
        Ok(Some(best)) => Ok(best.place),
        Ok(None) => unreachable!(),
        Err(stop) => Err(stop),
    }
}

// The lines after one more pivot, where a variable improves.
fn stepped(
    alloc: Global,
    lines: &[Line],
    width: usize,
    auxiliary: usize,
    entering: usize,
) -> Result<Vec<Line>, Stop>
    requires shape { HasShape width lines.now }
    requires improves { (qs : List Equation) → AreRead qs lines.now → CanImprove auxiliary entering qs }
    ensures shape { IfOk result (λ v. HasShape width v.items) }
    ensures next { IfOk result (λ v. (qs : List Equation) → AreRead qs lines.now → HasNext qs v.items) }
    ensures wide { IfErr result (λ e. (qs : List Equation) → AreRead qs lines.now → StopsFor (IsLaterTooWide qs) e) }
{
    match leaving_place(lines, width, auxiliary, entering) {
        Ok(place) => pivoted(alloc, lines, width, place, entering),
        Err(stop) => Err(stop),
    }
}

/// The lines where a run ended, and what they say.
#[derive(Debug, Drop)]
pub struct Ran {
    /// The lines.
    pub lines: Vec<Line>,
    /// What they say: where a variable improves, all pivots were made.
    pub look: Look,
}

// The run from lines after the first pivot on.
fn run_on(alloc: Global, begun: Vec<Line>, width: usize, turns: u64) -> Result<Ran, Stop>
    requires turns { 0 < turns }
    requires shape { HasShape width begun.items }
    ensures ends { IfOk result (λ r. (first : List Equation) → HasRun first 1 begun.items → Ended first turns r.lines.items r.look) }
    ensures wide { IfErr result (λ e. (first : List Equation) → HasRun first 1 begun.items → StopsFor (IsRunTooWide first turns) e) }
{
    let mut lines = begun;
    for made in 1..turns {
        let seen = looked_at(lines.as_slice());
        let Look::Improves {
            auxiliary,
            entering,
        } = seen
        else {
            return Ok(Ran { lines, look: seen });
        };
        match stepped(alloc, lines.as_slice(), width, auxiliary, entering) {
            Ok(next) => lines = next,
            Err(stop) => return Err(stop),
        }
    }
    let seen = looked_at(lines.as_slice());
    Ok(Ran { lines, look: seen })
}

/// Pivots until the auxiliary variable leaves, nothing improves it, or the pivots are made. The first brings in the
/// auxiliary variable at the line of that place, whose constant is the least.
pub fn run(
    alloc: Global,
    first: &[Line],
    width: usize,
    place: usize,
    turns: u64,
) -> Result<Ran, Stop>
    requires turns { 0 < turns }
    requires width { 1 < width }
    requires begins { Begins width place first.now }
    ensures ends { IfOk result (λ r. (qs : List Equation) → AreRead qs first.now → HasLowest place qs → Ended qs turns r.lines.items r.look) }
    ensures wide { IfErr result (λ e. (qs : List Equation) → AreRead qs first.now → HasLowest place qs → StopsFor (IsRunTooWide qs turns) e) }
{
    match pivoted(alloc, first, width, place, 1) {
        Ok(begun) => run_on(alloc, begun, width, turns),
        Err(stop) => Err(stop),
    }
}

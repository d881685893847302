//! The point of a look: that of the potential, or one of the simplex method with cuts.

use crate::answers::Answer;
use crate::engine::Engine;
use crate::numbers::next;
use crate::points::Point;
use crate::systems::{Ran, System};
use lucy_clauses::{Formula, Range};
use std::alloc::{AllocError, Global};

// How many cuts a round has at most.
const MOST_CUTS: u32 = 2;

// How many rounds of cuts may be in vain one after another.
const MOST_VAIN: usize = 8;

// What the cuts of a round come to.
#[derive(Debug, Drop)]
enum Cutting {
    Point(Point),
    Lemma,
}

impl Engine {
    // Whether cuts are to be sought: the point has a fraction, and either it breaks no open clause or few rounds were in
    // vain.
    fn is_to_cut(&self, point: &Point) -> Result<bool, AllocError> {
        if !point.is_broken() {
            return Ok(false);
        }
        if self.vain < MOST_VAIN {
            return Ok(true);
        }
        Ok(self.broken(point)?.is_none())
    }

    // Adds cuts, each with a new run.
    fn cut_round(
        &mut self,
        alloc: Global,
        ranges: &[Range],
        system: System,
        first: Point,
    ) -> Result<Cutting, AllocError> {
        let mut point = first;
        let mut system = system;
        for _ in 0..MOST_CUTS {
            let Some(row) = self.cut(alloc, &system, &point)? else {
                break;
            };
            system.rows.push(row)?;
            match self.run(alloc, ranges, &system, &point)? {
                Ran::Point(better) => point = better,
                Ran::Lemma => return Ok(Cutting::Lemma),
                Ran::Nothing => break,
            }
        }
        Ok(Cutting::Point(point))
    }

    fn cut_choice(
        &mut self,
        alloc: Global,
        formula: &Formula,
        system: System,
        point: Point,
    ) -> Result<Option<Answer>, AllocError> {
        if !self.is_to_cut(&point)? {
            return Ok(Some(self.choice_at(alloc, formula, &point)?));
        }
        self.vain = next(self.vain);
        match self.cut_round(alloc, formula.ranges.as_slice(), system, point)? {
            Cutting::Point(point) => Ok(Some(self.choice_at(alloc, formula, &point)?)),
            Cutting::Lemma => {
                self.vain = 0;
                Ok(None)
            }
        }
    }

    // What is proposed where no lemma was found so far; none, where one is found now.
    pub(crate) fn choice(
        &mut self,
        alloc: Global,
        formula: &Formula,
    ) -> Result<Option<Answer>, AllocError> {
        let point = self.potential_point(alloc)?;
        if !self.breaks(&point) {
            return Ok(Some(self.choice_at(alloc, formula, &point)?));
        }
        let system = self.system(alloc)?;
        match self.run(alloc, formula.ranges.as_slice(), &system, &point)? {
            Ran::Point(better) => self.cut_choice(alloc, formula, system, better),
            Ran::Lemma => Ok(None),
            Ran::Nothing => Ok(Some(self.choice_at(alloc, formula, &point)?)),
        }
    }
}

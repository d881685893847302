//! What the items of a certificate make of a judge.

ghost use Rattle.std.specs.Prelude.{◌≡◌, IfOk};
ghost use Rattle.lucy_judge.specs.Trials as trials;
ghost use Rattle.lucy_stream.specs.Hearings.{changed};

use lucy_cert::{Item, PartName, ProofStep, Taker};
use lucy_judge::Judge;
use std::alloc::{AllocError, Global};

/// A judge that hears a certificate as its lines come.
#[derive(Drop)]
pub struct Hearing {
    /// The most clauses that may be live, as the first line says.
    pub live: Option<u64>,
    /// The judge.
    pub judge: Judge,
}

fn part_heard(
    alloc: Global,
    judge: Judge,
    live: Option<u64>,
    name: PartName,
) -> Result<Judge, AllocError>
    ensures { IfOk result (λ next. next ≡ changed judge (λ trial. trials.part_taken judge.plan live trial name)) }
{
    let mut judge = judge;
    judge.part(alloc, name, live)?;
    Ok(judge)
}

fn step_heard(alloc: Global, judge: Judge, step: &ProofStep) -> Result<Judge, AllocError>
    ensures { IfOk result (λ next. next ≡ changed judge (λ trial. trials.step_taken trial step.now)) }
{
    let mut judge = judge;
    judge.step(alloc, step)?;
    Ok(judge)
}

impl Taker for Hearing {
    ghost use Rattle.lucy_stream.specs.Hearings.{heard};

    ghost taken = { heard };

    fn take(self, alloc: Global, item: Item) -> Result<Hearing, AllocError> {
        let Hearing { live, judge } = self;
        match item {
            Item::Live(live) => Ok(Hearing { live, judge }),
            Item::Part(name) => {
                let judge = part_heard(alloc, judge, live, name)?;
                Ok(Hearing { live, judge })
            }
            Item::Step(step) => {
                let judge = step_heard(alloc, judge, &step)?;
                Ok(Hearing { live, judge })
            }
        }
    }
}

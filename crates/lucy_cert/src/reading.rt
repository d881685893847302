//! The certificate of a text.

ghost use Rattle.std.specs.Prelude.{◌≡◌, IsTrue, IfOk};
ghost use Rattle.lucy_cert.specs.Certificates as spec;
ghost use Rattle.lucy_io.specs.Outcomes.{Answers};
ghost use Rattle.lucy_cert.specs.declared.error.CertError.TheVariants.{OutOfMemory};
ghost use Rattle.lucy_cert.specs.Certifying.{certificate_of};

use crate::certificate::{Certificate, come_before};
use crate::entries::Item;
use crate::error::CertError;
use crate::names::PartName;
use crate::reader::Reader;
use crate::state::Taker;
use crate::steps::{Proof, ProofStep};
use sqlite_items::Items;
use std::alloc::{AllocError, Global};

// A part without a step behind the others, where its name comes behind theirs.
fn with_part(
    alloc: Global,
    name: PartName,
    parts: Items<(PartName, Proof)>,
) -> Result<Items<(PartName, Proof)>, AllocError>
    ensures { IfOk result (λ p. p ≡ spec.with_part name parts) }
{
    if !come_before(name, parts.as_slice()) {
        return Ok(parts);
    }
    let mut more = parts;
    more.push((
        name,
        Proof {
            steps: Items::new(alloc),
        },
    ))?;
    Ok(more)
}

fn longer(step: ProofStep, part: (PartName, Proof)) -> Result<(PartName, Proof), AllocError>
    ensures { IfOk result (λ p. p ≡ spec.longer step part) }
{
    let (name, Proof { steps }) = part;
    let mut more = steps;
    more.push(step)?;
    Ok((name, Proof { steps: more }))
}

// A step behind those of the last part.
#[tactic(auto, using(crate::proofs::CertificateLemmas::with_step_last))]
fn with_step(
    step: ProofStep,
    parts: Items<(PartName, Proof)>,
) -> Result<Items<(PartName, Proof)>, AllocError>
    ensures { IfOk result (λ p. p ≡ spec.with_step step parts) }
{
    let mut more = parts;
    let Some(last) = more.pop() else {
        return Ok(more);
    };
    more.push(longer(step, last)?)?;
    Ok(more)
}

impl Taker for Certificate {
    ghost use Rattle.lucy_cert.specs.Certificates.{add_item};

    ghost taken = { add_item };

    fn take(self, alloc: Global, item: Item) -> Result<Certificate, AllocError> {
        let Certificate { parts, live } = self;
        match item {
            Item::Live(live) => Ok(Certificate { parts, live }),
            Item::Part(name) => {
                let parts = with_part(alloc, name, parts)?;
                Ok(Certificate { parts, live })
            }
            Item::Step(step) => {
                let parts = with_step(step, parts)?;
                Ok(Certificate { parts, live })
            }
        }
    }
}

/// The certificate of a text. `TooLong` exactly where the text has more than 64 MiB; else `BadLine` with the first
/// line, from 1, up to which no certificate goes on: where the text ends early, the line that is missing or not ended.
pub fn read(alloc: Global, text: &[u8]) -> Result<Certificate, CertError>
    ensures { Answers OutOfMemory (λ c. c) (certificate_of text.now) result }
{
    let mut reader = Reader::new(alloc, Certificate::new(alloc, None));
    reader.feed(alloc, text)?;
    reader.finish()
}

//! A certificate judged as its text comes, piece by piece.

ghost use Rattle.std.specs.Prelude.{◌≡◌, ◌++◌, ℕ, List, [], IfOk, OnOk, OnErr, IsErr};
ghost use Rattle.std.specs.Arc.{arc_value};
ghost use Rattle.lucy_plan.specs.declared.parts.PlanParts.{PlanParts};
ghost use Rattle.lucy_stream.specs.Verifying.{verified, told};
ghost use Rattle.lucy_stream.specs.Laws as laws;

use crate::error::{StreamError, of_refusal, of_text};
use crate::hearing::Hearing;
use crate::laws::judged_as_read;
use lucy_cert::{CertError, Reader, cuts_do_not_matter};
use lucy_judge::{Checked, Judge, Refusal};
use lucy_plan::Plan;
use std::alloc::{AllocError, Global};
use std::sync::Arc;

fn of_judge(judged: Result<Checked, Refusal>) -> Result<Checked, StreamError>
    ensures { result ≡ laws.of_judge judged }
{
    match judged {
        Ok(checked) => Ok(checked),
        Err(refusal) => Err(of_refusal(refusal)),
    }
}

fn answered(read: Result<Hearing, CertError>) -> Result<Checked, StreamError>
    ensures { result ≡ laws.answered read }
{
    match read {
        Ok(hearing) => of_judge(hearing.judge.finish()),
        Err(error) => Err(of_text(error)),
    }
}

/// A certificate for a plan that is judged as its text comes, piece by piece. Of the text only the line that is not
/// ended, the step that is not complete and the live clauses of the part that is under way are held. Once memory has
/// run out it has failed, and answers want of memory to every later call.
#[derive(Drop)]
pub struct Stream {
    reader: Reader<Hearing>,
}

impl Stream {
    ghost use Rattle.lucy_stream.specs.Streams.{IsFed, HasFailed};
    ghost use Rattle.lucy_stream.specs.declared.error.StreamError.TheVariants.{OutOfMemory};

    /// A stream that was fed nothing.
    pub fn new(alloc: Global, plan: Arc<Plan>) -> Result<Stream, AllocError>
        ensures { IfOk result (λ stream. IsFed (arc_value plan) [] stream) }
    {
        cuts_do_not_matter::<Hearing>();
        let judge = Judge::new(alloc, plan)?;
        let reader = Reader::new(alloc, Hearing { live: None, judge });
        Ok(Stream { reader })
    }

    /// Takes the next piece of the text.
    pub fn feed(&mut self, alloc: Global, piece: &[u8]) -> Result<(), AllocError>
        ensures fed { (plan : PlanParts) (text : List ℕ) → IsFed plan text self.old → OnOk result (IsFed plan (text ++ piece.now) self.new) }
        ensures failed { OnErr result (HasFailed self.new) }
        ensures stays { HasFailed self.old → IsErr result }
    {
        cuts_do_not_matter::<Hearing>();
        self.reader.feed(alloc, piece)
    }

    /// The plan as a checked one, where the text says a certificate that is not refused. It answers as if the whole text
    /// were read first and then judged, however it was cut.
    pub fn finish(self) -> Result<Checked, StreamError>
        ensures whole { (plan : PlanParts) (text : List ℕ) → IsFed plan text self → result ≡ told plan (verified plan text) }
        ensures failed { HasFailed self → result ≡ Err OutOfMemory }
    {
        judged_as_read();
        answered(self.reader.finish())
    }
}

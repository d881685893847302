//! Whether each replica is that of its place, with the calls of the work and a reply to each.
ghost use Rattle.std.specs.Prelude.{◌≡◌, ◌≢◌, ◌<◌, ◌^◌, length, Some, slice_get, OnOk, IfErr};
ghost use Rattle.std.specs.Option.{option_map};
ghost use Rattle.lucy_audit.specs.Differences.{AreOtherLengths};
ghost use Rattle.lucy_audit.specs.Checks.{left_of, IsCause, IsSeated, HasItsCalls, IsAnswered};
ghost use Rattle.lucy_audit.specs.Pairs.{Compares};

use crate::differences::{Difference, Stop};
use crate::kept::Kept;
use lucy_plan::Call;
use std::alloc::Global;

impl Kept<'_> {
    /// Whether the replica at this place has its number.
    pub fn compare_seat(&self, place: usize) -> Result<(), Stop>
        requires few { length self.now.lives.now < 2 ^ 32 }
        requires within { place < length self.now.lives.now }
        ensures ok { OnOk result (IsSeated (left_of self.now) place) }
        ensures err { IfErr result (λ stop. IsCause (left_of self.now) stop) }
    {
        let held = self.lives[place].replica();
        if held as usize == place {
            return Ok(());
        }
        let place = place as u32;
        Err(Stop::Found(Difference::Seats { place, held }))
    }

    /// Whether its calls are those of the work's list.
    pub fn compare_calls(&self, alloc: Global, place: usize) -> Result<(), Stop>
        requires few { length self.now.lives.now < 2 ^ 32 }
        requires within { place < length self.now.lives.now }
        requires work { length self.now.lives.now ≡ length self.now.work.now }
        ensures ok { OnOk result (HasItsCalls (left_of self.now) place) }
        ensures err { IfErr result (λ stop. IsCause (left_of self.now) stop) }
    {
        let ours = self.lives[place].calls();
        let theirs = self.work[place].as_slice();
        if ours.len() != theirs.len() {
            return Err(other_lengths(self, place, ours.len(), theirs.len()));
        }
        let Some((ours, theirs)) = first_other(ours, theirs) else {
            return Ok(());
        };
        let replica = place as u32;
        let ours = ours.copied(alloc)?;
        let theirs = theirs.copied(alloc)?;
        Err(Stop::Found(Difference::Calls {
            replica,
            ours,
            theirs,
        }))
    }

    /// Whether each of its calls has a reply.
    pub fn compare_replies(&self, place: usize) -> Result<(), Stop>
        requires few { length self.now.lives.now < 2 ^ 32 }
        requires within { place < length self.now.lives.now }
        ensures ok { OnOk result (IsAnswered (left_of self.now) place) }
        ensures err { IfErr result (λ stop. IsCause (left_of self.now) stop) }
    {
        let life = &self.lives[place];
        let replies = life.replies().len();
        let calls = life.calls().len();
        if replies == calls {
            return Ok(());
        }
        Err(other_lengths(self, place, replies, calls))
    }
}

/// Two lengths of a replica that are to be the same, and are not.
pub fn other_lengths(kept: &Kept<'_>, place: usize, ours: usize, theirs: usize) -> Stop
    requires few { place < 2 ^ 32 }
    requires other { AreOtherLengths (left_of kept.now) place ours theirs }
    ensures { IsCause (left_of kept.now) result }
{
    let _plan = kept.plan;
    Stop::Found(Difference::Lengths {
        replica: place as u32,
        ours: ours as u64,
        theirs: theirs as u64,
    })
}

// The first call that is another than the one at the same place, with that one.
fn first_other<'a>(ours: &'a [Call], theirs: &'a [Call]) -> Option<(&'a Call, &'a Call)>
    requires { length ours.now ≡ length theirs.now }
    ensures { Compares ours.now theirs.now (option_map (λ (pair : _). (pair.0.now, pair.1.now)) result) }
{
    for place in 0..ours.len() {
        let call = &ours[place];
        let other = &theirs[place];
        if !call.is_same(other) {
            return Some((call, other));
        }
    }
    None
}

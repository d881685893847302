//! Whether each call of an expression was accepted in records up to the expression's.
ghost use Rattle.std.specs.Prelude.{◌≡◌, ◌<◌, ◌≤◌, ◌^◌, length, map, slice_get, OnOk, IfErr};
ghost use Rattle.lucy_replica.specs.Answering.{answer_of};
ghost use Rattle.lucy_replica.specs.Facts.{accepted_in};
ghost use Rattle.lucy_replica.specs.Legal as legal;
ghost use Rattle.lucy_audit.specs.Differences as differences;
ghost use Rattle.lucy_audit.specs.Tallies.{AreTallies};
ghost use Rattle.lucy_audit.specs.Checks.{left_of, IsCause, IsKept, IsReplyOf, IsAnswerCounted, IsRefusedWith, IsReachAccepted, IsCounted, IsStayCounted, IsReplyCounted, ArePartsCounted};

use crate::differences::{Difference, Stop};
use crate::kept::{Kept, how_many_records};
use crate::seats::other_lengths;
use crate::tallies::tallied;
use lucy_epochs::Parts;
use lucy_expr::{Expr, reach_covers_ids, reach_is_reached};
use lucy_replica::Reply;
use sqlite_items::Items;

impl Kept<'_> {
    /// Whether each refused reply of the replica at this place has a part of each replica, and each call
    /// of an expression that it keeps was accepted in records up to the expression's.
    pub fn compare_counts(&self, tallies: &[Items<usize>], place: usize) -> Result<(), Stop>
        requires tallies { AreTallies (left_of self.now).replicas tallies.now }
        requires few { length self.now.lives.now < 2 ^ 32 }
        requires within { place < length self.now.lives.now }
        ensures ok { OnOk result (IsCounted (left_of self.now) place) }
        ensures err { IfErr result (λ stop. IsCause (left_of self.now) stop) }
    {
        self.compare_stays(tallies, place)?;
        self.compare_replied(tallies, place)
    }

    // What the replica at this place has of its records.
    fn compare_stays(&self, tallies: &[Items<usize>], place: usize) -> Result<(), Stop>
        requires tallies { AreTallies (left_of self.now).replicas tallies.now }
        requires within { place < length self.now.lives.now }
        ensures ok { OnOk result ((number : _) → IsStayCounted (left_of self.now) place number) }
        ensures err { IfErr result (λ stop. IsCause (left_of self.now) stop) }
    {
        for number in 0..how_many_records(&self.lives[place]) {
            self.compare_stay(tallies, place, number)?;
        }
        Ok(())
    }

    // What it has of the record of this number.
    fn compare_stay(
        &self,
        tallies: &[Items<usize>],
        place: usize,
        number: usize,
    ) -> Result<(), Stop>
        requires tallies { AreTallies (left_of self.now).replicas tallies.now }
        requires within { place < length self.now.lives.now }
        ensures ok { OnOk result (IsStayCounted (left_of self.now) place number) }
        ensures err { IfErr result (λ stop. IsCause (left_of self.now) stop) }
    {
        let life = &self.lives[place];
        let closings = life.closings();
        if number < closings.len() {
            let closing = &closings[number];
            return self.compare_tree(tallies, closing.epoch.number(), &closing.expr);
        }
        if number == closings.len() {
            return self.compare_tree(tallies, life.epoch().number(), life.expr());
        }
        Ok(())
    }

    // Its replies.
    fn compare_replied(&self, tallies: &[Items<usize>], place: usize) -> Result<(), Stop>
        requires tallies { AreTallies (left_of self.now).replicas tallies.now }
        requires few { length self.now.lives.now < 2 ^ 32 }
        requires within { place < length self.now.lives.now }
        ensures ok { OnOk result ((reply : _) → IsReplyCounted (left_of self.now) place reply) }
        ensures err { IfErr result (λ stop. IsCause (left_of self.now) stop) }
    {
        let replies = self.lives[place].replies();
        for reply in 0..replies.len() {
            self.compare_reply(tallies, place, &replies[reply])?;
        }
        Ok(())
    }

    // One of its replies.
    fn compare_reply(
        &self,
        tallies: &[Items<usize>],
        place: usize,
        reply: &Reply,
    ) -> Result<(), Stop>
        requires tallies { AreTallies (left_of self.now).replicas tallies.now }
        requires few { length self.now.lives.now < 2 ^ 32 }
        requires within { place < length self.now.lives.now }
        requires reply { IsReplyOf (left_of self.now) place (answer_of reply.now) }
        ensures ok { OnOk result (IsAnswerCounted (left_of self.now) (answer_of reply.now)) }
        ensures err { IfErr result (λ stop. IsCause (left_of self.now) stop) }
    {
        match reply {
            Reply::Refused { parts, .. } => self.compare_parts(tallies, place, parts),
            Reply::Done { .. } | Reply::Broken { .. } | Reply::Moved { .. } => Ok(()),
        }
    }

    // The parts of a refused reply of it.
    fn compare_parts(
        &self,
        tallies: &[Items<usize>],
        place: usize,
        parts: &Parts,
    ) -> Result<(), Stop>
        requires tallies { AreTallies (left_of self.now).replicas tallies.now }
        requires few { length self.now.lives.now < 2 ^ 32 }
        requires within { place < length self.now.lives.now }
        requires refused { IsRefusedWith (left_of self.now) place parts.now }
        ensures ok { OnOk result (ArePartsCounted (left_of self.now) parts.now) }
        ensures err { IfErr result (λ stop. IsCause (left_of self.now) stop) }
    {
        let parts = parts.list();
        if parts.len() != self.lives.len() {
            return Err(other_lengths(self, place, parts.len(), self.lives.len()));
        }
        for seat in 0..parts.len() {
            let part = &parts[seat];
            self.compare_tree(tallies, part.epoch().number(), part.expr())?;
        }
        Ok(())
    }

    // An expression of the record of this number.
    fn compare_tree(&self, tallies: &[Items<usize>], number: u64, expr: &Expr) -> Result<(), Stop>
        requires tallies { AreTallies (left_of self.now).replicas tallies.now }
        requires kept { IsKept (left_of self.now) number expr.now.tree }
        ensures ok { OnOk result (legal.AreAccepted (left_of self.now).replicas number expr.now.tree) }
        ensures err { IfErr result (λ stop. IsCause (left_of self.now) stop) }
    {
        reach_covers_ids();
        let reaches = expr.reaches();
        for owner in 0..reaches.len() {
            self.compare_reach(tallies, number, expr, owner)?;
        }
        Ok(())
    }

    // The calls of one replica in it.
    fn compare_reach(
        &self,
        tallies: &[Items<usize>],
        number: u64,
        expr: &Expr,
        owner: usize,
    ) -> Result<(), Stop>
        requires tallies { AreTallies (left_of self.now).replicas tallies.now }
        requires kept { IsKept (left_of self.now) number expr.now.tree }
        requires few { owner < 2 ^ 32 }
        ensures ok { OnOk result (IsReachAccepted (left_of self.now) number expr.now.tree owner) }
        ensures err { IfErr result (λ stop. IsCause (left_of self.now) stop) }
    {
        reach_is_reached();
        let replica = owner as u32;
        let held = expr.reach(replica);
        if held == 0 {
            return Ok(());
        }
        let accepted = self.accepted_by(tallies, number, owner);
        if held as usize <= accepted {
            return Ok(());
        }
        Err(Stop::Found(Difference::Counts {
            replica,
            held,
            accepted: accepted as u32,
        }))
    }

    // How many calls a replica accepted in records up to the one of this number.
    fn accepted_by(&self, tallies: &[Items<usize>], number: u64, owner: usize) -> usize
        requires tallies { AreTallies (left_of self.now).replicas tallies.now }
        ensures { result ≡ differences.accepted_by number (slice_get (left_of self.now).replicas owner) }
    {
        let Some(life) = self.lives.get(owner) else {
            return 0;
        };
        match tallied(tallies, number, owner) {
            Some(count) => count,
            None => accepted_to(number, life.replies()),
        }
    }
}

// How many of these replies accept a call in records up to the one of this number.
fn accepted_to(number: u64, replies: &[Reply]) -> usize
    ensures { result ≡ legal.accepted_to number (map answer_of replies.now) }
{
    let mut count = 0;
    for reply in replies {
        if is_up_to(number, reply) {
            count += 1;
        }
    }
    count
}

// Whether a reply does.
fn is_up_to(number: u64, reply: &Reply) -> bool
    ensures { result ≡ legal.is_up_to number (accepted_in (answer_of reply.now)) }
{
    match reply {
        Reply::Done { epoch, .. } | Reply::Moved { epoch, .. } => epoch.number() <= number,
        Reply::Broken { .. } | Reply::Refused { .. } => false,
    }
}

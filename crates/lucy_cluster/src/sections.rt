//! What one replica does under its own lock, lent from it: each is one call.
ghost use Rattle.std.specs.Prelude.{◌≡◌, IfOk, OnErr};
ghost use Rattle.lucy_replica.specs.Submitting as submitting;
ghost use Rattle.lucy_replica.specs.Receiving as receiving;

use crate::gates::{Gate, Point};
use lucy_replica::{Life, Packet, Received, Submitted};
use std::alloc::{AllocError, Global};

/// The replica tries the next of its calls.
pub fn submit<G: Gate>(
    alloc: Global,
    life: &mut Life,
    number: u32,
    gate: &G,
) -> Result<Submitted, AllocError>
    ensures step { IfOk result (λ s. (s ≡ (submitting.submitted life.old.replica).0) × (life.new.replica ≡ (submitting.submitted life.old.replica).1)) }
    ensures err { OnErr result (life.new.replica ≡ life.old.replica) }
{
    let answer = life.submit(alloc)?;
    if let Submitted::Done(_) = answer {
        gate.at(number, Point::Commit);
    }
    Ok(answer)
}

/// The replica takes over what another one sent.
pub fn receive<G: Gate>(
    alloc: Global,
    life: &mut Life,
    packet: &Packet,
    number: u32,
    gate: &G,
) -> Result<Received, AllocError>
    ensures step { IfOk result (λ r. (r ≡ (receiving.received packet.now life.old.replica).0) × (life.new.replica ≡ (receiving.received packet.now life.old.replica).1)) }
    ensures err { OnErr result (life.new.replica ≡ life.old.replica) }
{
    let answer = life.receive(alloc, packet)?;
    if answer == Received::Merged {
        gate.at(number, Point::Merge);
    }
    Ok(answer)
}

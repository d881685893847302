//! A text that comes in pieces.

ghost use Rattle.std.specs.Prelude.{◌≡◌, ◌+◌, ◌≤◌, ◌^◌, Some, length, IfOk};
ghost use Rattle.lucy_cert.specs.Feeding as spec;
ghost use Rattle.lucy_cert.specs.Bounds.{IsFew, IsFewOr};

use crate::bytes::Bytes;
use crate::error::CertError;
use crate::machine::{Machine, Place};
use crate::state::{State, Taker, text_after};
use std::alloc::{AllocError, Global};
use std::marker::Model;

/// The greatest length of a certificate's text, in bytes.
pub const MOST_BYTES: u64 = 1 << 26;

/// How far a reading is.
#[derive(Drop)]
pub enum Phase<T> {
    /// The text is too long.
    TooLong,
    /// The text goes on.
    Going {
        /// The number of bytes so far.
        length: u64,
        /// What was made of them.
        state: State<T>,
    },
}

// What a piece makes of a phase.
fn phase_after<T: Taker>(
    alloc: Global,
    phase: Phase<T>,
    piece: &[u8],
) -> Result<Phase<T>, AllocError>
    requires { IsFew phase }
    ensures value { IfOk result (λ p. p ≡ spec.phase_after T.taken phase piece.now) }
    ensures few { IfOk result (λ p. IsFew p) }
{
    let Phase::Going { length, state } = phase else {
        return Ok(Phase::TooLong);
    };
    if piece.len() as u64 > MOST_BYTES - length {
        return Ok(Phase::TooLong);
    }
    let state = text_after(alloc, state, piece)?;
    Ok(Phase::Going {
        length: length + piece.len() as u64,
        state,
    })
}

// The phase before the first byte.
fn begun<T>(alloc: Global, taken: T) -> Phase<T>
    ensures value { result ≡ spec.begun taken }
    ensures few { IsFew result }
{
    Phase::Going {
        length: 0,
        state: State {
            carry: Bytes::new(alloc),
            lines: 0,
            machine: Some(Machine::new()),
            taken,
        },
    }
}

fn is_whole(carry: &[u8], machine: &Option<Machine>) -> bool
    ensures { result ≡ spec.is_whole carry.now machine.now }
{
    match machine {
        Some(
            Machine {
                place: Place::Ended,
                ..
            },
        ) => carry.is_empty(),
        _ => false,
    }
}

// What was made of a whole text.
fn ended<T: Drop>(state: State<T>) -> Result<T, CertError>
    requires { state.lines + 1 ≤ 2 ^ 63 }
    ensures { result ≡ spec.ended state }
{
    if is_whole(state.carry.as_slice(), &state.machine) {
        Ok(state.taken)
    } else {
        Err(CertError::BadLine(state.lines + 1))
    }
}

fn finished<T: Drop>(phase: Phase<T>) -> Result<T, CertError>
    requires { IsFew phase }
    ensures { result ≡ spec.finished phase }
{
    match phase {
        Phase::TooLong => Err(CertError::TooLong),
        Phase::Going { state, .. } => ended(state),
    }
}

/// A reader of a text that comes in pieces. Once memory has run out it has failed, and answers want of memory to every
/// later call. Contracts see how far it is, and `None` where it has failed.
#[derive(Drop)]
pub struct Reader<T> {
    phase: Option<Phase<T>>,
}

impl<T> Model for Reader<T> {
    ghost use Rattle.std.specs.Prelude.{Option};
    ghost use Rattle.lucy_cert.specs.declared.reader.Phase.{Phase};
    ghost use Rattle.lucy_cert.specs.Bounds.{IsFewOr};

    ghost Value = { Option (Phase T) };

    ghost view = { λ r. r.phase };

    ghost invariant = { λ r. IsFewOr r.phase };
}

impl<T: Taker> Reader<T> {
    /// A reader before the first byte.
    pub fn new(alloc: Global, taken: T) -> Reader<T>
        ensures { result ≡ Some (spec.begun taken) }
    {
        Reader {
            phase: Some(begun(alloc, taken)),
        }
    }

    /// Takes the next piece of the text.
    pub fn feed(&mut self, alloc: Global, piece: &[u8]) -> Result<(), AllocError>
        ensures { spec.Feeds T.taken self.old piece.now result self.new }
    {
        let Some(phase) = self.phase.take() else {
            return Err(AllocError);
        };
        let next = phase_after(alloc, phase, piece)?;
        self.phase = Some(next);
        Ok(())
    }

    /// What was made of the whole text. `TooLong` where it has more than 64 MiB; else `BadLine` with the first line,
    /// from 1, up to which no certificate goes on.
    pub fn finish(self) -> Result<T, CertError>
        ensures { spec.Finishes self result }
    {
        match self.phase {
            Some(phase) => finished(phase),
            None => Err(CertError::OutOfMemory),
        }
    }
}

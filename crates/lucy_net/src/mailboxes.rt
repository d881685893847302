//! One mailbox for each replica, each behind its own lock.
ghost use Rattle.std.specs.Prelude.{◌≡◌, ◌<◌, IfOk};

use crate::draws::Chaos;
use crate::rooms::Room;
use std::alloc::{AllocError, Global};
use std::marker::Model;
use std::sync::{Mutex, Wait};

/// One mailbox for each replica, which threads share. Contracts see the number of the replicas.
/// What arrives is known by the type of the items alone.
#[derive(Drop)]
pub struct Mail<T> {
    rooms: Vec<Mutex<Room<T>>>,
}

impl<T> Model for Mail<T> {
    ghost use Rattle.std.specs.Prelude.{ℕ, vec_len};

    ghost Value = { ℕ };

    ghost view = { λ m. vec_len m.rooms };
}

impl<T> Mail<T> {
    /// An empty mailbox for each of so many replicas.
    pub fn new(alloc: Global, replicas: u32) -> Result<Mail<T>, AllocError>
    where
        T: Drop,
        ensures { IfOk result (λ mail. mail ≡ replicas) }
    {
        let mut rooms = Vec::new(alloc);
        for _replica in 0..replicas {
            let room = Room::new(alloc)?;
            rooms.push(Mutex::new(room)).map_err(AllocError::from)?;
        }
        Ok(Mail { rooms })
    }

    /// Puts the item into the mailbox of replica `to`, once its lock is free. Takes no memory.
    pub fn post<R: Wait>(&self, rt: &R, to: u32, item: T)
    where
        T: Drop,
        requires { to < self.now }
    {
        self.rooms[to as usize].lock(rt).put(item);
    }

    /// Pulls an item out of the mailbox of replica `at`, once its lock is free. Takes no memory.
    pub fn take<R: Wait>(&self, rt: &R, at: u32, chaos: &mut Chaos) -> Option<T>
        requires { at < self.now }
    {
        self.rooms[at as usize].lock(rt).pull(chaos)
    }
}

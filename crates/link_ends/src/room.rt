ghost use Rattle.std.specs.Prelude.{◌≡◌, ◌==◌, [], length, min, IfOk};
ghost use Rattle.link_ends.specs.Room.{after_put};

use crate::octets::NoMemory;
use std::alloc::Global;
use std::marker::Model;

/// Bytes that are kept in memory which was taken before, as many as there is room for.
#[derive(Debug, Drop)]
pub(crate) struct Room {
    bytes: Vec<u8>,
    room: usize,
}

impl Model for Room {
    ghost use Rattle.std.specs.Prelude.{◌+◌, ◌≤◌, vec_len, vec_capacity};
    ghost use Rattle.link_ends.specs.Room.{Room as Filled};

    ghost Value = { Filled };

    ghost view = { λ r. record { taken = r.bytes.items; room = r.room } };

    ghost invariant = { λ r. vec_len r.bytes + r.room ≤ vec_capacity r.bytes };
}

impl Room {
    /// No bytes yet, and memory for so many.
    pub(crate) fn new(alloc: Global, room: u32) -> Result<Room, NoMemory>
        ensures { IfOk result (λ made. made ≡ record { taken = []; room = room }) }
    {
        let room = room as usize;
        Ok(Room {
            bytes: Vec::with_capacity(alloc, room)?,
            room,
        })
    }

    /// Whether no more bytes fit.
    pub(crate) fn is_full(&self) -> bool
        ensures { result ≡ (self.now.room == 0) }
    {
        self.room == 0
    }

    /// Keeps as many first bytes of the piece as fit, and answers how many.
    pub(crate) fn put(&mut self, piece: &[u8]) -> usize
        ensures count { result ≡ min (length piece.now) self.old.room }
        ensures room { self.new ≡ after_put self.old piece.now }
    {
        let count = piece.len().min(self.room);
        match self.bytes.extend_from_slice(&piece[..count]) {
            Ok(()) => {
                self.room -= count;
                count
            }
            Err(_) => unreachable!(),
        }
    }

    /// The bytes that are kept, oldest first.
    pub(crate) fn taken(&self) -> &[u8]
        ensures { result.now ≡ self.now.taken }
    {
        self.bytes.as_slice()
    }
}

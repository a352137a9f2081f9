ghost use Rattle.std.specs.Prelude.{◌≡◌, ◌≤◌, length, take, drop, OnOk, OnErr};
ghost use Rattle.link_ends.specs.Tape.{whole_tape, after_append, after_take};

use crate::octets::{NoMemory, Octets};
use std::marker::Model;

/// Bytes with a place in them: what is taken stands before it, and what is left behind it.
#[derive(Debug, Drop)]
pub struct Tape {
    bytes: Octets,
    place: usize,
}

impl Model for Tape {
    ghost use Rattle.std.specs.Prelude.{◌≤◌, take, drop, length};
    ghost use Rattle.link_ends.specs.Tape.{Tape as Passed};

    ghost Value = { Passed };

    ghost view = { λ t. record { taken = take t.place t.bytes; left = drop t.place t.bytes } };

    ghost invariant = { λ t. t.place ≤ length t.bytes };
}

impl Tape {
    /// All of these bytes are left.
    pub fn new(bytes: Octets) -> Tape
        ensures { result ≡ whole_tape bytes }
    {
        Tape { bytes, place: 0 }
    }

    /// Appends these bytes to those that are left.
    pub fn push_all(&mut self, bytes: &[u8]) -> Result<(), NoMemory>
        ensures ok { OnOk result (self.new ≡ after_append self.old bytes.now) }
        ensures err { OnErr result (self.new ≡ self.old) }
    {
        self.bytes.push_all(bytes)
    }

    /// The bytes that are left, oldest first.
    pub fn left(&self) -> &[u8]
        ensures { result.now ≡ self.now.left }
    {
        &self.bytes.as_slice()[self.place..]
    }

    /// The bytes that are taken, oldest first.
    pub fn taken(&self) -> &[u8]
        ensures { result.now ≡ self.now.taken }
    {
        &self.bytes.as_slice()[..self.place]
    }

    /// Takes the next `count` bytes.
    pub fn take(&mut self, count: usize)
        requires { count ≤ length self.old.left }
        ensures { self.new ≡ after_take self.old count }
    {
        let left = self.bytes.len() - self.place;
        prove!(count <= left);
        self.place += count;
    }

    /// Takes the next `count` bytes into the front of `buf`.
    pub(crate) fn read(&mut self, buf: &mut [u8], count: usize)
        requires fits { count ≤ length buf.old }
        requires left { count ≤ length self.old.left }
        ensures front { take count buf.new ≡ take count self.old.left }
        ensures behind { drop count buf.new ≡ drop count buf.old }
        ensures tape { self.new ≡ after_take self.old count }
    {
        let left = self.left();
        buf[..count].copy_from_slice(&left[..count]);
        self.take(count);
    }

    /// Gives up the bytes that are taken.
    pub fn forget(&mut self)
        ensures { self.new ≡ whole_tape self.old.left }
    {
        self.bytes.advance(self.place);
        self.place = 0;
    }
}

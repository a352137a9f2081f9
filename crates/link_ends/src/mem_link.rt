ghost use Rattle.std.specs.Prelude.{◌≡◌, [], is_err, min, length, IfOk};
ghost use Rattle.link_ends.specs.Counts.{one_more};
ghost use Rattle.link_ends.specs.Memory.{is_marked};
ghost use Rattle.link_ends.specs.Link.{IsHeard, IsSaid};
ghost use Rattle.link_ends.specs.Prepared.{new_wire, wire_state, gives, refuses, fails_now, after_count};

use crate::link::Link;
use crate::marks::Marks;
use crate::octets::{NoMemory, Octets};
use crate::room::Room;
use crate::source::Failed;
use crate::tape::Tape;
use std::alloc::Global;
use std::marker::Model;

/// A link to bytes in memory, which keeps what it takes as a `MemSink` does. Its reads and writes are counted together, from 0. A
/// call fails exactly where it is marked, or where no room is left for a piece that isn't empty; one that doesn't moves all that
/// fits, but a read gives no bytes from both sides of a cut.
#[derive(Debug, Drop)]
pub struct MemLink {
    bytes: Tape,
    cuts: Marks,
    kept: Room,
    marks: Marks,
    calls: u64,
    faults: u64,
    ends: u64,
}

impl Model for MemLink {
    ghost use Rattle.link_ends.specs.Prepared.{Wire};

    ghost Value = { Wire };

    ghost view = { λ l. record {
      heard = l.bytes.taken;
      left = l.bytes.left;
      cuts = l.cuts;
      taken = l.kept.taken;
      room = l.kept.room;
      marks = l.marks;
      calls = l.calls;
      faults = l.faults;
      ends = l.ends;
    } };
}

impl MemLink {
    /// All of these bytes are left to read, and `room` bytes fit, whose memory is taken now. The calls with the numbers of `fails`
    /// are to fail.
    pub fn new(
        alloc: Global,
        incoming: Octets,
        room: u32,
        fails: Marks,
    ) -> Result<MemLink, NoMemory>
        ensures { IfOk result (λ link. link ≡ new_wire incoming [] room fails) }
    {
        let cuts = Marks::of(alloc, &[])?;
        MemLink::paced(alloc, incoming, room, cuts, fails)
    }

    /// The same, with cuts: the places, in bytes from 0, before which a read ends.
    pub fn paced(
        alloc: Global,
        incoming: Octets,
        room: u32,
        cuts: Marks,
        fails: Marks,
    ) -> Result<MemLink, NoMemory>
        ensures { IfOk result (λ link. link ≡ new_wire incoming cuts room fails) }
    {
        Ok(MemLink {
            bytes: Tape::new(incoming),
            cuts,
            kept: Room::new(alloc, room)?,
            marks: fails,
            calls: 0,
            faults: 0,
            ends: 0,
        })
    }

    /// The bytes taken so far, oldest first.
    pub fn written(&self) -> &[u8]
        ensures { result.now ≡ self.now.taken }
    {
        self.kept.taken()
    }

    /// Whether the call that comes now fails, which is counted; or else it may be refused.
    fn fails(&mut self, refused: bool) -> bool
        ensures answer { result ≡ fails_now self.old refused }
        ensures counts { self.new ≡ after_count self.old refused }
    {
        let fails = self.marks.has(self.calls) || refused;
        self.calls = self.calls.saturating_add(1);
        if fails {
            self.faults = self.faults.saturating_add(1);
        }
        fails
    }
}

impl Link for MemLink {
    ghost state = { wire_state };

    ghost reads = { λ old buffer result buffer_now new. IsHeard result (wire_state old) (wire_state new) buffer buffer_now };

    ghost writes = { λ old piece result new. IsSaid result (wire_state old) (wire_state new) piece };

    fn read(&mut self, buf: &mut [u8]) -> Result<usize, Failed>
        ensures failed { is_err result ≡ is_marked self.old.marks self.old.calls }
        ensures all_that_fits { IfOk result (λ count. count ≡ gives self.old (length buf.old)) }
        ensures stays { (self.new.calls ≡ one_more self.old.calls) × (self.new.cuts ≡ self.old.cuts) × (self.new.room ≡ self.old.room) × (self.new.marks ≡ self.old.marks) }
        ensures heard { IsHeard result (wire_state self.old) (wire_state self.new) buf.old buf.new }
        ensures call { IsHeard result (wire_state self.old) (wire_state self.new) buf.old buf.new }
    {
        if self.fails(false) {
            return Err(Failed);
        }
        let room = buf.len().min(self.bytes.left().len());
        let count = self.cuts.up_to(self.bytes.taken().len(), room);
        if count == 0 && !buf.is_empty() {
            self.ends = self.ends.saturating_add(1);
        }
        self.bytes.read(buf, count);
        Ok(count)
    }

    fn write(&mut self, piece: &[u8]) -> Result<usize, Failed>
        ensures failed { is_err result ≡ refuses self.old piece.now }
        ensures all_that_fits { IfOk result (λ count. count ≡ min (length piece.now) self.old.room) }
        ensures stays { (self.new.calls ≡ one_more self.old.calls) × (self.new.cuts ≡ self.old.cuts) × (self.new.marks ≡ self.old.marks) }
        ensures said { IsSaid result (wire_state self.old) (wire_state self.new) piece.now }
        ensures call { IsSaid result (wire_state self.old) (wire_state self.new) piece.now }
    {
        let refused = self.kept.is_full() && !piece.is_empty();
        if self.fails(refused) {
            return Err(Failed);
        }
        Ok(self.kept.put(piece))
    }
}

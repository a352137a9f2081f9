ghost use Rattle.std.specs.Prelude.{◌≡◌, ◌-◌, [], length, min, is_err, IfOk, OnErr};
ghost use Rattle.link_ends.specs.Counts.{one_more};
ghost use Rattle.link_ends.specs.Sink.{IsWritten};
ghost use Rattle.link_ends.specs.Memory.{is_refused, sink_state};

use crate::marks::Marks;
use crate::octets::NoMemory;
use crate::room::Room;
use crate::sink::Sink;
use crate::source::Failed;
use std::alloc::Global;
use std::marker::Model;

/// A sink that keeps what it takes in memory, as many bytes as it has room for. A call fails exactly where it is marked,
/// or where no room is left for a piece that isn't empty; one that doesn't takes all that fits.
#[derive(Debug, Drop)]
pub struct MemSink {
    kept: Room,
    marks: Marks,
    calls: u64,
    faults: u64,
}

impl Model for MemSink {
    ghost use Rattle.link_ends.specs.Memory.{Store};

    ghost Value = { Store };

    ghost view = { λ s. record { taken = s.kept.taken; room = s.kept.room; marks = s.marks; calls = s.calls; faults = s.faults } };
}

impl MemSink {
    /// Nothing is taken, and `room` bytes fit, whose memory is taken now. The calls with the numbers of `fails` are to fail.
    pub fn new(alloc: Global, room: u32, fails: Marks) -> Result<MemSink, NoMemory>
        ensures { IfOk result (λ sink. sink ≡ record { taken = []; room = room; marks = fails; calls = 0; faults = 0 }) }
    {
        Ok(MemSink {
            kept: Room::new(alloc, room)?,
            marks: fails,
            calls: 0,
            faults: 0,
        })
    }

    /// The bytes taken so far, oldest first.
    pub fn written(&self) -> &[u8]
        ensures { result.now ≡ self.now.taken }
    {
        self.kept.taken()
    }
}

impl Sink for MemSink {
    ghost state = { sink_state };

    fn write(&mut self, piece: &[u8]) -> Result<usize, Failed>
        ensures failed { is_err result ≡ is_refused self.old piece.now }
        ensures all_that_fits { IfOk result (λ n. n ≡ min (length piece.now) self.old.room) }
        ensures room { IfOk result (λ n. self.new.room ≡ self.old.room - n) }
        ensures no_room { OnErr result (self.new.room ≡ self.old.room) }
        ensures call { self.new.calls ≡ one_more self.old.calls }
        ensures marks { self.new.marks ≡ self.old.marks }
        ensures written { IsWritten result (sink_state self.old) (sink_state self.new) piece.now }
    {
        let refused = self.marks.has(self.calls) || (self.kept.is_full() && !piece.is_empty());
        self.calls = self.calls.saturating_add(1);
        if refused {
            self.faults = self.faults.saturating_add(1);
            return Err(Failed);
        }
        Ok(self.kept.put(piece))
    }
}

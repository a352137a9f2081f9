ghost use Rattle.std.specs.Prelude.{◌≡◌, length, min, is_err, IfOk};
ghost use Rattle.link_ends.specs.Counts.{one_more};
ghost use Rattle.link_ends.specs.Source.{IsRead};
ghost use Rattle.link_ends.specs.Memory.{is_marked, source_state};

use crate::marks::Marks;
use crate::octets::Octets;
use crate::source::{Failed, Source};
use crate::tape::Tape;
use std::marker::Model;

/// A source of bytes that are in memory. A call fails exactly where it is marked; one that doesn't gives all that fits.
#[derive(Debug, Drop)]
pub struct MemSource {
    bytes: Tape,
    marks: Marks,
    calls: u64,
    faults: u64,
    ends: u64,
}

impl Model for MemSource {
    ghost use Rattle.link_ends.specs.Memory.{Supply};

    ghost Value = { Supply };

    ghost view = { λ s. record { left = s.bytes.left; marks = s.marks; calls = s.calls; faults = s.faults; ends = s.ends } };
}

impl MemSource {
    /// All of these bytes are left. The calls with the numbers of `fails` are to fail.
    pub fn new(bytes: Octets, fails: Marks) -> MemSource
        ensures { result ≡ record { left = bytes; marks = fails; calls = 0; faults = 0; ends = 0 } }
    {
        MemSource {
            bytes: Tape::new(bytes),
            marks: fails,
            calls: 0,
            faults: 0,
            ends: 0,
        }
    }
}

impl Source for MemSource {
    ghost state = { source_state };

    fn read(&mut self, buf: &mut [u8]) -> Result<usize, Failed>
        ensures failed { is_err result ≡ is_marked self.old.marks self.old.calls }
        ensures all_that_fits { IfOk result (λ n. n ≡ min (length buf.old) (length self.old.left)) }
        ensures call { self.new.calls ≡ one_more self.old.calls }
        ensures marks { self.new.marks ≡ self.old.marks }
        ensures read { IsRead result (source_state self.old) (source_state self.new) buf.old buf.new }
    {
        let marked = self.marks.has(self.calls);
        self.calls = self.calls.saturating_add(1);
        if marked {
            self.faults = self.faults.saturating_add(1);
            return Err(Failed);
        }
        let count = buf.len().min(self.bytes.left().len());
        if count == 0 && !buf.is_empty() {
            self.ends = self.ends.saturating_add(1);
        }
        self.bytes.read(buf, count);
        Ok(count)
    }
}

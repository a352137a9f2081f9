ghost use Rattle.std.specs.Prelude.{◌≡◌, ◌+◌, ◌≤◌, None, drop, length, slice_get, IfErr, IfSome, OnOk};
ghost use Rattle.dss_frame.specs.Fault.{answer_of};
ghost use Rattle.dss_frame.specs.Reading.{start, fed, Stopped};
ghost use Rattle.dss_frame.specs.Held.{held_of};

use crate::dss::{Placed, Side};
use crate::fault::{FeedFault, StreamFault};
use crate::scan::Scanner;
use crate::step::Position;
use crate::unread::Unread;
use bytes::BytesMut;
use std::alloc::Global;
use std::collections::VecDeque;
use std::marker::Model;

/// Reads DSSs from bytes that come in pieces. It is seen as the DSSs that were read and not taken yet, where the next one
/// begins, the bytes of that one so far, and the fault that ended the reading.
#[derive(Debug, Drop)]
pub struct Reader {
    side: Side,
    limit: u64,
    /// Where long bodies are put, many into one block.
    room: BytesMut,
    whole: VecDeque<Placed>,
    position: Position,
    unread: Unread,
    /// How far the segments of the open DSS were walked.
    walked: usize,
    fault: Option<StreamFault>,
}

impl Model for Reader {
    ghost use Rattle.dss_frame.specs.Reading.{View};

    ghost Value = { View };

    ghost use Rattle.std.specs.Prelude.{◌≡◌};
    ghost use Rattle.dss_frame.specs.Kept.{IsWithin};
    ghost use Rattle.dss_frame.specs.Walk.{walked_to};

    ghost view = { λ r. record { side = r.side; limit = r.limit; whole = r.whole.items; position = r.position; «open» = r.unread; fault = r.fault } };

    ghost invariant = { λ r. IsWithin r.limit r.whole.items r.position × (r.walked ≡ walked_to r.unread) };
}

impl Reader {
    /// A reader at place 0, with nothing read, of the DSSs of one side. A chain has at most `limit` bytes. What it reads is
    /// stored in memory of this allocator.
    pub fn new(alloc: Global, side: Side, limit: u64) -> Reader
        ensures { result ≡ start side limit }
    {
        Reader {
            side,
            limit,
            room: BytesMut::new(alloc),
            whole: VecDeque::new(alloc),
            position: Position::first(limit),
            unread: Unread::new(alloc),
            walked: 0,
            fault: None,
        }
    }

    /// Reads the next piece. `Frame` comes exactly where the bytes so far, however they go on, aren't whole DSSs, with the
    /// place of the first field that admits none; `TooLong` exactly where a chain has more bytes than the limit, with the
    /// place of the first byte beyond. The lower place decides, and `TooLong` at the same place. Either is answered again
    /// by each later call, and the DSSs that were whole before it can still be taken. After `NoMemory` the reader is as
    /// before.
    pub fn feed(&mut self, piece: &[u8]) -> Result<(), FeedFault>
        ensures ok { OnOk result (self.new ≡ fed self.old piece.now) }
        ensures no_fault { OnOk result (self.new.fault ≡ None) }
        ensures err { IfErr result (λ e. Stopped e self.old self.new piece.now) }
        ensures again { IfSome self.old.fault (λ fault. result ≡ Err (answer_of fault)) }
        ensures limit { self.new.limit ≡ self.old.limit }
    {
        if let Some(fault) = self.fault {
            return Err(FeedFault::from(fault));
        }
        let unread = self.unread.len();
        let whole = self.whole.len();
        let scanner = Scanner {
            side: self.side,
            limit: self.limit,
            position: self.position,
            walked: self.walked,
        };
        let read = scanner.read_piece(&mut self.room, &mut self.unread, piece, &mut self.whole);
        let Ok(scan) = read else {
            self.unread.truncate(unread);
            self.whole.truncate(whole);
            return Err(FeedFault::NoMemory);
        };
        self.position = scan.position;
        self.walked = scan.walked;
        self.fault = scan.fault;
        if let Some(fault) = scan.fault {
            return Err(FeedFault::from(fault));
        }
        Ok(())
    }

    /// The next whole DSS that was not taken yet, if there is one. It takes no memory.
    pub fn take(&mut self) -> Option<Placed>
        ensures first { result ≡ slice_get self.old.whole 0 }
        ensures rest { self.new ≡ record self.old { whole = drop 1 self.old.whole } }
        ensures within { IfSome result (λ placed. length placed.dss.body + 6 ≤ self.old.limit) }
    {
        self.whole.pop_front()
    }

    /// The place where the DSS begins that isn't whole yet.
    pub fn place(&self) -> u64
        ensures { result ≡ self.now.position.at }
    {
        self.position.at
    }

    /// The bytes of that DSS so far; none after a fault.
    pub fn begun(&self) -> &[u8]
        ensures { result.now ≡ self.now.open }
    {
        self.unread.as_slice()
    }

    /// The fault that ended the reading, if one did.
    pub fn fault(&self) -> Option<StreamFault>
        ensures { result ≡ self.now.fault }
    {
        self.fault
    }

    /// How many bytes are held: those of the whole DSSs that were not taken yet, as they are spelled, and those read behind
    /// the last whole one, up to the byte that shows the fault if there is one. It is told by places, so it is exact as
    /// long as they don't stand still.
    pub fn held(&self) -> usize
        ensures { result ≡ held_of self.now }
    {
        let first = match self.whole.front() {
            Some(placed) => placed.at,
            None => self.position.at,
        };
        let behind = match self.fault {
            Some(fault) => fault
                .at()
                .saturating_sub(self.position.at)
                .saturating_add(fault.shown_by()),
            None => self.unread.len() as u64,
        };
        self.position
            .at
            .saturating_sub(first)
            .saturating_add(behind) as usize
    }
}

ghost use Rattle.std.specs.Prelude.{◌≡◌, ◌+◌, ◌*◌, ◌≤◌, [], ◌∷◌, ◌++◌, length, take, drop, IfOk, OnOk, OnErr};
ghost use Rattle.dss_frame.specs.Segments.{extent_of, dss_of};
ghost use Rattle.dss_frame.specs.declared.segments.Extent.TheVariants.{Ends};
ghost use Rattle.dss_frame.specs.Reading.{fed};
ghost use Rattle.dss_frame.specs.Scan.{Scanned, Extends, at_position, kept_by};
ghost use Rattle.dss_frame.specs.Walk.{walked_to, IsWalked};

use crate::dss::{Placed, Side};
use crate::fault::StreamFault;
use crate::segments::{FURTHER_HEADER, is_short, long_body, segment_size, short_body, with_body};
use crate::step::{Position, Step};
use crate::unread::Unread;
use bytes::BytesMut;
use link_ends::NoMemory;
use std::collections::VecDeque;

/// Whose DSSs are read, from where on, and how far the first one was walked before.
#[derive(Clone, Copy, Debug)]
pub(crate) struct Scanner {
    pub(crate) side: Side,
    /// How many bytes a chain may have.
    pub(crate) limit: u64,
    pub(crate) position: Position,
    pub(crate) walked: usize,
}

/// What a scan comes to: how many bytes were read, where the DSS begins that isn't whole, how far that one was walked, the
/// fault if there is one, and how many segments were judged.
#[derive(Clone, Copy, Debug)]
pub(crate) struct Scan {
    pub(crate) begins: usize,
    pub(crate) position: Position,
    pub(crate) walked: usize,
    pub(crate) fault: Option<StreamFault>,
    pub(crate) judged: usize,
}

impl Scanner {
    /// Reads the bytes, with which a DSS begins, and puts each whole DSS behind `whole`, with its body in
    /// the room where it is long. After a fault no byte is left. Where memory runs out some of the DSSs may stand there.
    pub(crate) fn scan(
        self,
        room: &mut BytesMut,
        bytes: &[u8],
        whole: &mut VecDeque<Placed>,
    ) -> Result<Scan, NoMemory>
        requires { IsWalked self.walked bytes.now }
        ensures ok { IfOk result (Scanned self.side self.limit self.position bytes.now whole.old.items whole.new.items) }
        ensures walked { IfOk result (λ scan. scan.walked ≡ walked_to (drop scan.begins bytes.now)) }
        ensures steps { IfOk result (λ scan. 3 * scan.judged + self.walked ≤ scan.begins + scan.walked + 3) }
        ensures kept { Extends whole.old.items whole.new.items }
    {
        let mut begins = 0;
        let mut position = self.position;
        let mut walked = self.walked;
        let mut judged = 0;
        loop {
            let rest = &bytes[begins..];
            let next = position.next(self.side, rest, walked);
            judged += next.judged;
            match next.step {
                Step::Waits => {
                    return Ok(Scan {
                        begins,
                        position,
                        walked: next.walked,
                        fault: None,
                        judged,
                    });
                }
                Step::Stops { fault } => {
                    return Ok(Scan {
                        begins: bytes.len(),
                        position,
                        walked: 0,
                        fault: Some(fault),
                        judged,
                    });
                }
                Step::Reads { len } => {
                    let bytes = &rest[..len];
                    self.put_dss(position.at, room, bytes, rest, whole)?;
                    position = position.after(self.limit, bytes);
                    begins += len;
                    walked = 0;
                }
            }
        }
    }

    /// Puts the DSS that these bytes are, all of them, with which the stream goes on, and which begins at this place, behind
    /// `whole`. A short one and a long one are put there apart, so that the body of a short one is moved but once.
    fn put_dss(
        self,
        at: u64,
        room: &mut BytesMut,
        bytes: &[u8],
        stream: &[u8],
        whole: &mut VecDeque<Placed>,
    ) -> Result<(), NoMemory>
        requires whole { extent_of self.side bytes.now ≡ Ends (length bytes.now) }
        requires begins { bytes.now ≡ take (length bytes.now) stream.now }
        ensures put { OnOk result (whole.new.items ≡ whole.old.items ++ record { at = at; dss = dss_of bytes.now } ∷ []) }
        ensures err { OnErr result (whole.new.items ≡ whole.old.items) }
    {
        whole.reserve(1)?;
        if is_short(bytes) {
            let body = short_body(*room.allocator(), bytes, stream);
            let dss = with_body(bytes, body);
            whole.push_back_reserved(Placed { at, dss });
            return Ok(());
        }
        let body = long_body(room, bytes, stream.len())?;
        let dss = with_body(bytes, body);
        whole.push_back_reserved(Placed { at, dss });
        Ok(())
    }

    /// Reads a piece behind the bytes of the DSS that isn't whole, and keeps those of the one that isn't whole then. Only
    /// what that segment lacks is put behind them: what follows a whole DSS is read where it stands. Where memory runs out
    /// some DSSs may stand behind `whole`, and some bytes behind those unread.
    pub(crate) fn read_piece(
        self,
        room: &mut BytesMut,
        unread: &mut Unread,
        piece: &[u8],
        whole: &mut VecDeque<Placed>,
    ) -> Result<Scan, NoMemory>
        requires { self.walked ≡ walked_to unread.old }
        ensures ok { IfOk result (λ scan. kept_by self.side self.limit whole.new.items unread.new scan
            ≡ fed (at_position self.side self.limit self.position whole.old.items unread.old) piece.now) }
        ensures walked { IfOk result (λ scan. scan.walked ≡ walked_to unread.new) }
        ensures kept { Extends whole.old.items whole.new.items }
        ensures unread { OnErr result (Extends unread.old unread.new) }
    {
        let lacks = lacking(&unread.as_slice()[self.walked..], piece.len());
        let (first, rest) = piece.split_at(lacks);
        unread.push_all(first)?;
        let scan = self.scan(room, unread.as_slice(), whole)?;
        if rest.is_empty() {
            unread.keep_from(scan.begins);
            return Ok(scan);
        }
        if scan.fault.is_some() {
            unread.keep_from(scan.begins);
            return Ok(scan);
        }
        let scanner = Scanner {
            side: self.side,
            limit: self.limit,
            position: scan.position,
            walked: scan.walked,
        };
        if scan.begins == unread.len() {
            let next = scanner.scan(room, rest, whole)?;
            unread.replace(&rest[next.begins..])?;
            return Ok(next);
        }
        unread.push_all(rest)?;
        let next = scanner.scan(room, &unread.as_slice()[scan.begins..], whole)?;
        unread.keep_from(scan.begins + next.begins);
        Ok(next)
    }
}

/// How many bytes a segment lacks that isn't whole, of which these have come, but no more than a piece has; the whole
/// piece, where its length hasn't come, and nothing where it hasn't begun.
fn lacking(segment: &[u8], piece: usize) -> usize
    ensures { result ≤ piece }
{
    if segment.len() < FURTHER_HEADER {
        return if segment.is_empty() { 0 } else { piece };
    }
    segment_size(segment)
        .saturating_sub(segment.len())
        .min(piece)
}

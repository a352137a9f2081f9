ghost use Rattle.std.specs.Prelude.{◌≡◌, ◌+◌, ◌*◌, [], ◌<◌, ◌≤◌, length, take, nat_le, false, not, ◌&&◌, IfOk, OnOk};
ghost use Rattle.dss_frame.specs.Segments.{segment_size, continues, has_bit, kind_of, is_format_of, header_fault, field_offset, segments_extent};
ghost use Rattle.dss_frame.specs.Segments.{extent_of, dss_of, body_of};
ghost use Rattle.dss_frame.specs.Walk.{walked_to, IsWalked, EndsBehind};

use crate::dss::{Dss, Kind, Side};
use crate::fault::Why;
use byteorder::{BigEndian, ByteOrder};
use bytes::BytesMut;
use link_ends::{NoMemory, Octets};
use std::alloc::Global;

/// The third byte of each DSS.
pub(crate) const MAGIC: u8 = 0xD0;

/// The bits of the format byte above the kind: one that must be clear, chained to the next DSS, going on after an
/// error, and the next DSS has the same correlation number.
const RESERVED: u8 = 0x80;

pub(crate) const CHAINED: u8 = 0x40;

const GO_ON: u8 = 0x20;

const SAME: u8 = 0x10;

/// How many bytes of the first segment stand before its body, and of a further one.
pub(crate) const HEADER: usize = 6;

pub(crate) const FURTHER_HEADER: usize = 2;

/// The least length of a further segment.
const LEAST_FURTHER: usize = 3;

/// The bit of a length that says that another segment follows, and how many lengths there are below it.
const CONTINUES: u16 = 0x8000;

/// A body of so many bytes in one segment stands in the value itself.
pub(crate) const SHORT_BODY: usize = 24;

/// Room for bodies is made for this many of the bytes that came, at least: for all of them where there are fewer, so that a reader
/// that reads little keeps little.
const BLOCK: usize = 65_536;

/// What is known of a DSS from the bytes of it that have come.
#[derive(Clone, Copy, Debug)]
pub(crate) enum Extent {
    /// More bytes are awaited.
    Awaits,
    /// It is whole, with so many bytes.
    Ends { len: usize },
    /// The field at this offset is none of a DSS.
    Fails { offset: usize, why: Why },
}

/// What is known of a DSS, how far its segments were walked: up to the first that isn't whole, where more bytes are
/// awaited; and how many segments were judged on the way.
#[derive(Clone, Copy, Debug)]
pub(crate) struct Walk {
    pub(crate) extent: Extent,
    pub(crate) walked: usize,
    pub(crate) judged: usize,
}

/// How many bytes the segment has that these bytes begin with.
pub(crate) fn segment_size(bytes: &[u8]) -> usize
    requires { 2 ≤ length bytes.now }
    ensures size { result ≡ segment_size bytes.now }
    ensures small { result < 32768 }
{
    usize::from(BigEndian::read_u16(bytes) % CONTINUES)
}

/// Whether another segment follows the one that these bytes begin with.
fn continues(bytes: &[u8]) -> bool
    requires { 2 ≤ length bytes.now }
    ensures { result ≡ continues bytes.now }
{
    BigEndian::read_u16(bytes) >= CONTINUES
}

/// Whether the byte has this bit set.
pub(crate) fn has_bit(byte: u8, bit: u8) -> bool
    requires { 0 < bit }
    ensures { result ≡ has_bit bit byte }
{
    byte / bit % 2 == 1
}

/// What a DSS with this format byte holds.
fn kind(format: u8) -> Kind
    ensures { result ≡ kind_of format }
{
    match format % 16 {
        1 => Kind::Request,
        2 => Kind::Reply,
        _ => Kind::Object,
    }
}

/// Whether the format byte is one that is read of this side: of a kind of that side, and saying that the next DSS has
/// the same correlation number only where there is a next one.
fn is_accepted(side: Side, format: u8) -> bool
    ensures { result ≡ is_format_of side format }
{
    let low = format % 16;
    let is_kind = match side {
        Side::Requests => low == 1 || low == 3,
        Side::Replies => low == 2 || low == 3,
    };
    is_kind && !has_bit(format, RESERVED) && (!has_bit(format, SAME) || has_bit(format, CHAINED))
}

/// What is wrong with the first field of the header that has come whole and is none of a DSS.
#[tactic(auto, unfolding(crate::specs::Segments::header_fault))]
fn header_fault(side: Side, bytes: &[u8]) -> Option<Why>
    ensures { result ≡ header_fault side bytes.now }
{
    if bytes.len() >= 2 && segment_size(bytes) < HEADER {
        Some(Why::Short)
    } else if bytes.len() >= 3 && bytes[2] != MAGIC {
        Some(Why::NoD0)
    } else if bytes.len() >= 4 && !is_accepted(side, bytes[3]) {
        Some(Why::Format)
    } else {
        None
    }
}

/// Where the field begins, in the first segment.
fn offset_of(why: Why) -> usize
    ensures { result ≡ field_offset why }
{
    match why {
        Why::Short => 0,
        Why::NoD0 => 2,
        Why::Format => 3,
        Why::Continue => HEADER,
    }
}

/// What is known of the DSS that begins with these bytes, the first of which were walked before.
#[tactic(auto, unfolding(crate::specs::Segments::extent_of))]
pub(crate) fn judge(side: Side, bytes: &[u8], walked: usize) -> Walk
    requires { IsWalked walked bytes.now }
    ensures extent { result.extent ≡ extent_of side bytes.now }
    ensures walked { result.extent ≡ Extent.Awaits → result.walked ≡ walked_to bytes.now }
    ensures steps { 3 * result.judged + walked ≤ result.walked + 3 }
    ensures last { EndsBehind result.walked result.extent }
    ensures within { result.walked ≤ length bytes.now }
{
    match header_fault(side, bytes) {
        Some(why) => Walk {
            extent: Extent::Fails {
                offset: offset_of(why),
                why,
            },
            walked,
            judged: 1,
        },
        None => walk_on(bytes, walked),
    }
}

/// What the segments come to that these bytes begin with, the first of which were walked before.
fn walk_on(bytes: &[u8], walked: usize) -> Walk
    requires { IsWalked walked bytes.now }
    ensures extent { result.extent ≡ segments_extent (length bytes.now) 0 bytes.now }
    ensures walked { result.walked ≡ walked_to bytes.now }
    ensures steps { 3 * result.judged + walked ≤ result.walked + 3 }
    ensures last { EndsBehind result.walked result.extent }
    ensures within { result.walked ≤ length bytes.now }
{
    let mut walked = walked;
    let mut judged = 0;
    loop {
        let rest = &bytes[walked..];
        judged += 1;
        if rest.len() < FURTHER_HEADER {
            return Walk {
                extent: Extent::Awaits,
                walked,
                judged,
            };
        }
        let size = segment_size(rest);
        if size < LEAST_FURTHER {
            let extent = Extent::Fails {
                offset: walked,
                why: Why::Continue,
            };
            return Walk {
                extent,
                walked,
                judged,
            };
        }
        if rest.len() < size {
            return Walk {
                extent: Extent::Awaits,
                walked,
                judged,
            };
        }
        if !continues(rest) {
            let extent = Extent::Ends { len: walked + size };
            return Walk {
                extent,
                walked,
                judged,
            };
        }
        walked += size;
    }
}

/// The DSS that these bytes are, all of them, with this body.
#[tactic(auto, unfolding(crate::specs::Segments::dss_of))]
#[inline]
pub(crate) fn with_body(bytes: &[u8], body: Octets) -> Dss
    requires header { 6 ≤ length bytes.now }
    requires body { body ≡ body_of (length bytes.now) 6 bytes.now }
    ensures { result ≡ dss_of bytes.now }
{
    let format = bytes[3];
    Dss {
        kind: kind(format),
        chained: has_bit(format, CHAINED),
        same: has_bit(format, SAME),
        go_on: has_bit(format, GO_ON),
        corr: BigEndian::read_u16(&bytes[4..]),
        body,
    }
}

/// Whether these bytes, a whole DSS, are one segment with a short body.
pub(crate) fn is_short(bytes: &[u8]) -> bool
    requires { 2 ≤ length bytes.now }
    ensures { result ≡ (nat_le (length bytes.now) 30 && not (continues bytes.now)) }
{
    bytes.len() <= HEADER + SHORT_BODY && !continues(bytes)
}

/// What the one segment holds that these bytes are, with which the stream begins. It is copied with what follows it in the
/// stream, since that is quicker than to copy just as many bytes.
#[inline]
pub(crate) fn short_body(alloc: Global, bytes: &[u8], stream: &[u8]) -> Octets
    requires first { 6 ≤ segment_size bytes.now }
    requires whole { segments_extent (length bytes.now) 0 bytes.now ≡ Extent.Ends (length bytes.now) }
    requires begins { bytes.now ≡ take (length bytes.now) stream.now }
    requires short { length bytes.now ≤ 30 }
    requires one { continues bytes.now ≡ false }
    ensures { result ≡ body_of (length bytes.now) 6 bytes.now }
{
    Octets::short_front_of(alloc, &stream[HEADER..], bytes.len() - HEADER)
}

/// What the segments hold that these bytes are, all of them, put together in the room. So many bytes of the stream have come from
/// their first on.
#[inline(never)]
pub(crate) fn long_body(room: &mut BytesMut, bytes: &[u8], come: usize) -> Result<Octets, NoMemory>
    requires first { 6 ≤ segment_size bytes.now }
    requires whole { segments_extent (length bytes.now) 0 bytes.now ≡ Extent.Ends (length bytes.now) }
    ensures { IfOk result (λ body. body ≡ body_of (length bytes.now) 6 bytes.now) }
{
    empty_for(room, bytes.len(), come)?;
    let mut rest = bytes;
    let mut header = HEADER;
    loop {
        let (segment, after) = rest.split_at(segment_size(rest));
        room.extend_from_slice(&segment[header..])?;
        if !continues(rest) {
            let body = room.freeze_to(room.len())?;
            return Ok(Octets::from_shared(*room.allocator(), body));
        }
        rest = after;
        header = FURTHER_HEADER;
    }
}

/// Empties the room, and sees that so many bytes fit in it, and the bodies of all bytes that have come where that isn't too many.
fn empty_for(room: &mut BytesMut, len: usize, come: usize) -> Result<(), NoMemory>
    ensures { OnOk result (room.new.items ≡ []) }
{
    room.clear();
    if room.capacity() < len {
        room.reserve(len.max(come.min(BLOCK)))?;
    }
    Ok(())
}

ghost use Rattle.std.specs.Prelude.{◌≡◌, ◌+◌, ◌<◌, ◌≤◌, ◌∷◌, ◌++◌, length, take, drop, IsTrue, OnOk, OnErr};
ghost use Rattle.std.specs.Int.{w16, to_be_bytes};
ghost use Rattle.dss_frame.specs.Dss.{magic, kind_number, flag, format_byte, segment_length, header, canonical};
ghost use Rattle.dss_frame.specs.Scan.{Extends};

use crate::dss::{Dss, Kind};
use crate::segments::{FURTHER_HEADER, HEADER, MAGIC, SHORT_BODY};
use byteorder::{BigEndian, ByteOrder};
use link_ends::{NoMemory, Octets};

/// How many bytes of body the first segment holds.
const FIRST_ROOM: usize = 32_761;

/// How many bytes of body a further segment holds.
const FURTHER_ROOM: usize = 32_765;

/// This bit, where it is set.
fn bit(set: bool, value: u8) -> u8
    ensures { result ≡ flag set value }
{
    if set { value } else { 0 }
}

/// The low four bits of the format byte.
fn kind_bits(kind: Kind) -> u8
    ensures value { result ≡ kind_number kind }
    ensures small { result < 4 }
{
    match kind {
        Kind::Request => 1,
        Kind::Reply => 2,
        Kind::Object => 3,
    }
}

fn format_byte(dss: &Dss) -> u8
    ensures { result ≡ format_byte dss.now }
{
    bit(dss.chained, 0x40) + bit(dss.go_on, 0x20) + bit(dss.same, 0x10) + kind_bits(dss.kind)
}

/// The first bytes, as many as there is room for, and the others.
fn cut(bytes: &[u8], room: usize) -> (&[u8], &[u8])
    ensures part { result.0.now ≡ take room bytes.now }
    ensures rest { result.1.now ≡ drop room bytes.now }
{
    let len = bytes.len();
    bytes.split_at(if len < room { len } else { room })
}

/// The length field of a segment of so many bytes.
fn length_field(bytes: usize, continues: bool) -> u16
    requires { bytes < 32768 }
    ensures { result ≡ bytes + flag continues 32768 }
{
    if continues {
        bytes as u16 + 0x8000
    } else {
        bytes as u16
    }
}

/// Two bytes of length, D0, the format byte, the correlation number, and two bytes behind them: eight are moved at once.
fn eight_bytes(length: u16, format: u8, corr: u16) -> [u8; 8]
    ensures { take 6 result ≡ to_be_bytes w16 length ++ (magic ∷ format ∷ to_be_bytes w16 corr) }
{
    let marked = u64::from(length) * 0x1_0000 + u64::from(MAGIC) * 0x100 + u64::from(format);
    (marked * 0x1_0000_0000 + u64::from(corr) * 0x1_0000).to_be_bytes()
}

/// The header of the first segment, which has so many bytes, and two bytes behind it.
fn header_bytes(dss: &Dss, len: usize, continues: bool) -> [u8; 8]
    requires { len < 32768 }
    ensures { take 6 result ≡ header dss.now len continues }
{
    eight_bytes(length_field(len, continues), format_byte(dss), dss.corr)
}

/// Appends the canonical spelling of a DSS with a short body, which this array has with others behind it.
fn push_short(dss: &Dss, body: &[u8; SHORT_BODY], out: &mut Octets) -> Result<(), NoMemory>
    requires short { length dss.now.body ≤ 24 }
    requires body { take (length dss.now.body) body.now ≡ dss.now.body }
    ensures ok { OnOk result (out.new ≡ out.old ++ canonical dss.now) }
    ensures err { OnErr result (out.new ≡ out.old) }
{
    let len = dss.body.len();
    out.push_front_of(&header_bytes(dss, HEADER + len, false), HEADER)?;
    let written = out.push_front_of(body, len);
    if written.is_err() {
        out.truncate(out.len() - HEADER);
    }
    written
}

fn push_length(len: usize, continues: bool, out: &mut Octets) -> Result<(), NoMemory>
    requires { len < 32768 }
    ensures ok { OnOk result (out.new ≡ out.old ++ segment_length len continues) }
    ensures err { OnErr result (out.new ≡ out.old) }
{
    let mut bytes = [0; 2];
    BigEndian::write_u16(&mut bytes, length_field(len, continues));
    out.push_all(&bytes)
}

/// Appends the canonical spelling, or some first bytes of it where memory runs out.
fn push_segments(dss: &Dss, out: &mut Octets) -> Result<(), NoMemory>
    ensures ok { OnOk result (out.new ≡ out.old ++ canonical dss.now) }
    ensures err { OnErr result (Extends out.old out.new) }
{
    let (part, mut rest) = cut(dss.body.as_slice(), FIRST_ROOM);
    out.push_front_of(
        &header_bytes(dss, HEADER + part.len(), !rest.is_empty()),
        HEADER,
    )?;
    out.push_all(part)?;
    while !rest.is_empty() {
        let (part, after) = cut(rest, FURTHER_ROOM);
        push_length(FURTHER_HEADER + part.len(), !after.is_empty(), out)?;
        out.push_all(part)?;
        rest = after;
    }
    Ok(())
}

/// Appends the canonical spelling of the DSS. After NoMemory `out` is as before.
pub fn write_dss(dss: &Dss, out: &mut Octets) -> Result<(), NoMemory>
    requires { IsTrue dss.now.same → IsTrue dss.now.chained }
    ensures ok { OnOk result (out.new ≡ out.old ++ canonical dss.now) }
    ensures err { OnErr result (out.new ≡ out.old) }
{
    match dss.body.as_array() {
        Some(body) if dss.body.len() <= SHORT_BODY => return push_short(dss, body, out),
        _ => {}
    }
    let before = out.len();
    let written = push_segments(dss, out);
    if written.is_err() {
        out.truncate(before);
    }
    written
}

ghost use Rattle.std.specs.Prelude.{◌≡◌, ◌+◌, ◌<◌, ◌≤◌, length, IfOk, Result};
ghost use Rattle.ddm_objects.specs.Objects.{outer_of, first_object, object_at, extent_at, extended_at};
ghost use Rattle.ddm_objects.specs.Seen.{seen_extent, seen_found, seen_result};

use crate::fault::{ObjFault, ObjWhy};
use byteorder::{BigEndian, ByteOrder};

/// An object that was read: its code point, and its data, which are a part of the bytes that were read.
#[derive(Clone, Copy, Debug)]
pub struct Object<'a> {
    pub code: u16,
    pub bytes: &'a [u8],
}

/// How many bytes of an object stand before its extended length, or before its data where it has none.
pub(crate) const HEADER: usize = 4;

/// The length of an object whose data go to the end of the bytes.
const TO_END: u16 = 0x8004;

/// The length of an object with an extended length of four bytes.
pub(crate) const EXTENDED_4: u16 = 0x8008;

/// The length of an object with an extended length of six bytes.
const EXTENDED_6: u16 = 0x800A;

/// The length of an object with an extended length of eight bytes.
const EXTENDED_8: u16 = 0x800C;

/// The greatest extended length that is read, in bytes.
pub(crate) const GREATEST_EXTENDED: u64 = 33_554_432;

/// How many bytes of data an object has, and the bytes from its data on, by its extended length of `count` bytes, with
/// which these bytes begin.
fn extended(count: usize, bytes: &[u8]) -> Result<(usize, &[u8]), ObjWhy>
    requires some { 1 ≤ count }
    requires fits { count ≤ 8 }
    ensures extent { seen_extent result ≡ extended_at count bytes.now }
    ensures within { IfOk result (λ extent. length extent.1.now ≤ length bytes.now) }
{
    if bytes.len() < count {
        return Err(ObjWhy::Past);
    }
    let size = BigEndian::read_uint(bytes, count);
    if size > GREATEST_EXTENDED {
        return Err(ObjWhy::Extended);
    }
    Ok((size as usize, &bytes[count..]))
}

/// How many bytes of data an object has, and the bytes from its data on, by its two bytes of length and the bytes
/// after its code point.
#[tactic(auto, unfolding(crate::specs::Objects::extent_at))]
fn extent(field: u16, bytes: &[u8]) -> Result<(usize, &[u8]), ObjWhy>
    ensures extent { seen_extent result ≡ extent_at field bytes.now }
    ensures within { IfOk result (λ extent. length extent.1.now ≤ length bytes.now) }
{
    match field {
        0..=3 => Err(ObjWhy::LessThan4),
        4..=0x7FFF => Ok((usize::from(field) - HEADER, bytes)),
        EXTENDED_4 => extended(4, bytes),
        EXTENDED_6 => extended(6, bytes),
        EXTENDED_8 => extended(8, bytes),
        _ => Err(ObjWhy::Extended),
    }
}

/// The object that the bytes begin with and which says where it ends, and the bytes after it. It lies at the offset
/// `at`, which a fault answers.
#[tactic(auto, unfolding(crate::specs::Objects::object_at))]
pub(crate) fn read_object(at: usize, bytes: &[u8]) -> Result<(Object<'_>, &[u8]), ObjFault>
    ensures found { seen_found result ≡ object_at at bytes.now }
    ensures within { IfOk result (λ found. length found.0.bytes.now + 4 + length found.1.now ≤ length bytes.now) }
{
    if bytes.len() < HEADER {
        return Err(ObjFault {
            at,
            why: ObjWhy::LessThan4,
        });
    }
    let code = BigEndian::read_u16(&bytes[2..]);
    match extent(BigEndian::read_u16(bytes), &bytes[HEADER..]) {
        Ok((size, from)) if size <= from.len() => {
            let (data, rest) = from.split_at(size);
            Ok((Object { code, bytes: data }, rest))
        }
        Ok(_) => Err(ObjFault {
            at,
            why: ObjWhy::Past,
        }),
        Err(why) => Err(ObjFault { at, why }),
    }
}

/// The first object of the bytes, and the bytes after it. An object whose data go to the end of the bytes leaves none
/// after it. An `Err` is the fault of the object, at 0.
#[tactic(auto, unfolding(crate::specs::Objects::first_object))]
pub fn first(body: &[u8]) -> Result<(Object<'_>, &[u8]), ObjFault>
    ensures found { seen_found result ≡ first_object body.now }
    ensures within { IfOk result (λ found. length found.0.bytes.now + 4 + length found.1.now ≤ length body.now) }
{
    if body.len() >= HEADER && BigEndian::read_u16(body) == TO_END {
        let code = BigEndian::read_u16(&body[2..]);
        let bytes = &body[HEADER..];
        return Ok((Object { code, bytes }, &[]));
    }
    read_object(0, body)
}

/// The object that the bytes are: exactly one, with nothing after it. An `Err` is the first fault: of the object, at
/// 0, or bytes that are left over, `Past`, at the first of them.
pub fn outer(body: &[u8]) -> Result<Object<'_>, ObjFault>
    ensures object { seen_result result ≡ outer_of body.now }
    ensures size { IfOk result (λ object. length object.bytes.now + 4 ≤ length body.now) }
{
    let (object, rest) = first(body)?;
    if !rest.is_empty() {
        return Err(ObjFault {
            at: body.len() - rest.len(),
            why: ObjWhy::Past,
        });
    }
    Ok(object)
}

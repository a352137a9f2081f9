ghost use Rattle.std.specs.Prelude.{◌≡◌, ◌+◌, ◌<◌, ◌≤◌, ◌^◌, ◌++◌, ◌↔◌, ◌-◌, [], IsTrue, length, take, drop, OnOk, OnErr};
ghost use Rattle.byteorder.specs.Endian.{big_bytes};
ghost use Rattle.ddm_objects.specs.Objects.{canonical_object};
ghost use Rattle.ddm_objects.specs.Builder.{nothing_built, greatest_built, greatest_depth, building_size, HasRoomFor, HasRoomToEnd, IsLong};
ghost use Rattle.ddm_objects.specs.Builder.{after_begin, after_put, after_end};

use crate::object::{EXTENDED_4, GREATEST_EXTENDED, HEADER};
use arrayvec::ArrayVec;
use byteorder::{BigEndian, ByteOrder};
use link_ends::{NoMemory, Octets};
use std::alloc::Global;
use std::marker::Model;

/// The greatest size of data that have a short length, in bytes.
const GREATEST_SHORT: usize = 32_763;

/// How many bytes an extended length has that is written.
const EXTENDED: usize = 4;

/// How many bytes can be built: as many as an object may have.
const GREATEST_BUILT: usize = GREATEST_EXTENDED as usize;

/// How many objects may be begun at a time.
const GREATEST_DEPTH: usize = 8;

/// An object that is begun: where its header will stand, and its code point.
#[derive(Clone, Copy, Debug, Default)]
struct BegunObject {
    at: usize,
    code: u16,
}

/// Objects that are being written, one within another. Each is written with the shortest length that it has: two
/// bytes up to 32,763 bytes of data, and four more above.
#[derive(Debug, Drop)]
pub struct Builder {
    bytes: Vec<u8>,
    begun: ArrayVec<BegunObject, GREATEST_DEPTH>,
}

impl Model for Builder {
    ghost use Rattle.std.specs.Prelude.{◌≤◌, length, reverse};
    ghost use Rattle.ddm_objects.specs.Builder.{Building, greatest_built};

    ghost Value = { Building };

    ghost use Rattle.ddm_objects.specs.BuilderFields.{building_of, IsWhole};

    ghost view = { λ b. building_of b.begun.items b.bytes.items };

    ghost invariant = { λ b. IsWhole (reverse b.begun.items) b.bytes.items × (length b.bytes.items ≤ greatest_built) };
}

impl Builder {
    /// Nothing written, and no object begun. What is written later is stored in memory of this allocator.
    pub fn new(alloc: Global) -> Builder
        ensures { result ≡ nothing_built }
    {
        Builder {
            bytes: Vec::new(alloc),
            begun: ArrayVec::new(),
        }
    }

    /// How many objects are begun and not ended yet.
    pub fn depth(&self) -> usize
        ensures { result ≡ length self.now.begun }
    {
        self.begun.len()
    }

    /// How many more bytes there is room for. Beginning an object takes four of them, and so does ending one that is
    /// long.
    pub fn room(&self) -> usize
        ensures { result + building_size self.now ≡ greatest_built }
    {
        GREATEST_BUILT - self.bytes.len()
    }

    /// Whether the innermost object has more data than a short length can say.
    pub fn is_long(&self) -> bool
        ensures { IsTrue result ↔ IsLong self.now.begun }
    {
        if self.begun.is_empty() {
            return false;
        }
        let object = self.begun[self.begun.len() - 1];
        self.bytes.len() - object.at - HEADER > GREATEST_SHORT
    }

    /// Begins an object with this code point, within the innermost one that is begun.
    pub fn begin(&mut self, code: u16) -> Result<(), NoMemory>
        requires depth { length self.old.begun < greatest_depth }
        requires room { HasRoomFor 4 self.old }
        ensures ok { OnOk result (self.new ≡ after_begin self.old code) }
        ensures err { OnErr result (self.new ≡ self.old) }
    {
        let at = self.bytes.len();
        self.bytes.extend_from_slice(&[0; HEADER])?;
        self.begun.push(BegunObject { at, code });
        Ok(())
    }

    /// Appends these bytes to the data of the innermost object.
    pub fn put(&mut self, bytes: &[u8]) -> Result<(), NoMemory>
        requires begun { 0 < length self.old.begun }
        requires room { HasRoomFor (length bytes.now) self.old }
        ensures ok { OnOk result (self.new ≡ after_put self.old bytes.now) }
        ensures err { OnErr result (self.new ≡ self.old) }
    {
        self.bytes.extend_from_slice(bytes)?;
        Ok(())
    }

    /// Ends the innermost object: it is whole at the end of the data of the one around it, or of what is written.
    pub fn end(&mut self) -> Result<(), NoMemory>
        requires begun { 0 < length self.old.begun }
        requires room { HasRoomToEnd self.old }
        ensures ok { OnOk result (self.new ≡ after_end self.old) }
        ensures err { OnErr result (self.new ≡ self.old) }
    {
        let object = self.begun[self.begun.len() - 1];
        end_at(&mut self.bytes, object)?;
        self.begun.pop();
        Ok(())
    }

    /// What is written.
    pub fn finish(self) -> Octets
        requires { self.begun ≡ [] }
        ensures { result ≡ self.written }
    {
        Octets::from_grown(self.bytes)
    }
}

/// Writes the header of this object, whose data go to the end of the bytes. One that is too long for four bytes moves
/// the data.
fn end_at(bytes: &mut Vec<u8>, object: BegunObject) -> Result<(), NoMemory>
    requires begun { object.at + 4 ≤ length bytes.old.items }
    requires fits { length bytes.old.items ≤ greatest_built }
    ensures ok { OnOk result (bytes.new.items ≡ take object.at bytes.old.items ++ canonical_object object.code (drop (object.at + 4) bytes.old.items)) }
    ensures err { OnErr result (bytes.new.items ≡ bytes.old.items) }
{
    let size = bytes.len() - object.at - HEADER;
    if size <= GREATEST_SHORT {
        write_short(&mut bytes.as_mut_slice()[object.at..], object.code);
    } else {
        bytes.extend_from_slice(&[0; EXTENDED])?;
        write_long(&mut bytes.as_mut_slice()[object.at..], object.code);
    }
    Ok(())
}

/// Writes a header with a short length into the four bytes in front of the data. The length counts them too.
fn write_short(object: &mut [u8], code: u16)
    requires begun { 4 ≤ length object.old }
    requires fits { length object.old < 2 ^ 15 }
    ensures { object.new ≡ big_bytes 2 (length object.old) ++ big_bytes 2 code ++ drop 4 object.old }
{
    let size = object.len() as u16;
    BigEndian::write_u16(object, size);
    BigEndian::write_u16(&mut object[2..], code);
}

/// Moves the data, which have four bytes in front and four behind, to the end, and writes a header with an extended
/// length in front of them. The length counts the data alone.
fn write_long(object: &mut [u8], code: u16)
    requires begun { 8 ≤ length object.old }
    requires fits { length object.old < 2 ^ 32 }
    ensures { object.new ≡ big_bytes 2 0x8008 ++ big_bytes 2 code ++ big_bytes 4 (length object.old - 8) ++ take (length object.old - 8) (drop 4 object.old) }
{
    let end = object.len() - EXTENDED;
    object.copy_within(HEADER..end, HEADER + EXTENDED);
    BigEndian::write_u16(object, EXTENDED_4);
    BigEndian::write_u16(&mut object[2..], code);
    BigEndian::write_u32(&mut object[HEADER..], (end - HEADER) as u32);
}

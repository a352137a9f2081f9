ghost use Rattle.std.specs.Prelude.{◌≡◌, ◌+◌, ◌≤◌, ◌↔◌, ◌⊎◌, [], ◌∷◌, length, IfOk, IfSome, IsOk, option_map};
ghost use Rattle.std.specs.Option.{option_or};
ghost use Rattle.ddm_objects.specs.Members.{IsMembers, find_of, first_with, next_of, after_next};
ghost use Rattle.ddm_objects.specs.Seen.{seen, seen_result, seen_search};

use crate::fault::ObjFault;
use crate::object::{Object, read_object};
use std::marker::Model;

/// A walk over the objects that stand one after another in bytes.
#[derive(Debug, Drop)]
pub struct MemberScan<'a> {
    at: usize,
    left: &'a [u8],
}

impl<'a> Model for MemberScan<'a> {
    ghost use Rattle.std.specs.Prelude.{◌+◌, ◌<◌, ◌^◌, length};
    ghost use Rattle.ddm_objects.specs.Members.{Scan};

    ghost Value = { Scan };

    ghost view = { λ s. record { at = s.at; left = s.left.now } };

    ghost invariant = { λ s. s.at + length s.left.now < 2 ^ 64 };
}

/// The objects that stand one after another in these bytes.
pub fn members(bytes: &[u8]) -> MemberScan<'_>
    ensures { result ≡ record { at = 0; left = bytes.now } }
{
    MemberScan { at: 0, left: bytes }
}

impl<'a> MemberScan<'a> {
    /// The bytes that are left: those of the next object, and of what follows it. None after a fault.
    pub fn left(&self) -> &'a [u8]
        ensures { result.now ≡ self.now.left }
    {
        self.left
    }

    /// The next object, or the fault in its place, with its offset from the scan's beginning. None at the end, and
    /// after a fault.
    pub fn next(&mut self) -> Option<Result<Object<'a>, ObjFault>>
        ensures answer { option_map seen_result result ≡ next_of self.old }
        ensures after { self.new ≡ after_next self.old }
    {
        if self.left.is_empty() {
            return None;
        }
        match read_object(self.at, self.left) {
            Ok((object, rest)) => {
                self.at += self.left.len() - rest.len();
                self.left = rest;
                Some(Ok(object))
            }
            Err(fault) => {
                self.left = &[];
                Some(Err(fault))
            }
        }
    }
}

/// The first object with this code point among those that stand one after another in the bytes. An `Err` is the
/// first fault of any of them, also of one after the object that was sought.
pub fn find(bytes: &[u8], code: u16) -> Result<Option<Object<'_>>, ObjFault>
    ensures found { seen_search result ≡ find_of bytes.now code }
    ensures sound { IsOk result ↔ IsMembers bytes.now }
    ensures within { IfOk result (λ found. IfSome found (λ object. length object.bytes.now + 4 ≤ length bytes.now)) }
{
    let mut scan = members(bytes);
    let mut found = None;
    while let Some(next) = scan.next() {
        found = or_first(found, next?, code);
    }
    Ok(found)
}

/// The object that was found, or this one if it has the code point that is sought.
fn or_first<'a>(found: Option<Object<'a>>, object: Object<'a>, code: u16) -> Option<Object<'a>>
    ensures first { option_map seen result ≡ option_or (option_map seen found.entry) (first_with code (seen object.entry ∷ [])) }
    ensures either { IfSome result (λ first. (found.entry ≡ Some first) ⊎ (first ≡ object.entry)) }
{
    match found {
        Some(first) => Some(first),
        None if object.code == code => Some(object),
        None => None,
    }
}

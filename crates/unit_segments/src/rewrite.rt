ghost use Rattle.std.specs.Prelude.{◌≡◌, ◌+◌, ◌<◌, ◌≤◌, ◌++◌, ℕ, Bool, suc, [], if◌then◌else◌, length, IfOk, OnOk, IfSome, IfNone};
ghost use Rattle.ddm_objects.specs.Objects.{canonical_object, greatest_extended};
ghost use Rattle.ddm_objects.specs.Builder.{HasRoomFor, after_put};
ghost use Rattle.unit_segments.specs.Release.{kept_within, kept_members};
ghost use Rattle.unit_segments.specs.Dropped.{drops};

use ddm_codepoints::code_point::{RLSCONV, RTNSETSTT, SRVLST};
use ddm_objects::{Builder, members};
use link_ends::{NoMemory, Octets};
use std::alloc::Global;

/// Which parameters are dropped.
#[derive(Clone, Copy, Debug)]
pub(crate) enum Dropped {
    /// What asks for release and for SET statements: RLSCONV and RTNSETSTT (DRDA, volume 3).
    Asking,
    /// The lists of members: SRVLST (DRDA, volume 3).
    Lists,
    /// These, and what tells of release.
    ListsAndRelease,
}

impl Dropped {
    /// Whether a parameter with this code point is.
    fn has(self, code: u16) -> bool
        ensures { result ≡ drops self code }
    {
        match self {
            Dropped::Asking => code == RLSCONV || code == RTNSETSTT,
            Dropped::Lists => code == SRVLST,
            Dropped::ListsAndRelease => code == RLSCONV || code == SRVLST,
        }
    }
}

/// The first of several parameters.
#[derive(Clone, Copy)]
struct First<'a> {
    code: u16,
    /// Its bytes as they came.
    spelled: &'a [u8],
    /// Those of the parameters that follow it.
    rest: &'a [u8],
}

/// The object with this code point whose data are the parameters but for those that are dropped, up to the first bytes that
/// are no object, and then more bytes.
pub(crate) fn rewritten(
    alloc: Global,
    code: u16,
    params: &[u8],
    dropped: Dropped,
    more: &[u8],
) -> Result<Octets, NoMemory>
    requires { length params.now + length more.now + 8 ≤ greatest_extended }
    ensures { IfOk result (λ object. object ≡ canonical_object code (kept_members (drops dropped) params.now ++ more.now)) }
{
    let mut builder = Builder::new(alloc);
    builder.begin(code)?;
    let mut left = params;
    while let Some(first) = first_of(left) {
        keep(&mut builder, first, dropped)?;
        left = first.rest;
    }
    builder.put(more)?;
    builder.end()?;
    Ok(builder.finish())
}

/// Appends a parameter as it came, unless it is dropped.
fn keep(builder: &mut Builder, first: First<'_>, dropped: Dropped) -> Result<(), NoMemory>
    requires begun { 0 < length builder.old.begun }
    requires room { HasRoomFor (length first.spelled.now) builder.old }
    ensures { OnOk result (builder.new ≡ (if drops dropped first.entry.code then builder.old else after_put builder.old first.entry.spelled.now)) }
{
    if dropped.has(first.code) {
        return Ok(());
    }
    builder.put(first.spelled)
}

/// The first parameter. None at their end, and where the bytes begin with no object.
fn first_of(params: &[u8]) -> Option<First<'_>>
    ensures none { IfNone result ((count : ℕ) (dropped : ℕ → Bool) → kept_within count dropped params.now ≡ []) }
    ensures some { IfSome result (λ first. (count : ℕ) (dropped : ℕ → Bool) → kept_within (suc count) dropped params.now
        ≡ (if dropped first.code then [] else first.spelled.now) ++ kept_within count dropped first.rest.now) }
    ensures size { IfSome result (λ first. length first.spelled.now + length first.rest.now ≡ length params.now) }
    ensures less { IfSome result (λ first. length first.rest.now < length params.now) }
{
    let mut scan = members(params);
    match scan.next() {
        Some(Ok(object)) => {
            let rest = scan.left();
            Some(First {
                code: object.code,
                spelled: &params[..params.len() - rest.len()],
                rest,
            })
        }
        Some(Err(_)) => None,
        None => None,
    }
}

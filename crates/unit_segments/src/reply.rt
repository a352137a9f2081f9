ghost use Rattle.std.specs.Prelude.{◌≡◌};
ghost use Rattle.std.specs.Option.{option_copied};
ghost use Rattle.unit_segments.specs.Command.{data_of};
ghost use Rattle.unit_segments.specs.Strip.{is_object_of, has_params, tells_error, list_of, end_says};
ghost use Rattle.unit_segments.specs.Told.{told};

use crate::body::{code_of, data_of};
use byteorder::{BigEndian, ByteOrder};
use ddm_codepoints::code_point::{ACCRDBRM, ENDUOWRM, SRVLST, SVRCOD};
use ddm_codepoints::value::ERROR;
use ddm_objects::find;
use dss_frame::{Dss, Kind};

/// Whether the body of a reply is an object with this code point.
pub fn is_object_of(code: u16, reply: &Dss) -> bool
    ensures { result ≡ is_object_of code reply.now }
{
    code_of(reply.body.as_slice()) == code
}

/// Whether it is, and its data are parameters.
pub(crate) fn has_params(code: u16, reply: &Dss) -> bool
    ensures { result ≡ has_params code reply.now }
{
    is_object_of(code, reply) && find(data_of(reply.body.as_slice()), 0).is_ok()
}

/// The data of the first parameter of a reply with this code point, where the reply's data are parameters.
fn parameter(code: u16, reply: &Dss) -> Option<&[u8]>
    ensures { option_copied result ≡ told code (data_of reply.now.body) }
{
    match find(data_of(reply.body.as_slice()), code) {
        Ok(Some(object)) => Some(object.bytes),
        _ => None,
    }
}

/// Whether it is a reply message that tells an error, or worse.
pub fn tells_error(reply: &Dss) -> bool
    ensures { result ≡ tells_error reply.now }
{
    match parameter(SVRCOD, reply) {
        Some(severity) if severity.len() >= 2 => {
            matches!(reply.kind, Kind::Reply) && BigEndian::read_u16(severity) >= ERROR
        }
        _ => false,
    }
}

/// Whether the message that says how the unit of work ended, if there is one, has a parameter with this code point and this one
/// byte.
pub(crate) fn end_says(code: u16, value: u8, message: Option<&Dss>) -> bool
    ensures { result ≡ end_says code value (option_copied message.entry) }
{
    let Some(message) = message else {
        return false;
    };
    match parameter(code, message) {
        Some(data) => is_object_of(ENDUOWRM, message) && data == [value].as_slice(),
        None => false,
    }
}

/// The data of the list of members that a reply tells.
pub(crate) fn list_of(reply: &Dss) -> Option<&[u8]>
    ensures { option_copied result ≡ list_of reply.now }
{
    if is_object_of(ENDUOWRM, reply) || is_object_of(ACCRDBRM, reply) {
        return parameter(SRVLST, reply);
    }
    None
}

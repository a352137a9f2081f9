ghost use Rattle.std.specs.Prelude.{◌≡◌, ◌≤◌, IsTrue, IfOk, length};
ghost use Rattle.access_handshake.specs.Rdbnam.{has_rdbnam, is_name, rdbnfnrm_object, rdbnam_answer};

use crate::object::put_object;
use crate::parameter::find_parameter;
use ddm_codepoints::code_point::{RDBNAM, RDBNFNRM, SVRCOD};
use ddm_codepoints::value::ERROR;
use ddm_codepoints::{padded_name, trimmed};
use ddm_objects::Builder;
use link_ends::{NoMemory, Octets};
use std::alloc::Global;

/// Whether the parameters are objects one after another with an RDBNAM.
pub fn has_rdbnam(params: &[u8]) -> bool
    ensures { result ≡ has_rdbnam params.now }
{
    find_parameter(params, RDBNAM).is_some()
}

/// RDBNFNRM with the RDBNAM as it is asked: None exactly where it is this name, with spaces behind it or without. Of a
/// repeated RDBNAM the first counts. DDM, volume 3, RDBNFNRM.
pub fn answer_rdbnam(alloc: Global, params: &[u8], rdb: &[u8]) -> Result<Option<Octets>, NoMemory>
    requires sound { IsTrue (has_rdbnam params.now) }
    requires size { length params.now ≤ 16777216 }
    requires name { length rdb.now ≤ 18 }
    ensures { IfOk result (λ answer. answer ≡ rdbnam_answer params.now rdb.now) }
{
    let asked = find_parameter(params, RDBNAM).unwrap();
    if is_name(asked, rdb) {
        Ok(None)
    } else {
        Ok(Some(rdbnfnrm(alloc, asked)?))
    }
}

/// Whether a name in EBCDIC is this one in ASCII.
fn is_name(asked: &[u8], rdb: &[u8]) -> bool
    requires { length rdb.now ≤ 18 }
    ensures { result ≡ is_name asked.now rdb.now }
{
    trimmed(asked) == &padded_name(rdb)[..rdb.len()]
}

/// RDBNFNRM: the database with this name isn't known.
fn rdbnfnrm(alloc: Global, asked: &[u8]) -> Result<Octets, NoMemory>
    requires { length asked.now ≤ 16777216 }
    ensures { IfOk result (λ object. object ≡ rdbnfnrm_object asked.now) }
{
    let mut builder = Builder::new(alloc);
    builder.begin(RDBNFNRM)?;
    put_object(&mut builder, SVRCOD, &ERROR.to_be_bytes())?;
    put_object(&mut builder, RDBNAM, asked)?;
    builder.end()?;
    Ok(builder.finish())
}

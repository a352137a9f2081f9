ghost use Rattle.std.specs.Prelude.{◌≡◌, IfOk};
ghost use Rattle.access_handshake.specs.Accepted.{accepted_of};

use crate::parameter::find_parameter;
use ddm_codepoints::code_point::{PRDID, TYPDEFNAM, TYPDEFOVR};
use ddm_codepoints::{TypDef, typdef_of};
use link_ends::{NoMemory, Octets};
use std::alloc::Global;

/// What a server says of itself where it gives access.
#[derive(Debug, Drop)]
pub struct Accepted {
    /// Its product: PRDID.
    pub prdid: Octets,
    /// How it represents data: TYPDEFNAM.
    pub typdef: TypDef,
    /// In which CCSIDs its characters are: the parameters of TYPDEFOVR.
    pub typdefovr: Octets,
}

/// What ACCRDBRM with these parameters says: None exactly where PRDID, a known TYPDEFNAM or TYPDEFOVR is missing, or the
/// parameters aren't objects one after another. Of a repeated parameter the first counts. DDM, volume 3, ACCRDBRM.
pub fn read_accepted(alloc: Global, params: &[u8]) -> Result<Option<Accepted>, NoMemory>
    ensures { IfOk result (λ accepted. accepted ≡ accepted_of params.now) }
{
    let Some(prdid) = find_parameter(params, PRDID) else {
        return Ok(None);
    };
    let Some(typdefnam) = find_parameter(params, TYPDEFNAM) else {
        return Ok(None);
    };
    let Some(typdef) = typdef_of(typdefnam) else {
        return Ok(None);
    };
    let Some(typdefovr) = find_parameter(params, TYPDEFOVR) else {
        return Ok(None);
    };
    Ok(Some(Accepted {
        prdid: Octets::of(alloc, prdid)?,
        typdef,
        typdefovr: Octets::of(alloc, typdefovr)?,
    }))
}

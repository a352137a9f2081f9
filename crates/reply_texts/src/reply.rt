ghost use Rattle.std.specs.Prelude.{◌≡◌, IfOk};
ghost use Rattle.reply_texts.specs.RdbName.{characters_of};
ghost use Rattle.reply_texts.specs.Reply.{abnuow_object, enduow_object, cmdnsp_object, prccnv_object};

use crate::rdb_name::RdbName;
use byteorder::{BigEndian, ByteOrder};
use ddm_codepoints::code_point::{
    ABNUOWRM, CMDNSPRM, CODPNT, ENDUOWRM, PRCCNVRM, RDBNAM, SVRCOD, UOWDSP,
};
use ddm_codepoints::padded_name;
use ddm_codepoints::value::{ERROR, WARNING};
use link_ends::{NoMemory, Octets};
use std::alloc::Global;

/// ABNUOWRM: the unit of work was rolled back without being asked. DDM, volume 3, ABNUOWRM.
pub fn abnuow(alloc: Global, rdb: &RdbName) -> Result<Octets, NoMemory>
    ensures { IfOk result (λ object. object ≡ abnuow_object (characters_of rdb.now)) }
{
    Octets::of(alloc, &abnuow_bytes(rdb))
}

/// ENDUOWRM: the unit of work ended, and how: UOWDSP. DDM, volume 3, ENDUOWRM.
pub fn enduow(alloc: Global, disposition: u8) -> Result<Octets, NoMemory>
    ensures { IfOk result (λ object. object ≡ enduow_object disposition) }
{
    Octets::of(alloc, &enduow_bytes(disposition))
}

/// CMDNSPRM: the command with this code point isn't known. DDM, volume 3, CMDNSPRM.
pub fn cmdnsp(alloc: Global, code: u16) -> Result<Octets, NoMemory>
    ensures { IfOk result (λ object. object ≡ cmdnsp_object code) }
{
    Octets::of(alloc, &cmdnsp_bytes(code))
}

/// PRCCNVRM: the command isn't allowed at this point of the conversation. DDM, volume 3, PRCCNVRM.
pub fn prccnv(alloc: Global) -> Result<Octets, NoMemory>
    ensures { IfOk result (λ object. object ≡ prccnv_object) }
{
    Octets::of(alloc, &prccnv_bytes())
}

pub(crate) fn abnuow_bytes(rdb: &RdbName) -> [u8; 32]
    ensures { result ≡ abnuow_object (characters_of rdb.now) }
{
    let mut object = [0; 32];
    let fields = [32, ABNUOWRM, 6, SVRCOD, ERROR, 22, RDBNAM];
    BigEndian::write_u16_into(&fields, &mut object[..14]);
    object[14..].copy_from_slice(&padded_name(rdb.as_slice()));
    object
}

#[tactic(auto, unfolding(crate::specs::Reply::enduow_object))]
fn enduow_bytes(disposition: u8) -> [u8; 15]
    ensures { result ≡ enduow_object disposition }
{
    let mut object = [disposition; 15];
    let fields = [15, ENDUOWRM, 6, SVRCOD, WARNING, 5, UOWDSP];
    BigEndian::write_u16_into(&fields, &mut object[..14]);
    object
}

#[tactic(auto, unfolding(crate::specs::Reply::cmdnsp_object))]
fn cmdnsp_bytes(code: u16) -> [u8; 16]
    ensures { result ≡ cmdnsp_object code }
{
    let mut object = [0; 16];
    let fields = [16, CMDNSPRM, 6, SVRCOD, ERROR, 6, CODPNT, code];
    BigEndian::write_u16_into(&fields, &mut object);
    object
}

#[tactic(auto, unfolding(crate::specs::Reply::prccnv_object))]
fn prccnv_bytes() -> [u8; 10]
    ensures { result ≡ prccnv_object }
{
    let mut object = [0; 10];
    let fields = [10, PRCCNVRM, 6, SVRCOD, ERROR];
    BigEndian::write_u16_into(&fields, &mut object);
    object
}

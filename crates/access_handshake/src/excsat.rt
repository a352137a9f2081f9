ghost use Rattle.std.specs.Prelude.{◌≡◌, ◌+◌, ◌≤◌, ℕ, List, length, IfOk};
ghost use Rattle.ddm_objects.specs.Members.{IsMembers};
ghost use Rattle.access_handshake.specs.Managers.{managers_of};
ghost use Rattle.access_handshake.specs.Excsat.{answer_to_levels, excsatrd_object, mgrlvlrm_object, excsat_answer, answer_object};

use crate::manager::{LEVEL, ManagerLevel, granted_list, is_too_low, level_pair, managers_of};
use crate::object::{object, put_object};
use ddm_codepoints::code_point::{
    EXCSATRD, MGRLVLLS, MGRLVLRM, SQLAM, SRVCLSNM, SRVNAM, SRVRLSLV, SVRCOD,
};
use ddm_codepoints::value::ERROR;
use ddm_objects::{Builder, find, found_is_within};
use link_ends::{NoMemory, Octets};
use std::alloc::Global;

/// DRDAGW in EBCDIC.
const CLASS_NAME: [u8; 6] = [0xC4, 0xD9, 0xC4, 0xC1, 0xC7, 0xE6];

/// GATEWAY in EBCDIC.
const SERVER_NAME: [u8; 7] = [0xC7, 0xC1, 0xE3, 0xC5, 0xE6, 0xC1, 0xE8];

/// GW01 in EBCDIC.
const RELEASE: [u8; 4] = [0xC7, 0xE6, 0xF0, 0xF1];

/// The answer to EXCSAT, with the object that says it.
#[derive(Debug, Drop)]
pub enum ExcsatAnswer {
    /// The levels that are granted: EXCSATRD.
    Granted(Octets),
    /// SQLAM is asked below level 7: MGRLVLRM.
    TooLow(Octets),
}

/// The answer to EXCSAT with these parameters: its object in canonical form.
#[tactic(auto, unfolding(crate::specs::Excsat::excsat_answer))]
pub fn answer_excsat(alloc: Global, params: &[u8]) -> Result<ExcsatAnswer, NoMemory>
    requires sound { IsMembers params.now }
    requires size { length params.now ≤ 16777216 }
    ensures { IfOk result (λ answer. answer ≡ excsat_answer params.now) }
{
    match find(params, MGRLVLLS).unwrap() {
        Some(list) => answer_levels(alloc, list.bytes),
        None => Ok(ExcsatAnswer::Granted(excsatrd(alloc, &[])?)),
    }
}

/// The answer to the levels that are asked.
fn answer_levels(alloc: Global, list: &[u8]) -> Result<ExcsatAnswer, NoMemory>
    requires { length list.now ≤ 16777216 }
    ensures { IfOk result (λ answer. answer ≡ answer_to_levels (managers_of list.now)) }
{
    let asked = managers_of(alloc, list)?;
    if is_too_low(&asked) {
        return Ok(ExcsatAnswer::TooLow(mgrlvlrm(alloc)?));
    }
    let levels = granted_list(alloc, &asked)?;
    let levels = object(alloc, MGRLVLLS, levels.as_slice())?;
    Ok(ExcsatAnswer::Granted(excsatrd(alloc, levels.as_slice())?))
}

/// EXCSATRD: the gateway's names, and then these bytes.
fn excsatrd(alloc: Global, levels: &[u8]) -> Result<Octets, NoMemory>
    requires { length levels.now ≤ 16777224 }
    ensures { IfOk result (λ object. object ≡ excsatrd_object levels.now) }
{
    let mut builder = Builder::new(alloc);
    builder.begin(EXCSATRD)?;
    put_object(&mut builder, SRVCLSNM, &CLASS_NAME)?;
    put_object(&mut builder, SRVNAM, &SERVER_NAME)?;
    put_object(&mut builder, SRVRLSLV, &RELEASE)?;
    builder.put(levels)?;
    builder.end()?;
    Ok(builder.finish())
}

/// MGRLVLRM: the level of SQLAM that the gateway needs.
fn mgrlvlrm(alloc: Global) -> Result<Octets, NoMemory>
    ensures { IfOk result (λ object. object ≡ mgrlvlrm_object) }
{
    let needed = ManagerLevel {
        code: SQLAM,
        level: LEVEL,
    };
    let mut builder = Builder::new(alloc);
    builder.begin(MGRLVLRM)?;
    put_object(&mut builder, SVRCOD, &ERROR.to_be_bytes())?;
    put_object(&mut builder, MGRLVLLS, &level_pair(needed))?;
    builder.end()?;
    Ok(builder.finish())
}

/// The answer is at most 64 bytes longer than the parameters.
pub fn answer_is_short()
    ensures { (params : List ℕ) → length (answer_object (excsat_answer params)) ≤ length params + 64 }
{
    found_is_within();
}

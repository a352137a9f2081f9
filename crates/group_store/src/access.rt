ghost use Rattle.std.specs.Prelude.{◌≡◌, ◌≤◌, length, option_copied, IfOk, OnOk};
ghost use Rattle.access_handshake.specs.Parameter.{parameter};
ghost use Rattle.unit_segments.specs.Command.{data_of};
ghost use Rattle.unit_segments.specs.Accepts.{is_data};
ghost use Rattle.ddm_codepoints.specs.CodePoint.{mgrlvlls, password};
ghost use Rattle.member_replies.specs.Reply.{dsss_of};
ghost use Rattle.group_store.specs.Access.{with_levels, are_read, excsat_answered, accsec_answered, user_in, asks_password, name_in};
ghost use Rattle.group_store.specs.Access.{accrdb_answered, typdef_in};

use crate::unit::StoreUnit;
use access_handshake::{
    AccsecAnswer, ExcsatAnswer, Stage, answer_accsec, answer_excsat, answer_is_short,
    find_parameter, has_secmec,
};
use byteorder::{BigEndian, ByteOrder};
use bytes::Bytes;
use ddm_codepoints::code_point::{
    ACCSEC, EXCSAT, EXCSATRD, MGRLVLLS, PASSWORD, SECMEC, TYPDEFNAM, USRID,
};
use ddm_codepoints::value::USER_AND_PASSWORD;
use ddm_codepoints::{TypDef, trimmed, typdef_of};
use ddm_objects::{Builder, find};
use dss_frame::DssList;
use link_ends::{NoMemory, Octets};
use member_replies::{accrdbrm, message, reply_data, valnsprm};
use reply_texts::{cmdnsp, decode};
use std::alloc::Global;
use unit_segments::{Command, data_of};

/// How many bytes a chain of commands has at most.
const MOST_CHAIN_BYTES: usize = 16_777_216;

// ---- EXCSAT

/// EXCSAT is answered with the levels that are granted, and nothing else: DDM, volume 3, EXCSAT.
pub(crate) fn excsat(unit: &mut StoreUnit, command: &Command) -> Result<DssList, NoMemory>
    ensures said { IfOk result (λ replies. replies ≡ dsss_of command.now.corr (excsat_answered unit.old (data_of command.now.body)).said) }
    ensures unit { OnOk result (unit.new ≡ (excsat_answered unit.old (data_of command.now.body)).unit) }
{
    let alloc = unit.alloc;
    let params = data_of(command.body.as_slice());
    if !are_read(params) {
        return message(alloc, command.corr, cmdnsp(alloc, EXCSAT)?);
    }
    match answer_excsat(alloc, params)? {
        ExcsatAnswer::Granted(object) => {
            answer_is_short();
            let levels = with_levels(alloc, object.as_slice())?;
            *unit = StoreUnit::at(alloc, Stage::Attached);
            reply_data(alloc, command.corr, levels)
        }
        ExcsatAnswer::TooLow(object) => message(alloc, command.corr, object),
    }
}

/// Whether these are parameters of a command that a chain has room for.
fn are_read(params: &[u8]) -> bool
    ensures { result ≡ are_read params.now }
{
    find(params, MGRLVLLS).is_ok() && params.len() <= MOST_CHAIN_BYTES
}

/// EXCSATRD with the levels of this EXCSATRD alone.
fn with_levels(alloc: Global, object: &[u8]) -> Result<Octets, NoMemory>
    requires { length object.now ≤ 16777300 }
    ensures { IfOk result (λ levels. levels ≡ with_levels (parameter (data_of object.now) mgrlvlls)) }
{
    let mut builder = Builder::new(alloc);
    builder.begin(EXCSATRD)?;
    if let Some(levels) = find_parameter(data_of(object), MGRLVLLS) {
        builder.begin(MGRLVLLS)?;
        builder.put(levels)?;
        builder.end()?;
    }
    builder.end()?;
    Ok(builder.finish())
}

// ---- ACCSEC

/// ACCSEC is answered as a gateway answers it: DDM, volume 3, ACCSEC.
pub(crate) fn accsec(unit: &mut StoreUnit, command: &Command) -> Result<DssList, NoMemory>
    ensures said { IfOk result (λ replies. replies ≡ dsss_of command.now.corr (accsec_answered unit.old (data_of command.now.body)).said) }
    ensures unit { OnOk result (unit.new ≡ (accsec_answered unit.old (data_of command.now.body)).unit) }
{
    let alloc = unit.alloc;
    let params = data_of(command.body.as_slice());
    if !has_secmec(params) {
        return message(alloc, command.corr, cmdnsp(alloc, ACCSEC)?);
    }
    match answer_accsec(alloc, params)? {
        AccsecAnswer::Chosen { object, .. } => {
            *unit = StoreUnit::at(alloc, Stage::Chosen);
            reply_data(alloc, command.corr, object)
        }
        AccsecAnswer::Offer(object) => reply_data(alloc, command.corr, object),
    }
}

// ---- SECCHK

/// The user's name that SECCHK gives, in EBCDIC and without spaces at its end. DDM, volume 3, USRID.
pub(crate) fn name_in(params: &[u8]) -> Option<&[u8]>
    ensures { option_copied result ≡ name_in params.now }
{
    match find_parameter(params, USRID) {
        Some(name) => Some(trimmed(name)),
        None => None,
    }
}

/// The user's name that SECCHK gives, in ASCII.
pub(crate) fn user_in(alloc: Global, params: &[u8]) -> Result<Bytes, NoMemory>
    ensures { IfOk result (λ user. user ≡ user_in params.now) }
{
    let name = name_in(params).unwrap_or(&[]);
    let mut ascii = Vec::from_slice(alloc, name)?;
    decode(&mut ascii, TypDef::Sql370);
    Ok(Bytes::copy_from_slice(alloc, ascii.as_slice())?)
}

/// Whether SECCHK itself asks for a password. DDM, volume 3, SECMEC.
pub(crate) fn asks_password(params: &[u8]) -> bool
    ensures { result ≡ asks_password params.now }
{
    match find_parameter(params, SECMEC) {
        Some(bytes) => bytes.len() >= 2 && BigEndian::read_u16(bytes) == USER_AND_PASSWORD,
        None => false,
    }
}

/// Whether SECCHK gives this password. DDM, volume 3, PASSWORD.
pub(crate) fn has_password(params: &[u8], known: &[u8]) -> bool
    ensures { result ≡ is_data known.now (parameter params.now password) }
{
    match find_parameter(params, PASSWORD) {
        Some(given) => given == known,
        None => false,
    }
}

// ---- ACCRDB

/// ACCRDB with a known TYPDEFNAM gives access: DDM, volume 3, ACCRDB.
pub(crate) fn accrdb(unit: &mut StoreUnit, command: &Command) -> Result<DssList, NoMemory>
    ensures said { IfOk result (λ replies. replies ≡ dsss_of command.now.corr (accrdb_answered unit.old (data_of command.now.body)).said) }
    ensures unit { OnOk result (unit.new ≡ (accrdb_answered unit.old (data_of command.now.body)).unit) }
{
    let alloc = unit.alloc;
    match typdef_in(data_of(command.body.as_slice())) {
        Some(typdef) => {
            unit.access(typdef);
            message(alloc, command.corr, accrdbrm(alloc)?)
        }
        None => message(alloc, command.corr, valnsprm(alloc)?),
    }
}

/// The type definition that is named, if it is known.
fn typdef_in(params: &[u8]) -> Option<TypDef>
    ensures { result ≡ typdef_in params.now }
{
    typdef_of(find_parameter(params, TYPDEFNAM)?)
}

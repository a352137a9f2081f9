ghost use Rattle.std.specs.Prelude.{◌≡◌, ◌==◌, ◌<◌, ◌∷◌, [], find, length, option_copied, option_map, IfOk, IfSome, IfNone};
ghost use Rattle.ddm_codepoints.specs.CodePoint.{secchkrm, sqlam};
ghost use Rattle.access_handshake.specs.Parameter.{parameter};
ghost use Rattle.access_handshake.specs.Managers.{managers_of};
ghost use Rattle.unit_segments.specs.Command.{data_of};
ghost use Rattle.unit_segments.specs.Strip.{is_object_of, replies_to};
ghost use Rattle.unit_segments.specs.Accepts.{accepts, gives_level, gives_mechanism, gives_admission, gives_access, gives_registers};
ghost use Rattle.unit_segments.specs.Accepts.{is_good_card, is_success, has_level, is_data, has_accrdbrm, are_readable};
ghost use Rattle.requester_core.specs.Judging.{only_of, is_readable, told_typdef};

use access_handshake::read_accepted;
use byteorder::{BigEndian, ByteOrder};
use ddm_codepoints::TypDef;
use ddm_codepoints::code_point::{
    ACCRDB, ACCRDBRM, ACCSEC, ACCSECRD, EXCSAT, EXCSATRD, MGRLVLLS, SECCHK, SECCHKCD, SECCHKRM,
    SECMEC, SQLAM, SQLCARD,
};
use ddm_objects::find;
use dss_frame::Dss;
use link_ends::NoMemory;
use reply_texts::{Card, read_sqlcard};
use std::alloc::Global;
use unit_segments::{code_of, data_of};

/// The level of SQLAM that the gateway needs.
const LEVEL: u16 = 7;

/// SECCHKCD where the user may go on.
const ADMITTED: u8 = 0;

/// Whether the replies to the command with this number and this code point give access, where the session's mechanism is this
/// one and its server's data are in this type definition.
pub(crate) fn accepts(
    alloc: Global,
    typdef: TypDef,
    mechanism: u16,
    code: u16,
    number: u16,
    replies: &[Dss],
) -> Result<bool, NoMemory>
    ensures { IfOk result (λ gives. gives ≡ accepts typdef mechanism code (replies_to number replies.now)) }
{
    match code {
        EXCSAT => Ok(gives_level(number, replies)),
        ACCSEC => Ok(gives_mechanism(mechanism, number, replies)),
        SECCHK => Ok(gives_admission(number, replies)),
        ACCRDB => gives_access(alloc, number, replies),
        _ => Ok(gives_registers(typdef, number, replies)),
    }
}

/// The first of these replies that has this number, and those behind it.
fn next(number: u16, replies: &[Dss]) -> Option<(&Dss, &[Dss])>
    ensures none { IfNone result (replies_to number replies.now ≡ []) }
    ensures some { IfSome result (λ found. replies_to number replies.now ≡ found.0.now ∷ replies_to number found.1.now) }
    ensures less { IfSome result (λ found. length found.1.now < length replies.now) }
{
    let mut left = replies;
    while let Some((reply, rest)) = left.split_first() {
        if reply.corr == number {
            return Some((reply, rest));
        }
        left = rest;
    }
    None
}

/// The reply that has this number, where there is just one.
fn only(number: u16, replies: &[Dss]) -> Option<&Dss>
    ensures { option_copied result ≡ only_of (replies_to number replies.now) }
{
    let (reply, rest) = next(number, replies)?;
    match next(number, rest) {
        Some(_) => None,
        None => Some(reply),
    }
}

/// Whether the only reply is EXCSATRD with SQLAM at level 7 (DDM, volume 3, EXCSATRD).
fn gives_level(number: u16, replies: &[Dss]) -> bool
    ensures { result ≡ gives_level (replies_to number replies.now) }
{
    match only(number, replies) {
        Some(reply) => is_object_of(EXCSATRD, reply) && has_level(parameter(reply, MGRLVLLS)),
        None => false,
    }
}

/// Whether these levels of managers have SQLAM at level 7.
fn has_level(levels: Option<&[u8]>) -> bool
    ensures { result ≡ has_level (option_copied levels.entry) }
{
    match levels {
        Some(levels) => level_of_sqlam(levels) == Some(LEVEL),
        None => false,
    }
}

/// The level of SQLAM where it is named first.
fn level_of_sqlam(levels: &[u8]) -> Option<u16>
    ensures { result ≡ option_map (λ manager. manager.level) (find (λ manager. manager.code == sqlam) (managers_of levels.now)) }
{
    let mut left = levels;
    while left.len() >= 4 {
        let (manager, rest) = left.split_at(4);
        if BigEndian::read_u16(manager) == SQLAM {
            return Some(BigEndian::read_u16(&manager[2..]));
        }
        left = rest;
    }
    None
}

/// Whether the only reply is ACCSECRD with just this mechanism (DDM, volume 3, ACCSECRD).
fn gives_mechanism(mechanism: u16, number: u16, replies: &[Dss]) -> bool
    ensures { result ≡ gives_mechanism mechanism (replies_to number replies.now) }
{
    match only(number, replies) {
        Some(reply) => is_object_of(ACCSECRD, reply)
            && is_data(&mechanism.to_be_bytes(), parameter(reply, SECMEC)),
        None => false,
    }
}

/// Whether the first SECCHKRM has SECCHKCD 0 (DDM, volume 3, SECCHKRM).
fn gives_admission(number: u16, replies: &[Dss]) -> bool
    ensures { result ≡ gives_admission (replies_to number replies.now) }
{
    let mut left = replies;
    while let Some((reply, rest)) = next(number, left) {
        if is_object_of(SECCHKRM, reply) {
            return is_data(&[ADMITTED], parameter(reply, SECCHKCD));
        }
        left = rest;
    }
    false
}

/// Whether the first SECCHKRM among these replies has SECCHKCD 0.
pub(crate) fn is_admitted(replies: &[Dss]) -> bool
    ensures { result ≡ gives_admission replies.now }
{
    let mut left = replies;
    while let Some((reply, rest)) = left.split_first() {
        if is_object_of(SECCHKRM, reply) {
            return is_data(&[ADMITTED], parameter(reply, SECCHKCD));
        }
        left = rest;
    }
    false
}

/// Whether there is an ACCRDBRM among these replies.
pub(crate) fn has_accrdbrm(replies: &[Dss]) -> bool
    ensures { result ≡ has_accrdbrm replies.now }
{
    replies.iter().any(|reply| is_object_of(ACCRDBRM, reply))
}

/// Whether there is an ACCRDBRM, and each can be read (DDM, volume 3, ACCRDBRM).
fn gives_access(alloc: Global, number: u16, replies: &[Dss]) -> Result<bool, NoMemory>
    ensures { IfOk result (λ gives. gives ≡ gives_access (replies_to number replies.now)) }
{
    let mut is_there = false;
    let mut left = replies;
    while let Some((reply, rest)) = next(number, left) {
        if !is_readable(alloc, reply)? {
            return Ok(false);
        }
        is_there |= is_object_of(ACCRDBRM, reply);
        left = rest;
    }
    Ok(is_there)
}

/// Whether the only reply is a SQLCARD that tells no error (DRDA, volume 3, EXCSQLSET, SQLCARD).
fn gives_registers(typdef: TypDef, number: u16, replies: &[Dss]) -> bool
    ensures { result ≡ gives_registers typdef (replies_to number replies.now) }
{
    match only(number, replies) {
        Some(reply) => is_good_card(typdef, reply),
        None => false,
    }
}

/// Whether it is a SQLCARD that can be read, and is null or has a SQLCODE that isn't negative.
pub(crate) fn is_good_card(typdef: TypDef, reply: &Dss) -> bool
    ensures { result ≡ is_good_card typdef reply.now }
{
    is_object_of(SQLCARD, reply) && is_success(read_sqlcard(data_of(reply.body.as_slice()), typdef))
}

/// Whether a card tells no error.
fn is_success(card: Option<Card>) -> bool
    ensures { result ≡ is_success card }
{
    match card {
        None => false,
        Some(Card::Null) => true,
        Some(Card::Full(sqlca)) => sqlca.code >= 0,
    }
}

/// Whether each ACCRDBRM among these replies can be read.
pub(crate) fn are_readable(alloc: Global, replies: &[Dss]) -> Result<bool, NoMemory>
    ensures { IfOk result (λ all. all ≡ are_readable replies.now) }
{
    let mut left = replies;
    while let Some((reply, rest)) = left.split_first() {
        if !is_readable(alloc, reply)? {
            return Ok(false);
        }
        left = rest;
    }
    Ok(true)
}

/// Whether a reply says what it has to, where it is ACCRDBRM.
fn is_readable(alloc: Global, reply: &Dss) -> Result<bool, NoMemory>
    ensures { IfOk result (λ readable. readable ≡ is_readable reply.now) }
{
    if !is_object_of(ACCRDBRM, reply) {
        return Ok(true);
    }
    Ok(read_accepted(alloc, data_of(reply.body.as_slice()))?.is_some())
}

/// The type definition that the first ACCRDBRM among these replies tells, or else this one.
pub(crate) fn told_typdef(
    alloc: Global,
    typdef: TypDef,
    replies: &[Dss],
) -> Result<TypDef, NoMemory>
    ensures { IfOk result (λ told. told ≡ told_typdef typdef replies.now) }
{
    let mut left = replies;
    while let Some((reply, rest)) = left.split_first() {
        if is_object_of(ACCRDBRM, reply) {
            return match read_accepted(alloc, data_of(reply.body.as_slice()))? {
                Some(accepted) => Ok(accepted.typdef),
                None => Ok(typdef),
            };
        }
        left = rest;
    }
    Ok(typdef)
}

/// Whether the body of a reply is an object with this code point.
pub(crate) fn is_object_of(code: u16, reply: &Dss) -> bool
    ensures { result ≡ is_object_of code reply.now }
{
    code_of(reply.body.as_slice()) == code
}

/// The data of the first parameter of a reply with this code point, where the reply's data are parameters.
#[tactic(auto, unfolding(access_handshake::specs::Parameter::parameter))]
fn parameter(reply: &Dss, code: u16) -> Option<&[u8]>
    ensures { option_copied result ≡ parameter (data_of reply.now.body) code }
{
    match find(data_of(reply.body.as_slice()), code) {
        Ok(Some(object)) => Some(object.bytes),
        _ => None,
    }
}

/// Whether these are the data that were found.
fn is_data(value: &[u8], found: Option<&[u8]>) -> bool
    ensures { result ≡ is_data value.now (option_copied found.entry) }
{
    match found {
        Some(bytes) => bytes == value,
        None => false,
    }
}

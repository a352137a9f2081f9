//! The objects that the small member says, and its replies.

ghost use Rattle.std.specs.Prelude.{◌≡◌, ◌≤◌, ◌++◌, true, [], ◌∷◌, length, map, IfOk, OnOk};
ghost use Rattle.ddm_codepoints.specs.declared.typdef.TypDef.TheVariants.{Sql370};
ghost use Rattle.reply_texts.specs.Closing.{last};
ghost use Rattle.reply_texts.specs.Text.{codes_in};
ghost use Rattle.ddm_objects.specs.Objects.{canonical_object};
ghost use Rattle.reply_texts.specs.Reply.{severity};
ghost use Rattle.member_statements.specs.Register.{IsRegister};
ghost use Rattle.member_replies.specs.Reply.{dsss_of, dss_of, message, reply_data, card_said};
ghost use Rattle.member_replies.specs.Reply.{secchkrm_object, accrdbrm_object, valnsprm_object, opnqryrm_object, qrydsc_object, qrydta_object};
ghost use Rattle.member_replies.specs.Reply.{endqryrm_object, qrynoprm_object, ended_object, set_object};

use crate::sql_outcome::SqlOutcome;
use byteorder::{BigEndian, ByteOrder};
use ddm_codepoints::TypDef;
use ddm_codepoints::code_point::{
    ACCRDBRM, CODPNT, ENDQRYRM, ENDUOWRM, OPNQRYRM, QRYDTA, QRYNOPRM, RLSCONV, SECCHKCD, SECCHKRM,
    SQLSTT, SVRCOD, TYPDEFNAM, UOWDSP, VALNSPRM,
};
use ddm_codepoints::value::{ERROR, INFO, RELEASE, WARNING};
use ddm_objects::Builder;
use dss_frame::{Dss, DssList, Kind};
use link_ends::{NoMemory, Octets, Sequence};
use member_statements::{Register, write_set};
use reply_texts::{encode, enduow, write_sqlcard};
use std::alloc::Global;

// ---- replies to a command with a number

/// One reply message.
pub fn message(alloc: Global, corr: u16, object: Octets) -> Result<DssList, NoMemory>
    ensures { IfOk result (λ replies. replies ≡ dsss_of corr (message object ∷ [])) }
{
    let mut replies = Sequence::new(alloc);
    put_message(&mut replies, corr, object)?;
    Ok(replies)
}

/// One piece of reply data.
pub fn reply_data(alloc: Global, corr: u16, object: Octets) -> Result<DssList, NoMemory>
    ensures { IfOk result (λ replies. replies ≡ dsss_of corr (reply_data object ∷ [])) }
{
    let mut replies = Sequence::new(alloc);
    put_data(&mut replies, corr, object)?;
    Ok(replies)
}

/// One SQLCARD.
pub fn card(alloc: Global, corr: u16, outcome: SqlOutcome) -> Result<DssList, NoMemory>
    ensures { IfOk result (λ replies. replies ≡ dsss_of corr (card_said outcome ∷ [])) }
{
    reply_data(alloc, corr, sqlcard(alloc, outcome)?)
}

/// Appends a reply message.
pub fn put_message(replies: &mut DssList, corr: u16, object: Octets) -> Result<(), NoMemory>
    ensures { OnOk result (replies.new ≡ replies.old ++ dss_of corr (message object) ∷ []) }
{
    replies.push(dss(Kind::Reply, corr, object))
}

/// Appends a piece of reply data.
pub fn put_data(replies: &mut DssList, corr: u16, object: Octets) -> Result<(), NoMemory>
    ensures { OnOk result (replies.new ≡ replies.old ++ dss_of corr (reply_data object) ∷ []) }
{
    replies.push(dss(Kind::Object, corr, object))
}

/// A reply with nothing behind it.
fn dss(kind: Kind, corr: u16, body: Octets) -> Dss
    ensures { result ≡ last kind corr body }
{
    Dss {
        kind,
        chained: false,
        same: false,
        go_on: false,
        corr,
        body,
    }
}

/// The SQLCARD with this outcome.
pub fn sqlcard(alloc: Global, outcome: SqlOutcome) -> Result<Octets, NoMemory>
    ensures { IfOk result (λ object. reply_data object ≡ card_said outcome) }
{
    write_sqlcard(alloc, &outcome.card(), TypDef::Sql370)
}

// ---- access

/// SECCHKRM with this severity and this SECCHKCD. DDM, volume 3, SECCHKRM.
pub fn secchkrm(alloc: Global, severity: u16, code: u8) -> Result<Octets, NoMemory>
    ensures { IfOk result (λ object. object ≡ secchkrm_object severity code) }
{
    Octets::of(alloc, &secchkrm_bytes(severity, code))
}

fn secchkrm_bytes(severity: u16, code: u8) -> [u8; 15]
    ensures { result ≡ secchkrm_object severity code }
{
    let mut object = [code; 15];
    let fields = [15, SECCHKRM, 6, SVRCOD, severity, 5, SECCHKCD];
    BigEndian::write_u16_into(&fields, &mut object[..14]);
    object
}

/// ACCRDBRM: PRDID is GRP01010, TYPDEFNAM is QTDSQL370, and CCSIDSBC is 37.
const ACCRDBRM_BYTES: [u8; 45] = [
    0x00, 0x2D, 0x22, 0x01, 0x00, 0x06, 0x11, 0x49, 0x00, 0x00, 0x00, 0x0C, 0x11, 0x2E, 0xC7, 0xD9,
    0xD7, 0xF0, 0xF1, 0xF0, 0xF1, 0xF0, 0x00, 0x0D, 0x00, 0x2F, 0xD8, 0xE3, 0xC4, 0xE2, 0xD8, 0xD3,
    0xF3, 0xF7, 0xF0, 0x00, 0x0A, 0x00, 0x35, 0x00, 0x06, 0x11, 0x9C, 0x00, 0x25,
];

/// ACCRDBRM of the small member. DDM, volume 3, ACCRDBRM.
#[tactic(auto, unfolding(crate::specs::Reply::accrdbrm_object, ddm_codepoints::specs::Character::ebcdic_of))]
pub fn accrdbrm(alloc: Global) -> Result<Octets, NoMemory>
    ensures { IfOk result (λ object. object ≡ accrdbrm_object) }
{
    Octets::of(alloc, &ACCRDBRM_BYTES)
}

/// VALNSPRM: TYPDEFNAM isn't known. DDM, volume 3, VALNSPRM.
pub fn valnsprm(alloc: Global) -> Result<Octets, NoMemory>
    ensures { IfOk result (λ object. object ≡ valnsprm_object) }
{
    Octets::of(alloc, &valnsprm_bytes())
}

#[tactic(auto, unfolding(crate::specs::Reply::valnsprm_object))]
fn valnsprm_bytes() -> [u8; 16]
    ensures { result ≡ valnsprm_object }
{
    let mut object = [0; 16];
    let fields = [16, VALNSPRM, 6, SVRCOD, ERROR, 6, CODPNT, TYPDEFNAM];
    BigEndian::write_u16_into(&fields, &mut object);
    object
}

// ---- cursors

/// OPNQRYRM. DDM, volume 3, OPNQRYRM.
#[tactic(auto, unfolding(crate::specs::Reply::opnqryrm_object))]
pub fn opnqryrm(alloc: Global) -> Result<Octets, NoMemory>
    ensures { IfOk result (λ object. object ≡ opnqryrm_object) }
{
    Octets::of(alloc, &severity_alone(OPNQRYRM, INFO))
}

/// ENDQRYRM. DDM, volume 3, ENDQRYRM.
#[tactic(auto, unfolding(crate::specs::Reply::endqryrm_object))]
pub fn endqryrm(alloc: Global) -> Result<Octets, NoMemory>
    ensures { IfOk result (λ object. object ≡ endqryrm_object) }
{
    Octets::of(alloc, &severity_alone(ENDQRYRM, WARNING))
}

/// QRYNOPRM. DDM, volume 3, QRYNOPRM.
#[tactic(auto, unfolding(crate::specs::Reply::qrynoprm_object))]
pub fn qrynoprm(alloc: Global) -> Result<Octets, NoMemory>
    ensures { IfOk result (λ object. object ≡ qrynoprm_object) }
{
    Octets::of(alloc, &severity_alone(QRYNOPRM, WARNING))
}

/// A reply message with its severity alone.
fn severity_alone(code: u16, severe: u16) -> [u8; 10]
    ensures { result ≡ canonical_object code (severity severe) }
{
    let mut object = [0; 10];
    BigEndian::write_u16_into(&[10, code, 6, SVRCOD, severe], &mut object);
    object
}

/// QRYDSC: FD:OCA's description of a row.
const QRYDSC_BYTES: [u8; 22] = [
    0x00, 0x16, 0x24, 0x1A, 0x09, 0x76, 0xD0, 0x02, 0x00, 0x04, 0x3F, 0x00, 0xC8, 0x09, 0x71, 0xE0,
    0x54, 0x00, 0x01, 0xD0, 0x00, 0x01,
];

/// QRYDSC of a key and a text. DDM, volume 3, QRYDSC.
#[tactic(auto, unfolding(crate::specs::Reply::qrydsc_object))]
pub fn qrydsc(alloc: Global) -> Result<Octets, NoMemory>
    ensures { IfOk result (λ object. object ≡ qrydsc_object) }
{
    Octets::of(alloc, &QRYDSC_BYTES)
}

/// QRYDTA with one row. DDM, volume 3, QRYDTA.
pub fn qrydta(alloc: Global, key: u32, text: &[u8]) -> Result<Octets, NoMemory>
    requires { length text.now ≤ 32000 }
    ensures { IfOk result (λ object. object ≡ qrydta_object (key, text.now)) }
{
    let mut ebcdic = Vec::from_slice(alloc, text)?;
    encode(&mut ebcdic, TypDef::Sql370);
    let mut builder = Builder::new(alloc);
    builder.begin(QRYDTA)?;
    let [a, b, c, d] = key.to_be_bytes();
    builder.put(&[0xFF, 0x00, a, b, c, d, 0x00])?;
    builder.put(&(text.len() as u16).to_be_bytes())?;
    builder.put(&ebcdic)?;
    builder.end()?;
    Ok(builder.finish())
}

// ---- the end of a unit of work

/// ENDUOWRM with this UOWDSP, and RLSCONV where release is granted. DDM, volume 3, ENDUOWRM.
pub fn enduowrm(alloc: Global, disposition: u8, granted: bool) -> Result<Octets, NoMemory>
    ensures { IfOk result (λ object. object ≡ ended_object disposition granted) }
{
    if !granted {
        return enduow(alloc, disposition);
    }
    Octets::of(alloc, &granted_bytes(disposition))
}

fn granted_bytes(disposition: u8) -> [u8; 20]
    ensures { result ≡ ended_object disposition true }
{
    let mut object = [RELEASE; 20];
    let fields = [20, ENDUOWRM, 6, SVRCOD, WARNING, 5, UOWDSP];
    BigEndian::write_u16_into(&fields, &mut object[..14]);
    object[14] = disposition;
    BigEndian::write_u16_into(&[5, RLSCONV], &mut object[15..19]);
    object
}

/// The SET statement of a register as a SQLSTT, in characters of this type definition. DRDA, volume 3, SQLSTT.
pub fn sqlstt(
    alloc: Global,
    register: Register,
    value: &[u8],
    typdef: TypDef,
) -> Result<Octets, NoMemory>
    requires register { IsRegister register }
    requires size { length value.now ≤ 32000 }
    ensures { IfOk result (λ object. object ≡ set_object typdef (register, value.now)) }
{
    let text = write_set(alloc, register, value)?;
    let mut coded = Vec::from_slice(alloc, text.as_slice())?;
    encode(&mut coded, typdef);
    let mut builder = Builder::new(alloc);
    builder.begin(SQLSTT)?;
    builder.put(&[0x00])?;
    builder.put(&(text.len() as u32).to_be_bytes())?;
    builder.put(&coded)?;
    builder.put(&[0xFF])?;
    builder.end()?;
    Ok(builder.finish())
}

ghost use Rattle.std.specs.Prelude.{◌≡◌, option_map, option_copied, codes, IfOk, IfSome};
ghost use Rattle.reply_texts.specs.Text.{codes_in};
ghost use Rattle.group_store.specs.Statement.{is_object_with, first_data, text_of, statement_in, first_statement};
ghost use Rattle.group_store.specs.Statement.{is_hold, is_held, last_two, section_of, IsSound};

use access_handshake::find_parameter;
use byteorder::{BigEndian, ByteOrder};
use ddm_codepoints::TypDef;
use ddm_codepoints::code_point::{PKGNAMCSN, SQLATTR, SQLSTT};
use link_ends::{NoMemory, Octets};
use member_statements::{Statement, read_statement, read_statements_are_spelled};
use reply_texts::{are_characters_in, decode};
use std::alloc::Global;
use unit_segments::{Command, code_of, data_of, sql_text};

/// WITH HOLD in ASCII.
const HOLD: [u8; 9] = *b"WITH HOLD";

/// WITH HOLD in EBCDIC.
const HOLD_EBCDIC: [u8; 9] = [0xE6, 0xC9, 0xE3, 0xC8, 0x40, 0xC8, 0xD6, 0xD3, 0xC4];

// ---- objects of a command

/// Whether the body of an object DSS is exactly one object, with this code point.
pub(crate) fn is_object_with(body: &Octets, code: u16) -> bool
    ensures { result ≡ is_object_with code body.now }
{
    code_of(body.as_slice()) == code
}

/// The data of the first such object of a command.
fn first_data(command: &Command, code: u16) -> Option<&[u8]>
    ensures { option_copied result ≡ first_data code command.now.objects }
{
    let body = command
        .objects
        .as_slice()
        .iter()
        .find(|body| is_object_with(body, code))?;
    Some(data_of(body.as_slice()))
}

// ---- texts

/// The text that the data of a SQLSTT are, in ASCII: None where they are none in this type definition.
fn text_of(alloc: Global, typdef: TypDef, bytes: &[u8]) -> Result<Option<Vec<u8>>, NoMemory>
    ensures { IfOk result (λ text. option_map (λ ascii. ascii.items) text ≡ text_of typdef bytes.now) }
{
    let Some(text) = sql_text(bytes) else {
        return Ok(None);
    };
    if !are_characters_in(text, typdef) {
        return Ok(None);
    }
    let mut ascii = Vec::from_slice(alloc, text)?;
    decode(&mut ascii, typdef);
    Ok(Some(ascii))
}

/// The statement that the data of a SQLSTT are, if they are one.
pub(crate) fn statement_in(
    alloc: Global,
    typdef: TypDef,
    bytes: &[u8],
) -> Result<Option<Statement>, NoMemory>
    ensures statement { IfOk result (λ statement. statement ≡ statement_in typdef bytes.now) }
    ensures sound { IfOk result (λ statement. IfSome statement IsSound) }
{
    read_statements_are_spelled();
    match text_of(alloc, typdef, bytes)? {
        Some(text) => read_statement(alloc, text.as_slice()),
        None => Ok(None),
    }
}

/// The statement of a command that has one: its first SQLSTT. DRDA, volume 3, EXCSQLIMM, PRPSQLSTT.
pub(crate) fn first_statement(
    alloc: Global,
    typdef: TypDef,
    command: &Command,
) -> Result<Option<Statement>, NoMemory>
    ensures statement { IfOk result (λ statement. statement ≡ first_statement typdef command.now) }
    ensures sound { IfOk result (λ statement. IfSome statement IsSound) }
{
    match first_data(command, SQLSTT) {
        Some(bytes) => statement_in(alloc, typdef, bytes),
        None => Ok(None),
    }
}

/// Whether one of the command's SQLATTRs is WITH HOLD. DRDA, volume 3, SQLATTR.
pub(crate) fn is_held(typdef: TypDef, command: &Command) -> bool
    ensures { result ≡ is_held typdef command.now }
{
    command.objects.as_slice().iter().any(|body| is_object_with(body, SQLATTR)
        && is_hold(typdef, data_of(body.as_slice())))
}

/// Whether the data of a SQLATTR are just WITH HOLD.
fn is_hold(typdef: TypDef, bytes: &[u8]) -> bool
    ensures { result ≡ is_hold typdef bytes.now }
{
    match sql_text(bytes) {
        Some(text) => text == hold_in(typdef),
        None => false,
    }
}

/// WITH HOLD in this type definition.
#[tactic(auto, unfolding(ddm_codepoints::specs::Character::ebcdic_of))]
fn hold_in(typdef: TypDef) -> &'static [u8]
    ensures { result.now ≡ codes_in typdef (codes "WITH HOLD") }
{
    match typdef {
        TypDef::Sql370 => &HOLD_EBCDIC,
        TypDef::SqlAsc | TypDef::SqlX86 => &HOLD,
    }
}

// ---- the section

/// The section of a command: the last two bytes of PKGNAMCSN, 0 where there are none. DRDA, volume 3, PKGNAMCSN.
pub(crate) fn section_of(command: &Command) -> u16
    ensures { result ≡ section_of command.now }
{
    match find_parameter(data_of(command.body.as_slice()), PKGNAMCSN) {
        Some(bytes) => last_two(bytes),
        None => 0,
    }
}

/// The number in the last two of some bytes.
fn last_two(bytes: &[u8]) -> u16
    ensures { result ≡ last_two (Some bytes.now) }
{
    if bytes.len() < 2 {
        return 0;
    }
    BigEndian::read_u16(&bytes[bytes.len() - 2..])
}

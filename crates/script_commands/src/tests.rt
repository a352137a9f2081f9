use super::*;
use ddm_codepoints::code_point::{EXCSQLIMM, EXCSQLSET, OPNQRY, RDBCMM, RDBRLLBCK};
use hex_lines::read_hex;
use link_ends::Octets;
use std::alloc::Global;
use std::test::Fail;
use unit_segments::Command;

/// EXCSQLIMM alone in its chain, with the statement that the tests use.
const IMMEDIATE: &str =
    "000AD05100010004200A002DD003000100272414000000001DC9D5E2C5D9E340C9D5E3D640E340E5C1D3E4C5E2404DF1\
         6B407DC17D5DFF";

/// OPNQRY of section 7, number 2, which others follow.
const OPEN: &str =
    "004ED04100020048200C00442113E2C1D4D7D3C5404040404040404040404040D5E4D3D3C9C440404040404040404040\
         4040E2C3D9C9D7E340404040404040404040404001010101010101010007";

/// PRPSQLSTT of section 7, number 3, the last of its chain.
const PREPARE: &str =
    "004ED05100030048200D00442113E2C1D4D7D3C5404040404040404040404040D5E4D3D3C9C440404040404040404040\
         4040E2C3D9C9D7E3404040404040404040404040010101010101010100070022D0030003001C24140000000012E2C5D3\
         C5C3E340D26B40E540C6D9D6D440E3FF";

/// PRPSQLSTT of section 65535 with a held cursor, number 1, which others follow.
const PREPARE_HELD: &str =
    "004ED05100010048200D00442113E2C1D4D7D3C5404040404040404040404040D5E4D3D3C9C440404040404040404040\
         4040E2C3D9C9D7E34040404040404040404040400101010101010101FFFF0019D0530001001324500000000009E6C9E3\
         C840C8D6D3C4FF0022D0430001001C24140000000012E2C5D3C5C3E340D26B40E540C6D9D6D440E3FF";

/// Both chains of user ALICE.
const START: &str =
    "0022D0410001001C1041001814041403000724070007240F000714400007147400050026D00100020020106D000611A2\
         000300162110E2C1D4D7D3C54040404040404040404040400039D04100010033106E000611A20003000911A0C1D3C9C3\
         C5000A11A1E2C5C3D9C5E300162110E2C1D4D7D3C54040404040404040404040400049D0010002004320010006210F24\
         07000C112EE2C3D9F0F1F0F1F0000D002FD8E3C4E2D8D3F3F7F000162110E2C1D4D7D3C5404040404040404040404040\
         000A00350006119C0025";

/// EXCSQLSET, number 2, with a statement of one character, which others follow.
const ONE_CHARACTER: &str = "000AD0510002000420140011D0430002000B24140000000001E2FF";

/// EXCSQLIMM with a long statement, up to its first characters.
const LONG_FRONT: &str = "000AD05100010004200AFFFFD00300018008241400007FFC0000007FF6C1C1C1";

const STATEMENT: &[u8] = b"INSERT INTO T VALUES (1, 'A')";

const SELECT: &[u8] = b"SELECT K, V FROM T";

/// Whether bytes are those that the digits spell.
fn are(alloc: Global, bytes: &[u8], digits: &str) -> Result<bool, Fail> {
    match read_hex(alloc, digits.as_bytes())? {
        Some(spelled) => Ok(bytes == spelled.as_slice()),
        None => Ok(false),
    }
}

/// Whether a command has these bytes.
fn writes(alloc: Global, command: &Command, followed: bool, digits: &str) -> Result<bool, Fail> {
    let bytes = write_command(alloc, command, followed)?;
    are(alloc, bytes.as_slice(), digits)
}

#[test]
fn a_statement_has_its_bytes(rt: HostRuntime) -> Result<(), Fail> {
    let alloc = rt.alloc();
    let command = statement_command(alloc, EXCSQLIMM, 1, STATEMENT)?;
    assert!(rt; writes(alloc, &command, false, IMMEDIATE)?);
    Ok(())
}

#[test]
fn a_set_statement_has_its_bytes(rt: HostRuntime) -> Result<(), Fail> {
    let alloc = rt.alloc();
    let command = statement_command(alloc, EXCSQLSET, 2, b"S")?;
    assert!(rt; writes(alloc, &command, true, ONE_CHARACTER)?);
    Ok(())
}

#[test]
fn a_statement_to_prepare_has_its_bytes(rt: HostRuntime) -> Result<(), Fail> {
    let alloc = rt.alloc();
    let command = prepare_command(alloc, 3, b"SAMPLE", 7, false, SELECT)?;
    assert!(rt; writes(alloc, &command, false, PREPARE)?);
    Ok(())
}

#[test]
fn a_held_cursor_is_asked_for(rt: HostRuntime) -> Result<(), Fail> {
    let alloc = rt.alloc();
    let command = prepare_command(alloc, 1, b"SAMPLE", 65535, true, SELECT)?;
    assert!(rt; writes(alloc, &command, true, PREPARE_HELD)?);
    Ok(())
}

#[test]
fn a_section_has_its_bytes(rt: HostRuntime) -> Result<(), Fail> {
    let alloc = rt.alloc();
    let command = section_command(alloc, OPNQRY, 2, b"SAMPLE", 7)?;
    assert!(rt; writes(alloc, &command, true, OPEN)?);
    Ok(())
}

#[test]
fn unit_ends_have_their_bytes(rt: HostRuntime) -> Result<(), Fail> {
    let alloc = rt.alloc();
    let commit = unit_end_command(alloc, RDBCMM, 5)?;
    assert!(rt; writes(alloc, &commit, false, "000AD00100050004200E")?);
    let roll_back = unit_end_command(alloc, RDBRLLBCK, 1)?;
    assert!(rt; writes(alloc, &roll_back, true, "000AD04100010004200F")?);
    Ok(())
}

#[test]
fn access_has_its_bytes(rt: HostRuntime) -> Result<(), Fail> {
    let alloc = rt.alloc();
    let bytes = start_chains(alloc, b"SAMPLE", b"ALICE", b"SECRET")?;
    assert!(rt; are(alloc, bytes.as_slice(), START)?);
    Ok(())
}

/// The bytes of EXCSQLIMM with a statement of 32,758 characters.
fn long_statement(alloc: Global) -> Result<Octets, Fail> {
    let mut text = Vec::new(alloc);
    text.resize(32_758, b'A')?;
    let command = statement_command(alloc, EXCSQLIMM, 1, text.as_slice())?;
    Ok(write_command(alloc, &command, false)?)
}

/// The DSS of a long statement has two segments, and its object an extended length.
#[test]
fn a_long_text_is_spelled_canonically(rt: HostRuntime) -> Result<(), Fail> {
    let alloc = rt.alloc();
    let bytes = long_statement(alloc)?;
    let front = bytes.as_slice().get(..32).unwrap_or(&[]);
    assert!(rt; are(alloc, front, LONG_FRONT)?);
    let rest = bytes.as_slice().get(32_777..).unwrap_or(&[]);
    assert!(rt; are(alloc, rest, "000DC1C1C1C1C1C1C1C1C1C1FF")?);
    Ok(())
}

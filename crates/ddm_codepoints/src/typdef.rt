ghost use Rattle.std.specs.Prelude.{◌≡◌};
ghost use Rattle.ddm_codepoints.specs.TypDef.{typdef_of, typdef_named};

use crate::character::trimmed;

/// How numbers and characters are represented: DDM, volume 3, TYPDEFNAM.
#[derive(Clone, Copy, Debug, PartialEq, Eq)]
pub enum TypDef {
    /// QTDSQL370: numbers with the high byte first, characters in EBCDIC.
    Sql370,
    /// QTDSQLASC: numbers with the high byte first, characters in ASCII.
    SqlAsc,
    /// QTDSQLX86: numbers with the low byte first, characters in ASCII.
    SqlX86,
}

/// QTDSQL370 in EBCDIC.
const QTDSQL370: [u8; 9] = [0xD8, 0xE3, 0xC4, 0xE2, 0xD8, 0xD3, 0xF3, 0xF7, 0xF0];

/// QTDSQLASC in EBCDIC.
const QTDSQLASC: [u8; 9] = [0xD8, 0xE3, 0xC4, 0xE2, 0xD8, 0xD3, 0xC1, 0xE2, 0xC3];

/// QTDSQLX86 in EBCDIC.
const QTDSQLX86: [u8; 9] = [0xD8, 0xE3, 0xC4, 0xE2, 0xD8, 0xD3, 0xE7, 0xF8, 0xF6];

/// The type definition with this name in EBCDIC, with spaces behind it or without: None exactly where it is none of
/// the three.
#[tactic(auto, unfolding(crate::specs::TypDef::typdef_of))]
pub fn typdef_of(name: &[u8]) -> Option<TypDef>
    ensures { result ≡ typdef_of name.now }
{
    typdef_named(trimmed(name))
}

/// The type definition with exactly this name.
fn typdef_named(name: &[u8]) -> Option<TypDef>
    ensures { result ≡ typdef_named name.now }
{
    if name == QTDSQL370.as_slice() {
        Some(TypDef::Sql370)
    } else if name == QTDSQLASC.as_slice() {
        Some(TypDef::SqlAsc)
    } else if name == QTDSQLX86.as_slice() {
        Some(TypDef::SqlX86)
    } else {
        None
    }
}

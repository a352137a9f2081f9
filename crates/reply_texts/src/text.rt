ghost use Rattle.std.specs.Prelude.{◌≡◌, map};
ghost use Rattle.std.specs.List.{list_all};
ghost use Rattle.reply_texts.specs.Text.{is_text, code_in, codes_in, is_character_in, ascii_in};

use ddm_codepoints::{SPACE, TypDef, ascii_of, ebcdic_of};

/// Whether each of these characters of ASCII has a code in EBCDIC.
pub(crate) fn is_text(ascii: &[u8]) -> bool
    ensures { result ≡ is_text ascii.now }
{
    ascii
        .iter()
        .all(|character| ebcdic_of(*character).is_some())
}

/// Puts a text as data of this type definition have it in its place.
pub fn encode(text: &mut [u8], typdef: TypDef)
    ensures { text.new ≡ codes_in typdef text.old }
{
    for byte in text.iter_mut() {
        *byte = code_in(*byte, typdef);
    }
}

/// Puts the text that bytes of data of this type definition are in their place, in ASCII.
pub fn decode(bytes: &mut [u8], typdef: TypDef)
    ensures { bytes.new ≡ map (ascii_in typdef) bytes.old }
{
    for byte in bytes.iter_mut() {
        *byte = ascii_in(*byte, typdef);
    }
}

fn code_in(character: u8, typdef: TypDef) -> u8
    ensures { result ≡ code_in typdef character }
{
    match typdef {
        TypDef::Sql370 => ebcdic_of(character).unwrap_or(SPACE),
        TypDef::SqlAsc | TypDef::SqlX86 => character,
    }
}

/// Whether each of these bytes of data is a character.
pub fn are_characters_in(bytes: &[u8], typdef: TypDef) -> bool
    ensures { result ≡ list_all (is_character_in typdef) bytes.now }
{
    bytes.iter().all(|byte| is_character_in(*byte, typdef))
}

fn is_character_in(byte: u8, typdef: TypDef) -> bool
    ensures { result ≡ is_character_in typdef byte }
{
    match typdef {
        TypDef::Sql370 => ascii_of(byte).is_some(),
        TypDef::SqlAsc | TypDef::SqlX86 => ebcdic_of(byte).is_some(),
    }
}

fn ascii_in(byte: u8, typdef: TypDef) -> u8
    ensures { result ≡ ascii_in typdef byte }
{
    match typdef {
        TypDef::Sql370 => ascii_of(byte).unwrap_or(b' '),
        TypDef::SqlAsc | TypDef::SqlX86 => byte,
    }
}

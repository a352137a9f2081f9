ghost use Rattle.std.specs.Prelude.{◌≡◌, IsTrue, IfOk};
ghost use Rattle.ddm_codepoints.specs.declared.typdef.TypDef.{TypDef};
ghost use Rattle.reply_texts.specs.declared.sqlcard.Card.TheVariants.{Null, Full};
ghost use Rattle.reply_texts.specs.Sqlcard.{number_in, number_bytes, full_of, card_of, has_text, sqlcard_object};

use crate::text::{are_characters_in, decode, encode, is_text};
use byteorder::{BigEndian, ByteOrder, LittleEndian};
use ddm_codepoints::TypDef;
use ddm_codepoints::code_point::SQLCARD;
use link_ends::{NoMemory, Octets};
use std::alloc::Global;

/// The null indicator of a group that is there.
const PRESENT: u8 = 0x00;

/// The null indicator of a group that is null.
const ABSENT: u8 = 0xFF;

/// The outcome of a statement.
#[derive(Clone, Copy, Debug, PartialEq, Eq)]
pub struct Sqlca {
    /// SQLCODE: negative for an error.
    pub code: i32,
    /// SQLSTATE, in ASCII.
    pub state: [u8; 5],
    /// The name of the procedure that found an error, in ASCII.
    pub proc: [u8; 8],
}

/// What a SQLCARD says.
#[derive(Clone, Copy, Debug, PartialEq, Eq)]
pub enum Card {
    /// Success.
    Null,
    /// What is said of a statement.
    Full(Sqlca),
}

impl Card {
    /// Whether the texts are of characters that have a code, so that the card can be written.
    pub fn has_text(&self) -> bool
        ensures { result ≡ has_text self.now }
    {
        match self {
            Card::Null => true,
            Card::Full(sqlca) => is_text(&sqlca.state) && is_text(&sqlca.proc),
        }
    }
}

/// The card that the data of a SQLCARD are, in the type definition of their sender. None exactly where the first byte
/// is neither 00 nor FF, fewer than 18 bytes stand from a 00 on, or a byte of its texts is no character.
pub fn read_sqlcard(bytes: &[u8], typdef: TypDef) -> Option<Card>
    ensures { result ≡ card_of typdef bytes.now }
{
    match bytes.split_first() {
        Some((&ABSENT, _)) => Some(Card::Null),
        Some((&PRESENT, rest)) => read_full(rest, typdef),
        _ => None,
    }
}

/// The card that follows the null indicator.
fn read_full(bytes: &[u8], typdef: TypDef) -> Option<Card>
    ensures { result ≡ full_of typdef bytes.now }
{
    let (code, texts) = bytes.split_first_chunk::<4>()?;
    let (state, texts) = texts.split_first_chunk::<5>()?;
    let (proc, _) = texts.split_first_chunk::<8>()?;
    if !are_characters_in(state, typdef) || !are_characters_in(proc, typdef) {
        return None;
    }
    let mut sqlca = Sqlca {
        code: number_in(code, typdef),
        state: *state,
        proc: *proc,
    };
    decode(&mut sqlca.state, typdef);
    decode(&mut sqlca.proc, typdef);
    Some(Card::Full(sqlca))
}

/// The whole SQLCARD object with this card, in the type definition of its receiver.
pub fn write_sqlcard(alloc: Global, card: &Card, typdef: TypDef) -> Result<Octets, NoMemory>
    requires { IsTrue (has_text card.now) }
    ensures { IfOk result (λ object. object ≡ sqlcard_object typdef card.now) }
{
    match card {
        Card::Null => Octets::of(alloc, &null_card()),
        Card::Full(sqlca) => Octets::of(alloc, &full_card(sqlca, typdef)),
    }
}

/// The SQLCARD of success.
#[tactic(auto, unfolding(crate::specs::Sqlcard::sqlcard_object))]
fn null_card() -> [u8; 5]
    ensures { (typdef : TypDef) → result ≡ sqlcard_object typdef Null }
{
    let mut object = [ABSENT; 5];
    BigEndian::write_u16_into(&[5, SQLCARD], &mut object[..4]);
    object
}

/// The SQLCARD with what is said of a statement; its two groups are null.
pub(crate) fn full_card(sqlca: &Sqlca, typdef: TypDef) -> [u8; 24]
    ensures { result ≡ sqlcard_object typdef (Full sqlca.now) }
{
    let code = sqlca.code;
    let mut object = [ABSENT; 24];
    BigEndian::write_u16_into(&[24, SQLCARD], &mut object[..4]);
    object[4] = PRESENT;
    object[5..9].copy_from_slice(&number_bytes(code, typdef));
    object[9..14].copy_from_slice(&sqlca.state);
    object[14..22].copy_from_slice(&sqlca.proc);
    encode(&mut object[9..22], typdef);
    object
}

/// A number in data of this type definition.
fn number_in(bytes: &[u8; 4], typdef: TypDef) -> i32
    ensures { result ≡ number_in typdef bytes.now }
{
    match typdef {
        TypDef::Sql370 | TypDef::SqlAsc => BigEndian::read_i32(bytes),
        TypDef::SqlX86 => LittleEndian::read_i32(bytes),
    }
}

/// A number as data of this type definition have it.
fn number_bytes(number: i32, typdef: TypDef) -> [u8; 4]
    ensures { result ≡ number_bytes typdef number }
{
    let mut bytes = [0; 4];
    match typdef {
        TypDef::Sql370 | TypDef::SqlAsc => BigEndian::write_i32(&mut bytes, number),
        TypDef::SqlX86 => LittleEndian::write_i32(&mut bytes, number),
    }
    bytes
}

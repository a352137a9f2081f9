ghost use Rattle.std.specs.Prelude.{◌≡◌, ◌≤◌, ◌==◌, IfOk, fold, position, length, option_map, IsTrue, codes, option_and_then};
ghost use Rattle.std.specs.Option.{option_copied};
ghost use Rattle.std.specs.List.{list_all};
ghost use Rattle.member_statements.specs.Statement.{is_digit, with_digit, number_of, is_key, is_inner, is_inner_text, quote};
ghost use Rattle.member_statements.specs.Reading.{after, ahead_of, between, place_of, comma, equals, insert_of, update_of, delete_of};
ghost use Rattle.member_statements.specs.Reading.{is_register_number, numbered_of, register_of, set_of, some_set, statement_of};

use crate::register::Register;
use crate::statement::{MOST_DIGITS, MOST_TEXT, Statement};
use ddm_codepoints::ebcdic_of;
use link_ends::{NoMemory, Octets};
use std::alloc::Global;

const QUOTE: u8 = b'\'';

/// The statement that a text spells, in ASCII, exactly in the forms of `Statement`: a key has one to nine digits, which may
/// begin with zeros; a text has at most 200 characters without the quote, each with a code in EBCDIC. `None` where it spells
/// none.
#[tactic(auto, unfolding(crate::specs::Reading::statement_of))]
pub fn read_statement(alloc: Global, text: &[u8]) -> Result<Option<Statement>, NoMemory>
    ensures { IfOk result (λ read. read ≡ statement_of text.now) }
{
    if let Some(rest) = after(b"INSERT INTO T VALUES (", text) {
        return read_insert(alloc, rest);
    }
    if let Some(rest) = after(b"UPDATE T SET V = '", text) {
        return read_update(alloc, rest);
    }
    if let Some(digits) = after(b"DELETE FROM T WHERE K = ", text) {
        return Ok(read_delete(digits));
    }
    if let Some(rest) = after(b"SET ", text) {
        return read_set(alloc, rest);
    }
    Ok(if text == b"SELECT K, V FROM T".as_slice() {
        Some(Statement::Select)
    } else {
        None
    })
}

#[tactic(auto, unfolding(crate::specs::Reading::insert_of))]
fn read_insert(alloc: Global, rest: &[u8]) -> Result<Option<Statement>, NoMemory>
    ensures { IfOk result (λ read. read ≡ insert_of rest.now) }
{
    let (digits, rest) = rest.split_at(place_of(b',', rest));
    let Some(text) = between(b", '", b"')", rest) else {
        return Ok(None);
    };
    if !is_key(digits) || !is_inner_text(text) {
        return Ok(None);
    }
    Ok(Some(Statement::Insert {
        key: number_of(digits),
        text: Octets::of(alloc, text)?,
    }))
}

#[tactic(auto, unfolding(crate::specs::Reading::update_of))]
fn read_update(alloc: Global, rest: &[u8]) -> Result<Option<Statement>, NoMemory>
    ensures { IfOk result (λ read. read ≡ update_of rest.now) }
{
    let (text, rest) = rest.split_at(place_of(QUOTE, rest));
    let Some(digits) = after(b"' WHERE K = ", rest) else {
        return Ok(None);
    };
    if !is_key(digits) || !is_inner_text(text) {
        return Ok(None);
    }
    Ok(Some(Statement::Update {
        key: number_of(digits),
        text: Octets::of(alloc, text)?,
    }))
}

#[tactic(auto, unfolding(crate::specs::Reading::delete_of))]
fn read_delete(digits: &[u8]) -> Option<Statement>
    ensures { result ≡ delete_of digits.now }
{
    if !is_key(digits) {
        return None;
    }
    Some(Statement::Delete {
        key: number_of(digits),
    })
}

#[tactic(auto, unfolding(crate::specs::Reading::set_of))]
fn read_set(alloc: Global, rest: &[u8]) -> Result<Option<Statement>, NoMemory>
    ensures { IfOk result (λ read. read ≡ set_of rest.now) }
{
    let (name, rest) = rest.split_at(place_of(b'=', rest));
    let Some(value) = between(b"= '", b"'", rest) else {
        return Ok(None);
    };
    let Some(register) = register_ahead(name) else {
        return Ok(None);
    };
    if !is_inner_text(value) {
        return Ok(None);
    }
    Ok(Some(Statement::Set {
        register,
        value: Octets::of(alloc, value)?,
    }))
}

/// The register whose name stands ahead of one space.
fn register_ahead(name: &[u8]) -> Option<Register>
    ensures { result ≡ option_and_then register_of (ahead_of (codes " ") name.now) }
{
    register_of(ahead_of(b" ", name)?)
}

fn register_of(name: &[u8]) -> Option<Register>
    ensures { result ≡ register_of name.now }
{
    if name == b"CURRENT SCHEMA".as_slice() {
        Some(Register::Schema)
    } else if name == b"CURRENT DEGREE".as_slice() {
        Some(Register::Degree)
    } else if name == b"CURRENT PATH".as_slice() {
        Some(Register::Path)
    } else {
        numbered_of(after(b"R", name)?)
    }
}

/// The register with this number, 1 to 99 without a zero in front.
fn numbered_of(digits: &[u8]) -> Option<Register>
    ensures { result ≡ numbered_of digits.now }
{
    match digits {
        [ones @ b'1'..=b'9'] => Some(Register::Numbered(ones - b'0')),
        [tens @ b'1'..=b'9', ones @ b'0'..=b'9'] => Some(Register::Numbered(
            (tens - b'0') * 10 + (ones - b'0'),
        )),
        _ => None,
    }
}

// ---- parts of a text

/// What stands between this front and this end.
fn between<'a>(front: &[u8], end: &[u8], bytes: &'a [u8]) -> Option<&'a [u8]>
    ensures { option_copied result ≡ between front.now end.now bytes.now }
{
    ahead_of(end, after(front, bytes)?)
}

/// What follows this front.
fn after<'a>(front: &[u8], bytes: &'a [u8]) -> Option<&'a [u8]>
    ensures { option_copied result ≡ after front.now bytes.now }
{
    bytes.strip_prefix(front)
}

/// What stands ahead of this end.
fn ahead_of<'a>(end: &[u8], bytes: &'a [u8]) -> Option<&'a [u8]>
    ensures { option_copied result ≡ ahead_of end.now bytes.now }
{
    bytes.strip_suffix(end)
}

/// The place of the first such byte, or how many bytes there are.
fn place_of(mark: u8, bytes: &[u8]) -> usize
    ensures place { result ≡ place_of mark bytes.now }
    ensures within { result ≤ length bytes.now }
{
    first_place(mark, bytes).unwrap_or(bytes.len())
}

/// The place of the first such byte.
fn first_place(mark: u8, bytes: &[u8]) -> Option<usize>
    ensures { result ≡ position (λ byte. byte == mark) bytes.now }
{
    bytes.iter().position(|byte| *byte == mark)
}

/// Whether these are one to nine digits.
fn is_key(digits: &[u8]) -> bool
    ensures { result ≡ is_key digits.now }
{
    1 <= digits.len() && digits.len() <= MOST_DIGITS && are_digits(digits)
}

fn are_digits(digits: &[u8]) -> bool
    ensures { result ≡ list_all is_digit digits.now }
{
    digits.iter().all(|byte| is_digit(*byte))
}

fn is_digit(byte: u8) -> bool
    ensures { result ≡ is_digit byte }
{
    b'0' <= byte && byte <= b'9'
}

/// The number that digits spell.
fn number_of(digits: &[u8]) -> u32
    requires { IsTrue (is_key digits.now) }
    ensures { result ≡ number_of digits.now }
{
    let mut number: u32 = 0;
    for byte in digits {
        number = number * 10 + u32::from(*byte - b'0');
    }
    number
}

/// Whether these are characters that have a code in EBCDIC, at most 200 and none of them the quote.
fn is_inner_text(text: &[u8]) -> bool
    ensures { result ≡ is_inner_text text.now }
{
    text.len() <= MOST_TEXT && are_inner(text)
}

fn are_inner(text: &[u8]) -> bool
    ensures { result ≡ list_all is_inner text.now }
{
    text.iter().all(|byte| is_inner(*byte))
}

fn is_inner(byte: u8) -> bool
    ensures { result ≡ is_inner byte }
{
    ebcdic_of(byte).is_some() && byte != QUOTE
}

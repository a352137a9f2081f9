ghost use Rattle.std.specs.Prelude.{◌≡◌, ◌+◌, ◌≤◌, length, option_copied, option_map, IfSome};
ghost use Rattle.unit_segments.specs.Statement.{text_at, sized_text, statement_of};
ghost use Rattle.unit_segments.specs.SeenStatement.{seen_text, seen_statement, text_length};

use byteorder::{BigEndian, ByteOrder};

/// The byte before a text that is there.
const PRESENT: u8 = 0x00;

/// The byte that stands for a text that isn't there.
const ABSENT: u8 = 0xFF;

/// How many bytes the length of a text has.
const LENGTH: usize = 4;

/// A text, if it is there, and the bytes after it.
#[derive(Clone, Copy)]
pub(crate) struct Text<'a> {
    text: Option<&'a [u8]>,
    rest: &'a [u8],
}

/// The text of a statement that counts, and how many bytes all its texts have.
#[derive(Clone, Copy)]
pub(crate) struct Statement<'a> {
    pub(crate) text: &'a [u8],
    pub(crate) size: usize,
}

/// The text that counts of the data of SQLSTT or SQLATTR: the first of two texts, or the second where that isn't there (DRDA,
/// volume 3, SQLSTT, SQLATTR). None where the data are no two texts.
pub fn sql_text(bytes: &[u8]) -> Option<&[u8]>
    ensures { option_copied result ≡ option_map (λ statement. statement.text) (statement_of bytes.now) }
{
    match statement_of(bytes) {
        Some(statement) => Some(statement.text),
        None => None,
    }
}

/// The statement that the data of SQLSTT are: two texts, of which the first counts where both are there (DRDA, volume 3,
/// SQLSTT). None where they are no two texts.
#[tactic(auto, unfolding(crate::specs::Statement::statement_of))]
pub(crate) fn statement_of(bytes: &[u8]) -> Option<Statement<'_>>
    ensures statement { option_map seen_statement result ≡ statement_of bytes.now }
    ensures size { IfSome result (λ statement. length bytes.now ≤ statement.size + 10) }
{
    let mixed = text_at(bytes)?;
    let single = text_at(mixed.rest)?;
    if !single.rest.is_empty() {
        return None;
    }
    let second = single.text.unwrap_or(&[]);
    Some(match mixed.text {
        Some(first) => Statement {
            text: first,
            size: first.len() + second.len(),
        },
        None => Statement {
            text: second,
            size: second.len(),
        },
    })
}

/// The text that bytes begin with.
fn text_at(bytes: &[u8]) -> Option<Text<'_>>
    ensures text { option_map seen_text result ≡ text_at bytes.now }
    ensures within { IfSome result (λ found. text_length found.text + length found.rest.now ≤ length bytes.now) }
    ensures size { IfSome result (λ found. length bytes.now ≤ text_length found.text + length found.rest.now + 5) }
{
    match bytes.split_first() {
        Some((&ABSENT, rest)) => Some(Text { text: None, rest }),
        Some((&PRESENT, rest)) => sized_text(rest),
        _ => None,
    }
}

/// The text behind its length.
fn sized_text(bytes: &[u8]) -> Option<Text<'_>>
    ensures text { option_map seen_text result ≡ sized_text bytes.now }
    ensures within { IfSome result (λ found. text_length found.text + length found.rest.now ≤ length bytes.now) }
    ensures size { IfSome result (λ found. length bytes.now ≤ text_length found.text + length found.rest.now + 4) }
{
    if bytes.len() < LENGTH {
        return None;
    }
    let size = BigEndian::read_u32(bytes) as usize;
    let bytes = &bytes[LENGTH..];
    if bytes.len() < size {
        return None;
    }
    let (text, rest) = bytes.split_at(size);
    Some(Text {
        text: Some(text),
        rest,
    })
}

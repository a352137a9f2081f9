ghost use Rattle.std.specs.Prelude.{◌≡◌};
ghost use Rattle.std.specs.Option.{option_copied};
ghost use Rattle.std.specs.List.{list_all};
ghost use Rattle.reply_texts.specs.Name.{is_name_character};
ghost use Rattle.reply_texts.specs.Text.{is_text};
ghost use Rattle.script_words.specs.Field.{is_name, is_printable, text_read};

use ddm_codepoints::ebcdic_of;

/// How many characters the name of a user, a password, a schema and the text of a row have at most.
const LONGEST: usize = 8;

/// Whether each byte is printable ASCII.
pub fn is_printable(line: &[u8]) -> bool
    ensures { result ≡ list_all is_printable line.now }
{
    line.iter().all(|byte| 32 <= *byte && *byte <= 126)
}

/// Whether each byte is A to Z or 0 to 9.
fn are_name_characters(word: &[u8]) -> bool
    ensures { result ≡ list_all is_name_character word.now }
{
    word.iter()
        .all(|byte| byte.is_ascii_uppercase() || byte.is_ascii_digit())
}

/// Whether a word is 1 to 8 of A to Z and 0 to 9.
pub fn is_name(word: &[u8]) -> bool
    ensures { result ≡ is_name word.now }
{
    1 <= word.len() && word.len() <= LONGEST && are_name_characters(word)
}

/// Whether each byte is a character that has a code in EBCDIC.
fn is_text(text: &[u8]) -> bool
    ensures { result ≡ is_text text.now }
{
    text.iter().all(|byte| ebcdic_of(*byte).is_some())
}

/// The text of a statement: at least one character, each of which has a code in EBCDIC.
pub fn read_text(text: &[u8]) -> Option<&[u8]>
    ensures { option_copied result ≡ text_read text.now }
{
    if !text.is_empty() && is_text(text) {
        Some(text)
    } else {
        None
    }
}

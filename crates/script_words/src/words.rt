ghost use Rattle.std.specs.Prelude.{◌≡◌, count_by};
ghost use Rattle.script_words.specs.Words.{is_space, behind, word, word_count};

use hex_lines::cut_at;

pub const SPACE: u8 = 32;

/// What stands behind the first word of a line.
pub fn behind_first(line: &[u8]) -> &[u8]
    ensures { result.now ≡ behind 1 line.now }
{
    cut_at(line, SPACE).1
}

/// What stands behind the second word.
pub fn behind_second(line: &[u8]) -> &[u8]
    ensures { result.now ≡ behind 2 line.now }
{
    behind_first(behind_first(line))
}

/// What stands behind the third word.
pub fn behind_third(line: &[u8]) -> &[u8]
    ensures { result.now ≡ behind 3 line.now }
{
    behind_first(behind_second(line))
}

/// The first word.
pub fn first_word(line: &[u8]) -> &[u8]
    ensures { result.now ≡ word 0 line.now }
{
    cut_at(line, SPACE).0
}

/// The second word, empty where there is none.
pub fn second_word(line: &[u8]) -> &[u8]
    ensures { result.now ≡ word 1 line.now }
{
    first_word(behind_first(line))
}

/// The third word, empty where there is none.
pub fn third_word(line: &[u8]) -> &[u8]
    ensures { result.now ≡ word 2 line.now }
{
    first_word(behind_second(line))
}

/// The fourth word, empty where there is none.
pub fn fourth_word(line: &[u8]) -> &[u8]
    ensures { result.now ≡ word 3 line.now }
{
    first_word(behind_third(line))
}

/// How many words a line has.
pub fn count_words(line: &[u8]) -> usize
    ensures { result ≡ word_count line.now }
{
    line.iter().filter(|byte| **byte == SPACE).count() + 1
}

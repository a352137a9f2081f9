ghost use Rattle.std.specs.Prelude.{◌≡◌, ◌==◌, ℕ, length, suc, count_by};
ghost use Rattle.drda_gateway.specs.Split.{words_of, word};

use hex_lines::cut_at;

const SPACE: u8 = 32;

/// The first word of a line, and what stands after its space.
fn split_word(line: &[u8]) -> (&[u8], &[u8])
    ensures first { result.0.now ≡ word 0 (words_of line.now) }
    ensures others { (n : ℕ) → word (suc n) (words_of line.now) ≡ word n (words_of result.1.now) }
{
    cut_at(line, SPACE)
}

/// How many words a line has, and the first three, each empty where there are fewer.
#[derive(Clone, Copy)]
pub struct Words<'a> {
    pub count: usize,
    pub first: &'a [u8],
    pub second: &'a [u8],
    pub third: &'a [u8],
}

/// How many spaces a line has.
fn count_spaces(line: &[u8]) -> usize
    ensures { result ≡ count_by (λ b. b == 32) line.now }
{
    line.iter().filter(|byte| **byte == SPACE).count()
}

/// The words of a line.
pub fn split_words(line: &[u8]) -> Words<'_>
    ensures count { result.count ≡ length (words_of line.now) }
    ensures first { result.first.now ≡ word 0 (words_of line.now) }
    ensures second { result.second.now ≡ word 1 (words_of line.now) }
    ensures third { result.third.now ≡ word 2 (words_of line.now) }
{
    let spaces = count_spaces(line);
    let (first, rest) = split_word(line);
    let (second, rest) = split_word(rest);
    let (third, _) = split_word(rest);
    Words {
        count: spaces + 1,
        first,
        second,
        third,
    }
}

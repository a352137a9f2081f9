ghost use Rattle.std.specs.Prelude.{◌≡◌, ◌≤◌, IfSome};
ghost use Rattle.script_words.specs.Number.{digit_onto, digits_onto, number_of, number_within};

/// The number with one digit more, where that is a digit and the number stays below 2 ^ 64.
fn digit_onto(number: u64, digit: u8) -> Option<u64>
    ensures { result ≡ digit_onto number digit }
{
    if digit < b'0' || b'9' < digit {
        return None;
    }
    number.checked_mul(10)?.checked_add(u64::from(digit - b'0'))
}

/// The number that these digits spell, while it stays below 2 ^ 64.
fn read_digits(word: &[u8]) -> Option<u64>
    ensures { result ≡ digits_onto 0 word.now }
{
    let mut number: u64 = 0;
    for digit in word {
        number = digit_onto(number, *digit)?;
    }
    Some(number)
}

/// A number in decimal without leading zeros, below 2 ^ 64.
pub fn read_number(word: &[u8]) -> Option<u64>
    ensures { result ≡ number_of word.now }
{
    match word {
        [] => None,
        [b'0'] => Some(0),
        [b'0', ..] => None,
        _ => read_digits(word),
    }
}

/// Such a number from `least` to `most`.
pub fn read_within(word: &[u8], least: u32, most: u32) -> Option<u32>
    ensures number { result ≡ number_within least most word.now }
    ensures least { IfSome result (λ number. least ≤ number) }
    ensures most { IfSome result (λ number. number ≤ most) }
{
    let number = read_number(word)?;
    if u64::from(least) <= number && number <= u64::from(most) {
        Some(number as u32)
    } else {
        None
    }
}

ghost use Rattle.std.specs.Prelude.{◌≡◌, IfOk};
ghost use Rattle.hex_lines.specs.Hex.{hex_digit, hex_byte, bytes_of_hex};

use link_ends::{NoMemory, Octets};
use std::alloc::Global;

/// The value of a hexadecimal digit in either case.
fn read_digit(byte: u8) -> Option<u8>
    ensures { result ≡ hex_digit byte }
{
    match byte {
        b'0'..=b'9' => Some(byte - b'0'),
        b'A'..=b'F' => Some(byte - b'A' + 10),
        b'a'..=b'f' => Some(byte - b'a' + 10),
        _ => None,
    }
}

/// The byte of two digits.
fn read_byte(high: u8, low: u8) -> Option<u8>
    ensures { result ≡ hex_byte high low }
{
    let high = read_digit(high)?;
    let low = read_digit(low)?;
    Some(high * 16 + low)
}

/// The bytes that these digits spell, two digits a byte in either case, and at least one byte. None exactly where they spell
/// none: there are no digits, or an odd number of them, or one is no digit.
pub fn read_hex(alloc: Global, digits: &[u8]) -> Result<Option<Octets>, NoMemory>
    ensures { IfOk result (λ bytes. bytes ≡ bytes_of_hex digits.now) }
{
    if digits.is_empty() {
        return Ok(None);
    }
    let mut bytes = Octets::new(alloc);
    let mut left = digits;
    while let [high, low, rest @ ..] = left {
        let Some(byte) = read_byte(*high, *low) else {
            return Ok(None);
        };
        bytes.push_all(&[byte])?;
        left = rest;
    }
    if left.is_empty() {
        Ok(Some(bytes))
    } else {
        Ok(None)
    }
}

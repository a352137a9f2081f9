ghost use Rattle.std.specs.Prelude.{◌≡◌};
ghost use Rattle.drda_gateway.specs.Field.{is_name, is_name_byte, is_printable};
ghost use Rattle.std.specs.List.{list_all};

/// Whether each byte is printable ASCII.
pub fn is_printable(line: &[u8]) -> bool
    ensures { result ≡ list_all is_printable line.now }
{
    line.iter().all(|byte| 32 <= *byte && *byte <= 126)
}

/// Whether a byte may stand in a name: A to Z, 0 to 9.
fn is_name_byte(byte: u8) -> bool
    ensures { result ≡ is_name_byte byte }
{
    (b'A' <= byte && byte <= b'Z') || (b'0' <= byte && byte <= b'9')
}

/// Whether each byte may stand in a name.
fn are_name_bytes(word: &[u8]) -> bool
    ensures { result ≡ list_all is_name_byte word.now }
{
    word.iter().all(|byte| is_name_byte(*byte))
}

/// Whether a word is a name of at most so many bytes.
pub fn is_name(word: &[u8], most: usize) -> bool
    ensures { result ≡ is_name most word.now }
{
    1 <= word.len() && word.len() <= most && are_name_bytes(word)
}

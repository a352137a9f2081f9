ghost use Rattle.std.specs.Prelude.{◌≡◌, ◌≤◌, ◌-◌, ◌&&◌, ℕ, Some, find, length, nat_le, nat_lt};
ghost use Rattle.ddm_codepoints.specs.Character.{ebcdic_of, ascii_of, padded_name, trimmed};

/// How many bytes RDBNAM has.
pub const NAME_LENGTH: usize = 18;

/// A space in EBCDIC.
pub const SPACE: u8 = 0x40;

/// Characters that follow one another in ASCII and in EBCDIC: the first one's code in each, and how many they are.
#[derive(Clone, Copy)]
struct Run(u8, u8, u8);

/// The characters that have a code in EBCDIC, the same in CCSIDs 37 and 500.
static RUNS: [Run; 26] = [
    Run(b'A', 0xC1, 9),
    Run(b'J', 0xD1, 9),
    Run(b'S', 0xE2, 8),
    Run(b'a', 0x81, 9),
    Run(b'j', 0x91, 9),
    Run(b's', 0xA2, 8),
    Run(b'0', 0xF0, 10),
    Run(b' ', SPACE, 1),
    Run(b'.', 0x4B, 1),
    Run(b'<', 0x4C, 1),
    Run(b'(', 0x4D, 1),
    Run(b'+', 0x4E, 1),
    Run(b'&', 0x50, 1),
    Run(b'*', 0x5C, 1),
    Run(b')', 0x5D, 1),
    Run(b';', 0x5E, 1),
    Run(b'-', 0x60, 1),
    Run(b'/', 0x61, 1),
    Run(b',', 0x6B, 1),
    Run(b'%', 0x6C, 1),
    Run(b'_', 0x6D, 1),
    Run(b'>', 0x6E, 2),
    Run(b':', 0x7A, 1),
    Run(b'\'', 0x7D, 1),
    Run(b'=', 0x7E, 1),
    Run(b'"', 0x7F, 1),
];

/// The code in EBCDIC of a character of ASCII: None exactly where it has none here.
pub fn ebcdic_of(ascii: u8) -> Option<u8>
    ensures { result ≡ ebcdic_of ascii }
{
    match ascii_run(&RUNS, ascii) {
        Some(run) => Some(run.1 + (ascii - run.0)),
        None => None,
    }
}

/// The code in ASCII of a character of EBCDIC: None exactly where it has none here.
pub fn ascii_of(ebcdic: u8) -> Option<u8>
    ensures { result ≡ ascii_of ebcdic }
{
    match ebcdic_run(&RUNS, ebcdic) {
        Some(run) => Some(run.0 + (ebcdic - run.1)),
        None => None,
    }
}

/// The run in which a character of ASCII stands.
fn ascii_run(runs: &[Run], ascii: u8) -> Option<Run>
    ensures { result ≡ find (λ run. nat_le run.0 ascii && nat_lt (ascii - run.0) run.2) runs.now }
{
    runs.iter()
        .copied()
        .find(|run| run.0 <= ascii && ascii - run.0 < run.2)
}

/// The run in which a character of EBCDIC stands.
fn ebcdic_run(runs: &[Run], ebcdic: u8) -> Option<Run>
    ensures { result ≡ find (λ run. nat_le run.1 ebcdic && nat_lt (ebcdic - run.1) run.2) runs.now }
{
    runs.iter()
        .copied()
        .find(|run| run.1 <= ebcdic && ebcdic - run.1 < run.2)
}

/// An RDB name in EBCDIC with spaces behind it, as RDBNAM has it. A character that has no code becomes a space.
pub fn padded_name(name: &[u8]) -> [u8; 18]
    requires { length name.now ≤ 18 }
    ensures { result ≡ padded_name name.now }
{
    let mut padded = [SPACE; NAME_LENGTH];
    for (i, character) in name.iter().enumerate() {
        padded[i] = ebcdic_of(*character).unwrap_or(SPACE);
    }
    padded
}

/// The bytes up to the last one that is no space in EBCDIC.
pub fn trimmed(name: &[u8]) -> &[u8]
    ensures { result.now ≡ trimmed name.now }
{
    let mut rest = name;
    while let Some((last, front)) = rest.split_last() {
        if *last != SPACE {
            break;
        }
        rest = front;
    }
    rest
}

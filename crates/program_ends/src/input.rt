ghost use Rattle.std.specs.Prelude.{◌≡◌, IfOk, IfErr};
ghost use Rattle.program_ends.specs.Ends.{WasReadUp, ReadFails};

use hex_lines::MOST_BYTES;
use link_ends::{NoMemory, Octets, Source};
use std::alloc::Global;

/// Why a source wasn't read to its end.
#[derive(Clone, Copy, Debug, PartialEq, Eq)]
pub enum ReadError {
    /// A call of the source failed.
    Fault,
    /// Memory ran out.
    NoMemory,
}

impl From<NoMemory> for ReadError {
    ghost use Rattle.program_ends.specs.declared.input.ReadError.TheVariants.{NoMemory as OutOfMemory};

    ghost from_gives = { λ _ e. e ≡ OutOfMemory };

    fn from(_error: NoMemory) -> ReadError {
        ReadError::NoMemory
    }
}

/// Reads a source to its end, or until it has given more bytes than the longest text that is read. A call that fails ends it, and so
/// does want of memory.
pub fn read_all<S: Source>(alloc: Global, source: &mut S) -> Result<Octets, ReadError>
    ensures read { IfOk result (λ text. WasReadUp (S.state source.old) (S.state source.new) text) }
    ensures fails { IfErr result (λ e. ReadFails (S.state source.old) (S.state source.new) e) }
{
    let mut text = Octets::new(alloc);
    let mut buf = [0u8; 4096];
    while text.len() <= MOST_BYTES {
        let count = match source.read(&mut buf) {
            Ok(count) => count,
            Err(_) => return Err(ReadError::Fault),
        };
        if count == 0 {
            return Ok(text);
        }
        text.push_all(&buf[..count])?;
    }
    Ok(text)
}

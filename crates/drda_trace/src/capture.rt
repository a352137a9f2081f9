ghost use Rattle.std.specs.Prelude.{◌≡◌, ◌++◌, [], if◌then◌else◌, IfOk, Some, None, option_map};
ghost use Rattle.hex_lines.specs.Hex.{bytes_of_hex};
ghost use Rattle.drda_trace.specs.Capture.{capture_of, empty_capture, is_from, line_added};
ghost use Rattle.drda_trace.specs.Answers.{Reads};

use crate::trace::TraceFault;
use hex_lines::{MOST_BYTES, is_skipped, read_hex, split_line};
use link_ends::{NoMemory, Octets};
use std::alloc::Global;

/// The bytes that each side of a conversation sent.
#[derive(Debug, Drop)]
pub(crate) struct Capture {
    pub(crate) requester: Octets,
    pub(crate) server: Octets,
}

/// Reads a capture. It is refused at its first line that is none of one.
pub(crate) fn read_capture(alloc: Global, text: &[u8]) -> Result<Capture, TraceFault>
    ensures { Reads result (capture_of text.now) }
{
    if text.len() > MOST_BYTES {
        return Err(TraceFault::Refused { line: 0 });
    }
    let mut capture = Capture::new(alloc);
    let mut rest = text;
    let mut number: u64 = 1;
    while !rest.is_empty() {
        let (line, after) = split_line(rest);
        if !capture.add_line(alloc, line)? {
            return Err(TraceFault::Refused { line: number });
        }
        rest = after;
        number += 1;
    }
    Ok(capture)
}

impl Capture {
    /// No bytes of either side.
    fn new(alloc: Global) -> Capture
        ensures { result ≡ empty_capture }
    {
        Capture {
            requester: Octets::new(alloc),
            server: Octets::new(alloc),
        }
    }

    /// Adds the bytes of a line, and answers whether it is a line of a capture.
    fn add_line(&mut self, alloc: Global, line: &[u8]) -> Result<bool, NoMemory>
        ensures { IfOk result (λ added. line_added self.old line.now ≡ (if added then Some self.new else None)) }
    {
        if is_skipped(line) {
            return Ok(true);
        }
        if is_from(b'>', line) {
            return push_hex(alloc, &mut self.requester, &line[2..]);
        }
        if is_from(b'<', line) {
            return push_hex(alloc, &mut self.server, &line[2..]);
        }
        Ok(false)
    }
}

/// Whether a line begins with the mark of a side, and a space.
fn is_from(mark: u8, line: &[u8]) -> bool
    ensures from { result ≡ is_from mark line.now }
{
    match line {
        [first, second, ..] => *first == mark && *second == b' ',
        _ => false,
    }
}

/// Appends the bytes that these digits spell, and answers whether they spell some.
fn push_hex(alloc: Global, stream: &mut Octets, digits: &[u8]) -> Result<bool, NoMemory>
    ensures { IfOk result (λ added. option_map (λ bytes. stream.old ++ bytes) (bytes_of_hex digits.now)
        ≡ (if added then Some stream.new else None)) }
{
    let Some(bytes) = read_hex(alloc, digits)? else {
        return Ok(false);
    };
    stream.push_all(bytes.as_slice())?;
    Ok(true)
}

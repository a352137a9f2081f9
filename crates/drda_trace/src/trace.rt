ghost use Rattle.drda_trace.specs.Answers.{Reads};
ghost use Rattle.drda_trace.specs.Trace.{trace_of};

use crate::capture::read_capture;
use crate::replies::read_replies;
use crate::requests::read_requests;
use crate::shown::show;
use crate::text::write;
use link_ends::{NoMemory, Octets};
use std::alloc::Global;

/// What a capture shows.
#[derive(Debug, Drop)]
pub struct Traced {
    /// The text, line by line.
    pub text: Octets,
    /// Whether each chain of commands is answered, by replies with its numbers, and nothing is wrong or left over.
    pub whole: bool,
}

/// Why a capture wasn't traced.
#[derive(Clone, Copy, Debug, PartialEq, Eq)]
pub enum TraceFault {
    /// The first line that is none of a capture, counted from 1, or 0 for a text of more than 16,777,216 bytes.
    Refused { line: u64 },
    /// Memory ran out.
    NoMemory,
}

impl From<NoMemory> for TraceFault {
    ghost use Rattle.std.specs.Prelude.{◌≡◌};
    ghost use Rattle.drda_trace.specs.declared.trace.TraceFault.TheVariants.{NoMemory as OutOfMemory};

    ghost from_gives = { λ _ e. e ≡ OutOfMemory };

    fn from(_error: NoMemory) -> TraceFault {
        TraceFault::NoMemory
    }
}

/// Shows what both sides of a captured conversation sent, chain by chain, and what is wrong with it.
///
/// A capture is text of at most 16,777,216 bytes: lines `> HEX` of the requester and `< HEX` of the server, in either order,
/// with two digits or more, an even number of them. Empty lines and lines that begin with `#` are skipped. `Refused` comes
/// exactly where another line stands, with the first such. The bytes of each side are read up to their first fault.
#[tactic(auto, unfolding(crate::specs::Trace::trace_of))]
pub fn trace_text(alloc: Global, capture: &[u8]) -> Result<Traced, TraceFault>
    ensures { Reads result (trace_of capture.now) }
{
    let capture = read_capture(alloc, capture)?;
    let requests = read_requests(alloc, capture.requester.as_slice())?;
    let replies = read_replies(alloc, capture.server.as_slice())?;
    let lines = show(alloc, &requests, &replies)?;
    Ok(write(alloc, lines.as_slice())?)
}

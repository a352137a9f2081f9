ghost use Rattle.std.specs.Prelude.{◌≡◌};
ghost use Rattle.drda_trace.specs.Ending.{begun_with, stream_ending, rest_from};

use dss_frame::{Placed, Reader, StreamFault};
use reply_texts::syntax_error;

/// The SYNERRCD of a field that is none that can stand there, and of a chain beyond its limits (DDM, volume 3).
pub(crate) const LIMIT: u8 = 0x04;

/// How the bytes of one side end.
#[derive(Clone, Copy, Debug, PartialEq, Eq)]
pub(crate) enum Ending {
    /// With a fault at this place, with this SYNERRCD.
    Fault { at: u64, err: u8 },
    /// With so many bytes that are no whole chain.
    Rest { count: u64 },
}

/// How so many bytes end, of which all whole DSSs were taken: with the reader's fault, or where a chain has begun at this
/// place, with its bytes.
pub(crate) fn stream_ending(reader: &Reader, len: usize, begun: Option<u64>) -> Ending
    ensures { result ≡ stream_ending reader.now.fault (rest_from len reader.now begun) }
{
    match reader.fault() {
        Some(StreamFault::Frame { at, why, .. }) => Ending::Fault {
            at,
            err: syntax_error(why),
        },
        Some(StreamFault::TooLong { at, .. }) => Ending::Fault { at, err: LIMIT },
        None => Ending::Rest {
            count: rest(reader, len, begun),
        },
    }
}

/// How many bytes are no whole chain.
fn rest(reader: &Reader, len: usize, begun: Option<u64>) -> u64
    ensures { result ≡ rest_from len reader.now begun }
{
    match begun {
        Some(place) => (len as u64).saturating_sub(place),
        None => reader.held() as u64,
    }
}

/// Where the chain begins that goes on behind a DSS, if it does: where it had begun, or with this DSS.
pub(crate) fn begun_with(begun: Option<u64>, placed: &Placed) -> Option<u64>
    ensures { result ≡ begun_with begun placed.now }
{
    if placed.dss.chained {
        Some(begun.unwrap_or(placed.at))
    } else {
        None
    }
}

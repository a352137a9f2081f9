ghost use Rattle.std.specs.Prelude.{◌≡◌, Some, IfOk, OnOk};
ghost use Rattle.drda_trace.specs.declared.ending.Ending.{Ending as EndingIs};
ghost use Rattle.unit_segments.specs.declared.fault.ChainFault.TheVariants.{NoMemory as OutOfMemory};
ghost use Rattle.drda_trace.specs.Requests.{requests_of, requests_in, chain_ending};

use crate::ending::{Ending, LIMIT, begun_with, stream_ending};
use dss_frame::{FeedFault, Reader, Side};
use link_ends::{NoMemory, Sequence};
use std::alloc::Global;
use unit_segments::{Chain, ChainFault, ChainReader};

/// The greatest chain of requests, in bytes.
const MOST_CHAIN_BYTES: u64 = 16_777_216;

/// What a requester sent: its chains that are whole, and how its bytes end.
#[derive(Debug, Drop)]
pub(crate) struct RequestStream {
    pub(crate) chains: Sequence<Chain>,
    pub(crate) ending: Ending,
}

/// Reads the bytes of a requester up to their first fault.
#[tactic(auto, unfolding(crate::specs::Requests::requests_of))]
pub(crate) fn read_requests(alloc: Global, bytes: &[u8]) -> Result<RequestStream, NoMemory>
    ensures { IfOk result (λ stream. stream ≡ requests_of bytes.now) }
{
    let mut reader = Reader::new(alloc, Side::Requests, MOST_CHAIN_BYTES);
    if let Err(FeedFault::NoMemory) = reader.feed(bytes) {
        return Err(NoMemory);
    }
    read_chains(alloc, &mut reader, bytes.len())
}

/// The chains of the DSSs that a reader has read of `len` bytes.
fn read_chains(alloc: Global, reader: &mut Reader, len: usize) -> Result<RequestStream, NoMemory>
    ensures { IfOk result (λ stream. stream ≡ requests_in len reader.old) }
{
    let mut chain_reader = ChainReader::new(alloc);
    let mut chains = Sequence::new(alloc);
    let mut begun = None;
    while let Some(placed) = reader.take() {
        begun = begun_with(begun, &placed);
        match chain_reader.add(placed) {
            Ok(Some(chain)) => chains.push(chain)?,
            Ok(None) => {}
            Err(fault) => {
                let ending = fault_ending(fault)?;
                return Ok(RequestStream { chains, ending });
            }
        }
    }
    let ending = stream_ending(reader, len, begun);
    Ok(RequestStream { chains, ending })
}

/// How bytes end with the fault of a chain.
fn fault_ending(fault: ChainFault) -> Result<Ending, NoMemory>
    ensures ending { IfOk result (λ ending. (others : EndingIs) → ending ≡ chain_ending (Some fault) others) }
    ensures told { OnOk result (fault ≡ OutOfMemory → ⊥) }
{
    match fault {
        ChainFault::Syntax { at, err, .. } => Ok(Ending::Fault { at, err }),
        ChainFault::TooMany { at, .. } => Ok(Ending::Fault { at, err: LIMIT }),
        ChainFault::NoMemory => Err(NoMemory),
    }
}

ghost use Rattle.std.specs.Prelude.{◌≡◌, ◌++◌, ◌∷◌, List, Err, IfOk, OnOk};
ghost use Rattle.dss_frame.specs.declared.dss.Placed.{Placed as PlacedIs};
ghost use Rattle.drda_trace.specs.declared.ending.Ending.{Ending as EndingIs};
ghost use Rattle.drda_trace.specs.Replies.{replies_of, replies_in, chains_after, object_ending};
ghost use Rattle.unit_segments.specs.Command.{object_error};

use crate::ending::{Ending, begun_with, stream_ending};
use ddm_objects::{ObjFault, ObjWhy, outer};
use dss_frame::{FeedFault, Placed, Reader, Side};
use link_ends::{NoMemory, Sequence};
use std::alloc::Global;
use std::mem;

/// The greatest chain of replies, in bytes.
const MOST_REPLY_BYTES: u64 = 33_554_432;

/// The offset of the body in a DSS.
const BODY: u64 = 6;

/// What a server sent: its chains of DSSs that are whole, and how its bytes end.
#[derive(Debug, Drop)]
pub(crate) struct ReplyStream {
    pub(crate) chains: Sequence<Sequence<Placed>>,
    pub(crate) ending: Ending,
}

/// Reads the bytes of a server up to their first fault.
#[tactic(auto, unfolding(crate::specs::Replies::replies_of))]
pub(crate) fn read_replies(alloc: Global, bytes: &[u8]) -> Result<ReplyStream, NoMemory>
    ensures { IfOk result (λ stream. stream ≡ replies_of bytes.now) }
{
    let mut reader = Reader::new(alloc, Side::Replies, MOST_REPLY_BYTES);
    if let Err(FeedFault::NoMemory) = reader.feed(bytes) {
        return Err(NoMemory);
    }
    read_chains(alloc, &mut reader, bytes.len())
}

/// The chains of the DSSs that a reader has read of `len` bytes.
fn read_chains(alloc: Global, reader: &mut Reader, len: usize) -> Result<ReplyStream, NoMemory>
    ensures { IfOk result (λ stream. stream ≡ replies_in len reader.old) }
{
    let mut chains = Sequence::new(alloc);
    let mut begun_chain = Sequence::new(alloc);
    let mut begun = None;
    while let Some(placed) = reader.take() {
        if let Err(fault) = outer(placed.dss.body.as_slice()) {
            let ending = object_ending(&placed, fault);
            return Ok(ReplyStream { chains, ending });
        }
        begun = begun_with(begun, &placed);
        put(alloc, &mut chains, &mut begun_chain, placed)?;
    }
    let ending = stream_ending(reader, len, begun);
    Ok(ReplyStream { chains, ending })
}

/// Puts a DSS behind those of the chain that has begun, and where it ends that chain, the chain behind those that are whole.
fn put(
    alloc: Global,
    chains: &mut Sequence<Sequence<Placed>>,
    begun: &mut Sequence<Placed>,
    placed: Placed,
) -> Result<(), NoMemory>
    ensures { OnOk result ((others : List PlacedIs)
        → chains.new ++ chains_after begun.new others ≡ chains.old ++ chains_after begun.old (placed ∷ others)) }
{
    let chained = placed.dss.chained;
    begun.push(placed)?;
    if !chained {
        chains.push(mem::replace(begun, Sequence::new(alloc)))?;
    }
    Ok(())
}

/// How bytes end with a DSS whose body isn't exactly one object.
fn object_ending(placed: &Placed, fault: ObjFault) -> Ending
    ensures { (others : EndingIs) → result ≡ object_ending placed.now (Err fault) others }
{
    Ending::Fault {
        at: placed
            .at
            .saturating_add(BODY)
            .saturating_add(fault.at as u64),
        err: object_error(fault.why),
    }
}

/// The SYNERRCD of what is wrong with an object (DDM, volume 3).
fn object_error(why: ObjWhy) -> u8
    ensures { result ≡ object_error why }
{
    match why {
        ObjWhy::LessThan4 => 0x07,
        ObjWhy::Past => 0x08,
        ObjWhy::Extended => 0x0C,
    }
}

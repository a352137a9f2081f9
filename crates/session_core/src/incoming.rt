ghost use Rattle.std.specs.Prelude.{◌≡◌, option_map, IfOk, OnOk};
ghost use Rattle.std.specs.Option.{ForSome};
ghost use Rattle.session_core.specs.Incoming.{nothing_came, with_piece, next_of, without_next, of_frame};
ghost use Rattle.session_core.specs.SeenReading.{seen_reading, HasCommands};

use dss_frame::{FeedFault, Reader, Side, StreamFault};
use link_ends::NoMemory;
use reply_texts::syntax_error;
use std::alloc::Global;
use std::marker::Model;
use unit_segments::{Chain, ChainFault, ChainReader};

/// How many bytes a chain of an application has at most.
const MOST_CHAIN_BYTES: u64 = 16_777_216;

/// What an application's bytes go on with.
#[derive(Debug, Drop)]
pub enum Reading {
    /// A chain.
    Chain(Chain),
    /// A field that is none of a chain: its place, its SYNERRCD (DDM, volume 3), and the correlation number that it is told by.
    Fault { place: u64, error: u8, number: u16 },
    /// A chain that has too many bytes or commands, and the correlation number that this is told by.
    TooLong { number: u16 },
}

/// The bytes of an application that are in no whole chain that was taken. They are seen as DSSs, and as the chain whose first DSSs
/// were taken.
#[derive(Debug, Drop)]
pub struct Incoming {
    alloc: Global,
    frames: Reader,
    chains: ChainReader,
}

impl Model for Incoming {
    ghost use Rattle.std.specs.Prelude.{◌≡◌};
    ghost use Rattle.std.specs.List.{AllByRecursion};
    ghost use Rattle.unit_segments.specs.Limit.{most_chain_bytes};
    ghost use Rattle.plain_model.specs.Group.{IsCommand};
    ghost use Rattle.session_core.specs.Incoming.{Incoming as Came};

    ghost Value = { Came };

    ghost view = { λ i. record { frames = i.frames; chain = i.chains } };

    ghost invariant = { λ i. (i.frames.limit ≡ most_chain_bytes) × AllByRecursion IsCommand i.chains.commands };
}

impl Incoming {
    /// Nothing came. What comes is stored in memory of this allocator.
    pub fn new(alloc: Global) -> Incoming
        ensures { result ≡ nothing_came }
    {
        Incoming {
            alloc,
            frames: Reader::new(alloc, Side::Requests, MOST_CHAIN_BYTES),
            chains: ChainReader::new(alloc),
        }
    }

    /// A piece follows what came.
    pub fn feed(&mut self, piece: &[u8]) -> Result<(), NoMemory>
        ensures { OnOk result (self.new ≡ with_piece piece.now self.old) }
    {
        match self.frames.feed(piece) {
            Err(FeedFault::NoMemory) => Err(NoMemory),
            _ => Ok(()),
        }
    }

    /// Takes the next chain, or the fault in its place, where that came whole (DRDA, volume 3, DSS: chaining). The faults of one DSS
    /// come before those of the next. After want of memory it isn't used again.
    #[tactic(auto, unfolding(crate::specs::Incoming::next_in))]
    pub fn next(&mut self) -> Result<Option<Reading>, NoMemory>
        ensures reading { IfOk result (λ reading. option_map seen_reading reading ≡ (next_of self.old).reading) }
        ensures commands { IfOk result (λ reading. ForSome reading HasCommands) }
        ensures left { OnOk result (self.new ≡ without_next self.old) }
    {
        while let Some(placed) = self.frames.take() {
            match self.chains.add(placed) {
                Ok(None) => {}
                Ok(Some(chain)) => return Ok(Some(Reading::Chain(chain))),
                Err(ChainFault::Syntax { at, err, corr }) => {
                    self.chains = ChainReader::new(self.alloc);
                    return Ok(Some(Reading::Fault {
                        place: at,
                        error: err,
                        number: corr,
                    }));
                }
                Err(ChainFault::TooMany { corr, .. }) => {
                    self.chains = ChainReader::new(self.alloc);
                    return Ok(Some(Reading::TooLong { number: corr }));
                }
                Err(ChainFault::NoMemory) => {
                    self.chains = ChainReader::new(self.alloc);
                    return Err(NoMemory);
                }
            }
        }
        match self.frames.fault() {
            Some(fault) => Ok(Some(of_frame(fault))),
            None => Ok(None),
        }
    }
}

/// What a fault of the frames is.
fn of_frame(fault: StreamFault) -> Reading
    ensures { seen_reading result ≡ of_frame fault }
{
    match fault {
        StreamFault::Frame { at, why, corr } => Reading::Fault {
            place: at,
            error: syntax_error(why),
            number: corr,
        },
        StreamFault::TooLong { corr, .. } => Reading::TooLong { number: corr },
    }
}

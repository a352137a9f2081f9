ghost use Rattle.std.specs.Prelude.{◌≡◌};
ghost use Rattle.dss_frame.specs.Fault.{answer_of, want_of_memory, place_of, shown_by};

use link_ends::NoMemory;
use std::alloc::AllocError;
use thiserror::Error;

/// What is wrong with a frame.
#[derive(Clone, Copy, Debug, PartialEq, Eq)]
pub enum Why {
    /// The first segment is shorter than its header.
    Short,
    /// The third byte isn't D0.
    NoD0,
    /// The format isn't one that is read here.
    Format,
    /// A further segment is shorter than its header.
    Continue,
}

/// What ends the reading of a stream.
#[derive(Clone, Copy, Debug, PartialEq, Eq)]
pub enum StreamFault {
    /// The bytes from this place on are no DSS, however they go on.
    Frame { at: u64, why: Why, corr: u16 },
    /// A chain has more bytes than the limit, of which the one at this place is the first beyond.
    TooLong { at: u64, corr: u16 },
}

impl StreamFault {
    /// The place that it tells.
    pub(crate) fn at(self) -> u64
        ensures { result ≡ place_of self }
    {
        match self {
            StreamFault::Frame { at, .. } | StreamFault::TooLong { at, .. } => at,
        }
    }

    /// How many bytes from that place on show it.
    pub(crate) fn shown_by(self) -> u64
        ensures { result ≡ shown_by self }
    {
        match self {
            StreamFault::Frame {
                why: Why::Short | Why::Continue,
                ..
            } => 2,
            _ => 1,
        }
    }
}

/// Why bytes could not be read.
#[derive(Clone, Copy, Debug, PartialEq, Eq, Error)]
pub enum FeedFault {
    /// The bytes from this place on are no DSS, however they go on.
    #[error("the frame at {at} can't be read ({why:?})")]
    Frame { at: u64, why: Why, corr: u16 },
    /// A chain has more bytes than the limit, of which the one at this place is the first beyond.
    #[error("the chain passes the limit at {at}")]
    TooLong { at: u64, corr: u16 },
    /// Memory ran out. The reader is as it was before.
    #[error("memory ran out")]
    NoMemory,
}

impl From<StreamFault> for FeedFault {
    ghost from_gives = { λ fault e. e ≡ answer_of fault };

    fn from(fault: StreamFault) -> FeedFault {
        match fault {
            StreamFault::Frame { at, why, corr } => FeedFault::Frame { at, why, corr },
            StreamFault::TooLong { at, corr } => FeedFault::TooLong { at, corr },
        }
    }
}

impl From<NoMemory> for FeedFault {
    ghost from_gives = { λ _ e. e ≡ want_of_memory };

    fn from(_error: NoMemory) -> FeedFault {
        FeedFault::NoMemory
    }
}

impl From<AllocError> for FeedFault {
    ghost from_gives = { λ _ e. e ≡ want_of_memory };

    fn from(_error: AllocError) -> FeedFault {
        FeedFault::NoMemory
    }
}

ghost use Rattle.std.specs.Prelude.{◌≡◌, ◌+◌, ◌*◌, ◌≤◌, length};
ghost use Rattle.dss_frame.specs.Segments.{dss_of};
ghost use Rattle.dss_frame.specs.Reading.{further_on, number_for, too_long, step_of, first_position, position_after};
ghost use Rattle.dss_frame.specs.Walk.{walked_to, IsWalked, ReadsBehind};

use crate::dss::Side;
use crate::fault::StreamFault;
use crate::segments::{CHAINED, Extent, has_bit, judge};
use byteorder::{BigEndian, ByteOrder};

/// How many bytes of a DSS have come where its correlation number has.
const NUMBERED: usize = 6;

/// Where a DSS begins.
#[derive(Clone, Copy, Debug)]
pub(crate) struct Position {
    /// The place of its first byte among all bytes read.
    pub(crate) at: u64,
    /// How many bytes its chain may have from there on.
    pub(crate) room: u64,
    /// The correlation number of the DSS before it in the chain, or 0.
    pub(crate) before: u16,
}

/// What comes next where a DSS begins.
#[derive(Clone, Copy, Debug)]
pub(crate) enum Step {
    /// More bytes of it are awaited.
    Waits,
    /// It is whole, with so many bytes.
    Reads { len: usize },
    /// A fault ends the reading.
    Stops { fault: StreamFault },
}

/// What comes next, how far the segments of the DSS were walked, and how many were judged on the way.
#[derive(Clone, Copy, Debug)]
pub(crate) struct Judged {
    pub(crate) step: Step,
    pub(crate) walked: usize,
    pub(crate) judged: usize,
}

impl Position {
    /// Where a stream begins, whose chains have at most `limit` bytes.
    pub(crate) fn first(limit: u64) -> Position
        ensures { result ≡ first_position limit }
    {
        Position {
            at: 0,
            room: limit,
            before: 0,
        }
    }

    /// Where the DSS begins that follows the one that these bytes are.
    #[tactic(auto, unfolding(crate::specs::Segments::dss_of))]
    pub(crate) fn after(self, limit: u64, bytes: &[u8]) -> Position
        requires header { 6 ≤ length bytes.now }
        requires room { length bytes.now ≤ self.room }
        ensures { result ≡ position_after limit self (dss_of bytes.now) (length bytes.now) }
    {
        let len = bytes.len() as u64;
        let chained = has_bit(bytes[3], CHAINED);
        Position {
            at: self.place(len),
            room: if chained { self.room - len } else { limit },
            before: if chained {
                BigEndian::read_u16(&bytes[4..])
            } else {
                0
            },
        }
    }

    /// The place so many bytes further on.
    fn place(self, bytes: u64) -> u64
        ensures { result ≡ further_on self.at bytes }
    {
        self.at.saturating_add(bytes)
    }

    /// The correlation number of a fault at this offset of a DSS that begins with these bytes.
    fn number_for(self, bytes: &[u8], offset: u64) -> u16
        requires { offset ≤ length bytes.now }
        ensures { result ≡ number_for self bytes.now offset }
    {
        if offset < NUMBERED as u64 {
            self.before
        } else {
            BigEndian::read_u16(&bytes[4..])
        }
    }

    /// The chain has more bytes than it may.
    fn stop_beyond(self, bytes: &[u8]) -> Step
        requires { self.room ≤ length bytes.now }
        ensures { result ≡ Step.Stops (too_long self bytes.now) }
    {
        Step::Stops {
            fault: StreamFault::TooLong {
                at: self.place(self.room),
                corr: self.number_for(bytes, self.room),
            },
        }
    }

    /// What comes next where a DSS begins here, with these bytes, the first of which were walked before.
    pub(crate) fn next(self, side: Side, bytes: &[u8], walked: usize) -> Judged
        requires { IsWalked walked bytes.now }
        ensures step { result.step ≡ step_of side self bytes.now }
        ensures walked { result.step ≡ Step.Waits → result.walked ≡ walked_to bytes.now }
        ensures steps { 3 * result.judged + walked ≤ result.walked + 3 }
        ensures last { ReadsBehind result.walked result.step }
        ensures within { result.walked ≤ length bytes.now }
    {
        let walk = judge(side, bytes, walked);
        let step = match walk.extent {
            Extent::Awaits => {
                if bytes.len() as u64 > self.room {
                    self.stop_beyond(bytes)
                } else {
                    Step::Waits
                }
            }
            Extent::Ends { len } => {
                if len as u64 > self.room {
                    self.stop_beyond(bytes)
                } else {
                    Step::Reads { len }
                }
            }
            Extent::Fails { offset, why } => {
                if (offset as u64) < self.room {
                    Step::Stops {
                        fault: StreamFault::Frame {
                            at: self.place(offset as u64),
                            why,
                            corr: self.number_for(bytes, offset as u64),
                        },
                    }
                } else {
                    self.stop_beyond(bytes)
                }
            }
        };
        Judged {
            step,
            walked: walk.walked,
            judged: walk.judged,
        }
    }
}

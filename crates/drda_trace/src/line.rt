ghost use Rattle.std.specs.Prelude.{◌≡◌};
ghost use Rattle.drda_trace.specs.Lines.{is_sound};

use dss_frame::Side;

/// A line of a trace.
#[derive(Clone, Copy, Debug, PartialEq, Eq)]
pub(crate) enum Line {
    /// A chain of commands, numbered from 1.
    Chain {
        number: usize,
    },
    /// A request DSS: its correlation number, its code point, and how long its body is.
    Request {
        corr: u16,
        code: u16,
        len: usize,
    },
    /// An object DSS of a command. It has no code point where its body isn't one object.
    Object {
        corr: u16,
        code: Option<u16>,
        len: usize,
    },
    /// A DSS of the server.
    Reply {
        corr: u16,
        code: Option<u16>,
        len: usize,
    },
    /// A triplet of the DSS before: its length and its type.
    Triplet {
        len: usize,
        kind: u8,
    },
    /// The bytes go on with no triplet.
    TripletFault,
    /// A reply to this chain has a correlation number that is none of the chain's, or falls.
    Number {
        chain: usize,
    },
    /// No whole reply to this chain came.
    Unanswered {
        chain: usize,
    },
    /// So many chains of replies belong to no chain of commands.
    Extra {
        count: usize,
    },
    /// The bytes of this side have a fault at this place, with this SYNERRCD.
    Fault {
        side: Side,
        at: u64,
        err: u8,
    },
    /// So many bytes of this side are no whole chain.
    Rest {
        side: Side,
        count: u64,
    },
}

impl Line {
    /// Whether the line says that nothing is wrong.
    pub(crate) fn is_sound(self) -> bool
        ensures { result ≡ is_sound self }
    {
        matches!(
            self,
            Line::Chain { .. }
                | Line::Request { .. }
                | Line::Object { .. }
                | Line::Reply { .. }
                | Line::Triplet { .. }
        )
    }
}

use link_ends::{Octets, Sequence};

/// What a DSS holds.
#[derive(Clone, Copy, Debug, PartialEq, Eq)]
pub enum Kind {
    /// A command, from the requester.
    Request,
    /// A reply, from the server.
    Reply,
    /// Data of a command or of a reply.
    Object,
}

/// Whose DSSs are read.
#[derive(Clone, Copy, Debug, PartialEq, Eq)]
pub enum Side {
    /// Those of a requester: requests and objects.
    Requests,
    /// Those of a server: replies and objects.
    Replies,
}

/// One DSS (data stream structure).
#[derive(Debug, Drop)]
pub struct Dss {
    pub kind: Kind,
    /// Whether another DSS follows in the same chain.
    pub chained: bool,
    /// Whether the next DSS of the chain has the same correlation number.
    pub same: bool,
    /// Whether the chain goes on after an error in this DSS.
    pub go_on: bool,
    /// The correlation number.
    pub corr: u16,
    /// What stands behind the headers of its segments.
    pub body: Octets,
}

/// A DSS and where it begins.
#[derive(Debug, Drop)]
pub struct Placed {
    /// The place of its first byte among all bytes read. Places begin at 0, and stand still at the greatest u64.
    pub at: u64,
    pub dss: Dss,
}

/// A list of DSSs.
pub type DssList = Sequence<Dss>;

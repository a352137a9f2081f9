use crate::loss::{ErrorWord, LossWhy};
use link_ends::Octets;
use requester_core::Talk;
use server_list::Tried;
use unit_ledger::Outcome;

/// A transport that is lent to the session.
#[derive(Drop)]
pub struct Held {
    pub number: u64,
    pub member: u32,
    /// The conversation on it, once it is dialled.
    pub talk: Option<Talk>,
    /// The server released it at the end of a unit of work, or refused its user: it is to be given back.
    pub released: bool,
}

/// What was tried for the segment in work.
#[derive(Clone, Copy, Debug)]
pub struct Tries {
    /// The members that were.
    pub tried: Tried,
    /// Whether the next transport is to be dialled.
    pub fresh: bool,
}

/// What wasn't asked for yet.
#[derive(Drop)]
pub struct Unasked {
    /// The last list of members: the data of SRVLST (DRDA, volume 3).
    pub list: Option<Octets>,
    /// The last loss, with the number of its transport.
    pub loss: Option<(u64, LossWhy)>,
    /// The last error.
    pub word: Option<ErrorWord>,
    /// What was told last of the end of a unit of work.
    pub outcome: Option<Outcome>,
}

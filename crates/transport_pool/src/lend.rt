ghost use Rattle.std.specs.Prelude.{◌≡◌, ◌||◌, not};
ghost use Rattle.std.specs.List.{list_all, range_with_len};
ghost use Rattle.server_list.specs.Tried.{has_member};
ghost use Rattle.transport_pool.specs.Grants.{is_within};

use crate::grant::Grant;
use crate::terms::Terms;
use crate::transport::Transport;
use server_list::Tried;

/// What [`House::lend`](crate::House::lend) answers.
#[derive(Drop)]
pub enum Lend<L> {
    /// An idle transport.
    Idle(Transport<L>),
    /// The right to dial a transport.
    Dial(Grant),
    /// The session has to wait.
    Queue,
    /// All listed members are tried.
    NoneLeft(Listed),
    /// All numbers are drawn.
    Worn(Spent),
}

/// The listed members, of which all were tried. Only [`House::lend`](crate::House::lend) makes one.
#[derive(Drop)]
pub struct Listed {
    members: Tried,
    terms: Terms,
}

/// All numbers were drawn. Only [`House::lend`](crate::House::lend) makes one.
#[derive(Drop)]
pub struct Spent {
    terms: Terms,
}

impl Listed {
    /// These members are all tried on these terms.
    pub(crate) fn new(members: Tried, terms: Terms) -> Listed
        ensures { result ≡ record { members = members; terms = terms } }
    {
        Listed { members, terms }
    }

    /// Whether all listed members are among these.
    pub fn within(&self, tried: &Tried) -> bool
        ensures { result ≡ is_within self.now.members tried.now }
    {
        (1..33).all(|member| !self.members.has(member) || tried.has(member))
    }

    /// The arguments of the lend that answered with this.
    pub fn terms(&self) -> Terms
        ensures { result ≡ self.now.terms }
    {
        self.terms
    }
}

impl Spent {
    /// All numbers were drawn when these terms came.
    pub(crate) fn new(terms: Terms) -> Spent
        ensures { result ≡ record { terms = terms } }
    {
        Spent { terms }
    }

    /// The arguments of the lend that answered with this.
    pub fn terms(&self) -> Terms
        ensures { result ≡ self.now.terms }
    {
        self.terms
    }
}

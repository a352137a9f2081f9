ghost use Rattle.std.specs.Prelude.{◌≡◌};
ghost use Rattle.link_ends.specs.Link.{IsFresh};
ghost use Rattle.link_ends.specs.Prepared.{wire_state};

use crate::mem_link::MemLink;
use std::marker::Model;

/// A link in memory that nobody used.
#[derive(Debug, Drop)]
pub(crate) struct Unused {
    link: MemLink,
}

impl Model for Unused {
    ghost use Rattle.link_ends.specs.Link.{IsFresh};
    ghost use Rattle.link_ends.specs.Prepared.{Wire, wire_state};

    ghost Value = { Wire };

    ghost view = { λ u. u.link };

    ghost invariant = { λ u. IsFresh (wire_state u.link) };
}

impl Unused {
    pub(crate) fn new(link: MemLink) -> Unused
        requires { IsFresh (wire_state link) }
        ensures { result ≡ link }
    {
        Unused { link }
    }

    pub(crate) fn into_link(self) -> MemLink
        ensures link { result ≡ self }
        ensures fresh { IsFresh (wire_state result) }
    {
        let Unused { link } = self;
        link
    }
}

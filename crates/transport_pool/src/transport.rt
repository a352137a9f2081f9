ghost use Rattle.std.specs.Prelude.{◌≡◌, true};
ghost use Rattle.server_list.specs.Tried.{is_member};
ghost use Rattle.transport_pool.specs.Grants.{IsAtRest};

use crate::grant::Grant;
use crate::terms::Terms;
use access_handshake::Mark;
use std::marker::Model;

/// A link to a member under its number, at rest: its conversation is Attached, and nothing that was read is left over.
#[derive(Drop)]
pub struct Transport<L> {
    grant: Grant,
    link: L,
    mark: Mark,
}

impl<L> Model for Transport<L> {
    ghost use Rattle.transport_pool.specs.Grants.{Resting, IsAtRest};

    ghost Value = { Resting L };

    ghost view = { λ t. record {
      grant = t.grant;
      link = t.link;
      mark = t.mark;
    } };

    ghost invariant = { λ t. IsAtRest t.mark };
}

impl<L> Transport<L> {
    ghost use Rattle.transport_pool.specs.Grants.{Resting, IsAtRest};

    /// A link whose conversation stands at this mark, under the number that it was granted.
    pub fn rest(grant: Grant, link: L, mark: Mark) -> Transport<L>
        requires { IsAtRest mark }
        ensures { result ≡ record {
          grant = grant;
          link = link;
          mark = mark;
        } }
    {
        Transport { grant, link, mark }
    }

    /// The transport's number, from 1.
    pub fn number(&self) -> u64
        ensures { result ≡ self.now.grant.number }
    {
        self.grant.number()
    }

    /// The member's number, 1 to 32.
    pub fn member(&self) -> u32
        ensures member { result ≡ self.now.grant.member }
        ensures range { is_member result ≡ true }
    {
        self.grant.member()
    }

    /// The arguments of the lend that last answered with this transport.
    pub fn terms(&self) -> Terms
        ensures { result ≡ self.now.grant.terms }
    {
        self.grant.terms()
    }

    /// The conversation is Attached, and nothing that was read is left over.
    pub fn is_at_rest(&self)
        ensures { IsAtRest self.now.mark }
    {
        let _ = &self.mark;
    }

    /// The right to the number, and the link.
    pub fn into_parts(self) -> (Grant, L)
        ensures grant { result.0 ≡ self.grant }
        ensures link { result.1 ≡ self.link }
    {
        let Transport {
            grant,
            link,
            mark: _,
        } = self;
        (grant, link)
    }

    /// This transport, lent anew on these terms.
    pub(crate) fn lent_on(self, terms: Terms) -> Transport<L>
        ensures { result ≡ record self { grant = record self.grant { terms = terms } } }
    {
        let Transport { grant, link, mark } = self;
        Transport {
            grant: grant.lent_on(terms),
            link,
            mark,
        }
    }
}

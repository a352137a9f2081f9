ghost use Rattle.std.specs.Prelude.{◌≡◌, true};
ghost use Rattle.server_list.specs.Tried.{is_member};

use crate::terms::Terms;
use std::marker::Model;

/// The right to the transport of one number, to one member. Only [`House::lend`](crate::House::lend) makes one.
#[derive(Drop)]
pub struct Grant {
    number: u64,
    member: u32,
    terms: Terms,
}

impl Model for Grant {
    ghost use Rattle.transport_pool.specs.Grants.{Granted};

    ghost Value = { Granted };

    ghost use Rattle.std.specs.Prelude.{◌≡◌, true};
    ghost use Rattle.server_list.specs.Tried.{is_member};

    ghost view = { λ g. record {
      number = g.number;
      member = g.member;
      terms = g.terms;
    } };

    ghost invariant = { λ g. is_member g.member ≡ true };
}

impl Grant {
    /// The right to this transport of this member, lent on these terms.
    pub(crate) fn new(number: u64, member: u32, terms: Terms) -> Grant
        requires { is_member member ≡ true }
        ensures { result ≡ record {
          number = number;
          member = member;
          terms = terms;
        } }
    {
        Grant {
            number,
            member,
            terms,
        }
    }

    /// The transport's number, from 1.
    pub fn number(&self) -> u64
        ensures { result ≡ self.now.number }
    {
        self.number
    }

    /// The member's number, 1 to 32.
    pub fn member(&self) -> u32
        ensures member { result ≡ self.now.member }
        ensures range { is_member result ≡ true }
    {
        self.member
    }

    /// The arguments of the lend that last answered with this right.
    pub fn terms(&self) -> Terms
        ensures { result ≡ self.now.terms }
    {
        self.terms
    }

    /// This right, lent anew on these terms.
    pub(crate) fn lent_on(self, terms: Terms) -> Grant
        ensures { result ≡ record self { terms = terms } }
    {
        Grant {
            number: self.number,
            member: self.member,
            terms,
        }
    }
}

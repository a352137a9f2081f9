ghost use Rattle.std.specs.Prelude.{◌≡◌, ℕ, ◌<◌, ◌≤◌, ◌==◌, ◌||◌, ◌&&◌};
ghost use Rattle.server_list.specs.Tried.{is_member, has_member, with_member};

use std::marker::Model;

/// How many members a group has at most. They are numbered from 1.
pub(crate) const MEMBERS: u32 = 32;

/// A set of members.
#[derive(Clone, Copy, Debug)]
pub struct Tried {
    members: u32,
}

impl Model for Tried {
    ghost use Rattle.std.specs.Prelude.{ℕ, ◌<◌};

    ghost Value = { ℕ };

    ghost view = { λ t. t.members };

    ghost inverse = { λ members. record { members = members } };
}

impl Tried {
    /// No members.
    pub fn none() -> Tried
        ensures { result ≡ 0 }
    {
        Tried { members: 0 }
    }

    /// These members, and the one with this number.
    pub fn with(self, member: u32) -> Tried
        requires low { 1 ≤ member }
        requires high { member ≤ 32 }
        ensures { result ≡ with_member self member }
    {
        Tried {
            members: self.members | 1 << (member - 1),
        }
    }

    /// Whether the member with this number is one of them. A number that isn't 1 to 32 is none.
    pub fn has(&self, member: u32) -> bool
        ensures { result ≡ has_member self.now member }
    {
        is_member(member) && self.members >> (member - 1) & 1 == 1
    }
}

/// Whether this is the number of a member: 1 to 32.
pub(crate) fn is_member(number: u32) -> bool
    ensures { result ≡ is_member number }
{
    1 <= number && number <= MEMBERS
}

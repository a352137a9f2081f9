ghost use Rattle.std.specs.Prelude.{◌≡◌};
ghost use Rattle.server_list.specs.Tried.{is_member};

use server_list::ServerList;
use std::marker::Model;

/// How many members there are at most.
const MEMBERS: usize = 32;

/// The lists of members that members send, one for each at most. DRDA, volume 3, SRVLST.
#[derive(Clone, Copy, Debug)]
pub struct SentLists {
    lists: [Option<ServerList>; 32],
    none: ServerList,
}

impl Model for SentLists {
    ghost use Rattle.std.specs.Prelude.{List, Option};
    ghost use Rattle.server_list.specs.Lists.{Listing};

    ghost Value = { List (Option Listing) };

    ghost use Rattle.gateway_setup.specs.Inside.{lists_in, inside_of, IsKept, inside_is_kept};

    ghost view = { lists_in };

    ghost invariant = { IsKept };

    ghost inverse = { inside_of };

    ghost inverse_ok = { inside_is_kept };
}

impl SentLists {
    ghost use Rattle.gateway_setup.specs.Sent.{nothing_sent, list_of, is_free, with_sent};

    /// No member sends a list.
    pub fn new() -> SentLists
        ensures { result ≡ nothing_sent }
    {
        SentLists {
            lists: [None; MEMBERS],
            none: ServerList::new(),
        }
    }

    /// Lets a member send this list. Answers false, and changes nothing, exactly where the member's number isn't 1 to 32 or
    /// the member has a list, whatever rows that has.
    pub fn set(&mut self, member: u32, list: ServerList) -> bool
        ensures answer { result ≡ is_free self.old member }
        ensures lists { self.new ≡ with_sent self.old member list }
    {
        if !self.is_free(member) {
            return false;
        }
        self.lists[member as usize - 1] = Some(list);
        true
    }

    /// Whether this is a member's number, and the member has no list.
    fn is_free(&self, member: u32) -> bool
        ensures { result ≡ is_free self.now member }
    {
        is_member(member) && self.lists[member as usize - 1].is_none()
    }

    /// What a member sends: a list without rows where none was set.
    pub fn of(&self, member: u32) -> &ServerList
        ensures { result.now ≡ list_of self.now member }
    {
        if !is_member(member) {
            return &self.none;
        }
        match &self.lists[member as usize - 1] {
            Some(list) => list,
            None => &self.none,
        }
    }
}

/// Whether this is the number of a member.
fn is_member(number: u32) -> bool
    ensures { result ≡ is_member number }
{
    1 <= number && number <= 32
}

ghost use Rattle.std.specs.Prelude.{◌≡◌, ℕ, ◌<◌, ◌≤◌, ◌==◌, [], ◌∷◌, ◌++◌, length, take, slice_get, true, false, MatchBool, IfSome};
ghost use Rattle.std.specs.List.{All, list_any};

use crate::tried::{MEMBERS, is_member};
use std::marker::Model;

/// A member, and how much of the load it is to have compared with the others. One of weight 0 has none while another can
/// be chosen.
#[derive(Clone, Copy, Debug)]
pub struct ServerRow {
    pub member: u32,
    pub weight: u16,
}

/// What stands in a row that is not used.
const BLANK: ServerRow = ServerRow {
    member: 0,
    weight: 0,
};

/// Members of a group, each at most once, with their weights, in the order in which they are preferred. Of two lists the
/// one with the greater number is the newer; a list without a number has 0.
#[derive(Clone, Copy, Debug)]
pub struct ServerList {
    rows: [ServerRow; 32],
    len: usize,
    number: u32,
}

impl Model for ServerList {
    ghost use Rattle.std.specs.Prelude.{ℕ};
    ghost use Rattle.server_list.specs.Lists.{Listing};

    ghost Value = { Listing };

    ghost use Rattle.server_list.specs.Inside.{listing_of, inside_of, IsKept, inside_is_kept};

    ghost view = { listing_of };

    ghost invariant = { IsKept };

    ghost inverse = { inside_of };

    ghost inverse_ok = { inside_is_kept };
}

impl ServerList {
    ghost use Rattle.server_list.specs.Lists.{Listing, no_rows, is_listable, with_row, is_listed, IsSound};

    /// No rows, and no number.
    pub fn new() -> ServerList
        ensures { result ≡ no_rows }
    {
        ServerList {
            rows: [BLANK; 32],
            len: 0,
            number: 0,
        }
    }

    /// Adds a row at the end. Answers false, and adds nothing, where its number isn't 1 to 32 or is there already.
    pub fn push(&mut self, row: ServerRow) -> bool
        ensures added { result ≡ is_listable self.old.rows row.member }
        ensures list { self.new ≡ with_row self.old row }
    {
        if !self.can_add(row.member) {
            return false;
        }
        self.rows[self.len] = row;
        self.len += 1;
        true
    }

    /// Whether a row with this member can be added.
    fn can_add(&self, member: u32) -> bool
        ensures { result ≡ is_listable self.now.rows member }
    {
        is_member(member) && !self.has(member)
    }

    /// Whether a row has this member.
    pub fn has(&self, member: u32) -> bool
        ensures { result ≡ is_listed self.now.rows member }
    {
        self.rows().iter().any(|row| member == row.member)
    }

    /// The rows, in order.
    pub fn rows(&self) -> &[ServerRow]
        ensures rows { result.now ≡ self.now.rows }
        ensures numbered { All (λ row. 1 ≤ row.member) self.now.rows }
        ensures members { All (λ row. row.member ≤ 32) self.now.rows }
    {
        &self.rows[..self.len]
    }

    /// How many rows there are.
    pub fn len(&self) -> usize
        ensures len { result ≡ length self.now.rows }
        ensures most { result ≤ 32 }
    {
        self.len
    }

    /// Whether there are none.
    pub fn is_empty(&self) -> bool
        ensures { result ≡ (length self.now.rows == 0) }
    {
        self.len == 0
    }

    /// The row at this place, from 0. `None` where there are no more rows.
    pub fn row(&self, i: usize) -> Option<ServerRow>
        ensures { result ≡ slice_get self.now.rows i }
    {
        self.rows().get(i).copied()
    }

    /// The list's number, and 0 where it has none.
    pub fn number(&self) -> u32
        ensures { result ≡ self.now.number }
    {
        self.number
    }

    /// Gives the list this number.
    pub fn set_number(&mut self, number: u32)
        ensures { self.new ≡ record self.old { number = number } }
    {
        self.number = number;
    }

    /// Each row's number is 1 to 32, and no two are equal.
    pub fn is_sound(&self)
        ensures { IsSound self.now.rows }
    {
        let _ = &self.len;
    }
}

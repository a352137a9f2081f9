ghost use Rattle.std.specs.Prelude.{◌≡◌, ◌≤◌, ◌++◌, ◌∷◌, [], drop, vec_capacity, slice_get, option_copied, IfOk, OnOk, OnErr};
ghost use Rattle.std.specs.Result.{result_ok};
ghost use Rattle.link_ends.specs.Link.{IsFresh};
ghost use Rattle.link_ends.specs.Doors.{after_taking, after_back};
ghost use Rattle.link_ends.specs.Prepared.{wire_state, entrance_state};

use crate::door::Door;
use crate::mem_link::MemLink;
use crate::octets::NoMemory;
use crate::source::Failed;
use crate::unused::Unused;
use std::alloc::Global;
use std::collections::VecDeque;
use std::marker::Model;

/// A door over links that are prepared in memory. It gives them in the order in which they were added, fails where none is left,
/// and keeps what comes back.
#[derive(Debug, Drop)]
pub struct MemDoor<B> {
    prepared: VecDeque<Unused>,
    given: u64,
    faults: u64,
    came: Vec<B>,
}

impl<B> Model for MemDoor<B> {
    ghost use Rattle.std.specs.Prelude.{◌+◌, ◌≤◌, vec_capacity};
    ghost use Rattle.std.specs.VecDeque.{deque_len};
    ghost use Rattle.link_ends.specs.Prepared.{Entrance};

    ghost Value = { Entrance B };

    ghost view = { λ d. record { prepared = d.prepared.items; given = d.given; faults = d.faults; came = d.came.items } };

    // (a place is kept for each value that may come back)
    ghost invariant = { λ d. d.given + deque_len d.prepared ≤ vec_capacity d.came };
}

impl<B: Drop> MemDoor<B> {
    /// No link is prepared, and none was given.
    pub fn new(alloc: Global) -> MemDoor<B>
        ensures { result ≡ record { prepared = []; given = 0; faults = 0; came = [] } }
    {
        MemDoor {
            prepared: VecDeque::new(alloc),
            given: 0,
            faults: 0,
            came: Vec::new(alloc),
        }
    }

    /// Prepares this link, which nobody used, and a place for what comes back of it. It is dropped where memory runs out.
    pub fn add(&mut self, link: MemLink) -> Result<(), NoMemory>
        requires { IsFresh (wire_state link) }
        ensures ok { OnOk result (self.new ≡ record self.old { prepared = self.old.prepared ++ link ∷ [] }) }
        ensures err { OnErr result (self.new ≡ self.old) }
    {
        let places = self.given as usize + self.prepared.len() + 1;
        keep_places(&mut self.came, places)?;
        self.prepared.push_back(Unused::new(link))?;
        Ok(())
    }

    /// The value of this number, from 0, of those that came back, or `None` exactly where there are no more than `i`.
    pub fn served(&self, i: usize) -> Option<&B>
        ensures { option_copied result ≡ slice_get self.now.came i }
    {
        self.came.get(i)
    }
}

impl<B: Drop> Door for MemDoor<B> {
    type L = MemLink;

    type Back = B;

    ghost state = { entrance_state };

    fn take(&mut self) -> Result<MemLink, Failed>
        ensures link { result_ok result ≡ slice_get self.old.prepared 0 }
        ensures rest { self.new.prepared ≡ drop 1 self.old.prepared }
        ensures state { entrance_state self.new ≡ after_taking result (entrance_state self.old) }
        ensures fresh { IfOk result (λ link. IsFresh (wire_state link)) }
    {
        match self.prepared.pop_front() {
            Some(link) => {
                self.given = self.given.saturating_add(1);
                Ok(link.into_link())
            }
            None => {
                self.faults = self.faults.saturating_add(1);
                Err(Failed)
            }
        }
    }

    fn back(&mut self, done: B)
        ensures prepared { self.new.prepared ≡ self.old.prepared }
        ensures state { entrance_state self.new ≡ after_back done (entrance_state self.old) }
    {
        if (self.came.len() as u64) < self.given {
            self.came.push_reserved(done);
        }
    }
}

/// Takes the memory for so many values in all, of which no more than there is memory for are there already.
fn keep_places<B: Drop>(came: &mut Vec<B>, places: usize) -> Result<(), NoMemory>
    ensures items { came.new.items ≡ came.old.items }
    ensures keeps { vec_capacity came.old ≤ vec_capacity came.new }
    ensures places { OnOk result (places ≤ vec_capacity came.new) }
{
    if places > came.capacity() {
        came.reserve(places - came.len())?;
    }
    Ok(())
}

ghost use Rattle.std.specs.Prelude.{◌≡◌, ℕ, ◌+◌, ◌<◌, ◌≤◌, [], ◌∷◌, ◌++◌, length, slice_get, IfOk};
ghost use Rattle.std.specs.Option.{option_copied};

use crate::entry::{PoolAnswer, PoolCall, PoolEntry};
use crate::pool::Pool;
use link_ends::NoMemory;
use std::alloc::Global;
use std::collections::VecDeque;
use std::marker::Model;

/// How many entries a journal keeps.
const MOST_ENTRIES: usize = 65_536;

/// The last calls of a pool with their answers, the oldest first, and the pool as it stood before the oldest of them.
#[derive(Drop)]
pub struct Journal {
    start: Pool,
    entries: VecDeque<PoolEntry>,
}

impl Model for Journal {
    ghost use Rattle.transport_pool.specs.Journal.{JournalState};

    ghost Value = { JournalState };

    ghost use Rattle.transport_pool.specs.JournalInside.{journal_of, IsKeptJournal};

    ghost view = { journal_of };

    ghost invariant = { IsKeptJournal };
}

impl Journal {
    ghost use Rattle.transport_pool.specs.Journal.{JournalState, forgotten, with_room, with_entry, most_entries};

    /// No entries yet, from this pool on.
    pub(crate) fn new(alloc: Global, start: Pool) -> Result<Journal, NoMemory>
        ensures { IfOk result (λ journal. journal ≡ record { start = start; entries = [] }) }
    {
        let entries = VecDeque::with_capacity(alloc, MOST_ENTRIES)?;
        Ok(Journal { start, entries })
    }

    /// How many entries there are.
    pub fn len(&self) -> usize
        ensures { result ≡ length self.now.entries }
    {
        self.entries.len()
    }

    /// The entry at this place, the oldest at 0. `None` where there are no more.
    pub fn get(&self, i: usize) -> Option<&PoolEntry>
        ensures { option_copied result ≡ slice_get self.now.entries i }
    {
        self.entries.get(i)
    }

    /// Lets the start take in the oldest entry.
    fn forget_oldest(&mut self)
        ensures gone { self.new ≡ forgotten self.old.start self.old.entries }
        ensures shorter { 0 < length self.old.entries → length self.new.entries < length self.old.entries }
    {
        if let Some(oldest) = self.entries.pop_front() {
            self.start.step(&oldest.call);
        }
    }

    /// Makes room for an entry: where the journal is full the oldest one is forgotten.
    fn make_room(&mut self)
        ensures made { self.new ≡ with_room self.old }
        ensures room { length self.new.entries < most_entries }
    {
        if self.entries.len() >= MOST_ENTRIES {
            self.forget_oldest();
        }
    }

    /// Puts a call with its answer behind the others.
    fn push(&mut self, call: PoolCall, answer: PoolAnswer)
        requires { length self.old.entries < most_entries }
        ensures { self.new ≡ record self.old { entries = self.old.entries ++ record { call = call; answer = answer } ∷ [] } }
    {
        self.entries.push_back_reserved(PoolEntry { call, answer });
    }

    /// Adds a call with its answer. Where the journal is full the oldest entry is forgotten.
    pub(crate) fn add(&mut self, call: PoolCall, answer: PoolAnswer)
        ensures { self.new ≡ with_entry self.old (record { call = call; answer = answer }) }
    {
        self.make_room();
        self.push(call, answer);
    }
}

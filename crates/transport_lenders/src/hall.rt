use crate::shelf::Shelf;
use link_ends::Link;
use server_list::Tried;
use std::sync::ledger::Ledger;
use std::sync::{Condvar, Mutex, MutexGuard, Wait};

/// A pool behind a lock, and the word that a transport or a place came free.
#[derive(Drop)]
pub struct Hall<L, X: Ledger, Y: Ledger> {
    pub(crate) shelf: Mutex<Shelf<L, X, Y>>,
    pub(crate) freed: Condvar,
}

impl<L: Link, X: Ledger, Y: Ledger> Hall<L, X, Y> {
    /// This pool, behind a lock.
    pub fn new(shelf: Shelf<L, X, Y>) -> Hall<L, X, Y> {
        Hall {
            shelf: Mutex::new(shelf),
            freed: Condvar::new(),
        }
    }

    /// The number of the next session, while there is one.
    pub fn ticket<R: Wait>(&self, rt: &R) -> Option<u32> {
        self.shelf.lock(rt).ticket()
    }

    /// The pool, behind a lock no more.
    pub fn into_shelf(self) -> Shelf<L, X, Y> {
        let Hall { shelf, freed: _ } = self;
        shelf.into_inner()
    }

    /// Waits until a lend wouldn't have this session wait.
    pub(crate) fn wait<'a, R: Wait>(
        &'a self,
        rt: &R,
        shelf: MutexGuard<'a, Shelf<L, X, Y>>,
        session: u32,
        tried: Tried,
    ) -> MutexGuard<'a, Shelf<L, X, Y>> {
        let mut shelf = shelf;
        for _ in rt.forever() {
            shelf = self.freed.wait(rt, shelf);
            if !shelf.queues(session, tried) {
                return shelf;
            }
        }
        unreachable!()
    }
}

ghost use Rattle.std.specs.Prelude.{◌≡◌, ℕ, ◌+◌, ◌<◌, ◌≤◌, [], ◌∷◌, ◌++◌, length, IfOk};
ghost use Rattle.transport_pool.specs.Journal.{dials_after, reuses_after};
ghost use Rattle.transport_pool.specs.Steps.{pool_step};

use crate::entry::{PoolAnswer, PoolCall};
use crate::journal::Journal;
use crate::pool::Pool;
use link_ends::NoMemory;
use server_list::ServerList;
use std::alloc::Global;
use std::marker::Model;

/// A pool as plain numbers, with its journal and its counts.
#[derive(Drop)]
pub struct Decisions {
    pool: Pool,
    journal: Journal,
    calls: u64,
    dials: u64,
    reuses: u64,
}

impl Model for Decisions {
    ghost use Rattle.transport_pool.specs.Journal.{Decided, Leads};

    ghost Value = { Decided };

    ghost view = { λ d. record {
      pool = d.pool;
      journal = d.journal;
      calls = d.calls;
      dials = d.dials;
      reuses = d.reuses;
    } };

    ghost invariant = { λ d. Leads d.journal.start d.journal.entries d.pool };
}

impl Decisions {
    ghost use Rattle.transport_pool.specs.Journal.{Decided, nothing_decided, Leads, decided_after, with_entry, dials_after, reuses_after};

    /// A pool without transports, in which so many may be lent, with this list. Nothing was decided.
    pub fn new(alloc: Global, cap: usize, list: &ServerList) -> Result<Decisions, NoMemory>
        requires { cap ≤ 32 }
        ensures { IfOk result (λ decisions. decisions ≡ nothing_decided cap list.now) }
    {
        let pool = Pool::new(alloc, cap, list)?;
        let start = Pool::new(alloc, cap, list)?;
        let journal = Journal::new(alloc, start)?;
        Ok(Decisions {
            pool,
            journal,
            calls: 0,
            dials: 0,
            reuses: 0,
        })
    }

    /// The pool now.
    pub fn pool(&self) -> &Pool
        ensures { result.now ≡ self.now.pool }
    {
        &self.pool
    }

    /// The last calls with their answers.
    pub fn journal(&self) -> &Journal
        ensures { result.now ≡ self.now.journal }
    {
        &self.journal
    }

    /// How many calls there were. The count stays at the greatest value.
    pub fn calls(&self) -> u64
        ensures { result ≡ self.now.calls }
    {
        self.calls
    }

    /// How many calls were answered Dial. The count stays at the greatest value.
    pub fn dials(&self) -> u64
        ensures { result ≡ self.now.dials }
    {
        self.dials
    }

    /// How many calls were answered Idle. The count stays at the greatest value.
    pub fn reuses(&self) -> u64
        ensures { result ≡ self.now.reuses }
    {
        self.reuses
    }

    /// The steps of the journal's calls have its answers, and lead from the pool before the oldest of them to the pool now.
    pub fn journal_leads(&self)
        ensures { Leads self.now.journal.start self.now.journal.entries self.now.pool }
    {
        let _ = &self.pool;
    }

    /// Takes a call, and keeps it with its answer.
    pub fn decide(&mut self, call: PoolCall) -> PoolAnswer
        ensures answer { result ≡ (pool_step self.old.pool call).answer }
        ensures decided { self.new ≡ decided_after self.old call }
    {
        let answer = self.pool.step(&call);
        self.journal.add(call, answer);
        self.calls = self.calls.saturating_add(1);
        self.dials = dials_after(answer, self.dials);
        self.reuses = reuses_after(answer, self.reuses);
        answer
    }
}

/// A count of dials after an answer.
fn dials_after(answer: PoolAnswer, count: u64) -> u64
    ensures { result ≡ dials_after answer count }
{
    match answer {
        PoolAnswer::Dial { .. } => count.saturating_add(1),
        _ => count,
    }
}

/// A count of reuses after an answer.
fn reuses_after(answer: PoolAnswer, count: u64) -> u64
    ensures { result ≡ reuses_after answer count }
{
    match answer {
        PoolAnswer::Idle { .. } => count.saturating_add(1),
        _ => count,
    }
}

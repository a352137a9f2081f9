//! What all workers did, put together.
ghost use Rattle.std.specs.Prelude.{◌≡◌, ◌+◌, ◌||◌, min, map, vec_len, IfOk};
ghost use Rattle.std.specs.List.{sum_by, list_any};
ghost use Rattle.link_ends.specs.Counts.{greatest};
ghost use Rattle.gateway_workers.specs.Workers.{ends_after};

use crate::jobs::{Job, Worked, WorkerEnds};
use link_ends::{Link, NoMemory};
use std::alloc::Global;
use std::sync::ledger::{Ledger, Share};
use transport_lenders::Shelf;

/// What was served.
#[derive(Drop)]
pub struct Served<D, N> {
    /// How many links the doors gave.
    pub sessions: u64,
    /// The pool's calls, and its lends that were answered Dial.
    pub calls: u64,
    pub dials: u64,
    /// Whether a door failed.
    pub door_failed: bool,
    /// Whether a worker found no memory.
    pub refused: bool,
    /// The ends, as the workers left them.
    pub ends: Vec<WorkerEnds<D, N>>,
}

/// What was counted so far. Its shares have the parts of the workers that were counted.
#[derive(Drop)]
struct Counted<X: Ledger, Y: Ledger> {
    calls: Share<X>,
    dials: Share<Y>,
    sessions: u64,
    door_failed: bool,
    refused: bool,
}

/// Adds what one worker counted, and answers its ends.
fn add<D, N, X: Ledger, Y: Ledger>(
    counted: &mut Counted<X, Y>,
    worked: Worked<D, N, X, Y>,
) -> WorkerEnds<D, N>
    ensures ends { result ≡ ends_after worked }
    ensures calls { (counted.new.calls.parts ≡ counted.old.calls.parts + 1) × (counted.new.calls.amount ≡ counted.old.calls.amount + worked.job.calls.amount) }
    ensures dials { (counted.new.dials.parts ≡ counted.old.dials.parts + 1) × (counted.new.dials.amount ≡ counted.old.dials.amount + worked.job.dials.amount) }
    ensures sessions { counted.new.sessions ≡ min (counted.old.sessions + worked.sessions) greatest }
    ensures failed { counted.new.door_failed ≡ (counted.old.door_failed || worked.failed) }
    ensures refused { counted.new.refused ≡ (counted.old.refused || worked.refused) }
{
    let Worked {
        job,
        sessions,
        failed,
        refused,
    } = worked;
    let Job {
        door,
        dial,
        calls,
        dials,
    } = job;
    counted.calls.merge(calls);
    counted.dials.merge(dials);
    counted.sessions = counted.sessions.saturating_add(sessions);
    counted.door_failed = counted.door_failed | failed;
    counted.refused = counted.refused | refused;
    WorkerEnds { door, dial }
}

/// The ends and the counts of the workers, whose shares are put together.
pub(crate) fn settle<D: Drop, N: Drop, L: Link, X: Ledger, Y: Ledger>(
    alloc: Global,
    shelf: Shelf<L, X, Y>,
    worked: Vec<Worked<D, N, X, Y>>,
    calls: Share<X>,
    dials: Share<Y>,
) -> Result<Served<D, N>, NoMemory>
    requires calls { (calls.parts + vec_len worked ≡ X.parts) × (calls.amount ≡ 0) }
    requires dials { (dials.parts + vec_len worked ≡ Y.parts) × (dials.amount ≡ 0) }
    ensures calls { IfOk result (λ s. s.calls ≡ min (sum_by (λ w. w.job.calls.amount) worked.items) greatest) }
    ensures dials { IfOk result (λ s. s.dials ≡ min (sum_by (λ w. w.job.dials.amount) worked.items) greatest) }
    ensures sessions { IfOk result (λ s. s.sessions ≡ min (sum_by (λ w. w.sessions) worked.items) greatest) }
    ensures failed { IfOk result (λ s. s.door_failed ≡ list_any (λ w. w.failed) worked.items) }
    ensures refused { IfOk result (λ s. s.refused ≡ list_any (λ w. w.refused) worked.items) }
    ensures ends { IfOk result (λ s. s.ends.items ≡ map ends_after worked.items) }
{
    let mut shelf = shelf;
    let mut counted = Counted {
        calls,
        dials,
        sessions: 0,
        door_failed: false,
        refused: false,
    };
    let mut ends = Vec::with_capacity(alloc, worked.len())?;
    for one in worked {
        ends.push_reserved(add(&mut counted, one));
    }
    let (calls, dials) = shelf.counts(&mut counted.calls, &mut counted.dials);
    Ok(Served {
        sessions: counted.sessions,
        calls,
        dials,
        door_failed: counted.door_failed,
        refused: counted.refused,
        ends,
    })
}

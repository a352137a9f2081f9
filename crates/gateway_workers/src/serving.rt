//! All workers, each over ends of its own, over one pool.
ghost use Rattle.std.specs.Prelude.{◌≡◌, ◌<◌, ℕ, map, vec_len, slice_index_or, IfOk, OnOk};
ghost use Rattle.std.specs.List.{All};
ghost use Rattle.gateway_workers.specs.Back.{IsServed};
ghost use Rattle.gateway_workers.specs.Dials.{HasDialled};
ghost use Rattle.gateway_workers.specs.Doors.{HasWorked};
ghost use Rattle.gateway_workers.specs.Workers.{ends_in, seen, WereServed};

use crate::gate::Gate;
use crate::jobs::{Job, Worked, WorkerEnds};
use crate::settling::{Served, settle};
use crate::worker::{Place, work};
use gateway_server::Done;
use link_ends::{Dial, Door, Link, NoMemory};
use reply_texts::RdbName;
use std::alloc::Global;
use std::marker::Brand;
use std::sync::Wait;
use std::sync::ledger::{Blank, Ledger, Share};
use std::thread;
use std::thread::Threads;
use transport_lenders::{Hall, Shelf};
use transport_pool::House;

/// A worker's job, with a part of each share of which nothing was counted.
fn make_job<D, N, X: Ledger, Y: Ledger>(
    ends: WorkerEnds<D, N>,
    calls: Share<X>,
    dials: Share<Y>,
) -> Job<D, N, X, Y>
    requires { (calls.parts ≡ 1) × (dials.parts ≡ 1) }
    ensures ends { ends_in result ≡ ends }
    ensures shares { (result.calls ≡ calls) × (result.dials ≡ dials) }
{
    let WorkerEnds { door, dial } = ends;
    Job {
        door,
        dial,
        calls,
        dials,
    }
}

/// A job for each worker, with one part of each share, of which nothing was counted.
fn make_jobs<D: Drop, N: Drop, X: Ledger, Y: Ledger>(
    alloc: Global,
    ends: Vec<WorkerEnds<D, N>>,
    calls: &mut Share<X>,
    dials: &mut Share<Y>,
) -> Result<Vec<Job<D, N, X, Y>>, NoMemory>
    requires calls { (calls.old.parts ≡ vec_len ends) × (calls.old.amount ≡ 0) }
    requires dials { (dials.old.parts ≡ vec_len ends) × (dials.old.amount ≡ 0) }
    ensures jobs { IfOk result (λ jobs. map ends_in jobs.items ≡ ends.items) }
    ensures len { IfOk result (λ jobs. vec_len jobs ≡ vec_len ends) }
    ensures none { IfOk result (λ jobs. All (λ job. job.dials.amount ≡ 0) jobs.items) }
    ensures calls { OnOk result ((calls.new.parts ≡ 0) × (calls.new.amount ≡ 0)) }
    ensures dials { OnOk result ((dials.new.parts ≡ 0) × (dials.new.amount ≡ 0)) }
{
    let mut jobs = Vec::with_capacity(alloc, ends.len())?;
    for one in ends {
        jobs.push_reserved(make_job(one, calls.split_off(1, 0), dials.split_off(1, 0)));
    }
    Ok(jobs)
}

/// What the workers did, in order.
fn run_jobs<
    R: Threads + Wait + Sync,
    A: Link + Send,
    D: Door<L = A, Back = Done<A>> + Send + Drop,
    K: Link + Send,
    N: Dial<L = K> + Send + Drop,
    G: Gate + Sync,
    X: Ledger + Send + Sync,
    Y: Ledger + Send + Sync,
>(
    rt: &R,
    place: &Place<'_, K, X, Y>,
    gate: &G,
    jobs: Vec<Job<D, N, X, Y>>,
) -> Result<Vec<Worked<D, N, X, Y>>, NoMemory>
    ensures len { IfOk result (λ all. vec_len all ≡ vec_len jobs) }
    ensures doors { IfOk result (λ all. (i : ℕ) (job : _) (worked : _) → i < vec_len jobs →
        HasWorked (IsServed A.state) (D.state (slice_index_or jobs.items i job).door) (D.state (slice_index_or all.items i worked).job.door)
        (slice_index_or all.items i worked).sessions (slice_index_or all.items i worked).failed (slice_index_or all.items i worked).refused) }
    ensures dials { IfOk result (λ all. (i : ℕ) (job : _) (worked : _) → i < vec_len jobs →
        HasDialled (N.state (slice_index_or jobs.items i job).dial).calls (slice_index_or jobs.items i job).dials.amount
        (N.state (slice_index_or all.items i worked).job.dial).calls (slice_index_or all.items i worked).job.dials.amount
        (slice_index_or all.items i worked).refused) }
{
    let worked = thread::map_vec(rt, jobs, &|job| work(rt, place, gate, job))?;
    Ok(worked)
}

/// Serves over two ledgers, which each have a part for each worker.
fn serve_all<
    R: Threads + Wait + Sync,
    A: Link + Send,
    D: Door<L = A, Back = Done<A>> + Send + Drop,
    K: Link + Send,
    N: Dial<L = K> + Send + Drop,
    G: Gate + Sync,
    X: Ledger + Send + Sync,
    Y: Ledger + Send + Sync,
>(
    rt: &R,
    alloc: Global,
    rdb: &RdbName,
    house: House<K>,
    ends: Vec<WorkerEnds<D, N>>,
    gate: &G,
    blanks: (Blank, Blank),
) -> Result<Served<D, N>, NoMemory>
    requires house { (house.decided.calls ≡ 0) × (house.decided.dials ≡ 0) }
    requires calls { (blanks.0.name ≡ X.name) × (blanks.0.parts ≡ X.parts) × (blanks.0.parts ≡ vec_len ends) }
    requires dials { (blanks.1.name ≡ Y.name) × (blanks.1.parts ≡ Y.parts) × (blanks.1.parts ≡ vec_len ends) }
    ensures { IfOk result (λ s. WereServed (IsServed A.state) (map (seen D.state (λ dial. (N.state dial).calls)) ends.items)
        (map (seen D.state (λ dial. (N.state dial).calls)) s.ends.items) s.sessions s.dials s.door_failed s.refused) }
{
    let (calls_book, mut calls) = blanks.0.open::<X>();
    let (dials_book, mut dials) = blanks.1.open::<Y>();
    let jobs = make_jobs(alloc, ends, &mut calls, &mut dials)?;
    let hall = Hall::new(Shelf::new(house, calls_book, dials_book));
    let place = Place {
        alloc,
        rdb,
        hall: &hall,
    };
    let worked = run_jobs(rt, &place, gate, jobs)?;
    let served = settle(alloc, hall.into_shelf(), worked, calls, dials)?;
    Ok(served)
}

/// Serves the links of the doors over one pool, each door by a worker of its own with a dial of its own, in a thread where there is one
/// to be had. A worker takes the number of the next session and the next link of its door, serves it by a run, and hands what comes of
/// it back to the door, until no number is left, its door fails, or it finds no memory; a link for which no run could be made is closed.
/// Its return isn't promised, since a peer may keep still.
///
/// After want of memory the pool and the ends are gone.
pub fn serve_links<
    R: Threads + Wait + Sync,
    A: Link + Send,
    D: Door<L = A, Back = Done<A>> + Send + Drop,
    K: Link + Send,
    N: Dial<L = K> + Send + Drop,
    G: Gate + Sync,
>(
    rt: &R,
    alloc: Global,
    rdb: &RdbName,
    house: House<K>,
    ends: Vec<WorkerEnds<D, N>>,
    gate: &G,
) -> Result<Served<D, N>, NoMemory>
    requires { (house.decided.calls ≡ 0) × (house.decided.dials ≡ 0) }
    ensures { IfOk result (λ s. WereServed (IsServed A.state) (map (seen D.state (λ dial. (N.state dial).calls)) ends.items)
        (map (seen D.state (λ dial. (N.state dial).calls)) s.ends.items) s.sessions s.dials s.door_failed s.refused) }
{
    let parts = ends.len() as u64;
    serve_all::<R, A, D, K, N, G, Brand, Brand>(
        rt,
        alloc,
        rdb,
        house,
        ends,
        gate,
        (Blank::new(parts), Blank::new(parts)),
    )
}

//! A worker: it takes links of its door, one after another, and serves each by a run of its own.
ghost use Rattle.std.specs.Prelude.{◌≡◌, IfSome, Some, false};
ghost use Rattle.link_ends.specs.Link.{IsFresh};
ghost use Rattle.gateway_workers.specs.Back.{IsServed, is_refused};
ghost use Rattle.gateway_workers.specs.Doors.{HandsBack, HasWorked};
ghost use Rattle.gateway_workers.specs.Dials.{HasDialled};

use crate::gate::Gate;
use crate::jobs::{Job, Worked};
use gateway_server::{Done, NotMade, Run, serve_session};
use gateway_session::End;
use link_ends::{Dial, Door, Link};
use reply_texts::RdbName;
use std::alloc::Global;
use std::sync::Wait;
use std::sync::ledger::{Ledger, Share};
use transport_lenders::{Hall, LockLender};

/// What all workers are given: the name of the database, and the pool.
#[derive(Drop)]
pub(crate) struct Place<'a, L, X: Ledger, Y: Ledger> {
    pub alloc: Global,
    pub rdb: &'a RdbName,
    pub hall: &'a Hall<L, X, Y>,
}

/// What serving one link leaves: its end, unless there was no memory for a run, and the worker's own.
struct One<A: Link, N, X: Ledger, Y: Ledger> {
    done: Option<Done<A>>,
    dial: N,
    calls: Share<X>,
    dials: Share<Y>,
    ghost call_part: { calls.parts ≡ 1 },
    ghost dial_part: { dials.parts ≡ 1 },
}

/// Serves one link.
fn serve_one<R: Wait, A: Link, N: Dial, X: Ledger, Y: Ledger>(
    rt: &R,
    place: &Place<N::L, X, Y>,
    id: u32,
    app: A,
    dial: N,
    calls: Share<X>,
    dials: Share<Y>,
) -> One<A, N, X, Y>
    requires parts { (calls.parts ≡ 1) × (dials.parts ≡ 1) }
    requires fresh { IsFresh (A.state app) }
    ensures served { IfSome result.done (λ done. IsServed A.state done) }
    ensures dials { HasDialled (N.state dial).calls dials.amount (N.state result.dial).calls result.dials.amount (is_refused result.done) }
{
    let lender = LockLender::new(rt, place.hall, calls, dials);
    match Run::new(place.alloc, id, place.rdb, app, lender, dial) {
        Ok(run) => {
            let mut run = run;
            serve_session(rt, &mut run);
            let (done, lender, dial) = run.into_parts();
            let (calls, dials) = lender.into_shares();
            One {
                done: Some(done),
                dial,
                calls,
                dials,
            }
        }
        Err(parts) => {
            let NotMade {
                app: _,
                lender,
                dial,
            } = parts;
            let (calls, dials) = lender.into_shares();
            One {
                done: None,
                dial,
                calls,
                dials,
            }
        }
    }
}

/// Hands a link back to its door, where a run served it, and says whether no memory was found.
fn hand_back<A: Link, D: Door<L = A, Back = Done<A>>>(door: &mut D, done: Option<Done<A>>) -> bool
    requires { IfSome done (λ done. IsServed A.state done) }
    ensures door { HandsBack (IsServed A.state) (D.state door.old) (D.state door.new) result }
    ensures refused { result ≡ is_refused done }
{
    let Some(done) = done else {
        return true;
    };
    let refused = matches!(done.end(), End::NoMemory);
    door.back(done);
    refused
}

/// Serves the link that a worker's door gave last, hands it back, and says whether no memory was found.
fn serve_next<R: Wait, A: Link, D: Door<L = A, Back = Done<A>>, N: Dial, X: Ledger, Y: Ledger>(
    rt: &R,
    place: &Place<N::L, X, Y>,
    id: u32,
    app: A,
    job: Job<D, N, X, Y>,
) -> (Job<D, N, X, Y>, bool)
    requires { IsFresh (A.state app) }
    ensures door { HandsBack (IsServed A.state) (D.state job.door) (D.state result.0.door) result.1 }
    ensures dials { HasDialled (N.state job.dial).calls job.dials.amount (N.state result.0.dial).calls result.0.dials.amount result.1 }
{
    let Job {
        door,
        dial,
        calls,
        dials,
    } = job;
    let One {
        done,
        dial,
        calls,
        dials,
    } = serve_one(rt, place, id, app, dial, calls, dials);
    let mut door = door;
    let refused = hand_back(&mut door, done);
    let job = Job {
        door,
        dial,
        calls,
        dials,
    };
    (job, refused)
}

/// Serves links until no session number is left, the door fails, or there is no memory.
pub(crate) fn work<
    R: Wait,
    A: Link,
    D: Door<L = A, Back = Done<A>>,
    N: Dial,
    G: Gate,
    X: Ledger,
    Y: Ledger,
>(rt: &R, place: &Place<N::L, X, Y>, gate: &G, job: Job<D, N, X, Y>) -> Worked<D, N, X, Y>
    ensures door { HasWorked (IsServed A.state) (D.state job.door) (D.state result.job.door) result.sessions result.failed result.refused }
    ensures dial { HasDialled (N.state job.dial).calls job.dials.amount (N.state result.job.dial).calls result.job.dials.amount result.refused }
{
    let mut job = job;
    let mut sessions: u64 = 0;
    let mut refused = false;
    for _ in rt.forever() {
        if refused {
            break;
        }
        let Some(id) = place.hall.ticket(rt) else {
            break;
        };
        let Ok(app) = job.door.take() else {
            return Worked {
                job,
                sessions,
                failed: true,
                refused,
            };
        };
        sessions = sessions.saturating_add(1);
        gate.at_session(id);
        let (next, found_none) = serve_next(rt, place, id, app, job);
        job = next;
        refused = found_none;
    }
    Worked {
        job,
        sessions,
        failed: false,
        refused,
    }
}

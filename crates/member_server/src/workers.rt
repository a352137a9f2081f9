ghost use Rattle.std.specs.Prelude.{◌≡◌, ◌<◌, ℕ, IfOk, OnOk, OnErr, vec_len, slice_index_or};
ghost use Rattle.member_server.specs.Doors.{IsServed, after_failing, after_serving, HasWorked};

use crate::session::{MemberEnd, member_session};
use link_ends::{Door, Failed, Link, NoMemory};
use plain_model::Group;
use std::alloc::Global;
use std::sync::{Mutex, Wait};
use std::thread;
use std::thread::Threads;

/// A door whose links were served, and what came of them.
#[derive(Drop)]
pub struct Worked<D> {
    pub door: D,
    /// How many links it gave in this call.
    pub sessions: u64,
    /// Whether a call of it failed.
    pub failed: bool,
    /// Whether a conversation ended for want of memory.
    pub wanted_memory: bool,
}

/// Serves the links of these doors, each door by a thread of its own where there is one to be had, all over one group's data
/// behind a lock. A worker ends where so many links were asked for in all, or a call of its door fails. Its return isn't promised,
/// since a peer may keep still.
pub fn serve_doors<
    R: Threads + Wait + Sync,
    A: Link + Send,
    D: Door<L = A, Back = A> + Send + Drop,
    G: Group + Send,
>(
    rt: &R,
    alloc: Global,
    store: &Mutex<G>,
    doors: Vec<D>,
    links: u32,
) -> Result<Vec<Worked<D>>, NoMemory>
where
    G::Unit: Send,
    ensures len { IfOk result (λ worked. vec_len worked ≡ vec_len doors) }
    ensures each { IfOk result (λ worked. (i : ℕ) (door : _) (one : _) → i < vec_len doors →
        HasWorked (IsServed A.state G.meaning) (D.state (slice_index_or doors.items i door)) (D.state (slice_index_or worked.items i one).door)
        (slice_index_or worked.items i one).sessions (slice_index_or worked.items i one).failed) }
{
    let left = Mutex::new(links);
    let worked = thread::map_vec(rt, doors, &|door| work(rt, alloc, store, &left, door))?;
    Ok(worked)
}

/// Serves one link after another of a door.
fn work<R: Wait, A: Link, D: Door<L = A, Back = A>, G: Group>(
    rt: &R,
    alloc: Global,
    store: &Mutex<G>,
    left: &Mutex<u32>,
    mut door: D,
) -> Worked<D>
    ensures { HasWorked (IsServed A.state G.meaning) (D.state door) (D.state result.door) result.sessions result.failed }
{
    let mut sessions: u64 = 0;
    let mut wanted_memory = false;
    for _ in rt.forever() {
        if !takes_one(rt, left) {
            break;
        }
        let Ok(wanted) = serve_next(rt, alloc, store, &mut door) else {
            return Worked {
                door,
                sessions,
                failed: true,
                wanted_memory,
            };
        };
        sessions = sessions.saturating_add(1);
        wanted_memory = wanted_memory || wanted;
    }
    Worked {
        door,
        sessions,
        failed: false,
        wanted_memory,
    }
}

/// Whether a link is left to be asked for. It counts as asked for then.
fn takes_one<R: Wait>(rt: &R, left: &Mutex<u32>) -> bool {
    let mut left = left.lock(rt);
    match left.checked_sub(1) {
        Some(fewer) => {
            *left = fewer;
            true
        }
        None => false,
    }
}

/// Serves the next link of a door and hands it back, and says whether memory was wanting.
fn serve_next<R: Wait, A: Link, D: Door<L = A, Back = A>, G: Group>(
    rt: &R,
    alloc: Global,
    store: &Mutex<G>,
    door: &mut D,
) -> Result<bool, Failed>
    ensures served { OnOk result ((link : A) × IsServed A.state G.meaning link × (D.state door.new ≡ after_serving link (D.state door.old))) }
    ensures failed { OnErr result (D.state door.new ≡ after_failing (D.state door.old)) }
{
    let mut link = door.take()?;
    let end = member_session(rt, alloc, store, &mut link);
    door.back(link);
    Ok(end == MemberEnd::NoMemory)
}

ghost use Rattle.std.specs.Prelude.{◌≡◌, ◌≢◌, ◌<◌, ◌≤◌, ◌⊎◌, true, false, Some, None, IfOk, IfSome, IsTrue, length, map, option_map, string_bytes};
ghost use Rattle.link_ends.specs.Counts.{greatest};
ghost use Rattle.program_ends.specs.Ends.{Took, BrokeOff, NoWriteFailed, Offered};
ghost use Rattle.gateway_workers.specs.Back.{IsServed};
ghost use Rattle.gateway_workers.specs.Workers.{WereServed};
ghost use Rattle.server_words.specs.Serve.{Serving, said_in};
ghost use Rattle.serve_command.specs.Serve.{usage_text, said_for, HasPool, serve_text, all_seen, Told, ToldAsSaid, DoorFailed, FaultsRose};

use crate::members::list_of;
use gateway_server::Done;
use gateway_workers::{Gate, Served, WorkerEnds, serve_links};
use link_ends::{Dial, Door, Link, NoMemory, Sink};
use program_ends::{Status, offer, write_all};
use server_words::{SERVE_USAGE, ServeWords, read_serve};
use std::alloc::Global;
use std::mem;
use std::sync::Wait;
use std::thread::Threads;
use transport_pool::House;

/// What the workers of all ends counted.
#[derive(Clone, Copy, Debug, PartialEq, Eq)]
struct Counted {
    /// The links that their doors gave, up to the greatest value.
    sessions: u64,
    /// The calls of the pool, up to the greatest value.
    calls: u64,
    /// The pool's lends that were answered Dial, up to the greatest value.
    dials: u64,
    /// Whether a door failed.
    door_failed: bool,
    /// Whether a worker found no memory.
    refused: bool,
}

/// Serves as many applications as the words say, over one pool of transports to their members, each end by a worker of its own, and
/// writes how many there were and how often the pool was called. The gate is called before each session. Its return isn't promised,
/// since a peer may keep still.
///
/// The answer is the status: 0 where as many sessions as the words say were served, and the text was taken; 1 where the words aren't
/// right, or the ends aren't as many as the workers, with the usage offered to the sink; 3 where a door failed, and 5 where memory ran
/// out, with nothing written; 4 where a write of the text failed or took nothing. After 5 there may be no ends.
pub fn serve<
    R: Threads + Wait + Sync,
    A: Link + Send,
    D: Door<L = A, Back = Done<A>> + Send + Drop,
    K: Link + Send,
    N: Dial<L = K> + Send + Drop,
    S: Sink,
    G: Gate + Sync,
>(
    rt: &R,
    alloc: Global,
    words: &[String],
    ends: &mut Vec<WorkerEnds<D, N>>,
    sink: &mut S,
    gate: &G,
) -> u8
    ensures done { result ≡ 0 → ToldAsSaid Took (IsServed A.state) (map string_bytes words.now)
        (all_seen D.state N.state ends.old.items) (all_seen D.state N.state ends.new.items)
        (S.state sink.old) (S.state sink.new) }
    ensures usage { result ≡ 1 → said_for (map string_bytes words.now) (length ends.old.items) ≡ None }
    ensures usage_told { result ≡ 1 → Offered (S.state sink.old) (S.state sink.new) usage_text }
    ensures unasked { result ≡ 1 → ends.new.items ≡ ends.old.items }
    ensures door_fault { result ≡ 3 → DoorFailed (IsServed A.state)
        (all_seen D.state N.state ends.old.items) (all_seen D.state N.state ends.new.items) }
    ensures sink_fault { result ≡ 4 → ToldAsSaid BrokeOff (IsServed A.state) (map string_bytes words.now)
        (all_seen D.state N.state ends.old.items) (all_seen D.state N.state ends.new.items)
        (S.state sink.old) (S.state sink.new) }
    ensures unwritten { (result ≡ 3) ⊎ (result ≡ 5) → S.state sink.new ≡ S.state sink.old }
    ensures statuses { (result ≤ 5) × (result ≢ 2) }

    // Where the words are right, there are ends for each worker, and no call of a door or of the sink fails, all are served.
    ensures serves { (said : Serving) → said_for (map string_bytes words.now) (length ends.old.items) ≡ Some said
        → (FaultsRose (all_seen D.state N.state ends.old.items) (all_seen D.state N.state ends.new.items) → ⊥)
        → NoWriteFailed (S.state sink.old) (S.state sink.new) → (result ≡ 0) ⊎ (result ≡ 5) }

    // Where they aren't, or there aren't, nothing is served.
    ensures refuses { said_for (map string_bytes words.now) (length ends.old.items) ≡ None → (result ≡ 1) ⊎ (result ≡ 5) }
{
    match said_for(alloc, words, ends.len()) {
        Ok(Some(said)) => serve_as_said(rt, alloc, &said, ends, sink, gate),
        Ok(None) => {
            offer(sink, SERVE_USAGE);
            Status::Usage as u8
        }
        Err(NoMemory) => Status::NoMemory as u8,
    }
}

/// What the words say where they are right, and as many ends as workers are there.
fn said_for(alloc: Global, words: &[String], ends: usize) -> Result<Option<ServeWords>, NoMemory>
    ensures said { IfOk result (λ said. option_map said_in said ≡ said_for (map string_bytes words.now) ends) }
    ensures pool { IfOk result (λ said. IfSome said HasPool) }
{
    match read_serve(alloc, words)? {
        Some(said) if said.workers as usize == ends => Ok(Some(said)),
        _ => Ok(None),
    }
}

/// Serves the links of the doors, and writes what there was of them.
fn serve_as_said<
    R: Threads + Wait + Sync,
    A: Link + Send,
    D: Door<L = A, Back = Done<A>> + Send + Drop,
    K: Link + Send,
    N: Dial<L = K> + Send + Drop,
    S: Sink,
    G: Gate + Sync,
>(
    rt: &R,
    alloc: Global,
    said: &ServeWords,
    ends: &mut Vec<WorkerEnds<D, N>>,
    sink: &mut S,
    gate: &G,
) -> u8
    requires { HasPool said.now }
    ensures done { result ≡ 0 → Told Took (IsServed A.state) said.now.sessions
        (all_seen D.state N.state ends.old.items) (all_seen D.state N.state ends.new.items)
        (S.state sink.old) (S.state sink.new) }
    ensures door_fault { result ≡ 3 → DoorFailed (IsServed A.state)
        (all_seen D.state N.state ends.old.items) (all_seen D.state N.state ends.new.items) }
    ensures sink_fault { result ≡ 4 → Told BrokeOff (IsServed A.state) said.now.sessions
        (all_seen D.state N.state ends.old.items) (all_seen D.state N.state ends.new.items)
        (S.state sink.old) (S.state sink.new) }
    ensures unwritten { (result ≡ 3) ⊎ (result ≡ 5) → S.state sink.new ≡ S.state sink.old }
    ensures statuses { (result ≡ 0) ⊎ ((result ≡ 3) ⊎ ((result ≡ 4) ⊎ (result ≡ 5))) }
{
    let counted = match serve_all(rt, alloc, said, ends, gate) {
        Ok(counted) => counted,
        Err(NoMemory) => return Status::NoMemory as u8,
    };
    if counted.door_failed {
        return Status::SourceFault as u8;
    }
    if !is_whole(counted, said.sessions) {
        return Status::NoMemory as u8;
    }
    tell(alloc, counted.sessions, counted.calls, sink)
}

/// Whether all sessions were served, and no worker found no memory.
fn is_whole(counted: Counted, sessions: u32) -> bool
    ensures { IsTrue result → (counted.sessions ≡ sessions) × (counted.refused ≡ false) }
{
    counted.sessions == u64::from(sessions) && !counted.refused
}

/// Serves the links of the doors over a new pool. The ends are there again afterwards.
fn serve_all<
    R: Threads + Wait + Sync,
    A: Link + Send,
    D: Door<L = A, Back = Done<A>> + Send + Drop,
    K: Link + Send,
    N: Dial<L = K> + Send + Drop,
    G: Gate + Sync,
>(
    rt: &R,
    alloc: Global,
    said: &ServeWords,
    ends: &mut Vec<WorkerEnds<D, N>>,
    gate: &G,
) -> Result<Counted, NoMemory>
    requires { HasPool said.now }
    ensures { IfOk result (λ counted. WereServed (IsServed A.state)
        (all_seen D.state N.state ends.old.items) (all_seen D.state N.state ends.new.items)
        counted.sessions counted.dials counted.door_failed counted.refused) }
{
    let list = list_of(said.weights.as_slice());
    let house = House::new(alloc, said.cap, &list, said.sessions)?;
    let taken = mem::replace(ends, Vec::new(alloc));
    let Served {
        sessions,
        calls,
        dials,
        door_failed,
        refused,
        ends: left,
    } = serve_links(rt, alloc, &said.rdb, house, taken, gate)?;
    *ends = left;
    Ok(Counted {
        sessions,
        calls,
        dials,
        door_failed,
        refused,
    })
}

/// Writes what was served.
fn tell<S: Sink>(alloc: Global, sessions: u64, calls: u64, sink: &mut S) -> u8
    ensures done { result ≡ 0 → Took (S.state sink.old) (S.state sink.new) (serve_text sessions calls) }
    ensures sink_fault { result ≡ 4 → BrokeOff (S.state sink.old) (S.state sink.new) (serve_text sessions calls) }
    ensures no_memory { result ≡ 5 → S.state sink.new ≡ S.state sink.old }
    ensures statuses { (result ≡ 0) ⊎ ((result ≡ 4) ⊎ (result ≡ 5)) }
{
    let Ok(text) = format!(in alloc; "sessions {sessions}\ncalls {calls}\n") else {
        return Status::NoMemory as u8;
    };
    match write_all(sink, text.as_bytes()) {
        Ok(()) => Status::Done as u8,
        Err(_) => Status::SinkFault as u8,
    }
}

ghost use Rattle.std.specs.Prelude.{◌≡◌, ◌≢◌, ◌<◌, ◌≤◌, ◌++◌, ◌⊎◌, ℕ, true, Some, None, IfOk, OnOk, IsTrue, length, map, min, option_map, string_bytes, vec_len};
ghost use Rattle.std.specs.List.{sum_by, list_any};
ghost use Rattle.link_ends.specs.Counts.{greatest};
ghost use Rattle.program_ends.specs.Ends.{Took, BrokeOff, NoWriteFailed, Offered};
ghost use Rattle.group_store.specs.Store.{store_meaning};
ghost use Rattle.member_server.specs.Doors.{IsServed};
ghost use Rattle.server_words.specs.Member.{Membership, said_in};
ghost use Rattle.drda_gateway.specs.Member.{usage_text, said_for, member_text, WereServed, Told, ToldAsSaid, DoorFailed, FaultsRose};

use group_store::Store;
use link_ends::{Door, Link, NoMemory, Sink};
use member_server::{Worked, serve_doors};
use program_ends::{Status, offer, write_all};
use server_words::{MEMBER_USAGE, MemberWords, User, read_member};
use std::alloc::Global;
use std::mem;
use std::sync::{Mutex, Wait};
use std::thread::Threads;

/// What the workers of all doors counted.
#[derive(Clone, Copy, Debug, PartialEq, Eq)]
struct Counted {
    /// The links that their doors gave, up to the greatest value.
    sessions: u64,
    /// Whether a door failed.
    failed: bool,
    /// Whether a conversation ended for want of memory.
    wanted_memory: bool,
}

/// Serves so many links as the words say as a small member, each door by a worker of its own, and writes how many there were and how
/// many units of work were committed. Its return isn't promised, since a peer may keep still.
///
/// The answer is the status: 0 where as many sessions as the words say were served, and the text was taken; 1 where the words aren't
/// right, or the doors aren't as many as the workers, with the usage offered to the sink; 3 where a door failed, and 5 where memory
/// ran out, with nothing written; 4 where a write of the text failed or took nothing. After 5 there may be no doors.
pub fn member<
    R: Threads + Wait + Sync,
    A: Link + Send,
    D: Door<L = A, Back = A> + Send + Drop,
    K: Sink,
>(rt: &R, alloc: Global, words: &[String], doors: &mut Vec<D>, sink: &mut K) -> u8
    ensures done { result ≡ 0 → ToldAsSaid Took (IsServed A.state store_meaning) (map string_bytes words.now)
        (map D.state doors.old.items) (map D.state doors.new.items) (K.state sink.old) (K.state sink.new) }
    ensures usage { result ≡ 1 → said_for (map string_bytes words.now) (length doors.old.items) ≡ None }
    ensures usage_told { result ≡ 1 → Offered (K.state sink.old) (K.state sink.new) usage_text }
    ensures unasked { result ≡ 1 → doors.new.items ≡ doors.old.items }
    ensures door_fault { result ≡ 3 → DoorFailed (IsServed A.state store_meaning) (map D.state doors.old.items) (map D.state doors.new.items) }
    ensures sink_fault { result ≡ 4 → ToldAsSaid BrokeOff (IsServed A.state store_meaning) (map string_bytes words.now)
        (map D.state doors.old.items) (map D.state doors.new.items) (K.state sink.old) (K.state sink.new) }
    ensures unwritten { (result ≡ 3) ⊎ (result ≡ 5) → K.state sink.new ≡ K.state sink.old }
    ensures statuses { (result ≤ 5) × (result ≢ 2) }

    // Where the words are right, there is a door for each worker, and no call of a door or of the sink fails, all are served.
    ensures serves { (said : Membership) → said_for (map string_bytes words.now) (length doors.old.items) ≡ Some said
        → (FaultsRose (map D.state doors.old.items) (map D.state doors.new.items) → ⊥)
        → NoWriteFailed (K.state sink.old) (K.state sink.new) → (result ≡ 0) ⊎ (result ≡ 5) }

    // Where they aren't, or there isn't, nothing is served.
    ensures refuses { said_for (map string_bytes words.now) (length doors.old.items) ≡ None → (result ≡ 1) ⊎ (result ≡ 5) }
{
    match said_for(alloc, words, doors.len()) {
        Ok(Some(said)) => serve(rt, alloc, &said, doors, sink),
        Ok(None) => {
            offer(sink, MEMBER_USAGE);
            Status::Usage as u8
        }
        Err(NoMemory) => Status::NoMemory as u8,
    }
}

/// What the words say where they are right, and as many doors as workers are there.
fn said_for(alloc: Global, words: &[String], doors: usize) -> Result<Option<MemberWords>, NoMemory>
    ensures { IfOk result (λ said. option_map said_in said ≡ said_for (map string_bytes words.now) doors) }
{
    match read_member(alloc, words)? {
        Some(said) if said.workers as usize == doors => Ok(Some(said)),
        _ => Ok(None),
    }
}

/// Serves the links of the doors, and writes what there was of them.
fn serve<R: Threads + Wait + Sync, A: Link + Send, D: Door<L = A, Back = A> + Send + Drop, K: Sink>(
    rt: &R,
    alloc: Global,
    said: &MemberWords,
    doors: &mut Vec<D>,
    sink: &mut K,
) -> u8
    ensures done { result ≡ 0 → Told Took (IsServed A.state store_meaning) said.now.sessions
        (map D.state doors.old.items) (map D.state doors.new.items) (K.state sink.old) (K.state sink.new) }
    ensures door_fault { result ≡ 3 → DoorFailed (IsServed A.state store_meaning) (map D.state doors.old.items) (map D.state doors.new.items) }
    ensures sink_fault { result ≡ 4 → Told BrokeOff (IsServed A.state store_meaning) said.now.sessions
        (map D.state doors.old.items) (map D.state doors.new.items) (K.state sink.old) (K.state sink.new) }
    ensures unwritten { (result ≡ 3) ⊎ (result ≡ 5) → K.state sink.new ≡ K.state sink.old }
    ensures statuses { (result ≡ 0) ⊎ ((result ≡ 3) ⊎ ((result ≡ 4) ⊎ (result ≡ 5))) }
{
    let (counted, commits) = match serve_all(rt, alloc, said, doors) {
        Ok(served) => served,
        Err(NoMemory) => return Status::NoMemory as u8,
    };
    if counted.failed {
        return Status::SourceFault as u8;
    }
    if !is_whole(counted, said.sessions) {
        return Status::NoMemory as u8;
    }
    tell(alloc, counted.sessions, commits, sink)
}

/// Whether all sessions were served, and none of them wanted memory.
fn is_whole(counted: Counted, sessions: u32) -> bool
    ensures { IsTrue result → (counted.sessions ≡ sessions) × (sessions < greatest) }
{
    counted.sessions == u64::from(sessions) && !counted.wanted_memory
}

/// A store with these users.
fn store_of(alloc: Global, users: &[User]) -> Result<Store, NoMemory> {
    let mut store = Store::new(alloc);
    for user in users {
        store.add_user(user.name.as_bytes(), user.password.as_bytes())?;
    }
    Ok(store)
}

/// Serves the links of the doors, which are there again afterwards, and tells the commits of the store too.
fn serve_all<R: Threads + Wait + Sync, A: Link + Send, D: Door<L = A, Back = A> + Send + Drop>(
    rt: &R,
    alloc: Global,
    said: &MemberWords,
    doors: &mut Vec<D>,
) -> Result<(Counted, u64), NoMemory>
    ensures { IfOk result (λ told. (sessions : ℕ) × (told.0.sessions ≡ min sessions greatest)
        × WereServed (IsServed A.state store_meaning) sessions told.0.failed (map D.state doors.old.items) (map D.state doors.new.items)) }
{
    let store = Mutex::new(store_of(alloc, &said.users)?);
    let taken = mem::replace(doors, Vec::new(alloc));
    let worked = serve_doors(rt, alloc, &store, taken, said.sessions)?;
    let counted = count(&worked);
    put_back(worked, doors)?;
    Ok((counted, store.into_inner().commits()))
}

/// Adds up what the workers counted.
fn count<D>(worked: &[Worked<D>]) -> Counted
    ensures sessions { result.sessions ≡ min (sum_by (λ one. one.sessions) worked.now) greatest }
    ensures failed { result.failed ≡ list_any (λ one. one.failed) worked.now }
{
    let mut sessions: u64 = 0;
    let mut failed = false;
    let mut wanted_memory = false;
    for one in worked {
        sessions = sessions.saturating_add(one.sessions);
        failed |= one.failed;
        wanted_memory |= one.wanted_memory;
    }
    Counted {
        sessions,
        failed,
        wanted_memory,
    }
}

/// Puts the doors of all workers back.
fn put_back<D: Drop>(worked: Vec<Worked<D>>, doors: &mut Vec<D>) -> Result<(), NoMemory>
    ensures { OnOk result (doors.new.items ≡ doors.old.items ++ map (λ one. one.door) worked.items) }
{
    for one in worked {
        doors.push(one.door)?;
    }
    Ok(())
}

/// Writes what was served.
fn tell<K: Sink>(alloc: Global, sessions: u64, commits: u64, sink: &mut K) -> u8
    ensures done { result ≡ 0 → Took (K.state sink.old) (K.state sink.new) (member_text sessions commits) }
    ensures sink_fault { result ≡ 4 → BrokeOff (K.state sink.old) (K.state sink.new) (member_text sessions commits) }
    ensures no_memory { result ≡ 5 → K.state sink.new ≡ K.state sink.old }
    ensures statuses { (result ≡ 0) ⊎ ((result ≡ 4) ⊎ (result ≡ 5)) }
{
    let Ok(text) = format!(in alloc; "sessions {sessions}\ncommits {commits}\n") else {
        return Status::NoMemory as u8;
    };
    match write_all(sink, text.as_bytes()) {
        Ok(()) => Status::Done as u8,
        Err(_) => Status::SinkFault as u8,
    }
}

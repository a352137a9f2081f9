ghost use Rattle.std.specs.Prelude.{◌≡◌, ◌≤◌, ◌<◌, ℕ, [], true, false, Some, None, if◌then◌else◌, length, take, drop, IfOk, IfErr, OnOk};
ghost use Rattle.link_ends.specs.Link.{LinkState};
ghost use Rattle.server_list.specs.Lists.{no_rows};
ghost use Rattle.member_core.specs.Conversation.{fresh};
ghost use Rattle.member_server.specs.declared.session.MemberEnd.TheVariants.{Dead};
ghost use Rattle.member_server.specs.Served.{Served, Going, Exchanged, Moved, Broke, SaysRest, after_found, counts_of};

use link_ends::{Failed, Link, NoMemory};
use member_core::Conversation;
use plain_model::Group;
use server_list::ServerList;
use std::alloc::Global;
use std::sync::{Mutex, Wait};

/// Why a conversation over a link ended.
#[derive(Clone, Copy, PartialEq, Eq, Debug)]
pub enum MemberEnd {
    /// The link's bytes came to their end, or it took none of a piece.
    Ended,
    /// A call of the link failed.
    Fault,
    /// The conversation answered a fault, and all that it answered is written.
    Dead,
    /// Memory ran out.
    NoMemory,
}

/// Serves a link by one conversation, which tells no list of members, until the link's bytes end, a call of it fails or takes
/// nothing, or the conversation is dead. Each piece that is read is taken over the data that are found under the lock, and what
/// it is answered is written before the next is read. The link isn't new: what is said is of the bytes that this call reads and
/// writes. Its return isn't promised, since a peer may keep still. DRDA, volume 1, units of work.
pub fn member_session<R: Wait, A: Link, G: Group>(
    rt: &R,
    alloc: Global,
    store: &Mutex<G>,
    app: &mut A,
) -> MemberEnd
    ensures { Served G.meaning (A.state app.old) (A.state app.new) result }
{
    match begin(rt, alloc, store) {
        Ok(conversation) => converse(rt, store, app, conversation),
        Err(NoMemory) => MemberEnd::NoMemory,
    }
}

/// A conversation in which nothing was said.
fn begin<R: Wait, G: Group>(
    rt: &R,
    alloc: Global,
    store: &Mutex<G>,
) -> Result<Conversation<G>, NoMemory>
    ensures { IfOk result (λ conversation. conversation ≡ fresh G.meaning no_rows) }
{
    let group = store.lock(rt);
    Conversation::new(alloc, &group, &ServerList::new())
}

/// Exchanges pieces until the conversation ends.
fn converse<R: Wait, A: Link, G: Group>(
    rt: &R,
    store: &Mutex<G>,
    app: &mut A,
    mut conversation: Conversation<G>,
) -> MemberEnd
    requires { conversation ≡ fresh G.meaning no_rows }
    ensures { Served G.meaning (A.state app.old) (A.state app.new) result }
{
    for _ in rt.forever() {
        if let Some(end) = exchange(rt, store, app, &mut conversation) {
            return end;
        }
    }
    unreachable!()
}

/// Reads a piece, takes it, and writes what it is answered. What is `None` goes on.
fn exchange<R: Wait, A: Link, G: Group>(
    rt: &R,
    store: &Mutex<G>,
    app: &mut A,
    conversation: &mut Conversation<G>,
) -> Option<MemberEnd>
    ensures { (old : LinkState) → Going G.meaning old (A.state app.old) conversation.old → Exchanged G.meaning old (A.state app.new) conversation.new result }
{
    let mut buf = [0u8; 4096];
    match hear(app, &mut buf) {
        Ok(count) => answer(rt, store, app, conversation, &buf[..count]),
        Err(end) => Some(end),
    }
}

/// Takes a piece that was read, and writes what it is answered.
fn answer<R: Wait, A: Link, G: Group>(
    rt: &R,
    store: &Mutex<G>,
    app: &mut A,
    conversation: &mut Conversation<G>,
    piece: &[u8],
) -> Option<MemberEnd>
    ensures { (old before : LinkState) → Going G.meaning old before conversation.old →
        Moved before (A.state app.old) piece.now [] (counts_of before) →
        Exchanged G.meaning old (A.state app.new) conversation.new result }
{
    let before = conversation.out().len();
    match take_found(rt, store, conversation, piece) {
        Ok(()) => say_rest(app, conversation, before),
        Err(NoMemory) => Some(MemberEnd::NoMemory),
    }
}

/// Takes a piece over the data that are found under the lock.
fn take_found<R: Wait, G: Group>(
    rt: &R,
    store: &Mutex<G>,
    conversation: &mut Conversation<G>,
    piece: &[u8],
) -> Result<(), NoMemory>
    ensures { OnOk result ((shared : G) × (conversation.new ≡ after_found G.meaning conversation.old (record { shared = shared; piece = piece.now }))) }
{
    let mut group = store.lock(rt);
    conversation.take(&mut group, piece)
}

/// Writes what was answered behind the first `before` bytes, and says whether the conversation has ended by that.
fn say_rest<A: Link, G: Group>(
    app: &mut A,
    conversation: &Conversation<G>,
    before: usize,
) -> Option<MemberEnd>
    requires { before ≤ length conversation.now.answered }
    ensures { SaysRest (A.state app.old) (A.state app.new) (drop before conversation.now.answered) conversation.now.dead result }
{
    match say(app, &conversation.out()[before..]) {
        Ok(()) => dead_end(conversation.dead()),
        Err(end) => Some(end),
    }
}

/// Whether a dead conversation has ended.
fn dead_end(dead: bool) -> Option<MemberEnd>
    ensures { result ≡ (if dead then Some Dead else None) }
{
    dead.then_some(MemberEnd::Dead)
}

/// Reads the next piece into the front of the buffer.
fn hear<A: Link>(app: &mut A, buf: &mut [u8]) -> Result<usize, MemberEnd>
    requires { 0 < length buf.old }
    ensures within { IfOk result (λ count. count ≤ length buf.new) }
    ensures heard { IfOk result (λ count. Moved (A.state app.old) (A.state app.new) (take count buf.new) [] (counts_of (A.state app.old))) }
    ensures broke { IfErr result (λ end. Broke (A.state app.old) (A.state app.new) end true []) }
{
    match app.read(buf) {
        Ok(0) => Err(MemberEnd::Ended),
        Ok(count) => Ok(count),
        Err(Failed) => Err(MemberEnd::Fault),
    }
}

/// Writes all of these bytes, in as many calls as the link needs.
fn say<A: Link>(app: &mut A, bytes: &[u8]) -> Result<(), MemberEnd>
    ensures said { OnOk result (Moved (A.state app.old) (A.state app.new) [] bytes.now (counts_of (A.state app.old))) }
    ensures broke { IfErr result (λ end. (written : ℕ) × Broke (A.state app.old) (A.state app.new) end false (take written bytes.now)) }
{
    let mut from = 0;
    while from < bytes.len() {
        from += write_some(app, &bytes[from..])?;
    }
    Ok(())
}

/// Writes the first bytes of a piece, in one call.
fn write_some<A: Link>(app: &mut A, piece: &[u8]) -> Result<usize, MemberEnd>
    requires { 0 < length piece.now }
    ensures within { IfOk result (λ count. (0 < count) × (count ≤ length piece.now)) }
    ensures said { IfOk result (λ count. Moved (A.state app.old) (A.state app.new) [] (take count piece.now) (counts_of (A.state app.old))) }
    ensures broke { IfErr result (λ end. Broke (A.state app.old) (A.state app.new) end false []) }
{
    match app.write(piece) {
        Ok(0) => Err(MemberEnd::Ended),
        Ok(count) => Ok(count),
        Err(Failed) => Err(MemberEnd::Fault),
    }
}

ghost use Rattle.std.specs.Prelude.{◌≡◌};
ghost use Rattle.gateway_session.specs.declared.need.Need.TheVariants.{App, Send, Back, Say};
ghost use Rattle.gateway_session.specs.Memory.{need_in};

use super::told::{Log, note_runs};
use super::words::{behind, front};
use crate::{LossWhy, Need, Session};
use group_store::Store;
use link_ends::{NoMemory, Octets};
use member_core::Conversation;
use reply_texts::RdbName;
use std::alloc::Global;
use std::mem;

/// Bytes, one after another, and how many of them were taken.
#[derive(Drop)]
pub(super) struct Feed {
    pub(super) bytes: Octets,
    pub(super) taken: usize,
}

/// A transport, and its member's end of it.
#[derive(Drop)]
pub(super) struct Line {
    pub(super) number: u64,
    pub(super) talk: Conversation<Store>,
    /// What was sent to the member.
    pub(super) sent: Feed,
    /// How many bytes of the member were read.
    pub(super) read: usize,
}

/// An application and its session.
#[derive(Drop)]
pub(super) struct Caller {
    pub(super) session: Session,
    /// What it sends, and what it was said.
    pub(super) feed: Feed,
    pub(super) said: Octets,
    pub(super) line: Option<Box<Line>>,
}

pub(super) fn new_feed(alloc: Global) -> Feed {
    Feed {
        bytes: Octets::new(alloc),
        taken: 0,
    }
}

/// An application that has nothing to send yet.
pub(super) fn new_caller(alloc: Global, id: u32) -> Result<Box<Caller>, NoMemory> {
    let session = new_session(alloc, id)?;
    Ok(Box::new(
        alloc,
        Caller {
            session,
            feed: new_feed(alloc),
            said: Octets::new(alloc),
            line: None,
        },
    )?)
}

fn new_session(alloc: Global, id: u32) -> Result<Session, NoMemory> {
    match RdbName::of(b"SAMPLE") {
        Some(rdb) => Session::new(alloc, id, &rdb),
        None => Err(NoMemory),
    }
}

/// Bytes of the application are taken.
fn take(session: &mut Session, feed: &mut Feed, most: usize)
    requires { need_in session.old ≡ App }
{
    let piece = front(behind(feed.bytes.as_slice(), feed.taken), most);
    feed.taken = feed.taken.saturating_add(piece.len());
    let _ = session.on_app(piece);
}

/// Bytes of the member are read, of which there may be none.
pub(super) fn back(session: &mut Session, line: &mut Line, most: usize)
    requires { need_in session.old ≡ Back }
{
    let piece = front(behind(line.talk.out(), line.read), most);
    line.read = line.read.saturating_add(piece.len());
    let _ = session.on_back(piece);
}

/// Bytes are sent to the member.
pub(super) fn send(session: &mut Session, line: &mut Line, most: usize)
    requires { need_in session.old ≡ Send }
{
    let piece = front(session.to_send(), most);
    let count = piece.len();
    let _ = line.sent.bytes.push_all(piece);
    let _ = session.on_sent(count);
}

/// Bytes are said to the application.
fn say(session: &mut Session, said: &mut Octets, most: usize)
    requires { need_in session.old ≡ Say }
{
    let piece = front(session.to_say(), most);
    let count = piece.len();
    let _ = said.push_all(piece);
    let _ = session.on_said(count);
}

/// The transport that is held, if one is, is lost.
pub(super) fn lose(session: &mut Session, why: LossWhy) {
    if session.held().is_some() {
        let _ = session.on_lost(why);
    }
}

/// Whether a member has bytes to act on.
pub(super) fn is_sent(line: &Option<Box<Line>>) -> bool {
    match line {
        Some(line) => line.sent.taken < line.sent.bytes.len(),
        None => false,
    }
}

/// The member acts on the next bytes.
pub(super) fn run(line: &mut Line, store: &mut Store, most: usize) {
    let piece = front(behind(line.sent.bytes.as_slice(), line.sent.taken), most);
    line.sent.taken = line.sent.taken.saturating_add(piece.len());
    let _ = line.talk.take(store, piece);
}

/// The member acts on the next bytes, and tells what it ran.
pub(super) fn act(line: &mut Option<Box<Line>>, store: &mut Store, most: usize, log: &mut Log) {
    if let Some(line) = line {
        let before = line.talk.ran().len();
        run(line, store, most);
        note_last(log, line, before);
    }
}

/// Tells what the member ran behind its first commands.
fn note_last(log: &mut Log, line: &Line, before: usize) {
    let codes = line.talk.ran().as_slice();
    note_runs(log, line.number, codes.get(before..).unwrap_or(&[]));
}

/// What is given back is idle.
pub(super) fn put_back(line: &mut Option<Box<Line>>, idle: &mut Option<Box<Line>>) {
    *idle = mem::replace(line, None);
}

/// Whether all bytes of a member were read.
pub(super) fn is_read(line: &Option<Box<Line>>) -> bool {
    match line {
        Some(line) => line.talk.out().len() <= line.read,
        None => true,
    }
}

/// Bytes move between the session and its application, or its member.
pub(super) fn move_bytes(app: &mut Caller, down: bool, most: usize) {
    match (app.session.need(), &mut app.line) {
        (Need::App, _) => take(&mut app.session, &mut app.feed, most),
        (Need::Say, _) => say(&mut app.session, &mut app.said, most),
        (Need::Send, _) if down => lose(&mut app.session, LossWhy::Fault),
        (Need::Send, Some(line)) => send(&mut app.session, line, most),
        (Need::Back, Some(line)) => back(&mut app.session, line, most),
        _ => {}
    }
}

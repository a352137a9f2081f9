ghost use Rattle.std.specs.Prelude.{◌≡◌};
ghost use Rattle.gateway_session.specs.declared.need.Need.TheVariants.{Lend, Dial, Give};
ghost use Rattle.gateway_session.specs.Members.{LendsMember};
ghost use Rattle.gateway_session.specs.Memory.{need_in};

use super::ends::{
    Caller, Line, act, is_read, is_sent, lose, move_bytes, new_caller, new_feed, put_back,
};
use super::told::{
    Log, note_error, note_given, note_group, note_lent, note_list, note_loss, note_outcome,
    note_standing, standing,
};
use super::words::{put, put_step};
use crate::{Lent, LossWhy, Need, Session};
use access_handshake::Stage;
use group_store::Store;
use link_ends::{NoMemory, Octets};
use member_core::Conversation;
use server_list::{ServerList, Tried, read_list};
use std::alloc::Global;
use std::mem;

/// How it goes on with the members: one may be the only one, and none can be reached while they are down.
#[derive(Clone, Copy)]
pub(super) struct Ways {
    pub(super) alone: bool,
    pub(super) down: bool,
    /// How many numbers of transports were drawn.
    pub(super) drawn: u64,
}

/// The members of a group.
#[derive(Drop)]
pub(super) struct Members {
    pub(super) alloc: Global,
    pub(super) store: Store,
    pub(super) list: ServerList,
    pub(super) ways: Ways,
    /// A transport that was given back, and one that was lost, on which bytes may still come.
    pub(super) idle: Option<Box<Line>>,
    pub(super) late: Option<Box<Line>>,
}

/// Two applications, the members, and what was told.
#[derive(Drop)]
pub(super) struct World {
    pub(super) app: Box<Caller>,
    pub(super) other: Box<Caller>,
    pub(super) members: Box<Members>,
    pub(super) log: Log,
}

/// A group with the users ALICE and BOB.
fn new_store(alloc: Global) -> Result<Store, NoMemory> {
    let mut store = Store::new(alloc);
    store.add_user(b"ALICE", b"SECRET")?;
    store.add_user(b"BOB", b"SECRET")?;
    Ok(store)
}

fn new_members(alloc: Global) -> Result<Box<Members>, NoMemory> {
    let store = new_store(alloc)?;
    Ok(Box::new(
        alloc,
        Members {
            alloc,
            store,
            list: ServerList::new(),
            ways: Ways {
                alone: false,
                down: false,
                drawn: 0,
            },
            idle: None,
            late: None,
        },
    )?)
}

/// A world in which nothing happened.
pub(super) fn new_world(alloc: Global) -> Result<World, NoMemory> {
    let members = new_members(alloc)?;
    let app = new_caller(alloc, 1)?;
    let other = new_caller(alloc, 2)?;
    Ok(World {
        app,
        other,
        members,
        log: Log {
            text: Octets::new(alloc),
            ran: 0,
        },
    })
}

/// A member acts: first on a transport that was lost.
fn act_next(app: &mut Caller, members: &mut Members, most: usize, log: &mut Log) {
    if is_sent(&members.late) {
        act(&mut members.late, &mut members.store, most, log);
    } else {
        act(&mut app.line, &mut members.store, most, log);
    }
}

/// What is lent, of the first member that wasn't tried: its transport that is idle, unless a fresh one is asked for.
pub(super) fn lent(session: &Session, ways: Ways, idle: &Option<Box<Line>>) -> Lent
    ensures { LendsMember result }
{
    let tried = session.tried();
    let number = ways.drawn.saturating_add(1);
    match idle {
        Some(line) if !tried.has(1) && !session.fresh() => Lent::Idle {
            number: line.number,
            member: 1,
        },
        _ if !tried.has(1) => Lent::Dial { number, member: 1 },
        _ if ways.alone || tried.has(2) => Lent::NoneLeft,
        _ => Lent::Dial { number, member: 2 },
    }
}

/// A transport that is lent is the application's, or will be dialled.
fn hand_out(line: &mut Option<Box<Line>>, members: &mut Members, lent: Lent) {
    match lent {
        Lent::Idle { .. } => *line = mem::replace(&mut members.idle, None),
        Lent::Dial { number, .. } => members.ways.drawn = number,
        _ => {}
    }
}

pub(super) fn lend(app: &mut Caller, members: &mut Members, log: &mut Log)
    requires { need_in app.old.session ≡ Lend }
{
    let lent = lent(&app.session, members.ways, &members.idle);
    note_lent(log, app.session.id(), lent);
    hand_out(&mut app.line, members, lent);
    let _ = app.session.on_lend(lent);
}

/// A transport to a member, unless it is down.
fn new_line(members: &Members) -> Option<Box<Line>> {
    if members.ways.down {
        return None;
    }
    let alloc = members.alloc;
    let talk = Conversation::new(alloc, &members.store, &members.list).ok()?;
    Box::new(
        alloc,
        Line {
            number: members.ways.drawn,
            talk,
            sent: new_feed(alloc),
            read: 0,
        },
    )
    .ok()
}

/// A member is dialled.
pub(super) fn dial(app: &mut Caller, members: &Members)
    requires { need_in app.old.session ≡ Dial }
{
    app.line = new_line(members);
    let _ = app.session.on_dialled(app.line.is_some());
}

/// Whether what is given back stands where its member knows no user any more, and has nothing unread.
fn is_clean(session: &Session) -> bool {
    let mark = session.mark();
    matches!(mark.stage, Stage::Attached) && mark.unread == 0
}

pub(super) fn give(app: &mut Caller, idle: &mut Option<Box<Line>>, log: &mut Log)
    requires { need_in app.old.session ≡ Give }
{
    if is_clean(&app.session) {
        note_given(log, &app.session);
        put_back(&mut app.line, idle);
    }
    let _ = app.session.on_given();
}

/// What a step told. A transport that was lost may still give its member bytes.
fn note(app: &mut Caller, late: &mut Option<Box<Line>>, log: &mut Log) {
    note_list(log, &mut app.session);
    note_outcome(log, &mut app.session);
    note_error(log, &mut app.session);
    if note_loss(log, &mut app.session) {
        put_back(&mut app.line, late);
    }
}

/// Whether a member has bytes to act on, and isn't down.
pub(super) fn acts(app: &Caller, members: &Members) -> bool {
    !members.ways.down && (is_sent(&members.late) || is_sent(&app.line))
}

/// Whether bytes of the application, or of the member, are needed, and there are none. One that is down ends its transport.
fn awaits(app: &Caller, down: bool) -> bool {
    match app.session.need() {
        Need::App => app.feed.bytes.len() <= app.feed.taken,
        Need::Back => is_read(&app.line) && !(down && app.line.is_some()),
        Need::Done(_) => true,
        _ => false,
    }
}

/// What the session needs is done.
fn turn(app: &mut Caller, members: &mut Members, most: usize, log: &mut Log) {
    match app.session.need() {
        Need::Lend => lend(app, members, log),
        Need::Dial => dial(app, members),
        Need::Give => give(app, &mut members.idle, log),
        _ => move_bytes(app, members.ways.down, most),
    }
}

/// A member acts, or else what the session needs is done.
fn go_on(world: &mut World, most: usize) {
    if acts(&world.app, &world.members) {
        act_next(&mut world.app, &mut world.members, most, &mut world.log);
    } else {
        turn(&mut world.app, &mut world.members, most, &mut world.log);
        note(&mut world.app, &mut world.members.late, &mut world.log);
    }
}

/// Whether nothing moves, or this is needed.
fn has_come_to(app: &Caller, members: &Members, need: &str) -> bool {
    let is_still = !acts(app, members) && awaits(app, members.ways.down);
    is_still || standing(&app.session) == need
}

/// Goes on until nothing moves, or this is needed.
fn go_to(world: &mut World, most: usize, need: &str) {
    for _ in 0..20_000 {
        if has_come_to(&world.app, &world.members, need) {
            return;
        }
        go_on(world, most);
    }
}

/// The member acts on all bytes that were sent.
fn act_all(world: &mut World, most: usize) {
    for _ in 0..1_000 {
        if acts(&world.app, &world.members) {
            act_next(&mut world.app, &mut world.members, most, &mut world.log);
        }
    }
}

/// The members tell a list.
fn tell_list(list: &mut ServerList) {
    if let Some(read) = read_list(&[1, 1, 0, 2, 0, 5], &Tried::none().with(2)) {
        *list = read;
    }
}

/// Something changes, and nothing moves.
pub(super) fn set(world: &mut World, what: &str) {
    match what {
        "alone" => world.members.ways.alone = true,
        "down" => world.members.ways.down = true,
        "other" => mem::swap(&mut world.app, &mut world.other),
        "leave" => world.app.session.on_app_end(false),
        "cut" => lose(&mut world.app.session, LossWhy::Cut),
        _ => tell_list(&mut world.members.list),
    }
}

/// Does what a word says, or one with a text behind it; else the application has these bytes to send.
pub(super) fn step(world: &mut World, most: usize, step: &str) {
    match step {
        "go" => go_to(world, most, ""),
        "act" => act_all(world, most),
        "byte" => go_on(world, 1),
        "cut" | "alone" | "down" | "list" | "other" | "leave" => set(world, step),
        _ => match step.split_once(' ') {
            Some(("to", need)) => go_to(world, most, need),
            Some((word, text)) => put_step(
                world.members.alloc,
                &mut world.app.feed.bytes,
                word,
                text,
            ),
            None => put(world.members.alloc, &mut world.app.feed.bytes, step),
        },
    }
}

/// Does these steps, which `;` parts, and tells what each makes known.
pub(super) fn go_through(world: &mut World, most: usize, steps: &str) {
    for word in steps.split(';') {
        step(world, most, word);
        note(&mut world.app, &mut world.members.late, &mut world.log);
    }
    note_standing(&mut world.log, &world.app.session);
    note_group(&mut world.log, &world.members.store);
}

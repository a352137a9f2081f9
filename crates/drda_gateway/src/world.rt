ghost use Rattle.std.specs.Prelude.{◌≡◌, ◌++◌, length, position, IfOk, OnOk};
ghost use Rattle.drda_gateway.specs.World.{after, after_all, end_entries, line_events, settle_events, start_world, world_of, Steps};
ghost use Rattle.drda_gateway.specs.Session.{can_take, is_saying};
ghost use Rattle.drda_gateway.specs.World.{Append, Take, Say};

use crate::script::Line;
use crate::session::{End, Session};
use link_ends::NoMemory;
use std::alloc::Global;
use std::marker::Model;

/// How many applications there can be, numbered from 1.
const APPLICATIONS: usize = 64;

/// How many bytes an event of a settle moves at most.
const MOST_MOVED: u32 = 65536;

/// Why a session ended, in a word.
#[derive(Clone, Copy, Debug, PartialEq, Eq)]
pub enum ErrorWord {
    /// Its bytes were refused.
    Syntax,
    /// A chain passed the limit.
    Limit,
}

/// What the log says of an application.
#[derive(Clone, Copy, Debug, PartialEq, Eq)]
pub enum Entry {
    /// The last byte of a reply was said.
    Answer { app: u32 },
    /// Its session ended.
    Error { app: u32, word: ErrorWord },
}

/// All sessions, and the log of what they did.
#[derive(Debug, Drop)]
pub struct World {
    sessions: Vec<Session>,
    log: Vec<Entry>,
}

impl Model for World {
    ghost use Rattle.std.specs.Prelude.{◌≡◌, length};
    ghost use Rattle.drda_gateway.specs.World.{WorldState};

    ghost Value = { WorldState };

    ghost view = { λ w. record { sessions = w.sessions.items; log = w.log.items } };

    ghost invariant = { λ w. length w.sessions.items ≡ 64 };
}

impl World {
    /// No application was named yet.
    pub fn new(alloc: Global) -> Result<World, NoMemory>
        ensures { IfOk result (λ world. world ≡ start_world) }
    {
        let mut sessions = Vec::new(alloc);
        for _ in 0..APPLICATIONS {
            sessions.push(Session::new(alloc))?;
        }
        Ok(World {
            sessions,
            log: Vec::new(alloc),
        })
    }

    /// The application has these bytes to send, behind those that it had.
    pub fn append(&mut self, app: u32, bytes: &[u8]) -> Result<(), NoMemory>
        ensures { OnOk result (self.new ≡ after self.old (Append app bytes.now)) }
    {
        let place = app.saturating_sub(1) as usize;
        if place < self.sessions.len() {
            let session = &mut self.sessions[place];
            session.append(bytes)?;
        }
        Ok(())
    }

    /// Takes at most so many bytes of an application, if it waits for that and has some left.
    pub fn take(&mut self, app: u32, count: u32) -> Result<(), NoMemory>
        ensures { OnOk result (self.new ≡ after self.old (Take app count)) }
    {
        let place = app.saturating_sub(1) as usize;
        if count == 0 || place >= self.sessions.len() {
            return Ok(());
        }
        let session = &mut self.sessions[place];
        if !session.can_take() {
            return Ok(());
        }
        session.take(count as usize)?;
        let ended = session.ended();
        log_end(&mut self.log, app, ended)
    }

    /// Says at most so many bytes of the reply to an application, if one is being said.
    pub fn say(&mut self, app: u32, count: u32) -> Result<(), NoMemory>
        ensures { OnOk result (self.new ≡ after self.old (Say app count)) }
    {
        let place = app.saturating_sub(1) as usize;
        if count == 0 || place >= self.sessions.len() {
            return Ok(());
        }
        let session = &mut self.sessions[place];
        if !session.is_saying() {
            return Ok(());
        }
        let before = session.ended();
        let answers = session.left_to_say() <= count as usize;
        session.say(count as usize)?;
        let ended = if before.is_none() {
            session.ended()
        } else {
            None
        };
        if answers {
            self.log.push(Entry::Answer { app })?;
        }
        log_end(&mut self.log, app, ended)
    }

    /// At most so many events, each the first that can be taken when it comes: a say before a take, a lower application
    /// before a higher one.
    pub fn settle(&mut self, budget: u32) -> Result<(), NoMemory>
        ensures { OnOk result (self.new ≡ after_all self.old (settle_events budget self.old)) }
    {
        for _ in 0..budget {
            if !self.step()? {
                return Ok(());
            }
        }
        Ok(())
    }

    /// The first event that can be taken. Whether there was one.
    fn step(&mut self) -> Result<bool, NoMemory>
        ensures { IfOk result (λ went. Steps self.old self.new went) }
    {
        let sessions = self.sessions.as_slice();
        if let Some(place) = first_saying(sessions) {
            self.say(place as u32 + 1, MOST_MOVED)?;
            Ok(true)
        } else if let Some(place) = first_to_take(sessions) {
            self.take(place as u32 + 1, MOST_MOVED)?;
            Ok(true)
        } else {
            Ok(false)
        }
    }

    /// The sessions of all applications, by number from 1.
    pub fn sessions(&self) -> &[Session]
        ensures sessions { result.now ≡ self.now.sessions }
        ensures count { length result.now ≡ 64 }
    {
        self.sessions.as_slice()
    }

    /// The log, oldest entry first.
    pub fn log(&self) -> &[Entry]
        ensures { result.now ≡ self.now.log }
    {
        self.log.as_slice()
    }

    /// Runs one line of a script.
    fn run_line(&mut self, line: &Line) -> Result<(), NoMemory>
        ensures { OnOk result (self.new ≡ after_all self.old (line_events self.old line.now)) }
    {
        match line {
            Line::App { app, bytes } => self.append(*app, bytes.as_slice()),
            Line::Take { app, count } => {
                self.append(*app, &[])?;
                self.take(*app, *count)
            }
            Line::Settle { budget } => self.settle(*budget),
        }
    }
}

/// The world that the lines of a script leave.
pub fn run_script(alloc: Global, lines: &[Line]) -> Result<World, NoMemory>
    ensures { IfOk result (λ world. world ≡ world_of lines.now) }
{
    let mut world = World::new(alloc)?;
    for line in lines {
        world.run_line(line)?;
    }
    Ok(world)
}

/// The first session whose reply is being said.
fn first_saying(sessions: &[Session]) -> Option<usize>
    ensures { result ≡ position is_saying sessions.now }
{
    sessions.iter().position(|session| session.is_saying())
}

/// The first session of whose application bytes can be taken.
fn first_to_take(sessions: &[Session]) -> Option<usize>
    ensures { result ≡ position can_take sessions.now }
{
    sessions.iter().position(|session| session.can_take())
}

/// Logs how a session ended, where it has.
fn log_end(log: &mut Vec<Entry>, app: u32, ended: Option<End>) -> Result<(), NoMemory>
    ensures { OnOk result (log.new.items ≡ log.old.items ++ end_entries app ended) }
{
    let word = match ended {
        None => return Ok(()),
        Some(End::Refused { .. }) => ErrorWord::Syntax,
        Some(End::Limit) => ErrorWord::Limit,
    };
    log.push(Entry::Error { app, word })?;
    Ok(())
}

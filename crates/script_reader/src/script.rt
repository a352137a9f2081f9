ghost use Rattle.std.specs.Prelude.{◌≡◌};
ghost use Rattle.script_reader.specs.Answers.{Reads};
ghost use Rattle.script_reader.specs.Script.{script_of};

use crate::draft::Draft;
use crate::rows::Rows;
use crate::users::Users;
use gateway_setup::{Event, Setup};
use hex_lines::{MOST_BYTES, split_line};
use link_ends::{NoMemory, Octets};
use std::alloc::Global;
use std::marker::Model;
use thiserror::Error;

/// A user who may use the database, in ASCII.
#[derive(Debug, Drop)]
pub struct User {
    pub name: Octets,
    pub password: Octets,
}

/// A row that the group's table has at the beginning, in ASCII.
#[derive(Debug, Drop)]
pub struct Row {
    pub schema: Octets,
    pub key: u32,
    pub text: Octets,
}

/// A line of the body. Applications are numbered from 1 to 64.
#[derive(Debug, Drop)]
pub enum Line {
    /// The application has these bytes more to send.
    Bytes { app: u32, bytes: Octets },
    /// The event happens, where it can be taken.
    Event(Event),
    /// At most so many events happen, each the first that can be taken.
    Settle(u32),
}

/// A script that was read: what its header says, and the lines of its body in their order.
#[derive(Debug, Drop)]
pub struct Script {
    pub(crate) setup: Setup,
    pub(crate) users: Users,
    pub(crate) rows: Rows,
    pub(crate) lines: Vec<Line>,
}

impl Model for Script {
    ghost use Rattle.reply_texts.specs.RdbName.{characters_of};
    ghost use Rattle.script_reader.specs.ScriptText.{ScriptText};

    ghost Value = { ScriptText };

    ghost view = { λ s. record {
      rdb = characters_of s.setup.rdb;
      cap = s.setup.cap;
      list = s.setup.list;
      sent = s.setup.sent_lists;
      users = s.users;
      rows = s.rows;
      lines = s.lines.items;
    } };
}

impl Script {
    ghost use Rattle.reply_texts.specs.RdbName.{characters_of};

    /// What the gateway begins with.
    pub fn setup(&self) -> &Setup
        ensures rdb { characters_of result.now.rdb ≡ self.now.rdb }
        ensures cap { result.now.cap ≡ self.now.cap }
        ensures list { result.now.list ≡ self.now.list }
        ensures sent_lists { result.now.sent_lists ≡ self.now.sent }
    {
        &self.setup
    }

    /// The users, in their order.
    pub fn users(&self) -> &[User]
        ensures { result.now ≡ self.now.users }
    {
        self.users.as_slice()
    }

    /// The rows, in their order.
    pub fn rows(&self) -> &[Row]
        ensures { result.now ≡ self.now.rows }
    {
        self.rows.as_slice()
    }

    /// The lines of the body.
    pub fn lines(&self) -> &[Line]
        ensures { result.now ≡ self.now.lines }
    {
        self.lines.as_slice()
    }
}

/// Why a line was refused.
#[derive(Clone, Copy, Debug, PartialEq, Eq)]
pub enum ScriptWhy {
    /// A byte outside printable ASCII, an unknown first word, or a wrong number of words.
    Word,
    /// A line of the header is missing before it, comes again, or stands out of place; or a chain goes on that can't.
    Order,
    /// A field isn't as the line wants it.
    Field,
    /// The script has more than 16,777,216 bytes. It is refused at line 0.
    Long,
}

/// Why a script wasn't read.
#[derive(Clone, Copy, Debug, PartialEq, Eq, Error)]
pub enum ScriptFault {
    /// The first bad line, counted from 1.
    #[error("line {line} is refused ({why:?})")]
    Refused { line: u64, why: ScriptWhy },
    /// Memory ran out.
    #[error("no memory")]
    NoMemory,
}

impl From<NoMemory> for ScriptFault {
    ghost use Rattle.std.specs.Prelude.{◌≡◌};
    ghost use Rattle.script_reader.specs.declared.script.ScriptFault.TheVariants.{NoMemory as OutOfMemory};

    ghost from_gives = { λ _ e. e ≡ OutOfMemory };

    fn from(_error: NoMemory) -> ScriptFault {
        ScriptFault::NoMemory
    }
}

/// Reads a script. It is refused at its first bad line, and at the line after its last where its header isn't whole or a
/// chain goes on.
pub fn read_script(alloc: Global, text: &[u8]) -> Result<Script, ScriptFault>
    ensures { Reads result (script_of text.now) }
{
    if text.len() > MOST_BYTES {
        return Err(ScriptFault::Refused {
            line: 0,
            why: ScriptWhy::Long,
        });
    }
    let mut draft = Draft::new(alloc);
    let mut rest = text;
    let mut number: u64 = 1;
    while !rest.is_empty() {
        let (line, after) = split_line(rest);
        if let Err(fault) = draft.add_line(alloc, line) {
            return Err(fault.at(number));
        }
        rest = after;
        number += 1;
    }
    draft.finish(number)
}

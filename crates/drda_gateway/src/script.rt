ghost use Rattle.std.specs.Prelude.{◌≡◌};
ghost use Rattle.drda_gateway.specs.Answers.{Reads};
ghost use Rattle.drda_gateway.specs.Script.{script_of};

mod content;
mod draft;
mod fault;
mod field;
mod number;
mod split;
mod users;

use draft::Draft;
use hex_lines::{MOST_BYTES, split_line};
use link_ends::{NoMemory, Octets};
use std::alloc::Global;
use std::marker::Model;
use users::Users;

/// A member server: its number, from 1, and its weight.
#[derive(Debug, Drop)]
pub struct Member {
    pub number: u32,
    pub weight: u16,
}

/// A user who may use the database, in the bytes of the script.
#[derive(Debug, Drop)]
pub struct User {
    pub name: Octets,
    pub password: Octets,
}

/// A line of the body. Applications are numbered from 1 to 64.
#[derive(Debug, Drop)]
pub enum Line {
    /// The application sends these bytes.
    App { app: u32, bytes: Octets },
    /// The gateway takes at most so many bytes of the application.
    Take { app: u32, count: u32 },
    /// The gateway does at most so many steps.
    Settle { budget: u32 },
}

/// A script that was read: what its header says, and the lines of its body in their order.
#[derive(Debug, Drop)]
pub struct Script {
    rdb: Octets,
    cap: u32,
    members: Vec<Member>,
    users: Users,
    lines: Vec<Line>,
}

impl Model for Script {
    ghost use Rattle.drda_gateway.specs.ScriptText.{ScriptText};

    ghost Value = { ScriptText };

    ghost view = { λ s. record {
      rdb = s.rdb;
      cap = s.cap;
      members = s.members.items;
      users = s.users;
      lines = s.lines.items;
    } };
}

impl Script {
    /// The lines of the body.
    pub fn lines(&self) -> &[Line]
        ensures { result.now ≡ self.now.lines }
    {
        self.lines.as_slice()
    }
}

/// Why a line was refused.
#[derive(Clone, Copy, Debug, PartialEq, Eq)]
pub enum ScriptWhy {
    /// A byte outside printable ASCII, an unknown first word, or a wrong number of words.
    Word,
    /// A header line is missing before it, comes again, or stands out of place.
    Order,
    /// A word isn't as the line wants it.
    Field,
    /// The script has more than 16,777,216 bytes. It is refused at line 0.
    Long,
}

/// Why a script wasn't read.
#[derive(Clone, Copy, Debug, PartialEq, Eq)]
pub enum ScriptFault {
    /// The first bad line, counted from 1.
    Refused { line: u64, why: ScriptWhy },
    /// Memory ran out.
    NoMemory,
}

impl From<NoMemory> for ScriptFault {
    ghost use Rattle.std.specs.Prelude.{◌≡◌};
    ghost use Rattle.drda_gateway.specs.declared.script.ScriptFault.TheVariants.{NoMemory as OutOfMemory};

    ghost from_gives = { λ _ e. e ≡ OutOfMemory };

    fn from(_error: NoMemory) -> ScriptFault {
        ScriptFault::NoMemory
    }
}

/// Reads a script. It is refused at its first bad line, and where its header isn't whole at the line after its last.
pub fn read_script(alloc: Global, text: &[u8]) -> Result<Script, ScriptFault>
    ensures { Reads result (script_of text.now) }
{
    if text.len() > MOST_BYTES {
        return Err(ScriptFault::Refused {
            line: 0,
            why: ScriptWhy::Long,
        });
    }
    let mut draft = Draft::new(alloc);
    let mut rest = text;
    let mut number: u64 = 1;
    while !rest.is_empty() {
        let (line, after) = split_line(rest);
        if let Err(fault) = draft.add_line(alloc, line) {
            return Err(fault.at(number));
        }
        rest = after;
        number += 1;
    }
    draft.finish(number)
}

#[cfg(test)]
mod tests {
    use super::*;
    use std::process::Abort;
    use std::test::Fail;

    /// Whether this text is refused at this line for this reason.
    fn refuses(alloc: Global, text: &[u8], at: u64, reason: ScriptWhy) -> bool {
        match read_script(alloc, text) {
            Ok(_) => false,
            Err(fault) => {
                fault
                    == ScriptFault::Refused {
                        line: at,
                        why: reason,
                    }
            }
        }
    }

    #[test]
    fn refuses_the_first_bad_line(rt: HostRuntime) {
        let alloc = rt.alloc();
        assert!(rt; refuses(alloc, b"", 1, ScriptWhy::Order));
        assert!(rt; refuses(alloc, b"rdb SAMPLE\ncap 2\n", 3, ScriptWhy::Order));
        assert!(rt; refuses(alloc, b"\n# x\ncap 2", 3, ScriptWhy::Order));
        assert!(rt; refuses(alloc, b"rdb SAMPLE\nsay 1 1", 2, ScriptWhy::Word));
        assert!(rt; refuses(alloc, b"rdb\tSAMPLE", 1, ScriptWhy::Word));
        assert!(rt; refuses(alloc, b"rdb ", 1, ScriptWhy::Field));
        assert!(rt; refuses(alloc, b"rdb SAMPLE\ncap 2\nmember 2 1", 3, ScriptWhy::Field));
    }

    #[test]
    fn refuses_a_bad_body(rt: HostRuntime) {
        let alloc = rt.alloc();
        assert!(rt;
            refuses(
                alloc,
                b"rdb A\ncap 1\nmember 1 0\napp  1",
                4,
                ScriptWhy::Field
            )
        );
        assert!(rt;
            refuses(
                alloc,
                b"rdb A\ncap 1\nmember 1 0\napp 1 0",
                4,
                ScriptWhy::Field
            )
        );
        assert!(rt;
            refuses(
                alloc,
                b"rdb A\ncap 1\nmember 1 0\napp 1 00 ",
                4,
                ScriptWhy::Word
            )
        );
        assert!(rt;
            refuses(
                alloc,
                b"rdb A\ncap 1\nmember 1 0\nsettle 0",
                4,
                ScriptWhy::Field
            )
        );
        assert!(rt;
            refuses(
                alloc,
                b"rdb A\ncap 1\nmember 1 0\nsettle 01",
                4,
                ScriptWhy::Field
            )
        );
        assert!(rt;
            refuses(
                alloc,
                b"rdb A\ncap 1\nmember 1 0\nsettle 1\nuser A B",
                5,
                ScriptWhy::Order
            )
        );
        assert!(rt;
            refuses(
                alloc,
                b"rdb A\ncap 1\nmember 1 0\nuser A B\nuser A C",
                5,
                ScriptWhy::Field
            )
        );
    }

    #[test]
    fn reads_a_good_script(rt: HostRuntime) -> Result<(), Fail> {
        let text =
            b"# \xff\nrdb SAMPLE\ncap 2\nmember 1 10\nmember 2 65535\nuser A B\n\napp 1 d0F1\napp 1\ntake 1 65536\nsettle 1000000";
        let Ok(script) = read_script(rt.alloc(), text) else {
            return Err(Fail::from("refused"));
        };
        assert_eq!(rt; script.lines().len(), 4);
        Ok(())
    }
}

ghost use Rattle.plain_model.specs.Standing.{Standing};
ghost use Rattle.member_core.specs.SmallGroup.{small};
ghost use Rattle.member_core.specs.SmallLaws.{small_laws};

use super::*;
use ddm_codepoints::code_point::{ACCRDB, EXCSQLIMM};
use dss_frame::{Dss, DssList, Kind};
use link_ends::{NoMemory, Octets, Sequence};
use plain_model::Group;
use server_list::{ServerList, ServerRow};
use std::alloc::Global;
use std::test::Fail;
use unit_segments::Command;

/// A group without data, which gives access to whoever asks, says that each statement is done, and answers every other command
/// PRCCNVRM.
#[derive(Drop)]
struct Small {
    alloc: Global,
}

/// ACCRDBRM with SVRCOD 0, PRDID GRP01010, QTDSQL370 and CCSIDSBC 37.
const ACCESS_GIVEN: [u8; 45] = [
    0x00, 0x2D, 0x22, 0x01, 0x00, 0x06, 0x11, 0x49, 0x00, 0x00, 0x00, 0x0C, 0x11, 0x2E, 0xC7, 0xD9,
    0xD7, 0xF0, 0xF1, 0xF0, 0xF1, 0xF0, 0x00, 0x0D, 0x00, 0x2F, 0xD8, 0xE3, 0xC4, 0xE2, 0xD8, 0xD3,
    0xF3, 0xF7, 0xF0, 0x00, 0x0A, 0x00, 0x35, 0x00, 0x06, 0x11, 0x9C, 0x00, 0x25,
];

/// SQLCARD of success.
const STATEMENT_DONE: [u8; 5] = [0x00, 0x05, 0x24, 0x08, 0xFF];

/// PRCCNVRM.
const NOT_ALLOWED: [u8; 10] = [0x00, 0x0A, 0x12, 0x45, 0x00, 0x06, 0x11, 0x49, 0x00, 0x08];

impl Group for Small {
    type Unit = ();

    ghost meaning = { small };

    ghost is_shared = { λ shared. Unit {0} };

    ghost is_unit = { λ unit. Unit {0} };

    ghost stands = { λ standing unit. Unit {0} };

    fn fresh(&self) -> Result<(), NoMemory> {
        Ok(())
    }

    fn exec(&mut self, _unit: &mut (), command: &Command) -> Result<DssList, NoMemory> {
        let (kind, body) = match command.code {
            ACCRDB => (Kind::Reply, ACCESS_GIVEN.as_slice()),
            EXCSQLIMM => (Kind::Object, STATEMENT_DONE.as_slice()),
            _ => (Kind::Reply, NOT_ALLOWED.as_slice()),
        };
        let mut replies = Sequence::new(self.alloc);
        replies.push(Dss {
            kind,
            chained: false,
            same: false,
            go_on: false,
            corr: command.corr,
            body: Octets::of(self.alloc, body)?,
        })?;
        Ok(replies)
    }

    ghost laws = { small_laws };
}

/// ACCRDB of SAMPLE with QTDSQL370, alone in its chain, with number 1.
const ACCRDB_ALONE: [u8; 33] = [
    0x00, 0x21, 0xD0, 0x01, 0x00, 0x01, 0x00, 0x1B, 0x20, 0x01, 0x00, 0x0D, 0x00, 0x2F, 0xD8, 0xE3,
    0xC4, 0xE2, 0xD8, 0xD3, 0xF3, 0xF7, 0xF0, 0x00, 0x0A, 0x21, 0x10, 0xE2, 0xC1, 0xD4, 0xD7, 0xD3,
    0xC5,
];

/// EXCSQLIMM alone in its chain, with number 1.
const EXCSQLIMM_ALONE: [u8; 10] = [0x00, 0x0A, 0xD0, 0x01, 0x00, 0x01, 0x00, 0x04, 0x20, 0x0A];

/// What it is answered.
const DONE_ALONE: [u8; 11] = [
    0x00, 0x0B, 0xD0, 0x03, 0x00, 0x01, 0x00, 0x05, 0x24, 0x08, 0xFF,
];

/// What a conversation comes to: the bytes that it has answered, the code points of the commands that it has run, and whether
/// it is dead.
#[derive(Clone, Copy)]
struct Outcome {
    answered: &'static [u8],
    ran: &'static [u16],
    dead: bool,
}

/// EXCSQLIMM before another command, with number 1.
const EXCSQLIMM_CHAINED: [u8; 10] = [0x00, 0x0A, 0xD0, 0x41, 0x00, 0x01, 0x00, 0x04, 0x20, 0x0A];

/// ACCRDBRM with the list of two members behind its parameters.
const LISTED: Outcome = Outcome {
    answered: &[
        0x00, 0x41, 0xD0, 0x02, 0x00, 0x01, 0x00, 0x3B, 0x22, 0x01, 0x00, 0x06, 0x11, 0x49, 0x00,
        0x00, 0x00, 0x0C, 0x11, 0x2E, 0xC7, 0xD9, 0xD7, 0xF0, 0xF1, 0xF0, 0xF1, 0xF0, 0x00, 0x0D,
        0x00, 0x2F, 0xD8, 0xE3, 0xC4, 0xE2, 0xD8, 0xD3, 0xF3, 0xF7, 0xF0, 0x00, 0x0A, 0x00, 0x35,
        0x00, 0x06, 0x11, 0x9C, 0x00, 0x25, 0x00, 0x0E, 0x24, 0x4E, 0x01, 0x02, 0x00, 0x02, 0x00,
        0x05, 0x00, 0x01, 0x00, 0x00,
    ],
    ran: &[0x2001],
    dead: false,
};

/// RSCLMTRM of a limit, with number 1.
const PAST_LIMIT: Outcome = Outcome {
    answered: &[
        0x00, 0x10, 0xD0, 0x02, 0x00, 0x01, 0x00, 0x0A, 0x12, 0x33, 0x00, 0x06, 0x11, 0x49, 0x00,
        0x08,
    ],
    ran: &[],
    dead: true,
};

/// How many bytes a segment of a DSS has at most.
const SEGMENT: usize = 32_767;

/// Bytes that are taken, and what a conversation comes to that has no list to tell.
const ROWS: [(&[u8], Outcome); 11] = [
    // A statement alone; two in one chain, the first without a word on errors.
    (
        &EXCSQLIMM_ALONE,
        Outcome {
            answered: &DONE_ALONE,
            ran: &[0x200A],
            dead: false,
        },
    ),
    (
        &[
            0x00, 0x0A, 0xD0, 0x41, 0x00, 0x01, 0x00, 0x04, 0x20, 0x0A, 0x00, 0x0A, 0xD0, 0x01,
            0x00, 0x02, 0x00, 0x04, 0x20, 0x0E,
        ],
        Outcome {
            answered: &[
                0x00, 0x0B, 0xD0, 0x43, 0x00, 0x01, 0x00, 0x05, 0x24, 0x08, 0xFF, 0x00, 0x10, 0xD0,
                0x02, 0x00, 0x02, 0x00, 0x0A, 0x12, 0x45, 0x00, 0x06, 0x11, 0x49, 0x00, 0x08,
            ],
            ran: &[0x200A, 0x200E],
            dead: false,
        },
    ),
    // After an error the rest of the chain isn't run, unless the command says that the chain goes on.
    (
        &[
            0x00, 0x0A, 0xD0, 0x41, 0x00, 0x01, 0x00, 0x04, 0x20, 0x0E, 0x00, 0x0A, 0xD0, 0x01,
            0x00, 0x02, 0x00, 0x04, 0x20, 0x0A,
        ],
        Outcome {
            answered: &[
                0x00, 0x10, 0xD0, 0x02, 0x00, 0x01, 0x00, 0x0A, 0x12, 0x45, 0x00, 0x06, 0x11, 0x49,
                0x00, 0x08,
            ],
            ran: &[0x200E],
            dead: false,
        },
    ),
    (
        &[
            0x00, 0x0A, 0xD0, 0x61, 0x00, 0x01, 0x00, 0x04, 0x20, 0x0E, 0x00, 0x0A, 0xD0, 0x01,
            0x00, 0x02, 0x00, 0x04, 0x20, 0x0A,
        ],
        Outcome {
            answered: &[
                0x00, 0x10, 0xD0, 0x42, 0x00, 0x01, 0x00, 0x0A, 0x12, 0x45, 0x00, 0x06, 0x11, 0x49,
                0x00, 0x08, 0x00, 0x0B, 0xD0, 0x03, 0x00, 0x02, 0x00, 0x05, 0x24, 0x08, 0xFF,
            ],
            ran: &[0x200E, 0x200A],
            dead: false,
        },
    ),
    // The next chain is run all the same.
    (
        &[
            0x00, 0x0A, 0xD0, 0x01, 0x00, 0x01, 0x00, 0x04, 0x20, 0x0E, 0x00, 0x0A, 0xD0, 0x01,
            0x00, 0x02, 0x00, 0x04, 0x20, 0x0A,
        ],
        Outcome {
            answered: &[
                0x00, 0x10, 0xD0, 0x02, 0x00, 0x01, 0x00, 0x0A, 0x12, 0x45, 0x00, 0x06, 0x11, 0x49,
                0x00, 0x08, 0x00, 0x0B, 0xD0, 0x03, 0x00, 0x02, 0x00, 0x05, 0x24, 0x08, 0xFF,
            ],
            ran: &[0x200E, 0x200A],
            dead: false,
        },
    ),
    // A chain that isn't whole is awaited.
    (
        &[0x00, 0x0A, 0xD0, 0x41, 0x00, 0x01, 0x00, 0x04, 0x20, 0x0A],
        Outcome {
            answered: &[],
            ran: &[],
            dead: false,
        },
    ),
    // A length below 6, alone and behind a chain that is whole, which is run; an object where a command is due.
    (
        &[0x00, 0x05],
        Outcome {
            answered: &[
                0x00, 0x15, 0xD0, 0x02, 0x00, 0x00, 0x00, 0x0F, 0x12, 0x4C, 0x00, 0x06, 0x11, 0x49,
                0x00, 0x08, 0x00, 0x05, 0x11, 0x4A, 0x01,
            ],
            ran: &[],
            dead: true,
        },
    ),
    (
        &[
            0x00, 0x0A, 0xD0, 0x01, 0x00, 0x01, 0x00, 0x04, 0x20, 0x0A, 0x00, 0x05,
        ],
        Outcome {
            answered: &[
                0x00, 0x0B, 0xD0, 0x03, 0x00, 0x01, 0x00, 0x05, 0x24, 0x08, 0xFF, 0x00, 0x15, 0xD0,
                0x02, 0x00, 0x00, 0x00, 0x0F, 0x12, 0x4C, 0x00, 0x06, 0x11, 0x49, 0x00, 0x08, 0x00,
                0x05, 0x11, 0x4A, 0x01,
            ],
            ran: &[0x200A],
            dead: true,
        },
    ),
    (
        &[
            0x00, 0x0A, 0xD0, 0x03, 0x00, 0x01, 0x00, 0x04, 0x24, 0x14, 0x00, 0x0A, 0xD0, 0x01,
            0x00, 0x01, 0x00, 0x04, 0x20, 0x0A,
        ],
        Outcome {
            answered: &[
                0x00, 0x15, 0xD0, 0x02, 0x00, 0x00, 0x00, 0x0F, 0x12, 0x4C, 0x00, 0x06, 0x11, 0x49,
                0x00, 0x08, 0x00, 0x05, 0x11, 0x4A, 0x04,
            ],
            ran: &[],
            dead: true,
        },
    ),
    // Access, of which no list is told.
    (
        &ACCRDB_ALONE,
        Outcome {
            answered: &[
                0x00, 0x33, 0xD0, 0x02, 0x00, 0x01, 0x00, 0x2D, 0x22, 0x01, 0x00, 0x06, 0x11, 0x49,
                0x00, 0x00, 0x00, 0x0C, 0x11, 0x2E, 0xC7, 0xD9, 0xD7, 0xF0, 0xF1, 0xF0, 0xF1, 0xF0,
                0x00, 0x0D, 0x00, 0x2F, 0xD8, 0xE3, 0xC4, 0xE2, 0xD8, 0xD3, 0xF3, 0xF7, 0xF0, 0x00,
                0x0A, 0x00, 0x35, 0x00, 0x06, 0x11, 0x9C, 0x00, 0x25,
            ],
            ran: &[0x2001],
            dead: false,
        },
    ),
    // A dead conversation takes nothing more.
    (
        &[
            0x00, 0x05, 0xD0, 0x01, 0x00, 0x01, 0x00, 0x0A, 0xD0, 0x01, 0x00, 0x01, 0x00, 0x04,
            0x20, 0x0A,
        ],
        Outcome {
            answered: &[
                0x00, 0x15, 0xD0, 0x02, 0x00, 0x00, 0x00, 0x0F, 0x12, 0x4C, 0x00, 0x06, 0x11, 0x49,
                0x00, 0x08, 0x00, 0x05, 0x11, 0x4A, 0x01,
            ],
            ran: &[],
            dead: true,
        },
    ),
];

/// A conversation with a small group that has taken these bytes.
fn took(alloc: Global, list: &ServerList, bytes: &[u8]) -> Result<Conversation<Small>, Fail> {
    let mut group = Small { alloc };
    let mut conversation = Conversation::new(alloc, &group, list)?;
    conversation.take(&mut group, bytes)?;
    Ok(conversation)
}

/// One that has taken them one by one.
fn took_each(alloc: Global, list: &ServerList, bytes: &[u8]) -> Result<Conversation<Small>, Fail> {
    let mut group = Small { alloc };
    let mut conversation = Conversation::new(alloc, &group, list)?;
    for byte in bytes {
        conversation.take(&mut group, &[*byte])?;
    }
    Ok(conversation)
}

/// Whether a conversation has come to this.
fn is(conversation: &Conversation<Small>, outcome: Outcome) -> bool {
    conversation.out() == outcome.answered
        && conversation.ran().as_slice() == outcome.ran
        && conversation.dead() == outcome.dead
}

/// Whether bytes come to this, at once and one by one.
fn come_to(alloc: Global, list: &ServerList, bytes: &[u8], outcome: Outcome) -> Result<bool, Fail> {
    let at_once = took(alloc, list, bytes)?;
    let one_by_one = took_each(alloc, list, bytes)?;
    Ok(is(&at_once, outcome) && is(&one_by_one, outcome))
}

/// Bytes are answered the same at once and byte by byte.
#[test]
fn answers_pieces(rt: HostRuntime) -> Result<(), Fail> {
    let list = ServerList::new();
    for (bytes, outcome) in ROWS {
        assert!(rt; come_to(rt.alloc(), &list, bytes, outcome)?);
    }
    Ok(())
}

/// Member 2 of weight 5, and member 1 of weight 0.
fn two_members() -> ServerList {
    let mut list = ServerList::new();
    list.push(ServerRow {
        member: 2,
        weight: 5,
    });
    list.push(ServerRow {
        member: 1,
        weight: 0,
    });
    list
}

/// Access is told with the list behind its parameters.
#[test]
fn tells_its_list(rt: HostRuntime) -> Result<(), Fail> {
    assert!(rt; come_to(rt.alloc(), &two_members(), &ACCRDB_ALONE, LISTED)?);
    Ok(())
}

/// A conversation that has taken a piece, another one so many times, and then a statement.
fn took_many(
    alloc: Global,
    first: &[u8],
    further: &[u8],
    count: u32,
) -> Result<Conversation<Small>, Fail> {
    let mut group = Small { alloc };
    let mut conversation = Conversation::new(alloc, &group, &ServerList::new())?;
    conversation.take(&mut group, first)?;
    for _ in 0..count {
        conversation.take(&mut group, further)?;
    }
    conversation.take(&mut group, &EXCSQLIMM_ALONE)?;
    Ok(conversation)
}

/// The 4,097th command is answered RSCLMTRM with its number, nothing of its chain is run, and nothing more is taken.
#[test]
fn counts_commands(rt: HostRuntime) -> Result<(), Fail> {
    let conversation = took_many(rt.alloc(), &EXCSQLIMM_CHAINED, &EXCSQLIMM_CHAINED, 4096)?;
    assert!(rt; is(&conversation, PAST_LIMIT));
    conversation.drop_conversation();
    Ok(())
}

/// So many bytes, and zeros behind them up to the greatest size of a segment.
fn segment(alloc: Global, front: &[u8]) -> Result<Vec<u8>, Fail> {
    let mut bytes = Vec::new(alloc);
    bytes.extend_from_slice(front)?;
    for _ in front.len()..SEGMENT {
        bytes.push(0)?;
    }
    Ok(bytes)
}

/// So is the first byte beyond 33,554,432, in the 1,025th segment of a DSS.
#[test]
fn counts_bytes(rt: HostRuntime) -> Result<(), Fail> {
    let first = segment(rt.alloc(), &[0xFF, 0xFF, 0xD0, 0x01, 0x00, 0x01])?;
    let further = segment(rt.alloc(), &[0xFF, 0xFF])?;
    let conversation = took_many(rt.alloc(), first.as_slice(), further.as_slice(), 1024)?;
    assert!(rt; is(&conversation, PAST_LIMIT));
    Ok(())
}

ghost use Rattle.std.specs.Option.{ForSome};
ghost use Rattle.session_core.specs.SeenReading.{HasCommands};

use super::*;
use access_handshake::Stage;
use ddm_codepoints::code_point::SQLCARD;
use dss_frame::{Dss, DssList, Kind};
use hex_lines::read_hex;
use link_ends::{NoMemory, Octets, OctetsList, Sequence};
use reply_texts::RdbName;
use std::alloc::Global;
use std::test::Fail;
use unit_segments::{Stripped, code_of};

// ---- rounds

// A round is a line of three fields, parted by `|`: what happens to a session, and two words, which are names of bytes, or bytes in
// digits. The first word is what comes, and the second what the session says. A round `is` asks what is true of the session.

/// Bytes by their names, in hexadecimal digits. Chains of an application: a command that isn't known, behind which the chain goes on to
/// EXCSAT, or stops; RDBCMM; EXCSAT with SQLAM at level 6; a DSS that is too short; ACCSEC without SECMEC; EXCSAT and ACCSEC with
/// mechanism 3; SECCHK and ACCRDB of ALICE; EXCSQLIMM. Objects of a server: SECCHKRM that admits the user, ACCRDBRM, SQLCARD of success;
/// and data of a SQLSTT. Then what a session says: CMDNSPRM and EXCSATRD, CMDNSPRM alone, PRCCNVRM, MGRLVLRM, and SYNTAXRM twice;
/// EXCSATRD and ACCSECRD; SECCHKRM and ACCRDBRM; a SQLCARD; ABNUOWRM with -30108 and 08506, -30108 and 08007, -30081 and 08001, and
/// -30081 and 08007; AGNPRMRM; RSCLMTRM.
const NAMES: &str = "\
GOES_ON 000AD06100010004FFFF000AD001000200041041
STOPS 000AD04100010004FFFF000AD001000200041041
COMMIT 000AD00100010004200E
LEVEL_6 0012D0010001000C10410008140424070006
SHORT 0005D001000100041041
NO_MECHANISM 000AD00100010004106D
START 0022D0410001001C1041001814041403000724070007240F00071440000714740005\
0026D00100020020106D000611A2000300162110E2C1D4D7D3C5404040404040404040404040
ACCESS 0039D04100010033106E000611A20003000911A0C1D3C9C3C5000A11A1E2C5C3D9C5E3\
00162110E2C1D4D7D3C5404040404040404040404040\
0049D0010002004320010006210F2407000C112EE2C3D9F0F1F0F1F0000D002FD8E3C4E2D8D3F3F7F0\
00162110E2C1D4D7D3C5404040404040404040404040000A00350006119C0025
INSERT 000AD00100010004200A
ADMISSION 000F1219000611490000000511A400
DATABASE 002D2201000611490000000C112EC7D9D7F0F1F0F1F0000D002FD8E3C4E2D8D3F3F7F0000A00350006119C0025
SUCCESS 00052408FF
REGISTER 000000000DE2C5E340D9F1F0407E407D817DFF
BOTH 0016D0420001001012500006114900080006000CFFFF\
0027D003000200211443000A1147C4D9C4C1C7E6000B116DC7C1E3C5E6C1E80008115AC7E6F0F1
UNKNOWN 0016D0020001001012500006114900080006000CFFFF
NOT_ALLOWED 0010D0020001000A1245000611490008
LEVEL 0018D0020001001212100006114900080008140424070007
SHORT_REPLY 0015D0020000000F124C0006114900080005114A01
NO_MECHANISM_REPLY 0015D0020001000F124C0006114900080005114A0E
STARTED 003FD043000100391443000A1147C4D9C4C1C7E6000B116DC7C1E3C5E6C1E80008115AC7E6F0F1\
001814041403000724070007240F000714400007147400050010D0030002000A14AC000611A20003
ACCESSED 0015D0420001000F1219000611490000000511A400\
0033D0020002002D2201000611490000000C112EC7D9D7F0F1F0F1F0000D002FD8E3C4E2D8D3F3F7F0000A00350006119C0025
INSERTED 000BD003000100052408FF
REROUTED 0026D05200010020220D00061149000800162110E2C1D4D7D3C5404040404040404040404040\
001ED00300010018240800FFFF8A64F0F8F5F0F64040404040404040FFFF
REROUTED_UNKNOWN 0026D05200010020220D00061149000800162110E2C1D4D7D3C5404040404040404040404040\
001ED00300010018240800FFFF8A64F0F8F0F0F74040404040404040FFFF
ENDED 0026D05200010020220D00061149000800162110E2C1D4D7D3C5404040404040404040404040\
001ED00300010018240800FFFF8A7FF0F8F0F0F14040404040404040FFFF
ENDED_UNKNOWN 0026D05200010020220D00061149000800162110E2C1D4D7D3C5404040404040404040404040\
001ED00300010018240800FFFF8A7FF0F8F0F0F74040404040404040FFFF
NO_ACCESS 0010D0020001000A1232000611490010
LIMIT 0010D0020001000A1233000611490008";

/// The digits with this name, or else the word itself.
fn digits_of(word: &str) -> &str {
    for line in NAMES.lines() {
        if let Some((name, digits)) = line.split_once(' ') {
            if name == word {
                return digits;
            }
        }
    }
    word
}

/// The bytes with this name, or those that its digits spell; none of an empty word.
fn bytes(alloc: Global, word: &str) -> Result<Octets, NoMemory> {
    match read_hex(alloc, digits_of(word).as_bytes())? {
        Some(bytes) => Ok(bytes),
        None => Ok(Octets::new(alloc)),
    }
}

/// The field before the first `|` of a line, and what stands behind it.
fn field(line: &str) -> (&str, &str) {
    match line.split_once('|') {
        Some(fields) => fields,
        None => (line, ""),
    }
}

/// A session that calls its database so.
#[derive(Drop)]
struct Scene {
    alloc: Global,
    rdb: RdbName,
    core: SessionCore,
}

// ---- what comes

/// What is read first of these bytes comes into work: what is said. Nothing is where nothing is read.
fn begin(scene: &mut Scene, bytes: &[u8]) -> Result<Octets, NoMemory> {
    let mut incoming = Incoming::new(scene.alloc);
    incoming.feed(bytes)?;
    let reading = incoming.next()?;
    begin_with(scene, reading)
}

fn begin_with(scene: &mut Scene, reading: Option<Reading>) -> Result<Octets, NoMemory>
    requires { ForSome reading HasCommands }
{
    match reading {
        Some(reading) => begin_reading(scene, reading),
        None => Ok(Octets::new(scene.alloc)),
    }
}

fn begin_reading(scene: &mut Scene, reading: Reading) -> Result<Octets, NoMemory>
    requires { HasCommands reading }
{
    match reading {
        Reading::Chain(chain) => scene.core.begin_chain(&scene.rdb, &chain),
        Reading::Fault {
            place,
            error,
            number,
        } => scene.core.begin_fault(&scene.rdb, place, error, number),
        Reading::TooLong { number } => scene.core.begin_too_long(&scene.rdb, number),
    }
}

/// An object alone in its DSS, of reply data where it is a SQLCARD, and else of a reply message.
fn reply(number: u16, object: Octets) -> Dss {
    let kind = if code_of(object.as_slice()) == SQLCARD {
        Kind::Object
    } else {
        Kind::Reply
    };
    Dss {
        kind,
        chained: false,
        same: false,
        go_on: false,
        corr: number,
        body: object,
    }
}

/// What replies come to behind which the unit of work goes on, or is committed with these registers.
fn stripped(replies: DssList, ended: bool, sets: OctetsList) -> Stripped {
    Stripped {
        replies,
        ended,
        committed: ended,
        granted: ended,
        sets,
        list: None,
        stop: false,
    }
}

/// A server answers the segment in work with this object.
fn answer(scene: &mut Scene, object: Octets) -> Result<Octets, NoMemory> {
    let mut replies = Sequence::new(scene.alloc);
    replies.push(reply(scene.core.first_number(), object))?;
    let sets = Sequence::new(scene.alloc);
    scene
        .core
        .answer(&scene.rdb, stripped(replies, false, sets))
}

/// A server answers nothing but that the unit of work is committed, in which this register was set.
fn commit(scene: &mut Scene, register: Octets) -> Result<Octets, NoMemory> {
    let mut sets = Sequence::new(scene.alloc);
    sets.push(register)?;
    let replies = Sequence::new(scene.alloc);
    scene.core.answer(&scene.rdb, stripped(replies, true, sets))
}

/// What is said at an event, at which these bytes come.
fn said(scene: &mut Scene, event: &str, bytes: Octets) -> Result<Octets, NoMemory> {
    match event {
        "chain" => begin(scene, bytes.as_slice()),
        "answer" => answer(scene, bytes),
        "commit" => commit(scene, bytes),
        "accept" => scene.core.accept(&scene.rdb),
        "no member" => scene.core.end_without_member(&scene.rdb),
        "limit" => scene.core.close(LimitKind::Reply),
        _ => scene.core.begin_too_long(&scene.rdb, 1),
    }
}

/// An event at which nothing is said.
fn pass(scene: &mut Scene, event: &str) {
    match event {
        "sent" => scene.core.send(),
        "lost" => scene.core.lose(),
        "left" => scene.core.leave(true),
        _ => scene.core = SessionCore::new(scene.alloc),
    }
}

// ---- what holds

/// Whether this is true of a session.
fn is(core: &SessionCore, what: &str) -> bool {
    match what {
        "checked" => core.standing().stage() == Stage::Checked,
        "accessed" => core.standing().stage() == Stage::Accessed,
        "of mechanism 3" => core.standing().access().secmec == 3,
        "with a register" => core.standing().registers().len() == 1,
        "within the limit" => !core.passes_limit(core.kept()),
        "idle" => core.segment().is_none() && core.kept().is_empty(),
        "at work" => core.first_number() == 1 && core.again().is_empty(),
        "owing nothing" => core.owed().is_none(),
        _ => has_ended(core.end(), what),
    }
}

/// Whether a session ended so.
fn has_ended(end: Option<CoreEnd>, how: &str) -> bool {
    let kind = match how {
        "refused" => return end == Some(CoreEnd::Refused { place: 6 }),
        "memberless" => return end == Some(CoreEnd::NoMember),
        "at the limit of replies" => LimitKind::Reply,
        _ => LimitKind::Request,
    };
    end == Some(CoreEnd::Limit { kind })
}

/// Whether these bytes have this name, or are spelled so.
fn are(alloc: Global, bytes_said: &[u8], word: &str) -> Result<bool, NoMemory> {
    let bytes = bytes(alloc, word)?;
    Ok(bytes.as_slice() == bytes_said)
}

/// Whether this is said at an event, at which the bytes of a word come.
fn says(scene: &mut Scene, event: &str, word: &str, reply: &str) -> Result<bool, NoMemory> {
    let bytes = bytes(scene.alloc, word)?;
    let said = said(scene, event, bytes)?;
    are(scene.alloc, said.as_slice(), reply)
}

/// Whether a round goes as it says; a session in which nothing was said is begun at `new`.
fn holds(scene: &mut Scene, round: &str) -> Result<bool, NoMemory> {
    let (event, rest) = field(round);
    let (word, reply) = field(rest);
    match event {
        "is" => Ok(is(&scene.core, word)),
        "sent" | "lost" | "left" | "new" => {
            pass(scene, event);
            Ok(true)
        }
        _ => says(scene, event, word, reply),
    }
}

/// The number, from 1, of the first of these rounds that doesn't go as it says; 0 where there is none.
fn refuted_in(scene: &mut Scene, rounds: &str) -> Result<u32, NoMemory> {
    let mut number: u32 = 0;
    for round in rounds.lines() {
        number = number.saturating_add(1);
        if !holds(scene, round)? {
            return Ok(number);
        }
    }
    Ok(0)
}

/// The same in a session in which nothing was said before.
fn refuted(alloc: Global, rdb: RdbName, rounds: &str) -> Result<u32, NoMemory> {
    let mut scene = Scene {
        alloc,
        rdb,
        core: SessionCore::new(alloc),
    };
    refuted_in(&mut scene, rounds)
}

/// What the gateway itself answers: commands before access, faults, and a chain that is too long. What a server answers: access, a
/// statement, and a commit behind which a register is kept. Losses and ends: a statement that was sent and isn't answered runs again; a
/// unit of work in which one was answered is lost, which the next command is told; whether a commit that was sent was done isn't known;
/// no member is left; and the limit of replies is passed.
const ROUNDS: &str = "\
chain|GOES_ON|BOTH
new
chain|STOPS|UNKNOWN
new
chain|COMMIT|NOT_ALLOWED
new
chain|LEVEL_6|LEVEL
new
chain|START|STARTED
is|of mechanism 3
new
chain|SHORT|SHORT_REPLY
new
chain|NO_MECHANISM|NO_MECHANISM_REPLY
is|refused
new
too long||LIMIT
is|at the limit of requests
new
chain|START|STARTED
chain|ACCESS|
answer|ADMISSION|
is|checked
is|within the limit
answer|DATABASE|ACCESSED
is|accessed
is|idle
chain|INSERT|
sent
answer|SUCCESS|INSERTED
is|idle
chain|COMMIT|
commit|REGISTER|
is|with a register
new
chain|START|STARTED
chain|ACCESS|
answer|ADMISSION|
answer|DATABASE|ACCESSED
chain|INSERT|
sent
lost
is|owing nothing
is|at work
answer|SUCCESS|INSERTED
lost
chain|INSERT|
accept||REROUTED
is|owing nothing
chain|COMMIT|
sent
lost
accept||REROUTED_UNKNOWN
chain|COMMIT|
sent
lost
no member||ENDED_UNKNOWN
new
chain|START|STARTED
chain|ACCESS|
no member||NO_ACCESS
is|memberless
new
chain|START|STARTED
chain|ACCESS|
answer|ADMISSION|
answer|DATABASE|ACCESSED
chain|INSERT|
no member||ENDED
new
chain|START|STARTED
chain|ACCESS|
answer|ADMISSION|
answer|DATABASE|ACCESSED
chain|INSERT|
limit||LIMIT
left
is|at the limit of replies";

#[test]
fn sessions_go_as_told(rt: HostRuntime) -> Result<(), Fail> {
    let rdb = RdbName::of(b"SAMPLE").ok_or("a name")?;
    assert_eq!(rt; refuted(rt.alloc(), rdb, ROUNDS)?, 0);
    Ok(())
}

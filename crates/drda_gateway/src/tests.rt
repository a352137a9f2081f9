ghost use Rattle.std.specs.Prelude.{IfOk};
ghost use Rattle.link_ends.specs.Link.{IsFresh};
ghost use Rattle.link_ends.specs.Prepared.{wire_state};

use crate::make::make;
use crate::member::member;
use crate::play::play;
use crate::report::report;
use crate::script::Line;
use crate::trace::trace;
use crate::world::run_script;
use hex_lines::read_hex;
use link_ends::{Marks, MemDoor, MemLink, MemSink, MemSource, NoMemory, Octets};
use std::alloc::Global;
use std::sync::Wait;
use std::test::Fail;
use std::thread::Threads;

/// A script whose application sends EXCSAT, and what it takes.
const GREETING: &str =
    "rdb SAMPLE\ncap 1\nmember 1 1\nuser ALICE SECRET\napp 1 000AD001000100041041\n";

/// Its report.
const GREETED: &str =
    "app 1 sent 0027D003000100211443000A1147C4D9C4C1C7E6000B116DC7C1E3C5E6C1E80008115AC7E6F0F1
app 1 open
log answer 1
count commits 0 dials 0 reuses 0 losses 0
";

/// Whether the command answers this status and writes this text, where these calls of its source and of its sink fail. Its
/// words are its name, and one more where there is one.
fn answers(
    alloc: Global,
    command: &str,
    word: &str,
    text: &str,
    fails: (&[u32], &[u32]),
    status: u8,
    written: &str,
) -> Result<bool, NoMemory> {
    let mut words = Vec::new(alloc);
    words.push(String::from_str(alloc, command)?)?;
    if !word.is_empty() {
        words.push(String::from_str(alloc, word)?)?;
    }
    let bytes = Octets::of(alloc, text.as_bytes())?;
    let mut source = MemSource::new(bytes, Marks::of(alloc, fails.0)?);
    let mut sink = MemSink::new(alloc, 1_048_576, Marks::of(alloc, fails.1)?)?;
    let answer = if command == "trace" {
        trace(alloc, &words, &mut source, &mut sink)
    } else {
        play(alloc, &words, &mut source, &mut sink)
    };
    Ok(answer == status && sink.written() == written.as_bytes())
}

/// Whether `play` answers this status and writes this text, where these calls of its source and of its sink fail.
fn plays(
    alloc: Global,
    word: &str,
    text: &str,
    fails: (&[u32], &[u32]),
    status: u8,
    written: &str,
) -> Result<bool, NoMemory> {
    answers(alloc, "play", word, text, fails, status, written)
}

#[test]
fn answers_by_causes(rt: HostRuntime) -> Result<(), Fail> {
    let alloc = rt.alloc();
    let whole = format!(in alloc; "{GREETING}settle 100000\n")?;
    let text = whole.as_str();
    let usage = "usage: drda_gateway play\n";
    let refused = "script refused: line 1 order\n";
    assert!(rt; plays(alloc, "", text, (&[], &[]), 0, GREETED)?);
    assert!(rt; plays(alloc, "--fast", text, (&[], &[]), 1, usage)?);
    assert!(rt; plays(alloc, "", "", (&[], &[]), 2, refused)?);
    assert!(rt; plays(alloc, "", text, (&[0], &[]), 3, "")?);
    assert!(rt; plays(alloc, "", text, (&[1], &[]), 3, "")?);
    assert!(rt; plays(alloc, "", text, (&[], &[0]), 4, "")?);
    assert!(rt; plays(alloc, "--fast", text, (&[], &[0]), 1, "")?);
    Ok(())
}

#[test]
fn traces_by_causes(rt: HostRuntime) -> Result<(), Fail> {
    let alloc = rt.alloc();
    let asked = "> 000AD001000100041041\n";
    let whole = "> 000AD001000100041041\n< 000AD003000100041443\n";
    let shown = "chain 1\nrequest 0001 EXCSAT 4\nreply 0001 EXCSATRD 4\nwhole\n";
    let lacking = "chain 1\nrequest 0001 EXCSAT 4\nunanswered 1\nnot whole\n";
    let usage = "usage: drda_gateway trace\n";
    let refused = "capture refused: line 3\n";
    assert!(rt; answers(alloc, "trace", "", whole, (&[], &[]), 0, shown)?);
    assert!(rt; answers(alloc, "trace", "", asked, (&[], &[]), 6, lacking)?);
    assert!(rt; answers(alloc, "trace", "--help", whole, (&[], &[]), 1, usage)?);
    assert!(rt; answers(alloc, "trace", "--help", whole, (&[], &[0]), 1, "")?);
    assert!(rt;
        answers(
            alloc,
            "trace",
            "",
            "> 00\n# x\n> 0\n",
            (&[], &[]),
            2,
            refused
        )?
    );
    assert!(rt; answers(alloc, "trace", "", "> 00\n# x\n> 0\n", (&[], &[0]), 2, "")?);
    assert!(rt; answers(alloc, "trace", "", whole, (&[0], &[]), 3, "")?);
    assert!(rt; answers(alloc, "trace", "", whole, (&[1], &[]), 3, "")?);
    assert!(rt; answers(alloc, "trace", "", whole, (&[], &[0]), 4, "")?);
    assert!(rt; answers(alloc, "trace", "", asked, (&[], &[0]), 4, "")?);
    Ok(())
}

/// Whether an application that sends these bytes comes to these lines, where they are taken together and where they are
/// taken one by one.
fn comes_to(alloc: Global, bytes: &str, lines: &str) -> Result<bool, NoMemory> {
    let report = format!(in alloc; "{lines}count commits 0 dials 0 reuses 0 losses 0\n")?;
    let mut text = format!(in alloc;
        "rdb SAMPLE\ncap 1\nmember 1 1\napp 1 {bytes}\nsettle 100000\n"
    )?;
    let together = plays(alloc, "", text.as_str(), (&[], &[]), 0, report.as_str())?;
    text = format!(in alloc; "rdb SAMPLE\ncap 1\nmember 1 1\napp 1 {bytes}\n")?;
    for _ in 0..bytes.len() / 2 {
        text.push_str("take 1 1\n")?;
    }
    text.push_str("settle 100000\n")?;
    let singly = plays(alloc, "", text.as_str(), (&[], &[]), 0, report.as_str())?;
    Ok(together && singly)
}

#[test]
fn answers_every_spelling(rt: HostRuntime) -> Result<(), Fail> {
    let alloc = rt.alloc();
    let greeted =
        "app 1 sent 0027D003000100211443000A1147C4D9C4C1C7E6000B116DC7C1E3C5E6C1E80008115AC7E6F0F1\napp 1 open\nlog answer 1\n";
    let too_low =
        "app 1 sent 0018D0020001001212100006114900080008140424070007\napp 1 open\nlog answer 1\n";
    let awaits = "app 1 sent -\napp 1 open\n";
    let rows = [
        ("000AD001000100041041", greeted),
        ("000AD021000100041041", greeted),
        ("8008D0010001000400041041", greeted),
        ("8006D00100018003000005041041", greeted),
        ("000AD001000180041041", greeted),
        ("000ED00100018008104100000000", greeted),
        ("8008D001000180080008104100000000", greeted),
        ("0012D0010001000C10410008140424070006", too_low),
        ("0009D00100010004", awaits),
        ("8008D00100010004", awaits),
    ];
    for (bytes, lines) in rows {
        assert!(rt; comes_to(alloc, bytes, lines)?, "{bytes}");
    }
    Ok(())
}

#[test]
fn refuses_other_bytes(rt: HostRuntime) -> Result<(), Fail> {
    let alloc = rt.alloc();
    let rows = [
        // no DSS: its length, its third byte, its format, or a further length
        ("0005D001000100041041", "0000", "01", 0),
        ("8005", "0000", "01", 0),
        ("000AD105000100041041", "0000", "03", 2),
        ("000AD005000100041041", "0000", "04", 3),
        ("000AD002000100041041", "0000", "04", 3),
        ("000AD081000100041041", "0000", "04", 3),
        ("000AD011000100041041", "0000", "04", 3),
        ("8008D001000700040002", "0007", "05", 8),
        ("8006D0010107800400040000", "0107", "05", 10),
        // a DSS that is no lone EXCSAT
        ("000AD001000100041042", "0000", "04", 0),
        ("000AD041000100041041", "0000", "04", 0),
        ("000AD003000100041041", "0000", "04", 0),
        ("0006D0010001", "0000", "04", 0),
        ("0009D0010001000410", "0000", "04", 0),
    ];
    for (bytes, number, code, place) in rows {
        let lines = format!(in alloc;
            "app 1 sent 0015D002{number}000F124C0006114900080005114A{code}\napp 1 ended syntax {place}\nlog error 1 syntax\nlog answer 1\n"
        )?;
        assert!(rt; comes_to(alloc, bytes, lines.as_str())?, "{bytes}");
    }
    Ok(())
}

#[test]
fn places_count_from_the_beginning(rt: HostRuntime) -> Result<(), Fail> {
    let alloc = rt.alloc();
    let lines =
        "app 1 sent 0027D003000100211443000A1147C4D9C4C1C7E6000B116DC7C1E3C5E6C1E80008115AC7E6F0F10015D0020000000F124C0006114900080005114A03
app 1 ended syntax 12
log answer 1
log error 1 syntax
log answer 1
";
    let bytes = "000AD001000100041041000AD101000200041041";
    assert!(rt; comes_to(alloc, bytes, lines)?);
    Ok(())
}

// A script is too short for this, so the lines are made here: one DSS of full segments, none of which is its last.
#[test]
fn a_chain_past_the_limit_ends_its_session(rt: HostRuntime) -> Result<(), Fail> {
    let alloc = rt.alloc();
    let mut bytes = Octets::of(alloc, &[0xFF, 0xFF, 0xD0, 0x01, 0x00, 0x07])?;
    bytes.push_all(&[0; 32_761])?;
    for _ in 0..512 {
        bytes.push_all(&[0xFF, 0xFF])?;
        bytes.push_all(&[0; 32_765])?;
    }
    let lines = [
        Line::App { app: 1, bytes },
        Line::Settle { budget: 100_000 },
    ];
    let world = run_script(alloc, &lines)?;
    let told = report(alloc, &world)?;
    let limit =
        "app 1 sent 0010D0020007000A1233000611490008\napp 1 ended limit request\nlog error 1 limit\nlog answer 1\ncount commits 0 dials 0 reuses 0 losses 0\n";
    assert!(rt; told.as_slice() == limit.as_bytes());
    Ok(())
}

/// The words of a line.
fn words_of(alloc: Global, line: &str) -> Result<Vec<String>, NoMemory> {
    let mut words = Vec::new(alloc);
    for word in line.split_whitespace() {
        words.push(String::from_str(alloc, word)?)?;
    }
    Ok(words)
}

/// Whether `make` with the words of a line answers this status and writes this text, where these calls of its sink fail.
fn makes(
    alloc: Global,
    line: &str,
    fails: &[u32],
    status: u8,
    written: &str,
) -> Result<bool, NoMemory> {
    let words = words_of(alloc, line)?;
    let mut sink = MemSink::new(alloc, 1_048_576, Marks::of(alloc, fails)?)?;
    let answer = make(alloc, &words, &mut sink);
    Ok(answer == status && sink.written() == written.as_bytes())
}

#[test]
fn makes_by_causes(rt: HostRuntime) -> Result<(), Fail> {
    let alloc = rt.alloc();
    let usage = "usage: drda_gateway make SEED APPS UNITS\n";
    let script =
        "rdb SAMPLE\ncap 2\nmember 1 1\nmember 2 1\nuser U1 P\nstart 1 U1 P\nsettle 100000\n\
sql 1 INSERT INTO T VALUES (1, 'V19564')\nsettle 100000\ncommit 1\nsettle 100000\nend 1\n";
    assert!(rt; makes(alloc, "make 7 1 1", &[], 0, script)?);
    assert!(rt; makes(alloc, "make 7 0 1", &[], 1, usage)?);
    assert!(rt; makes(alloc, "make 07 1 1", &[], 1, usage)?);
    assert!(rt; makes(alloc, "make 7 1 101", &[0], 1, "")?);
    assert!(rt; makes(alloc, "make 7 1 1", &[0], 4, "")?);
    Ok(())
}

/// Words of `member` that are right.
const SERVES_ONE: &str = "member --listen 127.0.0.1:0 --sessions 1 --workers 1 ALICE:SECRET";

/// The same without a user.
const SERVES_NOBODY: &str = "member --listen 127.0.0.1:0 --sessions 1 --workers 1";

/// What a gateway says first to a member, and what it is answered: EXCSAT with the levels of both, and EXCSATRD.
const HELLO: &str = "0022D0010001001C1041001814041403000724070007240F00071440000714740005";

const WELCOME: &str = "0022D0030001001C1443001814041403000724070007240F00071440000714740005";

/// The bytes that these digits spell; none where they spell none.
fn bytes_of(alloc: Global, digits: &str) -> Result<Octets, NoMemory> {
    match read_hex(alloc, digits.as_bytes())? {
        Some(bytes) => Ok(bytes),
        None => Ok(Octets::new(alloc)),
    }
}

/// A link that nobody used, which says the first chain and then ends.
fn hello(alloc: Global) -> Result<MemLink, NoMemory>
    ensures { IfOk result (λ link. IsFresh (wire_state link)) }
{
    let fails = Marks::of(alloc, &[])?;
    MemLink::new(alloc, bytes_of(alloc, HELLO)?, 1_048_576, fails)
}

/// A door with so many such links.
fn door(alloc: Global, links: u32) -> Result<MemDoor<MemLink>, NoMemory> {
    let mut door = MemDoor::new(alloc);
    for _ in 0..links {
        door.add(hello(alloc)?)?;
    }
    Ok(door)
}

/// Whether `member` with one door of so many links answers this status and writes this text, where these calls of its sink fail, and
/// whether a link came back with its answer.
fn serves<R: Threads + Wait + Sync>(
    rt: &R,
    alloc: Global,
    line: &str,
    links: u32,
    fails: &[u32],
    (status, written, answered): (u8, &str, bool),
) -> Result<bool, NoMemory> {
    let words = words_of(alloc, line)?;
    let mut doors = Vec::new(alloc);
    doors.push(door(alloc, links)?)?;
    let mut sink = MemSink::new(alloc, 1_048_576, Marks::of(alloc, fails)?)?;
    let answer = member(rt, alloc, &words, &mut doors, &mut sink);
    let welcome = bytes_of(alloc, WELCOME)?;
    let is_answered = match came_back(&doors) {
        Some(link) => link.written() == welcome.as_slice(),
        None => false,
    };
    Ok(answer == status && sink.written() == written.as_bytes() && is_answered == answered)
}

/// The first link that came back to the first door.
fn came_back(doors: &[MemDoor<MemLink>]) -> Option<&MemLink> {
    doors.first()?.served(0)
}

#[test]
fn serves_as_a_member_by_causes(rt: HostRuntime) -> Result<(), Fail> {
    let alloc = rt.alloc();
    let usage = "usage: drda_gateway member --listen ADDR --sessions N --workers N USER...\n";
    let told = "sessions 1\ncommits 0\n";
    assert!(rt; serves(&rt, alloc, SERVES_ONE, 1, &[], (0, told, true))?);
    assert!(rt; serves(&rt, alloc, SERVES_NOBODY, 1, &[], (1, usage, false))?);
    assert!(rt; serves(&rt, alloc, SERVES_NOBODY, 1, &[0], (1, "", false))?);
    assert!(rt; serves(&rt, alloc, SERVES_ONE, 0, &[], (3, "", false))?);
    assert!(rt; serves(&rt, alloc, SERVES_ONE, 1, &[0], (4, "", true))?);
    Ok(())
}

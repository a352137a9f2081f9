ghost use Rattle.std.specs.Prelude.{IfOk};
ghost use Rattle.link_ends.specs.Link.{IsFresh};
ghost use Rattle.link_ends.specs.Prepared.{wire_state};

use super::*;
use gateway_server::Done;
use gateway_session::End;
use gateway_workers::{NoGate, WorkerEnds};
use hex_lines::read_hex;
use link_ends::{Marks, MemDial, MemDoor, MemLink, MemSink, NoMemory, Octets};
use std::alloc::Global;
use std::sync::Wait;
use std::test::Fail;
use std::thread::Threads;

/// What an application sends: EXCSAT and ACCSEC, SECCHK and ACCRDB, an INSERT, and RDBCMM.
const SENT: &str = "\
0022D0410001001C1041001814041403000724070007240F000714400007147400050026D00100020020106D000611A2000300162110E2C1D4D7D3C5404040404040404040404040 \
0039D04100010033106E000611A20003000911A0C1D3C9C3C5000A11A1E2C5C3D9C5E300162110E2C1D4D7D3C5404040404040404040404040 \
0049D0010002004320010006210F2407000C112EE2C3D9F0F1F0F1F0000D002FD8E3C4E2D8D3F3F7F000162110E2C1D4D7D3C5404040404040404040404040000A00350006119C0025 \
000AD05100010004200A002DD003000100272414000000001DC9D5E2C5D9E340C9D5E3D640E340E5C1D3E4C5E2404DF16B407DC17D5DFF000AD00100010004200E";

/// What it is answered: EXCSATRD and ACCSECRD, SECCHKRM and ACCRDBRM, a SQLCARD, and ENDUOWRM with a SQLCARD.
const SAID: [&str; 4] = [
    "\
003FD043000100391443000A1147C4D9C4C1C7E6000B116DC7C1E3C5E6C1E80008115AC7E6F0F1001814041403000724070007240F00071440000714740005\
0010D0030002000A14AC000611A20003",
    "0015D0420001000F1219000611490000000511A4000033D0020002002D2201000611490000000C112EC7D9D7F0F1F0F1F0000D002FD8E3C4E2D8D3F3F7F0000A00350006119C0025",
    "000BD003000100052408FF",
    "0015D0520001000F220C0006114900040005211501000BD003000100052408FF",
];

/// What its member answers to the first command of a new transport, EXCSATRD, and then chain by chain: ACCSECRD, SECCHKRM, ACCRDBRM,
/// a SQLCARD, and ENDUOWRM with RLSCONV and a SQLCARD.
const WELCOMED: &str = "0022D0030001001C1443001814041403000724070007240F00071440000714740005";

const ANSWERED: &str = "\
0010D0030001000A14AC000611A20003 0015D0020001000F1219000611490000000511A400 \
0033D0020001002D2201000611490000000C112EC7D9D7F0F1F0F1F0000D002FD8E3C4E2D8D3F3F7F0000A00350006119C0025 000BD003000100052408FF \
001AD05200010014220C00061149000400052115010005119FF2000BD003000100052408FF";

/// The same with a list in ACCRDBRM: member 2 with a weight of 5, member 1 with a weight of 0.
const ANSWERED_WITH_LIST: &str = "\
0010D0030001000A14AC000611A20003 0015D0020001000F1219000611490000000511A400 \
0041D0020001003B2201000611490000000C112EC7D9D7F0F1F0F1F0000D002FD8E3C4E2D8D3F3F7F0000A00350006119C0025000E244E01020002000500010000 \
000BD003000100052408FF 001AD05200010014220C00061149000400052115010005119FF2000BD003000100052408FF";

/// ABNUOWRM of SAMPLE and the beginning of a SQLCARD, as DSSs of number 1; behind a code and a state follow the blanks of its end.
const UNDONE: &str =
    "0026D05200010020220D00061149000800162110E2C1D4D7D3C5404040404040404040404040001ED00300010018240800FFFF";

const BLANKS: &str = "4040404040404040FFFF";

/// AGNPRMRM, permanent agent error, as a DSS of number 1; and as one of number 2, behind SECCHKRM.
const REFUSED: &str = "0010D0020001000A1232000611490010";

const CHECKED: &str = "0015D0420001000F1219000611490000000511A400";

const REFUSED_LATER: &str = "0010D0020002000A1232000611490010";

/// The bytes that these texts spell, whose words blanks part.
fn bytes_of(alloc: Global, texts: &[&str]) -> Result<Octets, NoMemory> {
    let mut bytes = Octets::new(alloc);
    for text in texts {
        for word in text.split(' ') {
            if let Some(read) = read_hex(alloc, word.as_bytes())? {
                bytes.push_all(read.as_slice())?;
            }
        }
    }
    Ok(bytes)
}

/// The places at which these words end.
fn ends_of(alloc: Global, texts: &[&str]) -> Result<Marks, NoMemory> {
    let mut ends: Vec<u32> = Vec::new(alloc);
    let mut end: u32 = 0;
    for text in texts {
        for word in text.split(' ') {
            end = end.saturating_add(u32::try_from(word.len() / 2).unwrap_or(0));
            ends.push(end)?;
        }
    }
    Marks::of(alloc, ends.as_slice())
}

/// A link that nobody used, which gives the bytes of one word in a read, and whose calls of these numbers fail.
fn new_link(alloc: Global, texts: &[&str], fails: &[u32]) -> Result<MemLink, NoMemory>
    ensures { IfOk result (λ link. IsFresh (wire_state link)) }
{
    let cuts = ends_of(alloc, texts)?;
    let fails = Marks::of(alloc, fails)?;
    let link = MemLink::paced(alloc, bytes_of(alloc, texts)?, 1_048_576, cuts, fails)?;
    Ok(link)
}

/// A link to a member: its number, what it answers, and which calls fail.
type Prepared<'a> = (u32, &'a [&'a str], &'a [u32]);

/// The ends of one worker over links in memory.
type Ends = Vec<WorkerEnds<MemDoor<Done<MemLink>>, MemDial>>;

/// A worker's ends: a door with so many applications, whose calls of these numbers fail, and a dial with these links.
fn new_ends(
    alloc: Global,
    applications: u32,
    fails: &[u32],
    links: &[Prepared],
) -> Result<Ends, NoMemory> {
    let mut door = MemDoor::new(alloc);
    for _ in 0..applications {
        door.add(new_link(alloc, &[SENT], fails)?)?;
    }
    let mut dial = MemDial::new(alloc);
    for (member, texts, fails) in links {
        dial.add(*member, new_link(alloc, texts, fails)?)?;
    }
    let mut ends = Vec::new(alloc);
    ends.push(WorkerEnds { door, dial })?;
    Ok(ends)
}

/// The words of a line, which blanks part.
fn words_of(alloc: Global, line: &str) -> Result<Vec<String>, NoMemory> {
    let mut words = Vec::new(alloc);
    for word in line.split(' ') {
        words.push(String::from_str(alloc, word)?)?;
    }
    Ok(words)
}

fn name_of(end: &End) -> &'static str {
    match end {
        End::AppEnded => "ended",
        End::AppFault => "failed",
        End::NoMember { .. } => "no member",
        _ => "another",
    }
}

/// How many sessions came back to the door, of which each ended so, and whose application was said just this.
fn came_back(alloc: Global, ends: &Ends, end: &str, said: &[&str]) -> Result<u64, NoMemory> {
    let said = bytes_of(alloc, said)?;
    let mut count = 0;
    for one in ends {
        for i in 0..8 {
            if let Some(done) = one.door.served(i) {
                if name_of(done.end()) == end && done.link().written() == said.as_slice() {
                    count = u64::saturating_add(count, 1);
                }
            }
        }
    }
    Ok(count)
}

/// The words of a gateway for one session of member 1.
const ONE: &str =
    "serve --listen 127.0.0.1:0 --rdb SAMPLE --sessions 1 --workers 1 --cap 2 127.0.0.1:1=1";

/// The same for two sessions, and for two of members 1 and 2.
const TWO: &str =
    "serve --listen 127.0.0.1:0 --rdb SAMPLE --sessions 2 --workers 1 --cap 2 127.0.0.1:1=1";

const TWO_MEMBERS: &str = "\
serve --listen 127.0.0.1:0 --rdb SAMPLE --sessions 2 --workers 1 --cap 1 127.0.0.1:1=1 127.0.0.1:2=1";

/// Words without a database, and words for two workers.
const NO_DATABASE: &str =
    "serve --listen 127.0.0.1:0 --sessions 1 --workers 1 --cap 2 127.0.0.1:1=1";

const TWO_WORKERS: &str =
    "serve --listen 127.0.0.1:0 --rdb SAMPLE --sessions 1 --workers 2 --cap 2 127.0.0.1:1=1";

const USAGE: &str = "\
usage: drda_gateway serve --listen ADDR --rdb NAME --sessions N --workers N --cap N MEMBER...\n";

/// Words of `serve`; how many applications there are, and which links to members; which calls of the sink fail; and the status, what is
/// written, and how many sessions come back that their applications ended, each said all.
type Case<'a> = (
    &'a str,
    u32,
    &'a [Prepared<'a>],
    &'a [u32],
    (u8, &'a str, u64),
);

/// Whether `serve` over one worker's ends does what a case tells.
fn holds<R: Threads + Wait + Sync>(
    rt: &R,
    alloc: Global,
    (line, applications, links, fails, (status, written, sessions)): Case,
) -> Result<bool, NoMemory> {
    let words = words_of(alloc, line)?;
    let mut ends = new_ends(alloc, applications, &[], links)?;
    let mut sink = MemSink::new(alloc, 1_048_576, Marks::of(alloc, fails)?)?;
    let answer = serve(rt, alloc, &words, &mut ends, &mut sink, &NoGate);
    let came = came_back(alloc, &ends, "ended", &SAID)?;
    Ok(answer == status && sink.written() == written.as_bytes() && came == sessions)
}

#[test]
fn serves_by_causes(rt: HostRuntime) -> Result<(), Fail> {
    let one: [Prepared; 1] = [(1, &[WELCOMED, ANSWERED], &[])];
    let again: [Prepared; 1] = [(1, &[WELCOMED, ANSWERED, ANSWERED], &[])];
    let both: [Prepared; 2] = [
        (1, &[WELCOMED, ANSWERED_WITH_LIST], &[]),
        (2, &[WELCOMED, ANSWERED], &[]),
    ];
    let cases: [Case; 9] = [
        (ONE, 1, &one, &[], (0, "sessions 1\ncalls 2\n", 1)),
        (TWO, 2, &again, &[], (0, "sessions 2\ncalls 4\n", 2)),
        (TWO_MEMBERS, 2, &both, &[], (0, "sessions 2\ncalls 5\n", 2)),
        (NO_DATABASE, 1, &one, &[], (1, USAGE, 0)),
        (NO_DATABASE, 1, &one, &[0], (1, "", 0)),
        (TWO_WORKERS, 1, &one, &[], (1, USAGE, 0)),
        (ONE, 0, &one, &[], (3, "", 0)),
        (TWO, 1, &one, &[], (3, "", 1)),
        (ONE, 1, &one, &[0], (4, "", 1)),
    ];
    for case in cases {
        assert!(rt; holds(&rt, rt.alloc(), case)?);
    }
    Ok(())
}

/// How one session ends, and what its application is said, where these calls of its own link fail, over these links to member 1.
fn ends_so<R: Threads + Wait + Sync>(
    rt: &R,
    alloc: Global,
    fails: &[u32],
    links: &[Prepared],
    (end, said): (&str, &[&str]),
) -> Result<bool, NoMemory> {
    let words = words_of(alloc, ONE)?;
    let mut ends = new_ends(alloc, 1, fails, links)?;
    let mut sink = MemSink::new(alloc, 1_048_576, Marks::of(alloc, &[])?)?;
    let status = serve(rt, alloc, &words, &mut ends, &mut sink, &NoGate);
    Ok(status == 0 && came_back(alloc, &ends, end, said)? == 1)
}

// A row is the first and the last of the calls of the application's link of which one fails, and what was said before.
#[test]
fn a_call_of_the_application_fails(rt: HostRuntime) -> Result<(), Fail> {
    let alloc = rt.alloc();
    for (first, last, said) in [(0, 1, 0), (2, 4, 1), (5, 6, 2), (7, 7, 3), (8, 8, 4)] {
        for call in first..=last {
            let links: [Prepared; 1] = [(1, &[WELCOMED, ANSWERED], &[])];
            assert!(rt; ends_so(&rt, alloc, &[call], &links, ("failed", &SAID[..said]))?);
        }
    }
    Ok(())
}

/// What a second transport's member answers to the chain that leads to SECCHK's place, and to ACCRDB's.
const CHECKED_AGAIN: &str =
    "0010D0430001000A14AC000611A200030015D0020002000F1219000611490000000511A400";

const ENTERED_AGAIN: &str = "\
0010D0430001000A14AC000611A200030015D0420002000F1219000611490000000511A400\
0033D0020003002D2201000611490000000C112EC7D9D7F0F1F0F1F0000D002FD8E3C4E2D8D3F3F7F0000A00350006119C0025";

/// The rest of what it answers: ACCRDBRM; and a SQLCARD, and ENDUOWRM with a SQLCARD.
const ENTERED: &str =
    "0033D0020001002D2201000611490000000C112EC7D9D7F0F1F0F1F0000D002FD8E3C4E2D8D3F3F7F0000A00350006119C0025";

const COMMITTED: &str = "\
000BD003000100052408FF 001AD05200010014220C00061149000400052115010005119FF2000BD003000100052408FF";

/// Calls of the first transport, of which one fails; what a second one's member answers; what the application is said where that one
/// can be dialled; and where none can.
#[derive(Drop)]
struct FailingCalls<'a> {
    first: u32,
    last: u32,
    second: &'a [&'a str],
    again: &'a [&'a str],
    alone: &'a [&'a str],
}

// The calls are a write and a read for each of EXCSAT, ACCSEC, SECCHK, ACCRDB, the INSERT and RDBCMM.
#[test]
fn a_call_of_a_transport_fails(rt: HostRuntime) -> Result<(), Fail> {
    let alloc = rt.alloc();
    let [greeted, entered, inserted, _] = SAID;
    let rows = [
        FailingCalls {
            first: 0,
            last: 5,
            second: &[WELCOMED, ANSWERED],
            again: &SAID,
            alone: &[greeted, REFUSED],
        },
        FailingCalls {
            first: 6,
            last: 7,
            second: &[WELCOMED, CHECKED_AGAIN, ENTERED, COMMITTED],
            again: &SAID,
            alone: &[greeted, CHECKED, REFUSED_LATER],
        },
        FailingCalls {
            first: 8,
            last: 9,
            second: &[WELCOMED, ENTERED_AGAIN, COMMITTED],
            again: &SAID,
            alone: &[greeted, entered, UNDONE, "8A7FF0F8F0F0F1", BLANKS],
        },
        FailingCalls {
            first: 10,
            last: 10,
            second: &[WELCOMED, ENTERED_AGAIN],
            again: &[greeted, entered, inserted, UNDONE, "8A64F0F8F5F0F6", BLANKS],
            alone: &[greeted, entered, inserted, UNDONE, "8A7FF0F8F0F0F1", BLANKS],
        },
        FailingCalls {
            first: 11,
            last: 11,
            second: &[WELCOMED, ENTERED_AGAIN],
            again: &[greeted, entered, inserted, UNDONE, "8A64F0F8F0F0F7", BLANKS],
            alone: &[greeted, entered, inserted, UNDONE, "8A7FF0F8F0F0F7", BLANKS],
        },
    ];
    for row in &rows {
        for call in row.first..=row.last {
            let fails = [call];
            let links: [Prepared; 2] = [(1, &[WELCOMED, ANSWERED], &fails), (1, row.second, &[])];
            assert!(rt; ends_so(&rt, alloc, &[], &links, ("ended", row.again))?);
            assert!(rt; ends_so(&rt, alloc, &[], &links[..1], ("no member", row.alone))?);
        }
    }
    Ok(())
}

ghost use Rattle.std.specs.Prelude.{◌≡◌, IfOk, None};
ghost use Rattle.link_ends.specs.Link.{IsFresh};
ghost use Rattle.link_ends.specs.Prepared.{wire_state};

use super::*;
use gateway_server::Done;
use hex_lines::read_hex;
use link_ends::{Door, Failed, Link, Marks, MemDial, MemDoor, MemLink, NoMemory, Octets};
use reply_texts::RdbName;
use server_list::{ServerList, ServerRow};
use std::alloc::Global;
use std::sync::Wait;
use std::sync::atomic::{AtomicU64, Ordering};
use std::test::Fail;
use std::thread;
use std::thread::Threads;
use transport_pool::House;

/// What the application sends: EXCSAT and ACCSEC, SECCHK and ACCRDB, an INSERT, and RDBCMM.
const SENT: &str = "\
0022D0410001001C1041001814041403000724070007240F000714400007147400050026D00100020020106D000611A2000300162110E2C1D4D7D3C5404040404040404040404040\
0039D04100010033106E000611A20003000911A0C1D3C9C3C5000A11A1E2C5C3D9C5E300162110E2C1D4D7D3C5404040404040404040404040\
0049D0010002004320010006210F2407000C112EE2C3D9F0F1F0F1F0000D002FD8E3C4E2D8D3F3F7F000162110E2C1D4D7D3C5404040404040404040404040000A00350006119C0025\
000AD05100010004200A002DD003000100272414000000001DC9D5E2C5D9E340C9D5E3D640E340E5C1D3E4C5E2404DF16B407DC17D5DFF000AD00100010004200E";

/// What it is answered: EXCSATRD and ACCSECRD, SECCHKRM and ACCRDBRM, a SQLCARD, and ENDUOWRM with a SQLCARD.
const SAID: &str = "\
003FD043000100391443000A1147C4D9C4C1C7E6000B116DC7C1E3C5E6C1E80008115AC7E6F0F1001814041403000724070007240F000714400007147400050010D0030002000A14AC00\
0611A200030015D0420001000F1219000611490000000511A4000033D0020002002D2201000611490000000C112EC7D9D7F0F1F0F1F0000D002FD8E3C4E2D8D3F3F7F0000A00350006119C0025\
000BD003000100052408FF0015D0520001000F220C0006114900040005211501000BD003000100052408FF";

/// What its member answers, chain by chain: EXCSATRD, ACCSECRD, SECCHKRM, ACCRDBRM, a SQLCARD, and ENDUOWRM with RLSCONV and a SQLCARD.
const ANSWERED: &str = "\
0022D0030001001C1443001814041403000724070007240F00071440000714740005 0010D0030001000A14AC000611A20003 0015D0020001000F1219000611490000000511A400 \
0033D0020001002D2201000611490000000C112EC7D9D7F0F1F0F1F0000D002FD8E3C4E2D8D3F3F7F0000A00350006119C0025 000BD003000100052408FF \
001AD05200010014220C00061149000400052115010005119FF2000BD003000100052408FF";

/// The bytes that these words spell, which blanks part.
fn bytes_of(alloc: Global, words: &str) -> Result<Octets, NoMemory> {
    let mut bytes = Octets::new(alloc);
    for word in words.split(' ') {
        if let Some(read) = read_hex(alloc, word.as_bytes())? {
            bytes.push_all(read.as_slice())?;
        }
    }
    Ok(bytes)
}

/// The places at which these words end.
fn ends_of(alloc: Global, words: &str) -> Result<Marks, NoMemory> {
    let mut ends: Vec<u32> = Vec::new(alloc);
    let mut end: u32 = 0;
    for word in words.split(' ') {
        end = end.saturating_add(u32::try_from(word.len() / 2).unwrap_or(0));
        ends.push(end)?;
    }
    Marks::of(alloc, ends.as_slice())
}

/// An application's link.
fn app(alloc: Global) -> Result<MemLink, NoMemory>
    ensures { IfOk result (λ link. IsFresh (wire_state link)) }
{
    MemLink::new(
        alloc,
        bytes_of(alloc, SENT)?,
        1_048_576,
        Marks::of(alloc, &[])?,
    )
}

/// A link to member 1, which serves one session. A read of it ends where a reply does.
fn server(alloc: Global) -> Result<MemLink, NoMemory>
    ensures { IfOk result (λ link. IsFresh (wire_state link)) }
{
    let cuts = ends_of(alloc, ANSWERED)?;
    let fails = Marks::of(alloc, &[])?;
    MemLink::paced(alloc, bytes_of(alloc, ANSWERED)?, 1_048_576, cuts, fails)
}

/// A door with so many applications.
fn door<B: Drop>(alloc: Global, links: u32) -> Result<MemDoor<B>, NoMemory> {
    let mut door = MemDoor::new(alloc);
    for _ in 0..links {
        door.add(app(alloc)?)?;
    }
    Ok(door)
}

/// A dial that reaches member 1 so often.
fn dial(alloc: Global, links: u32) -> Result<MemDial, NoMemory> {
    let mut dial = MemDial::new(alloc);
    for _ in 0..links {
        dial.add(1, server(alloc)?)?;
    }
    Ok(dial)
}

/// A pool of member 1 that nobody called, which may lend two transports, with numbers for so many sessions.
fn new_house(alloc: Global, sessions: u32) -> Result<House<MemLink>, Fail>
    ensures { IfOk result (λ house. (house.decided.calls ≡ 0) × (house.decided.dials ≡ 0)) }
{
    let mut list = ServerList::new();
    list.push(ServerRow {
        member: 1,
        weight: 1,
    });
    if list.is_empty() || list.number() != 0 {
        return Err(Fail::from("a list without members, or with a number"));
    }
    Ok(House::<MemLink>::new(alloc, 2, &list, sessions)?)
}

/// Serves the doors of these workers, with numbers for so many sessions.
fn serve<
    R: Threads + Wait + Sync,
    A: Link + Send,
    D: Door<L = A, Back = Done<A>> + Send + Drop,
    G: Gate + Sync,
>(
    rt: &R,
    alloc: Global,
    sessions: u32,
    ends: Vec<WorkerEnds<D, MemDial>>,
    gate: &G,
) -> Result<Served<D, MemDial>, Fail> {
    let Some(rdb) = RdbName::of(b"SAMPLE") else {
        return Err(Fail::from("no name"));
    };
    let house = new_house(alloc, sessions)?;
    Ok(serve_links(rt, alloc, &rdb, house, ends, gate)?)
}

type Ends = WorkerEnds<MemDoor<Done<MemLink>>, MemDial>;

/// So many workers, each with a door of so many applications.
fn ends(alloc: Global, workers: u32, links: u32) -> Result<Vec<Ends>, NoMemory> {
    let mut ends = Vec::new(alloc);
    for _ in 0..workers {
        ends.push(WorkerEnds {
            door: door(alloc, links)?,
            dial: dial(alloc, links)?,
        })?;
    }
    Ok(ends)
}

/// How many links came back to this door, if each was said all that it was to be said.
fn answered(said: &[u8], door: &MemDoor<Done<MemLink>>, most: u32) -> Option<u64> {
    let mut count: u64 = 0;
    for i in 0..most {
        match door.served(i as usize) {
            Some(done) if done.link().written() == said => count = count.saturating_add(1),
            Some(_) => return None,
            None => break,
        }
    }
    Some(count)
}

/// How many sessions were served, how often a dial was granted, and whether a door failed. None where one of the links that came back
/// wasn't said all, or another number of them came back.
fn serves<R: Threads + Wait + Sync>(
    rt: &R,
    alloc: Global,
    workers: u32,
    links: u32,
    sessions: u32,
) -> Result<Option<(u64, u64, bool)>, Fail> {
    let served = serve(rt, alloc, sessions, ends(alloc, workers, links)?, &NoGate)?;
    let said = bytes_of(alloc, SAID)?;
    let mut came: u64 = 0;
    for one in &served.ends {
        match answered(said.as_slice(), &one.door, links) {
            Some(count) => came = came.saturating_add(count),
            None => return Ok(None),
        }
    }
    if came != served.sessions || served.refused {
        return Ok(None);
    }
    Ok(Some((served.sessions, served.dials, served.door_failed)))
}

// A row is how many workers there are, how many applications the door of each has, how many numbers of sessions there are; and how many
// sessions were served, how often a dial was granted, and whether a door failed. A member's link serves one session, so that each session
// is granted a dial, one that was lent an idle transport too.
#[test]
fn workers_serve_the_links_of_their_doors(rt: HostRuntime) -> Result<(), Fail> {
    for (workers, links, numbers, sessions, dials, failed) in [
        (1, 1, 1, 1, 1, false),
        (1, 2, 2, 2, 2, false),
        (1, 0, 1, 0, 0, true),
        (1, 2, 1, 1, 1, false),
        (2, 1, 4, 2, 2, true),
        (3, 2, 9, 6, 6, true),
        (0, 1, 1, 0, 0, false),
    ] {
        assert_eq!(rt;
            serves(&rt, rt.alloc(), workers, links, numbers)?,
            Some((sessions, dials, failed))
        );
    }
    Ok(())
}

/// How many writes each of two applications' links took, and how many waits were in vain.
#[derive(Drop)]
struct Meeting {
    first: AtomicU64,
    second: AtomicU64,
    in_vain: AtomicU64,
}

impl Meeting {
    /// The writes of one of the two.
    fn writes(&self, first: bool) -> &AtomicU64 {
        if first { &self.first } else { &self.second }
    }

    /// Waits until that one took so many writes.
    fn wait(&self, first: bool, writes: u64) {
        let taken = self.writes(first);
        for _ in 0..1_000_000u32 {
            if taken.load(Ordering::SeqCst) >= writes {
                return;
            }
            thread::yield_now();
        }
        self.in_vain.fetch_add(1, Ordering::SeqCst);
    }
}

/// The first session begins once a byte was written to one of the two.
impl Gate for Meeting {
    fn at_session(&self, session: u32) {
        if session != 1 {
            return;
        }
        for _ in 0..1_000_000u32 {
            if self.first.load(Ordering::SeqCst) > 0 || self.second.load(Ordering::SeqCst) > 0 {
                return;
            }
            thread::yield_now();
        }
        self.in_vain.fetch_add(1, Ordering::SeqCst);
    }
}

/// A link each of whose writes waits until the other link took as many as this one.
#[derive(Drop)]
struct MeetingLink<'a> {
    link: MemLink,
    meeting: &'a Meeting,
    first: bool,
    writes: u64,
}

impl Link for MeetingLink<'_> {
    ghost state = { λ l. wire_state l.link };

    ghost reads = { λ old buffer result buffer_now new. Unit {0} };

    ghost writes = { λ old piece result new. Unit {0} };

    fn read(&mut self, buf: &mut [u8]) -> Result<usize, Failed> {
        self.link.read(buf)
    }

    fn write(&mut self, piece: &[u8]) -> Result<usize, Failed> {
        self.meeting.wait(!self.first, self.writes);
        let result = self.link.write(piece);
        self.writes = self.writes.saturating_add(1);
        self.meeting
            .writes(self.first)
            .fetch_add(1, Ordering::SeqCst);
        result
    }
}

/// A door of such links, which keeps what came back last.
#[derive(Drop)]
struct MeetingDoor<'a> {
    door: MemDoor<bool>,
    meeting: &'a Meeting,
    first: bool,
    came: Option<Done<MeetingLink<'a>>>,
}

impl<'a> Door for MeetingDoor<'a> {
    type L = MeetingLink<'a>;

    type Back = Done<MeetingLink<'a>>;

    ghost state = { λ d. record { given = d.door.given; faults = d.door.faults; came = None } };

    fn take(&mut self) -> Result<MeetingLink<'a>, Failed> {
        match self.door.take() {
            Ok(link) => Ok(MeetingLink {
                link,
                meeting: self.meeting,
                first: self.first,
                writes: 0,
            }),
            Err(Failed) => Err(Failed),
        }
    }

    fn back(&mut self, done: Done<MeetingLink<'a>>) {
        self.came = Some(done);
    }
}

/// The ends of two workers with a link each.
fn meeting_ends<'a>(
    alloc: Global,
    meeting: &'a Meeting,
) -> Result<Vec<WorkerEnds<MeetingDoor<'a>, MemDial>>, NoMemory> {
    let mut ends = Vec::new(alloc);
    for first in [true, false] {
        ends.push(WorkerEnds {
            door: MeetingDoor {
                door: door(alloc, 1)?,
                meeting,
                first,
                came: None,
            },
            dial: dial(alloc, 1)?,
        })?;
    }
    Ok(ends)
}

/// Two sessions, neither of which goes on until the other was said as much, hold a transport each.
#[test]
fn two_workers_serve_at_once(rt: HostRuntime) -> Result<(), Fail> {
    let meeting = Meeting {
        first: AtomicU64::new(0),
        second: AtomicU64::new(0),
        in_vain: AtomicU64::new(0),
    };
    let ends = meeting_ends(rt.alloc(), &meeting)?;
    let served = serve(&rt, rt.alloc(), 2, ends, &meeting)?;
    let said = bytes_of(rt.alloc(), SAID)?;
    for one in &served.ends {
        match &one.door.came {
            Some(done) => assert!(rt; done.link().link.written() == said.as_slice()),
            None => return Err(Fail::from("a link that did not come back")),
        }
    }
    assert_eq!(rt; meeting.in_vain.load(Ordering::SeqCst), 0);
    assert_eq!(rt; (served.sessions, served.calls, served.dials), (2, 4, 2));
    assert!(rt; !served.door_failed && !served.refused);
    Ok(())
}

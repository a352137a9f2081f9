ghost use Rattle.std.specs.Prelude.{IfOk};
ghost use Rattle.link_ends.specs.Link.{IsFresh};
ghost use Rattle.link_ends.specs.Prepared.{wire_state};

use super::*;
use group_store::Store;
use hex_lines::read_hex;
use link_ends::{Marks, MemDoor, MemLink, NoMemory, Octets};
use std::alloc::Global;
use std::sync::{Mutex, Wait};
use std::test::Fail;
use std::thread::Threads;

// A row is a line of five fields, parted by `|`: the bytes that a link has, in digits; how many written bytes fit; the number of the
// call that fails, or none; how the conversation ends; and the bytes that were written, in digits. The rows: EXCSAT, and its answer;
// the same with no room for it; a read that fails; a DSS of five bytes, which is answered SYNTAXRM; and half a DSS.
const ROWS: &str = "\
0022D0010001001C1041001814041403000724070007240F00071440000714740005|100||ended|\
0022D0030001001C1443001814041403000724070007240F00071440000714740005
0022D0010001001C1041001814041403000724070007240F00071440000714740005|0||fault|
0022D001|100|0|fault|
0005D001000100041041|100||dead|0015D0020000000F124C0006114900080005114A01
0022D0010001|100||ended|";

/// The field before the first `|` of a line, and what stands behind it.
fn field(line: &str) -> (&str, &str) {
    match line.split_once('|') {
        Some(fields) => fields,
        None => (line, ""),
    }
}

/// The bytes that these digits spell; none where they spell none.
fn bytes(alloc: Global, digits: &str) -> Result<Octets, NoMemory> {
    match read_hex(alloc, digits.as_bytes())? {
        Some(bytes) => Ok(bytes),
        None => Ok(Octets::new(alloc)),
    }
}

/// The call of this number is to fail; none where it is no number.
fn marks(alloc: Global, number: &str) -> Result<Marks, NoMemory> {
    match number.parse::<u32>() {
        Ok(call) => Marks::of(alloc, &[call]),
        Err(_) => Marks::of(alloc, &[]),
    }
}

fn name_of(end: MemberEnd) -> &'static str {
    match end {
        MemberEnd::Ended => "ended",
        MemberEnd::Fault => "fault",
        MemberEnd::Dead => "dead",
        MemberEnd::NoMemory => "no memory",
    }
}

/// Serves a link with this row's bytes, room and failing call, and says whether it ends as the row says.
fn holds<R: Wait>(rt: &R, alloc: Global, row: &str) -> Result<bool, NoMemory> {
    let (digits, row) = field(row);
    let (room, row) = field(row);
    let (fails, row) = field(row);
    let room = room.parse::<u32>().unwrap_or(0);
    let mut link = MemLink::new(alloc, bytes(alloc, digits)?, room, marks(alloc, fails)?)?;
    let end = serve(rt, alloc, &mut link);
    is_told(alloc, end, link.written(), row)
}

fn serve<R: Wait>(rt: &R, alloc: Global, link: &mut MemLink) -> MemberEnd {
    let store = Mutex::new(Store::new(alloc));
    member_session(rt, alloc, &store, link)
}

/// Whether the row tells this end and these bytes.
fn is_told(alloc: Global, end: MemberEnd, written: &[u8], row: &str) -> Result<bool, NoMemory> {
    let (name, digits) = field(row);
    let told = bytes(alloc, digits)?;
    Ok(name == name_of(end) && told.as_slice() == written)
}

#[test]
fn a_link_is_answered_to_its_end(rt: HostRuntime) -> Result<(), Fail> {
    for row in ROWS.lines() {
        assert!(rt; holds(&rt, rt.alloc(), row)?);
    }
    Ok(())
}

/// EXCSAT, and its answer.
const ASKED: &str = "0022D0010001001C1041001814041403000724070007240F00071440000714740005";

const TOLD: &str = "0022D0030001001C1443001814041403000724070007240F00071440000714740005";

/// A link that nobody used, which asks EXCSAT and then ends.
fn asking(alloc: Global) -> Result<MemLink, NoMemory>
    ensures { IfOk result (λ link. IsFresh (wire_state link)) }
{
    MemLink::new(alloc, bytes(alloc, ASKED)?, 100, marks(alloc, "")?)
}

/// A door with so many such links.
fn door(alloc: Global, links: u32) -> Result<MemDoor<MemLink>, NoMemory> {
    let mut door = MemDoor::new(alloc);
    for _ in 0..links {
        door.add(asking(alloc)?)?;
    }
    Ok(door)
}

/// Whether as many links as were served came back, each with the answer.
fn came_back(alloc: Global, one: &Worked<MemDoor<MemLink>>) -> Result<bool, NoMemory> {
    let told = bytes(alloc, TOLD)?;
    for i in 0..one.sessions {
        match one.door.served(i as usize) {
            Some(link) if link.written() == told.as_slice() => {}
            _ => return Ok(false),
        }
    }
    Ok(one.door.served(one.sessions as usize).is_none())
}

/// How many links two workers serve, of whose doors each has as many as these, and whether a door failed; none where not each came
/// back with its answer.
fn serves<R: Threads + Wait + Sync>(
    rt: &R,
    alloc: Global,
    prepared: u32,
    links: u32,
) -> Result<Option<(u64, bool)>, NoMemory> {
    let store = Mutex::new(Store::new(alloc));
    let mut doors = Vec::new(alloc);
    doors.push(door(alloc, prepared)?)?;
    doors.push(door(alloc, prepared)?)?;
    let mut sessions: u64 = 0;
    let mut failed = false;
    for one in &serve_doors(rt, alloc, &store, doors, links)? {
        if !came_back(alloc, one)? {
            return Ok(None);
        }
        sessions = sessions.saturating_add(one.sessions);
        failed = failed || one.failed;
    }
    Ok(Some((sessions, failed)))
}

// A row is how many links each of two doors has, how many are asked for in all, how many are served, and whether a door failed.
#[test]
fn workers_serve_the_links_of_their_doors(rt: HostRuntime) -> Result<(), Fail> {
    for (prepared, links, sessions, failed) in [
        (2, 2, 2, false),
        (1, 3, 2, true),
        (0, 1, 0, true),
    ] {
        assert_eq!(rt;
            serves(&rt, rt.alloc(), prepared, links)?,
            Some((sessions, failed))
        );
    }
    Ok(())
}

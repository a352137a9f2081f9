ghost use Rattle.std.specs.Prelude.{IfOk};
ghost use Rattle.link_ends.specs.Link.{IsFresh};
ghost use Rattle.link_ends.specs.Prepared.{wire_state};

use crate::{
    Dial, Door, Failed, Link, Marks, MemDial, MemDoor, MemLink, MemSink, MemSource, NoMemory,
    Octets, OctetsList, Sink, Source, Tape,
};
use bytes::Bytes;
use std::alloc::Global;
use std::test::Fail;

fn source(alloc: Global, bytes: &[u8], fails: &[u32]) -> Result<MemSource, NoMemory> {
    Ok(MemSource::new(Octets::of(alloc, bytes)?, Marks::of(alloc, fails)?))
}

fn sink(alloc: Global, room: u32, fails: &[u32]) -> Result<MemSink, NoMemory> {
    MemSink::new(alloc, room, Marks::of(alloc, fails)?)
}

/// The bytes 0 to 39: more than stand in a value.
fn forty() -> [u8; 40] {
    let mut bytes = [0u8; 40];
    for i in 0u8..40 {
        bytes[i as usize] = i;
    }
    bytes
}

#[test]
fn octets_grow(rt: HostRuntime) -> Result<(), Fail> {
    let mut octets = Octets::new(rt.alloc());
    assert!(rt; octets.is_empty());
    octets.push_all(b"ab")?;
    octets.push_all(b"")?;
    octets.push_all(b"c")?;
    assert_eq!(rt; octets.as_slice(), b"abc".as_slice());
    assert_eq!(rt; octets.len(), 3);
    octets.truncate(2);
    octets.truncate(5);
    assert_eq!(rt; octets.as_slice(), b"ab".as_slice());
    octets.push_all(&forty())?;
    octets.push_all(b"d")?;
    assert_eq!(rt; octets.len(), 43);
    octets.truncate(3);
    assert_eq!(rt; octets.as_slice(), b"ab\x00".as_slice());
    Ok(())
}

#[test]
fn a_part_stays_as_it_is_where_the_whole_grows(rt: HostRuntime) -> Result<(), Fail> {
    let frame = Octets::of(rt.alloc(), b"\x00\x0A\xD0\x01\x00\x01")?;
    assert_eq!(rt;
        frame.part(2, 6)?.as_slice(),
        b"\xD0\x01\x00\x01".as_slice()
    );
    let bytes = forty();
    let mut whole = Octets::of(rt.alloc(), &bytes)?;
    let part = whole.part(1, 40)?;
    assert_eq!(rt; part.len(), 39);
    let inner = part.part(2, 38)?;
    whole.push_all(b"more")?;
    assert_eq!(rt; whole.len(), 44);
    whole.advance(3);
    assert_eq!(rt; part.as_slice(), &bytes[1..]);
    assert_eq!(rt; inner.as_slice(), &bytes[3..39]);
    assert_eq!(rt; whole.len(), 41);
    Ok(())
}

#[test]
fn octets_are_given_up_at_the_front(rt: HostRuntime) -> Result<(), Fail> {
    let letters = b"abcdefghijklmnopqrstuvwxyz0123456789".as_slice();
    let mut grown = Vec::new(rt.alloc());
    grown.extend_from_slice(letters)?;
    let mut octets = Octets::from_grown(grown);
    assert_eq!(rt; octets.len(), 36);
    octets.advance(2);
    assert_eq!(rt; octets.as_slice(), &letters[2..]);
    let shared = Bytes::copy_from_slice(rt.alloc(), letters)?;
    let mut octets = Octets::from_shared(rt.alloc(), shared);
    octets.advance(30);
    assert_eq!(rt; octets.as_slice(), &letters[30..]);
    let few = Octets::short_front_of(rt.alloc(), letters, 3);
    assert_eq!(rt; few.as_slice(), b"abc".as_slice());
    Ok(())
}

#[test]
fn a_list_keeps_its_elements_in_order(rt: HostRuntime) -> Result<(), Fail> {
    let mut list = OctetsList::new(rt.alloc());
    assert!(rt; list.is_empty());
    list.push(Octets::of(rt.alloc(), b"a")?)?;
    list.push(Octets::of(rt.alloc(), b"bc")?)?;
    assert_eq!(rt; list.len(), 2);
    assert_eq!(rt; list.as_slice().len(), 2);
    assert_eq!(rt; list.get(1).map(|octets| octets.len()), Some(2));
    assert!(rt; list.get(2).is_none());
    Ok(())
}

#[test]
fn a_tape_is_taken_from_its_place(rt: HostRuntime) -> Result<(), Fail> {
    let mut tape = Tape::new(Octets::of(rt.alloc(), b"abcd")?);
    assert_eq!(rt; tape.left().len(), 4);
    tape.take(3);
    tape.push_all(b"e")?;
    assert_eq!(rt; tape.taken(), b"abc".as_slice());
    assert_eq!(rt; tape.left(), b"de".as_slice());
    tape.forget();
    assert!(rt; tape.taken().is_empty());
    assert_eq!(rt; tape.left(), b"de".as_slice());
    Ok(())
}

#[test]
fn ends_in_memory_answer_by_their_marks(rt: HostRuntime) -> Result<(), Fail> {
    let mut source = source(rt.alloc(), b"abcde", &[1])?;
    let mut buf = [0u8; 3];
    assert_eq!(rt; source.read(&mut buf), Ok(3));
    assert_eq!(rt; buf.as_slice(), b"abc".as_slice());
    assert_eq!(rt; source.read(&mut buf), Err(Failed));
    assert_eq!(rt; source.read(&mut buf), Ok(2));
    assert_eq!(rt; buf.as_slice(), b"dec".as_slice());
    assert_eq!(rt; source.read(&mut buf), Ok(0));

    let mut sink = sink(rt.alloc(), 5, &[1])?;
    assert_eq!(rt; sink.write(b"abc"), Ok(3));
    assert_eq!(rt; sink.write(b"def"), Err(Failed));
    assert_eq!(rt; sink.write(b"def"), Ok(2));
    assert_eq!(rt; sink.write(b"f"), Err(Failed));
    assert_eq!(rt; sink.write(b""), Ok(0));
    assert_eq!(rt; sink.written(), b"abcde".as_slice());
    Ok(())
}

/// A link of which no call is to fail.
fn link(alloc: Global, bytes: &[u8]) -> Result<MemLink, NoMemory>
    ensures { IfOk result (λ link. IsFresh (wire_state link)) }
{
    MemLink::new(alloc, Octets::of(alloc, bytes)?, 0, Marks::of(alloc, &[])?)
}

/// Reads five bytes at most, and appends them; `-` where the read fails.
fn put_read(link: &mut MemLink, said: &mut Octets) -> Result<(), NoMemory> {
    let mut buf = [0u8; 5];
    match link.read(&mut buf) {
        Ok(count) => said.push_all(&buf[..count]),
        Err(Failed) => said.push_all(b"-"),
    }
}

/// Writes a piece, and appends how many of its bytes were taken; `-` where the write fails.
fn put_write(link: &mut MemLink, piece: &[u8], said: &mut Octets) -> Result<(), NoMemory> {
    match link.write(piece) {
        Ok(0) => said.push_all(b"0"),
        Ok(1) => said.push_all(b"1"),
        Ok(2) => said.push_all(b"2"),
        Ok(_) => said.push_all(b"+"),
        Err(Failed) => said.push_all(b"-"),
    }
}

/// What a link answers to reads, which are `r`, and to writes, which are their pieces; each answer ends with a blank.
fn put_answers(link: &mut MemLink, calls: &str, said: &mut Octets) -> Result<(), NoMemory> {
    for call in calls.split(' ') {
        put_answer(link, call, said)?;
        said.push_all(b" ")?;
    }
    Ok(())
}

fn put_answer(link: &mut MemLink, call: &str, said: &mut Octets) -> Result<(), NoMemory> {
    if call == "r" {
        put_read(link, said)
    } else {
        put_write(link, call.as_bytes(), said)
    }
}

/// A link of eight bytes with room for two, with these cuts, of which the calls of these numbers are to fail.
fn answers(alloc: Global, cuts: &[u32], fails: &[u32], calls: &str) -> Result<Octets, NoMemory> {
    let (cuts, fails) = (Marks::of(alloc, cuts)?, Marks::of(alloc, fails)?);
    let mut link = MemLink::paced(alloc, Octets::of(alloc, b"abcdefgh")?, 2, cuts, fails)?;
    let mut said = Octets::new(alloc);
    put_answers(&mut link, calls, &mut said)?;
    said.push_all(link.written())?;
    Ok(said)
}

#[test]
fn a_link_counts_reads_and_writes_together(rt: HostRuntime) -> Result<(), Fail> {
    let said = answers(rt.alloc(), &[], &[1], "r d def f r r")?;
    assert_eq!(rt; said.as_slice(), b"abcde - 2 - fgh  de".as_slice());
    let said = answers(rt.alloc(), &[1, 4], &[], "r r r r")?;
    assert_eq!(rt; said.as_slice(), b"a bcd efgh  ".as_slice());
    Ok(())
}

/// What is read first of the link that a dial gives, `-` where it gives none.
fn put_dialled(dial: &mut MemDial, member: u32, said: &mut Octets) -> Result<(), NoMemory> {
    match dial.dial(member) {
        Ok(link) => put_first(link, said),
        Err(Failed) => said.push_all(b"-"),
    }
}

fn put_first(mut link: MemLink, said: &mut Octets) -> Result<(), NoMemory> {
    put_read(&mut link, said)
}

/// A dial with two links to member 2, and between them one to member 1.
fn dial(alloc: Global) -> Result<MemDial, NoMemory> {
    let mut dial = MemDial::new(alloc);
    dial.add(2, link(alloc, b"a")?)?;
    dial.add(1, link(alloc, b"b")?)?;
    dial.add(2, link(alloc, b"c")?)?;
    Ok(dial)
}

#[test]
fn a_dial_gives_the_links_of_each_member_in_turn(rt: HostRuntime) -> Result<(), Fail> {
    let mut dial = dial(rt.alloc())?;
    let mut said = Octets::new(rt.alloc());
    for member in [2u32, 2, 1, 2] {
        put_dialled(&mut dial, member, &mut said)?;
    }
    assert_eq!(rt; said.as_slice(), b"acb-".as_slice());
    Ok(())
}

/// What is read first of the link that a door gives, `-` where it gives none.
fn put_taken(door: &mut MemDoor<u32>, said: &mut Octets) -> Result<(), NoMemory> {
    match door.take() {
        Ok(link) => put_first(link, said),
        Err(Failed) => said.push_all(b"-"),
    }
}

/// A door with two links, to which 6 came back before it gave one, 7 and 8 once it had given one, and 9 once it had none left.
fn put_door(door: &mut MemDoor<u32>, said: &mut Octets) -> Result<(), NoMemory> {
    door.back(6);
    put_taken(door, said)?;
    door.back(7);
    door.back(8);
    put_taken(door, said)?;
    put_taken(door, said)?;
    door.back(9);
    Ok(())
}

fn door(alloc: Global) -> Result<MemDoor<u32>, NoMemory> {
    let mut door: MemDoor<u32> = MemDoor::new(alloc);
    door.add(link(alloc, b"a")?)?;
    door.add(link(alloc, b"b")?)?;
    Ok(door)
}

#[test]
fn a_door_keeps_what_comes_back(rt: HostRuntime) -> Result<(), Fail> {
    let mut door = door(rt.alloc())?;
    let mut said = Octets::new(rt.alloc());
    put_door(&mut door, &mut said)?;
    assert_eq!(rt; said.as_slice(), b"ab-".as_slice());
    assert_eq!(rt;
        [
            door.served(0).copied(),
            door.served(1).copied(),
            door.served(2).copied()
        ],
        [Some(7), Some(9), None]
    );
    Ok(())
}

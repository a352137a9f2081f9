ghost use Rattle.std.specs.Prelude.{IsTrue, option_copied};
ghost use Rattle.std.specs.Option.{ForSome};
ghost use Rattle.std.specs.List.{AllByRecursion};
ghost use Rattle.unit_segments.specs.Release.{FitsAChain};

use super::*;
use access_handshake::{Access, Stage};
use ddm_codepoints::TypDef;
use dss_frame::{Placed, Reader, Side};
use hex_lines::read_hex;
use link_ends::{NoMemory, Octets, Sequence};
use reply_texts::RdbName;
use std::alloc::Global;
use std::test::Fail;
use unit_segments::{
    Chain, ChainReader, Command, CommandList, RegisterLog, Segment, SegmentList, cut,
};

// ---- rows

// A row is a line of fields, parted by `|`. Bytes are words, parted by spaces: names of bytes, or hexadecimal digits. Places and counts
// are spelled in decimal digits.

/// Bytes by their names, in hexadecimal digits. Replies to the gateway: EXCSATRD with SQLAM at level 7; ACCSECRD with the mechanism that
/// was asked, number 1; SECCHKRM with SECCHKCD 0, number 2; ACCRDBRM, number 3, behind which others follow or none; a null SQLCARD, number
/// 4, the last of its reply; SECCHKRM with SECCHKCD 0F, behind which others follow or none. Replies to a segment: a null SQLCARD, number 1,
/// the last of its reply; one of each of two commands; a SQLCARD with SQLCODE -104 in EBCDIC. Chains: EXCSQLIMM, two EXCSQLIMM, EXCSQLSET,
/// RDBCMM, ACCRDB with the parameters that it needs, and RDBCMM as a server gets it.
const NAMES: &str = "\
HELLO 0022D0030001001C1443001814041403000724070007240F00071440000714740005
MECHANISM 0010D0430001000A14AC000611A20003
ADMISSION 0015D0420002000F1219000611490000000511A400
ACCESS 0033D0420003002D2201000611490000000C112EC7D9D7F0F1F0F1F0000D002FD8E3C4E2D8D3F3F7F0000A00350006119C0025
LAST_ACCESS 0033D0020003002D2201000611490000000C112EC7D9D7F0F1F0F1F0000D002FD8E3C4E2D8D3F3F7F0000A00350006119C0025
REGISTERS 000BD003000400052408FF
REFUSAL 0015D0420002000F1219000611490008000511A40F
LAST_REFUSAL 0015D0020002000F1219000611490008000511A40F
DONE 000BD003000100052408FF
TWICE_DONE 000BD043000100052408FF000BD003000200052408FF
FAILED 001ED00300010018240800FFFFFF98F4F2F6F0F14040404040404040FFFF
INSERT 000AD00100010004200A
INSERTS 000AD04100010004200A000AD00100020004200A
SET 000AD001000100042014
COMMIT 000AD00100010004200E
ACCRDB 0014D0010001000E200100052110C10005002FC1
ASKED_COMMIT 0014D0010001000E200E0005119FF20005210EF1";

/// The digits with this name, or else the word itself.
fn digits_of(word: &str) -> &str {
    for line in NAMES.lines() {
        if let Some((name, digits)) = line.split_once(' ') {
            if name == word {
                return digits;
            }
        }
    }
    word
}

/// The field before the first `|` of a line, and what stands behind it.
fn field(line: &str) -> (&str, &str) {
    match line.split_once('|') {
        Some(fields) => fields,
        None => (line, ""),
    }
}

/// Appends the bytes of a word; none of an empty one.
fn put(alloc: Global, bytes: &mut Octets, word: &str) -> Result<(), NoMemory> {
    match read_hex(alloc, digits_of(word).as_bytes())? {
        Some(read) => bytes.push_all(read.as_slice()),
        None => Ok(()),
    }
}

/// The bytes of these words.
fn bytes(alloc: Global, words: &str) -> Result<Octets, NoMemory> {
    let mut bytes = Octets::new(alloc);
    for word in words.split(' ') {
        put(alloc, &mut bytes, word)?;
    }
    Ok(bytes)
}

/// Whether words are these bytes.
fn are(alloc: Global, seen: &[u8], words: &str) -> Result<bool, NoMemory> {
    let bytes = bytes(alloc, words)?;
    Ok(bytes.as_slice() == seen)
}

/// The number that decimal digits spell, or the greatest one where they spell none.
fn number(digits: &str) -> u64 {
    match u64::from_str_radix(digits, 10) {
        Ok(number) => number,
        Err(_) => u64::MAX,
    }
}

// ---- segments

/// How many bytes a chain may have.
const LIMIT: u64 = 16_777_216;

/// The chain that a DSS ends, if it does.
fn chain_of(reader: &mut ChainReader, placed: Placed) -> Option<Chain> {
    match reader.add(placed) {
        Ok(chain) => chain,
        Err(_) => None,
    }
}

/// The chain that the next DSS ends, if it does.
fn next_chain(frames: &mut Reader, reader: &mut ChainReader) -> Option<Chain> {
    match frames.take() {
        Some(placed) => chain_of(reader, placed),
        None => None,
    }
}

/// The first chain of so many DSSs.
fn first_chain(frames: &mut Reader, reader: &mut ChainReader, count: usize) -> Option<Chain> {
    for _ in 0..count {
        let chain = next_chain(frames, reader);
        if chain.is_some() {
            return chain;
        }
    }
    None
}

/// The first chain of these bytes.
fn chain_in(alloc: Global, bytes: &[u8]) -> Option<Chain> {
    let mut frames = Reader::new(alloc, Side::Requests, LIMIT);
    if frames.feed(bytes).is_err() {
        return None;
    }
    let mut reader = ChainReader::new(alloc);
    first_chain(&mut frames, &mut reader, bytes.len())
}

/// The segments of the chain that words are; none where they are none.
fn segments_of(alloc: Global, words: &str) -> Result<SegmentList, NoMemory> {
    let bytes = bytes(alloc, words)?;
    match chain_in(alloc, bytes.as_slice()) {
        Some(chain) => cut(alloc, &chain),
        None => Ok(Sequence::new(alloc)),
    }
}

/// Whether each command's body is no longer than a chain may be.
fn are_commands(commands: &[Command]) -> bool
    ensures { IsTrue result → AllByRecursion FitsAChain commands.now }
{
    match commands.split_first() {
        Some((command, others)) => command.body.len() <= 16_777_216 && are_commands(others),
        None => true,
    }
}

/// Whether this is so of a segment, where one is given.
fn is_sendable(segment: Option<&Segment>) -> bool
    ensures { IsTrue result → ForSome (option_copied segment.entry) (λ commands. AllByRecursion FitsAChain commands) }
{
    match segment {
        Some(segment) => are_commands(segment.commands().as_slice()),
        None => true,
    }
}

// ---- what begins

/// A conversation with this database. Places are counted from so many bytes on.
#[derive(Drop)]
struct Scene {
    alloc: Global,
    rdb: RdbName,
    talk: Talk,
    before: u64,
}

/// What a session gave for its access.
fn access(alloc: Global) -> Result<Access, NoMemory> {
    Ok(Access {
        secmec: 3,
        secchk: Octets::of(alloc, &[0x00, 0x04, 0x10, 0x6E])?,
        accrdb: Octets::of(alloc, &[0x00, 0x04, 0x20, 0x01])?,
    })
}

/// Adds a register with this number. That it can't be is told as want of memory.
fn add_register(log: &mut RegisterLog, number: u8) -> Result<(), NoMemory> {
    match log.add(&[number, 0x7E, number], TypDef::Sql370) {
        Ok(()) => Ok(()),
        Err(_) => Err(NoMemory),
    }
}

/// A log with so many registers.
fn registers(alloc: Global, count: u8) -> Result<RegisterLog, NoMemory> {
    let mut log = RegisterLog::new(alloc);
    for number in 0..count {
        add_register(&mut log, number)?;
    }
    Ok(log)
}

/// Begins with mechanism 3. That too much runs again, or is sent, is told as want of memory.
fn begin(
    scene: &mut Scene,
    stage: Stage,
    access: Option<&Access>,
    log: &RegisterLog,
    again: &CommandList,
    segment: Option<&Segment>,
) -> Result<(), NoMemory> {
    if again.len() <= 4096 && is_sendable(segment) {
        scene.talk.begin(stage, access, 3, log, again, segment)
    } else {
        Err(NoMemory)
    }
}

/// Begins with the first segment of a chain alone.
fn begin_work(scene: &mut Scene, words: &str) -> Result<(), NoMemory> {
    let segments = segments_of(scene.alloc, words)?;
    let log = RegisterLog::new(scene.alloc);
    let none = Sequence::new(scene.alloc);
    begin(scene, Stage::Attached, None, &log, &none, segments.get(0))
}

/// Begins with access and these registers alone, or with the mechanism alone where there are none.
fn begin_replay(scene: &mut Scene, count: u8) -> Result<(), NoMemory> {
    let given = access(scene.alloc)?;
    let log = registers(scene.alloc, count)?;
    let none = Sequence::new(scene.alloc);
    let stage = if count > 0 {
        Stage::Accessed
    } else {
        Stage::Chosen
    };
    begin(scene, stage, Some(&given), &log, &none, None)
}

/// Begins with access, two registers, a segment that runs again, and another one.
fn begin_with(
    scene: &mut Scene,
    again: Option<&Segment>,
    segment: Option<&Segment>,
) -> Result<(), NoMemory> {
    let given = access(scene.alloc)?;
    let log = registers(scene.alloc, 2)?;
    match again {
        Some(again) => begin(
            scene,
            Stage::Accessed,
            Some(&given),
            &log,
            again.commands(),
            segment,
        ),
        None => Err(NoMemory),
    }
}

/// Begins with access, two registers, a SET that runs again, and a commit.
fn begin_again(scene: &mut Scene) -> Result<(), NoMemory> {
    let set = segments_of(scene.alloc, "SET")?;
    let work = segments_of(scene.alloc, "COMMIT")?;
    begin_with(scene, set.get(0), work.get(0))
}

/// A conversation that was dialled, or one that was idle.
fn connect(scene: &mut Scene, is_dialled: bool) -> Result<(), NoMemory> {
    scene.talk = if is_dialled {
        Talk::dialled(scene.alloc, &scene.rdb)
    } else {
        Talk::idle(scene.alloc, &scene.rdb)
    };
    scene.before = 0;
    Ok(())
}

// ---- what comes

/// Sends all of the chain in work.
fn send(talk: &mut Talk) -> Result<(), NoMemory> {
    let count = talk.to_send().len();
    talk.on_sent(count)
}

/// Whether a piece came to this, with places so many bytes further on.
fn is_seen(got: &Got, seen: &str, further: u64) -> bool {
    match got {
        Got::More => seen == "more",
        Got::Refused => seen == "refused",
        Got::Broken { at } => is_broken(*at, seen, further),
        Got::TooLong => seen == "too long",
        Got::Ready => seen == "ready",
        Got::Whole(_) => seen == "whole",
    }
}

/// Whether the grammar was left at this place, as is said.
fn is_broken(at: u64, seen: &str, further: u64) -> bool {
    match seen.strip_prefix("broken ") {
        Some(place) => at == number(place).saturating_add(further),
        None => false,
    }
}

/// Whether a piece comes to this.
fn comes_to(scene: &mut Scene, piece: &[u8], seen: &str) -> Result<bool, NoMemory> {
    let got = scene.talk.on_back(piece)?;
    Ok(is_seen(&got, seen, scene.before))
}

/// Whether the bytes of these words come to this, in one piece.
fn answers(scene: &mut Scene, words: &str, seen: &str) -> Result<bool, NoMemory> {
    let piece = bytes(scene.alloc, words)?;
    comes_to(scene, piece.as_slice(), seen)
}

/// Whether each of these bytes comes to this.
fn each_comes_to(scene: &mut Scene, bytes: &[u8], seen: &str) -> Result<bool, NoMemory> {
    for byte in bytes {
        if !comes_to(scene, &[*byte], seen)? {
            return Ok(false);
        }
    }
    Ok(true)
}

/// Whether each byte of these words comes to this.
fn answers_each(scene: &mut Scene, words: &str, seen: &str) -> Result<bool, NoMemory> {
    let bytes = bytes(scene.alloc, words)?;
    each_comes_to(scene, bytes.as_slice(), seen)
}

/// How many bytes a DSS has at most that is spelled in one segment.
const SEGMENT: u16 = 32_767;

/// So many bytes of a chained DSS with number 1, whose body is zeros.
fn filler(alloc: Global, count: u16) -> Result<Octets, NoMemory> {
    let [high, low] = count.to_be_bytes();
    let mut bytes = Vec::from_slice(alloc, &[high, low, 0xD0, 0x43, 0x00, 0x01])?;
    bytes.resize(usize::from(count), 0)?;
    Ok(Octets::from_grown(bytes))
}

/// So many DSSs of so many bytes come.
fn pass(scene: &mut Scene, dsss: u32, count: u16) -> Result<(), NoMemory> {
    let piece = filler(scene.alloc, count)?;
    for _ in 0..dsss {
        scene.talk.on_back(piece.as_slice())?;
    }
    Ok(())
}

/// 1,024 DSSs of 32,767 bytes come, and one of so many.
fn fill(scene: &mut Scene, count: &str) -> Result<(), NoMemory> {
    pass(scene, 1024, SEGMENT)?;
    match u16::try_from(number(count)) {
        Ok(count) => pass(scene, 1, count),
        Err(_) => Err(NoMemory),
    }
}

// ---- what holds

/// Whether the chain in work is the one that leads to access and so many registers.
fn replays(scene: &Scene, count: u8) -> Result<bool, NoMemory> {
    let log = registers(scene.alloc, count)?;
    let given = access(scene.alloc)?;
    let chain = replay_chain(
        scene.alloc,
        &scene.rdb,
        Stage::Accessed,
        3,
        Some(&given),
        &log,
    )?;
    Ok(chain.as_slice() == scene.talk.to_send())
}

/// Whether this is true of a conversation.
fn is(talk: &Talk, what: &str) -> bool {
    match what {
        "accessed" => talk.mark().stage == Stage::Accessed,
        "in the segment" => talk.in_segment(),
        "outside the segment" => !talk.in_segment(),
        _ => talk.mark().unread as u64 == number(what),
    }
}

// ---- rounds

/// What is done at an event.
fn act(scene: &mut Scene, event: &str, word: &str) -> Result<(), NoMemory> {
    match event {
        "dialled" => connect(scene, true),
        "idle" => connect(scene, false),
        "work" => begin_work(scene, word),
        "again" => begin_again(scene),
        "replay 64" => begin_replay(scene, 64),
        "replay none" => begin_replay(scene, 0),
        "fill" => fill(scene, word),
        _ => send(&mut scene.talk),
    }
}

/// Whether a round goes as it says.
fn holds(scene: &mut Scene, round: &str) -> Result<bool, NoMemory> {
    let (event, rest) = field(round);
    let (word, seen) = field(rest);
    match event {
        "back" => answers(scene, word, seen),
        "back byte by byte" => answers_each(scene, word, seen),
        "to send" => are(scene.alloc, scene.talk.to_send(), word),
        "replays 64" => replays(scene, 64),
        "is" => Ok(is(&scene.talk, word)),
        _ => {
            act(scene, event, word)?;
            Ok(true)
        }
    }
}

/// The number, from 1, of the first of these rounds that doesn't go as it says; 0 where there is none.
fn refuted_in(scene: &mut Scene, rounds: &str) -> Result<u32, NoMemory> {
    let mut number: u32 = 0;
    for round in rounds.lines() {
        number = number.saturating_add(1);
        if !holds(scene, round)? {
            return Ok(number);
        }
    }
    Ok(0)
}

/// A conversation that is idle.
fn idle(alloc: Global, rdb: RdbName) -> Scene {
    Scene {
        alloc,
        rdb,
        talk: Talk::idle(alloc, &rdb),
        before: 0,
    }
}

/// The number of the first of these rounds that doesn't go as it says, begun in a conversation that is idle.
fn refuted(alloc: Global, rdb: RdbName, rounds: &str) -> Result<u32, NoMemory> {
    let mut scene = idle(alloc, rdb);
    refuted_in(&mut scene, rounds)
}

/// Replies that are read byte by byte. Access is given on both paths: the segment follows with its asking, and a byte of it counts as one
/// of the segment alone. A handshake with 64 registers on an idle conversation is one round, and its chain the one that is replayed. An
/// ACCRDBRM that can't be read in the reply to the session's own ACCRDB refuses access.
const ROUNDS: &str = "\
idle
work|INSERTS
send
back byte by byte|000BD043000100052408FF 000BD003000200052408|more
is|21
back|FF|whole
is|0
dialled
again
send
is|outside the segment
back|HELLO|more
send
is|outside the segment
back|MECHANISM ADMISSION ACCESS REGISTERS|more
send
is|outside the segment
back|DONE|more
is|accessed
to send|ASKED_COMMIT
is|outside the segment
send
is|in the segment
idle
again
send
is|outside the segment
back|MECHANISM ADMISSION ACCESS REGISTERS|more
send
is|outside the segment
back|DONE|more
is|accessed
to send|ASKED_COMMIT
is|outside the segment
send
is|in the segment
idle
replay 64
replays 64
send
back|MECHANISM ADMISSION ACCESS REGISTERS|ready
to send|
is|accessed
idle
work|ACCRDB
send
back|000AD002000100042201|refused";

#[test]
fn conversations_go_as_told(rt: HostRuntime) -> Result<(), Fail> {
    let rdb = RdbName::of(b"SAMPLE").ok_or("a name")?;
    assert_eq!(rt; refuted(rt.alloc(), rdb, ROUNDS)?, 0);
    Ok(())
}

// The last bytes of a reply to one command, behind 1,024 DSSs of 32,767 bytes and one of so many, behind which 1,024 bytes would be left up
// to the limit.

/// The first byte beyond the limit in a body, and behind the last DSS.
const BEYOND: &str = "\
work|INSERT
send
fill|1016
back|000BD0030001000524|too long
idle
work|INSERT
send
fill|1016
back|0008D0030001000524|broken 33554432";

/// It completes a number that is none of a command, and a number begins with it.
const NUMBERS: &str = "\
work|INSERT
send
fill|1019
back|000BD0030002|broken 33554431
idle
work|INSERT
send
fill|1020
back|000BD00302|too long";

/// It completes a length that is none, and is itself a format byte that is none.
const FIELDS: &str = "\
work|INSERT
send
fill|1023
back|0005|broken 33554431
idle
work|INSERT
send
fill|1021
back|000BD001|too long";

/// A reply of a handshake that is too long refuses access.
const HANDSHAKE: &str = "\
replay none
send
fill|1016
back|000BD0030001000524|refused";

#[test]
fn refuses_long_replies(rt: HostRuntime) -> Result<(), Fail> {
    let rdb = RdbName::of(b"SAMPLE").ok_or("a name")?;
    assert_eq!(rt; refuted(rt.alloc(), rdb, BEYOND)?, 0);
    Ok(())
}

#[test]
fn refuses_numbers_at_the_limit(rt: HostRuntime) -> Result<(), Fail> {
    let rdb = RdbName::of(b"SAMPLE").ok_or("a name")?;
    assert_eq!(rt; refuted(rt.alloc(), rdb, NUMBERS)?, 0);
    Ok(())
}

#[test]
fn refuses_fields_at_the_limit(rt: HostRuntime) -> Result<(), Fail> {
    let rdb = RdbName::of(b"SAMPLE").ok_or("a name")?;
    assert_eq!(rt; refuted(rt.alloc(), rdb, FIELDS)?, 0);
    Ok(())
}

#[test]
fn refuses_long_handshakes(rt: HostRuntime) -> Result<(), Fail> {
    let rdb = RdbName::of(b"SAMPLE").ok_or("a name")?;
    assert_eq!(rt; refuted(rt.alloc(), rdb, HANDSHAKE)?, 0);
    Ok(())
}

// ---- replies

/// Segments, bytes of a reply, and what they come to, with the places counted from their first byte.
const REPLIES: &str = "\
INSERT|000BD003000200052408FF|broken 4
INSERT|000BD0030002|broken 4
INSERT|000BD0030000|broken 4
INSERT|000BD00300|more
INSERT|000BD001000100052408FF|broken 3
INSERT|0005|broken 0
INSERT|000BD043000100052408FF|more
INSERT|000BD003000100052408FF00|broken 11
INSERT|000BD003000100052408FF000BD003000100052408FF|broken 11
INSERT|000BD003000100052408FF0005|broken 11
INSERT|000BD003000100062408FF|whole
INSERT|8006D00300020001|broken 4
INSERT|8006D00300010001|broken 6
INSERTS|000BD043000200052408FF000BD003000100052408FF|broken 15
INSERTS|000BD043000100052408FF000BD003000200052408FF|whole
INSERTS|000BD003000200052408FF|whole";

/// Whether a segment is answered as a row says.
fn is_answered(scene: &mut Scene, row: &str) -> Result<bool, NoMemory> {
    let (segment, rest) = field(row);
    let (words, seen) = field(rest);
    begin_work(scene, segment)?;
    send(&mut scene.talk)?;
    answers(scene, words, seen)
}

/// Whether the same holds in a conversation that is idle, behind rounds of so many bytes that are answered as they say.
fn is_read(alloc: Global, rdb: RdbName, front: &str, row: &str) -> Result<bool, NoMemory> {
    let (length, rounds) = field(front);
    let mut scene = idle(alloc, rdb);
    let refuted = refuted_in(&mut scene, rounds)?;
    scene.before = number(length);
    Ok(refuted == 0 && is_answered(&mut scene, row)?)
}

/// The number, from 1, of the first row that isn't answered as it says, behind these rounds; 0 where there is none.
fn misread(alloc: Global, rdb: RdbName, front: &str) -> Result<u32, NoMemory> {
    let mut number: u32 = 0;
    for row in REPLIES.lines() {
        number = number.saturating_add(1);
        if !is_read(alloc, rdb, front, row)? {
            return Ok(number);
        }
    }
    Ok(0)
}

/// At the beginning of the conversation's stream, and behind another reply.
fn misread_at_either(alloc: Global, rdb: RdbName) -> Result<u32, NoMemory> {
    let number = misread(alloc, rdb, "0|idle")?;
    if number > 0 {
        return Ok(number);
    }
    misread(alloc, rdb, "11|work|INSERT\nsend\nback|DONE|whole")
}

#[test]
fn reads_replies(rt: HostRuntime) -> Result<(), Fail> {
    let rdb = RdbName::of(b"SAMPLE").ok_or("a name")?;
    assert_eq!(rt; misread_at_either(rt.alloc(), rdb)?, 0);
    Ok(())
}

// ---- access

/// Each cause of a refused access, in the reply of this number: to the gateway's EXCSAT, to the chain of access, or to what runs again.
///
/// EXCSATRD without levels, SQLAM at level 6, MGRLVLRM, and EXCSATRD twice. An offer of mechanisms, and another mechanism; SECCHKCD 0F, and
/// a refused SECCHK, whatever follows; no SECCHKRM; no ACCRDBRM, and one that can't be read; no reply to EXCSQLSET, and an error of it. An
/// error of what runs again, two SQLCARDs, and none.
const REFUSALS: &str = "\
0|000AD003000100041443
0|0016D003000100101443000C14041403000724070006
0|0018D0020001001212100006114900080008140424070007
0|0012D0430001000C14430008140424070007 0012D0030001000C14430008140424070007
1|0012D0430001000C14AC000811A200030004 ADMISSION ACCESS REGISTERS
1|0010D0430001000A14AC000611A20004 ADMISSION ACCESS REGISTERS
1|MECHANISM LAST_REFUSAL
1|MECHANISM REFUSAL ACCESS REGISTERS
1|MECHANISM ACCESS REGISTERS
1|MECHANISM ADMISSION 0010D0420003000A2204000611490008 REGISTERS
1|MECHANISM ADMISSION 000AD042000300042201 REGISTERS
1|MECHANISM ADMISSION LAST_ACCESS
1|MECHANISM ADMISSION ACCESS 001ED00300040018240800FFFFFF98F4F2F6F0F14040404040404040FFFF
2|FAILED
2|000BD043000100052408FF DONE
2|000AD002000100041245";

/// The rounds that lead to the reply of this number. On an idle conversation none is to the gateway's EXCSAT: it is dialled there.
fn lead(which: &str, is_dialled: bool) -> &'static str {
    match which {
        "0" => "dialled\nagain\nsend",
        "1" if is_dialled => "dialled\nagain\nsend\nback|HELLO|more\nsend",
        "1" => "idle\nagain\nsend",
        _ if is_dialled => {
            "dialled\nagain\nsend\nback|HELLO|more\nsend\nback|MECHANISM ADMISSION ACCESS REGISTERS|more\nsend"
        }
        _ => "idle\nagain\nsend\nback|MECHANISM ADMISSION ACCESS REGISTERS|more\nsend",
    }
}

/// Whether the reply of a row refuses access.
fn refuses(scene: &mut Scene, is_dialled: bool, row: &str) -> Result<bool, NoMemory> {
    let (which, words) = field(row);
    if refuted_in(scene, lead(which, is_dialled))? > 0 {
        return Ok(false);
    }
    answers(scene, words, "refused")
}

/// The number, from 1, of the first row whose reply doesn't refuse access; 0 where there is none.
fn admitted(scene: &mut Scene, is_dialled: bool) -> Result<u32, NoMemory> {
    let mut number: u32 = 0;
    for row in REFUSALS.lines() {
        number = number.saturating_add(1);
        if !refuses(scene, is_dialled, row)? {
            return Ok(number);
        }
    }
    Ok(0)
}

/// On a conversation that was dialled, and on an idle one.
fn admitted_on_either(alloc: Global, rdb: RdbName) -> Result<u32, NoMemory> {
    let mut scene = idle(alloc, rdb);
    let number = admitted(&mut scene, true)?;
    if number > 0 {
        return Ok(number);
    }
    admitted(&mut scene, false)
}

#[test]
fn refuses_access(rt: HostRuntime) -> Result<(), Fail> {
    let rdb = RdbName::of(b"SAMPLE").ok_or("a name")?;
    assert_eq!(rt; admitted_on_either(rt.alloc(), rdb)?, 0);
    Ok(())
}

// ---- losses

/// Losses, each by whether its commit was sent, and its unit of work is spoken and pinned, and what becomes of the segment.
const LOSSES: &str = "\
nnn|again
nny|rerouted
nyn|rerouted
ynn|unknown
yyy|unknown";

/// A loss by its three letters.
fn loss_of(letters: &str) -> Lost {
    Lost {
        commit_sent: letters.starts_with('y'),
        spoken: letters.as_bytes().get(1) == Some(&b'y'),
        pinned: letters.ends_with('y'),
    }
}

/// What is owed, by its name.
fn verdict_of(name: &str) -> Verdict {
    match name {
        "again" => Verdict::Again,
        "rerouted" => Verdict::Owe(Owed::Rerouted),
        _ => Verdict::Owe(Owed::Unknown),
    }
}

#[test]
fn decides(rt: HostRuntime) {
    for row in LOSSES.lines() {
        let (letters, name) = field(row);
        assert_eq!(rt; decide(&loss_of(letters)), verdict_of(name));
    }
}

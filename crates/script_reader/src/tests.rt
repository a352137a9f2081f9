use super::*;
use gateway_setup::{Event, SentLists};
use hex_lines::read_hex;
use link_ends::Octets;
use script_words::read_number;
use server_list::ServerList;
use std::alloc::Global;
use std::test::Fail;

// In the texts of these tests `/` stands for a line feed, and `_` for a space that nothing follows.

/// A header with two members.
const HEADER: &str = "rdb SAMPLE/cap 2/member 1 1/member 2 65535/";

/// What a byte of such a text stands for.
fn meant(byte: u8) -> u8 {
    match byte {
        b'/' => b'\n',
        b'_' => b' ',
        _ => byte,
    }
}

/// Adds the bytes of such a text.
fn add_text(bytes: &mut Vec<u8>, text: &str) -> Result<(), Fail> {
    for byte in text.as_bytes() {
        bytes.push(meant(*byte))?;
    }
    Ok(())
}

/// The bytes of two texts, one behind the other.
fn bytes_of(alloc: Global, front: &str, rest: &str) -> Result<Vec<u8>, Fail> {
    let mut bytes = Vec::new(alloc);
    add_text(&mut bytes, front)?;
    add_text(&mut bytes, rest)?;
    Ok(bytes)
}

/// The script of two texts, one behind the other.
fn script(alloc: Global, front: &str, rest: &str) -> Result<Script, Fail> {
    let bytes = bytes_of(alloc, front, rest)?;
    match read_script(alloc, bytes.as_slice()) {
        Ok(script) => Ok(script),
        Err(_) => Err(Fail::from("refused")),
    }
}

// ---- refusals

/// The word for a reason.
fn word_of(why: ScriptWhy) -> &'static str {
    match why {
        ScriptWhy::Word => "word",
        ScriptWhy::Order => "order",
        ScriptWhy::Field => "field",
        ScriptWhy::Long => "long",
    }
}

/// Whether a script is refused at the line of this number for the reason with this word.
fn is_refusal(fault: ScriptFault, number: u64, word: &str) -> bool {
    match fault {
        ScriptFault::Refused { line, why } => line == number && word_of(why) == word,
        ScriptFault::NoMemory => false,
    }
}

/// Whether a script of two texts is refused at the line of this number for the reason with this word.
fn is_refused_as(
    alloc: Global,
    front: &str,
    rest: &str,
    number: u64,
    word: &str,
) -> Result<bool, Fail> {
    let bytes = bytes_of(alloc, front, rest)?;
    match read_script(alloc, bytes.as_slice()) {
        Ok(_) => Ok(false),
        Err(fault) => Ok(is_refusal(fault, number, word)),
    }
}

/// Whether a script with this beginning is refused as a row says: the number of a line, a reason, and the rest of the script.
fn is_refused(alloc: Global, front: &str, row: &str) -> Result<bool, Fail> {
    let (number, row) = row.split_once(' ').ok_or("a number")?;
    let (word, rest) = row.split_once(' ').ok_or("a reason")?;
    let number = read_number(number.as_bytes()).ok_or("a number")?;
    is_refused_as(alloc, front, rest, number, word)
}

/// The first of these rows that isn't refused as it says, the empty text where there is none.
fn first_read<'a>(alloc: Global, front: &str, rows: &'a str) -> Result<&'a str, Fail> {
    for row in rows.lines() {
        if !is_refused(alloc, front, row)? {
            return Ok(row);
        }
    }
    Ok("")
}

/// Scripts whose first lines are bad, or that end before their header is whole.
const BAD_FIRST_LINES: &str = "\
3 order rdb SAMPLE/cap 2/
3 order /# \u{7f}/cap 2
2 order rdb SAMPLE/say 1 1
2 word rdb SAMPLE/say 1
1 word rdb\tSAMPLE
1 field rdb_
1 field rdb sample
1 field rdb ABCDEFGHIJKLMNOPQRS
2 order rdb A/rdb A
2 field rdb A/cap 33
2 field rdb A/cap 0
2 field rdb A/cap 01
3 field rdb A/cap 1/member 2 1
3 field rdb A/cap 1/member 1 65536
3 order rdb A/cap 1/list 1=1";

/// What begins the scripts that follow.
const ONE_MEMBER: &str = "rdb A/cap 1/member 1 0/";

/// Scripts with bad lists, users and rows.
const BAD_HEADERS: &str = "\
4 field list 2=1
4 field list 1
4 field list 1=
4 field list 1=1=1
4 field list_
4 word list
4 field list 1=1 1=2
4 field list 1=1_
4 field list2 1 0 1=1
4 field list2 1 4294967296 1=1
4 field list2 2 1 1=1
4 word list2 1 1
4 field list2 1 1_
5 order list 1=1/list 1=1
5 order list 1=1/list2 1 1 1=1
5 order list2 1 1 1=1/list 1=1
5 field list2 1 1 1=1/list2 1 2 1=1
5 order user A B/list 1=1
5 order list 1=1/member 2 1
5 field user A B/user A C
4 field user ABCDEFGHI B
4 field user A b
4 word user A
5 field row A 1 B/row A 1 C
4 field row A 1000000000 B
4 field row A 01 B
4 word row A 1 B C
5 order row A 1 B/user A B
4 field row a 1 B
4 field row A 1 b
5 order settle 1/row A 1 B
5 order settle 1/user A B";

#[test]
fn bad_headers_are_refused(rt: HostRuntime) -> Result<(), Fail> {
    assert_eq!(rt; first_read(rt.alloc(), "", BAD_FIRST_LINES)?, "");
    assert!(rt; is_refused(rt.alloc(), "", "1 order ")?);
    assert_eq!(rt; first_read(rt.alloc(), ONE_MEMBER, BAD_HEADERS)?, "");
    Ok(())
}

/// Scripts with bad commands and events, and with chains that go on where they can't.
const BAD_BODIES: &str = "\
4 word App 1
4 word app
4 field app  1
4 field app 1 0
4 field app 1_
4 word app 1 00_
4 field app 0
4 field app 65 00
4 field app 1 0g
4 word start 1 A
4 field start 1 A b
4 field start 65 A B
4 word sql 1
4 field sql 1_
4 field sql 0 A
4 field sql 1 A#
4 field set 1_
4 word sql++ 1 A
4 word + 1 A
4 word app+ 1
4 word take+ 1 1
4 word prepare 1 A
4 field prepare 1 65536 A
4 field prepare 1 1_
4 field prepare 1 1 hold_
4 word open 1
4 field open 1 x
4 field fetch 1 65536
4 word close 1 1 1
4 word commit 1_
4 field commit 65
4 word rollback
4 field take 1 0
4 field take 1 65537
4 field send 0 1
4 field back 1 x
4 word say 1
4 field act 18446744073709551616 1
4 field act 1 65537
4 field drop -1
4 field end 0
4 field lend 65
4 word dial
4 field cut x
4 word give 1 1
4 field down 2
4 field up 0
4 field settle 1000001
4 field settle 0
4 field settle 01
5 order sql+ 1 A
5 order sql+ 1 A/app 1
5 order sql+ 1 A/app 1 0
5 word sql+ 1 A/start 1 a
5 order sql+ 1 A/start 1 a b
5 field sql+ 1 A/app 65 0
6 order sql+ 1 A/commit 2/
9 order commit+ 1/settle 1/commit 1/sql+ 64 A/# x";

#[test]
fn bad_bodies_are_refused(rt: HostRuntime) -> Result<(), Fail> {
    assert_eq!(rt; first_read(rt.alloc(), ONE_MEMBER, BAD_BODIES)?, "");
    Ok(())
}

const LONG: ScriptFault = ScriptFault::Refused {
    line: 0,
    why: ScriptWhy::Long,
};

/// The longest script has 16,777,216 bytes.
#[test]
fn a_longer_script_is_refused(rt: HostRuntime) -> Result<(), Fail> {
    let mut text = Vec::new(rt.alloc());
    text.resize(16_777_217, b'#')?;
    let fault = read_script(rt.alloc(), text.as_slice()).err();
    assert_eq!(rt; fault, Some(LONG));
    Ok(())
}

// ---- lines that have bytes

/// The bytes that a line gives this application to send, None where it does something else.
fn bytes_for(line: &Line, number: u32) -> Option<&[u8]> {
    match line {
        Line::Bytes { app, bytes } if *app == number => Some(bytes.as_slice()),
        _ => None,
    }
}

/// All bytes that these lines give this application to send.
fn bytes_to_send(alloc: Global, lines: &[Line], number: u32) -> Result<Octets, Fail> {
    let mut all = Octets::new(alloc);
    for line in lines {
        all.push_all(bytes_for(line, number).ok_or("bytes")?)?;
    }
    Ok(all)
}

/// Whether the digits spell these bytes.
fn are_spelled(alloc: Global, bytes: &[u8], digits: &str) -> Result<bool, Fail> {
    match read_hex(alloc, digits.as_bytes())? {
        Some(spelled) => Ok(bytes == spelled.as_slice()),
        None => Ok(false),
    }
}

/// Whether an application has to send the bytes that the digits spell, after these lines.
fn sends(alloc: Global, number: u32, body: &str, digits: &str) -> Result<bool, Fail> {
    let script = script(alloc, HEADER, body)?;
    let all = bytes_to_send(alloc, script.lines(), number)?;
    are_spelled(alloc, all.as_slice(), digits)
}

/// Both chains of access.
const START: &str =
    "0022D0410001001C1041001814041403000724070007240F000714400007147400050026D00100020020106D\
     000611A2000300162110E2C1D4D7D3C54040404040404040404040400039D04100010033106E000611A20003\
     000911A0C1D3C9C3C5000A11A1E2C5C3D9C5E300162110E2C1D4D7D3C54040404040404040404040400049D0\
     010002004320010006210F2407000C112EE2C3D9F0F1F0F1F0000D002FD8E3C4E2D8D3F3F7F000162110E2C1\
     D4D7D3C5404040404040404040404040000A00350006119C0025";

/// One statement alone in its chain.
const STATEMENT: &str =
    "000AD05100010004200A002DD003000100272414000000001DC9D5E2C5D9E340C9D5E3D640E340E5C1D3E4C5\
     E2404DF16B407DC17D5DFF";

/// A chain of EXCSQLSET, PRPSQLSTT and OPNQRY.
const CHAIN: &str = "000AD051000100042014001CD043000100162414000000000CE2C5E340D9F1407E407DE77DFF\
     004ED05100020048200D00442113E2C1D4D7D3C5404040404040404040404040D5E4D3D3C9C4404040404040\
     404040404040E2C3D9C9D7E3404040404040404040404040010101010101010100070022D0430002001C2414\
     0000000012E2C5D3C5C3E340D26B40E540C6D9D6D440E3FF\
     004ED00100030048200C00442113E2C1D4D7D3C5404040404040404040404040D5E4D3D3C9C4404040404040\
     404040404040E2C3D9C9D7E340404040404040404040404001010101010101010007";

/// PRPSQLSTT with a held cursor, and PRPSQLSTT of a statement that is the word `hold`.
const HELD: &str =
    "004ED05100010048200D00442113E2C1D4D7D3C5404040404040404040404040D5E4D3D3C9C4404040404040\
     404040404040E2C3D9C9D7E34040404040404040404040400101010101010101FFFF0019D053000100132450\
     0000000009E6C9E3C840C8D6D3C4FF0022D0030001001C24140000000012E2C5D3C5C3E340D26B40E540C6D9\
     D6D440E3FF\
     004ED05100010048200D00442113E2C1D4D7D3C5404040404040404040404040D5E4D3D3C9C4404040404040\
     404040404040E2C3D9C9D7E3404040404040404040404040010101010101010100000014D0030001000E2414\
     000000000488969384FF";

/// A chain of CNTQRY, CLSQRY and RDBRLLBCK, and RDBCMM alone.
const UNIT_ENDS: &str =
    "004ED04100010048200600442113E2C1D4D7D3C5404040404040404040404040D5E4D3D3C9C4404040404040\
     404040404040E2C3D9C9D7E340404040404040404040404001010101010101010000\
     004ED04100020048200500442113E2C1D4D7D3C5404040404040404040404040D5E4D3D3C9C4404040404040\
     404040404040E2C3D9C9D7E340404040404040404040404001010101010101010000\
     000AD00100030004200F\
     000AD00100010004200E";

/// Lines, the application that they give bytes, and these bytes in digits.
const SENT: [(&str, u32, &str); 6] = [
    ("app 64 d0F1/app 64/app 64 0a", 64, "D0F10A"),
    ("start 1 ALICE SECRET", 1, START),
    ("sql 1 INSERT INTO T VALUES (1, 'A')", 1, STATEMENT),
    (
        "set+ 2 SET R1 = 'X'/prepare+ 2 7 SELECT K, V FROM T/open 2 7",
        2,
        CHAIN,
    ),
    (
        "prepare 3 65535 hold SELECT K, V FROM T/prepare 3 0 hold",
        3,
        HELD,
    ),
    ("fetch+ 2 0/close+ 2 0/rollback 2/commit 2", 2, UNIT_ENDS),
];

#[test]
fn lines_have_their_bytes(rt: HostRuntime) -> Result<(), Fail> {
    for (body, number, digits) in SENT {
        assert!(rt; sends(rt.alloc(), number, body, digits)?, "{body}");
    }
    Ok(())
}

// ---- lines that are events

/// Whether these lines are this event alone.
fn are_event(lines: &[Line], event: Event) -> bool {
    match lines {
        [Line::Event(read)] => *read == event,
        _ => false,
    }
}

/// Whether a line is this event.
fn is_event(alloc: Global, line: &str, event: Event) -> Result<bool, Fail> {
    let script = script(alloc, HEADER, line)?;
    Ok(are_event(script.lines(), event))
}

/// How many events a script's only line lets happen at most.
fn budget(lines: &[Line]) -> Option<u32> {
    match lines {
        [Line::Settle(budget)] => Some(*budget),
        _ => None,
    }
}

#[test]
fn lines_are_events(rt: HostRuntime) -> Result<(), Fail> {
    let transport = 18446744073709551615;
    let rows = [
        ("take 1 65536", Event::Take { app: 1, n: 65536 }),
        ("send 2 1", Event::Send { app: 2, n: 1 }),
        ("back 64 7", Event::Back { app: 64, n: 7 }),
        ("say 3 4/", Event::Say { app: 3, n: 4 }),
        ("act 18446744073709551615 2", Event::Act { transport, n: 2 }),
        ("drop 0", Event::Drop { transport: 0 }),
        ("down 2", Event::Down { member: 2 }),
        ("up 1", Event::Up { member: 1 }),
        ("end 1", Event::End { app: 1 }),
        ("lend 1", Event::Lend { app: 1 }),
        ("dial 1", Event::Dial { app: 1 }),
        ("cut 1", Event::Cut { app: 1 }),
        ("give 1", Event::Give { app: 1 }),
    ];
    for (line, event) in rows {
        assert!(rt; is_event(rt.alloc(), line, event)?, "{line}");
    }
    let script = script(rt.alloc(), HEADER, "settle 1000000/# x")?;
    assert_eq!(rt; budget(script.lines()), Some(1_000_000));
    Ok(())
}

// ---- headers

/// A header of each kind of line, behind a comment and an empty line.
const WHOLE_HEADER: &str = "# \u{e9}//list 2=5 1=0/user A1 B2/row S 0 X/row S 1 Y";

/// The member and the weight that stand at a place of a list.
fn row_of(list: &ServerList, place: usize) -> Option<(u32, u16)> {
    list.row(place).map(|row| (row.member, row.weight))
}

/// Whether a member sends this list, whose rows are members 2 and 1.
fn sends_two(lists: &SentLists, member: u32) -> bool {
    let list = lists.of(member);
    list.number() == 0 && row_of(list, 0) == Some((2, 5)) && row_of(list, 1) == Some((1, 0))
}

#[test]
fn each_member_may_send_a_list_of_its_own(rt: HostRuntime) -> Result<(), Fail> {
    let script = script(rt.alloc(), HEADER, "list2 2 4294967295 1=7/")?;
    let sent = &script.setup().sent_lists;
    assert!(rt; sent.of(1).is_empty());
    assert_eq!(rt; sent.of(2).number(), 4294967295);
    assert_eq!(rt; row_of(sent.of(2), 0), Some((1, 7)));
    Ok(())
}

/// Whether these are the users of that header.
fn are_users(users: &[User]) -> bool {
    match users {
        [user] => {
            user.name.as_slice() == b"A1".as_slice() && user.password.as_slice() == b"B2".as_slice()
        }
        _ => false,
    }
}

/// Whether these are the rows of that header.
fn are_rows(rows: &[Row]) -> bool {
    match rows {
        [first, second] => {
            first.key == 0
                && second.key == 1
                && second.schema.as_slice() == b"S".as_slice()
                && second.text.as_slice() == b"Y".as_slice()
        }
        _ => false,
    }
}

#[test]
fn a_header_is_told(rt: HostRuntime) -> Result<(), Fail> {
    let script = script(rt.alloc(), HEADER, WHOLE_HEADER)?;
    let setup = script.setup();
    assert!(rt; setup.rdb.as_slice() == b"SAMPLE".as_slice());
    assert_eq!(rt; setup.cap, 2);
    assert_eq!(rt; row_of(&setup.list, 1), Some((2, 65535)));
    assert!(rt; sends_two(&setup.sent_lists, 1));
    assert!(rt; sends_two(&setup.sent_lists, 2));
    assert!(rt; setup.sent_lists.of(3).is_empty());
    assert!(rt; are_users(script.users()));
    assert!(rt; are_rows(script.rows()));
    assert!(rt; script.lines().is_empty());
    Ok(())
}

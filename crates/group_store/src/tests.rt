use super::*;
use ddm_codepoints::TypDef;
use ddm_codepoints::code_point::{SQLATTR, SQLSTT};
use hex_lines::read_hex;
use link_ends::{NoMemory, Octets};
use member_core::Conversation;
use reply_texts::encode;
use server_list::ServerList;
use std::alloc::Global;
use std::test::Fail;

// ---- rounds

// A round is a line of four fields, parted by `|`: which conversation, 1 or 2; a command alone in its chain; the texts of the
// objects behind it, parted by `;`, of which WITH HOLD is a SQLATTR, and others are SQLSTTs; and its replies. Commands and replies
// are names, or bytes in digits; behind `=` the bytes are the chain itself.

/// Commands and replies by their names, in hexadecimal digits: RDBCMM that asks for release and for SET statements, RDBRLLBCK
/// that asks for nothing; EXCSQLIMM, EXCSQLSET, PRPSQLSTT, OPNQRY, CNTQRY and CLSQRY of section 5; SQLCARDs; a commit with release
/// granted, one that tells CURRENT SCHEMA and R10, a conflict with release granted; PRCCNVRM, QRYNOPRM, and what opens a cursor; EXCSAT
/// and ACCSEC, and what they are answered.
const NAMES: &str = "\
COMMIT 000E200E0005119FF20005210EF1
ROLL_BACK 0004200F
EXECUTE 000A200A000621130005
SET 000A2014000621130005
PREPARE 000A200D000621130005
OPEN 000A200C000621130005
FETCH 000A2006000621130005
CLOSE 000A2005000621130005
HELLO 001C1041001814041403000724070007240F00071440000714740005
MECHANISM 000A106D000611A20003
DONE 000BD003000100052408FF
DUPLICATE 001ED00300010018240800FFFFFCDDF2F3F5F0F54040404040404040FFFF
NOT_FOUND 001ED0030001001824080000000064F0F2F0F0F04040404040404040FFFF
NO_STATEMENT 001ED00300010018240800FFFFFF98F4F2F6F0F14040404040404040FFFF
NOT_PREPARED 001ED00300010018240800FFFFFDFEF2F6F5F0F14040404040404040FFFF
CURSOR_OPEN 001ED00300010018240800FFFFFE0AF2F4F5F0F24040404040404040FFFF
GRANTED 001AD05200010014220C00061149000400052115010005119FF2000BD003000100052408FF
TOLD 001AD05200010014220C00061149000400052115010005119FF2000BD053000100052408FF\
002AD05300010024241400000000\
1AE2C5E340C3E4D9D9C5D5E340E2C3C8C5D4C1407E407DE2F1F17DFF\
001DD003000100172414000000000DE2C5E340D9F1F0407E407D817DFF
CONFLICT 001AD05200010014220C00061149000400052115020005119FF2\
001ED00300010018240800FFFFFC71F4F0F0F0F14040404040404040FFFF
NOT_ALLOWED 0010D0020001000A1245000611490008
NOT_OPEN 0010D0020001000A2202000611490004
OPENED 0010D0520001000A2205000611490000001CD00300010016241A0976D00200043F00C80971E0540001D00001
CHOSEN 0010D0030001000A14AC000611A20003
LEVELS 0022D0030001001C1443001814041403000724070007240F00071440000714740005";

/// The digits with this name, or else the word itself.
fn digits_of(word: &str) -> &str {
    for line in NAMES.lines() {
        if let Some((name, digits)) = line.split_once(' ') {
            if name == word {
                return digits;
            }
        }
    }
    word
}

/// The bytes that digits spell. That they spell none is told as want of memory.
fn spelled(alloc: Global, digits: &str) -> Result<Octets, NoMemory> {
    match read_hex(alloc, digits.as_bytes())? {
        Some(bytes) => Ok(bytes),
        None => Err(NoMemory),
    }
}

/// The bytes with this name, or those that its digits spell; none of an empty word.
fn bytes(alloc: Global, word: &str) -> Result<Octets, NoMemory> {
    if word.is_empty() {
        Ok(Octets::new(alloc))
    } else {
        spelled(alloc, digits_of(word))
    }
}

/// The number of fewer than 256 bytes, and 255 of others.
fn size_of(bytes: &[u8]) -> u8 {
    match u8::try_from(bytes.len()) {
        Ok(size) => size,
        Err(_) => u8::MAX,
    }
}

/// Appends a text in EBCDIC.
fn put_text(alloc: Global, object: &mut Octets, text: &str) -> Result<(), NoMemory> {
    let mut coded = Vec::from_slice(alloc, text.as_bytes())?;
    encode(&mut coded, TypDef::Sql370);
    object.push_all(coded.as_slice())
}

/// What stands before the text of an object.
fn head_of(text: &str) -> [u8; 9] {
    let code = if text == "WITH HOLD" { SQLATTR } else { SQLSTT };
    let [high, low] = code.to_be_bytes();
    let size = size_of(text.as_bytes());
    [
        0x00,
        size.saturating_add(10),
        high,
        low,
        0x00,
        0x00,
        0x00,
        0x00,
        size,
    ]
}

/// An object with this text in EBCDIC, of fewer than 246 bytes.
fn text_object(alloc: Global, text: &str) -> Result<Octets, NoMemory> {
    let mut object = Octets::of(alloc, &head_of(text))?;
    put_text(alloc, &mut object, text)?;
    object.push_all(&[0xFF])?;
    Ok(object)
}

/// Appends a DSS of fewer than 250 bytes with number 1; others with this number may follow.
fn put(chain: &mut Octets, kind: u8, follow: bool, body: &[u8]) -> Result<(), NoMemory> {
    let size = size_of(body).saturating_add(6);
    let format = if follow { kind | 0x50 } else { kind };
    chain.push_all(&[0x00, size, 0xD0, format, 0x00, 0x01])?;
    chain.push_all(body)
}

/// Appends the object with this text; others may follow.
fn put_object(alloc: Global, chain: &mut Octets, follow: bool, text: &str) -> Result<(), NoMemory> {
    let object = text_object(alloc, text)?;
    put(chain, 0x03, follow, object.as_slice())
}

/// Appends the objects with these texts, two at most.
fn put_texts(alloc: Global, chain: &mut Octets, texts: &str) -> Result<(), NoMemory> {
    match texts.split_once(';') {
        Some((text, last)) => {
            put_object(alloc, chain, true, text)?;
            put_object(alloc, chain, false, last)
        }
        None => put_object(alloc, chain, false, texts),
    }
}

/// Appends a command; objects may follow.
fn put_command(
    alloc: Global,
    chain: &mut Octets,
    follow: bool,
    command: &str,
) -> Result<(), NoMemory> {
    let command = bytes(alloc, command)?;
    put(chain, 0x01, follow, command.as_slice())
}

/// The chain of a command with these objects, two at most.
fn command_chain(alloc: Global, command: &str, texts: &str) -> Result<Octets, NoMemory> {
    let mut chain = Octets::new(alloc);
    put_command(alloc, &mut chain, !texts.is_empty(), command)?;
    if !texts.is_empty() {
        put_texts(alloc, &mut chain, texts)?;
    }
    Ok(chain)
}

/// The chain of a round.
fn chain_of(alloc: Global, command: &str, texts: &str) -> Result<Octets, NoMemory> {
    match command.strip_prefix('=') {
        Some(chain) => bytes(alloc, chain),
        None => command_chain(alloc, command, texts),
    }
}

/// A group with the user ALICE and a row with key 1, and two conversations with it.
#[derive(Drop)]
struct Scene {
    alloc: Global,
    group: Store,
    first: Conversation<Store>,
    second: Conversation<Store>,
}

/// A store with the user ALICE, and a row with key 1.
fn store(alloc: Global) -> Result<Store, NoMemory> {
    let mut store = Store::new(alloc);
    store.add_user(b"ALICE", b"SECRET")?;
    store.add_row(b"ALICE", 1, b"A")?;
    Ok(store)
}

/// A conversation in which nothing was said.
fn begun(alloc: Global, group: &Store) -> Result<Conversation<Store>, NoMemory> {
    Conversation::new(alloc, group, &ServerList::new())
}

/// Another conversation beside one.
fn with_second(alloc: Global, group: Store, first: Conversation<Store>) -> Result<Scene, NoMemory> {
    let second = begun(alloc, &group)?;
    Ok(Scene {
        alloc,
        group,
        first,
        second,
    })
}

/// Two conversations with a group.
fn with_both(alloc: Global, group: Store) -> Result<Scene, NoMemory> {
    let first = begun(alloc, &group)?;
    with_second(alloc, group, first)
}

/// Two conversations in which nothing was said.
fn both_begun(alloc: Global) -> Result<Scene, NoMemory> {
    let group = store(alloc)?;
    with_both(alloc, group)
}

/// Whether a conversation that takes this chain answers it with these replies.
fn answers(
    group: &mut Store,
    conversation: &mut Conversation<Store>,
    chain: &[u8],
    replies: &[u8],
) -> Result<bool, NoMemory> {
    let before = conversation.out().len();
    conversation.take(group, chain)?;
    Ok(conversation.out().get(before..) == Some(replies))
}

/// Whether a chain is answered with these replies, by the first conversation or by the second.
fn is_answered(
    scene: &mut Scene,
    who: &str,
    chain: &[u8],
    replies: &[u8],
) -> Result<bool, NoMemory> {
    if who == "1" {
        answers(&mut scene.group, &mut scene.first, chain, replies)
    } else {
        answers(&mut scene.group, &mut scene.second, chain, replies)
    }
}

/// The field before the first `|` of a line, and what stands behind it.
fn field(line: &str) -> (&str, &str) {
    match line.split_once('|') {
        Some(fields) => fields,
        None => (line, ""),
    }
}

/// Whether a chain is answered with the replies of this name.
fn says(scene: &mut Scene, who: &str, chain: &[u8], name: &str) -> Result<bool, NoMemory> {
    let replies = bytes(scene.alloc, name)?;
    is_answered(scene, who, chain, replies.as_slice())
}

/// Whether a command with its texts is answered by a conversation as it says.
fn answers_so(scene: &mut Scene, who: &str, command: &str, rest: &str) -> Result<bool, NoMemory> {
    let (texts, replies) = field(rest);
    let chain = chain_of(scene.alloc, command, texts)?;
    says(scene, who, chain.as_slice(), replies)
}

/// Whether a round is answered as it says.
fn holds(scene: &mut Scene, round: &str) -> Result<bool, NoMemory> {
    let (who, rest) = field(round);
    let (command, rest) = field(rest);
    answers_so(scene, who, command, rest)
}

/// The number, from 1, of the first of these rounds that isn't answered as it says; 0 where there is none.
fn refuted_in(scene: &mut Scene, rounds: &str) -> Result<u32, NoMemory> {
    let mut number: u32 = 0;
    for round in rounds.lines() {
        number = number.saturating_add(1);
        if !holds(scene, round)? {
            return Ok(number);
        }
    }
    Ok(0)
}

/// The first of these rounds that isn't answered as it says, in conversations in which nothing was said before.
fn refuted(alloc: Global, rounds: &str) -> Result<u32, NoMemory> {
    let mut scene = both_begun(alloc)?;
    refuted_in(&mut scene, rounds)
}

/// What leads to access in both: the gateway's EXCSAT, ACCSEC with mechanism 3, SECCHK of ALICE with SECRET, and ACCRDB of SAMPLE
/// with QTDSQL370.
const ACCESS: &str = "\
1|HELLO||LEVELS
1|MECHANISM||CHOSEN
1|001D106E000611A20003000911A0C1D3C9C3C5000A11A1E2C5C3D9C5E3||0015D0020001000F1219000611490000000511A400
1|001B2001000D002FD8E3C4E2D8D3F3F7F0000A2110E2C1D4D7D3C5||\
0033D0020001002D2201000611490000000C112EC7D9D7F0F1F0F1F0000D002FD8E3C4E2D8D3F3F7F0000A00350006119C0025
2|HELLO||LEVELS
2|MECHANISM||CHOSEN
2|001D106E000611A20003000911A0C1D3C9C3C5000A11A1E2C5C3D9C5E3||0015D0020001000F1219000611490000000511A400
2|001B2001000D002FD8E3C4E2D8D3F3F7F0000A2110E2C1D4D7D3C5||\
0033D0020001002D2201000611490000000C112EC7D9D7F0F1F0F1F0000D002FD8E3C4E2D8D3F3F7F0000A00350006119C0025";

/// The first of these rounds that isn't answered as it says, behind those that lead to access.
fn refuted_behind(scene: &mut Scene, rounds: &str) -> Result<u32, NoMemory> {
    if refuted_in(scene, ACCESS)? > 0 {
        return Ok(u32::MAX);
    }
    refuted_in(scene, rounds)
}

/// The first of these rounds that isn't answered as it says, in conversations of ALICE, who accessed the database.
fn refuted_behind_access(alloc: Global, rounds: &str) -> Result<u32, NoMemory> {
    let mut scene = both_begun(alloc)?;
    refuted_behind(&mut scene, rounds)
}

// ---- access

/// RDBCMM and DSCSQLSTT before EXCSAT; SECCHK with a space behind the password, of a user who isn't known, without a password,
/// and with a mechanism that has none; ACCRDB with a type definition that isn't known. A length below 6 is answered SYNTAXRM, and
/// what follows isn't answered.
const REFUSALS: &str = "\
1|COMMIT||NOT_ALLOWED
1|00042008||0016D0020001001012500006114900080006000C2008
1|HELLO||LEVELS
1|MECHANISM||CHOSEN
1|001E106E000611A20003000911A0C1D3C9C3C5000B11A1E2C5C3D9C5E340||0015D0020001000F1219000611490008000511A40F
1|MECHANISM||CHOSEN
1|0011106E000611A20003000711A0C2D6C2||0015D0020001000F1219000611490008000511A413
1|MECHANISM||CHOSEN
1|0013106E000611A20003000911A0C1D3C9C3C5||0015D0020001000F1219000611490008000511A40F
1|MECHANISM||CHOSEN
1|0014106E000611A20004000A11A0C1D3C9C3C540||0015D0020001000F1219000611490000000511A400
1|001B2001000D002FD8E3C4E2D8D3F3F7F1000A2110E2C1D4D7D3C5||0016D0020001001012520006114900080006000C002F
2|=0005||0015D0020000000F124C0006114900080005114A01
2|=0005||";

#[test]
fn access_is_refused(rt: HostRuntime) -> Result<(), Fail> {
    assert_eq!(rt; refuted(rt.alloc(), REFUSALS)?, 0);
    Ok(())
}

// ---- statements

/// Statements and their SQLCARDs; EXCSQLIMM without a statement; at last another schema.
const STATEMENTS: &str = "\
1|EXECUTE|INSERT INTO T VALUES (1, 'B')|DUPLICATE
1|EXECUTE|INSERT INTO T VALUES (2, 'B')|DONE
1|EXECUTE|INSERT INTO T VALUES (002, 'B')|DUPLICATE
1|EXECUTE|UPDATE T SET V = 'C' WHERE K = 1|DONE
1|EXECUTE|UPDATE T SET V = 'C' WHERE K = 3|NOT_FOUND
1|EXECUTE|DELETE FROM T WHERE K = 1|DONE
1|EXECUTE|DELETE FROM T WHERE K = 1|NOT_FOUND
1|EXECUTE|INSERT INTO T VALUES (1, 'D')|DONE
1|EXECUTE|SELECT K, V FROM T|NO_STATEMENT
1|EXECUTE|COMMIT|NO_STATEMENT
1|EXECUTE||NO_STATEMENT
1|SET|SET R7 = 'x'|DONE
1|SET|DELETE FROM T WHERE K = 1|NO_STATEMENT
1|PREPARE|SET R7 = 'x'|NO_STATEMENT
1|PREPARE|SELECT K, V FROM T|DONE
1|EXECUTE|SET CURRENT SCHEMA = 'S'|DONE
1|EXECUTE|DELETE FROM T WHERE K = 1|NOT_FOUND";

#[test]
fn statements_are_answered(rt: HostRuntime) -> Result<(), Fail> {
    assert_eq!(rt; refuted_behind_access(rt.alloc(), STATEMENTS)?, 0);
    Ok(())
}

// ---- units of work

/// A unit writes the row with key 1, and adds one. Another one sees nothing of it, and lets the row with key 1 go; its cursor, which
/// commits hold, stays open. The unit that commits first is committed, and the other is rolled back, with release granted.
const CONFLICTS: &str = "\
1|EXECUTE|UPDATE T SET V = 'B' WHERE K = 1|DONE
1|EXECUTE|INSERT INTO T VALUES (7, 'B')|DONE
2|EXECUTE|DELETE FROM T WHERE K = 7|NOT_FOUND
2|EXECUTE|DELETE FROM T WHERE K = 1|DONE
2|EXECUTE|INSERT INTO T VALUES (2, 'C')|DONE
2|PREPARE|WITH HOLD;SELECT K, V FROM T|DONE
2|OPEN||OPENED
1|COMMIT||GRANTED
2|COMMIT||CONFLICT";

#[test]
fn conflicts_roll_back(rt: HostRuntime) -> Result<(), Fail> {
    assert_eq!(rt; refuted_behind_access(rt.alloc(), CONFLICTS)?, 0);
    Ok(())
}

/// Whether a row with another schema is added, and neither one that is there nor a user who is.
fn adds(group: &mut Store) -> Result<bool, NoMemory> {
    let is_added = group.add_row(b"AL", 9, b"")?;
    let is_there = !group.add_row(b"ALICE", 1, b"B")?;
    let is_known = !group.add_user(b"ALICE ", b"OTHER")?;
    Ok(is_added && is_there && is_known)
}

/// Whether the second of two rows is that of ALICE, and none was committed.
fn tells(group: &Store) -> Result<bool, NoMemory> {
    let rows = group.rows()?;
    Ok(group.commits() == 0 && rows.len() == 2 && is_of_alice(rows.get(1)))
}

/// Whether this is the row of ALICE with key 1.
fn is_of_alice(row: Option<&Row>) -> bool {
    match row {
        Some(row) => {
            row.key == 1
                && row.schema.as_slice() == b"ALICE".as_slice()
                && row.text.as_slice() == b"A".as_slice()
        }
        None => false,
    }
}

/// Whether rows are told behind what is added.
fn adds_and_tells(alloc: Global) -> Result<bool, NoMemory> {
    let mut group = store(alloc)?;
    Ok(adds(&mut group)? && tells(&group)?)
}

/// Rows are told by schema and by key; a row and a user are added once.
#[test]
fn rows_are_told(rt: HostRuntime) -> Result<(), Fail> {
    assert!(rt; adds_and_tells(rt.alloc())?);
    Ok(())
}

// ---- cursors

/// A cursor that is held is fetched on behind a commit, which isn't granted release, to its end; a roll back drops another.
const FETCHES: &str = "\
1|EXECUTE|INSERT INTO T VALUES (7, 'b')|DONE
1|OPEN||NOT_PREPARED
1|PREPARE|WITH HOLD;SELECT K, V FROM T|DONE
1|OPEN||OPENED
1|OPEN||CURSOR_OPEN
1|FETCH||0014D0030001000E241BFF0000000001000001C1
1|COMMIT||0015D0520001000F220C0006114900040005211501000BD003000100052408FF
1|OPEN||NOT_PREPARED
1|FETCH||0014D0030001000E241BFF000000000700000182
1|FETCH||0010D0520001000A220B000611490004001ED0030001001824080000000064F0F2F0F0F04040404040404040FFFF
1|FETCH||NOT_OPEN
1|CLOSE||NOT_OPEN
1|PREPARE|WITH HOLD;SELECT K, V FROM T|DONE
1|OPEN||OPENED
1|ROLL_BACK||0015D0520001000F220C0006114900040005211502000BD003000100052408FF
1|FETCH||NOT_OPEN
1|COMMIT||GRANTED";

#[test]
fn cursors_are_fetched(rt: HostRuntime) -> Result<(), Fail> {
    assert_eq!(rt; refuted_behind_access(rt.alloc(), FETCHES)?, 0);
    Ok(())
}

// ---- registers

/// Registers are told in their order, whatever the order in which they were set; another conversation sets them again by one
/// EXCSQLSET, and is told the same.
const REGISTERS: &str = "\
1|SET|SET R10 = 'a'|DONE
1|SET|SET CURRENT SCHEMA = 'S11'|DONE
1|COMMIT||TOLD
2|SET|SET CURRENT SCHEMA = 'S11';SET R10 = 'a'|DONE
2|COMMIT||TOLD";

#[test]
fn registers_are_told(rt: HostRuntime) -> Result<(), Fail> {
    assert_eq!(rt; refuted_behind_access(rt.alloc(), REGISTERS)?, 0);
    Ok(())
}

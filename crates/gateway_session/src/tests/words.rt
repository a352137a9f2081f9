ghost use Rattle.std.specs.Prelude.{◌≤◌, length};

use ddm_codepoints::TypDef;
use hex_lines::read_hex;
use link_ends::{NoMemory, Octets};
use reply_texts::encode;
use std::alloc::Global;

/// Bytes by their names, in hexadecimal digits. Chains, or a part of one: EXCSAT and ACCSEC, and SECCHK and ACCRDB of ALICE; EXCSAT and
/// ACCSEC alone; SECCHK of ALICE with another password, and of BOB; ACCRDB behind it in its chain; SECCHK of ALICE alone in its chain,
/// and ACCRDB of another database; RDBCMM; an INSERT of each of two rows, with RDBCMM between them; PRPSQLSTT of all rows in section 5,
/// for a cursor that commits hold, and OPNQRY. Replies: EXCSATRD, ACCSECRD, SECCHKRM and ACCRDBRM; the first two, and the others;
/// ENDUOWRM of a commit that was done, a SQLCARD of success, and four of them; RSCLMTRM; ABNUOWRM, and SQLCARDs behind it, of -30108
/// with 08506 and with 08007, and of -30081 with 08001; a SQLCARD of -104 with 42601; OPNQRYRM and QRYDSC.
pub(super) const NAMES: &str = "\
START 0022D0410001001C1041001814041403000724070007240F000714400007147400050026D00100020020106D000611A2000300162110E2C1D4D7D3C54040404040404040404040400039D0\
4100010033106E000611A20003000911A0C1D3C9C3C5000A11A1E2C5C3D9C5E300162110E2C1D4D7D3C54040404040404040404040400049D0010002004320010006210F2407000C112EE2C3D9F0\
F1F0F1F0000D002FD8E3C4E2D8D3F3F7F000162110E2C1D4D7D3C5404040404040404040404040000A00350006119C0025
HELLO 0022D0410001001C1041001814041403000724070007240F000714400007147400050026D00100020020106D000611A2000300162110E2C1D4D7D3C5404040404040404040404040
WRONG 0038D04100010032106E000611A20003000911A0C1D3C9C3C5000911A1E6D9D6D5C700162110E2C1D4D7D3C5404040404040404040404040
BOB 0037D04100010031106E000611A20003000711A0C2D6C2000A11A1E2C5C3D9C5E300162110E2C1D4D7D3C5404040404040404040404040
RDB 0049D0010002004320010006210F2407000C112EE2C3D9F0F1F0F1F0000D002FD8E3C4E2D8D3F3F7F000162110E2C1D4D7D3C5404040404040404040404040000A00350006119C0025
SECCHK 0039D00100010033106E000611A20003000911A0C1D3C9C3C5000A11A1E2C5C3D9C5E300162110E2C1D4D7D3C5404040404040404040404040
OTHER 0049D0010001004320010006210F2407000C112EE2C3D9F0F1F0F1F0000D002FD8E3C4E2D8D3F3F7F000162110D6E3C8C5D940404040404040404040404040000A00350006119C0025
COMMIT 000AD00100010004200E
UNITS 000AD05100010004200A002DD043000100272414000000001DC9D5E2C5D9E340C9D5E3D640E340E5C1D3E4C5E2404DF16B407DC17D5DFF000AD04100020004200E000AD05100030004200A\
002DD003000300272414000000001DC9D5E2C5D9E340C9D5E3D640E340E5C1D3E4C5E2404DF26B407DC27D5DFF
CURSOR 004ED05100010048200D00442113E2C1D4D7D3C5404040404040404040404040D5E4D3D3C9C4404040404040404040404040E2C3D9C9D7E34040404040404040404040400101010101010\
10100050019D0530001001324500000000009E6C9E3C840C8D6D3C4FF0022D0030001001C24140000000012E2C5D3C5C3E340D26B40E540C6D9D6D440E3FF004ED00100010048200C00442113E2C\
1D4D7D3C5404040404040404040404040D5E4D3D3C9C4404040404040404040404040E2C3D9C9D7E340404040404040404040404001010101010101010005
STARTED 003FD043000100391443000A1147C4D9C4C1C7E6000B116DC7C1E3C5E6C1E80008115AC7E6F0F1001814041403000724070007240F000714400007147400050010D0030002000A14AC00\
0611A200030015D0420001000F1219000611490000000511A4000033D0020002002D2201000611490000000C112EC7D9D7F0F1F0F1F0000D002FD8E3C4E2D8D3F3F7F0000A00350006119C0025
GREETED 003FD043000100391443000A1147C4D9C4C1C7E6000B116DC7C1E3C5E6C1E80008115AC7E6F0F1001814041403000724070007240F000714400007147400050010D0030002000A14AC00\
0611A20003
ADMITTED 0015D0420001000F1219000611490000000511A4000033D0020002002D2201000611490000000C112EC7D9D7F0F1F0F1F0000D002FD8E3C4E2D8D3F3F7F0000A00350006119C0025
ENDED 0015D0520001000F220C0006114900040005211501
DONE 000BD003000100052408FF
FOUR 000BD003000100052408FF000BD003000100052408FF000BD003000100052408FF000BD003000100052408FF
LIMIT 0010D0020001000A1233000611490008
ABNUOWRM 0026D05200010020220D00061149000800162110E2C1D4D7D3C5404040404040404040404040
REROUTED 001ED00300010018240800FFFF8A64F0F8F5F0F64040404040404040FFFF
UNKNOWN 001ED00300010018240800FFFF8A64F0F8F0F0F74040404040404040FFFF
NOWHERE 001ED00300010018240800FFFF8A7FF0F8F0F0F14040404040404040FFFF
REFUSED 001ED00300010018240800FFFFFF98F4F2F6F0F14040404040404040FFFF
OPENED 0010D0520001000A2205000611490000001CD00300010016241A0976D00200043F00C80971E0540001D00001";

/// The digits with this name, or else the word itself.
fn digits_of(word: &str) -> &str {
    for line in NAMES.lines() {
        if let Some((name, digits)) = line.split_once(' ') {
            if name == word {
                return digits;
            }
        }
    }
    word
}

/// Appends the bytes with this name, or those that its digits spell.
pub(super) fn put(alloc: Global, bytes: &mut Octets, word: &str) {
    if let Ok(Some(read)) = read_hex(alloc, digits_of(word).as_bytes()) {
        let _ = bytes.push_all(read.as_slice());
    }
}

/// Appends the bytes of these words, which blanks part.
fn put_all(alloc: Global, bytes: &mut Octets, words: &str) {
    for word in words.split(' ') {
        put(alloc, bytes, word);
    }
}

/// These texts, one behind the other, in EBCDIC.
fn coded(alloc: Global, texts: (&str, &str)) -> Result<Vec<u8>, NoMemory> {
    let mut text = Vec::from_slice(alloc, texts.0.as_bytes())?;
    text.extend_from_slice(texts.1.as_bytes())?;
    encode(&mut text, TypDef::Sql370);
    Ok(text)
}

/// Appends EXCSQLIMM (200A) or EXCSQLSET (2014) of a statement of fewer than 240 bytes, alone in its chain: these texts.
fn put_statement(alloc: Global, bytes: &mut Octets, code: u8, texts: (&str, &str)) {
    if let Ok(text) = coded(alloc, texts) {
        let _ = bytes.push_all(&[0, 10, 0xD0, 0x51, 0, 1, 0, 4, 0x20, code]);
        put_text(bytes, text.as_slice());
    }
}

/// Appends a SQLSTT with this text, with the number of the command before it, and at the end of its chain.
fn put_text(bytes: &mut Octets, text: &[u8]) {
    let size = u8::try_from(text.len()).unwrap_or(0);
    let _ = bytes.push_all(&[0, size.saturating_add(16), 0xD0, 3, 0, 1]);
    let _ = bytes.push_all(&[0, size.saturating_add(10), 0x24, 0x14, 0, 0, 0, 0, size]);
    let _ = bytes.push_all(text);
    let _ = bytes.push_all(&[0xFF]);
}

/// The field before the first `|` of a line, and what stands behind it.
pub(super) fn field(line: &str) -> (&str, &str) {
    match line.split_once('|') {
        Some(fields) => fields,
        None => (line, ""),
    }
}

/// The first bytes, so many at most.
pub(super) fn front(bytes: &[u8], most: usize) -> &[u8]
    ensures { length result.now ≤ length bytes.now }
{
    bytes.get(..most).unwrap_or(bytes)
}

/// What stands behind the first bytes.
pub(super) fn behind(bytes: &[u8], count: usize) -> &[u8] {
    bytes.get(count..).unwrap_or(&[])
}

/// The application has a statement to send.
pub(super) fn put_step(alloc: Global, bytes: &mut Octets, word: &str, text: &str) {
    match word {
        "insert" => put_statement(alloc, bytes, 0x0A, ("INSERT INTO T VALUES ", text)),
        "schema" => put_statement(alloc, bytes, 0x14, ("SET CURRENT SCHEMA = ", text)),
        _ => put_statement(alloc, bytes, 0x14, ("SET ", text)),
    }
}

/// Whether these words are what both applications were said.
pub(super) fn are_said(alloc: Global, app: &[u8], other: &[u8], words: &str) -> bool {
    let mut said = Octets::new(alloc);
    put_all(alloc, &mut said, words);
    front(said.as_slice(), app.len()) == app && behind(said.as_slice(), app.len()) == other
}

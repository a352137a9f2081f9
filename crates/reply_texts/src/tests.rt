use super::*;
use ddm_codepoints::TypDef;
use std::process::Abort;
use std::test::Fail;

/// ABNUOWRM of SAMPLE.
const ABNUOWRM: [u8; 32] = [
    0x00, 0x20, 0x22, 0x0D, 0x00, 0x06, 0x11, 0x49, 0x00, 0x08, 0x00, 0x16, 0x21, 0x10, 0xE2, 0xC1,
    0xD4, 0xD7, 0xD3, 0xC5, 0x40, 0x40, 0x40, 0x40, 0x40, 0x40, 0x40, 0x40, 0x40, 0x40, 0x40, 0x40,
];

/// The replies where no member is left, of SAMPLE, with number 3, in QTDSQL370.
const ENDED: [u8; 68] = [
    0x00, 0x26, 0xD0, 0x52, 0x00, 0x03, 0x00, 0x20, 0x22, 0x0D, 0x00, 0x06, 0x11, 0x49, 0x00, 0x08,
    0x00, 0x16, 0x21, 0x10, 0xE2, 0xC1, 0xD4, 0xD7, 0xD3, 0xC5, 0x40, 0x40, 0x40, 0x40, 0x40, 0x40,
    0x40, 0x40, 0x40, 0x40, 0x40, 0x40, 0x00, 0x1E, 0xD0, 0x03, 0x00, 0x03, 0x00, 0x18, 0x24, 0x08,
    0x00, 0xFF, 0xFF, 0x8A, 0x7F, 0xF0, 0xF8, 0xF0, 0xF0, 0xF1, 0x40, 0x40, 0x40, 0x40, 0x40, 0x40,
    0x40, 0x40, 0xFF, 0xFF,
];

/// SQLCARD of success.
const NULL_CARD: [u8; 5] = [0x00, 0x05, 0x24, 0x08, 0xFF];

/// SQLCODEs and SQLSTATEs, and the bytes that they have in QTDSQL370.
const CARDS: [(i32, [u8; 5], [u8; 9]); 8] = [
    (
        -30108,
        *b"08007",
        [0xFF, 0xFF, 0x8A, 0x64, 0xF0, 0xF8, 0xF0, 0xF0, 0xF7],
    ),
    (
        -30108,
        *b"08506",
        [0xFF, 0xFF, 0x8A, 0x64, 0xF0, 0xF8, 0xF5, 0xF0, 0xF6],
    ),
    (
        -30081,
        *b"08007",
        [0xFF, 0xFF, 0x8A, 0x7F, 0xF0, 0xF8, 0xF0, 0xF0, 0xF7],
    ),
    (
        -30081,
        *b"08001",
        [0xFF, 0xFF, 0x8A, 0x7F, 0xF0, 0xF8, 0xF0, 0xF0, 0xF1],
    ),
    (
        -911,
        *b"40001",
        [0xFF, 0xFF, 0xFC, 0x71, 0xF4, 0xF0, 0xF0, 0xF0, 0xF1],
    ),
    (
        -803,
        *b"23505",
        [0xFF, 0xFF, 0xFC, 0xDD, 0xF2, 0xF3, 0xF5, 0xF0, 0xF5],
    ),
    (
        -104,
        *b"42601",
        [0xFF, 0xFF, 0xFF, 0x98, 0xF4, 0xF2, 0xF6, 0xF0, 0xF1],
    ),
    (
        100,
        *b"02000",
        [0x00, 0x00, 0x00, 0x64, 0xF0, 0xF2, 0xF0, 0xF0, 0xF0],
    ),
];

/// The card with this code and state, and the name of a procedure.
fn card(code: i32, state: [u8; 5], proc: &[u8; 8]) -> Card {
    Card::Full(Sqlca {
        code,
        state,
        proc: *proc,
    })
}

fn name(rt: &impl Abort, ascii: &[u8]) -> RdbName {
    RdbName::of(ascii).expect(rt, "a name")
}

#[test]
fn writes_and_reads_cards(rt: HostRuntime) -> Result<(), Fail> {
    let success = write_sqlcard(rt.alloc(), &Card::Null, TypDef::SqlX86)?;
    assert!(rt; success.as_slice() == NULL_CARD.as_slice());
    for (code, state, bytes) in CARDS {
        let said = card(code, state, b"        ");
        assert!(rt; said.has_text());
        let object = write_sqlcard(rt.alloc(), &said, TypDef::Sql370)?;
        let object = object.as_slice();
        assert_eq!(rt; object.len(), 24);
        assert!(rt; object.starts_with(&[0x00, 0x18, 0x24, 0x08, 0x00]));
        assert!(rt; &object[5..14] == bytes.as_slice());
        assert!(rt;
            object.ends_with(&[0x40, 0x40, 0x40, 0x40, 0x40, 0x40, 0x40, 0x40, 0xFF, 0xFF])
        );
        assert!(rt; read_sqlcard(&object[4..], TypDef::Sql370) == Some(said));
    }
    Ok(())
}

#[test]
fn writes_cards_in_each_type_definition(rt: HostRuntime) -> Result<(), Fail> {
    let said = card(-911, *b"40001", b"DSNXRUID");
    let orders = [
        (TypDef::SqlAsc, [0xFF, 0xFF, 0xFC, 0x71]),
        (TypDef::SqlX86, [0x71, 0xFC, 0xFF, 0xFF]),
    ];
    for (typdef, code) in orders {
        assert!(rt; said.has_text());
        let object = write_sqlcard(rt.alloc(), &said, typdef)?;
        let object = object.as_slice();
        assert_eq!(rt; object.len(), 24);
        assert!(rt; &object[5..9] == code.as_slice());
        assert!(rt; &object[9..22] == b"40001DSNXRUID".as_slice());
        assert!(rt; read_sqlcard(&object[4..], typdef) == Some(said));
    }
    Ok(())
}

#[test]
fn reads_no_card(rt: HostRuntime) {
    let mut bytes = [0x40; 19];
    bytes[0] = 0xFF;
    assert!(rt; read_sqlcard(&bytes, TypDef::Sql370) == Some(Card::Null));
    assert!(rt; read_sqlcard(&bytes[..1], TypDef::Sql370) == Some(Card::Null));
    assert!(rt; read_sqlcard(&[], TypDef::Sql370).is_none());
    assert!(rt; read_sqlcard(&[0x01], TypDef::Sql370).is_none());
    bytes[0] = 0x00;
    bytes[18] = 0x00;
    assert!(rt; read_sqlcard(&bytes, TypDef::Sql370).is_some());
    assert!(rt; read_sqlcard(&bytes[..18], TypDef::Sql370).is_some());
    assert!(rt; read_sqlcard(&bytes[..17], TypDef::Sql370).is_none());
    bytes[17] = 0x00;
    assert!(rt; read_sqlcard(&bytes, TypDef::Sql370).is_none());
    bytes[17] = 0x40;
    bytes[5] = 0xFF;
    assert!(rt; read_sqlcard(&bytes, TypDef::Sql370).is_none());
    assert!(rt; read_sqlcard(&bytes, TypDef::SqlAsc).is_none());
}

#[test]
fn names(rt: HostRuntime) {
    assert!(rt; name(&rt, b"GRP01010").as_slice() == b"GRP01010".as_slice());
    assert!(rt; name(&rt, b"ABCDEFGHIJKLMNOPQR").as_slice() == b"ABCDEFGHIJKLMNOPQR".as_slice());
    let refused: [&[u8]; 5] = [b"", b"ABCDEFGHIJKLMNOPQRS", b"sample", b"SAM PLE", b"A@"];
    for ascii in refused {
        assert!(rt; RdbName::of(ascii).is_none());
    }
}

#[test]
fn replies(rt: HostRuntime) -> Result<(), Fail> {
    let alloc = rt.alloc();
    let rolled_back = abnuow(alloc, &name(&rt, b"SAMPLE"))?;
    assert!(rt; rolled_back.as_slice() == ABNUOWRM.as_slice());
    let committed = enduow(alloc, 1)?;

    let expected = [
        0x00, 0x0F, 0x22, 0x0C, 0x00, 0x06, 0x11, 0x49, 0x00, 0x04, 0x00, 0x05, 0x21, 0x15, 0x01,
    ];
    assert!(rt; committed.as_slice() == expected.as_slice());
    let unknown = cmdnsp(alloc, 0xFFFF)?;
    let expected = [
        0x00, 0x10, 0x12, 0x50, 0x00, 0x06, 0x11, 0x49, 0x00, 0x08, 0x00, 0x06, 0x00, 0x0C, 0xFF,
        0xFF,
    ];
    assert!(rt; unknown.as_slice() == expected.as_slice());
    let not_now = prccnv(alloc)?;
    let expected = [0x00, 0x0A, 0x12, 0x45, 0x00, 0x06, 0x11, 0x49, 0x00, 0x08];
    assert!(rt; not_now.as_slice() == expected.as_slice());
    Ok(())
}

#[test]
fn closing_replies(rt: HostRuntime) {
    let syntax = [
        0x00, 0x15, 0xD0, 0x02, 0x00, 0x01, 0x00, 0x0F, 0x12, 0x4C, 0x00, 0x06, 0x11, 0x49, 0x00,
        0x08, 0x00, 0x05, 0x11, 0x4A, 0x0E,
    ];
    assert_eq!(rt; syntax_dss(1, 0x0E), syntax);
    let no_access = [
        0x00, 0x10, 0xD0, 0x02, 0x00, 0x02, 0x00, 0x0A, 0x12, 0x32, 0x00, 0x06, 0x11, 0x49, 0x00,
        0x10,
    ];
    assert_eq!(rt; agnprm_dss(2), no_access);
    let limit = [
        0x00, 0x10, 0xD0, 0x02, 0x00, 0x01, 0x00, 0x0A, 0x12, 0x33, 0x00, 0x06, 0x11, 0x49, 0x00,
        0x08,
    ];
    assert_eq!(rt; limit_dss(1), limit);
    let memory = [
        0x00, 0x10, 0xD0, 0x02, 0xFF, 0xFF, 0x00, 0x0A, 0x12, 0x33, 0x00, 0x06, 0x11, 0x49, 0x00,
        0x10,
    ];
    assert_eq!(rt; memory_dss(0xFFFF), memory);
}

#[test]
fn ended(rt: HostRuntime) {
    let sample = name(&rt, b"SAMPLE");
    let mut expected = ENDED;
    assert!(rt; ended_dss(3, &sample, false, TypDef::Sql370) == expected);
    expected[57] = 0xF7;
    assert!(rt; ended_dss(3, &sample, true, TypDef::Sql370) == expected);
    expected[49] = 0x7F;
    expected[50] = 0x8A;
    expected[51] = 0xFF;
    expected[52] = 0xFF;
    expected[53] = b'0';
    expected[54] = b'8';
    expected[55] = b'0';
    expected[56] = b'0';
    expected[57] = b'7';
    for i in 58..66 {
        expected[i] = b' ';
    }
    assert!(rt; ended_dss(3, &sample, true, TypDef::SqlX86) == expected);
}

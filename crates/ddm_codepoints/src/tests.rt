use super::*;
use std::test::Fail;

/// Each code point that has a class, with its name.
const CODES: [(u16, CodeClass, &str); 76] = [
    (0x1041, CodeClass::Access, "EXCSAT"),
    (0x106D, CodeClass::Access, "ACCSEC"),
    (0x106E, CodeClass::Access, "SECCHK"),
    (0x2001, CodeClass::Access, "ACCRDB"),
    (0x200E, CodeClass::UnitEnd, "RDBCMM"),
    (0x200F, CodeClass::UnitEnd, "RDBRLLBCK"),
    (0x2002, CodeClass::Pass, "BGNBND"),
    (0x2004, CodeClass::Pass, "BNDSQLSTT"),
    (0x2005, CodeClass::Pass, "CLSQRY"),
    (0x2006, CodeClass::Pass, "CNTQRY"),
    (0x2007, CodeClass::Pass, "DRPPKG"),
    (0x2008, CodeClass::Pass, "DSCSQLSTT"),
    (0x2009, CodeClass::Pass, "ENDBND"),
    (0x200A, CodeClass::Pass, "EXCSQLIMM"),
    (0x200B, CodeClass::Pass, "EXCSQLSTT"),
    (0x200C, CodeClass::Pass, "OPNQRY"),
    (0x200D, CodeClass::Pass, "PRPSQLSTT"),
    (0x2010, CodeClass::Pass, "REBIND"),
    (0x2014, CodeClass::Pass, "EXCSQLSET"),
    (0x0010, CodeClass::Object, "FDODSC"),
    (0x146C, CodeClass::Object, "EXTDTA"),
    (0x147A, CodeClass::Object, "FDODTA"),
    (0x1443, CodeClass::Object, "EXCSATRD"),
    (0x14AC, CodeClass::Object, "ACCSECRD"),
    (0x2408, CodeClass::Object, "SQLCARD"),
    (0x2411, CodeClass::Object, "SQLDARD"),
    (0x2412, CodeClass::Object, "SQLDTA"),
    (0x2413, CodeClass::Object, "SQLDTARD"),
    (0x2414, CodeClass::Object, "SQLSTT"),
    (0x241A, CodeClass::Object, "QRYDSC"),
    (0x241B, CodeClass::Object, "QRYDTA"),
    (0x244E, CodeClass::Object, "SRVLST"),
    (0x2450, CodeClass::Object, "SQLATTR"),
    (0x000C, CodeClass::Object, "CODPNT"),
    (0x002F, CodeClass::Object, "TYPDEFNAM"),
    (0x0035, CodeClass::Object, "TYPDEFOVR"),
    (0x112E, CodeClass::Object, "PRDID"),
    (0x1147, CodeClass::Object, "SRVCLSNM"),
    (0x1149, CodeClass::Object, "SVRCOD"),
    (0x114A, CodeClass::Object, "SYNERRCD"),
    (0x115A, CodeClass::Object, "SRVRLSLV"),
    (0x115E, CodeClass::Object, "EXTNAM"),
    (0x116D, CodeClass::Object, "SRVNAM"),
    (0x119F, CodeClass::Object, "RLSCONV"),
    (0x119C, CodeClass::Object, "CCSIDSBC"),
    (0x119D, CodeClass::Object, "CCSIDDBC"),
    (0x119E, CodeClass::Object, "CCSIDMBC"),
    (0x11A0, CodeClass::Object, "USRID"),
    (0x11A1, CodeClass::Object, "PASSWORD"),
    (0x11A2, CodeClass::Object, "SECMEC"),
    (0x11A4, CodeClass::Object, "SECCHKCD"),
    (0x1404, CodeClass::Object, "MGRLVLLS"),
    (0x210E, CodeClass::Object, "RTNSETSTT"),
    (0x210F, CodeClass::Object, "RDBACCCL"),
    (0x2110, CodeClass::Object, "RDBNAM"),
    (0x2113, CodeClass::Object, "PKGNAMCSN"),
    (0x2114, CodeClass::Object, "QRYBLKSZ"),
    (0x2115, CodeClass::Object, "UOWDSP"),
    (0x2135, CodeClass::Object, "CRRTKN"),
    (0x1210, CodeClass::Reply, "MGRLVLRM"),
    (0x1219, CodeClass::Reply, "SECCHKRM"),
    (0x1232, CodeClass::Reply, "AGNPRMRM"),
    (0x1233, CodeClass::Reply, "RSCLMTRM"),
    (0x1245, CodeClass::Reply, "PRCCNVRM"),
    (0x124C, CodeClass::Reply, "SYNTAXRM"),
    (0x1250, CodeClass::Reply, "CMDNSPRM"),
    (0x1252, CodeClass::Reply, "VALNSPRM"),
    (0x2201, CodeClass::Reply, "ACCRDBRM"),
    (0x2202, CodeClass::Reply, "QRYNOPRM"),
    (0x2204, CodeClass::Reply, "RDBNACRM"),
    (0x2205, CodeClass::Reply, "OPNQRYRM"),
    (0x220B, CodeClass::Reply, "ENDQRYRM"),
    (0x220C, CodeClass::Reply, "ENDUOWRM"),
    (0x220D, CodeClass::Reply, "ABNUOWRM"),
    (0x2211, CodeClass::Reply, "RDBNFNRM"),
    (0x2213, CodeClass::Reply, "SQLERRRM"),
];

/// Characters whose codes in EBCDIC follow one another, from a first one on.
const ROWS: [(&[u8], u8); 15] = [
    (b"ABCDEFGHI", 0xC1),
    (b"JKLMNOPQR", 0xD1),
    (b"STUVWXYZ", 0xE2),
    (b"abcdefghi", 0x81),
    (b"jklmnopqr", 0x91),
    (b"stuvwxyz", 0xA2),
    (b"0123456789", 0xF0),
    (b" ", 0x40),
    (b".<(+", 0x4B),
    (b"&", 0x50),
    (b"*);", 0x5C),
    (b"-/", 0x60),
    (b",%_>?", 0x6B),
    (b":", 0x7A),
    (b"'=\"", 0x7D),
];

#[test]
fn classes_and_names(rt: HostRuntime) {
    let mut known = 0u32;
    for (code, expected, word) in CODES {
        assert_eq!(rt; class(code), expected);
        assert!(rt; name(code) == Some(word));
    }
    for code in 0..=u16::MAX {
        if name(code).is_some() {
            known = known.wrapping_add(1);
        } else {
            assert_eq!(rt; class(code), CodeClass::Unknown);
        }
    }
    assert_eq!(rt; known, 76);
    assert!(rt; !class(0x1443).is_command() && class(0x200E).is_command());
}

#[test]
fn managers(rt: HostRuntime) {
    let managers = [
        (code_point::AGENT, 0x1403),
        (code_point::SQLAM, 0x2407),
        (code_point::RDB, 0x240F),
        (code_point::SECMGR, 0x1440),
        (code_point::CMNTCPIP, 0x1474),
        (code_point::UNICODEMGR, 0x1C08),
    ];
    for (manager, code) in managers {
        assert_eq!(rt; manager, code);
        assert_eq!(rt; class(code), CodeClass::Unknown);
    }
}

#[test]
fn values(rt: HostRuntime) {
    let severities = [value::INFO, value::WARNING, value::ERROR, value::SEVERE];
    assert_eq!(rt; severities, [0, 4, 8, 16]);
    assert_eq!(rt; [value::COMMITTED, value::ROLLED_BACK], [1, 2]);
    assert_eq!(rt; [value::USER_AND_PASSWORD, value::USER_ALONE], [3, 4]);
    assert_eq!(rt;
        [value::ADMITTED, value::RELEASE, value::RETURN_SETS],
        [0, 0xF2, 0xF1]
    );
}

#[test]
fn characters(rt: HostRuntime) {
    let mut known = 0u32;
    for (text, first) in ROWS {
        for (i, character) in text.iter().enumerate() {
            assert!(rt; i < 10);
            let code = first.wrapping_add(i as u8);
            assert_eq!(rt; ebcdic_of(*character), Some(code));
            assert_eq!(rt; ascii_of(code), Some(*character));
        }
    }
    for byte in 0..=u8::MAX {
        if ebcdic_of(byte).is_some() {
            known = known.wrapping_add(1);
        }
    }
    assert_eq!(rt; known, 82);
}

#[test]
fn type_definitions(rt: HostRuntime) {
    let family = [0xD8, 0xE3, 0xC4, 0xE2, 0xD8, 0xD3];
    let names = [
        ([0xF3, 0xF7, 0xF0, 0x40], Some(TypDef::Sql370)),
        ([0xC1, 0xE2, 0xC3, 0x40], Some(TypDef::SqlAsc)),
        ([0xE7, 0xF8, 0xF6, 0x40], Some(TypDef::SqlX86)),
        ([0xE7, 0xF8, 0x40, 0x40], None),
        ([0x40, 0xF3, 0xF7, 0xF0], None),
    ];
    for (end, expected) in names {
        let mut name = [0x40; 12];
        name[..6].copy_from_slice(&family);
        name[6..10].copy_from_slice(&end);
        assert_eq!(rt; typdef_of(&name), expected);
    }
    assert_eq!(rt; typdef_of(&[]), None);
}

#[test]
fn names_in_ebcdic(rt: HostRuntime) {
    let sample = [
        0xE2, 0xC1, 0xD4, 0xD7, 0xD3, 0xC5, 0x40, 0x40, 0x40, 0x40, 0x40, 0x40, 0x40, 0x40, 0x40,
        0x40, 0x40, 0x40,
    ];
    assert_eq!(rt; padded_name(b"SAMPLE"), sample);
    assert!(rt; trimmed(&sample) == &sample[..6]);
    assert!(rt; trimmed(&sample[6..]).is_empty());
}

use super::*;
use link_ends::NoMemory;
use std::alloc::Global;
use std::test::Fail;

/// Whether this capture shows these lines, and is whole where the last of them says so.
fn shows(alloc: Global, capture: &str, lines: &str) -> Result<bool, NoMemory> {
    match trace_text(alloc, capture.as_bytes()) {
        Ok(traced) => Ok(
            traced.text.as_slice() == lines.as_bytes()
                && traced.whole == !lines.ends_with("not whole\n"),
        ),
        Err(TraceFault::Refused { .. }) => Ok(false),
        Err(TraceFault::NoMemory) => Err(NoMemory),
    }
}

/// EXCSAT with number 1, alone in its chain.
const EXCSAT: &str = "> 000AD001000100041041\n";

/// Its answer.
const EXCSATRD: &str =
    "< 0027D003000100211443000A1147C4D9C4C1C7E6000B116DC7C1E3C5E6C1E80008115AC7E6F0F1\n";

/// What is shown of both.
const GREETED: &str = "chain 1\nrequest 0001 EXCSAT 4\nreply 0001 EXCSATRD 33\n";

#[test]
fn shows_one_chain(rt: HostRuntime) -> Result<(), Fail> {
    let alloc = rt.alloc();
    let whole = format!(in alloc; "{EXCSAT}{EXCSATRD}")?;
    let lines = format!(in alloc; "{GREETED}whole\n")?;
    assert!(rt; shows(alloc, whole.as_str(), lines.as_str())?);
    assert!(rt;
        shows(
            alloc,
            EXCSAT,
            "chain 1\nrequest 0001 EXCSAT 4\nunanswered 1\nnot whole\n"
        )?
    );
    assert!(rt; shows(alloc, "", "whole\n")?);
    Ok(())
}

/// Each kind of line, by its smallest capture.
#[test]
fn shows_each_line(rt: HostRuntime) -> Result<(), Fail> {
    let alloc = rt.alloc();
    let rows = [
        // an object DSS, one whose object has no name, and one whose body is no object
        (
            "> 000AD05100010004200A000AD003000100042414\n< 000BD003000100052408FF\n",
            "chain 1\nrequest 0001 EXCSQLIMM 4\nobject 0001 SQLSTT 4\nreply 0001 SQLCARD 5\nwhole\n",
        ),
        (
            "> 000AD05100010004200A000AD0530001000412340006D0030001\n< 000BD003000100052408FF\n",
            "chain 1\nrequest 0001 EXCSQLIMM 4\nobject 0001 1234 4\nobject 0001 - 0\nreply 0001 SQLCARD 5\nwhole\n",
        ),
        // a command and a reply that have no name
        (
            "> 000AD00100010004FFFF\n< 000AD00300010004FFFF\n",
            "chain 1\nrequest 0001 FFFF 4\nreply 0001 FFFF 4\nwhole\n",
        ),
        // triplets: of QRYDSC, of a reply with FDODSC, and of an object with FDODSC
        (
            "> 000AD00100010004200C\n< 000AD043000100042205\n< 000CD00300010006241A0270\n",
            "chain 1\nrequest 0001 OPNQRY 4\nreply 0001 OPNQRYRM 4\nreply 0001 QRYDSC 6\ntriplet 2 70\nwhole\n",
        ),
        (
            "> 000AD00100010004200C\n< 0010D0030001000A2413000600100270\n",
            "chain 1\nrequest 0001 OPNQRY 4\nreply 0001 SQLDTARD 10\ntriplet 2 70\nwhole\n",
        ),
        (
            "> 000AD05100010004200B0010D0030001000A2412000600100270\n< 000BD003000100052408FF\n",
            "chain 1\nrequest 0001 EXCSQLSTT 4\nobject 0001 SQLDTA 10\ntriplet 2 70\nreply 0001 SQLCARD 5\nwhole\n",
        ),
        (
            "> 000AD00100010004200C\n< 000ED00300010008241A02700101\n",
            "chain 1\nrequest 0001 OPNQRY 4\nreply 0001 QRYDSC 8\ntriplet 2 70\ntriplet fault\nnot whole\n",
        ),
        (
            "> 000AD00100010004200C\n< 000BD00300010005241A03\n",
            "chain 1\nrequest 0001 OPNQRY 4\nreply 0001 QRYDSC 5\ntriplet fault\nnot whole\n",
        ),
        // numbers: none of the chain's, and one that falls
        (
            "> 000AD001000100041041\n< 000AD003000200041443\n",
            "chain 1\nrequest 0001 EXCSAT 4\nreply 0002 EXCSATRD 4\nnumber 1\nnot whole\n",
        ),
        (
            "> 000AD041000100041041000AD001000200041041\n< 000AD043000200041443000AD003000100041443\n",
            "chain 1\nrequest 0001 EXCSAT 4\nrequest 0002 EXCSAT 4\nreply 0002 EXCSATRD 4\nreply 0001 EXCSATRD 4\nnumber 1\nnot whole\n",
        ),
        // the second chain is unanswered
        (
            "> 000AD001000100041041000AD001000200041041\n< 000AD003000100041443\n",
            "chain 1\nrequest 0001 EXCSAT 4\nreply 0001 EXCSATRD 4\nchain 2\nrequest 0002 EXCSAT 4\nunanswered 2\nnot whole\n",
        ),
        // chains of replies to nothing
        (
            "< 000AD003000100041443000AD003000200041443\n",
            "extra 2\nnot whole\n",
        ),
        // faults of frames, of bodies, and of chains
        ("> 0005\n", "fault > 0 01\nnot whole\n"),
        ("> 000AD1\n", "fault > 2 03\nnot whole\n"),
        ("> 000AD002\n", "fault > 3 04\nnot whole\n"),
        ("> 8008D001000700040002\n", "fault > 8 05\nnot whole\n"),
        ("> 000AD001000100031041\n", "fault > 6 07\nnot whole\n"),
        ("> 000AD00100010004106D\n", "fault > 6 0E\nnot whole\n"),
        ("> 000AD003000100041041\n", "fault > 3 04\nnot whole\n"),
        ("< 000AD001\n", "fault < 3 04\nnot whole\n"),
        ("< 000AD002000100051443\n", "fault < 6 08\nnot whole\n"),
        ("< 000AD0020001FFFF1443\n", "fault < 6 0C\nnot whole\n"),
        // what is no whole chain
        ("> 00\n", "rest > 1\nnot whole\n"),
        ("> 000AD04100010004104100\n", "rest > 11\nnot whole\n"),
        ("< 000AD04300010004144300\n", "rest < 11\nnot whole\n"),
        ("> 00\n< 000A\n", "rest > 1\nrest < 2\nnot whole\n"),
    ];
    for (capture, lines) in rows {
        assert!(rt; shows(alloc, capture, lines)?, "{capture}");
    }
    Ok(())
}

/// What stands behind whole chains is told by its place, and lines of the two sides may stand in either order.
#[test]
fn counts_from_the_beginning(rt: HostRuntime) -> Result<(), Fail> {
    let alloc = rt.alloc();
    let rows = [
        ("> 000AD10000\n", "fault > 12 03\nnot whole\n"),
        ("> 000AD0\n", "rest > 3\nnot whole\n"),
        ("< 000AD00300\n", "rest < 5\nnot whole\n"),
        ("< 000AD0030001\n< 00030000\n", "fault < 45 07\nnot whole\n"),
        (
            "> 0005\n< 0005\n",
            "fault > 10 01\nfault < 39 01\nnot whole\n",
        ),
        ("> 0005\n< 00\n", "fault > 10 01\nrest < 1\nnot whole\n"),
    ];
    for (more, end) in rows {
        let capture = format!(in alloc; "# both\n\n{EXCSATRD}{EXCSAT}{more}")?;
        let lines = format!(in alloc; "{GREETED}{end}")?;
        assert!(rt; shows(alloc, capture.as_str(), lines.as_str())?, "{more}");
    }
    Ok(())
}

/// A chain of a command more than one may have: the fault of a limit stands where that command begins.
#[test]
fn shows_a_chain_past_its_limit(rt: HostRuntime) -> Result<(), Fail> {
    let alloc = rt.alloc();
    let mut capture = String::new(alloc);
    for _ in 0..4096 {
        capture.push_str("> 000AD041000100041041\n")?;
    }
    assert!(rt; shows(alloc, capture.as_str(), "rest > 40960\nnot whole\n")?);
    capture.push_str(EXCSAT)?;
    assert!(rt; shows(alloc, capture.as_str(), "fault > 40960 04\nnot whole\n")?);
    Ok(())
}

/// What both sides sent in a conversation of one unit of work, all of the requester first.
const UNIT: &str = "\
> 0022D0410001001C1041001814041403000724070007240F00071440000714740005
> 0026D00100020020106D000611A2000300162110E2C1D4D7D3C5404040404040404040404040
> 0039D04100010033106E000611A20003000911A0C1D3C9C3C5000A11A1E2C5C3D9C5E300162110E2C1D4D7D3C5404040404040404040404040
> 0049D0010002004320010006210F2407000C112EE2C3D9F0F1F0F1F0000D002FD8E3C4E2D8D3F3F7F000162110E2C1D4D7D3C5404040404040404040404040000A00350006119C0025
> 000AD05100010004200A002DD003000100272414000000001DC9D5E2C5D9E340C9D5E3D640E340E5C1D3E4C5E2404DF16B407DC17D5DFF
> 000AD00100010004200E
< 003FD043000100391443000A1147C4D9C4C1C7E6000B116DC7C1E3C5E6C1E80008115AC7E6F0F1001814041403000724070007240F000714400007147400050010D0030002000A14AC000611A20003
< 0015D0420001000F1219000611490000000511A4000033D0020002002D2201000611490000000C112EC7D9D7F0F1F0F1F0000D002FD8E3C4E2D8D3F3F7F0000A00350006119C0025
< 000BD003000100052408FF
< 0015D0520001000F220C0006114900040005211501000BD003000100052408FF
";

/// What is shown of it: the length of each body is that of its DSS without the six bytes of the header.
const UNIT_SHOWN: &str = "\
chain 1
request 0001 EXCSAT 28
request 0002 ACCSEC 32
reply 0001 EXCSATRD 57
reply 0002 ACCSECRD 10
chain 2
request 0001 SECCHK 51
request 0002 ACCRDB 67
reply 0001 SECCHKRM 15
reply 0002 ACCRDBRM 45
chain 3
request 0001 EXCSQLIMM 4
object 0001 SQLSTT 39
reply 0001 SQLCARD 5
chain 4
request 0001 RDBCMM 4
reply 0001 ENDUOWRM 15
reply 0001 SQLCARD 5
whole
";

#[test]
fn shows_a_unit_of_work(rt: HostRuntime) -> Result<(), Fail> {
    assert!(rt; shows(rt.alloc(), UNIT, UNIT_SHOWN)?);
    Ok(())
}

/// The first line that is none of a capture.
#[test]
fn refuses(rt: HostRuntime) {
    for (capture, wanted) in [
        ("x", 1),
        (">", 1),
        ("> ", 1),
        ("> 0", 1),
        ("> 000", 1),
        ("> 0G", 1),
        (">00", 1),
        (">  00", 1),
        ("> 00 ", 1),
        ("= 00", 1),
        (" # x", 1),
        ("\n# x\n> 00\n<\n> 0", 4),
    ] {
        let refused = matches!(
            trace_text(rt.alloc(), capture.as_bytes()),
            Err(TraceFault::Refused { line }) if line == wanted
        );
        assert!(rt; refused, "{capture}");
    }
}

/// A capture of as many bytes as one may have, and one of a byte more.
#[test]
fn refuses_a_longer_one(rt: HostRuntime) -> Result<(), Fail> {
    let alloc = rt.alloc();
    let mut text = vec![in alloc; b'#'; 16_777_216]?;
    assert!(rt; trace_text(alloc, text.as_slice()).is_ok());
    text.push(b'#')?;
    let longer = trace_text(alloc, text.as_slice());
    assert!(rt; matches!(longer, Err(TraceFault::Refused { line: 0 })));
    Ok(())
}

ghost use Rattle.std.specs.Prelude.{IfOk};
ghost use Rattle.link_ends.specs.Link.{IsFresh};
ghost use Rattle.link_ends.specs.Prepared.{wire_state};

use super::*;
use gateway_session::{End, Need};
use hex_lines::read_hex;
use link_ends::{Marks, MemDial, MemLink, NoMemory, Octets};
use reply_texts::RdbName;
use server_list::{ServerList, ServerRow};
use std::alloc::Global;
use std::sync::Wait;
use std::test::Fail;
use transport_lenders::HouseLender;
use transport_pool::House;

/// What the application sends: EXCSAT and ACCSEC, SECCHK and ACCRDB, an INSERT, and RDBCMM.
const SENT: &str = "\
0022D0410001001C1041001814041403000724070007240F000714400007147400050026D00100020020106D000611A2000300162110E2C1D4D7D3C5404040404040404040404040\
0039D04100010033106E000611A20003000911A0C1D3C9C3C5000A11A1E2C5C3D9C5E300162110E2C1D4D7D3C5404040404040404040404040\
0049D0010002004320010006210F2407000C112EE2C3D9F0F1F0F1F0000D002FD8E3C4E2D8D3F3F7F000162110E2C1D4D7D3C5404040404040404040404040000A00350006119C0025\
000AD05100010004200A002DD003000100272414000000001DC9D5E2C5D9E340C9D5E3D640E340E5C1D3E4C5E2404DF16B407DC17D5DFF000AD00100010004200E";

/// What it is answered: EXCSATRD and ACCSECRD, SECCHKRM and ACCRDBRM, a SQLCARD, and ENDUOWRM with a SQLCARD.
const SAID: &str = "\
003FD043000100391443000A1147C4D9C4C1C7E6000B116DC7C1E3C5E6C1E80008115AC7E6F0F1001814041403000724070007240F000714400007147400050010D0030002000A14AC00\
0611A200030015D0420001000F1219000611490000000511A4000033D0020002002D2201000611490000000C112EC7D9D7F0F1F0F1F0000D002FD8E3C4E2D8D3F3F7F0000A00350006119C0025\
000BD003000100052408FF0015D0520001000F220C0006114900040005211501000BD003000100052408FF";

/// What its member answers, chain by chain: EXCSATRD, ACCSECRD, SECCHKRM, ACCRDBRM, a SQLCARD, and ENDUOWRM with RLSCONV and a SQLCARD.
const ANSWERED: &str = "\
0022D0030001001C1443001814041403000724070007240F00071440000714740005 0010D0030001000A14AC000611A20003 0015D0020001000F1219000611490000000511A400 \
0033D0020001002D2201000611490000000C112EC7D9D7F0F1F0F1F0000D002FD8E3C4E2D8D3F3F7F0000A00350006119C0025 000BD003000100052408FF \
001AD05200010014220C00061149000400052115010005119FF2000BD003000100052408FF";

/// The bytes that these words spell, which blanks part.
fn bytes_of(alloc: Global, words: &str) -> Result<Octets, NoMemory> {
    let mut bytes = Octets::new(alloc);
    for word in words.split(' ') {
        if let Some(read) = read_hex(alloc, word.as_bytes())? {
            bytes.push_all(read.as_slice())?;
        }
    }
    Ok(bytes)
}

/// The places at which these words end.
fn ends_of(alloc: Global, words: &str) -> Result<Marks, NoMemory> {
    let mut ends: Vec<u32> = Vec::new(alloc);
    let mut end: u32 = 0;
    for word in words.split(' ') {
        end = end.saturating_add(u32::try_from(word.len() / 2).unwrap_or(0));
        ends.push(end)?;
    }
    Marks::of(alloc, ends.as_slice())
}

/// Each place of so many bytes.
fn places(alloc: Global, count: u32) -> Result<Marks, NoMemory> {
    let mut places: Vec<u32> = Vec::new(alloc);
    for place in 1..count {
        places.push(place)?;
    }
    Marks::of(alloc, places.as_slice())
}

/// The application's link, read a byte at a time where it is paced, whose calls of these numbers fail.
fn app(alloc: Global, paced: bool, fails: &[u32]) -> Result<MemLink, NoMemory>
    ensures { IfOk result (λ link. IsFresh (wire_state link)) }
{
    let cuts = if paced {
        places(alloc, 400)?
    } else {
        Marks::of(alloc, &[])?
    };
    let fails = Marks::of(alloc, fails)?;
    let link = MemLink::paced(alloc, bytes_of(alloc, SENT)?, 1_048_576, cuts, fails)?;
    Ok(link)
}

/// The link to member 1. A read of it ends where a reply does.
fn server(alloc: Global) -> Result<MemLink, NoMemory>
    ensures { IfOk result (λ link. IsFresh (wire_state link)) }
{
    let cuts = ends_of(alloc, ANSWERED)?;
    let fails = Marks::of(alloc, &[])?;
    let link = MemLink::paced(alloc, bytes_of(alloc, ANSWERED)?, 1_048_576, cuts, fails)?;
    Ok(link)
}

/// A dial that reaches member 1 once.
fn one_dial(alloc: Global) -> Result<MemDial, NoMemory> {
    let mut dial = MemDial::new(alloc);
    let link = server(alloc)?;
    dial.add(1, link)?;
    Ok(dial)
}

/// A pool of member 1, which may lend one transport.
fn one_house(alloc: Global) -> Result<House<MemLink>, Fail> {
    let mut list = ServerList::new();
    list.push(ServerRow {
        member: 1,
        weight: 1,
    });
    if list.is_empty() || list.number() != 0 {
        return Err(Fail::from("a list without members, or with a number"));
    }
    Ok(House::<MemLink>::new(alloc, 1, &list, 1)?)
}

/// Serves this link by a run of its own. None where there is no memory for it.
fn serve<R: Wait>(
    rt: &R,
    alloc: Global,
    house: &mut House<MemLink>,
    app: MemLink,
    dial: MemDial,
) -> Option<Done<MemLink>>
    requires { IsFresh (wire_state app) }
{
    let name = RdbName::of(b"SAMPLE")?;
    let Ok(run) = Run::new(alloc, 1, &name, app, HouseLender::new(house), dial) else {
        return None;
    };
    let mut run = run;
    serve_session(rt, &mut run);
    let (done, _, _) = run.into_parts();
    Some(done)
}

fn name_of(end: &End) -> &'static str {
    match end {
        End::AppEnded => "ended",
        End::AppFault => "failed",
        _ => "another",
    }
}

/// How a session over these links ends, which bytes its application was sent, and how often the pool was called.
fn ends_so<R: Wait>(
    rt: &R,
    alloc: Global,
    paced: bool,
    fails: &[u32],
    told: (&str, &str, u64),
) -> Result<bool, Fail> {
    let mut house = one_house(alloc)?;
    let link = app(alloc, paced, fails)?;
    let done = serve(rt, alloc, &mut house, link, one_dial(alloc)?);
    let said = bytes_of(alloc, told.1)?;
    Ok(match done {
        Some(done) => {
            name_of(done.end()) == told.0
                && done.link().written() == said.as_slice()
                && house.calls() == told.2
        }
        None => false,
    })
}

/// A unit of work is run and committed, in whatever pieces its bytes come; a link that fails at once is said nothing.
#[test]
fn a_session_is_served_to_its_end(rt: HostRuntime) -> Result<(), Fail> {
    let alloc = rt.alloc();
    assert!(rt; ends_so(&rt, alloc, false, &[], ("ended", SAID, 2))?);
    assert!(rt; ends_so(&rt, alloc, true, &[], ("ended", SAID, 2))?);
    assert!(rt; ends_so(&rt, alloc, false, &[0], ("failed", "", 0))?);
    Ok(())
}

/// The first turn reads of the application.
#[test]
fn a_turn_is_one_call(rt: HostRuntime) -> Result<(), Fail> {
    let alloc = rt.alloc();
    let mut house = one_house(alloc)?;
    let link = app(alloc, false, &[])?;
    let dial = one_dial(alloc)?;
    let Some(name) = RdbName::of(b"SAMPLE") else {
        return Err(Fail::from("no name"));
    };
    let Ok(run) = Run::new(alloc, 1, &name, link, HouseLender::new(&mut house), dial) else {
        return Err(Fail::from("no memory"));
    };
    let mut run = run;
    let first = matches!(run.turn(), Step::Went(Event::Take { n: 267 }));
    assert!(rt; first);
    assert!(rt; matches!(run.session().need(), Need::Say));
    assert!(rt; run.outcome().is_none());
    Ok(())
}

ghost use Rattle.std.specs.Prelude.{◌≤◌};

use super::*;
use access_handshake::{Mark, Stage};
use link_ends::NoMemory;
use server_list::{ServerList, ServerRow, Tried};
use std::alloc::Global;
use std::test::Fail;

// ---- rows

// A row is a line of fields, parted by `|`: an event, its two arguments, and what is answered.

/// The field before the first `|` of a line, and what stands behind it.
fn field(line: &str) -> (&str, &str) {
    match line.split_once('|') {
        Some(fields) => fields,
        None => (line, ""),
    }
}

/// The word before the first space, and what stands behind it.
fn word(words: &str) -> (&str, &str) {
    match words.split_once(' ') {
        Some(words) => words,
        None => (words, ""),
    }
}

/// The number that digits spell, or 0 where they spell none.
fn number(digits: &str) -> u32 {
    match u32::from_str_radix(digits, 10) {
        Ok(number) => number,
        Err(_) => 0,
    }
}

/// The members 1 and 2, as far as their digits are here.
fn tried_of(digits: &str) -> Tried {
    match digits {
        "" => Tried::none(),
        "1" => Tried::none().with(1),
        "2" => Tried::none().with(2),
        _ => Tried::none().with(1).with(2),
    }
}

/// A list of member 1 alone.
fn alone() -> ServerList {
    let mut list = ServerList::new();
    list.push(ServerRow {
        member: 1,
        weight: 1,
    });
    list
}

/// A list of the members 1 and 2, the second with this weight, and with this number.
fn pair(weight: u16, number: u32) -> ServerList {
    let mut list = alone();
    list.push(ServerRow { member: 2, weight });
    list.set_number(number);
    list
}

/// The list of the members 1 and 2 with this weight and number.
fn list_of(weight: &str, digits: &str) -> ServerList {
    match u16::from_str_radix(weight, 10) {
        Ok(weight) => pair(weight, number(digits)),
        Err(_) => ServerList::new(),
    }
}

fn lend(session: &str, tried: &str, fresh: bool) -> PoolCall {
    PoolCall::Lend {
        session: number(session),
        tried: tried_of(tried),
        fresh,
    }
}

/// The call of an event.
fn call_of(event: &str, first: &str, second: &str) -> PoolCall {
    match event {
        "lend" => lend(first, second, false),
        "lend fresh" => lend(first, second, true),
        "give" => PoolCall::GiveBack {
            number: u64::from(number(first)),
            member: number(second),
        },
        "lost" => PoolCall::Lost {
            number: u64::from(number(first)),
        },
        "learn" => PoolCall::Learn {
            list: list_of(first, second),
        },
        _ => PoolCall::Leave {
            session: number(first),
        },
    }
}

/// The call of an event, and what it is to be answered.
fn call_in(row: &str) -> (PoolCall, PoolAnswer) {
    let (event, rest) = field(row);
    let (first, rest) = field(rest);
    let (second, words) = field(rest);
    (call_of(event, first, second), answer_of(words))
}

/// An answer by its words.
fn answer_of(words: &str) -> PoolAnswer {
    match words {
        "queue" => PoolAnswer::Queue,
        "none left" => PoolAnswer::NoneLeft,
        "nothing" => PoolAnswer::Nothing,
        _ => numbered_answer_of(words),
    }
}

/// An answer by its word and one number or two, parted by spaces.
fn numbered_answer_of(words: &str) -> PoolAnswer {
    let (name, numbers) = word(words);
    match name {
        "dial" => dial_of(numbers),
        "idle" => idle_of(numbers),
        "handed" => PoolAnswer::Handed {
            number: u64::from(number(numbers)),
        },
        _ => PoolAnswer::Worn,
    }
}

/// The number of a transport and that of its member.
fn numbers_of(numbers: &str) -> (u64, u32) {
    let (transport, member) = word(numbers);
    (u64::from(number(transport)), number(member))
}

fn dial_of(numbers: &str) -> PoolAnswer {
    let (number, member) = numbers_of(numbers);
    PoolAnswer::Dial { number, member }
}

fn idle_of(numbers: &str) -> PoolAnswer {
    let (number, member) = numbers_of(numbers);
    PoolAnswer::Idle { number, member }
}

// ---- pools

/// A pool, and the decisions of one.
#[derive(Drop)]
struct Pools {
    alloc: Global,
    pool: Pool,
    decisions: Decisions,
}

/// Begins with a pool in which two may be lent.
fn begin(pools: &mut Pools) -> Result<(), NoMemory> {
    pools.pool = Pool::new(pools.alloc, 2, &pair(1, 0))?;
    Ok(())
}

/// Begins with a pool in which 32 may be lent.
fn begin_wide(pools: &mut Pools, list: &ServerList) -> Result<(), NoMemory> {
    pools.pool = Pool::new(pools.alloc, 32, list)?;
    Ok(())
}

/// Whether a row's call is answered as it says.
fn steps(pool: &mut Pool, row: &str) -> bool {
    let (call, wanted) = call_in(row);
    pool.step(&call) == wanted
}

/// Whether the same holds where calls are kept.
fn decides(decisions: &mut Decisions, row: &str) -> bool {
    let (call, wanted) = call_in(row);
    decisions.decide(call) == wanted
}

/// Whether 32 lends are the rights to dial numbers 1 to 32.
fn dials_all(pool: &mut Pool) -> bool {
    let mut are_dialled = true;
    for number in 1..33 {
        let wanted = PoolAnswer::Dial { number, member: 1 };
        are_dialled = pool.step(&lend("1", "", true)) == wanted && are_dialled;
    }
    are_dialled
}

/// Whether numbers 1 to 32 are given back, and none is handed out.
fn takes_all(pool: &mut Pool) -> bool {
    let mut are_taken = true;
    for number in 1..33 {
        let call = PoolCall::GiveBack { number, member: 1 };
        are_taken = pool.step(&call) == PoolAnswer::Nothing && are_taken;
    }
    are_taken
}

/// Whether a pool is as its words say.
fn is(pool: &Pool, words: &str) -> bool {
    let (what, digits) = word(words);
    match what {
        "waiting" => pool.waits(number(digits)),
        "gone" => !pool.waits(number(digits)),
        "numbered" => pool.list().number() == number(digits),
        "knowing" => pool.known().has(number(digits)),
        _ => !pool.known().has(number(digits)),
    }
}

/// Whether decisions are as their words say: of calls, dials, reuses and entries so many; or the entry of a place is answered so.
fn are(decisions: &Decisions, words: &str) -> bool {
    let (what, rest) = word(words);
    match what {
        "calls" => decisions.calls() == u64::from(number(rest)),
        "dials" => decisions.dials() == u64::from(number(rest)),
        "reuses" => decisions.reuses() == u64::from(number(rest)),
        "entries" => decisions.journal().len() as u64 == u64::from(number(rest)),
        "lending" => !decisions.pool().queues(number(rest), Tried::none()),
        _ => are_kept(decisions.journal(), what, rest),
    }
}

/// Whether the entry of a place, from 0, has this answer, or there is none.
fn are_kept(journal: &Journal, place: &str, words: &str) -> bool {
    match journal.get(number(place) as usize) {
        Some(entry) => entry.answer == answer_of(words),
        None => words == "none",
    }
}

/// Whether a row goes as it says.
fn goes(pools: &mut Pools, row: &str) -> Result<bool, NoMemory> {
    let (event, rest) = field(row);
    match event {
        "new" => {
            begin(pools)?;
            Ok(true)
        }
        "new wide" => {
            begin_wide(pools, &pair(1, 0))?;
            Ok(true)
        }
        "new alone" => {
            begin_wide(pools, &alone())?;
            Ok(true)
        }
        "dials all" => Ok(dials_all(&mut pools.pool)),
        "takes all" => Ok(takes_all(&mut pools.pool)),
        "is" => Ok(is(&pools.pool, rest)),
        "decide" => Ok(decides(&mut pools.decisions, rest)),
        "are" => Ok(are(&pools.decisions, rest)),
        _ => Ok(steps(&mut pools.pool, row)),
    }
}

/// The number, from 1, of the first row that doesn't go as it says; 0 where there is none.
fn refuted_in(pools: &mut Pools) -> Result<u32, NoMemory> {
    let mut number: u32 = 0;
    for row in CALLS.lines() {
        number = number.saturating_add(1);
        if !goes(pools, row)? {
            return Ok(number);
        }
    }
    Ok(0)
}

/// The same in pools in which two may be lent, and no call was made.
fn refuted(alloc: Global) -> Result<u32, NoMemory> {
    let list = pair(1, 0);
    let mut pools = Pools {
        alloc,
        pool: Pool::new(alloc, 2, &list)?,
        decisions: Decisions::new(alloc, 2, &list)?,
    };
    refuted_in(&mut pools)
}

/// Each branch of a lend, with two transports at most and no member of more weight than the other. Of 33 transports that are idle the one
/// idle longest is handed out: the one that was lent and given back twice in between isn't. A list without a number, and one that is
/// older, change no later pick once a list with a number is in use. Calls are kept with their answers.
const CALLS: &str = "\
lend|1||dial 1 1
lend|2||dial 2 2
lend|3||queue
lend|4||queue
lend|4|12|none left
lend|5||queue
give|1|1|nothing
lend|5||queue
lend|3||idle 1 1
give|1|1|nothing
leave|5||nothing
lend fresh|6||dial 3 1
lost|3||nothing
give|3|1|handed 3
lend|6|1|dial 4 2
give|2|1|handed 2
lost|4||nothing
give|2|2|nothing
lend|7|2|idle 1 1
is|gone 5
new alone
dials all
takes all
lend|1||idle 32 1
give|32|1|nothing
lend|1||idle 32 1
give|32|1|nothing
lend fresh|1||dial 33 1
give|33|1|handed 1
lend|1||idle 33 1
new wide
learn|5|5|nothing
lend|1||dial 1 2
learn|0|0|nothing
lend|2||dial 2 2
learn|0|4|nothing
lend|3||dial 3 2
learn|0|6|nothing
lend|4||dial 4 1
is|numbered 6
is|knowing 2
is|without 3
decide|lend|1||dial 1 1
decide|give|1|1|nothing
decide|lend|2||idle 1 1
are|calls 3
are|dials 1
are|reuses 1
are|entries 3
are|0 dial 1 1
are|2 idle 1 1
are|3 none
are|lending 3";

#[test]
fn calls_are_answered(rt: HostRuntime) -> Result<(), Fail> {
    assert_eq!(rt; refuted(rt.alloc())?, 0);
    Ok(())
}

// ---- houses

/// A house.
#[derive(Drop)]
struct Scene {
    alloc: Global,
    house: House<u32>,
}

/// A house with this list. That it has no members, or a number, is told as want of memory.
fn new_house(alloc: Global, cap: u32, list: &ServerList) -> Result<House<u32>, NoMemory>
    requires least { 1 ≤ cap }
    requires most { cap ≤ 32 }
{
    if list.is_empty() || list.number() != 0 {
        return Err(NoMemory);
    }
    House::<u32>::new(alloc, cap, list, 2)
}

const AT_REST: Mark = Mark {
    stage: Stage::Attached,
    unread: 0,
};

/// What a lend answers, the session that it was asked for, and the transport's link; 0 where it isn't told.
#[derive(Drop)]
struct Told {
    answer: PoolAnswer,
    session: u32,
    link: u32,
}

fn told_idle(transport: Transport<u32>) -> Told {
    let answer = PoolAnswer::Idle {
        number: transport.number(),
        member: transport.member(),
    };
    let session = transport.terms().session;
    let (_, link) = transport.into_parts();
    Told {
        answer,
        session,
        link,
    }
}

fn told_dial(grant: &Grant) -> Told {
    Told {
        answer: PoolAnswer::Dial {
            number: grant.number(),
            member: grant.member(),
        },
        session: grant.terms().session,
        link: 0,
    }
}

/// What is told where no transport is lent.
fn told_none(answer: PoolAnswer, session: u32) -> Told {
    Told {
        answer,
        session,
        link: 0,
    }
}

fn told_by(lend: Lend<u32>) -> Told {
    match lend {
        Lend::Idle(transport) => told_idle(transport),
        Lend::Dial(grant) => told_dial(&grant),
        Lend::Queue => told_none(PoolAnswer::Queue, 0),
        Lend::NoneLeft(listed) => told_none(PoolAnswer::NoneLeft, listed.terms().session),
        Lend::Worn(spent) => told_none(PoolAnswer::Worn, spent.terms().session),
    }
}

/// Whether this is told: an answer, a session and a link.
fn is_told(told: &Told, wanted: &str) -> bool {
    let (words, rest) = field(wanted);
    let (session, link) = field(rest);
    told.answer == answer_of(words) && told.session == number(session) && told.link == number(link)
}

/// Whether a lend answers so.
fn lends(house: &mut House<u32>, fresh: bool, row: &str) -> bool {
    let (session, rest) = field(row);
    let (tried, wanted) = field(rest);
    is_told(
        &told_by(house.lend(number(session), tried_of(tried), fresh)),
        wanted,
    )
}

/// The right that a lend gives: newly, or that of an idle transport.
fn right(lend: Lend<u32>) -> Option<Grant> {
    match lend {
        Lend::Dial(grant) => Some(grant),
        Lend::Idle(transport) => Some(right_of(transport)),
        _ => None,
    }
}

fn right_of(transport: Transport<u32>) -> Grant {
    let (grant, _) = transport.into_parts();
    grant
}

/// The link that is handed out; 0 where there is none.
fn link_of(handed: Option<Transport<u32>>) -> u32 {
    match handed {
        Some(transport) => transport.into_parts().1,
        None => 0,
    }
}

/// Gives a right back with a link, and tells the link that is handed out.
fn give(house: &mut House<u32>, grant: Grant, link: u32) -> u32 {
    link_of(house.give_back(Transport::rest(grant, link, AT_REST)))
}

/// Lends to session 1.
fn lend_one(house: &mut House<u32>, fresh: bool) -> Option<Grant> {
    right(house.lend(1, Tried::none(), fresh))
}

/// Whether a lend's right is given back with this link, and this link is handed out, or none.
fn rests(house: &mut House<u32>, fresh: bool, row: &str) -> bool {
    let (link, handed) = field(row);
    match lend_one(house, fresh) {
        Some(grant) => give(house, grant, number(link)) == number(handed),
        None => false,
    }
}

/// Whether a transport of another house, which isn't lent by this one, is handed back itself.
fn refuses_a_stranger(scene: &mut Scene) -> Result<bool, NoMemory> {
    let mut other = new_house(scene.alloc, 1, &pair(1, 0))?;
    Ok(match lend_one(&mut other, false) {
        Some(grant) => give(&mut scene.house, grant, 72) == 72,
        None => false,
    })
}

/// Whether a right that is lost frees its place.
fn loses(house: &mut House<u32>) -> bool {
    match lend_one(house, false) {
        Some(grant) => frees(house, grant),
        None => false,
    }
}

fn frees(house: &mut House<u32>, grant: Grant) -> bool {
    let queued = house.queues(2, Tried::none());
    house.lost(grant);
    queued && !house.queues(2, Tried::none())
}

/// Whether a lend to which both members are tried tells them as the listed ones.
fn tells_the_listed(house: &mut House<u32>) -> bool {
    match house.lend(1, tried_of("12"), false) {
        Lend::NoneLeft(listed) => {
            listed.within(&tried_of("12")) && !listed.within(&tried_of("2"))
        }
        _ => false,
    }
}

/// Gives rights back with the links 101 and on, in order.
fn give_all(house: &mut House<u32>, rights: Vec<Grant>) {
    let mut link: u32 = 100;
    for grant in rights {
        link = link.saturating_add(1);
        give(house, grant, link);
    }
}

/// Lends 32 times anew.
fn rights(alloc: Global, house: &mut House<u32>) -> Result<Vec<Grant>, NoMemory> {
    let mut rights = Vec::new(alloc);
    for _ in 0..32 {
        if let Some(grant) = lend_one(house, true) {
            rights.push(grant)?;
        }
    }
    Ok(rights)
}

/// Lends 32 times anew, and gives the links 101 to 132 back in order.
fn fill(scene: &mut Scene) -> Result<bool, NoMemory> {
    let rights = rights(scene.alloc, &mut scene.house)?;
    give_all(&mut scene.house, rights);
    Ok(true)
}

/// Whether the next session number is this.
fn gives_ticket(house: &mut House<u32>, digits: &str) -> bool {
    match house.ticket() {
        Some(ticket) => ticket == number(digits),
        None => digits == "none",
    }
}

fn learn(house: &mut House<u32>, row: &str) -> bool {
    let (weight, digits) = field(row);
    house.learn(&list_of(weight, digits));
    true
}

fn leave(house: &mut House<u32>, session: &str) -> bool {
    house.leave(number(session));
    true
}

/// Whether so many calls, dials, reuses or entries are told.
fn counts(house: &House<u32>, words: &str) -> bool {
    let (what, digits) = word(words);
    let count = match what {
        "calls" => house.calls(),
        "dials" => house.dials(),
        "reuses" => house.reuses(),
        _ => house.journal().len() as u64,
    };
    count == u64::from(number(digits))
}

/// Whether a house is as its words say.
fn house_is(house: &House<u32>, words: &str) -> bool {
    let (what, digits) = word(words);
    match what {
        "queueing" => house.queues(number(digits), Tried::none()),
        "waiting" => house.waits(number(digits)),
        "knowing" => house.known().has(number(digits)),
        _ => !house.known().has(number(digits)),
    }
}

/// Begins with a house that has no transports.
fn begin_house(scene: &mut Scene, what: &str) -> Result<bool, NoMemory> {
    scene.house = match what {
        "alone" => new_house(scene.alloc, 32, &alone())?,
        "of one" => new_house(scene.alloc, 1, &pair(1, 0))?,
        _ => new_house(scene.alloc, 2, &pair(1, 0))?,
    };
    Ok(true)
}

/// Whether a call of a house goes as its row says.
fn house_does(house: &mut House<u32>, event: &str, rest: &str) -> bool {
    match event {
        "lend" => lends(house, false, rest),
        "lend fresh" => lends(house, true, rest),
        "rest" => rests(house, false, rest),
        "rest fresh" => rests(house, true, rest),
        "ticket" => gives_ticket(house, rest),
        "learn" => learn(house, rest),
        "leave" => leave(house, rest),
        "loses" => loses(house),
        "tells the listed" => tells_the_listed(house),
        "counts" => counts(house, rest),
        _ => house_is(house, rest),
    }
}

/// Whether a row goes as it says.
fn house_goes(scene: &mut Scene, row: &str) -> Result<bool, NoMemory> {
    let (event, rest) = field(row);
    match event {
        "new" => begin_house(scene, rest),
        "fill" => fill(scene),
        "refuses a stranger" => refuses_a_stranger(scene),
        _ => Ok(house_does(&mut scene.house, event, rest)),
    }
}

/// The number, from 1, of the first row that doesn't go as it says; 0 where there is none.
fn house_refuted_in(scene: &mut Scene) -> Result<u32, NoMemory> {
    let mut number: u32 = 0;
    for row in EVENTS.lines() {
        number = number.saturating_add(1);
        if !house_goes(scene, row)? {
            return Ok(number);
        }
    }
    Ok(0)
}

/// The same in a house in which two transports may be lent, and that has none.
fn house_refuted(alloc: Global) -> Result<u32, NoMemory> {
    let mut scene = Scene {
        alloc,
        house: new_house(alloc, 2, &pair(1, 0))?,
    };
    house_refuted_in(&mut scene)
}

/// Each branch of a lend with its link. Session numbers, leaving and learning. A transport whose number isn't lent is handed back itself. A
/// right that is lost frees its place. The listed members are told where all are tried. Of 33 links that are idle the one idle longest is
/// handed out: not the one that was lent and given back twice in between.
const EVENTS: &str = "\
rest|71|
lend|2||idle 1 1|2|71
lend fresh|3|1|dial 2 2|3|
lend|4||queue||
lend|5|12|none left|5|
is|queueing 6
is|waiting 4
counts|dials 2
counts|reuses 1
counts|entries 6
new|of two
rest|71|
ticket|1
ticket|2
ticket|none
leave|1
learn|9|5
counts|calls 4
is|knowing 2
is|without 3
new|of two
rest|71|
refuses a stranger
new|of one
loses
new|of one
tells the listed
new|alone
fill
rest|132|
rest|132|
rest fresh|133|101";

#[test]
fn links_are_lent(rt: HostRuntime) -> Result<(), Fail> {
    assert_eq!(rt; house_refuted(rt.alloc())?, 0);
    Ok(())
}

fn sent<T: Send>(value: T) -> T {
    value
}

/// A house can cross to another thread.
#[test]
fn house_is_sent(rt: HostRuntime) -> Result<(), Fail> {
    let house = sent(new_house(rt.alloc(), 1, &pair(1, 0))?);
    assert!(rt; house.calls() == 0);
    Ok(())
}

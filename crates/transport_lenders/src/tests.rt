ghost use Rattle.std.specs.Prelude.{◌≡◌, IfOk};

use super::*;
use access_handshake::{Mark, Stage};
use link_ends::{Marks, MemLink, NoMemory, Octets};
use server_list::{ServerList, ServerRow, Tried};
use std::alloc::Global;
use std::marker::Brand;
use std::sync::Wait;
use std::sync::ledger::{Blank, Ledger};
use std::test::Fail;
use std::thread;
use std::thread::Threads;
use transport_pool::{House, Lend, Transport};

const AT_REST: Mark = Mark {
    stage: Stage::Attached,
    unread: 0,
};

fn new_link(alloc: Global) -> Result<MemLink, NoMemory> {
    let fails = Marks::of(alloc, &[])?;
    MemLink::new(alloc, Octets::new(alloc), 0, fails)
}

/// A pool that nobody called, of one member, which may lend one transport.
fn new_house(alloc: Global) -> Result<House<MemLink>, Fail>
    ensures { IfOk result (λ house. (house.decided.calls ≡ 0) × (house.decided.dials ≡ 0)) }
{
    let mut list = ServerList::new();
    list.push(ServerRow {
        member: 1,
        weight: 1,
    });
    if list.is_empty() || list.number() != 0 {
        return Err(Fail::from("a list without members, or with a number"));
    }
    Ok(House::<MemLink>::new(alloc, 1, &list, 2)?)
}

/// Lends a transport and gives it back, with this link where it has none. Whether it had none.
fn visit<D: Lender<L = MemLink>>(lender: &mut D, session: u32, link: MemLink) -> bool {
    match lender.lend(session, Tried::none(), false) {
        Lend::Dial(grant) => {
            lender.give_back(Transport::rest(grant, link, AT_REST));
            true
        }
        Lend::Idle(transport) => {
            lender.give_back(transport);
            false
        }
        _ => false,
    }
}

/// The same a hundred times. How often it had none.
fn visit_often<D: Lender<L = MemLink> + Drop>(
    alloc: Global,
    lender: D,
    session: u32,
) -> Result<u32, NoMemory> {
    let mut lender = lender;
    let mut dials: u32 = 0;
    for _ in 0..100 {
        if visit(&mut lender, session, new_link(alloc)?) {
            dials = dials.saturating_add(1);
        }
    }
    Ok(dials)
}

/// Two threads visit a pool that may lend one transport. How often each of them had none.
fn take_turns<R: Threads + Wait + Sync, X: Ledger + Send + Sync, Y: Ledger + Send + Sync>(
    rt: &R,
    alloc: Global,
    house: House<MemLink>,
    calls: Blank,
    dials: Blank,
) -> (Result<u32, NoMemory>, Result<u32, NoMemory>)
    requires house { (house.decided.calls ≡ 0) × (house.decided.dials ≡ 0) }
    requires calls { (calls.name ≡ X.name) × (calls.parts ≡ X.parts) × (calls.parts ≡ 2) }
    requires dials { (dials.name ≡ Y.name) × (dials.parts ≡ Y.parts) × (dials.parts ≡ 2) }
{
    let (calls_book, mut calls) = calls.open::<X>();
    let (dials_book, mut dials) = dials.open::<Y>();
    let hall = Hall::new(Shelf::new(house, calls_book, dials_book));
    let first = LockLender::new(rt, &hall, calls.split_off(1, 0), dials.split_off(1, 0));
    let second = LockLender::new(rt, &hall, calls, dials);
    thread::join(
        rt,
        move || visit_often(alloc, first, 1),
        move || visit_often(alloc, second, 2),
    )
}

/// What was given back is lent again, and what was lost is not.
#[test]
fn lends_what_was_given_back(rt: HostRuntime) -> Result<(), Fail> {
    let alloc = rt.alloc();
    let mut house = new_house(alloc)?;
    let mut lender = HouseLender::new(&mut house);
    assert!(rt; visit(&mut lender, 1, new_link(alloc)?));
    assert!(rt; !visit(&mut lender, 2, new_link(alloc)?));
    if let Lend::Idle(transport) = lender.lend(3, Tried::none(), false) {
        let (grant, _) = transport.into_parts();
        lender.lost(grant);
    }
    assert!(rt; visit(&mut lender, 1, new_link(alloc)?));
    assert!(rt; lender.known().has(1));
    assert!(rt; house.calls() == 8);
    Ok(())
}

/// A thread that has to wait is lent the transport once the other gives it back.
#[test]
fn wakes_the_waiting(rt: HostRuntime) -> Result<(), Fail> {
    let house = new_house(rt.alloc())?;
    let (first, second) = take_turns::<HostRuntime, Brand, Brand>(
        &rt,
        rt.alloc(),
        house,
        Blank::new(2),
        Blank::new(2),
    );
    assert!(rt; u32::saturating_add(first?, second?) == 1);
    Ok(())
}

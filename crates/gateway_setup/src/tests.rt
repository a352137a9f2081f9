use super::*;
use reply_texts::RdbName;
use server_list::{ServerList, ServerRow};
use std::test::Fail;

/// The list with this one member.
fn list_of(member: u32, weight: u16) -> ServerList {
    let mut list = ServerList::new();
    list.push(ServerRow { member, weight });
    list
}

/// The weight of the first member that a member sends, or None where it sends no rows.
fn first_weight(lists: &SentLists, member: u32) -> Option<u16> {
    lists.of(member).row(0).map(|row| row.weight)
}

#[test]
fn each_member_has_one_list(rt: HostRuntime) {
    let mut lists = SentLists::new();
    let rows = [
        (0, 1, false),
        (1, 10, true),
        (32, 20, true),
        (33, 1, false),
        (1, 11, false),
        (4_294_967_295, 1, false),
    ];
    for (member, weight, answer) in rows {
        assert_eq!(rt; lists.set(member, list_of(1, weight)), answer);
    }
    assert_eq!(rt; first_weight(&lists, 1), Some(10));
    assert_eq!(rt; first_weight(&lists, 32), Some(20));
    assert_eq!(rt; first_weight(&lists, 2), None);
    assert_eq!(rt; first_weight(&lists, 0), None);
    assert_eq!(rt; first_weight(&lists, 33), None);
}

#[test]
fn a_list_without_rows_is_a_list(rt: HostRuntime) {
    let mut lists = SentLists::new();
    assert!(rt; lists.set(2, ServerList::new()));
    assert!(rt; !lists.set(2, list_of(1, 5)));
    assert!(rt; lists.of(2).is_empty());
}

#[test]
fn a_setup_has_its_parts(rt: HostRuntime) -> Result<(), Fail> {
    let Some(rdb) = RdbName::of(b"SAMPLE") else {
        return Err(Fail::from("no name"));
    };
    let setup = Setup {
        rdb,
        cap: 2,
        list: list_of(1, 7),
        sent_lists: SentLists::new(),
    };
    assert_eq!(rt; setup.rdb.as_slice(), b"SAMPLE".as_slice());
    assert_eq!(rt; setup.list.len(), 1);
    assert!(rt; setup.sent_lists.of(1).is_empty());
    Ok(())
}

#[test]
fn events_are_told_apart(rt: HostRuntime) {
    let event = Event::Take { app: 1, n: 5 };
    assert!(rt; event == Event::Take { app: 1, n: 5 });
    assert!(rt; event != Event::Take { app: 1, n: 6 });
    assert!(rt; event != Event::Say { app: 1, n: 5 });
}

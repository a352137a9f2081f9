use super::*;
use std::test::Fail;

/// SRVLST without a number: member 2 of weight 5, member 1 of weight 0.
const PLAIN: [u8; 14] = [
    0x00, 0x0E, 0x24, 0x4E, 0x01, 0x02, 0x00, 0x02, 0x00, 0x05, 0x00, 0x01, 0x00, 0x00,
];

/// The same list with number 5.
const NUMBERED: [u8; 18] = [
    0x00, 0x12, 0x24, 0x4E, 0x02, 0x00, 0x00, 0x00, 0x05, 0x02, 0x00, 0x02, 0x00, 0x05, 0x00, 0x01,
    0x00, 0x00,
];

fn pair(first: (u32, u16), second: (u32, u16)) -> ServerList {
    let mut list = ServerList::new();
    list.push(ServerRow {
        member: first.0,
        weight: first.1,
    });
    list.push(ServerRow {
        member: second.0,
        weight: second.1,
    });
    list
}

fn is_row(row: Option<ServerRow>, member: u32, weight: u16) -> bool {
    match row {
        Some(row) => row.member == member && row.weight == weight,
        None => false,
    }
}

fn both() -> Tried {
    Tried::none().with(1).with(2)
}

fn is_read(bytes: &[u8], known: &Tried, number: u32, len: usize) -> bool {
    match read_list(bytes, known) {
        Some(list) => { list.number() == number && list.len() == len && is_row(list.row(0), 2, 5) }
        None => false,
    }
}

#[test]
fn chooses_by_weight(rt: HostRuntime) -> Result<(), Fail> {
    let list = pair((1, 1), (2, 3));
    let mut lent = [0; 32];
    for wanted in [2, 2, 1, 2, 2] {
        let member = choose(&list, &lent, &Tried::none());
        assert!(rt; member == Some(wanted));
        let place = wanted as usize - 1;
        lent[place] = lent[place].saturating_add(1);
    }
    let idle = [0; 32];
    assert!(rt; choose(&pair((1, 0), (2, 0)), &idle, &Tried::none()) == Some(1));
    assert!(rt; choose(&list, &idle, &both()) == None);
    Ok(())
}

#[test]
fn writes_and_reads_lists(rt: HostRuntime) -> Result<(), Fail> {
    let mut list = pair((2, 5), (1, 0));
    assert!(rt; !list.is_empty());
    let plain = write_list(rt.alloc(), &list)?;
    assert!(rt; plain.as_slice() == PLAIN.as_slice());
    list.set_number(5);
    let numbered = write_list(rt.alloc(), &list)?;
    assert!(rt; numbered.as_slice() == NUMBERED.as_slice());
    assert!(rt; is_read(&PLAIN[4..], &both(), 0, 2));
    assert!(rt; is_read(&NUMBERED[4..], &both(), 5, 2));
    assert!(rt; is_read(&PLAIN[4..], &Tried::none().with(2), 0, 1));
    Ok(())
}

#[test]
fn refuses_other_layouts(rt: HostRuntime) -> Result<(), Fail> {
    let refused: [&[u8]; 7] = [
        &[],
        &[1, 0],
        &[1, 1, 0, 2, 0],
        &[1, 1, 0, 2, 0, 5, 0],
        &[2, 0, 0, 0, 0, 1, 0, 2, 0, 5],
        &[3, 1, 0, 2, 0, 5],
        &[1, 1, 0, 3, 0, 5],
    ];
    for bytes in refused {
        assert!(rt; read_list(bytes, &both()).is_none());
    }
    assert!(rt; is_read(&[1, 2, 0, 2, 0, 5, 0, 2, 0, 9], &both(), 0, 1));
    Ok(())
}

use super::TripletWhy::{Past, Short};
use super::*;
use std::test::Fail;

/// What a walk over the bytes comes to: each triplet by its type and how many bytes of data it has, and then the end or a
/// fault.
fn walks(bytes: &[u8], wanted: &[(u8, usize)], end: Option<TripletFault>) -> bool {
    let mut scan = triplets(bytes);
    for (kind, len) in wanted {
        match scan.next() {
            Some(Ok(triplet)) if triplet.kind == *kind && triplet.bytes.len() == *len => {}
            _ => return false,
        }
    }
    let ended = match scan.next() {
        None => end.is_none(),
        Some(Err(fault)) => end == Some(fault),
        Some(Ok(_)) => false,
    };
    ended && scan.next().is_none()
}

#[test]
fn passes_over(rt: HostRuntime) {
    let rows = [
        (
            [
                0x09, 0x76, 0xD0, 0x02, 0x00, 0x04, 0x3F, 0x00, 0xC8, 0x09, 0x71, 0xE0, 0x54, 0x00,
                0x01, 0xD0, 0x00, 0x01,
            ]
            .as_slice(),
            [(0x76, 7), (0x71, 7)].as_slice(),
            None,
        ),
        ([].as_slice(), [].as_slice(), None),
        ([0x02, 0x70].as_slice(), [(0x70, 0)].as_slice(), None),
        (
            [0x03, 0x70, 0x00, 0x02, 0x71].as_slice(),
            [(0x70, 1), (0x71, 0)].as_slice(),
            None,
        ),
        (
            [0x09, 0x76].as_slice(),
            [].as_slice(),
            Some(TripletFault { at: 0, why: Past }),
        ),
        (
            [0x01].as_slice(),
            [].as_slice(),
            Some(TripletFault { at: 0, why: Short }),
        ),
        (
            [0x00, 0x70].as_slice(),
            [].as_slice(),
            Some(TripletFault { at: 0, why: Short }),
        ),
        (
            [0x02].as_slice(),
            [].as_slice(),
            Some(TripletFault { at: 0, why: Past }),
        ),
        (
            [0x03, 0x70, 0xAA, 0x01, 0x71].as_slice(),
            [(0x70, 1)].as_slice(),
            Some(TripletFault { at: 3, why: Short }),
        ),
        (
            [0x03, 0x70, 0xAA, 0x04, 0x71, 0xAA].as_slice(),
            [(0x70, 1)].as_slice(),
            Some(TripletFault { at: 3, why: Past }),
        ),
    ];
    for (bytes, wanted, end) in rows {
        assert!(rt; walks(bytes, wanted, end));
    }
}

/// The data are the bytes behind the length and the type.
#[test]
fn hands_out_its_data(rt: HostRuntime) -> Result<(), Fail> {
    let bytes = [0x04, 0x70, 0xAA, 0xBB, 0x02, 0x71];
    let first = triplets(&bytes).next().ok_or("a triplet")?;
    assert!(rt; matches!(first, Ok(triplet) if triplet.bytes == [0xAA, 0xBB].as_slice()));
    Ok(())
}

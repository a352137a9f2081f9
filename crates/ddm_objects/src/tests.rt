use super::ObjWhy::{Extended, LessThan4, Past};
use super::*;
use std::test::Fail;

/// The parameters of a reply that names a severity and a syntax error.
const SYNTAXRM: [u8; 15] = [
    0x00, 0x0F, 0x12, 0x4C, 0x00, 0x06, 0x11, 0x49, 0x00, 0x08, 0x00, 0x05, 0x11, 0x4A, 0x04,
];

/// The data of the objects that are read.
const DATA: [u8; 2] = [0xAA, 0xBB];

#[test]
fn reads(rt: HostRuntime) -> Result<(), Fail> {
    let reply = outer(&SYNTAXRM)?;
    assert_eq!(rt; reply.code, 0x124C);
    let mut scan = members(reply.bytes);
    let first = scan.next().ok_or("an object")??;
    assert_eq!(rt; first.code, 0x1149);
    let found = find(reply.bytes, 0x114A)?.ok_or("an object")?;
    assert_eq!(rt; found.bytes, [0x04].as_slice());
    Ok(())
}

/// Each form of the length, for the same code point and data.
#[test]
fn reads_each_form(rt: HostRuntime) -> Result<(), Fail> {
    for bytes in [
        [0x00, 0x06, 0x12, 0x4C, 0xAA, 0xBB].as_slice(),
        [0x80, 0x04, 0x12, 0x4C, 0xAA, 0xBB].as_slice(),
        [0x80, 0x08, 0x12, 0x4C, 0, 0, 0, 2, 0xAA, 0xBB].as_slice(),
        [0x80, 0x0A, 0x12, 0x4C, 0, 0, 0, 0, 0, 2, 0xAA, 0xBB].as_slice(),
        [0x80, 0x0C, 0x12, 0x4C, 0, 0, 0, 0, 0, 0, 0, 2, 0xAA, 0xBB].as_slice(),
    ] {
        let object = outer(bytes)?;
        assert_eq!(rt; object.code, 0x124C);
        assert_eq!(rt; object.bytes, DATA.as_slice());
        let (object, rest) = first(bytes)?;
        assert_eq!(rt; object.bytes, DATA.as_slice());
        assert!(rt; rest.is_empty());
    }
    Ok(())
}

/// What `outer` refuses, and where.
#[test]
fn refuses(rt: HostRuntime) {
    for (bytes, at, why) in [
        ([].as_slice(), 0, LessThan4),
        ([0x80, 0x04, 0x12].as_slice(), 0, LessThan4),
        ([0x00, 0x03, 0x12, 0x4C].as_slice(), 0, LessThan4),
        ([0x00, 0x06, 0x12, 0x4C, 0].as_slice(), 0, Past),
        ([0x00, 0x04, 0x12, 0x4C, 0].as_slice(), 4, Past),
        ([0x80, 0x00, 0x12, 0x4C].as_slice(), 0, Extended),
        ([0x80, 0x05, 0x12, 0x4C, 0].as_slice(), 0, Extended),
        (
            [0x80, 0x0E, 0x12, 0x4C, 0, 0, 0, 0, 0, 0, 0, 0, 0, 0].as_slice(),
            0,
            Extended,
        ),
        ([0xFF, 0xFF, 0x12, 0x4C].as_slice(), 0, Extended),
        ([0x80, 0x08, 0x12, 0x4C, 2, 0, 0, 1].as_slice(), 0, Extended),
        (
            [0x80, 0x0A, 0x12, 0x4C, 0, 1, 0, 0, 0, 0].as_slice(),
            0,
            Extended,
        ),
        (
            [0x80, 0x0C, 0x12, 0x4C, 0, 0, 0, 1, 0, 0, 0, 0].as_slice(),
            0,
            Extended,
        ),
        ([0x80, 0x08, 0x12, 0x4C, 2, 0, 0].as_slice(), 0, Past),
        (
            [0x80, 0x0C, 0x12, 0x4C, 0xFF, 0, 0, 0, 0, 0, 0].as_slice(),
            0,
            Past,
        ),
        ([0x80, 0x08, 0x12, 0x4C, 2, 0, 0, 0].as_slice(), 0, Past),
        (
            [0x80, 0x08, 0x12, 0x4C, 0, 0, 0, 1, 0xAA, 0].as_slice(),
            9,
            Past,
        ),
    ] {
        assert!(rt; matches!(outer(bytes), Err(fault) if fault == ObjFault { at, why }));
    }
}

/// What a search among members refuses, and where from the beginning of the bytes.
#[test]
fn refuses_inside(rt: HostRuntime) {
    for (bytes, at, why) in [
        (
            [0x00, 0x04, 0x11, 0x49, 0x80, 0x04, 0x12, 0x4C].as_slice(),
            4,
            Extended,
        ),
        ([0x80, 0x04, 0x12, 0x4C, 0xAA].as_slice(), 0, Extended),
        (
            [
                0x80, 0x08, 0x11, 0x49, 0, 0, 0, 1, 0xAA, 0x00, 0x03, 0x12, 0x4C,
            ]
            .as_slice(),
            9,
            LessThan4,
        ),
    ] {
        assert!(rt; matches!(find(bytes, 0x1149), Err(fault) if fault == ObjFault { at, why }));
    }
}

#[test]
fn reads_the_first(rt: HostRuntime) -> Result<(), Fail> {
    let bytes = [
        0x80, 0x08, 0x11, 0x4A, 0, 0, 0, 1, 0x04, 0x00, 0x04, 0x11, 0x49,
    ];
    let (object, rest) = first(&bytes)?;
    assert_eq!(rt; object.code, 0x114A);
    assert_eq!(rt; object.bytes, [0x04].as_slice());
    assert_eq!(rt; rest, [0x00, 0x04, 0x11, 0x49].as_slice());
    let mut scan = members(&bytes);
    assert_eq!(rt; scan.next().ok_or("an object")??.bytes, [0x04].as_slice());
    assert_eq!(rt; scan.next().ok_or("an object")??.code, 0x1149);
    assert!(rt; scan.next().is_none());
    Ok(())
}

#[test]
fn writes(rt: HostRuntime) -> Result<(), Fail> {
    let mut builder = Builder::new(rt.alloc());
    builder.begin(0x124C)?;
    builder.begin(0x1149)?;
    builder.put(&[0x00, 0x08])?;
    assert_eq!(rt; builder.depth(), 2);
    assert_eq!(rt; builder.room(), 33_554_422);
    builder.end()?;
    builder.begin(0x114A)?;
    builder.put(&[0x04])?;
    builder.end()?;
    builder.end()?;
    assert_eq!(rt; builder.finish().as_slice(), SYNTAXRM.as_slice());
    Ok(())
}

/// A long object around a short one, and a long one within it: what was in front of them stays, and each length is its
/// object's own.
#[test]
fn writes_long_ones(rt: HostRuntime) -> Result<(), Fail> {
    let bytes = vec![in rt.alloc(); 0xAA; 32_764]?;
    let mut builder = Builder::new(rt.alloc());
    builder.begin(0x1149)?;
    builder.put(&DATA)?;
    builder.end()?;
    builder.begin(0x124C)?;
    builder.begin(0x114A)?;
    builder.put(&DATA)?;
    assert!(rt; !builder.is_long());
    builder.end()?;
    builder.begin(0x114B)?;
    builder.put(&bytes)?;
    assert!(rt; builder.is_long());
    builder.end()?;
    builder.end()?;
    let written = builder.finish();
    let (before, rest) = first(written.as_slice())?;
    assert_eq!(rt; before.bytes, DATA.as_slice());
    assert!(rt; rest.starts_with(&[0x80, 0x08, 0x12, 0x4C, 0x00, 0x00, 0x80, 0x0A]));
    let outer = outer(rest)?;
    assert_eq!(rt; outer.bytes.len(), 6 + 8 + 32_764);
    let mut scan = members(outer.bytes);
    assert_eq!(rt; scan.next().ok_or("an object")??.bytes, DATA.as_slice());
    assert_eq!(rt; scan.next().ok_or("an object")??.bytes, bytes.as_slice());
    assert!(rt; scan.next().is_none());
    Ok(())
}

/// All of the room is had: one object of 33,554,432 bytes.
#[test]
fn has_all_its_room(rt: HostRuntime) -> Result<(), Fail> {
    let bytes = vec![in rt.alloc(); 0xAA; 33_554_424]?;
    let mut builder = Builder::new(rt.alloc());
    builder.begin(0x146C)?;
    builder.put(&bytes)?;
    assert_eq!(rt; builder.room(), 4);
    builder.end()?;
    assert_eq!(rt; builder.room(), 0);
    assert_eq!(rt; builder.finish().as_slice().len(), 33_554_432);
    Ok(())
}

/// The longest data with a short length, and the shortest with an extended one.
#[test]
fn reads_what_it_writes(rt: HostRuntime) -> Result<(), Fail> {
    for (size, header, length) in [
        (32_763, [0x7F, 0xFF], 32_767),
        (32_764, [0x80, 0x08], 32_772),
    ] {
        let bytes = vec![in rt.alloc(); 0xAA; size]?;
        let mut builder = Builder::new(rt.alloc());
        builder.begin(0x124C)?;
        builder.put(&bytes)?;
        builder.end()?;
        let written = builder.finish();
        assert_eq!(rt; written.as_slice().len(), length);
        assert!(rt; written.as_slice().starts_with(&header));
        let object = outer(written.as_slice())?;
        assert_eq!(rt; object.code, 0x124C);
        assert_eq!(rt; object.bytes, bytes.as_slice());
    }
    Ok(())
}

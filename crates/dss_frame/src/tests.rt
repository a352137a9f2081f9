use super::*;
use link_ends::Octets;
use std::alloc::Global;
use std::process::Abort;
use std::test::Fail;

/// A limit that no chain passes.
const MOST: u64 = 16_777_216;

/// The format bytes that are read of a requester, and of a server.
const OF_REQUESTS: [u8; 12] = [
    0x01, 0x03, 0x21, 0x23, 0x41, 0x43, 0x51, 0x53, 0x61, 0x63, 0x71, 0x73,
];

const OF_REPLIES: [u8; 12] = [
    0x02, 0x03, 0x22, 0x23, 0x42, 0x43, 0x52, 0x53, 0x62, 0x63, 0x72, 0x73,
];

/// The place, the correlation number and the body of a whole DSS.
type Whole = (u64, u16, &'static [u8]);

/// Bytes of a requester, of whose chains each may have so many, and what is read of them.
#[derive(Clone, Copy)]
struct Reading {
    bytes: &'static [u8],
    limit: u64,
    whole: &'static [Whole],
    fault: Option<FeedFault>,
}

fn row(
    bytes: &'static [u8],
    limit: u64,
    whole: &'static [Whole],
    fault: Option<FeedFault>,
) -> Reading {
    Reading {
        bytes,
        limit,
        whole,
        fault,
    }
}

fn frame(at: u64, why: Why, corr: u16) -> Option<FeedFault> {
    Some(FeedFault::Frame { at, why, corr })
}

fn too_long(at: u64, corr: u16) -> Option<FeedFault> {
    Some(FeedFault::TooLong { at, corr })
}

/// What is read without a fault.
fn whole_dsss() -> [Reading; 6] {
    [
        // One segment, and one without a body.
        row(
            b"\x00\x0A\xD0\x01\x00\x01\x00\x04\x10\x41",
            MOST,
            &[(0, 1, b"\x00\x04\x10\x41")],
            None,
        ),
        row(b"\x00\x06\xD0\x01\x00\x01", MOST, &[(0, 1, b"")], None),
        // Three segments, none of them full, and the DSS after them.
        row(
            b"\x80\x07\xD0\x03\x00\x09\x01\x80\x03\x02\x00\x04\x03\x04\x00\x0A\xD0\x01\x00\x01\x00\x04\x10\x41",
            MOST,
            &[(0, 9, b"\x01\x02\x03\x04"), (14, 1, b"\x00\x04\x10\x41")],
            None,
        ),
        // Nothing in the first segment.
        row(
            b"\x80\x06\xD0\x03\x00\x09\x00\x03\xFF",
            MOST,
            &[(0, 9, b"\xFF")],
            None,
        ),
        // More bytes are awaited.
        row(
            b"\x00\x0A\xD0\x01\x00\x01\x00\x04\x10\x41\x00\x0A\xD0\x01\x00",
            MOST,
            &[(0, 1, b"\x00\x04\x10\x41")],
            None,
        ),
        // Two chains of as many bytes as one may have.
        row(
            b"\x00\x0A\xD0\x01\x00\x01\x00\x04\x10\x41\x00\x0A\xD0\x01\x00\x01\x00\x04\x10\x41",
            10,
            &[(0, 1, b"\x00\x04\x10\x41"), (10, 1, b"\x00\x04\x10\x41")],
            None,
        ),
    ]
}

/// Fields that are none of a DSS.
fn wrong_fields() -> [Reading; 7] {
    [
        // A length below the header's: its number is that of the DSS before it in the chain, or 0.
        row(
            b"\x00\x05\xD0\x01\x00\x01\x00\x04\x10\x41",
            MOST,
            &[],
            frame(0, Why::Short, 0),
        ),
        row(
            b"\x00\x0A\xD0\x41\x00\x07\x00\x04\x10\x41\x00\x05",
            MOST,
            &[(0, 7, b"\x00\x04\x10\x41")],
            frame(10, Why::Short, 7),
        ),
        row(
            b"\x00\x0A\xD0\x01\x00\x01\x00\x04\x10\x41\x80\x05",
            MOST,
            &[(0, 1, b"\x00\x04\x10\x41")],
            frame(10, Why::Short, 0),
        ),
        // Another third byte.
        row(
            b"\x00\x0A\xD1\x05\x00\x01\x00\x04\x10\x41",
            MOST,
            &[],
            frame(2, Why::NoD0, 0),
        ),
        // Kind 5.
        row(
            b"\x00\x0A\xD0\x05\x00\x01\x00\x04\x10\x41",
            MOST,
            &[],
            frame(3, Why::Format, 0),
        ),
        // A further length below 3, without and with its top bit: its number is its own.
        row(
            b"\x00\x0A\xD0\x41\x00\x07\x00\x04\x10\x41\x80\x07\xD0\x03\x00\x09\x01\x80\x03\x02\x00\x02",
            MOST,
            &[(0, 7, b"\x00\x04\x10\x41")],
            frame(20, Why::Continue, 9),
        ),
        row(
            b"\x80\x07\xD0\x03\x00\x09\x01\x80\x02",
            MOST,
            &[],
            frame(7, Why::Continue, 9),
        ),
    ]
}

/// Chains that have more bytes than they may.
fn limits() -> [Reading; 8] {
    [
        // One byte more; the first behind the number; and the number's last byte.
        row(
            b"\x00\x0A\xD0\x01\x00\x01\x00\x04\x10\x41",
            9,
            &[],
            too_long(9, 1),
        ),
        row(b"\x00\x07\xD0\x01\x00\x01\x00", 6, &[], too_long(6, 1)),
        row(
            b"\x00\x0A\xD0\x41\x00\x07\x00\x04\x10\x41\x00\x0A\xD0\x01\x00\x01\x00\x04\x10\x41",
            15,
            &[(0, 7, b"\x00\x04\x10\x41")],
            too_long(15, 7),
        ),
        // No byte is allowed.
        row(b"\x00", 0, &[], too_long(0, 0)),
        // A wrong field that begins before the byte beyond, and one that begins with it.
        row(b"\x00\x05", 1, &[], frame(0, Why::Short, 0)),
        row(b"\x00\x0A\xD1", 2, &[], too_long(2, 0)),
        row(
            b"\x80\x07\xD0\x03\x00\x09\x01\x00\x02",
            8,
            &[],
            frame(7, Why::Continue, 9),
        ),
        row(
            b"\x80\x07\xD0\x03\x00\x09\x01\x00\x02",
            7,
            &[],
            too_long(7, 9),
        ),
    ]
}

#[test]
fn reads(rt: HostRuntime) -> Result<(), Fail> {
    read_rows(&rt, rt.alloc(), &whole_dsss())?;
    read_rows(&rt, rt.alloc(), &wrong_fields())?;
    read_rows(&rt, rt.alloc(), &limits())
}

/// Reads the bytes of each row whole, and in pieces of one byte.
fn read_rows(rt: &impl Abort, alloc: Global, rows: &[Reading]) -> Result<(), Fail> {
    for row in rows {
        read(rt, alloc, row, row.bytes.len())?;
        read(rt, alloc, row, 1)?;
    }
    Ok(())
}

/// Reads the bytes of a row in pieces of this size, and then takes what is whole. A fault is told once more.
fn read(rt: &impl Abort, alloc: Global, row: &Reading, size: usize) -> Result<(), Fail> {
    let mut reader = Reader::new(alloc, Side::Requests, row.limit);
    let mut fault = None;
    for piece in row.bytes.chunks(size.max(1)) {
        fault = reader.feed(piece).err();
    }
    assert_eq!(rt; fault, row.fault);
    assert_eq!(rt; reader.feed(&[]).err(), row.fault);
    assert_eq!(rt; reader.fault().map(FeedFault::from), row.fault);
    for (at, corr, body) in row.whole {
        let placed = reader.take().ok_or("a whole DSS")?;
        assert_eq!(rt; (placed.at, placed.dss.corr), (*at, *corr));
        assert_eq!(rt; placed.dss.body.as_slice(), *body);
    }
    assert!(rt; reader.take().is_none(), "no other DSS is whole");
    Ok(())
}

#[test]
fn reads_the_formats_of_each_side(rt: HostRuntime) -> Result<(), Fail> {
    for (side, formats) in [(Side::Requests, OF_REQUESTS), (Side::Replies, OF_REPLIES)] {
        for format in 0..=u8::MAX {
            let mut reader = Reader::new(rt.alloc(), side, MOST);
            let fed = reader.feed(&[0, 6, 0xD0, format, 0, 1]);
            assert_eq!(rt; fed.is_ok(), formats.contains(&format));
            let Some(placed) = reader.take() else {
                assert_eq!(rt; fed.err(), frame(3, Why::Format, 0));
                continue;
            };
            let mut out = Octets::new(rt.alloc());
            assert!(rt; placed.dss.chained || !placed.dss.same);
            write_dss(&placed.dss, &mut out)?;
            assert_eq!(rt; out.as_slice(), [0, 6, 0xD0, format, 0, 1].as_slice());
        }
    }
    Ok(())
}

/// Writes an object DSS with a body of this size, and reads it again. Its first two bytes, the places and the bytes of
/// the lengths of its further segments, and its size are these.
fn write_and_read(
    rt: &impl Abort,
    alloc: Global,
    body: usize,
    lengths: &[(usize, [u8; 2])],
    size: usize,
) -> Result<(), Fail> {
    let dss = Dss {
        kind: Kind::Object,
        chained: true,
        same: false,
        go_on: true,
        corr: 2,
        body: Octets::of(alloc, vec![in alloc; 7; body]?.as_slice())?,
    };
    let mut out = Octets::new(alloc);
    write_dss(&dss, &mut out)?;
    let bytes = out.as_slice();
    assert_eq!(rt; bytes.len(), size);
    assert!(rt; bytes.len() > 2);
    assert!(rt; bytes[2..].starts_with(&[0xD0, 0x63, 0, 2]));
    for (place, length) in lengths {
        assert!(rt; *place <= bytes.len());
        assert!(rt; bytes[*place..].starts_with(length));
    }
    let mut reader = Reader::new(alloc, Side::Replies, MOST);
    reader.feed(bytes)?;
    let read = reader.take().ok_or("the DSS")?.dss;
    assert_eq!(rt; read.body.as_slice(), dss.body.as_slice());
    assert!(rt; read.kind == Kind::Object && read.chained && !read.same && read.go_on);
    Ok(())
}

#[test]
fn writes_full_segments(rt: HostRuntime) -> Result<(), Fail> {
    let alloc = rt.alloc();
    write_and_read(&rt, alloc, 32_761, &[(0, [0x7F, 0xFF])], 32_767)?;
    let two = [(0, [0xFF, 0xFF]), (32_767, [0x00, 0x03])];
    write_and_read(&rt, alloc, 32_762, &two, 32_770)?;
    let four = [
        (0, [0xFF, 0xFF]),
        (32_767, [0xFF, 0xFF]),
        (65_534, [0xFF, 0xFF]),
        (98_301, [0x06, 0xB3]),
    ];
    write_and_read(&rt, alloc, 100_004, &four, 100_016)
}

#[test]
fn holds_what_is_not_taken(rt: HostRuntime) -> Result<(), Fail> {
    let mut reader = Reader::new(rt.alloc(), Side::Requests, MOST);
    let fed = reader.feed(b"\x00\x0A\xD0\x01\x00\x01\x00\x04\x10\x41\x00\x05");
    assert_eq!(rt; fed.err(), frame(10, Why::Short, 0));
    assert_eq!(rt; reader.held(), 12);
    let first = reader.take().ok_or("the first DSS")?.dss;
    assert_eq!(rt; first.body.as_slice(), b"\x00\x04\x10\x41".as_slice());
    assert_eq!(rt; reader.held(), 2);
    Ok(())
}

/// A chain of a request and of an object with a body of this size.
fn chain(alloc: Global, size: usize) -> Result<DssList, Fail> {
    let mut dsss = DssList::new(alloc);
    dsss.push(Dss {
        kind: Kind::Request,
        chained: true,
        same: true,
        go_on: false,
        corr: 1,
        body: Octets::of(alloc, b"\x00\x04\x20\x0B")?,
    })?;
    dsss.push(Dss {
        kind: Kind::Object,
        chained: false,
        same: false,
        go_on: false,
        corr: 1,
        body: Octets::of(alloc, vec![in alloc; 7; size]?.as_slice())?,
    })?;
    Ok(dsss)
}

/// Writes the DSSs, feeds their bytes one by one, and takes the same DSSs.
fn read_byte_by_byte(rt: &impl Abort, alloc: Global, dsss: &DssList) -> Result<(), Fail> {
    let mut out = Octets::new(alloc);
    for dss in dsss.as_slice() {
        assert!(rt; dss.chained || !dss.same);
        write_dss(dss, &mut out)?;
    }
    let mut reader = Reader::new(alloc, Side::Requests, MOST);
    for byte in out.as_slice().chunks(1) {
        reader.feed(byte)?;
    }
    assert_eq!(rt; reader.held(), out.len());
    for dss in dsss.as_slice() {
        let read = reader.take().ok_or("a whole DSS")?.dss;
        assert_eq!(rt; read.body.as_slice(), dss.body.as_slice());
    }
    assert_eq!(rt; reader.held(), 0);
    Ok(())
}

#[test]
fn reads_a_long_chain_byte_by_byte(rt: HostRuntime) -> Result<(), Fail> {
    let dsss = chain(rt.alloc(), 4_000_000)?;
    read_byte_by_byte(&rt, rt.alloc(), &dsss)
}

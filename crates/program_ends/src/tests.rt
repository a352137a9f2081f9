use crate::{ReadError, StdSink, StdSource, read_all, write_all};
use link_ends::{Failed, NoMemory, Octets, Source};
use std::alloc::Global;
use std::io::{self, Read, Write};
use std::test::Fail;

/// A stream that moves at most `most` bytes in a call, and fails at the call of the number `fails`, from 0. It is read from
/// the front of its bytes, and written at their end.
#[derive(Drop)]
struct Stream {
    bytes: Octets,
    most: usize,
    fails: u32,
    calls: u32,
}

/// No call has this number here.
const NEVER: u32 = u32::MAX;

impl Stream {
    fn of(alloc: Global, bytes: &[u8], most: usize, fails: u32) -> Result<Stream, NoMemory> {
        let bytes = Octets::of(alloc, bytes)?;
        Ok(Stream {
            bytes,
            most,
            fails,
            calls: 0,
        })
    }

    /// Counts a call, which fails where it is the one that is to.
    fn call(&mut self) -> io::Result<()> {
        let call = self.calls;
        self.calls = call.saturating_add(1);
        if call == self.fails {
            return Err(io::Error::from(io::ErrorKind::BrokenPipe));
        }
        Ok(())
    }
}

impl Read for Stream {
    fn read(&mut self, buf: &mut [u8]) -> io::Result<usize> {
        self.call()?;
        let left = self.bytes.as_slice();
        let count = self.most.min(buf.len()).min(left.len());
        buf[..count].copy_from_slice(&left[..count]);
        self.bytes.advance(count);
        Ok(count)
    }
}

impl Write for Stream {
    fn write(&mut self, buf: &[u8]) -> io::Result<usize> {
        self.call()?;
        let count = self.most.min(buf.len());
        match self.bytes.push_all(&buf[..count]) {
            Ok(()) => Ok(count),
            Err(_) => Err(io::Error::from(io::ErrorKind::OutOfMemory)),
        }
    }

    fn flush(&mut self) -> io::Result<()> {
        Ok(())
    }
}

/// So many bytes, of which each thousand differs from the one before it.
fn many(alloc: Global, count: u32) -> Result<Octets, NoMemory> {
    let mut bytes = Octets::new(alloc);
    for i in 0..count {
        bytes.push_all(&[(i % 251) as u8])?;
    }
    Ok(bytes)
}

#[test]
fn streams_are_moved_byte_by_byte(rt: HostRuntime) -> Result<(), Fail> {
    let alloc = rt.alloc();
    let text = many(alloc, 10_000)?;
    for most in [1, 3, 5_000, 20_000] {
        let mut source = StdSource::new(Stream::of(alloc, text.as_slice(), most, NEVER)?);
        match read_all(alloc, &mut source) {
            Ok(read) => assert!(rt; read.as_slice() == text.as_slice()),
            Err(_) => assert!(rt; false),
        }
        let mut stream = Stream::of(alloc, b"", most, NEVER)?;
        assert_eq!(rt;
            write_all(&mut StdSink::new(&mut stream), text.as_slice()),
            Ok(())
        );
        assert!(rt; stream.bytes.as_slice() == text.as_slice());
    }
    Ok(())
}

#[test]
fn streams_fail_in_the_middle(rt: HostRuntime) -> Result<(), Fail> {
    let alloc = rt.alloc();
    let mut buf = [0u8; 4];
    let mut source = StdSource::new(Stream::of(alloc, b"abcdefghij", 4, 1)?);
    assert_eq!(rt; source.read(&mut buf), Ok(4));
    assert_eq!(rt; source.read(&mut buf), Err(Failed));
    assert_eq!(rt; buf.as_slice(), b"abcd".as_slice());
    assert_eq!(rt; source.read(&mut buf), Ok(4));
    assert_eq!(rt; source.read(&mut buf), Ok(2));
    assert_eq!(rt; buf.as_slice(), b"ijgh".as_slice());
    assert_eq!(rt; source.read(&mut buf), Ok(0));
    let mut source = StdSource::new(Stream::of(alloc, b"abcdefghij", 4, 2)?);
    assert!(rt; matches!(read_all(alloc, &mut source), Err(ReadError::Fault)));
    let mut stream = Stream::of(alloc, b"", 4, 2)?;
    assert_eq!(rt;
        write_all(&mut StdSink::new(&mut stream), b"abcdefghij"),
        Err(Failed)
    );
    assert_eq!(rt; stream.bytes.as_slice(), b"abcdefgh".as_slice());
    let mut stream = Stream::of(alloc, b"", 0, NEVER)?;
    assert_eq!(rt;
        write_all(&mut StdSink::new(&mut stream), b"abc"),
        Err(Failed)
    );
    Ok(())
}

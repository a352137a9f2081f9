use super::*;
use link_ends::NoMemory;
use std::alloc::Global;
use std::test::Fail;

/// Right words of `serve`.
const SERVES: &str = "\
serve --listen 127.0.0.1:8471 --rdb SAMPLE --sessions 100 --workers 4 --cap 8 db2a.example:446=10 db2b.example:446=0
serve --listen=a:0 --rdb=R --sessions=1 --workers=1 --cap=1 a:0=0
serve b:1=1 --cap 32 c:2=2 --workers 64 --sessions 1000000 --rdb A23456789012345678 --listen a-b.C:65535 b:1=65535
serve --listen a:0 --rdb R --sessions 1 --workers 1 --cap 1 -- a:0=0";

/// Wrong words of `serve`.
const NO_SERVES: &str = "\
Serve --listen a:1 --rdb R --sessions 1 --workers 1 --cap 1 a:0=0
serve
serve --rdb R --sessions 1 --workers 1 --cap 1 a:0=0
serve --listen a:1 --rdb R --sessions 1 --workers 1 --cap 1
serve --listen a:1 --listen a:1 --rdb R --sessions 1 --workers 1 --cap 1 a:0=0
serve --listen a:1 --rdb R --sessions 1 --workers 1 --cap 1 --wait 1 a:0=0
serve --listen a:1 --rdb R --sessions 1 --workers 1 --cap 1 a:0=0 --help
serve --listen a:1 --rdb R --sessions 01 --workers 1 --cap 1 a:0=0
serve --listen a:1 --rdb R --sessions 0 --workers 1 --cap 1 a:0=0
serve --listen a:1 --rdb R --sessions 1000001 --workers 1 --cap 1 a:0=0
serve --listen a:1 --rdb R --sessions 1 --workers 65 --cap 1 a:0=0
serve --listen a:1 --rdb R --sessions 1 --workers 1 --cap 33 a:0=0
serve --listen a:1 --rdb r --sessions 1 --workers 1 --cap 1 a:0=0
serve --listen a:65536 --rdb R --sessions 1 --workers 1 --cap 1 a:0=0
serve --listen a --rdb R --sessions 1 --workers 1 --cap 1 a:0=0
serve --listen :1 --rdb R --sessions 1 --workers 1 --cap 1 a:0=0
serve --listen a_b:1 --rdb R --sessions 1 --workers 1 --cap 1 a:0=0
serve --listen=-a:1 --rdb R --sessions 1 --workers 1 --cap 1 a:0=0
serve --listen a:1 --rdb R --sessions 1 --workers 1 --cap 1 a:0
serve --listen a:1 --rdb R --sessions 1 --workers 1 --cap 1 a:0=65536
serve --listen a:1 --rdb R --sessions 1 --workers 1 --cap 1 a:0=0 a:0=00";

/// Right words of `member`.
const MEMBERS: &str = "\
member --listen 0.0.0.0:446 --sessions 100 --workers 4 ALICE:SECRET BOB:SECRET
member A:A --workers=64 B:A --sessions=1000000 --listen=a:65535";

/// Wrong words of `member`.
const NO_MEMBERS: &str = "\
serve --listen a:1 --sessions 1 --workers 1 A:A
member --sessions 1 --workers 1 A:A
member --listen a:1 --sessions 1 --workers 1
member --listen a:1 --sessions 1 --workers 1 --cap 1 A:A
member --listen a:1 --sessions 1 --sessions 1 --workers 1 A:A
member --listen a:1 --sessions 1000001 --workers 1 A:A
member --listen a:1 --sessions 1 --workers 65 A:A
member --listen a:1 --sessions 1 --workers 1 A:a
member --listen a:1 --sessions 1 --workers 1 ALICEALICE:A
member --listen a:1 --sessions 1 --workers 1 A
member --listen a:1 --sessions 1 --workers 1 A:A:A
member --listen a:1 --sessions 1 --workers 1 A:A B:B A:B";

/// The words of a line, which stand between spaces.
fn words(alloc: Global, line: &str) -> Result<Vec<String>, NoMemory> {
    let mut words = Vec::new(alloc);
    for word in line.split(' ') {
        words.push(String::from_str(alloc, word)?)?;
    }
    Ok(words)
}

fn is_serve(alloc: Global, line: &str) -> Result<bool, NoMemory> {
    let words = words(alloc, line)?;
    Ok(read_serve(alloc, &words)?.is_some())
}

fn is_member(alloc: Global, line: &str) -> Result<bool, NoMemory> {
    let words = words(alloc, line)?;
    Ok(read_member(alloc, &words)?.is_some())
}

#[test]
fn words_of_serve(rt: HostRuntime) -> Result<(), Fail> {
    for line in SERVES.lines() {
        assert!(rt; is_serve(rt.alloc(), line)?, "{line}");
    }
    for line in NO_SERVES.lines() {
        assert!(rt; !is_serve(rt.alloc(), line)?, "{line}");
    }
    Ok(())
}

#[test]
fn words_of_member(rt: HostRuntime) -> Result<(), Fail> {
    for line in MEMBERS.lines() {
        assert!(rt; is_member(rt.alloc(), line)?, "{line}");
    }
    for line in NO_MEMBERS.lines() {
        assert!(rt; !is_member(rt.alloc(), line)?, "{line}");
    }
    Ok(())
}

use crate::{TcpDial, TcpDoor};
use link_ends::{Dial, Door, Failed, Link};
use std::alloc::Global;
use std::net::TcpListener;
use std::test::Fail;

/// A listener's address as a dial wants it.
fn address_of(alloc: Global, listener: &TcpListener) -> Result<String, Fail> {
    let address = listener.local_addr()?;
    Ok(format!(in alloc; "{address}")?)
}

#[test]
fn bytes_go_both_ways(rt: HostRuntime) -> Result<(), Fail> {
    let listener = TcpListener::bind(&rt, "127.0.0.1:0")?;
    let members = [address_of(rt.alloc(), &listener)?];
    let mut dial = TcpDial::new(&rt, &members);
    let mut door: TcpDoor<()> = TcpDoor::new(Some(&listener));
    let mut near = dial.dial(1).or(Err("no connection"))?;
    let mut far = door.take().or(Err("no connection came"))?;
    let mut buf = [7u8; 5];
    assert_eq!(rt; near.write(b"abc"), Ok(3));
    assert_eq!(rt; far.read(&mut buf), Ok(3));
    assert_eq!(rt; buf, *b"abc\x07\x07");
    assert_eq!(rt; far.write(b"de"), Ok(2));
    assert_eq!(rt; near.read(&mut buf[3..]), Ok(2));
    assert_eq!(rt; buf, *b"abcde");
    drop(near);
    assert_eq!(rt; far.read(&mut buf), Ok(0));
    door.back(());
    Ok(())
}

#[test]
fn what_cannot_be_reached_fails(rt: HostRuntime) -> Result<(), Fail> {
    let listener = TcpListener::bind(&rt, "127.0.0.1:0")?;
    let members = [address_of(rt.alloc(), &listener)?];
    drop(listener);
    let mut dial = TcpDial::new(&rt, &members);
    for member in [0, 1, 2] {
        assert_eq!(rt; dial.dial(member).err(), Some(Failed));
    }
    let mut door: TcpDoor<()> = TcpDoor::new(None);
    assert_eq!(rt; door.take().err(), Some(Failed));
    Ok(())
}

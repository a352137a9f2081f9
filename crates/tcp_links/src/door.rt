ghost use Rattle.std.specs.Prelude.{◌≡◌, None, IfSome};

use crate::link::TcpLink;
use link_ends::{Door, Failed};
use std::marker::PhantomData;
use std::net::TcpListener;

/// Accepts the connections of a listener, which several doors may share. What comes back is dropped, and so is its connection.
#[derive(Drop)]
pub struct TcpDoor<'a, B> {
    listener: Option<&'a TcpListener>,
    given: u64,
    faults: u64,
    back: PhantomData<B>,
}

impl<'a, B> TcpDoor<'a, B> {
    /// A door of this listener, or one whose every call fails where there is none. No call was made yet.
    pub fn new(listener: Option<&'a TcpListener>) -> TcpDoor<'a, B>
        ensures { (result.given ≡ 0) × (result.faults ≡ 0) }
    {
        TcpDoor {
            listener,
            given: 0,
            faults: 0,
            back: PhantomData,
        }
    }

    /// The next connection, as a link that nobody used.
    fn accept(&self) -> Option<TcpLink>
        ensures { IfSome result (λ link. (link.faults ≡ 0) × (link.ends ≡ 0) × (link.stuck ≡ 0)) }
    {
        let (stream, _) = self.listener?.accept().ok()?;
        Some(TcpLink::new(stream))
    }
}

impl<B: Drop> Door for TcpDoor<'_, B> {
    type L = TcpLink;

    type Back = B;

    ghost state = { λ d. record { given = d.given; faults = d.faults; came = None } };

    fn take(&mut self) -> Result<TcpLink, Failed> {
        match self.accept() {
            Some(link) => {
                self.given = self.given.saturating_add(1);
                Ok(link)
            }
            None => {
                self.faults = self.faults.saturating_add(1);
                Err(Failed)
            }
        }
    }

    fn back(&mut self, done: B) {
        drop(done);
    }
}

ghost use Rattle.std.specs.Prelude.{◌≡◌};

use crate::link::TcpLink;
use link_ends::{Dial, Failed};
use std::net::{Net, TcpStream};

/// Connects to members by their addresses, each a host's name or number, a colon and a port. A name is looked up at each call.
#[derive(Drop)]
pub struct TcpDial<'a, R: Net<Stream = TcpStream>> {
    net: &'a R,
    members: &'a [String],
    calls: u64,
    faults: u64,
}

impl<'a, R: Net<Stream = TcpStream>> TcpDial<'a, R> {
    /// The first address is that of member 1. No call was made yet.
    pub fn new(net: &'a R, members: &'a [String]) -> TcpDial<'a, R>
        ensures { (result.calls ≡ 0) × (result.faults ≡ 0) }
    {
        TcpDial {
            net,
            members,
            calls: 0,
            faults: 0,
        }
    }

    /// A connection to a member, where it has an address that can be reached.
    fn reach(&self, member: u32) -> Option<TcpStream> {
        let place = member.checked_sub(1)? as usize;
        let address = self.members.get(place)?;
        TcpStream::connect(self.net, address.as_str()).ok()
    }
}

impl<R: Net<Stream = TcpStream>> Dial for TcpDial<'_, R> {
    type L = TcpLink;

    ghost state = { λ d. record { calls = d.calls; faults = d.faults } };

    ghost dials = { λ old member result new. Unit {0} };

    fn dial(&mut self, member: u32) -> Result<TcpLink, Failed> {
        self.calls = self.calls.saturating_add(1);
        match self.reach(member) {
            Some(stream) => Ok(TcpLink::new(stream)),
            None => {
                self.faults = self.faults.saturating_add(1);
                Err(Failed)
            }
        }
    }
}

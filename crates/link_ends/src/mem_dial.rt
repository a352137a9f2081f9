ghost use Rattle.std.specs.Prelude.{◌≡◌, ◌++◌, ◌∷◌, [], IfOk, OnOk, OnErr};
ghost use Rattle.std.specs.Result.{result_ok};
ghost use Rattle.link_ends.specs.Link.{IsFresh};
ghost use Rattle.link_ends.specs.Doors.{after_dial};
ghost use Rattle.link_ends.specs.Prepared.{wire_state, switch_state, place_for, link_at, without};

use crate::dial::Dial;
use crate::mem_link::MemLink;
use crate::octets::NoMemory;
use crate::source::Failed;
use crate::unused::Unused;
use std::alloc::Global;
use std::marker::Model;

/// A dial over links that are prepared in memory, each for a member. It gives those of a member in the order in which they were
/// added, and fails where none is left.
#[derive(Debug, Drop)]
pub struct MemDial {
    prepared: Vec<(u32, Unused)>,
    calls: u64,
    faults: u64,
}

impl Model for MemDial {
    ghost use Rattle.link_ends.specs.Prepared.{Switch};

    ghost Value = { Switch };

    ghost view = { λ d. record { prepared = d.prepared.items; calls = d.calls; faults = d.faults } };
}

impl MemDial {
    /// No link is prepared.
    pub fn new(alloc: Global) -> MemDial
        ensures { result ≡ record { prepared = []; calls = 0; faults = 0 } }
    {
        MemDial {
            prepared: Vec::new(alloc),
            calls: 0,
            faults: 0,
        }
    }

    /// Prepares this link, which nobody used, for the member of this number. It is dropped where memory runs out.
    pub fn add(&mut self, member: u32, link: MemLink) -> Result<(), NoMemory>
        requires { IsFresh (wire_state link) }
        ensures ok { OnOk result (self.new ≡ record self.old { prepared = self.old.prepared ++ (member, link) ∷ [] }) }
        ensures err { OnErr result (self.new ≡ self.old) }
    {
        self.prepared.push((member, Unused::new(link)))?;
        Ok(())
    }

    /// Takes out the first link that is prepared for this member.
    fn first_for(&mut self, member: u32) -> Option<Unused>
        ensures link { result ≡ link_at (place_for member self.old.prepared) self.old.prepared }
        ensures rest { self.new ≡ record self.old { prepared = without (place_for member self.old.prepared) self.old.prepared } }
    {
        let place = place_for(self.prepared.as_slice(), member)?;
        let (_, link) = self.prepared.remove(place);
        Some(link)
    }
}

/// The place of the first link that is prepared for this member.
fn place_for(prepared: &[(u32, Unused)], member: u32) -> Option<usize>
    ensures { result ≡ place_for member prepared.now }
{
    prepared.iter().position(|one| one.0 == member)
}

impl Dial for MemDial {
    type L = MemLink;

    ghost state = { switch_state };

    ghost dials = { λ old member result new. result_ok result ≡ link_at (place_for member old.prepared) old.prepared };

    fn dial(&mut self, member: u32) -> Result<MemLink, Failed>
        ensures link { result_ok result ≡ link_at (place_for member self.old.prepared) self.old.prepared }
        ensures rest { self.new.prepared ≡ without (place_for member self.old.prepared) self.old.prepared }
        ensures state { switch_state self.new ≡ after_dial result (switch_state self.old) }
        ensures fresh { IfOk result (λ link. IsFresh (wire_state link)) }
        ensures call { result_ok result ≡ link_at (place_for member self.old.prepared) self.old.prepared }
    {
        self.calls = self.calls.saturating_add(1);
        match self.first_for(member) {
            Some(link) => Ok(link.into_link()),
            None => {
                self.faults = self.faults.saturating_add(1);
                Err(Failed)
            }
        }
    }
}

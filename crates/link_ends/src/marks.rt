ghost use Rattle.std.specs.Prelude.{◌≡◌, ◌≤◌, ◌<◌, IfOk};
ghost use Rattle.link_ends.specs.Memory.{is_marked};
ghost use Rattle.link_ends.specs.Prepared.{up_to_cut};

use crate::octets::NoMemory;
use std::alloc::Global;
use std::marker::Model;

/// The numbers, from 0, of the calls of an end in memory that are to fail.
#[derive(Debug, Drop)]
pub struct Marks {
    calls: Vec<u32>,
}

impl Model for Marks {
    ghost use Rattle.std.specs.Prelude.{List, ℕ};

    ghost Value = { List ℕ };

    ghost view = { λ m. m.calls.items };
}

impl Marks {
    /// These calls are to fail, in any order.
    pub fn of(alloc: Global, calls: &[u32]) -> Result<Marks, NoMemory>
        ensures { IfOk result (λ marks. marks ≡ calls.now) }
    {
        let calls = Vec::from_slice(alloc, calls)?;
        Ok(Marks { calls })
    }

    /// Whether the call of this number is to fail.
    pub fn has(&self, call: u64) -> bool
        ensures { result ≡ is_marked self.now call }
    {
        self.calls.iter().any(|mark| u64::from(*mark) == call)
    }

    /// How many of `count` bytes stand, from this place on, before the next of these numbers, as places, that is behind it.
    #[tactic(auto, using(crate::proofs::Cuts::at_most, crate::proofs::Cuts::at_least_one))]
    pub(crate) fn up_to(&self, place: usize, count: usize) -> usize
        ensures count { result ≡ up_to_cut place self.now count }
        ensures most { result ≤ count }
        ensures some { 0 < count → 0 < result }
    {
        self.calls.iter().fold(count, |most, cut| {
            let cut = *cut as usize;
            if place < cut {
                most.min(cut - place)
            } else {
                most
            }
        })
    }
}

ghost use Rattle.std.specs.Prelude.{◌≡◌, ℕ, ◌+◌, ◌<◌, ◌≤◌, ◌≢◌, [], length, map, true, false, Some, None, IfOk};
ghost use Rattle.std.specs.List.{All};

use crate::decisions::Decisions;
use crate::entry::PoolCall;
use crate::grant::Grant;
use crate::journal::Journal;
use crate::lend::Lend;
use crate::moves::{hand_out, lay_to_rest};
use crate::slots::{Slots, new_slots};
use crate::terms::Terms;
use crate::transport::Transport;
use link_ends::NoMemory;
use server_list::{ServerList, Tried};
use std::alloc::Global;
use std::marker::Model;

/// A pool of transports to the members of a group: what was decided, and the links of the idle ones.
#[derive(Drop)]
pub struct House<L> {
    decisions: Decisions,
    slots: Slots<L>,
    sessions: u32,
    tickets: u32,
}

impl<L> Model for House<L> {
    ghost use Rattle.transport_pool.specs.House.{HouseState};

    ghost Value = { HouseState L };

    ghost use Rattle.transport_pool.specs.HouseInside.{house_of, IsHoused};

    ghost view = { house_of };

    ghost invariant = { IsHoused };
}

impl<L: Drop> House<L> {
    ghost use Rattle.server_list.specs.Tried.{is_member};
    ghost use Rattle.transport_pool.specs.State.{is_waiting};
    ghost use Rattle.transport_pool.specs.Steps.{would_wait};
    ghost use Rattle.transport_pool.specs.Sound.{IsSound};
    ghost use Rattle.transport_pool.specs.Journal.{Leads};
    ghost use Rattle.transport_pool.specs.Grants.{Resting};
    ghost use Rattle.transport_pool.specs.Slots.{numbered};
    ghost use Rattle.transport_pool.specs.declared.entry.PoolCall.TheVariants as PoolCall;
    ghost use Rattle.transport_pool.specs.HouseInside.{AreAtRest};
    ghost use Rattle.transport_pool.specs.House.{HouseState, empty_house, called, answer_to, next_ticket, after_ticket};
    ghost use Rattle.transport_pool.specs.House.{terms_of, after_lend, give_of, after_give, handed_out};
    ghost use Rattle.transport_pool.specs.Lends.{LendsOut, HasTerms, AllTried, dialled};

    /// A pool without transports, in which so many may be lent, with this list, whose members are those that can be listed
    /// from then on, and with numbers for so many sessions. No later call takes memory.
    pub fn new(
        alloc: Global,
        cap: u32,
        list: &ServerList,
        sessions: u32,
    ) -> Result<House<L>, NoMemory>
        requires least { 1 ≤ cap }
        requires most { cap ≤ 32 }
        requires listed { 0 < length list.now.rows }
        requires unnumbered { list.now.number ≡ 0 }
        ensures { IfOk result (λ house. house ≡ empty_house cap list.now sessions) }
    {
        let decisions = Decisions::new(alloc, cap as usize, list)?;
        let slots = new_slots(alloc)?;
        Ok(House {
            decisions,
            slots,
            sessions,
            tickets: 0,
        })
    }

    /// A session asks for a transport: of the member that is picked, unless it is tried. Where all listed members are tried
    /// the answer is NoneLeft. Where another session waits before this one, or as many are lent as may be, it is Queue, and
    /// the session waits. Else it is the idle transport of that member that was given back last, unless a fresh one is
    /// wanted; else the right to dial one with the next number; Worn where there is no next number.
    pub fn lend(&mut self, session: u32, tried: Tried, fresh: bool) -> Lend<L>
        ensures house { self.new ≡ after_lend self.old (terms_of session tried fresh) }
        ensures lent { LendsOut self.old (terms_of session tried fresh) result }
        ensures terms { HasTerms (terms_of session tried fresh) result }
        ensures tried { AllTried (terms_of session tried fresh) result }
        ensures dials { self.new.decided.dials ≡ dialled result self.old.decided.dials }
    {
        self.decisions.pool().is_sound();
        let list = self.decisions.pool().list();
        let answer = self.decisions.decide(PoolCall::Lend {
            session,
            tried,
            fresh,
        });
        let terms = Terms {
            session,
            tried,
            fresh,
        };
        hand_out(&mut self.slots, answer, &list, terms)
    }

    /// A transport is given back, and is idle from then on. Where 32 were idle the one idle longest is handed out, and where
    /// the number isn't lent with its member the transport itself.
    pub fn give_back(&mut self, transport: Transport<L>) -> Option<Transport<L>>
        ensures house { self.new ≡ after_give self.old transport }
        ensures handed { result ≡ handed_out (answer_to self.old (give_of transport)) transport self.old.resting }
    {
        self.decisions.pool().is_sound();
        transport.is_at_rest();
        let answer = self.decisions.decide(PoolCall::GiveBack {
            number: transport.number(),
            member: transport.member(),
        });
        lay_to_rest(&mut self.slots, answer, transport)
    }

    /// A transport was lost: its number is no longer lent.
    pub fn lost(&mut self, grant: Grant)
        ensures { self.new ≡ called self.old (PoolCall.Lost grant.number) }
    {
        self.decisions.decide(PoolCall::Lost {
            number: grant.number(),
        });
    }

    /// A member told a list. Where its number is greater than that of the list in use, or both are 0, its rows of known
    /// members are the list from now on, where it has any.
    pub fn learn(&mut self, list: &ServerList)
        ensures { self.new ≡ called self.old (PoolCall.Learn list.now) }
    {
        self.decisions.decide(PoolCall::Learn { list: *list });
    }

    /// A session waits no more.
    pub fn leave(&mut self, session: u32)
        ensures { self.new ≡ called self.old (PoolCall.Leave session) }
    {
        self.decisions.decide(PoolCall::Leave { session });
    }

    /// All numbers of idle and lent transports differ, and no limit is passed; the resting transports are those of the idle
    /// numbers, in the same order, each Attached with nothing unread.
    pub fn is_sound(&self)
        ensures pool { IsSound self.now.decided.pool }
        ensures idle { map numbered self.now.resting ≡ self.now.decided.pool.idle }
        ensures rest { AreAtRest self.now.resting }
    {
        self.decisions.pool().is_sound();
        let _ = &self.slots;
    }

    /// The next session number, from 1. None exactly after as many as `new` was told.
    pub fn ticket(&mut self) -> Option<u32>
        ensures ticket { result ≡ next_ticket self.old }
        ensures house { self.new ≡ after_ticket self.old }
    {
        if self.tickets >= self.sessions {
            return None;
        }
        self.tickets += 1;
        Some(self.tickets)
    }

    /// How many calls of lend, give_back, lost, learn and leave there were. The count stays at the greatest value.
    pub fn calls(&self) -> u64
        ensures { result ≡ self.now.decided.calls }
    {
        self.decisions.calls()
    }

    /// How many lends were answered Dial. The count stays at the greatest value.
    pub fn dials(&self) -> u64
        ensures { result ≡ self.now.decided.dials }
    {
        self.decisions.dials()
    }

    /// How many lends were answered Idle. The count stays at the greatest value.
    pub fn reuses(&self) -> u64
        ensures { result ≡ self.now.decided.reuses }
    {
        self.decisions.reuses()
    }

    /// The last 65,536 of those calls with their answers.
    pub fn journal(&self) -> &Journal
        ensures journal { result.now ≡ self.now.decided.journal }
        ensures leads { Leads result.now.start result.now.entries self.now.decided.pool }
    {
        self.decisions.journal_leads();
        self.decisions.journal()
    }

    /// Whether a session waits.
    pub fn waits(&self, session: u32) -> bool
        ensures { result ≡ is_waiting session self.now.decided.pool.waiting }
    {
        self.decisions.pool().waits(session)
    }

    /// Whether a lend would have this session wait.
    pub fn queues(&self, session: u32, tried: Tried) -> bool
        ensures { result ≡ would_wait self.now.decided.pool session tried }
    {
        self.decisions.pool().queues(session, tried)
    }

    /// The members that can be listed.
    pub fn known(&self) -> Tried
        ensures { result ≡ self.now.decided.pool.known }
    {
        self.decisions.pool().known()
    }
}

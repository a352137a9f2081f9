ghost use Rattle.std.specs.Prelude.{◌≡◌};

use crate::hall::Hall;
use crate::lender::Lender;
use link_ends::Link;
use server_list::{ServerList, Tried};
use std::sync::Wait;
use std::sync::ledger::{Ledger, Share};
use transport_pool::{Grant, Lend, Transport};

/// One thread's way to a pool that threads share. It waits while the pool would have it wait, and never answers Queue. It has a
/// share of a ledger of the pool's calls, and one of a ledger of its lends that were answered Dial.
#[derive(Drop)]
pub struct LockLender<'a, R: Wait, L, X: Ledger, Y: Ledger> {
    rt: &'a R,
    hall: &'a Hall<L, X, Y>,
    calls: Share<X>,
    dials: Share<Y>,
    ghost call_part: { calls.parts ≡ 1 },
    ghost dial_part: { dials.parts ≡ 1 },
}

impl<'a, R: Wait, L: Link, X: Ledger, Y: Ledger> LockLender<'a, R, L, X, Y> {
    /// A way to this pool, with one part of each ledger.
    pub fn new(
        rt: &'a R,
        hall: &'a Hall<L, X, Y>,
        calls: Share<X>,
        dials: Share<Y>,
    ) -> LockLender<'a, R, L, X, Y>
        requires { (calls.parts ≡ 1) × (dials.parts ≡ 1) }
        ensures { (result.calls ≡ calls) × (result.dials ≡ dials) }
    {
        LockLender {
            rt,
            hall,
            calls,
            dials,
        }
    }

    /// Its parts of the ledgers.
    pub fn into_shares(self) -> (Share<X>, Share<Y>)
        ensures shares { (result.0 ≡ self.entry.calls) × (result.1 ≡ self.entry.dials) }
        ensures parts { (self.entry.calls.parts ≡ 1) × (self.entry.dials.parts ≡ 1) }
    {
        let LockLender {
            rt: _,
            hall: _,
            calls,
            dials,
        } = self;
        (calls, dials)
    }
}

impl<'a, R: Wait, L: Link, X: Ledger, Y: Ledger> Lender for LockLender<'a, R, L, X, Y> {
    ghost use Rattle.std.specs.Prelude.{None};
    ghost use Rattle.transport_pool.specs.House.{terms_of};
    ghost use Rattle.transport_pool.specs.Lends.{HasTerms, AllTried, dialled};
    ghost use Rattle.transport_lenders.specs.Lender.{Suits};
    ghost use Rattle.transport_lenders.specs.Shares.{up_to_greatest, amounts, IsCalled, HasLent};

    type L = L;

    ghost pool = { λ lender. None };

    ghost dials = { λ lender. up_to_greatest lender.dials.amount };

    ghost lends = { λ old terms answer new. HasLent (amounts old.calls.amount old.dials.amount) answer (amounts new.calls.amount new.dials.amount) };

    ghost gives = { λ old transport new. IsCalled (amounts old.calls.amount old.dials.amount) (amounts new.calls.amount new.dials.amount) };

    ghost loses = { λ old grant new. IsCalled (amounts old.calls.amount old.dials.amount) (amounts new.calls.amount new.dials.amount) };

    ghost learns = { λ old list new. IsCalled (amounts old.calls.amount old.dials.amount) (amounts new.calls.amount new.dials.amount) };

    ghost leaves = { λ old session new. IsCalled (amounts old.calls.amount old.dials.amount) (amounts new.calls.amount new.dials.amount) };

    ghost knows = { λ lender known. Unit {0} };

    /// Waits while the pool has the session wait. Each time that the pool is asked for a transport counts as a call.
    fn lend(&mut self, session: u32, tried: Tried, fresh: bool) -> Lend<L>
        ensures terms { HasTerms (terms_of session tried fresh) result }
        ensures tried { AllTried (terms_of session tried fresh) result }
        ensures suits { Suits (terms_of session tried fresh) result }
        ensures dials { up_to_greatest self.new.dials.amount ≡ dialled result (up_to_greatest self.old.dials.amount) }
        ensures call { HasLent (amounts self.old.calls.amount self.old.dials.amount) result (amounts self.new.calls.amount self.new.dials.amount) }
    {
        let mut shelf = self.hall.shelf.lock(self.rt);
        let mut waited = false;
        for _ in self.rt.forever() {
            let answer = shelf.lend(session, tried, fresh, &mut self.calls, &mut self.dials);
            if let Lend::Queue = &answer {
                shelf = self.hall.wait(self.rt, shelf, session, tried);
                waited = true;
            } else {
                if waited {
                    // (the next that waits may be lent one too)
                    self.hall.freed.notify_all();
                }
                return answer;
            }
        }
        unreachable!()
    }

    /// A transport for which there is no place is closed.
    fn give_back(&mut self, transport: Transport<L>)
        ensures dials { up_to_greatest self.new.dials.amount ≡ up_to_greatest self.old.dials.amount }
        ensures call { IsCalled (amounts self.old.calls.amount self.old.dials.amount) (amounts self.new.calls.amount self.new.dials.amount) }
    {
        let handed = self
            .hall
            .shelf
            .lock(self.rt)
            .give_back(transport, &mut self.calls);
        self.hall.freed.notify_all();
        drop(handed);
    }

    fn lost(&mut self, grant: Grant)
        ensures dials { up_to_greatest self.new.dials.amount ≡ up_to_greatest self.old.dials.amount }
        ensures call { IsCalled (amounts self.old.calls.amount self.old.dials.amount) (amounts self.new.calls.amount self.new.dials.amount) }
    {
        self.hall.shelf.lock(self.rt).lost(grant, &mut self.calls);
        self.hall.freed.notify_all();
    }

    fn learn(&mut self, list: &ServerList)
        ensures dials { up_to_greatest self.new.dials.amount ≡ up_to_greatest self.old.dials.amount }
        ensures call { IsCalled (amounts self.old.calls.amount self.old.dials.amount) (amounts self.new.calls.amount self.new.dials.amount) }
    {
        self.hall.shelf.lock(self.rt).learn(list, &mut self.calls);
        self.hall.freed.notify_all();
    }

    fn leave(&mut self, session: u32)
        ensures dials { up_to_greatest self.new.dials.amount ≡ up_to_greatest self.old.dials.amount }
        ensures call { IsCalled (amounts self.old.calls.amount self.old.dials.amount) (amounts self.new.calls.amount self.new.dials.amount) }
    {
        self.hall
            .shelf
            .lock(self.rt)
            .leave(session, &mut self.calls);
        self.hall.freed.notify_all();
    }

    fn known(&self) -> Tried {
        self.hall.shelf.lock(self.rt).known()
    }
}

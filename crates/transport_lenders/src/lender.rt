use link_ends::Link;
use server_list::{ServerList, Tried};
use transport_pool::{Grant, Lend, Transport};

/// What lends transports to sessions, and takes them back.
pub trait Lender {
    ghost use Rattle.std.specs.Prelude.{◌≡◌, ℕ, Bool, Option};
    ghost use Rattle.server_list.specs.Lists.{Listing};
    ghost use Rattle.transport_pool.specs.State.{PoolState};
    ghost use Rattle.transport_pool.specs.Grants.{Granted, Resting};
    ghost use Rattle.transport_pool.specs.House.{terms_of, lend_of, give_of};
    ghost use Rattle.transport_pool.specs.Lends.{HasTerms, AllTried, dialled};
    ghost use Rattle.transport_pool.specs.declared.entry.PoolCall.TheVariants as PoolCall;
    ghost use Rattle.transport_pool.specs.declared.terms.Terms.{Terms};
    ghost use Rattle.transport_pool.specs.declared.lend.Lend.{Lend};
    ghost use Rattle.transport_lenders.specs.Lender.{Steps, Answers, Knows, Suits, answer_of};

    type L: Link;

    /// The pool, where it is told.
    ghost pool: { Self → Option PoolState };

    /// How many of its lends were answered Dial, up to the greatest value of a u64.
    ghost dials: { Self → ℕ };

    /// That a call was made, and answered so, with the lender as it is then. Only the call gives it.
    ghost lends: { Self → Terms → Lend Self.L → Self → Type 0 };

    ghost gives: { Self → Resting Self.L → Self → Type 0 };

    ghost loses: { Self → Granted → Self → Type 0 };

    ghost learns: { Self → Listing → Self → Type 0 };

    ghost leaves: { Self → ℕ → Self → Type 0 };

    ghost knows: { Self → ℕ → Type 0 };

    /// A session asks for a transport, of none of the tried members, and a new one where it wants a fresh one.
    fn lend(&mut self, session: u32, tried: Tried, fresh: bool) -> Lend<Self::L>
        ensures pool { Steps (pool self.old) (lend_of (terms_of session tried fresh)) (pool self.new) }
        ensures answer { Answers (pool self.old) (lend_of (terms_of session tried fresh)) (answer_of result) }
        ensures terms { HasTerms (terms_of session tried fresh) result }
        ensures tried { AllTried (terms_of session tried fresh) result }
        ensures suits { Suits (terms_of session tried fresh) result }
        ensures dials { dials self.new ≡ dialled result (dials self.old) }
        ensures call { lends self.old (terms_of session tried fresh) result self.new };

    /// A transport is given back.
    fn give_back(&mut self, transport: Transport<Self::L>)
        ensures pool { Steps (pool self.old) (give_of transport) (pool self.new) }
        ensures dials { dials self.new ≡ dials self.old }
        ensures call { gives self.old transport self.new };

    /// A transport was lost.
    fn lost(&mut self, grant: Grant)
        ensures pool { Steps (pool self.old) (PoolCall.Lost grant.number) (pool self.new) }
        ensures dials { dials self.new ≡ dials self.old }
        ensures call { loses self.old grant self.new };

    /// A member told a list.
    fn learn(&mut self, list: &ServerList)
        ensures pool { Steps (pool self.old) (PoolCall.Learn list.now) (pool self.new) }
        ensures dials { dials self.new ≡ dials self.old }
        ensures call { learns self.old list.now self.new };

    /// A session waits no more.
    fn leave(&mut self, session: u32)
        ensures pool { Steps (pool self.old) (PoolCall.Leave session) (pool self.new) }
        ensures dials { dials self.new ≡ dials self.old }
        ensures call { leaves self.old session self.new };

    /// The members that can be listed.
    fn known(&self) -> Tried
        ensures pool { Knows (pool self.now) result }
        ensures call { knows self.now result };
}

use crate::lender::Lender;
use crate::lending::{give_to_house, leave_house, lend_of_house, lose_in_house, teach_house};
use link_ends::Link;
use server_list::{ServerList, Tried};
use transport_pool::{Grant, House, Lend, Transport};

/// A lender over a pool that one thread alone has.
#[derive(Drop)]
pub struct HouseLender<'a, L> {
    house: &'a mut House<L>,
}

impl<'a, L> HouseLender<'a, L> {
    /// A lender over this pool.
    pub fn new(house: &'a mut House<L>) -> HouseLender<'a, L> {
        HouseLender { house }
    }
}

impl<'a, L: Link> Lender for HouseLender<'a, L> {
    ghost use Rattle.std.specs.Prelude.{◌≡◌, Some};
    ghost use Rattle.transport_pool.specs.House.{terms_of, lend_of, give_of};
    ghost use Rattle.transport_pool.specs.Lends.{HasTerms, AllTried, dialled};
    ghost use Rattle.transport_pool.specs.declared.entry.PoolCall.TheVariants as PoolCall;
    ghost use Rattle.transport_lenders.specs.Lender.{Steps, Answers, Knows, Suits, answer_of};

    type L = L;

    ghost pool = { λ lender. Some lender.house.now.decided.pool };

    ghost dials = { λ lender. lender.house.now.decided.dials };

    ghost lends = { λ old terms answer new. Unit {0} };

    ghost gives = { λ old transport new. Unit {0} };

    ghost loses = { λ old grant new. Unit {0} };

    ghost learns = { λ old list new. Unit {0} };

    ghost leaves = { λ old session new. Unit {0} };

    ghost knows = { λ lender known. Unit {0} };

    fn lend(&mut self, session: u32, tried: Tried, fresh: bool) -> Lend<L>
        ensures pool { Steps (Some self.old.house.now.decided.pool) (lend_of (terms_of session tried fresh)) (Some self.new.house.now.decided.pool) }
        ensures answer { Answers (Some self.old.house.now.decided.pool) (lend_of (terms_of session tried fresh)) (answer_of result) }
        ensures terms { HasTerms (terms_of session tried fresh) result }
        ensures tried { AllTried (terms_of session tried fresh) result }
        ensures suits { Suits (terms_of session tried fresh) result }
        ensures dials { self.new.house.now.decided.dials ≡ dialled result self.old.house.now.decided.dials }
    {
        lend_of_house(self.house, session, tried, fresh)
    }

    /// A transport for which there is no place is closed.
    fn give_back(&mut self, transport: Transport<L>)
        ensures pool { Steps (Some self.old.house.now.decided.pool) (give_of transport) (Some self.new.house.now.decided.pool) }
        ensures dials { self.new.house.now.decided.dials ≡ self.old.house.now.decided.dials }
    {
        let _ = give_to_house(self.house, transport);
    }

    fn lost(&mut self, grant: Grant)
        ensures pool { Steps (Some self.old.house.now.decided.pool) (PoolCall.Lost grant.number) (Some self.new.house.now.decided.pool) }
        ensures dials { self.new.house.now.decided.dials ≡ self.old.house.now.decided.dials }
    {
        lose_in_house(self.house, grant);
    }

    fn learn(&mut self, list: &ServerList)
        ensures pool { Steps (Some self.old.house.now.decided.pool) (PoolCall.Learn list.now) (Some self.new.house.now.decided.pool) }
        ensures dials { self.new.house.now.decided.dials ≡ self.old.house.now.decided.dials }
    {
        teach_house(self.house, list);
    }

    fn leave(&mut self, session: u32)
        ensures pool { Steps (Some self.old.house.now.decided.pool) (PoolCall.Leave session) (Some self.new.house.now.decided.pool) }
        ensures dials { self.new.house.now.decided.dials ≡ self.old.house.now.decided.dials }
    {
        leave_house(self.house, session);
    }

    fn known(&self) -> Tried
        ensures pool { Knows (Some self.now.house.now.decided.pool) result }
    {
        self.house.known()
    }
}

ghost use Rattle.std.specs.Prelude.{◌≡◌, ◌<◌, ◌+◌};
ghost use Rattle.transport_pool.specs.House.{terms_of};
ghost use Rattle.transport_pool.specs.Lends.{HasTerms, AllTried};
ghost use Rattle.transport_lenders.specs.Lender.{Suits};
ghost use Rattle.transport_lenders.specs.Shares.{dials_of, up_to_greatest};

use crate::lending::{give_to_house, leave_house, lend_of_house, lose_in_house, teach_house};
use link_ends::Link;
use server_list::{ServerList, Tried};
use std::sync::ledger::{Book, Ledger, Share};
use transport_pool::{Grant, House, Lend, Transport};

/// A pool that threads share, with the books of two ledgers: of its calls, and of its lends that were answered Dial. Its counts are
/// the totals of the books.
#[derive(Drop)]
pub struct Shelf<L, X: Ledger, Y: Ledger> {
    house: House<L>,
    calls: Book<X>,
    dials: Book<Y>,
    ghost calls_are: { house.decided.calls ≡ up_to_greatest calls.total },
    ghost dials_are: { house.decided.dials ≡ up_to_greatest dials.total },
}

impl<L: Link, X: Ledger, Y: Ledger> Shelf<L, X, Y> {
    /// A pool that wasn't called yet, with its books.
    pub fn new(house: House<L>, calls: Book<X>, dials: Book<Y>) -> Shelf<L, X, Y>
        requires house { (house.decided.calls ≡ 0) × (house.decided.dials ≡ 0) }
        requires books { (calls.total ≡ 0) × (dials.total ≡ 0) }
    {
        Shelf {
            house,
            calls,
            dials,
        }
    }

    /// Lends, and counts the call in the one share and a dial in the other.
    pub(crate) fn lend(
        &mut self,
        session: u32,
        tried: Tried,
        fresh: bool,
        calls: &mut Share<X>,
        dials: &mut Share<Y>,
    ) -> Lend<L>
        requires { (0 < calls.old.parts) × (0 < dials.old.parts) }
        ensures terms { HasTerms (terms_of session tried fresh) result }
        ensures tried { AllTried (terms_of session tried fresh) result }
        ensures suits { Suits (terms_of session tried fresh) result }
        ensures calls { (calls.new.amount ≡ calls.old.amount + 1) × (calls.new.parts ≡ calls.old.parts) }
        ensures dials { (dials.new.amount ≡ dials.old.amount + dials_of result) × (dials.new.parts ≡ dials.old.parts) }
    {
        let Shelf {
            house,
            calls: calls_book,
            dials: dials_book,
        } = self;
        calls_book.add(calls, 1);
        let answer = lend_of_house(house, session, tried, fresh);
        if let Lend::Dial(_) = &answer {
            dials_book.add(dials, 1);
        }
        answer
    }

    /// Takes a transport back, and answers the one for which there is no place then.
    pub(crate) fn give_back(
        &mut self,
        transport: Transport<L>,
        calls: &mut Share<X>,
    ) -> Option<Transport<L>>
        requires { 0 < calls.old.parts }
        ensures { (calls.new.amount ≡ calls.old.amount + 1) × (calls.new.parts ≡ calls.old.parts) }
    {
        let Shelf {
            house,
            calls: calls_book,
            dials: _,
        } = self;
        calls_book.add(calls, 1);
        give_to_house(house, transport)
    }

    /// A transport was lost.
    pub(crate) fn lost(&mut self, grant: Grant, calls: &mut Share<X>)
        requires { 0 < calls.old.parts }
        ensures { (calls.new.amount ≡ calls.old.amount + 1) × (calls.new.parts ≡ calls.old.parts) }
    {
        let Shelf {
            house,
            calls: calls_book,
            dials: _,
        } = self;
        calls_book.add(calls, 1);
        lose_in_house(house, grant);
    }

    /// A member told a list.
    pub(crate) fn learn(&mut self, list: &ServerList, calls: &mut Share<X>)
        requires { 0 < calls.old.parts }
        ensures { (calls.new.amount ≡ calls.old.amount + 1) × (calls.new.parts ≡ calls.old.parts) }
    {
        let Shelf {
            house,
            calls: calls_book,
            dials: _,
        } = self;
        calls_book.add(calls, 1);
        teach_house(house, list);
    }

    /// A session waits no more.
    pub(crate) fn leave(&mut self, session: u32, calls: &mut Share<X>)
        requires { 0 < calls.old.parts }
        ensures { (calls.new.amount ≡ calls.old.amount + 1) × (calls.new.parts ≡ calls.old.parts) }
    {
        let Shelf {
            house,
            calls: calls_book,
            dials: _,
        } = self;
        calls_book.add(calls, 1);
        leave_house(house, session);
    }

    /// Whether a lend would have this session wait.
    pub(crate) fn queues(&self, session: u32, tried: Tried) -> bool {
        self.house.queues(session, tried)
    }

    /// The members that can be listed.
    pub(crate) fn known(&self) -> Tried {
        self.house.known()
    }

    /// The number of the next session.
    pub(crate) fn ticket(&mut self) -> Option<u32> {
        self.house.ticket()
    }

    /// The counts of the pool, which are the amounts of the whole shares, up to the greatest value of a u64.
    pub fn counts(&mut self, calls: &mut Share<X>, dials: &mut Share<Y>) -> (u64, u64)
        requires { (calls.old.parts ≡ X.parts) × (dials.old.parts ≡ Y.parts) }
        ensures calls { result.0 ≡ up_to_greatest calls.old.amount }
        ensures dials { result.1 ≡ up_to_greatest dials.old.amount }
    {
        let Shelf {
            house,
            calls: calls_book,
            dials: dials_book,
        } = self;
        calls_book.audit(calls);
        dials_book.audit(dials);
        (house.calls(), house.dials())
    }
}

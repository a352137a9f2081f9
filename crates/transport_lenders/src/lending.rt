ghost use Rattle.std.specs.Prelude.{◌≡◌, Some};
ghost use Rattle.transport_pool.specs.Counts.{rose};
ghost use Rattle.transport_pool.specs.House.{terms_of, lend_of, give_of};
ghost use Rattle.transport_pool.specs.declared.entry.PoolCall.TheVariants as PoolCall;
ghost use Rattle.transport_pool.specs.Lends.{HasTerms, AllTried, dialled};
ghost use Rattle.transport_lenders.specs.Lender.{Steps, Answers, Suits, answer_of};

use server_list::{ServerList, Tried};
use transport_pool::{Grant, House, Lend, Transport};

/// A lend of this pool, with what holds of the lends of every lender.
pub(crate) fn lend_of_house<L: Drop>(
    house: &mut House<L>,
    session: u32,
    tried: Tried,
    fresh: bool,
) -> Lend<L>
    ensures pool { Steps (Some house.old.decided.pool) (lend_of (terms_of session tried fresh)) (Some house.new.decided.pool) }
    ensures answer { Answers (Some house.old.decided.pool) (lend_of (terms_of session tried fresh)) (answer_of result) }
    ensures terms { HasTerms (terms_of session tried fresh) result }
    ensures tried { AllTried (terms_of session tried fresh) result }
    ensures suits { Suits (terms_of session tried fresh) result }
    ensures dials { house.new.decided.dials ≡ dialled result house.old.decided.dials }
    ensures calls { house.new.decided.calls ≡ rose house.old.decided.calls }
{
    house.lend(session, tried, fresh)
}

/// A transport is given back; the one is handed out for which there is no place then.
pub(crate) fn give_to_house<L: Drop>(
    house: &mut House<L>,
    transport: Transport<L>,
) -> Option<Transport<L>>
    ensures pool { Steps (Some house.old.decided.pool) (give_of transport) (Some house.new.decided.pool) }
    ensures dials { house.new.decided.dials ≡ house.old.decided.dials }
    ensures calls { house.new.decided.calls ≡ rose house.old.decided.calls }
{
    house.give_back(transport)
}

/// A transport was lost.
pub(crate) fn lose_in_house<L: Drop>(house: &mut House<L>, grant: Grant)
    ensures pool { Steps (Some house.old.decided.pool) (PoolCall.Lost grant.number) (Some house.new.decided.pool) }
    ensures dials { house.new.decided.dials ≡ house.old.decided.dials }
    ensures calls { house.new.decided.calls ≡ rose house.old.decided.calls }
{
    house.lost(grant);
}

/// A member told a list.
pub(crate) fn teach_house<L: Drop>(house: &mut House<L>, list: &ServerList)
    ensures pool { Steps (Some house.old.decided.pool) (PoolCall.Learn list.now) (Some house.new.decided.pool) }
    ensures dials { house.new.decided.dials ≡ house.old.decided.dials }
    ensures calls { house.new.decided.calls ≡ rose house.old.decided.calls }
{
    house.learn(list);
}

/// A session waits no more.
pub(crate) fn leave_house<L: Drop>(house: &mut House<L>, session: u32)
    ensures pool { Steps (Some house.old.decided.pool) (PoolCall.Leave session) (Some house.new.decided.pool) }
    ensures dials { house.new.decided.dials ≡ house.old.decided.dials }
    ensures calls { house.new.decided.calls ≡ rose house.old.decided.calls }
{
    house.leave(session);
}

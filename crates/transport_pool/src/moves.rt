ghost use Rattle.std.specs.Prelude.{◌≡◌, ◌≢◌, ℕ, ◌≤◌};
ghost use Rattle.transport_pool.specs.Moves.{CanLend, MovesLent, HandsOut, CanRest, MovesGiven, Exchanges, handed_back};
ghost use Rattle.transport_pool.specs.Slots.{held, free, under, Leaves, Gains};
ghost use Rattle.transport_pool.specs.Sound.{times};

use crate::entry::PoolAnswer;
use crate::grant::Grant;
use crate::lend::{Lend, Listed, Spent};
use crate::lists::members_of;
use crate::slots::{Slots, put, take};
use crate::terms::Terms;
use crate::transport::Transport;
use server_list::ServerList;

/// Hands out what a lend on these terms was answered, where this list is in use.
pub(crate) fn hand_out<L: Drop>(
    slots: &mut Slots<L>,
    answer: PoolAnswer,
    list: &ServerList,
    terms: Terms,
) -> Lend<L>
    requires { CanLend answer slots.old.slots }
    ensures slots { MovesLent answer slots.old.slots slots.new.slots }
    ensures out { HandsOut terms list.now.rows slots.old.slots answer result }
{
    match answer {
        PoolAnswer::Idle { number, .. } => Lend::Idle(take(slots, number).lent_on(terms)),
        PoolAnswer::Dial { number, member } => Lend::Dial(Grant::new(number, member, terms)),
        PoolAnswer::Queue => Lend::Queue,
        PoolAnswer::NoneLeft => Lend::NoneLeft(Listed::new(members_of(list), terms)),
        PoolAnswer::Worn => Lend::Worn(Spent::new(terms)),
        PoolAnswer::Handed { .. } | PoolAnswer::Nothing => unreachable!(),
    }
}

/// Lays a transport to rest, unless the answer to its giving back hands it back itself, and hands out what was answered.
pub(crate) fn lay_to_rest<L: Drop>(
    slots: &mut Slots<L>,
    answer: PoolAnswer,
    transport: Transport<L>,
) -> Option<Transport<L>>
    requires { CanRest transport answer slots.old.slots }
    ensures slots { MovesGiven transport answer slots.old.slots slots.new.slots }
    ensures handed { result ≡ handed_back transport answer slots.old.slots }
{
    match answer {
        PoolAnswer::Nothing => {
            put(slots, transport);
            None
        }
        PoolAnswer::Handed { number } => {
            if number == transport.number() {
                return Some(transport);
            }
            let oldest = take(slots, number);
            put(slots, transport);
            Some(oldest)
        }
        _ => unreachable!(),
    }
}

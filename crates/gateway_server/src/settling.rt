//! What a turn tells the lender besides its one call: a loss, a list of members, and that a session waits no more.
ghost use Rattle.std.specs.Prelude.{◌≡◌, None};
ghost use Rattle.gateway_session.specs.Memory.{held_in, list_in, id_in, without_list};
ghost use Rattle.gateway_server.specs.Turned.{Lost, Learned, Left};
ghost use Rattle.gateway_server.specs.Leases.{Follows, grip_in, grip_of, grant_in, rests_in};
ghost use Rattle.gateway_server.specs.declared.lease.Lease.TheVariants as Lease;

use crate::event::Event;
use crate::lease::Lease;
use gateway_session::{Lent, Session};
use server_list::read_list;
use transport_lenders::Lender;
use transport_pool::Grant;

/// Where the session holds nothing now, what its run holds was lost.
pub(crate) fn settle<D: Lender>(
    session: &Session,
    lender: &mut D,
    lease: Lease<D::L>,
) -> Lease<D::L>
    requires grip { Follows (grip_in session.now) (grip_of lease) }
    ensures call { Lost D.loses (held_in session.now) lease lender.old result lender.new }
    ensures grip { grip_in session.now ≡ grip_of result }
    ensures dials { D.dials lender.new ≡ D.dials lender.old }
{
    match session.held() {
        Some(_) => lease,
        None => lose(lender, lease),
    }
}

/// What a run holds is lost.
fn lose<D: Lender>(lender: &mut D, lease: Lease<D::L>) -> Lease<D::L>
    ensures call { Lost D.loses None lease lender.old result lender.new }
    ensures nothing { result ≡ Lease.Nothing }
    ensures dials { D.dials lender.new ≡ D.dials lender.old }
{
    if let Some(grant) = into_grant(lease) {
        lender.lost(grant);
    }
    Lease::Nothing
}

/// The right to the transport that a run holds. Its link is closed.
fn into_grant<L: Drop>(lease: Lease<L>) -> Option<Grant>
    ensures { result ≡ grant_in lease }
{
    match lease {
        Lease::Nothing => None,
        Lease::Granted(grant) => Some(grant),
        Lease::Dialled(grant, link) => {
            drop(link);
            Some(grant)
        }
    }
}

/// Tells the lender a list of members that the session was told, where it spells known ones.
pub(crate) fn learn<D: Lender>(session: &mut Session, lender: &mut D)
    ensures session { session.new ≡ without_list session.old }
    ensures call { Learned D.knows D.learns (list_in session.old) lender.old lender.new }
    ensures grip { grip_in session.new ≡ grip_in session.old }
    ensures rests { rests_in session.new ≡ rests_in session.old }
    ensures dials { D.dials lender.new ≡ D.dials lender.old }
{
    if let Some(bytes) = session.learned() {
        let known = lender.known();
        if let Some(list) = read_list(bytes.as_slice(), &known) {
            lender.learn(&list);
        }
    }
}

/// A session that was to wait and found no memory waits no more.
pub(crate) fn leave<D: Lender>(session: &Session, lender: &mut D, event: Event, memory: bool)
    ensures call { Left D.leaves event memory (id_in session.now) lender.old lender.new }
    ensures dials { D.dials lender.new ≡ D.dials lender.old }
{
    match event {
        Event::Lend { lent: Lent::Queue } if !memory => lender.leave(session.id()),
        _ => (),
    }
}

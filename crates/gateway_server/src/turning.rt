//! One turn: the call that the session needs, and what the lender is told besides.
ghost use Rattle.std.specs.Prelude.{◌≡◌, ◌<◌, ℕ, Bool, true, false, length};
ghost use Rattle.gateway_session.specs.Memory.{need_in, to_say_in};
ghost use Rattle.gateway_server.specs.Feeding.{after_feeding};
ghost use Rattle.gateway_server.specs.Dialling.{AsksDial, counted, Balanced};
ghost use Rattle.gateway_server.specs.Leases.{Follows, grip_in, grip_of, rests_in, is_granted, is_dialled};
ghost use Rattle.gateway_server.specs.Events.{input_of, heard_after, taken_after};
ghost use Rattle.gateway_server.specs.Turned.{Calls, Turned, is_done};
ghost use Rattle.gateway_server.specs.declared.lease.Lease.TheVariants as Lease;

use crate::calls::{Called, ask, hear, reach, receive, release, say, send};
use crate::event::Event;
use crate::lease::Lease;
use crate::settling::{learn, leave, settle};
use gateway_session::{Need, Session};
use link_ends::{Dial, Link};
use transport_lenders::Lender;
use transport_pool::Grant;

/// The right that is held.
fn granted<L: Drop>(lease: Lease<L>) -> Grant
    requires { is_granted lease ≡ true }
    ensures { lease ≡ Lease.Granted result }
{
    match lease {
        Lease::Granted(grant) => grant,
        _ => unreachable!(),
    }
}

/// The transport that is held.
fn dialled<L: Drop>(lease: Lease<L>) -> (Grant, L)
    requires { is_dialled lease ≡ true }
    ensures { lease ≡ Lease.Dialled result.0 result.1 }
{
    match lease {
        Lease::Dialled(grant, link) => (grant, link),
        _ => unreachable!(),
    }
}

/// Makes the one call that the session needs.
fn call_needed<A: Link, N: Dial, D: Lender<L = N::L>>(
    session: &mut Session,
    lease: Lease<N::L>,
    app: &mut A,
    lender: &mut D,
    dial: &mut N,
    bytes: &mut [u8],
) -> Called<N::L>
    requires ties { grip_in session.old ≡ grip_of lease }
    requires rests { rests_in session.old ≡ true }
    requires room { 0 < length bytes.old }
    requires going { is_done (need_in session.old) ≡ false }
    requires asks { AsksDial session.old }
    ensures call { Calls A.state A.reads A.writes N.L.state N.L.reads N.L.writes N.state N.dials D.lends D.gives app.old app.new dial.old dial.new lender.old lender.new result.lease bytes.new result.event session.old (need_in session.old) lease }
    ensures session { session.new ≡ after_feeding result.memory (input_of bytes.new result.event) session.old }
    ensures heard { (A.state app.new).heard ≡ heard_after (A.state app.old).heard (input_of bytes.new result.event) }
    ensures taken { (A.state app.new).taken ≡ taken_after (A.state app.old).taken (input_of bytes.new result.event) (to_say_in session.old) }
    ensures grip { Follows (grip_in session.new) (grip_of result.lease) }
    ensures rests { rests_in session.new ≡ true }
    ensures len { length bytes.new ≡ length bytes.old }
    ensures asks { AsksDial session.new }
    ensures balance { Balanced (counted (N.state dial.old).calls (D.dials lender.old)) (counted (N.state dial.new).calls (D.dials lender.new)) session.old session.new }
{
    match session.need() {
        Need::App => {
            let (event, memory) = hear(session, app, bytes);
            Called {
                event,
                memory,
                lease,
            }
        }
        Need::Lend => ask(session, lender),
        Need::Dial => reach(session, dial, granted(lease)),
        Need::Send => {
            let (grant, link) = dialled(lease);
            send(session, grant, link)
        }
        Need::Back => {
            let (grant, link) = dialled(lease);
            receive(session, grant, link, bytes)
        }
        Need::Give => {
            let (grant, link) = dialled(lease);
            release(session, lender, grant, link)
        }
        Need::Say => {
            let (event, memory) = say(session, app);
            Called {
                event,
                memory,
                lease,
            }
        }
        Need::Done(_) => unreachable!(),
    }
}

/// A turn of a session that needs something: what it came to, and what the run holds.
pub(crate) fn go<A: Link, N: Dial, D: Lender<L = N::L>>(
    session: &mut Session,
    lease: Lease<N::L>,
    app: &mut A,
    lender: &mut D,
    dial: &mut N,
    bytes: &mut [u8],
) -> (Event, Lease<N::L>)
    requires ties { grip_in session.old ≡ grip_of lease }
    requires rests { rests_in session.old ≡ true }
    requires room { 0 < length bytes.old }
    requires going { is_done (need_in session.old) ≡ false }
    requires asks { AsksDial session.old }
    ensures call { (m : Bool) × Turned A.state A.reads A.writes N.L.state N.L.reads N.L.writes N.state N.dials D.lends D.gives D.loses D.knows D.learns D.leaves app.old app.new dial.old dial.new lender.old lender.new lease result.1 bytes.new result.0 m session.old session.new }
    ensures heard { (A.state app.new).heard ≡ heard_after (A.state app.old).heard (input_of bytes.new result.0) }
    ensures taken { (A.state app.new).taken ≡ taken_after (A.state app.old).taken (input_of bytes.new result.0) (to_say_in session.old) }
    ensures ties { grip_in session.new ≡ grip_of result.1 }
    ensures rests { rests_in session.new ≡ true }
    ensures len { length bytes.new ≡ length bytes.old }
    ensures asks { AsksDial session.new }
    ensures balance { Balanced (counted (N.state dial.old).calls (D.dials lender.old)) (counted (N.state dial.new).calls (D.dials lender.new)) session.old session.new }
{
    let Called {
        event,
        memory,
        lease,
    } = call_needed(session, lease, app, lender, dial, bytes);
    let lease = settle(session, lender, lease);
    learn(session, lender);
    leave(session, lender, event, memory);
    (event, lease)
}

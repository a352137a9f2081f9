//! The calls of a turn: each is one call of a link, of a dial or of a lender, and tells the session what it came to.
ghost use Rattle.std.specs.Prelude.{◌≡◌, ◌≤◌, ◌<◌, ◌≢◌, ℕ, List, Result, None, true, length};
ghost use Rattle.link_ends.specs.declared.source.Failed.{Failed};
ghost use Rattle.link_ends.specs.Link.{IsHeard, IsSaid};
ghost use Rattle.link_ends.specs.Doors.{after_dial};
ghost use Rattle.transport_pool.specs.Lends.{dialled};
ghost use Rattle.transport_pool.specs.House.{terms_of};
ghost use Rattle.transport_pool.specs.declared.lend.Lend.{Lend};
ghost use Rattle.gateway_session.specs.declared.need.Need.TheVariants.{App, Lend as NeedsLend, Dial, Send, Back, Give, Say};
ghost use Rattle.gateway_session.specs.Members.{LendsMember};
ghost use Rattle.gateway_session.specs.Memory.{need_in, id_in, tries_in, to_send_in, to_say_in, mark_in};
ghost use Rattle.gateway_server.specs.Feeding.{after_feeding};
ghost use Rattle.gateway_server.specs.Dialling.{AsksDial, pending_in, counted, Balanced};
ghost use Rattle.gateway_server.specs.Leases.{Follows, Allowed, Dialled, grip_in, grip_of, grip_lent, granted_in, rests_in, lease_of, lent_of, lease_dialled};
ghost use Rattle.gateway_server.specs.Events.{event_heard, event_said, event_sent, event_back, event_dialled, input_of, heard_after, taken_after};
ghost use Rattle.gateway_server.specs.declared.lease.Lease.TheVariants as Lease;

use crate::event::Event;
use crate::feeding::{
    feed_app, feed_back, feed_dialled, feed_end, feed_fault, feed_given, feed_lend, feed_said,
    feed_sent,
};
use crate::lease::Lease;
use gateway_session::{Lent, Session};
use link_ends::{Dial, Failed, Link};
use transport_lenders::Lender;
use transport_pool::{Grant, Lend, Transport};

/// What a call came to, whether the session found its memory, and what its run holds, before a loss.
pub(crate) struct Called<L> {
    pub event: Event,
    pub memory: bool,
    pub lease: Lease<L>,
}

/// Reads of the application's link.
#[tactic(auto, using(crate::proofs::Told::told_none))]
pub(crate) fn hear<A: Link>(session: &mut Session, app: &mut A, bytes: &mut [u8]) -> (Event, bool)
    requires need { need_in session.old ≡ App }
    requires room { 0 < length bytes.old }
    requires rests { rests_in session.old ≡ true }
    ensures call { (r : Result ℕ Failed) × A.reads app.old bytes.old r bytes.new app.new × IsHeard r (A.state app.old) (A.state app.new) bytes.old bytes.new × (result.0 ≡ event_heard r) }
    ensures session { session.new ≡ after_feeding result.1 (input_of bytes.new result.0) session.old }
    ensures heard { (A.state app.new).heard ≡ heard_after (A.state app.old).heard (input_of bytes.new result.0) }
    ensures taken { (A.state app.new).taken ≡ (A.state app.old).taken }
    ensures grip { Follows (grip_in session.new) (grip_in session.old) }
    ensures rests { rests_in session.new ≡ true }
    ensures len { length bytes.new ≡ length bytes.old }
{
    match app.read(bytes) {
        Ok(0) => (Event::End { failed: false }, feed_end(session, false)),
        Ok(n) => (Event::Take { n }, feed_app(session, &bytes[..n])),
        Err(Failed) => (Event::End { failed: true }, feed_end(session, true)),
    }
}

/// Writes to the application's link.
#[tactic(auto, using(crate::proofs::Told::told_none))]
pub(crate) fn say<A: Link>(session: &mut Session, app: &mut A) -> (Event, bool)
    requires need { need_in session.old ≡ Say }
    requires rests { rests_in session.old ≡ true }
    ensures call { (r : Result ℕ Failed) × A.writes app.old (to_say_in session.old) r app.new × IsSaid r (A.state app.old) (A.state app.new) (to_say_in session.old) × (result.0 ≡ event_said r) }
    ensures session { (bytes : List ℕ) → session.new ≡ after_feeding result.1 (input_of bytes result.0) session.old }
    ensures taken { (bytes : List ℕ) → (A.state app.new).taken ≡ taken_after (A.state app.old).taken (input_of bytes result.0) (to_say_in session.old) }
    ensures heard { (A.state app.new).heard ≡ (A.state app.old).heard }
    ensures grip { Follows (grip_in session.new) (grip_in session.old) }
    ensures rests { rests_in session.new ≡ true }
{
    match app.write(session.to_say()) {
        Ok(0) => (Event::End { failed: false }, feed_end(session, false)),
        Ok(n) => (Event::Say { n }, feed_said(session, n)),
        Err(Failed) => (Event::End { failed: true }, feed_end(session, true)),
    }
}

/// Asks the lender for a transport.
pub(crate) fn ask<D: Lender>(session: &mut Session, lender: &mut D) -> Called<D::L>
    requires need { need_in session.old ≡ NeedsLend }
    requires rests { rests_in session.old ≡ true }
    ensures call { (x : Lend D.L) × D.lends lender.old (terms_of (id_in session.old) (tries_in session.old).tried (tries_in session.old).fresh) x lender.new × (result.event ≡ Event.Lend (lent_of x)) × (result.lease ≡ lease_of x) }
    ensures session { (bytes : List ℕ) → session.new ≡ after_feeding result.memory (input_of bytes result.event) session.old }
    ensures grip { Follows (grip_in session.new) (grip_of result.lease) }
    ensures rests { rests_in session.new ≡ true }
    ensures asks { AsksDial session.new }
    ensures balance { (calls : ℕ) → Balanced (counted calls (D.dials lender.old)) (counted calls (D.dials lender.new)) session.old session.new }
{
    let (lent, lease) = lent_and_lease(lender.lend(session.id(), session.tried(), session.fresh()));
    let memory = feed_lend(session, lent);
    Called {
        event: Event::Lend { lent },
        memory,
        lease,
    }
}

/// What a session is told of a lend, and what its run holds after it.
fn lent_and_lease<L: Drop>(lend: Lend<L>) -> (Lent, Lease<L>)
    ensures lent { result.0 ≡ lent_of lend }
    ensures lease { result.1 ≡ lease_of lend }
    ensures member { LendsMember result.0 }
    ensures grip { grip_lent result.0 ≡ grip_of result.1 }
    ensures dials { (count : ℕ) → dialled lend count ≡ granted_in result.1 count }
{
    match lend {
        Lend::Idle(transport) => {
            let (number, member) = (transport.number(), transport.member());
            let (grant, link) = transport.into_parts();
            (Lent::Idle { number, member }, Lease::Dialled(grant, link))
        }
        Lend::Dial(grant) => {
            let (number, member) = (grant.number(), grant.member());
            (Lent::Dial { number, member }, Lease::Granted(grant))
        }
        Lend::Queue => (Lent::Queue, Lease::Nothing),
        Lend::NoneLeft(_) => (Lent::NoneLeft, Lease::Nothing),
        Lend::Worn(_) => (Lent::Worn, Lease::Nothing),
    }
}

/// Dials the transport that was granted.
pub(crate) fn reach<N: Dial>(session: &mut Session, dial: &mut N, grant: Grant) -> Called<N::L>
    requires need { need_in session.old ≡ Dial }
    requires rests { rests_in session.old ≡ true }
    requires grip { grip_in session.old ≡ Allowed grant.number }
    ensures call { (r : Result N.L Failed) × N.dials dial.old grant.member r dial.new × (N.state dial.new ≡ after_dial r (N.state dial.old)) × (result.event ≡ event_dialled r) × (result.lease ≡ lease_dialled grant r) }
    ensures session { (bytes : List ℕ) → session.new ≡ after_feeding result.memory (input_of bytes result.event) session.old }
    ensures grip { Follows (grip_in session.new) (grip_of result.lease) }
    ensures rests { rests_in session.new ≡ true }
    ensures none { pending_in session.new ≡ 0 }
    ensures balance { (dials : ℕ) → Balanced (counted (N.state dial.old).calls dials) (counted (N.state dial.new).calls dials) session.old session.new }
{
    match dial.dial(grant.member()) {
        Ok(link) => Called {
            event: Event::Dial { reached: true },
            memory: feed_dialled(session, true),
            lease: Lease::Dialled(grant, link),
        },
        Err(Failed) => Called {
            event: Event::Dial { reached: false },
            memory: feed_dialled(session, false),
            lease: Lease::Granted(grant),
        },
    }
}

/// Writes to the link that is held.
pub(crate) fn send<K: Link>(session: &mut Session, grant: Grant, link: K) -> Called<K>
    requires need { need_in session.old ≡ Send }
    requires rests { rests_in session.old ≡ true }
    requires grip { grip_in session.old ≡ Dialled grant.number }
    ensures call { (r : Result ℕ Failed) × (link' : K) × K.writes link (to_send_in session.old) r link' × IsSaid r (K.state link) (K.state link') (to_send_in session.old) × (result.event ≡ event_sent r) × (result.lease ≡ Lease.Dialled grant link') }
    ensures session { (bytes : List ℕ) → session.new ≡ after_feeding result.memory (input_of bytes result.event) session.old }
    ensures grip { Follows (grip_in session.new) (grip_of result.lease) }
    ensures rests { rests_in session.new ≡ true }
{
    let mut link = link;
    let (event, memory) = match link.write(session.to_send()) {
        Ok(n) => (Event::Send { n, failed: false }, feed_sent(session, n)),
        Err(Failed) => (Event::Send { n: 0, failed: true }, feed_fault(session)),
    };
    Called {
        event,
        memory,
        lease: Lease::Dialled(grant, link),
    }
}

/// Reads of the link that is held.
pub(crate) fn receive<K: Link>(
    session: &mut Session,
    grant: Grant,
    link: K,
    bytes: &mut [u8],
) -> Called<K>
    requires need { need_in session.old ≡ Back }
    requires rests { rests_in session.old ≡ true }
    requires grip { grip_in session.old ≡ Dialled grant.number }
    ensures call { (r : Result ℕ Failed) × (link' : K) × K.reads link bytes.old r bytes.new link' × IsHeard r (K.state link) (K.state link') bytes.old bytes.new × (result.event ≡ event_back r) × (result.lease ≡ Lease.Dialled grant link') }
    ensures session { session.new ≡ after_feeding result.memory (input_of bytes.new result.event) session.old }
    ensures grip { Follows (grip_in session.new) (grip_of result.lease) }
    ensures rests { rests_in session.new ≡ true }
    ensures len { length bytes.new ≡ length bytes.old }
{
    let mut link = link;
    let (event, memory) = match link.read(bytes) {
        Ok(n) => (
            Event::Back { n, failed: false },
            feed_back(session, &bytes[..n]),
        ),
        Err(Failed) => (Event::Back { n: 0, failed: true }, feed_fault(session)),
    };
    Called {
        event,
        memory,
        lease: Lease::Dialled(grant, link),
    }
}

/// Gives the transport back that is held.
pub(crate) fn release<D: Lender>(
    session: &mut Session,
    lender: &mut D,
    grant: Grant,
    link: D::L,
) -> Called<D::L>
    requires need { need_in session.old ≡ Give }
    requires rests { rests_in session.old ≡ true }
    ensures call { D.gives lender.old (record { grant = grant; link = link; mark = mark_in session.old }) lender.new }
    ensures result { (result.event ≡ Event.Give) × (result.lease ≡ Lease.Nothing) }
    ensures session { (bytes : List ℕ) → session.new ≡ after_feeding result.memory (input_of bytes result.event) session.old }
    ensures grip { Follows (grip_in session.new) (grip_of result.lease) }
    ensures rests { rests_in session.new ≡ true }
    ensures dials { D.dials lender.new ≡ D.dials lender.old }
{
    lender.give_back(Transport::rest(grant, link, session.mark()));
    Called {
        event: Event::Give,
        memory: feed_given(session),
        lease: Lease::Nothing,
    }
}

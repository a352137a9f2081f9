//! Runs: a session over its links. Only a turn changes a run, and only a run that is done makes a `Done`.
ghost use Rattle.std.specs.Prelude.{◌≡◌, true, false, vec_len};
ghost use Rattle.gateway_server.specs.Leases.{grip_in, grip_of, rests_in};
ghost use Rattle.gateway_server.specs.Dialling.{AsksDial};
ghost use Rattle.gateway_server.specs.Leaving.{is_gone};

use crate::event::Event;
use crate::lease::Lease;
use crate::turning::go;
use gateway_session::{End, Need, Session};
use link_ends::{Dial, Link};
use reply_texts::RdbName;
use std::alloc::Global;
use std::mem;
use transport_lenders::Lender;
use unit_ledger::Outcome;

/// What a turn did.
#[derive(Clone, Copy, Debug)]
pub enum Step {
    /// It took the event that the session needed.
    Went(Event),
    /// Nothing: the session has ended.
    Ended(End),
}

/// The parts of a run for which there was no memory.
#[derive(Drop)]
pub struct NotMade<A, N, D> {
    pub app: A,
    pub lender: D,
    pub dial: N,
}

/// An application's link whose session has ended. Only `Run::into_parts` makes one.
#[derive(Drop)]
pub struct Done<A: Link> {
    link: A,
    end: End,
}

/// A session with what it holds of a pool, its application's link, its lender and its dial, and room for what is read at once.
#[derive(Drop)]
pub struct Run<A: Link, N: Dial, D: Lender<L = N::L>> {
    session: Session,
    lease: Lease<N::L>,
    app: A,
    lender: D,
    dial: N,
    bytes: Vec<u8>,
    ghost ties: { grip_in session ≡ grip_of lease },
    ghost rest: { rests_in session ≡ true },
    ghost asks: { AsksDial session },
    ghost leaves: { is_gone session ≡ true },
    ghost room: { vec_len bytes ≡ 4096 },
}

impl<A: Link> Done<A> {
    /// The link, as the run left it.
    pub fn link(&self) -> &A
        ensures { result.now ≡ self.now.link }
    {
        &self.link
    }

    /// How the session ended.
    pub fn end(&self) -> &End
        ensures { result.now ≡ self.now.end }
    {
        &self.end
    }
}

impl<A: Link, N: Dial, D: Lender<L = N::L>> Run<A, N, D> {
    ghost use Rattle.std.specs.Prelude.{Bool, IfOk, IfErr};
    ghost use Rattle.reply_texts.specs.RdbName.{characters_of};
    ghost use Rattle.link_ends.specs.Link.{is_none_told};
    ghost use Rattle.gateway_session.specs.declared.need.End.{End as Ending};
    ghost use Rattle.gateway_session.specs.declared.need.Need.TheVariants as Need;
    ghost use Rattle.gateway_session.specs.Session.{new_session, uncounted};
    ghost use Rattle.gateway_session.specs.Memory.{Runs, need_in, outcome_in, without_outcome, to_say_in};
    ghost use Rattle.gateway_server.specs.Events.{input_of, heard_after, taken_after};
    ghost use Rattle.gateway_server.specs.Turned.{Turned, is_done};
    ghost use Rattle.gateway_server.specs.Runs.{Steps};
    ghost use Rattle.gateway_server.specs.Dialling.{counted, Balanced};
    ghost use Rattle.gateway_server.specs.declared.run.Step.TheVariants as Step;

    /// A new session with this number over these ends. Of the link nothing was read, and it took nothing, where it tells that.
    pub fn new(
        alloc: Global,
        id: u32,
        rdb: &RdbName,
        app: A,
        lender: D,
        dial: N,
    ) -> Result<Run<A, N, D>, NotMade<A, N, D>>
        requires unheard { is_none_told (A.state app).heard ≡ true }
        requires untaken { is_none_told (A.state app).taken ≡ true }
        ensures session { IfOk result (λ run. run.session ≡ Runs (uncounted (new_session id (characters_of rdb.now)))) }
        ensures ends { IfOk result (λ run. (run.app ≡ app) × (run.lender ≡ lender) × (run.dial ≡ dial)) }
        ensures parts { IfErr result (λ parts. (parts.app ≡ app) × (parts.lender ≡ lender) × (parts.dial ≡ dial)) }
    {
        let Ok(bytes) = vec![in alloc; 0; 4096] else {
            return Err(NotMade { app, lender, dial });
        };
        let Ok(session) = Session::new(alloc, id, rdb) else {
            return Err(NotMade { app, lender, dial });
        };
        Ok(Run {
            session,
            lease: Lease::Nothing,
            app,
            lender,
            dial,
            bytes,
        })
    }

    /// The session.
    pub fn session(&self) -> &Session
        ensures { result.now ≡ self.now.session }
    {
        &self.session
    }

    /// Takes one step of the session: exactly one call of an end, or none where it has ended.
    pub fn turn(&mut self) -> Step
        ensures step { Steps result (need_in self.old.session) }
        ensures ended { is_done (need_in self.old.session) ≡ true → self.new ≡ self.old }
        ensures went { (e : _) → result ≡ Step.Went e → (m : Bool) × Turned A.state A.reads A.writes N.L.state N.L.reads N.L.writes N.state N.dials D.lends D.gives D.loses D.knows D.learns D.leaves self.old.app self.new.app self.old.dial self.new.dial self.old.lender self.new.lender self.old.lease self.new.lease self.new.bytes.items e m self.old.session self.new.session }
        ensures heard { (e : _) → result ≡ Step.Went e → (A.state self.new.app).heard ≡ heard_after (A.state self.old.app).heard (input_of self.new.bytes.items e) }
        ensures taken { (e : _) → result ≡ Step.Went e → (A.state self.new.app).taken ≡ taken_after (A.state self.old.app).taken (input_of self.new.bytes.items e) (to_say_in self.old.session) }
        ensures balance { Balanced (counted (N.state self.old.dial).calls (D.dials self.old.lender)) (counted (N.state self.new.dial).calls (D.dials self.new.lender)) self.old.session self.new.session }
    {
        if let Need::Done(end) = self.session.need() {
            return Step::Ended(end);
        }
        Step::Went(self.go())
    }

    /// The same, of a session that needs something.
    fn go(&mut self) -> Event
        requires { is_done (need_in self.old.session) ≡ false }
        ensures went { (m : Bool) × Turned A.state A.reads A.writes N.L.state N.L.reads N.L.writes N.state N.dials D.lends D.gives D.loses D.knows D.learns D.leaves self.old.app self.new.app self.old.dial self.new.dial self.old.lender self.new.lender self.old.lease self.new.lease self.new.bytes.items result m self.old.session self.new.session }
        ensures heard { (A.state self.new.app).heard ≡ heard_after (A.state self.old.app).heard (input_of self.new.bytes.items result) }
        ensures taken { (A.state self.new.app).taken ≡ taken_after (A.state self.old.app).taken (input_of self.new.bytes.items result) (to_say_in self.old.session) }
        ensures balance { Balanced (counted (N.state self.old.dial).calls (D.dials self.old.lender)) (counted (N.state self.new.dial).calls (D.dials self.new.lender)) self.old.session self.new.session }
    {
        let Run {
            session,
            lease,
            app,
            lender,
            dial,
            bytes,
        } = self;
        let was = mem::replace(lease, Lease::Nothing);
        let (event, now) = go(session, was, app, lender, dial, bytes.as_mut_slice());
        *lease = now;
        event
    }

    /// What was told last of the end of a unit of work, if that wasn't asked for.
    pub fn outcome(&mut self) -> Option<Outcome>
        ensures outcome { result ≡ outcome_in self.old.session }
        ensures session { self.new.session ≡ without_outcome self.old.session }
        ensures ends { (self.new.app ≡ self.old.app) × (self.new.lender ≡ self.old.lender) × (self.new.dial ≡ self.old.dial) × (self.new.lease ≡ self.old.lease) }
    {
        self.session.outcome()
    }

    /// The parts of a run whose session has ended.
    pub fn into_parts(self) -> (Done<A>, D, N)
        requires { is_done (need_in self.session) ≡ true }
        ensures done { (result.0.link ≡ self.app) × (Need.Done result.0.end ≡ need_in self.session) }
        ensures ends { (result.1 ≡ self.lender) × (result.2 ≡ self.dial) }
    {
        let Run {
            session,
            lease: _,
            app,
            lender,
            dial,
            bytes: _,
        } = self;
        match session.need() {
            Need::Done(end) => (Done { link: app, end }, lender, dial),
            _ => unreachable!(),
        }
    }
}

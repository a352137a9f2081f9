//! A run turned until its session has ended.
ghost use Rattle.std.specs.Prelude.{◌≡◌};
ghost use Rattle.gateway_session.specs.declared.need.Need.TheVariants as Need;
ghost use Rattle.gateway_session.specs.Memory.{need_in};
ghost use Rattle.gateway_server.specs.Events.{input_of};
ghost use Rattle.gateway_server.specs.Turned.{Turned};
ghost use Rattle.gateway_server.specs.Lasting.{IsUnused};
ghost use Rattle.gateway_server.specs.Served.{IsNew, Served, DialsAsLent};

use crate::run::{Run, Step};
use gateway_session::End;
use link_ends::{Dial, Link};
use std::sync::Wait;
use transport_lenders::Lender;

/// Turns a new run, of whose application's link nothing was read and which took nothing, until its session has ended, and answers how
/// it ended. What was said to the application is the front of what the session was to say: all of it where the link gave nothing more,
/// and behind it RSCLMTRM (DDM, volume 3) where memory was wanting. The dial is called as often as the lender answers Dial, unless
/// memory is wanting. The handle is for the loop, which has no bound: its return isn't promised, since a peer may keep still.
pub fn serve_session<R: Wait, A: Link, N: Dial, D: Lender<L = N::L>>(
    rt: &R,
    run: &mut Run<A, N, D>,
) -> End
    requires new { IsNew run.old.session }
    requires unused { IsUnused (A.state run.old.app) }
    ensures done { need_in run.new.session ≡ Need.Done result }
    ensures served { Served (λ r fed t. (e : _) × (fed.input ≡ input_of t.bytes.items e) × Turned A.state A.reads A.writes N.L.state N.L.reads N.L.writes N.state N.dials D.lends D.gives D.loses D.knows D.learns D.leaves r.app t.app r.dial t.dial r.lender t.lender r.lease t.lease t.bytes.items e fed.memory r.session t.session) (λ r. r.session) (λ r. A.state r.app) result run.old run.new }
    ensures dials { DialsAsLent result (N.state run.old.dial).calls (N.state run.new.dial).calls (D.dials run.old.lender) (D.dials run.new.lender) }
{
    for _ in rt.forever() {
        match run.turn() {
            Step::Went(_) => (),
            Step::Ended(end) => return end,
        }
    }
    unreachable!()
}

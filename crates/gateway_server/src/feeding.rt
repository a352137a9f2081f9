//! The inputs of a session. Each answers whether the session found its memory.
ghost use Rattle.std.specs.Prelude.{◌≡◌, ◌≤◌, ◌≢◌, None, true, false, length};
ghost use Rattle.gateway_session.specs.declared.need.Need.TheVariants.{App, Lend, Dial, Send, Back, Give, Say};
ghost use Rattle.gateway_session.specs.Members.{LendsMember};
ghost use Rattle.gateway_session.specs.Memory.{need_in, to_send_in, to_say_in, held_in};
ghost use Rattle.gateway_session.specs.Inputs as Input;
ghost use Rattle.gateway_server.specs.Feeding.{after_feeding};
ghost use Rattle.gateway_server.specs.Dialling.{AfterLend};
ghost use Rattle.gateway_server.specs.Leases.{Follows, grip_in, grip_lent, dialled_grip, rests_in, Free};

use gateway_session::{Lent, LossWhy, Session};

/// A piece came of the application.
pub(crate) fn feed_app(session: &mut Session, piece: &[u8]) -> bool
    requires need { need_in session.old ≡ App }
    requires rests { rests_in session.old ≡ true }
    ensures session { session.new ≡ after_feeding result (Input.App piece.now) session.old }
    ensures grip { Follows (grip_in session.new) (grip_in session.old) }
    ensures rests { rests_in session.new ≡ true }
{
    session.on_app(piece).is_ok()
}

/// The application's link gave or took nothing more, or failed.
pub(crate) fn feed_end(session: &mut Session, failed: bool) -> bool
    requires rests { rests_in session.old ≡ true }
    ensures session { session.new ≡ after_feeding result (Input.AppEnd failed) session.old }
    ensures grip { Follows (grip_in session.new) (grip_in session.old) }
    ensures rests { rests_in session.new ≡ true }
    ensures memory { result ≡ true }
{
    session.on_app_end(failed);
    true
}

/// The pool answered.
pub(crate) fn feed_lend(session: &mut Session, lent: Lent) -> bool
    requires need { need_in session.old ≡ Lend }
    requires member { LendsMember lent }
    requires rests { rests_in session.old ≡ true }
    ensures session { session.new ≡ after_feeding result (Input.Lend lent) session.old }
    ensures grip { Follows (grip_in session.new) (grip_lent lent) }
    ensures rests { rests_in session.new ≡ true }
    ensures lent { AfterLend lent session.new }
{
    session.on_lend(lent).is_ok()
}

/// The transport was dialled, or couldn't be.
pub(crate) fn feed_dialled(session: &mut Session, reached: bool) -> bool
    requires need { need_in session.old ≡ Dial }
    requires rests { rests_in session.old ≡ true }
    ensures session { session.new ≡ after_feeding result (Input.Dialled reached) session.old }
    ensures reached { reached ≡ true → Follows (grip_in session.new) (dialled_grip (grip_in session.old)) }
    ensures missed { reached ≡ false → grip_in session.new ≡ Free }
    ensures rests { rests_in session.new ≡ true }
{
    session.on_dialled(reached).is_ok()
}

/// So many bytes were sent to the member.
pub(crate) fn feed_sent(session: &mut Session, n: usize) -> bool
    requires need { need_in session.old ≡ Send }
    requires size { n ≤ length (to_send_in session.old) }
    requires rests { rests_in session.old ≡ true }
    ensures session { session.new ≡ after_feeding result (Input.Sent n) session.old }
    ensures grip { Follows (grip_in session.new) (grip_in session.old) }
    ensures rests { rests_in session.new ≡ true }
{
    session.on_sent(n).is_ok()
}

/// A piece came of the member.
pub(crate) fn feed_back(session: &mut Session, piece: &[u8]) -> bool
    requires need { need_in session.old ≡ Back }
    requires rests { rests_in session.old ≡ true }
    ensures session { session.new ≡ after_feeding result (Input.Back piece.now) session.old }
    ensures grip { Follows (grip_in session.new) (grip_in session.old) }
    ensures rests { rests_in session.new ≡ true }
{
    session.on_back(piece).is_ok()
}

/// The transport was given back.
pub(crate) fn feed_given(session: &mut Session) -> bool
    requires need { need_in session.old ≡ Give }
    ensures session { session.new ≡ after_feeding result Input.Given session.old }
    ensures grip { grip_in session.new ≡ Free }
    ensures rests { rests_in session.new ≡ true }
{
    session.on_given().is_ok()
}

/// So many bytes were said to the application.
pub(crate) fn feed_said(session: &mut Session, n: usize) -> bool
    requires need { need_in session.old ≡ Say }
    requires size { n ≤ length (to_say_in session.old) }
    requires rests { rests_in session.old ≡ true }
    ensures session { session.new ≡ after_feeding result (Input.Said n) session.old }
    ensures grip { Follows (grip_in session.new) (grip_in session.old) }
    ensures rests { rests_in session.new ≡ true }
{
    session.on_said(n).is_ok()
}

/// The link of the transport failed.
pub(crate) fn feed_fault(session: &mut Session) -> bool
    requires held { held_in session.old ≢ None }
    requires rests { rests_in session.old ≡ true }
    ensures session { session.new ≡ after_feeding result (Input.Lose LossWhy.Fault) session.old }
    ensures grip { grip_in session.new ≡ Free }
    ensures rests { rests_in session.new ≡ true }
{
    session.on_lost(LossWhy::Fault).is_ok()
}

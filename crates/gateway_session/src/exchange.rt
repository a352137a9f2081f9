ghost use Rattle.std.specs.Prelude.{◌≡◌, ◌≤◌, length, IfOk, OnOk};
ghost use Rattle.gateway_session.specs.Session.{sending_by_talk};
ghost use Rattle.gateway_session.specs.Steps.{sent_of, sends_segment, got_by_talk, talked_by};

use crate::held::Held;
use link_ends::NoMemory;
use requester_core::Got;

/// So many bytes were sent on the conversation of this transport: whether they are of the segment in work.
pub(crate) fn send_on(held: &mut Held, n: usize) -> Result<bool, NoMemory>
    requires { n ≤ length (sending_by_talk held.old.talk) }
    ensures segment { IfOk result (λ in_segment. in_segment ≡ sends_segment (sent_of n held.old.talk)) }
    ensures talk { OnOk result (held.new ≡ record held.old { talk = sent_of n held.old.talk }) }
    ensures member { held.new.member ≡ held.old.member }
{
    let Some(talk) = &mut held.talk else {
        return Ok(false);
    };
    talk.on_sent(n)?;
    Ok(talk.in_segment())
}

/// What a piece comes to on the conversation of this transport.
pub(crate) fn read_on(held: &mut Held, piece: &[u8]) -> Result<Option<Got>, NoMemory>
    ensures got { IfOk result (λ got. got ≡ got_by_talk piece.now held.old.talk) }
    ensures talk { OnOk result (held.new ≡ record held.old { talk = talked_by piece.now held.old.talk }) }
    ensures member { held.new.member ≡ held.old.member }
{
    let Some(talk) = &mut held.talk else {
        return Ok(None);
    };
    Ok(Some(talk.on_back(piece)?))
}

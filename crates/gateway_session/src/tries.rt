ghost use Rattle.std.specs.Prelude.{◌≡◌, if◌then◌else◌};
ghost use Rattle.gateway_session.specs.Session.{no_tries};
ghost use Rattle.gateway_session.specs.Steps.{is_tried_at_once, tried_once};
ghost use Rattle.gateway_session.specs.Members.{IsMember};

use crate::held::Tries;
use crate::loss::LossWhy;
use server_list::Tried;

/// Nothing was tried.
pub(crate) fn no_tries() -> Tries
    ensures { result ≡ no_tries }
{
    Tries {
        tried: Tried::none(),
        fresh: false,
    }
}

/// Whether a member is tried at once whose transport is lost so.
fn is_tried_at_once(why: LossWhy) -> bool
    ensures { result ≡ is_tried_at_once why }
{
    matches!(why, LossWhy::Dial | LossWhy::Refused)
}

/// What was tried when a transport of this member is lost so: while no segment is in work nothing is tried.
pub(crate) fn tries_after(in_work: bool, why: LossWhy, member: u32, tries: Tries) -> Tries
    requires { IsMember member }
    ensures { result ≡ (if in_work then tried_once (is_tried_at_once why) member tries else tries) }
{
    if in_work {
        tried_once(is_tried_at_once(why), member, tries)
    } else {
        tries
    }
}

/// The same of a segment in work. Of the losses for other causes the first adds no member: it only asks for
/// a fresh dial.
fn tried_once(at_once: bool, member: u32, tries: Tries) -> Tries
    requires { IsMember member }
    ensures { result ≡ tried_once at_once member tries }
{
    if at_once || tries.fresh {
        return Tries {
            tried: tries.tried.with(member),
            fresh: tries.fresh,
        };
    }
    Tries {
        tried: tries.tried,
        fresh: true,
    }
}

ghost use Rattle.std.specs.Prelude.{◌≡◌};
ghost use Rattle.std.specs.List.{list_any};
ghost use Rattle.unit_segments.specs.Strip.{tells_error};
ghost use Rattle.member_core.specs.ChainRun.{stops_after};

use dss_frame::DssList;
use unit_segments::{Command, tells_error};

/// Whether the rest of a chain isn't run after a command with these replies.
pub(crate) fn stops_after(command: &Command, replies: &DssList) -> bool
    ensures { result ≡ stops_after command.now replies.now }
{
    !command.go_on && tell_error(replies)
}

/// Whether one of them tells an error.
fn tell_error(replies: &DssList) -> bool
    ensures { result ≡ list_any tells_error replies.now }
{
    replies.as_slice().iter().any(|reply| tells_error(reply))
}

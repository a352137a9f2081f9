ghost use Rattle.std.specs.Prelude.{◌≡◌, ◌≤◌, length};
ghost use Rattle.unit_segments.specs.Limit.{most_reply_bytes};
ghost use Rattle.session_core.specs.Size.{spelled_size, room_behind};

use dss_frame::Dss;

/// How many bytes of a body the first segment of a DSS has at most.
const FIRST_ROOM: usize = 32_761;

/// How many a further segment has.
const FURTHER_ROOM: usize = 32_765;

/// How much room is left behind replies as one chain; None exactly where they don't fit.
pub(crate) fn room_behind(room: usize, replies: &[Dss]) -> Option<usize>
    requires { room ≤ most_reply_bytes }
    ensures { result ≡ room_behind room replies.now }
{
    let mut room = room;
    let mut left = replies;
    while let Some((reply, rest)) = left.split_first() {
        let bytes = reply.body.len();
        if bytes > room || spelled_size(bytes) > room {
            return None;
        }
        room -= spelled_size(bytes);
        left = rest;
    }
    Some(room)
}

/// How many bytes the canonical spelling of a DSS has whose body has so many (DRDA, volume 3, DSS).
fn spelled_size(bytes: usize) -> usize
    requires { bytes ≤ most_reply_bytes }
    ensures { result ≡ spelled_size bytes }
{
    let behind = bytes.saturating_sub(FIRST_ROOM);
    bytes + 6 + 2 * ((behind + (FURTHER_ROOM - 1)) / FURTHER_ROOM)
}

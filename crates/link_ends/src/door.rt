ghost use Rattle.std.specs.Prelude.{◌≡◌, IfOk};
ghost use Rattle.link_ends.specs.Link.{IsFresh};
ghost use Rattle.link_ends.specs.Doors.{DoorState, after_taking, after_back};

use crate::link::Link;
use crate::source::Failed;

/// What gives the applications' links, and takes back what came of them.
pub trait Door {
    type L: Link;

    /// What a link comes back as once it was served.
    type Back;

    /// How many links it gave, how many of its calls have failed, and what came back, where it tells that. Each count rises by
    /// one, and stands still at the greatest value of a u64.
    ghost state: { Self → DoorState Self.Back };

    /// The next application's link.
    fn take(&mut self) -> Result<Self::L, Failed>
        ensures state { state self.new ≡ after_taking result (state self.old) }
        ensures fresh { IfOk result (λ link. IsFresh (Self.L.state link)) };

    /// Takes back what came of a link.
    fn back(&mut self, done: Self::Back)
        ensures { state self.new ≡ after_back done (state self.old) };
}

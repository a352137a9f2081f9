ghost use Rattle.std.specs.Prelude.{◌≡◌, ℕ, Result, IfOk};
ghost use Rattle.link_ends.specs.declared.source.Failed.{Failed};
ghost use Rattle.link_ends.specs.Link.{IsFresh};
ghost use Rattle.link_ends.specs.Doors.{DialState, after_dial};

use crate::link::Link;
use crate::source::Failed;

/// What makes connections to the members of a group.
pub trait Dial {
    type L: Link;

    /// How often it was called, and how many of its calls have failed. Each count rises by one, and stands still at the greatest
    /// value of a u64.
    ghost state: { Self → DialState };

    /// That a dial to this member was made and answered so, with the dial as it is then. Only a dial gives it.
    ghost dials: { Self → ℕ → Result Self.L Failed → Self → Type 0 };

    /// A new link to the member of this number.
    fn dial(&mut self, member: u32) -> Result<Self::L, Failed>
        ensures state { state self.new ≡ after_dial result (state self.old) }
        ensures fresh { IfOk result (λ link. IsFresh (Self.L.state link)) }
        ensures call { dials self.old member result self.new };
}

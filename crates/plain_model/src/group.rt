ghost use Rattle.std.specs.Prelude.{◌≡◌, IfOk, OnOk, OnErr};
ghost use Rattle.plain_model.specs.Standing.{Standing};
ghost use Rattle.plain_model.specs.Group.{Meaning, Laws};

use dss_frame::DssList;
use link_ends::NoMemory;
use unit_segments::Command;

/// Members that share data. Its value is the data; what a command does to them and to the unit of a conversation, and what
/// it is answered, is said by its meaning, and the laws hold of that. DRDA, volume 1, units of work.
pub trait Group {
    /// What a conversation has of its own: its access, its open unit of work, its registers. It can be let go of at any time.
    type Unit: Drop;

    /// What each command does and is answered.
    ghost meaning: { Meaning Self Self.Unit };

    /// Which values are the group's: of the data, of a unit, and of a unit whose session stands so.
    ghost is_shared: { Self → Type 0 };

    ghost is_unit: { Self.Unit → Type 0 };

    ghost stands: { Standing → Self.Unit → Type 0 };

    /// The unit of a conversation in which nothing was said.
    fn fresh(&self) -> Result<Self::Unit, NoMemory>
        ensures { IfOk result (λ unit. unit ≡ meaning.fresh) };

    /// Runs one command, and answers it: the replies aren't empty, and have its correlation number. After want of memory the
    /// data are as before, and the unit isn't used again.
    fn exec(&mut self, unit: &mut Self::Unit, command: &Command) -> Result<DssList, NoMemory>
        ensures replies { IfOk result (λ replies. replies ≡ meaning.replies self.old unit.old command.now) }
        ensures shared { OnOk result (self.new ≡ meaning.data_after self.old unit.old command.now) }
        ensures unit { OnOk result (unit.new ≡ meaning.unit_after self.old unit.old command.now) }
        ensures no_memory { OnErr result (self.new ≡ self.old) };

    ghost laws: { Laws meaning (record { shared = is_shared; unit = is_unit; stands = stands }) };
}

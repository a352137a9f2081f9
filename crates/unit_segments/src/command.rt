ghost use Rattle.std.specs.Prelude.{◌≡◌, ◌≤◌, length};
ghost use Rattle.unit_segments.specs.Limit.{most_commands};

use link_ends::{Octets, OctetsList, Sequence};
use std::marker::Model;

/// A command of a chain: a request DSS and the object DSSs that follow it (DRDA, volume 3, RQSDSS and OBJDSS).
#[derive(Debug, Drop)]
pub struct Command {
    /// The code point of the object that its request DSS has.
    pub code: u16,
    /// The correlation number of its DSSs.
    pub corr: u16,
    /// Whether the chain goes on after an error in this command: the bit of its last DSS.
    pub go_on: bool,
    /// The place of its request DSS in its stream, in bytes from 0.
    pub at: u64,
    /// The body of its request DSS, which is one object.
    pub body: Octets,
    /// The bodies of its object DSSs, in order. They aren't looked into.
    pub objects: OctetsList,
}

/// A list of commands.
pub type CommandList = Sequence<Command>;

/// The commands of one chain, in order.
#[derive(Debug, Drop)]
pub struct Chain {
    pub(crate) commands: CommandList,
}

impl Model for Chain {
    ghost use Rattle.std.specs.Prelude.{◌≤◌, List, length};
    ghost use Rattle.unit_segments.specs.Limit.{most_commands};
    ghost use Rattle.unit_segments.specs.declared.command.Command.{Command};

    ghost Value = { List Command };

    ghost view = { λ c. c.commands };

    ghost invariant = { λ c. length c.commands ≤ most_commands };
}

impl Chain {
    /// Its commands, in order.
    pub fn commands(&self) -> &CommandList
        ensures commands { result.now ≡ self.now }
        ensures size { length result.now ≤ most_commands }
    {
        &self.commands
    }
}

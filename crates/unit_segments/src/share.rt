ghost use Rattle.std.specs.Prelude.{◌≡◌, IfOk};

use crate::command::Command;
use link_ends::{NoMemory, Octets, Sequence};
use std::alloc::Global;

/// The same bytes. A long list of them is shared.
pub(crate) fn share(octets: &Octets) -> Result<Octets, NoMemory>
    ensures { IfOk result (λ shared. shared ≡ octets.now) }
{
    octets.part(0, octets.len())
}

/// The same command. Its long bodies are shared.
pub fn share_command(alloc: Global, command: &Command) -> Result<Command, NoMemory>
    ensures { IfOk result (λ shared. shared ≡ command.now) }
{
    let mut objects = Sequence::new(alloc);
    for octets in command.objects.as_slice() {
        objects.push(share(octets)?)?;
    }
    Ok(Command {
        code: command.code,
        corr: command.corr,
        go_on: command.go_on,
        at: command.at,
        body: share(&command.body)?,
        objects,
    })
}

ghost use Rattle.std.specs.Prelude.{◌≡◌, ◌++◌, IfOk, OnOk};
ghost use Rattle.std.specs.List.{flat_map};
ghost use Rattle.dss_frame.specs.Dss.{canonical};
ghost use Rattle.unit_segments.specs.Spelling.{chain_bytes, command_dss, command_dsss};

use crate::command::{Command, CommandList};
use crate::share::share;
use dss_frame::{Dss, Kind, write_dss};
use link_ends::{NoMemory, Octets};
use std::alloc::Global;

/// The commands as one chain, in canonical bytes, with their own correlation numbers: each DSS but the last is chained, each
/// but the last of its command says that the next one has the same number, and the last one of a command that isn't the
/// last says whether the chain goes on after an error.
pub fn write_chain(alloc: Global, commands: &CommandList) -> Result<Octets, NoMemory>
    ensures { IfOk result (λ bytes. bytes ≡ chain_bytes commands.now) }
{
    let mut out = Octets::new(alloc);
    let mut left = commands.as_slice();
    while let Some((command, rest)) = left.split_first() {
        put_command(&mut out, command, !rest.is_empty())?;
        left = rest;
    }
    Ok(out)
}

/// Appends the DSSs of a command, which others follow or don't.
fn put_command(out: &mut Octets, command: &Command, followed: bool) -> Result<(), NoMemory>
    ensures { OnOk result (out.new ≡ out.old ++ flat_map canonical (command_dsss followed command.now)) }
{
    let mut left = command.objects.as_slice();
    put_dss(
        out,
        Kind::Request,
        command,
        followed,
        left.is_empty(),
        &command.body,
    )?;
    while let Some((body, rest)) = left.split_first() {
        put_dss(out, Kind::Object, command, followed, rest.is_empty(), body)?;
        left = rest;
    }
    Ok(())
}

/// Appends one DSS of a command: the last one where it ends the command.
fn put_dss(
    out: &mut Octets,
    kind: Kind,
    command: &Command,
    followed: bool,
    ends: bool,
    body: &Octets,
) -> Result<(), NoMemory>
    ensures { OnOk result (out.new ≡ out.old ++ canonical (command_dss kind command.now followed ends body.now)) }
{
    let dss = Dss {
        kind,
        chained: !ends || followed,
        same: !ends,
        go_on: ends && followed && command.go_on,
        corr: command.corr,
        body: share(body)?,
    };
    write_dss(&dss, out)
}

ghost use Rattle.std.specs.Prelude.{◌≡◌, ◌++◌, IfOk, OnOk};
ghost use Rattle.std.specs.List.{flat_map};
ghost use Rattle.dss_frame.specs.Dss.{canonical};
ghost use Rattle.unit_segments.specs.Spelling.{command_dss};
ghost use Rattle.script_commands.specs.Commands.{command_bytes};

use dss_frame::{Dss, Kind, write_dss};
use link_ends::{NoMemory, Octets};
use std::alloc::Global;
use unit_segments::Command;

/// The bytes of a command, which others of its chain follow or don't. DRDA, volume 3, DSS: chaining.
#[tactic(auto, unfolding(crate::specs::Commands::command_bytes))]
pub fn write_command(alloc: Global, command: &Command, followed: bool) -> Result<Octets, NoMemory>
    ensures { IfOk result (λ bytes. bytes ≡ command_bytes followed command.now) }
{
    let mut out = Octets::new(alloc);
    let mut left = command.objects.as_slice();
    let ends = left.is_empty();
    put_dss(
        alloc,
        &mut out,
        Kind::Request,
        command,
        followed,
        ends,
        &command.body,
    )?;
    while let Some((body, rest)) = left.split_first() {
        put_dss(
            alloc,
            &mut out,
            Kind::Object,
            command,
            followed,
            rest.is_empty(),
            body,
        )?;
        left = rest;
    }
    Ok(out)
}

/// Appends one DSS of a command: the last one where it ends the command.
fn put_dss(
    alloc: Global,
    out: &mut Octets,
    kind: Kind,
    command: &Command,
    followed: bool,
    ends: bool,
    body: &Octets,
) -> Result<(), NoMemory>
    ensures { OnOk result (out.new ≡ out.old ++ canonical (command_dss kind command.now followed ends body.now)) }
{
    let dss = Dss {
        kind,
        chained: !ends || followed,
        same: !ends,
        go_on: ends && followed && command.go_on,
        corr: command.corr,
        body: Octets::of(alloc, body.as_slice())?,
    };
    write_dss(&dss, out)
}

ghost use Rattle.std.specs.Prelude.{◌≡◌, ◌≤◌, ◌+◌, ◌++◌, [], ◌∷◌, length, option_copied, map, IfOk, OnOk};
ghost use Rattle.ddm_codepoints.specs.CodePoint.{accsec, secchk, accrdb};
ghost use Rattle.reply_texts.specs.RdbName.{characters_of};
ghost use Rattle.access_handshake.specs.Access.{accsec_object};
ghost use Rattle.unit_segments.specs.Limit.{most_commands};
ghost use Rattle.unit_segments.specs.Spelling.{numbered, chain_bytes};
ghost use Rattle.unit_segments.specs.Handshake.{own_command, access_commands, register_commands, replayed, without_go_on};
ghost use Rattle.requester_core.specs.Replay.{given, replay_bytes};

use access_handshake::{Access, Stage, accsec_command};
use ddm_codepoints::code_point::{ACCRDB, ACCSEC, SECCHK};
use link_ends::{NoMemory, Octets, Sequence};
use reply_texts::RdbName;
use std::alloc::Global;
use unit_segments::{Command, CommandList, RegisterLog, share_command, write_chain};

/// The one canonical chain that leads a conversation to this stage: ACCSEC, SECCHK, ACCRDB and one EXCSQLSET of the registers, as
/// far as the stage has them, numbered from 1 (DDM, volume 3; DRDA, volume 3, EXCSQLSET). At a stage before the mechanism is
/// chosen there is nothing to send. Of access that isn't given the objects are empty.
pub fn replay_chain(
    alloc: Global,
    rdb: &RdbName,
    stage: Stage,
    secmec: u16,
    access: Option<&Access>,
    registers: &RegisterLog,
) -> Result<Octets, NoMemory>
    ensures { IfOk result (λ bytes. bytes ≡ replay_bytes (characters_of rdb.now) stage secmec (option_copied access.entry) registers.now) }
{
    let commands = replayed(alloc, rdb, stage, secmec, access, registers)?;
    write_chain(alloc, &numbered(alloc, commands.as_slice())?)
}

/// The commands that lead a conversation to this stage, each with number 1.
pub(crate) fn replayed(
    alloc: Global,
    rdb: &RdbName,
    stage: Stage,
    secmec: u16,
    access: Option<&Access>,
    registers: &RegisterLog,
) -> Result<CommandList, NoMemory>
    ensures commands { IfOk result (λ commands. commands ≡ replayed (characters_of rdb.now) stage (given secmec (option_copied access.entry)) registers.now) }
    ensures few { IfOk result (λ commands. length commands ≤ 4) }
{
    let mut commands = Sequence::new(alloc);
    put_access(alloc, rdb, stage, secmec, access, &mut commands)?;
    if matches!(stage, Stage::Accessed) && registers.len() > 0 {
        commands.push(registers.command()?)?;
    }
    Ok(commands)
}

/// Appends the commands of access that the stage has.
fn put_access(
    alloc: Global,
    rdb: &RdbName,
    stage: Stage,
    secmec: u16,
    access: Option<&Access>,
    commands: &mut CommandList,
) -> Result<(), NoMemory>
    ensures { OnOk result (commands.new ≡ commands.old ++ access_commands (characters_of rdb.now) stage (given secmec (option_copied access.entry))) }
{
    if matches!(stage, Stage::New | Stage::Attached) {
        return Ok(());
    }
    commands.push(own_command(
        alloc,
        ACCSEC,
        accsec_command(alloc, secmec, rdb.as_slice())?,
    ))?;
    if matches!(stage, Stage::Chosen) {
        return Ok(());
    }
    commands.push(own_command(alloc, SECCHK, secchk_of(alloc, access)?))?;
    if matches!(stage, Stage::Checked) {
        return Ok(());
    }
    commands.push(own_command(alloc, ACCRDB, accrdb_of(alloc, access)?))
}

/// The SECCHK object that was given, empty where none was.
fn secchk_of(alloc: Global, access: Option<&Access>) -> Result<Octets, NoMemory>
    ensures { IfOk result (λ object. object ≡ (given 0 (option_copied access.entry)).secchk) }
{
    match access {
        Some(access) => access.secchk.part(0, access.secchk.len()),
        None => Ok(Octets::new(alloc)),
    }
}

/// The ACCRDB object that was given, empty where none was.
fn accrdb_of(alloc: Global, access: Option<&Access>) -> Result<Octets, NoMemory>
    ensures { IfOk result (λ object. object ≡ (given 0 (option_copied access.entry)).accrdb) }
{
    match access {
        Some(access) => access.accrdb.part(0, access.accrdb.len()),
        None => Ok(Octets::new(alloc)),
    }
}

/// A command of the gateway's own, without objects.
pub(crate) fn own_command(alloc: Global, code: u16, body: Octets) -> Command
    ensures { result ≡ own_command code body }
{
    Command {
        code,
        corr: 1,
        go_on: false,
        at: 0,
        body,
        objects: Sequence::new(alloc),
    }
}

/// The same commands, numbered from 1.
pub(crate) fn numbered(alloc: Global, commands: &[Command]) -> Result<CommandList, NoMemory>
    requires { length commands.now ≤ most_commands }
    ensures { IfOk result (λ numbered_now. numbered_now ≡ numbered 1 commands.now) }
{
    let mut all = Sequence::new(alloc);
    let mut number = 1;
    let mut left = commands;
    while let Some((command, rest)) = left.split_first() {
        let mut shared = share_command(alloc, command)?;
        shared.corr = number;
        all.push(shared)?;
        number += 1;
        left = rest;
    }
    Ok(all)
}

/// The same commands, numbered from 1, none of which says that its chain goes on after an error.
pub(crate) fn stopping(alloc: Global, commands: &[Command]) -> Result<CommandList, NoMemory>
    requires { length commands.now ≤ most_commands }
    ensures { IfOk result (λ stopping. stopping ≡ numbered 1 (map without_go_on commands.now)) }
{
    let mut all = Sequence::new(alloc);
    let mut number = 1;
    let mut left = commands;
    while let Some((command, rest)) = left.split_first() {
        let mut shared = share_command(alloc, command)?;
        shared.corr = number;
        shared.go_on = false;
        all.push(shared)?;
        number += 1;
        left = rest;
    }
    Ok(all)
}

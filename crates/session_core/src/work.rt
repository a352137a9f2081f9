ghost use Rattle.std.specs.Prelude.{◌≡◌, ◌++◌, if◌then◌else◌, IfOk, OnOk};
ghost use Rattle.unit_segments.specs.Segment.{goes_on_a_run};
ghost use Rattle.plain_model.specs.Answered.{fit, is_work, limit_of};
ghost use Rattle.plain_model.specs.Core.{has_commit};
ghost use Rattle.session_core.specs.Seen.{seen_kind};

use crate::end::LimitKind;
use ddm_codepoints::code_point::RDBCMM;
use ddm_codepoints::{CodeClass, class};
use dss_frame::{Dss, DssList};
use link_ends::{NoMemory, Sequence};
use std::alloc::Global;
use unit_segments::{Command, CommandList, RegisterFault, share_command, write_chain};

/// How many commands a session keeps to run again.
const MOST_AGAIN: usize = 64;

/// How many bytes they have at most, in one chain.
const MOST_AGAIN_BYTES: usize = 262_144;

/// Whether one of these commands is RDBCMM (DDM, volume 3, RDBCMM).
pub(crate) fn has_commit(commands: &[Command]) -> bool
    ensures { result ≡ has_commit commands.now }
{
    let mut left = commands;
    while let Some((command, rest)) = left.split_first() {
        if command.code == RDBCMM {
            return true;
        }
        left = rest;
    }
    false
}

/// Whether a segment is commands of a unit of work, and not one of access.
pub(crate) fn is_work(segment: &[Command]) -> bool
    ensures { result ≡ is_work segment.now }
{
    match segment.first() {
        Some(command) => matches!(class(command.code), CodeClass::Pass | CodeClass::UnitEnd),
        None => false,
    }
}

/// The commands that run again with these behind them, unless they are too many or have too many bytes.
pub(crate) fn grown_again(
    alloc: Global,
    again: &CommandList,
    segment: &[Command],
) -> Result<Option<CommandList>, NoMemory>
    ensures grown { IfOk result (λ grown. grown ≡ (if fit (again.now ++ segment.now) then Some (again.now ++ segment.now) else None)) }
{
    if again.len() > MOST_AGAIN || segment.len() > MOST_AGAIN - again.len() {
        return Ok(None);
    }
    let grown = joined(alloc, again.as_slice(), segment)?;
    if write_chain(alloc, &grown)?.len() > MOST_AGAIN_BYTES {
        return Ok(None);
    }
    Ok(Some(grown))
}

/// These commands, and then those. Their long bodies are shared.
fn joined(alloc: Global, commands: &[Command], others: &[Command]) -> Result<CommandList, NoMemory>
    ensures { IfOk result (λ all. all ≡ commands.now ++ others.now) }
{
    let mut all = Sequence::new(alloc);
    for command in commands {
        all.push(share_command(alloc, command)?)?;
    }
    for command in others {
        all.push(share_command(alloc, command)?)?;
    }
    Ok(all)
}

/// Appends replies. Their long bodies are shared.
pub(crate) fn append(replies: &[Dss], kept: &mut DssList) -> Result<(), NoMemory>
    ensures { OnOk result (kept.new ≡ kept.old ++ replies.now) }
{
    for reply in replies {
        kept.push(share_reply(reply)?)?;
    }
    Ok(())
}

/// The same reply. A long body is shared.
fn share_reply(reply: &Dss) -> Result<Dss, NoMemory>
    ensures { IfOk result (λ shared. shared ≡ reply.now) }
{
    Ok(Dss {
        kind: reply.kind,
        chained: reply.chained,
        same: reply.same,
        go_on: reply.go_on,
        corr: reply.corr,
        body: reply.body.part(0, reply.body.len())?,
    })
}

/// The limit that is passed where a register can't be kept.
pub(crate) fn limit_of(fault: RegisterFault) -> LimitKind
    ensures { seen_kind result ≡ limit_of fault }
{
    match fault {
        RegisterFault::TooLong => LimitKind::Set,
        RegisterFault::TooMany | RegisterFault::NoMemory => LimitKind::Registers,
    }
}

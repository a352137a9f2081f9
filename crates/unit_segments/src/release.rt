ghost use Rattle.std.specs.Prelude.{◌≡◌, ◌≤◌, ◌<◌, ◌^◌, map, length, IfOk};
ghost use Rattle.std.specs.List.{AllByRecursion};
ghost use Rattle.unit_segments.specs.Spelling.{numbered};
ghost use Rattle.unit_segments.specs.Release.{asked, asking, asked_bytes, FitsAChain};

use crate::body::{code_of, data_of};
use crate::command::{Command, CommandList};
use crate::rewrite::{Dropped, rewritten};
use crate::segment::{Segment, ends_unit};
use crate::share::share_command;
use crate::write::write_chain;
use ddm_codepoints::class;
use ddm_codepoints::code_point::{RLSCONV, RTNSETSTT};
use ddm_codepoints::value::{RELEASE, RETURN_SETS};
use link_ends::{NoMemory, Octets, Sequence};
use std::alloc::Global;

/// The segment as a member gets it: one canonical chain, numbered from 1, in which a command that ends the unit of work asks
/// for release and for the unit's SET statements (DRDA, volume 3, RLSCONV, RTNSETSTT), behind its own parameters and in the
/// place of an asking of its own. A command's body has at most 16,777,216 bytes, as a chain has.
#[tactic(auto, unfolding(crate::specs::Release::asked_bytes))]
pub fn ask_release(alloc: Global, segment: &Segment) -> Result<Octets, NoMemory>
    requires { AllByRecursion FitsAChain segment.now }
    ensures { IfOk result (λ bytes. bytes ≡ asked_bytes segment.now) }
{
    let commands = asked_commands(alloc, segment)?;
    write_chain(alloc, &commands)
}

/// The commands as a member gets them.
fn asked_commands(alloc: Global, segment: &Segment) -> Result<CommandList, NoMemory>
    requires { AllByRecursion FitsAChain segment.now }
    ensures { IfOk result (λ commands. commands ≡ numbered 1 (map asked segment.now)) }
{
    let mut commands = Sequence::new(alloc);
    let mut number = 1;
    let mut left = segment.commands().as_slice();
    while let Some((command, rest)) = left.split_first() {
        commands.push(asked_command(alloc, command, number)?)?;
        number += 1;
        left = rest;
    }
    Ok(commands)
}

/// A command as a member gets it, with this number.
fn asked_command(alloc: Global, command: &Command, number: u16) -> Result<Command, NoMemory>
    requires { FitsAChain command.now }
    ensures { IfOk result (λ asked_now. asked_now ≡ record (asked command.now) { corr = number }) }
{
    let mut asked = share_command(alloc, command)?;
    asked.corr = number;
    if ends_unit(class(command.code)) {
        let body = command.body.as_slice();
        asked.body = rewritten(
            alloc,
            code_of(body),
            data_of(body),
            Dropped::Asking,
            &asking(),
        )?;
    }
    Ok(asked)
}

/// Two parameters that ask for release and for the SET statements of the unit.
fn asking() -> [u8; 10]
    ensures { result ≡ asking }
{
    let [release_high, release_low] = RLSCONV.to_be_bytes();
    let [sets_high, sets_low] = RTNSETSTT.to_be_bytes();
    [
        0,
        5,
        release_high,
        release_low,
        RELEASE,
        0,
        5,
        sets_high,
        sets_low,
        RETURN_SETS,
    ]
}

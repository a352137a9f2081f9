ghost use Rattle.std.specs.Prelude.{◌≡◌, ◌++◌, ◌≤◌, ◌-◌, ◌<◌, ◌^◌, length, slice_get, option_copied, IfOk, OnOk, Some};
ghost use Rattle.std.specs.List.{flat_map};
ghost use Rattle.ddm_objects.specs.Objects.{outer_of};
ghost use Rattle.fdoca_pass.specs.Triplets.{triplets_of};
ghost use Rattle.drda_trace.specs.Lines.{lines_of, chains_lines, chain_lines, answer_lines, extra_lines, ending_lines, fault_lines, rest_lines};
ghost use Rattle.drda_trace.specs.Lines.{command_lines, object_lines, reply_lines, triplets_lines, description_in, description_lines, code_in};

use crate::answered::numbers_fit;
use crate::ending::Ending;
use crate::line::Line;
use crate::replies::ReplyStream;
use crate::requests::RequestStream;
use ddm_codepoints::code_point::{FDODSC, QRYDSC};
use ddm_objects::{find, outer};
use dss_frame::{Placed, Side};
use fdoca_pass::triplets;
use link_ends::{NoMemory, Octets, Sequence};
use std::alloc::Global;
use unit_segments::{Chain, Command};

/// The lines of what both sides sent.
#[tactic(auto, unfolding(crate::specs::Lines::lines_of))]
pub(crate) fn show(
    alloc: Global,
    requests: &RequestStream,
    replies: &ReplyStream,
) -> Result<Sequence<Line>, NoMemory>
    ensures { IfOk result (λ lines. lines ≡ lines_of requests.now replies.now) }
{
    let mut lines = Sequence::new(alloc);
    push_chains(
        alloc,
        &mut lines,
        requests.chains.as_slice(),
        &replies.chains,
    )?;
    let extra = replies.chains.len().saturating_sub(requests.chains.len());
    push_extra(&mut lines, extra)?;
    push_endings(&mut lines, requests.ending, replies.ending)?;
    Ok(lines)
}

/// The lines of the chains of commands, each with the chain of replies of its number.
fn push_chains(
    alloc: Global,
    lines: &mut Sequence<Line>,
    chains: &[Chain],
    replies: &Sequence<Sequence<Placed>>,
) -> Result<(), NoMemory>
    ensures { OnOk result (lines.new ≡ lines.old ++ chains_lines 1 chains.now replies.now) }
{
    let mut number = 1;
    for chain in chains {
        push_chain(alloc, lines, number, chain, replies)?;
        number += 1;
    }
    Ok(())
}

/// The lines of the chain of commands of this number, from 1, and of its replies.
#[tactic(auto, unfolding(crate::specs::Lines::chain_lines))]
fn push_chain(
    alloc: Global,
    lines: &mut Sequence<Line>,
    number: usize,
    chain: &Chain,
    replies: &Sequence<Sequence<Placed>>,
) -> Result<(), NoMemory>
    requires { 1 ≤ number }
    ensures { OnOk result (lines.new ≡ lines.old ++ chain_lines number chain.now (slice_get replies.now (number - 1))) }
{
    let commands = chain.commands().as_slice();
    lines.push(Line::Chain { number })?;
    push_commands(lines, commands)?;
    match replies.get(number - 1) {
        Some(replies) => push_answer(alloc, lines, number, commands, replies.as_slice()),
        None => lines.push(Line::Unanswered { chain: number }),
    }
}

/// The lines of the replies to a chain of commands.
fn push_answer(
    alloc: Global,
    lines: &mut Sequence<Line>,
    number: usize,
    commands: &[Command],
    replies: &[Placed],
) -> Result<(), NoMemory>
    ensures { OnOk result (lines.new ≡ lines.old ++ answer_lines number commands.now (Some replies.now)) }
{
    push_replies(lines, replies)?;
    if numbers_fit(alloc, commands, replies)? {
        return Ok(());
    }
    lines.push(Line::Number { chain: number })
}

/// The lines of commands.
fn push_commands(lines: &mut Sequence<Line>, commands: &[Command]) -> Result<(), NoMemory>
    ensures { OnOk result (lines.new ≡ lines.old ++ flat_map command_lines commands.now) }
{
    for command in commands {
        push_command(lines, command)?;
    }
    Ok(())
}

/// The lines of a command: of its request DSS and of its object DSSs.
fn push_command(lines: &mut Sequence<Line>, command: &Command) -> Result<(), NoMemory>
    ensures { OnOk result (lines.new ≡ lines.old ++ command_lines command.now) }
{
    lines.push(Line::Request {
        corr: command.corr,
        code: command.code,
        len: command.body.len(),
    })?;
    push_objects(lines, command.corr, command.objects.as_slice())
}

/// The lines of object DSSs with these bodies.
fn push_objects(lines: &mut Sequence<Line>, corr: u16, bodies: &[Octets]) -> Result<(), NoMemory>
    ensures { OnOk result (lines.new ≡ lines.old ++ flat_map (object_lines corr) bodies.now) }
{
    for body in bodies {
        lines.push(Line::Object {
            corr,
            code: code_in(body.as_slice()),
            len: body.len(),
        })?;
        push_description(lines, body.as_slice())?;
    }
    Ok(())
}

/// The lines of DSSs of a server.
fn push_replies(lines: &mut Sequence<Line>, replies: &[Placed]) -> Result<(), NoMemory>
    ensures { OnOk result (lines.new ≡ lines.old ++ flat_map reply_lines replies.now) }
{
    for reply in replies {
        lines.push(Line::Reply {
            corr: reply.dss.corr,
            code: code_in(reply.dss.body.as_slice()),
            len: reply.dss.body.len(),
        })?;
        push_description(lines, reply.dss.body.as_slice())?;
    }
    Ok(())
}

/// The code point of the object that a body is, if it is one.
fn code_in(body: &[u8]) -> Option<u16>
    ensures { result ≡ code_in (outer_of body.now) }
{
    match outer(body) {
        Ok(object) => Some(object.code),
        Err(_) => None,
    }
}

/// The lines of the triplets that a body has.
fn push_description(lines: &mut Sequence<Line>, body: &[u8]) -> Result<(), NoMemory>
    ensures { OnOk result (lines.new ≡ lines.old ++ description_lines (description_in (outer_of body.now))) }
{
    match description(body) {
        Some(bytes) => push_triplets(lines, bytes),
        None => Ok(()),
    }
}

/// The bytes of a body that are triplets: the data of QRYDSC, and those of the first FDODSC among the members of an object.
fn description(body: &[u8]) -> Option<&[u8]>
    ensures { option_copied result ≡ description_in (outer_of body.now) }
{
    let object = outer(body).ok()?;
    if object.code == QRYDSC {
        return Some(object.bytes);
    }
    match find(object.bytes, FDODSC) {
        Ok(Some(member)) => Some(member.bytes),
        _ => None,
    }
}

/// The lines of triplets, and of the fault behind them.
fn push_triplets(lines: &mut Sequence<Line>, bytes: &[u8]) -> Result<(), NoMemory>
    ensures { OnOk result (lines.new ≡ lines.old ++ triplets_lines (triplets_of bytes.now)) }
{
    let mut scan = triplets(bytes);
    while let Some(next) = scan.next() {
        match next {
            Ok(triplet) => lines.push(Line::Triplet {
                len: 2 + triplet.bytes.len(),
                kind: triplet.kind,
            })?,
            Err(_) => return lines.push(Line::TripletFault),
        }
    }
    Ok(())
}

/// The line of chains of replies that belong to no chain of commands, where there are some.
fn push_extra(lines: &mut Sequence<Line>, count: usize) -> Result<(), NoMemory>
    ensures { OnOk result (lines.new ≡ lines.old ++ extra_lines count) }
{
    if count == 0 {
        return Ok(());
    }
    lines.push(Line::Extra { count })
}

/// The lines of how both sides end: their faults, and then their rests.
fn push_endings(
    lines: &mut Sequence<Line>,
    requester: Ending,
    server: Ending,
) -> Result<(), NoMemory>
    ensures { OnOk result (lines.new ≡ lines.old ++ ending_lines requester server) }
{
    push_fault(lines, Side::Requests, requester)?;
    push_fault(lines, Side::Replies, server)?;
    push_rest(lines, Side::Requests, requester)?;
    push_rest(lines, Side::Replies, server)
}

/// The line of a fault, where there is one.
fn push_fault(lines: &mut Sequence<Line>, side: Side, ending: Ending) -> Result<(), NoMemory>
    ensures { OnOk result (lines.new ≡ lines.old ++ fault_lines side ending) }
{
    match ending {
        Ending::Fault { at, err } => lines.push(Line::Fault { side, at, err }),
        Ending::Rest { .. } => Ok(()),
    }
}

/// The line of bytes that are no whole chain, where there are some.
fn push_rest(lines: &mut Sequence<Line>, side: Side, ending: Ending) -> Result<(), NoMemory>
    ensures { OnOk result (lines.new ≡ lines.old ++ rest_lines side ending) }
{
    match ending {
        Ending::Rest { count } if count > 0 => lines.push(Line::Rest { side, count }),
        _ => Ok(()),
    }
}

ghost use Rattle.std.specs.Prelude.{◌≡◌, ◌≤◌, ◌++◌, ◌∷◌, [], true, length, map, option_copied, IfOk, OnOk};
ghost use Rattle.std.specs.Option.{ForSome};
ghost use Rattle.std.specs.List.{AllByRecursion};
ghost use Rattle.ddm_codepoints.specs.CodePoint.{excsat};
ghost use Rattle.access_handshake.specs.Access.{hello_object};
ghost use Rattle.unit_segments.specs.Limit.{most_commands};
ghost use Rattle.unit_segments.specs.Release.{FitsAChain};
ghost use Rattle.unit_segments.specs.Spelling.{numbered};
ghost use Rattle.unit_segments.specs.Handshake.{hello_chains, in_chains, each_alone, again_chains};
ghost use Rattle.requester_core.specs.Round.{commands_of, bytes_of, is_work, work};

use crate::replay::{numbered, own_command, stopping};
use access_handshake::{Stage, hello};
use ddm_codepoints::code_point::EXCSAT;
use link_ends::{NoMemory, Octets, Sequence};
use std::alloc::Global;
use std::collections::VecDeque;
use std::marker::Model;
use unit_segments::{Command, CommandList, Segment, ask_release, share_command, write_chain};

/// How many bytes one chain of access has at most.
const MOST_CHAIN_BYTES: usize = 16_777_216;

/// What a chain is sent for, with its commands as they are numbered.
#[derive(Debug, Drop)]
pub enum Round {
    /// Commands that lead to where the session stands: its access and its registers.
    Access(CommandList),
    /// Commands of the open unit of work that run again.
    Again(CommandList),
    /// The segment in work.
    Work(Segment),
}

impl Round {
    /// Its commands.
    pub(crate) fn commands(&self) -> &[Command]
        ensures { result.now ≡ commands_of self.now }
    {
        match self {
            Round::Access(commands) | Round::Again(commands) => commands.as_slice(),
            Round::Work(segment) => segment.commands().as_slice(),
        }
    }

    /// Whether it is the segment in work.
    pub(crate) fn is_work(&self) -> bool
        ensures { result ≡ is_work self.now }
    {
        matches!(self, Round::Work(_))
    }
}

/// A round and the bytes of its chain.
#[derive(Debug, Drop)]
pub(crate) struct Outgoing {
    round: Round,
    bytes: Octets,
}

impl Model for Outgoing {
    ghost use Rattle.requester_core.specs.declared.round.Round.{Round};

    ghost Value = { Round };

    ghost use Rattle.std.specs.Prelude.{◌≡◌};
    ghost use Rattle.requester_core.specs.Round.{bytes_of};

    ghost view = { λ o. o.round };

    ghost invariant = { λ o. o.bytes ≡ bytes_of o.round };
}

impl Outgoing {
    /// What it is for.
    pub(crate) fn round(&self) -> &Round
        ensures { result.now ≡ self.now }
    {
        &self.round
    }

    /// The bytes of its chain.
    pub(crate) fn bytes(&self) -> &[u8]
        ensures { result.now ≡ bytes_of self.now }
    {
        self.bytes.as_slice()
    }

    /// Commands of access, with the numbers that they have.
    fn access(alloc: Global, commands: CommandList) -> Result<Outgoing, NoMemory>
        ensures { IfOk result (λ outgoing. outgoing ≡ Round.Access commands) }
    {
        Ok(Outgoing {
            bytes: write_chain(alloc, &commands)?,
            round: Round::Access(commands),
        })
    }

    /// Commands that run again, with the numbers that they have.
    fn again(alloc: Global, commands: CommandList) -> Result<Outgoing, NoMemory>
        ensures { IfOk result (λ outgoing. outgoing ≡ Round.Again commands) }
    {
        Ok(Outgoing {
            bytes: write_chain(alloc, &commands)?,
            round: Round::Again(commands),
        })
    }

    /// A segment.
    fn work(alloc: Global, segment: &Segment) -> Result<Outgoing, NoMemory>
        requires { AllByRecursion FitsAChain segment.now }
        ensures { IfOk result (λ outgoing. outgoing ≡ Round.Work segment.now) }
    {
        Ok(Outgoing {
            bytes: ask_release(alloc, segment)?,
            round: Round::Work(segment.share(alloc)?),
        })
    }
}

/// The rounds of a conversation that are still to be done, the first of them in work.
pub(crate) type Rounds = VecDeque<Outgoing>;

/// Appends the gateway's own EXCSAT (DDM, volume 3, EXCSAT).
pub(crate) fn put_hello(alloc: Global, rounds: &mut Rounds) -> Result<(), NoMemory>
    ensures { OnOk result (rounds.new.items ≡ rounds.old.items ++ map Round.Access (hello_chains true)) }
{
    let mut commands = Sequence::new(alloc);
    commands.push(own_command(alloc, EXCSAT, hello_object(alloc)?))?;
    rounds.push_back(Outgoing::access(alloc, commands)?)?;
    Ok(())
}

/// The EXCSAT object.
#[tactic(auto, unfolding(access_handshake::specs::Access::hello_chain, dss_frame::specs::Dss::canonical, dss_frame::specs::Dss::further))]
fn hello_object(alloc: Global) -> Result<Octets, NoMemory>
    ensures { IfOk result (λ object. object ≡ hello_object) }
{
    let mut chain = hello(alloc)?;
    chain.advance(6);
    Ok(chain)
}

/// Appends these commands as one chain, numbered from 1; where that is longer than a chain may be, each as a chain of its own.
pub(crate) fn put_access(
    alloc: Global,
    commands: &CommandList,
    rounds: &mut Rounds,
) -> Result<(), NoMemory>
    requires { length commands.now ≤ most_commands }
    ensures { OnOk result (rounds.new.items ≡ rounds.old.items ++ map Round.Access (in_chains commands.now)) }
{
    if commands.is_empty() {
        return Ok(());
    }
    let one = Outgoing::access(alloc, numbered(alloc, commands.as_slice())?)?;
    if one.bytes().len() <= MOST_CHAIN_BYTES {
        rounds.push_back(one)?;
        return Ok(());
    }
    put_each(alloc, commands.as_slice(), rounds)
}

/// Appends each of these commands as a chain of its own, with number 1.
fn put_each(alloc: Global, commands: &[Command], rounds: &mut Rounds) -> Result<(), NoMemory>
    ensures { OnOk result (rounds.new.items ≡ rounds.old.items ++ map Round.Access (each_alone commands.now)) }
{
    let mut left = commands;
    while let Some((command, rest)) = left.split_first() {
        rounds.push_back(alone(alloc, command)?)?;
        left = rest;
    }
    Ok(())
}

/// A command as a chain of its own, with number 1.
fn alone(alloc: Global, command: &Command) -> Result<Outgoing, NoMemory>
    ensures { IfOk result (λ outgoing. outgoing ≡ Round.Access (numbered 1 (command.now ∷ []))) }
{
    let mut shared = share_command(alloc, command)?;
    shared.corr = 1;
    let mut commands = Sequence::new(alloc);
    commands.push(shared)?;
    Outgoing::access(alloc, commands)
}

/// Appends the commands that run again, where the database was accessed and there are any.
pub(crate) fn put_again(
    alloc: Global,
    stage: Stage,
    again: &[Command],
    rounds: &mut Rounds,
) -> Result<(), NoMemory>
    requires { length again.now ≤ most_commands }
    ensures { OnOk result (rounds.new.items ≡ rounds.old.items ++ map Round.Again (again_chains stage again.now)) }
{
    if !matches!(stage, Stage::Accessed) || again.is_empty() {
        return Ok(());
    }
    rounds.push_back(Outgoing::again(alloc, stopping(alloc, again)?)?)?;
    Ok(())
}

/// Appends the segment in work, where one is given.
pub(crate) fn put_work(
    alloc: Global,
    segment: Option<&Segment>,
    rounds: &mut Rounds,
) -> Result<(), NoMemory>
    requires { ForSome (option_copied segment) (λ commands. AllByRecursion FitsAChain commands) }
    ensures { OnOk result (rounds.new.items ≡ rounds.old.items ++ work (option_copied segment.entry)) }
{
    if let Some(segment) = segment {
        rounds.push_back(Outgoing::work(alloc, segment)?)?;
    }
    Ok(())
}

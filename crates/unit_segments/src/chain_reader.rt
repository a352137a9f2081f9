ghost use Rattle.std.specs.Prelude.{◌≡◌, ◌<◌, ◌++◌, ◌∷◌, [], length, if◌then◌else◌, OnOk, IfOk};
ghost use Rattle.unit_segments.specs.Limit.{most_commands};
ghost use Rattle.unit_segments.specs.Chain.{no_chain, dss_fault, order_fault, count_fault, command_fault, chain_step, chain_after, command_of, with_dss};
ghost use Rattle.unit_segments.specs.Chain.{is_request, is_object};
ghost use Rattle.unit_segments.specs.ChainReader.{IsAnswer, with_last, joined, number_fault};
ghost use Rattle.unit_segments.specs.declared.chain_reader.Awaited.TheVariants as awaits;

use crate::body::{body_fault, code_of};
use crate::command::{Chain, Command, CommandList};
use crate::fault::ChainFault;
use dss_frame::{Dss, Kind, Placed};
use link_ends::{NoMemory, Sequence};
use std::alloc::Global;
use std::marker::Model;
use std::mem;

/// How many commands a chain may have.
const MOST_COMMANDS: usize = 4096;

/// SYNERRCD of a DSS that may not stand where it does (DDM, volume 3).
const CHAINING: u8 = 0x04;

/// The offset of the format byte in a DSS.
const FORMAT: u64 = 3;

/// The offset of the correlation number in a DSS.
const NUMBER: u64 = 4;

/// The offset of the body in a DSS.
const BODY: u64 = 6;

/// What the next DSS of a chain must be (DRDA, volume 3, DSS: chaining).
#[derive(Clone, Copy, Debug, PartialEq, Eq)]
pub(crate) enum Awaited {
    /// A request DSS: a command begins.
    Command,
    /// An object DSS of the command that has begun, with this correlation number.
    Object { corr: u16 },
}

/// Reads the chains of a requester, one DSS after another.
#[derive(Debug, Drop)]
pub struct ChainReader {
    alloc: Global,
    /// The commands of the chain that are whole.
    commands: CommandList,
    /// The command that may get objects yet.
    begun: Option<Command>,
    /// The correlation number of the last DSS of the chain, or 0.
    before: u16,
}

impl Model for ChainReader {
    ghost use Rattle.unit_segments.specs.Chain.{OpenChain};

    ghost Value = { OpenChain };

    ghost use Rattle.unit_segments.specs.ChainReader.{chain_in, with_begun};

    ghost view = { λ r. chain_in r.commands r.begun r.before };

    ghost use Rattle.std.specs.Prelude.{◌≤◌, length};
    ghost use Rattle.unit_segments.specs.Limit.{most_commands};

    ghost invariant = { λ r. length (with_begun r.commands r.begun) ≤ most_commands };
}

impl ChainReader {
    /// Nothing is read yet. What is read is stored in memory of this allocator.
    pub fn new(alloc: Global) -> ChainReader
        ensures { result ≡ no_chain }
    {
        ChainReader {
            alloc,
            commands: Sequence::new(alloc),
            begun: None,
            before: 0,
        }
    }

    /// Adds the DSS that follows those that were added. Some is the chain that it ends, None comes exactly where it ends
    /// none. An `Err` but `NoMemory` is its first fault: of its kind, its number, the limit of 4,096 commands, its body.
    /// After an `Err` the reader isn't used again.
    #[tactic(auto, unfolding(crate::specs::Chain::chain_step))]
    pub fn add(&mut self, placed: Placed) -> Result<Option<Chain>, ChainFault>
        ensures answer { IsAnswer result (chain_step self.old placed) }
        ensures after { OnOk result (self.new ≡ chain_after self.old placed) }
    {
        if let Some(fault) = self.fault(&placed) {
            return Err(fault);
        }
        let (same, chained) = (placed.dss.same, placed.dss.chained);
        let command = self.command(placed)?;
        Ok(self.join(command, same, chained)?)
    }

    /// The first fault of the next DSS, if it has one.
    #[tactic(auto, unfolding(crate::specs::Chain::dss_fault))]
    fn fault(&self, placed: &Placed) -> Option<ChainFault>
        ensures { result ≡ dss_fault self.now placed.now }
    {
        match self.order_fault(placed) {
            Some(fault) => Some(fault),
            None => match self.count_fault(placed) {
                Some(fault) => Some(fault),
                None => command_fault(placed),
            },
        }
    }

    /// The fault of a DSS that isn't what is awaited.
    fn order_fault(&self, placed: &Placed) -> Option<ChainFault>
        ensures { result ≡ order_fault self.now.awaited self.now.before placed.now }
    {
        match &self.begun {
            None if is_request(placed.dss.kind) => None,
            Some(command) if is_object(placed.dss.kind) => number_fault(command.corr, placed),
            _ => Some(ChainFault::Syntax {
                at: placed.at.saturating_add(FORMAT),
                err: CHAINING,
                corr: self.before,
            }),
        }
    }

    /// The fault of a DSS that begins a command more than a chain may have.
    fn count_fault(&self, placed: &Placed) -> Option<ChainFault>
        requires { order_fault self.now.awaited self.now.before placed.now ≡ None }
        ensures { result ≡ count_fault self.now.commands placed.now }
    {
        if is_request(placed.dss.kind) && self.commands.len() >= MOST_COMMANDS {
            return Some(ChainFault::TooMany {
                at: placed.at,
                corr: placed.dss.corr,
            });
        }
        None
    }

    /// The command that the DSS begins, or that it is an object of. That one is taken out.
    fn command(&mut self, placed: Placed) -> Result<Command, NoMemory>
        requires count { count_fault self.old.commands placed ≡ None }
        requires order { order_fault self.old.awaited self.old.before placed ≡ None }
        ensures commands { IfOk result (λ command. self.new.commands ++ command ∷ [] ≡ with_dss self.old.commands placed) }
        ensures number { IfOk result (λ command. command.corr ≡ placed.dss.corr) }
        ensures begun { self.new.awaited ≡ awaits.Command }
        ensures room { length self.new.commands < most_commands }
    {
        match mem::replace(&mut self.begun, None) {
            Some(command) => with_object(command, placed.dss),
            None => Ok(begin(self.alloc, placed)),
        }
    }

    /// Adds a command to the chain, which may get objects yet where the next DSS has the same number. Some is the chain
    /// that ends with it.
    fn join(
        &mut self,
        command: Command,
        same: bool,
        chained: bool,
    ) -> Result<Option<Chain>, NoMemory>
        requires awaited { self.old.awaited ≡ awaits.Command }
        requires room { length self.old.commands < most_commands }
        ensures chain { IfOk result (λ chain. chain ≡ (if chained then None else Some (self.old.commands ++ command ∷ []))) }
        ensures after { OnOk result (self.new ≡ joined self.old.commands command same chained) }
    {
        self.before = command.corr;
        if same && chained {
            self.begun = Some(command);
            return Ok(None);
        }
        self.commands.push(command)?;
        if chained {
            return Ok(None);
        }
        self.before = 0;
        let commands = mem::replace(&mut self.commands, Sequence::new(self.alloc));
        Ok(Some(Chain { commands }))
    }
}

/// The fault of an object that has another number than its command.
fn number_fault(corr: u16, placed: &Placed) -> Option<ChainFault>
    ensures { result ≡ number_fault corr placed.now }
{
    if placed.dss.corr == corr {
        return None;
    }
    Some(ChainFault::Syntax {
        at: placed.at.saturating_add(NUMBER),
        err: CHAINING,
        corr: placed.dss.corr,
    })
}

/// The fault of a request's body.
fn command_fault(placed: &Placed) -> Option<ChainFault>
    ensures { result ≡ command_fault placed.now }
{
    if !is_request(placed.dss.kind) {
        return None;
    }
    let fault = body_fault(placed.dss.body.as_slice())?;
    let at = placed
        .at
        .saturating_add(BODY)
        .saturating_add(fault.before as u64);
    Some(ChainFault::Syntax {
        at: at.saturating_add(fault.at as u64),
        err: fault.err,
        corr: placed.dss.corr,
    })
}

/// The command that a request begins.
fn begin(alloc: Global, placed: Placed) -> Command
    ensures { result ≡ command_of placed }
{
    let code = code_of(placed.dss.body.as_slice());
    let Placed { at, dss } = placed;
    Command {
        code,
        corr: dss.corr,
        go_on: dss.go_on,
        at,
        body: dss.body,
        objects: Sequence::new(alloc),
    }
}

/// The command with this object too.
fn with_object(mut command: Command, dss: Dss) -> Result<Command, NoMemory>
    ensures { IfOk result (λ grown. grown ≡ with_last command dss) }
{
    command.go_on = dss.go_on;
    command.objects.push(dss.body)?;
    Ok(command)
}

/// Whether it is a request.
fn is_request(kind: Kind) -> bool
    ensures { result ≡ is_request kind }
{
    matches!(kind, Kind::Request)
}

/// Whether it is an object.
fn is_object(kind: Kind) -> bool
    ensures { result ≡ is_object kind }
{
    matches!(kind, Kind::Object)
}

ghost use Rattle.std.specs.Prelude.{◌≡◌, ◌≤◌, ◌<◌, [], length, IfOk, OnOk};
ghost use Rattle.unit_segments.specs.Command.{ends_unit};
ghost use Rattle.unit_segments.specs.Limit.{most_commands};
ghost use Rattle.unit_segments.specs.Segment.{segments_of};
ghost use Rattle.unit_segments.specs.Cut.{with_run, after_command};

use crate::command::{Chain, Command, CommandList};
use crate::share::share_command;
use ddm_codepoints::{CodeClass, class};
use link_ends::{NoMemory, Sequence};
use std::alloc::Global;
use std::marker::Model;
use std::mem;

/// Commands of one chain that run at once, in order.
#[derive(Debug, Drop)]
pub struct Segment {
    pub(crate) commands: CommandList,
}

impl Model for Segment {
    ghost use Rattle.std.specs.Prelude.{◌≤◌, List, length};
    ghost use Rattle.unit_segments.specs.declared.command.Command.{Command};
    ghost use Rattle.unit_segments.specs.Limit.{most_commands};

    ghost Value = { List Command };

    ghost view = { λ s. s.commands };

    ghost invariant = { λ s. length s.commands ≤ most_commands };
}

impl Segment {
    /// Its commands, in order.
    pub fn commands(&self) -> &CommandList
        ensures commands { result.now ≡ self.now }
        ensures size { length result.now ≤ most_commands }
    {
        &self.commands
    }

    /// The same segment. Its long bodies are shared.
    pub fn share(&self, alloc: Global) -> Result<Segment, NoMemory>
        ensures { IfOk result (λ shared. shared ≡ self.now) }
    {
        let mut commands = Sequence::new(alloc);
        for command in self.commands.as_slice() {
            commands.push(share_command(alloc, command)?)?;
        }
        Ok(Segment { commands })
    }
}

/// A list of segments.
pub type SegmentList = Sequence<Segment>;

/// The segments of a chain, in order: a command of access, or one that isn't known, alone; and as many commands that pass
/// as stand one after another, with the one that ends the unit of work where it follows them.
pub fn cut(alloc: Global, chain: &Chain) -> Result<SegmentList, NoMemory>
    ensures { IfOk result (λ segments. segments ≡ segments_of chain.now) }
{
    let mut segments = Sequence::new(alloc);
    let mut run = Sequence::new(alloc);
    for command in chain.commands().as_slice() {
        place(alloc, command, &mut run, &mut segments)?;
    }
    end_run(alloc, &mut run, &mut segments)?;
    Ok(segments)
}

/// Adds a command to the run, which it ends, or which is ended before it, where its class says so.
fn place(
    alloc: Global,
    command: &Command,
    run: &mut CommandList,
    segments: &mut SegmentList,
) -> Result<(), NoMemory>
    requires { length run.old < most_commands }
    ensures segments { OnOk result (segments.new ≡ (after_command command.now segments.old run.old).segments) }
    ensures run { OnOk result (run.new ≡ (after_command command.now segments.old run.old).run) }
{
    let class = class(command.code);
    let shared = share_command(alloc, command)?;
    if matches!(class, CodeClass::Pass) {
        return run.push(shared);
    }
    if !ends_unit(class) {
        end_run(alloc, run, segments)?;
    }
    run.push(shared)?;
    end_run(alloc, run, segments)
}

/// Adds the commands of a run as a segment, where there are any, and leaves none.
fn end_run(alloc: Global, run: &mut CommandList, segments: &mut SegmentList) -> Result<(), NoMemory>
    requires { length run.old ≤ most_commands }
    ensures segments { OnOk result (segments.new ≡ with_run segments.old run.old) }
    ensures run { OnOk result (run.new ≡ []) }
{
    if run.is_empty() {
        return Ok(());
    }
    let commands = mem::replace(run, Sequence::new(alloc));
    segments.push(Segment { commands })
}

/// Whether a command of this class ends a unit of work.
pub(crate) fn ends_unit(class: CodeClass) -> bool
    ensures { result ≡ ends_unit class }
{
    matches!(class, CodeClass::UnitEnd)
}

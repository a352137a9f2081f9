ghost use Rattle.std.specs.Prelude.{◌≡◌, ℕ, IfOk};
ghost use Rattle.std.specs.Ordering.{nat_cmp};
ghost use Rattle.std.specs.BTreeSet.{contains};
ghost use Rattle.drda_trace.specs.Lines.{has_number, numbers_fit};

use dss_frame::Placed;
use link_ends::NoMemory;
use std::alloc::Global;
use std::collections::BTreeSet;
use unit_segments::Command;

/// Whether each reply has the correlation number of one of the commands, and none below that of the reply before it. What a
/// reply costs doesn't grow with the replies, and by no more than the logarithm of the at most 4,096 commands.
pub(crate) fn numbers_fit(
    alloc: Global,
    commands: &[Command],
    replies: &[Placed],
) -> Result<bool, NoMemory>
    ensures { IfOk result (λ fit. fit ≡ numbers_fit commands.now 0 replies.now) }
{
    let numbers = numbers_of(alloc, commands)?;
    let mut before = 0;
    for reply in replies {
        let corr = reply.dss.corr;
        if !numbers.contains(&corr) || corr < before {
            return Ok(false);
        }
        before = corr;
    }
    Ok(true)
}

/// The correlation numbers of the commands.
fn numbers_of(alloc: Global, commands: &[Command]) -> Result<BTreeSet<u16>, NoMemory>
    ensures { IfOk result (λ numbers. (corr : ℕ) → contains nat_cmp numbers corr ≡ has_number commands.now corr) }
{
    let mut numbers = BTreeSet::new(alloc);
    for command in commands {
        numbers.insert(command.corr)?;
    }
    Ok(numbers)
}

ghost use Rattle.std.specs.Prelude.{◌≡◌, ℕ, ◌<◌, ◌≤◌, find, not, ◌||◌, ◌&&◌, true, false, IfSome, is_none};
ghost use Rattle.std.specs.List.{list_all};
ghost use Rattle.server_list.specs.Tried.{is_member, has_member};
ghost use Rattle.server_list.specs.Choice.{lent_to, is_untried, is_candidate, is_no_fuller, is_least, is_best, are_tried, pick};

use crate::list::{ServerList, ServerRow};
use crate::tried::Tried;

/// The member that the next transport goes to, where so many are lent to each, in the order of their numbers. Of the
/// members that aren't tried and have a positive weight it is the one that would have the fewest for its weight, with one
/// more; of several the first in the list. Where there is none of these it is the first that isn't tried; `None` where
/// all are tried.
pub fn choose(list: &ServerList, lent: &[u32; 32], tried: &Tried) -> Option<u32>
    ensures pick { result ≡ pick list.now.rows lent.now tried.now }
    ensures none { is_none result ≡ are_tried list.now.rows tried.now }
    ensures member { IfSome result (λ member. is_member member ≡ true) }
    ensures untried { IfSome result (λ member. has_member tried.now member ≡ false) }
{
    list.is_sound();
    let picked = pick(list.rows(), lent, tried);
    picked
}

/// The member of the first best row, else that of the first untried one.
fn pick(rows: &[ServerRow], lent: &[u32; 32], tried: &Tried) -> Option<u32>
    ensures { result ≡ pick rows.now lent.now tried.now }
{
    match first_best(rows, lent, tried) {
        Some(row) => Some(row.member),
        None => first_untried(rows, tried).map(|row| row.member),
    }
}

/// The first candidate that no other is emptier than.
fn first_best(rows: &[ServerRow], lent: &[u32; 32], tried: &Tried) -> Option<ServerRow>
    ensures { result ≡ find (is_best lent.now tried.now rows.now) rows.now }
{
    rows.iter()
        .copied()
        .find(|row| is_best(lent, tried, rows, *row))
}

/// The first row whose member isn't tried.
fn first_untried(rows: &[ServerRow], tried: &Tried) -> Option<ServerRow>
    ensures { result ≡ find (is_untried tried.now) rows.now }
{
    rows.iter().copied().find(|row| !tried.has(row.member))
}

/// Whether a row is a candidate that is no fuller than each candidate.
fn is_best(lent: &[u32; 32], tried: &Tried, rows: &[ServerRow], row: ServerRow) -> bool
    ensures { result ≡ is_best lent.now tried.now rows.now row }
{
    is_candidate(tried, row) && is_least(lent, tried, rows, row)
}

/// Whether a row is no fuller than each candidate.
fn is_least(lent: &[u32; 32], tried: &Tried, rows: &[ServerRow], row: ServerRow) -> bool
    ensures { result ≡ is_least lent.now tried.now rows.now row }
{
    rows.iter().all(|other| !is_candidate(tried, *other) || is_no_fuller(lent, row, *other))
}

/// Whether a row's member isn't tried and has a positive weight.
fn is_candidate(tried: &Tried, row: ServerRow) -> bool
    ensures { result ≡ is_candidate tried.now row }
{
    row.weight > 0 && !tried.has(row.member)
}

/// Whether the first member would have no more transports for its weight than the other, each with one more.
fn is_no_fuller(lent: &[u32; 32], row: ServerRow, other: ServerRow) -> bool
    ensures { result ≡ is_no_fuller lent.now row other }
{
    let first = (u64::from(lent_to(lent, row.member)) + 1) * u64::from(other.weight);
    let second = (u64::from(lent_to(lent, other.member)) + 1) * u64::from(row.weight);
    first <= second
}

/// How many transports are lent to a member.
fn lent_to(lent: &[u32; 32], member: u32) -> u32
    ensures { result ≡ lent_to lent.now member }
{
    let place = member.saturating_sub(1) as usize;
    lent.get(place).copied().unwrap_or(0)
}

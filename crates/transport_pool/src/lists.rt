ghost use Rattle.std.specs.Prelude.{◌≡◌, ℕ, ◌<◌, ◌≤◌, ◌==◌, ◌||◌, ◌&&◌, fold, take, IfSome};
ghost use Rattle.std.specs.List.{All};
ghost use Rattle.server_list.specs.Tried.{with_member};
ghost use Rattle.server_list.specs.Lists.{no_rows};
ghost use Rattle.server_list.specs.Layout.{with_known, known_rows, unless_empty};
ghost use Rattle.transport_pool.specs.Steps.{is_newer, members_of};

use server_list::{ServerList, Tried};

/// Whether a list is newer than another, or neither has a number.
pub(crate) fn is_newer(list: &ServerList, old: &ServerList) -> bool
    ensures { result ≡ is_newer list.now old.now }
{
    old.number() < list.number() || list.number() == 0 && old.number() == 0
}

/// The list's rows of known members, where there are any.
pub(crate) fn known_rows(list: &ServerList, known: &Tried) -> Option<ServerList>
    ensures { result ≡ unless_empty (known_rows known.now list.now) }
{
    let kept = keep_known(list, known);
    if kept.is_empty() { None } else { Some(kept) }
}

/// The list's rows of known members.
fn keep_known(list: &ServerList, known: &Tried) -> ServerList
    ensures { result ≡ known_rows known.now list.now }
{
    let mut kept = ServerList::new();
    kept.set_number(list.number());
    for row in list.rows() {
        if known.has(row.member) {
            kept.push(*row);
        }
    }
    kept
}

/// The members of a list.
pub(crate) fn members_of(list: &ServerList) -> Tried
    ensures { result ≡ members_of list.now.rows }
{
    let mut members = Tried::none();
    for row in list.rows() {
        members = members.with(row.member);
    }
    members
}

ghost use Rattle.std.specs.Prelude.{◌≡◌, ℕ, ◌+◌, ◌-◌, ◌<◌, ◌≤◌, ◌==◌, ◌&&◌, ◌||◌, [], ◌∷◌, ◌++◌, length, find, filter, reverse, take, fold};
ghost use Rattle.std.specs.Prelude.{replicate, not, true, IfSome};
ghost use Rattle.std.specs.Prelude.{vec_len, vec_capacity, slice_index, slice_index_or};
ghost use Rattle.std.specs.List.{AllByRecursion, list_any};
ghost use Rattle.server_list.specs.Tried.{is_member};
ghost use Rattle.transport_pool.specs.State.{without, is_among, with_one_more, counts_of, left_by, is_waiting, is_behind};
ghost use Rattle.transport_pool.specs.Steps.{idle_of, oldest_of};
ghost use Rattle.transport_pool.specs.Sound.{times};

use crate::numbers::Numbered;

/// Takes the transport with this number away.
pub(crate) fn remove_number(transports: &mut Vec<Numbered>, number: u64)
    ensures items { transports.new.items ≡ without number transports.old.items }
    ensures capacity { vec_capacity transports.new ≡ vec_capacity transports.old }
{
    transports.retain(|transport| transport.number != number);
}

/// Takes the first transport away.
fn take_oldest(idle: &mut Vec<Numbered>) -> Numbered
    requires { 0 < length idle.old.items }
    ensures oldest { result ≡ slice_index_or idle.old.items 0 result }
    ensures items { idle.new.items ≡ without result.number idle.old.items }
    ensures capacity { vec_capacity idle.new ≡ vec_capacity idle.old }
    ensures len { length idle.new.items < length idle.old.items }
{
    let oldest = idle[0];
    remove_number(idle, oldest.number);
    oldest
}

/// Takes the first transport away, and puts this one behind the others.
pub(crate) fn exchange_oldest(idle: &mut Vec<Numbered>, transport: Numbered) -> Numbered
    requires some { 0 < length idle.old.items }
    requires room { length idle.old.items ≤ vec_capacity idle.old }
    ensures oldest { result ≡ oldest_of idle.old.items transport }
    ensures items { idle.new.items ≡ without result.number idle.old.items ++ transport ∷ [] }
    ensures capacity { vec_capacity idle.new ≡ vec_capacity idle.old }
    ensures len { length (without result.number idle.old.items) < length idle.old.items }
{
    let oldest = take_oldest(idle);
    idle.push_reserved(transport);
    oldest
}

/// Whether a transport with this number and this member is there.
pub(crate) fn is_among(transports: &[Numbered], number: u64, member: u32) -> bool
    ensures { result ≡ is_among number member transports.now }
{
    transports.iter().any(|transport| transport.number == number && transport.member == member)
}

/// The idle transport of this member that was given back last, unless a fresh one is asked for.
pub(crate) fn idle_of(idle: &[Numbered], member: u32, fresh: bool) -> Option<Numbered>
    ensures found { result ≡ idle_of member fresh idle.now }
    ensures there { IfSome result (λ transport. 1 ≤ times transport.number idle.now) }
    ensures member { IfSome result (λ transport. transport.member ≡ member) }
{
    if fresh {
        return None;
    }
    last_of(idle, member)
}

/// The last transport of this member.
fn last_of(transports: &[Numbered], member: u32) -> Option<Numbered>
    ensures found { result ≡ find (λ transport. transport.member == member) (reverse transports.now) }
    ensures there { IfSome result (λ transport. 1 ≤ times transport.number transports.now) }
    ensures member { IfSome result (λ transport. transport.member ≡ member) }
{
    let found = search_back(transports, member);
    found
}

/// The last transport of this member.
fn search_back(transports: &[Numbered], member: u32) -> Option<Numbered>
    ensures { result ≡ find (λ transport. transport.member == member) (reverse transports.now) }
{
    transports
        .iter()
        .rev()
        .copied()
        .find(|transport| transport.member == member)
}

/// How many transports each member has, in the order of the members' numbers.
pub(crate) fn counts_of(transports: &[Numbered]) -> [u32; 32]
    requires few { length transports.now ≤ 32 }
    requires members { AllByRecursion (λ transport. is_member transport.member ≡ true) transports.now }
    ensures { result ≡ counts_of transports.now }
{
    let mut counts = [0; 32];
    for transport in transports {
        let place = transport.member as usize - 1;
        counts[place] += 1;
    }
    counts
}

/// Takes a session away.
pub(crate) fn remove_session(waiting: &mut Vec<u32>, session: u32)
    ensures items { waiting.new.items ≡ left_by session waiting.old.items }
    ensures capacity { vec_capacity waiting.new ≡ vec_capacity waiting.old }
    ensures len { vec_len waiting.new ≤ vec_len waiting.old }
{
    waiting.retain(|other| *other != session);
}

/// Whether a session is there.
pub(crate) fn is_waiting(waiting: &[u32], session: u32) -> bool
    ensures { result ≡ is_waiting session waiting.now }
{
    waiting.iter().any(|other| *other == session)
}

/// Whether another session is there before this one.
pub(crate) fn is_behind(waiting: &[u32], session: u32) -> bool
    ensures { result ≡ is_behind session waiting.now }
{
    match waiting {
        [] => false,
        [first, ..] => *first != session,
    }
}

ghost use Rattle.std.specs.Prelude.{◌≡◌, ℕ, ◌<◌, ◌≤◌, ◌+◌, Some, None, true, false, is_some, length, [], IfOk, IfSome, IfNone, slice_set};
ghost use Rattle.slab.specs.Slab.{get};
ghost use Rattle.transport_pool.specs.Slots.{most_kept, holds, is_free, is_blank, held, free, under, Leaves, Gains};
ghost use Rattle.transport_pool.specs.Sound.{times};

use crate::transport::Transport;
use link_ends::NoMemory;
use slab::Slab;
use std::alloc::Global;
use std::mem;

/// How many slots there are: as many as transports may be lent and idle.
const MOST_KEPT: usize = 64;

/// Slots for idle transports, each empty or with one.
pub(crate) type Slots<L> = Slab<Option<Transport<L>>>;

/// Slots, all empty. No call takes memory afterwards.
pub(crate) fn new_slots<L: Drop>(alloc: Global) -> Result<Slots<L>, NoMemory>
    ensures free { IfOk result (λ slots. free slots.slots ≡ most_kept) }
    ensures held { IfOk result (λ slots. held slots.slots ≡ []) }
{
    let mut slots = Slab::with_capacity(alloc, MOST_KEPT)?;
    for _ in 0..MOST_KEPT {
        slots.insert_reserved(None);
    }
    Ok(slots)
}

/// Whether the transport of this number lies under the key.
fn holds<L>(slots: &Slots<L>, key: usize, number: u64) -> bool
    ensures { result ≡ holds number (get slots.now key) }
{
    match slots.get(key) {
        Some(Some(transport)) => transport.number() == number,
        _ => false,
    }
}

/// Whether nothing lies under the key.
fn is_free<L>(slots: &Slots<L>, key: usize) -> bool
    ensures { result ≡ is_free (get slots.now key) }
{
    matches!(slots.get(key), Some(None))
}

/// The key under which the transport of this number lies.
fn key_of<L>(slots: &Slots<L>, number: u64) -> Option<usize>
    ensures found { IfSome result (λ key. holds number (get slots.now key) ≡ true) }
    ensures absent { IfNone result (times number (held slots.now.slots) ≡ 0) }
{
    for key in 0..slots.capacity() {
        if holds(slots, key, number) {
            return Some(key);
        }
    }
    None
}

/// A key under which nothing lies.
fn free_key<L>(slots: &Slots<L>) -> Option<usize>
    ensures found { IfSome result (λ key. is_free (get slots.now key) ≡ true) }
    ensures absent { IfNone result (free slots.now.slots ≡ 0) }
{
    for key in 0..slots.capacity() {
        if is_free(slots, key) {
            return Some(key);
        }
    }
    None
}

/// Puts something else under a key, and answers with what lay there.
fn exchange<L>(slots: &mut Slots<L>, key: usize, slot: Option<Transport<L>>) -> Option<Transport<L>>
    requires { is_some (get slots.old key) ≡ true }
    ensures was { get slots.old key ≡ Some result }
    ensures slots { slots.new.slots ≡ slice_set slots.old.slots key (Some slot) }
{
    match slots.get_mut(key) {
        Some(place) => mem::replace(place, slot),
        None => unreachable!(),
    }
}

/// Takes the transport of this number out of its slot.
pub(crate) fn take<L: Drop>(slots: &mut Slots<L>, number: u64) -> Transport<L>
    requires { times number (held slots.old.slots) ≡ 1 }
    ensures found { under number slots.old.slots ≡ Some result }
    ensures left { Leaves number slots.old.slots slots.new.slots }
{
    let Some(key) = key_of(slots, number) else {
        unreachable!()
    };
    match exchange(slots, key, None) {
        Some(transport) => transport,
        None => unreachable!(),
    }
}

/// Puts a transport into a slot.
pub(crate) fn put<L: Drop>(slots: &mut Slots<L>, transport: Transport<L>)
    requires room { 1 ≤ free slots.old.slots }
    requires unused { times transport.grant.number (held slots.old.slots) ≡ 0 }
    ensures { Gains transport slots.old.slots slots.new.slots }
{
    let Some(key) = free_key(slots) else {
        unreachable!()
    };
    exchange(slots, key, Some(transport));
}

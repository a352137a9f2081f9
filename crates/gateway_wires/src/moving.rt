//! What is done with one transport: it is dialled, bytes are sent, acted on and read, and its member drops it. Each keeps which
//! transports have bytes on their way that their members will act on.

ghost use Rattle.std.specs.Prelude.{◌≡◌, ◌≤◌, ◌<◌, not, ◌&&◌, length, slice_index_or, option_map, OnOk, OnErr, None, true, false};
ghost use Rattle.server_list.specs.Tried.{is_member};
ghost use Rattle.gateway_wires.specs.Inside.{has_dropped, on_dialled, line_at, HasGrown, OfDialled, IsIn, KeepsBytes};
ghost use Rattle.gateway_wires.specs.Inside.{SortsOld, SortsOut, EntersIf, Sorts, AreSame, LeavesAtRest};
ghost use Rattle.gateway_wires.specs.Line.{dialled, with_sent, with_acted, with_read, with_dropped, is_dropped, is_empty};
ghost use Rattle.gateway_wires.specs.Line.{flying_of, coming_of};
ghost use Rattle.gateway_wires.specs.Wires.{line_of, is_down, on_line, with_line, with_room, shared_by};

use crate::line::Line;
use crate::wires::{Wires, has_dropped, line_at};
use link_ends::NoMemory;
use plain_model::Group;
use server_list::ServerList;
use std::collections::BTreeSet;

impl<G: Group> Wires<G> {
    /// The transport of this number is dialled, to this member, which is up and tells this list where it gives access.
    pub fn dial(
        &mut self,
        number: u64,
        member: u32,
        list: &ServerList,
        group: &G,
    ) -> Result<(), NoMemory>
        requires member { is_member member ≡ true }
        requires up { is_down self.old member ≡ false }
        ensures { OnOk result (self.new ≡ with_line number (dialled G.meaning member list.now) self.old) }
    {
        let since = self.dialled.len();
        make_room(&mut self.lines, number)?;
        self.dialled.push(number)?;
        let line = Line::dialled(self.alloc, group, member, list, since)?;
        leave_old(&mut self.flying, &self.lines, number);
        self.lines[number as usize] = Some(line);
        Ok(())
    }

    /// These bytes are sent on it.
    pub fn send(&mut self, number: u64, piece: &[u8]) -> Result<(), NoMemory>
        ensures { OnOk result (self.new ≡ on_line number (with_sent piece.now) self.old) }
    {
        let Some(line) = line_at(&self.lines, number) else {
            return Ok(());
        };
        let flies = will_fly(&self.fell, line, piece);
        enter_if(&mut self.flying, flies, line.member(), number)?;
        let sent = send_at(&mut self.lines[number as usize], piece);
        leave_at_rest(&mut self.flying, &self.lines, number);
        sent
    }

    /// Its member, which hasn't dropped it, acts on the next so many bytes.
    pub fn act(&mut self, number: u64, count: usize, group: &mut G) -> Result<(), NoMemory>
        requires size { count ≤ length (flying_of (line_of self.old number)) }
        requires standing { is_dropped (line_of self.old number) ≡ false }
        ensures wires { OnOk result (self.new ≡ on_line number (with_acted G.meaning count group.old) self.old) }
        ensures shared { OnOk result (group.new ≡ shared_by G.meaning count (line_of self.old number) group.old) }
    {
        let place = number as usize;
        if place >= self.lines.len() {
            return Ok(());
        }
        act_at(&mut self.lines[place], count, group)?;
        leave_at_rest(&mut self.flying, &self.lines, number);
        Ok(())
    }

    /// The next so many bytes of its member's answers were read.
    pub fn count_read(&mut self, number: u64, count: usize)
        requires { count ≤ length (coming_of (line_of self.old number)) }
        ensures { self.new ≡ on_line number (with_read count) self.old }
    {
        let place = number as usize;
        if place >= self.lines.len() {
            return;
        }
        read_at(&mut self.lines[place], count);
    }

    /// Its member drops it.
    pub fn drop_line(&mut self, number: u64)
        ensures { self.new ≡ on_line number with_dropped self.old }
    {
        let place = number as usize;
        if place >= self.lines.len() {
            return;
        }
        leave_old(&mut self.flying, &self.lines, number);
        drop_at(&mut self.lines[place]);
    }
}

// ---- what stands at the place of a number

/// These bytes are sent on it.
fn send_at<G: Group>(slot: &mut Option<Line<G>>, piece: &[u8]) -> Result<(), NoMemory>
    ensures ok { OnOk result (slot.new ≡ option_map (on_dialled (with_sent piece.now)) slot.old) }
    ensures err { OnErr result (slot.new ≡ slot.old) }
{
    match slot {
        Some(line) => line.send(piece),
        None => Ok(()),
    }
}

/// Its member acts on the next so many bytes.
fn act_at<G: Group>(slot: &mut Option<Line<G>>, count: usize, group: &mut G) -> Result<(), NoMemory>
    requires { count ≤ length (flying_of (line_at slot.old)) }
    ensures slot { OnOk result (slot.new ≡ option_map (on_dialled (with_acted G.meaning count group.old)) slot.old) }
    ensures shared { OnOk result (group.new ≡ shared_by G.meaning count (line_at slot.old) group.old) }
    ensures err { OnErr result (KeepsBytes slot.old slot.new) }
{
    match slot {
        Some(line) => line.act(count, group),
        None => Ok(()),
    }
}

/// The next so many bytes of its member's answers were read.
fn read_at<G: Group>(slot: &mut Option<Line<G>>, count: usize)
    requires { count ≤ length (coming_of (line_at slot.old)) }
    ensures { slot.new ≡ option_map (on_dialled (with_read count)) slot.old }
{
    if let Some(line) = slot {
        line.count_read(count);
    }
}

/// Its member drops it.
fn drop_at<G: Group>(slot: &mut Option<Line<G>>)
    ensures { slot.new ≡ option_map (on_dialled with_dropped) slot.old }
{
    if let Some(line) = slot {
        line.drop_it();
    }
}

/// Makes room for the transport of this number.
fn make_room<G: Group>(lines: &mut Vec<Option<Line<G>>>, number: u64) -> Result<(), NoMemory>
    ensures ok { OnOk result (lines.new.items ≡ with_room number lines.old.items) }
    ensures err { OnErr result (HasGrown lines.old.items lines.new.items) }
{
    while lines.len() as u64 <= number {
        lines.push(None)?;
    }
    Ok(())
}

/// An earlier transport of this number has no bytes on its way any more.
fn leave_old<G: Group>(flying: &mut [BTreeSet<u64>], lines: &[Option<Line<G>>], number: u64)
    requires { OfDialled (IsIn (length flying.old)) (slice_index_or lines.now number None) }
    ensures { SortsOld number (slice_index_or lines.now number None) flying.old flying.new }
{
    if let Some(line) = line_at(lines, number) {
        leave(flying, line.member(), number);
    }
}

/// Whether these bytes will be on their way on it to a member that acts on them.
fn will_fly<G: Group>(fell: &[usize], line: &Line<G>, piece: &[u8]) -> bool
    ensures { result ≡ (not (is_empty piece.now) && not (has_dropped fell.now line.now)) }
{
    !piece.is_empty() && !has_dropped(fell, line)
}

/// A transport of this member has bytes on their way, if it has.
fn enter_if(
    flying: &mut [BTreeSet<u64>],
    flies: bool,
    member: u32,
    number: u64,
) -> Result<(), NoMemory>
    requires { member < length flying.old }
    ensures ok { OnOk result (EntersIf flies member number flying.old flying.new) }
    ensures err { OnErr result (AreSame flying.old flying.new) }
{
    if flies {
        flying[member as usize].insert(number)?;
    }
    Ok(())
}

/// A transport of this member has none, or is dropped.
fn leave(flying: &mut [BTreeSet<u64>], member: u32, number: u64)
    requires { member < length flying.old }
    ensures { Sorts member number false flying.old flying.new }
{
    flying[member as usize].remove(&number);
}

/// The same, where the transport of this number has none.
fn leave_at_rest<G: Group>(flying: &mut [BTreeSet<u64>], lines: &[Option<Line<G>>], number: u64)
    requires { OfDialled (IsIn (length flying.old)) (slice_index_or lines.now number None) }
    ensures { LeavesAtRest number (slice_index_or lines.now number None) flying.old flying.new }
{
    if let Some(line) = line_at(lines, number) {
        leave_if(flying, line.flying() == 0, line.member(), number);
    }
}

/// A transport of this member has none, if it hasn't.
fn leave_if(flying: &mut [BTreeSet<u64>], rests: bool, member: u32, number: u64)
    requires { member < length flying.old }
    ensures { SortsOut rests member number flying.old flying.new }
{
    if rests {
        leave(flying, member, number);
    }
}

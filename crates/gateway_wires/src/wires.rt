ghost use Rattle.std.specs.Prelude.{◌≡◌, not, length, slice_index_or, option_map, option_copied, is_some, IfOk, None, true};
ghost use Rattle.server_list.specs.Tried.{is_member};
ghost use Rattle.gateway_wires.specs.Inside.{has_dropped, AreNone, IsLowest, lower};
ghost use Rattle.gateway_wires.specs.Line.{is_dropped, is_empty, is_flying, stands, flying_of, coming_of, ran_of, wire};
ghost use Rattle.gateway_wires.specs.Wires.{no_wires, line_of, is_down, with_down, with_up, IsFirstFlying};

use crate::line::Line;
use crate::wire::Wire;
use link_ends::NoMemory;
use plain_model::Group;
use std::alloc::Global;
use std::collections::BTreeSet;
use std::marker::Model;

/// One more than the greatest number of a member.
const MEMBERS: usize = 33;

/// All transports, each at the place of its number.
#[derive(Drop)]
pub struct Wires<G: Group> {
    pub(crate) alloc: Global,
    pub(crate) lines: Vec<Option<Line<G>>>,
    /// By its number: whether a member is down; how many transports had been dialled when it went down last; and which of its
    /// transports have bytes on their way that it will act on.
    down: [bool; 33],
    pub(crate) fell: [usize; 33],
    pub(crate) flying: Vec<BTreeSet<u64>>,
    /// The numbers of all transports that were dialled, or were to be and found no memory, oldest first.
    pub(crate) dialled: Vec<u64>,
}

impl<G: Group> Model for Wires<G> {
    ghost use Rattle.std.specs.Prelude.{length};
    ghost use Rattle.gateway_wires.specs.Wires.{WiresState};

    ghost Value = { WiresState G.Unit };

    ghost use Rattle.gateway_wires.specs.Inside.{wires_in, AreWires};

    ghost view = { λ w. wires_in w.lines.items w.fell w.down };

    ghost invariant = { λ w. AreWires w.lines.items w.fell w.flying.items (length w.dialled.items) };
}

impl<G: Group> Wires<G> {
    /// No transport was dialled, and all members are up.
    pub fn new(alloc: Global) -> Result<Wires<G>, NoMemory>
        ensures { IfOk result (λ wires. wires ≡ no_wires) }
    {
        Ok(Wires {
            alloc,
            lines: Vec::new(alloc),
            down: [false; MEMBERS],
            fell: [0; MEMBERS],
            flying: no_flying(alloc)?,
            dialled: Vec::new(alloc),
        })
    }

    // ---- members

    /// Whether this member is down. A number that is no member's never is.
    pub fn is_down(&self, member: u32) -> bool
        ensures { result ≡ is_down self.now member }
    {
        match self.down.get(member as usize) {
            Some(down) => *down,
            None => false,
        }
    }

    /// A member goes down: its transports are dropped, and bytes on their way to it are never acted on.
    pub fn down(&mut self, member: u32)
        requires { is_member member ≡ true }
        ensures { self.new ≡ with_down member self.old }
    {
        let place = member as usize;
        self.down[place] = true;
        self.fell[place] = self.dialled.len();
        self.flying[place] = BTreeSet::new(self.alloc);
    }

    /// A member comes up.
    pub fn up(&mut self, member: u32)
        requires { is_member member ≡ true }
        ensures { self.new ≡ with_up member self.old }
    {
        self.down[member as usize] = false;
    }

    // ---- transports

    /// Whether the member has dropped the transport of this number.
    pub fn is_dropped(&self, number: u64) -> bool
        ensures { result ≡ is_dropped (line_of self.now number) }
    {
        match line_at(&self.lines, number) {
            Some(line) => has_dropped(&self.fell, line),
            None => false,
        }
    }

    /// Whether the transport of this number was dialled, and its member hasn't dropped it.
    pub fn stands(&self, number: u64) -> bool
        ensures { result ≡ stands (line_of self.now number) }
    {
        match line_at(&self.lines, number) {
            Some(line) => !has_dropped(&self.fell, line),
            None => false,
        }
    }

    /// All bytes of the transport of this number, if it was dialled.
    pub fn wire(&self, number: u64) -> Option<&Wire>
        ensures { option_copied result ≡ option_map wire (line_of self.now number) }
    {
        match line_at(&self.lines, number) {
            Some(line) => Some(line.wire()),
            None => None,
        }
    }

    /// Whether the transport of this number was dialled.
    pub fn is_dialled(&self, number: u64) -> bool
        ensures { result ≡ is_some (line_of self.now number) }
    {
        line_at(&self.lines, number).is_some()
    }

    // ---- bytes

    /// How many bytes are on their way to its member.
    pub fn flying(&self, number: u64) -> usize
        ensures { result ≡ length (flying_of (line_of self.now number)) }
    {
        match line_at(&self.lines, number) {
            Some(line) => line.flying(),
            None => 0,
        }
    }

    /// Whether bytes are on their way to its member, which will act on them.
    pub fn is_flying(&self, number: u64) -> bool
        ensures { result ≡ is_flying (line_of self.now number) }
    {
        self.flying(number) > 0 && self.stands(number)
    }

    /// The lowest number of a transport whose member will act on bytes that are on their way.
    pub fn first_flying(&self) -> Option<u64>
        ensures { IsFirstFlying self.now result }
    {
        first_of(&self.flying)
    }

    /// The code points of all commands that its member ran on it.
    pub fn ran(&self, number: u64) -> &[u16]
        ensures { result.now ≡ ran_of (line_of self.now number) }
    {
        match line_at(&self.lines, number) {
            Some(line) => line.ran(),
            None => &[],
        }
    }

    /// The bytes of its member's answers that weren't read.
    pub fn coming(&self, number: u64) -> &[u8]
        ensures { result.now ≡ coming_of (line_of self.now number) }
    {
        match line_at(&self.lines, number) {
            Some(line) => line.coming(),
            None => &[],
        }
    }

    /// Whether bytes of its member's answers weren't read.
    pub fn has_coming(&self, number: u64) -> bool
        ensures { result ≡ not (is_empty (coming_of (line_of self.now number))) }
    {
        !self.coming(number).is_empty()
    }
}

/// No transport has bytes on its way.
fn no_flying(alloc: Global) -> Result<Vec<BTreeSet<u64>>, NoMemory>
    ensures size { IfOk result (λ flying. length flying.items ≡ 33) }
    ensures none { IfOk result (λ flying. AreNone flying.items) }
{
    let mut flying = Vec::new(alloc);
    for _ in 0..MEMBERS {
        flying.push(BTreeSet::new(alloc))?;
    }
    Ok(flying)
}

/// The transport of this number, if it was dialled.
pub(crate) fn line_at<G: Group>(lines: &[Option<Line<G>>], number: u64) -> Option<&Line<G>>
    ensures { option_copied result ≡ slice_index_or lines.now number None }
{
    match lines.get(number as usize) {
        Some(Some(line)) => Some(line),
        _ => None,
    }
}

/// Whether a transport is dropped, by itself or with its member.
pub(crate) fn has_dropped<G: Group>(fell: &[usize], line: &Line<G>) -> bool
    ensures { result ≡ has_dropped fell.now line.now }
{
    match fell.get(line.member() as usize) {
        Some(fell) => line.is_dropped() || line.since() < *fell,
        None => line.is_dropped(),
    }
}

/// The lowest number in all of these.
fn first_of(flying: &[BTreeSet<u64>]) -> Option<u64>
    ensures { IsLowest flying.now result }
{
    let mut lowest = None;
    for numbers in flying {
        lowest = lower(lowest, numbers.first().copied());
    }
    lowest
}

/// The lower of two numbers.
fn lower(one: Option<u64>, other: Option<u64>) -> Option<u64>
    ensures { result ≡ lower one other }
{
    match (one, other) {
        (Some(one), Some(other)) if other < one => Some(other),
        (Some(one), _) => Some(one),
        (None, other) => other,
    }
}

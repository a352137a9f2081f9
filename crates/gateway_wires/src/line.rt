ghost use Rattle.std.specs.Prelude.{◌≡◌, ◌≤◌, ◌+◌, drop, length, IfOk, OnOk, OnErr};
ghost use Rattle.gateway_wires.specs.Inside.{on_dialled};
ghost use Rattle.gateway_wires.specs.Line.{dialled, with_sent, with_acted, acting, with_read, with_dropped, with_conversation, wire};

use crate::wire::Wire;
use link_ends::{NoMemory, Octets};
use member_core::Conversation;
use plain_model::Group;
use server_list::ServerList;
use std::alloc::Global;
use std::marker::Model;

/// A transport that was dialled, with its member's end.
#[derive(Drop)]
pub struct Line<G: Group> {
    wire: Wire,
    conversation: Conversation<G>,
    /// How many of the bytes that were sent the member has acted on, and how many of those that it answered were read.
    acted: usize,
    read: usize,
    dropped: bool,
    /// How many transports had been dialled before it.
    since: usize,
}

impl<G: Group> Model for Line<G> {
    ghost use Rattle.gateway_wires.specs.Inside.{Dialled, line_in, IsLine};

    ghost Value = { Dialled G.Unit };

    ghost view = { λ l. record { line = line_in l.wire l.conversation l.acted l.read l.dropped; since = l.since } };

    ghost invariant = { λ l. IsLine l.wire l.acted l.read };
}

impl<G: Group> Line<G> {
    /// A transport to this member, on which nothing was sent. The member tells this list where it gives access.
    pub fn dialled(
        alloc: Global,
        group: &G,
        member: u32,
        list: &ServerList,
        since: usize,
    ) -> Result<Line<G>, NoMemory>
        ensures { IfOk result (λ line. line ≡ record { line = dialled G.meaning member list.now; since = since }) }
    {
        Ok(Line {
            wire: Wire {
                member,
                to: Octets::new(alloc),
                from: Octets::new(alloc),
            },
            conversation: Conversation::new(alloc, group, list)?,
            acted: 0,
            read: 0,
            dropped: false,
            since,
        })
    }

    /// The number of its member.
    pub fn member(&self) -> u32
        ensures { result ≡ self.now.line.member }
    {
        self.wire.member
    }

    /// Sends these bytes.
    #[tactic(auto, using(crate::proofs::Places::drop_joined, crate::proofs::Places::within_joined))]
    pub fn send(&mut self, piece: &[u8]) -> Result<(), NoMemory>
        ensures ok { OnOk result (self.new ≡ on_dialled (with_sent piece.now) self.old) }
        ensures err { OnErr result (self.new ≡ self.old) }
    {
        self.wire.to.push_all(piece)
    }

    /// How many bytes are on their way to the member.
    pub fn flying(&self) -> usize
        ensures { result ≡ length self.now.line.flying }
    {
        self.wire.to.len() - self.acted
    }

    /// The member acts on the next so many bytes.
    #[tactic(auto, using(crate::proofs::Places::drop_joined, crate::proofs::Places::within_joined, crate::proofs::Places::drop_passed))]
    pub fn act(&mut self, count: usize, group: &mut G) -> Result<(), NoMemory>
        requires { count ≤ length self.old.line.flying }
        ensures line { OnOk result (self.new ≡ on_dialled (with_acted G.meaning count group.old) self.old) }
        ensures shared { OnOk result (group.new ≡ (acting G.meaning count self.old.line group.old).shared) }
        ensures err { OnErr result (self.new ≡ on_dialled (with_conversation self.new.line.conversation) self.old) }
    {
        let before = self.conversation.out().len();
        let piece = &self.wire.to.as_slice()[self.acted..][..count];
        self.conversation.take(group, piece)?;
        self.wire
            .from
            .push_all(behind(self.conversation.out(), before))?;
        self.acted = place_behind(self.wire.to.as_slice(), self.acted, count);
        Ok(())
    }

    /// The code points of all commands that the member ran.
    pub fn ran(&self) -> &[u16]
        ensures { result.now ≡ self.now.line.conversation.ran }
    {
        self.conversation.ran().as_slice()
    }

    /// The bytes of its answers that weren't read.
    pub fn coming(&self) -> &[u8]
        ensures { result.now ≡ self.now.line.coming }
    {
        &self.wire.from.as_slice()[self.read..]
    }

    /// The next so many bytes of its answers were read.
    #[tactic(auto, using(crate::proofs::Places::drop_passed))]
    pub fn count_read(&mut self, count: usize)
        requires { count ≤ length self.old.line.coming }
        ensures { self.new ≡ on_dialled (with_read count) self.old }
    {
        self.read = place_behind(self.wire.from.as_slice(), self.read, count);
    }

    /// The member drops it.
    pub fn drop_it(&mut self)
        ensures { self.new ≡ on_dialled with_dropped self.old }
    {
        self.dropped = true;
    }

    /// Whether the member has dropped it.
    pub fn is_dropped(&self) -> bool
        ensures { result ≡ self.now.line.dropped }
    {
        self.dropped
    }

    /// How many transports had been dialled before it.
    pub fn since(&self) -> usize
        ensures { result ≡ self.now.since }
    {
        self.since
    }

    /// All its bytes.
    pub fn wire(&self) -> &Wire
        ensures { result.now ≡ wire self.now.line }
    {
        &self.wire
    }
}

/// The place behind so many more of these bytes.
#[tactic(auto, using(crate::proofs::Places::place_within))]
fn place_behind(bytes: &[u8], place: usize, count: usize) -> usize
    requires place { place ≤ length bytes.now }
    requires count { count ≤ length (drop place bytes.now) }
    ensures place { result ≡ place + count }
    ensures within { result ≤ length bytes.now }
{
    // The sum is at most this, so it fits.
    let _most = bytes.len();
    place + count
}

/// The bytes behind a place, none where there are fewer.
#[tactic(auto, using(crate::proofs::Places::drop_past))]
fn behind(bytes: &[u8], place: usize) -> &[u8]
    ensures { result.now ≡ drop place bytes.now }
{
    if place < bytes.len() {
        &bytes[place..]
    } else {
        &[]
    }
}

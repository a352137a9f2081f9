ghost use Rattle.std.specs.Prelude.{◌≡◌, drop, slice_get, IfOk, OnOk};
ghost use Rattle.dss_frame.specs.Reading.{fed};
ghost use Rattle.member_core.specs.ChainRun.{stops_after, with_command};
ghost use Rattle.member_core.specs.Conversation.{fresh, after_chain, closed, settled, taken};
ghost use Rattle.member_core.specs.Steps.{member, ran_by, after_dss, stopped, with_whole};

use crate::chain_run::stops_after;
use crate::listed::put_replies;
use dss_frame::{DssList, FeedFault, Placed, Reader, Side, StreamFault};
use link_ends::{NoMemory, Octets, Sequence};
use plain_model::Group;
use reply_texts::{limit_dss, syntax_dss, syntax_error};
use server_list::ServerList;
use std::alloc::Global;
use std::marker::Model;
use unit_segments::{Chain, ChainFault, ChainReader, Command, join_replies};

/// The greatest chain of requests that a member takes, in bytes.
const MOST_CHAIN: u64 = 33_554_432;

/// A list of code points.
pub type CodeList = Sequence<u16>;

/// A member's end of one transport. It is seen as the unit of its conversation, what it has read of a chain that isn't
/// whole yet, all bytes that it has answered, the code points of all commands that it has run, and whether it is dead.
/// DRDA, volume 1, units of work.
#[derive(Drop)]
pub struct Conversation<G: Group> {
    alloc: Global,
    list: ServerList,
    unit: G::Unit,
    reader: Reader,
    chains: ChainReader,
    out: Octets,
    ran: CodeList,
    dead: bool,
}

impl<G: Group> Model for Conversation<G> {
    ghost use Rattle.member_core.specs.Conversation.{ConversationState};

    ghost Value = { ConversationState G.Unit };

    ghost view = { λ c. record {
      list = c.list;
      unit = c.unit;
      reader = c.reader;
      chain = c.chains;
      answered = c.out;
      ran = c.ran;
      dead = c.dead;
    } };
}

impl<G: Group> Conversation<G> {
    /// A conversation with this group in which nothing was said. The list of members is told where access is given, unless
    /// it has no rows.
    pub fn new(alloc: Global, group: &G, list: &ServerList) -> Result<Conversation<G>, NoMemory>
        ensures { IfOk result (λ conversation. conversation ≡ fresh G.meaning list.now) }
    {
        Ok(Conversation {
            alloc,
            list: *list,
            unit: group.fresh()?,
            reader: Reader::new(alloc, Side::Requests, MOST_CHAIN),
            chains: ChainReader::new(alloc),
            out: Octets::new(alloc),
            ran: Sequence::new(alloc),
            dead: false,
        })
    }

    /// Takes the next piece of what its requester sent. Each chain of commands that becomes whole is run in order, up to an
    /// error of a command that doesn't say that the chain goes on then, and its replies are answered as one chain.
    ///
    /// At the first fault it answers once, and is dead: it takes nothing more. The answer is RSCLMTRM with SVRCOD 8 where a
    /// chain has more than 33,554,432 bytes or 4,096 commands, and SYNTAXRM where bytes are no chain. After `NoMemory` it
    /// isn't used again. DRDA, volume 3, DSS: chaining; DDM, volume 3, SYNTAXRM, RSCLMTRM.
    #[tactic(auto, unfolding(crate::specs::Conversation::taken))]
    pub fn take(&mut self, group: &mut G, piece: &[u8]) -> Result<(), NoMemory>
        ensures conversation { OnOk result (self.new ≡ (taken G.meaning piece.now (member self.old group.old)).conversation) }
        ensures shared { OnOk result (group.new ≡ (taken G.meaning piece.now (member self.old group.old)).shared) }
    {
        if self.dead {
            return Ok(());
        }
        self.feed(piece)?;
        self.settle(group)
    }

    /// All bytes that it has answered.
    pub fn out(&self) -> &[u8]
        ensures { result.now ≡ self.now.answered }
    {
        self.out.as_slice()
    }

    /// The code points of the commands that it has run, in order.
    pub fn ran(&self) -> &CodeList
        ensures { result.now ≡ self.now.ran }
    {
        &self.ran
    }

    /// Whether it has answered a fault: it takes nothing more then.
    pub fn dead(&self) -> bool
        ensures { result ≡ self.now.dead }
    {
        self.dead
    }

    /// Ends the conversation: its open unit of work is gone, and the group's data, which it isn't given, stay.
    pub fn drop_conversation(self) {}

    /// Reads a piece. A fault is kept by the reader.
    fn feed(&mut self, piece: &[u8]) -> Result<(), NoMemory>
        ensures { OnOk result (self.new ≡ record self.old { reader = fed self.old.reader piece.now }) }
    {
        match self.reader.feed(piece) {
            Err(FeedFault::NoMemory) => Err(NoMemory),
            _ => Ok(()),
        }
    }

    /// Takes the DSSs that were read, and closes at the first fault.
    fn settle(&mut self, group: &mut G) -> Result<(), NoMemory>
        ensures conversation { OnOk result (self.new ≡ (settled G.meaning self.old.reader (member self.old group.old)).conversation) }
        ensures shared { OnOk result (group.new ≡ (settled G.meaning self.old.reader (member self.old group.old)).shared) }
    {
        while let Some(placed) = self.next() {
            self.add(group, placed)?;
        }
        self.stop()
    }

    /// The first DSS that was read and isn't taken.
    fn next(&mut self) -> Option<Placed>
        ensures first { result ≡ slice_get self.old.reader.whole 0 }
        ensures rest { self.new ≡ with_whole (drop 1 self.old.reader.whole) self.old }
    {
        self.reader.take()
    }

    /// Takes a DSS: it may be a fault, or end a chain, which is run then.
    fn add(&mut self, group: &mut G, placed: Placed) -> Result<(), NoMemory>
        ensures conversation { OnOk result (self.new ≡ (after_dss G.meaning placed (member self.old group.old)).conversation) }
        ensures shared { OnOk result (group.new ≡ (after_dss G.meaning placed (member self.old group.old)).shared) }
    {
        match self.chains.add(placed) {
            Ok(Some(chain)) => self.run(group, &chain),
            Ok(None) => Ok(()),
            Err(ChainFault::Syntax { err, corr, .. }) => self.close(&syntax_dss(corr, err)),
            Err(ChainFault::TooMany { corr, .. }) => self.close(&limit_dss(corr)),
            Err(ChainFault::NoMemory) => Err(NoMemory),
        }
    }

    /// Runs a chain, and answers it.
    fn run(&mut self, group: &mut G, chain: &Chain) -> Result<(), NoMemory>
        ensures conversation { OnOk result (self.new ≡ (after_chain G.meaning chain.now (member self.old group.old)).conversation) }
        ensures shared { OnOk result (group.new ≡ (after_chain G.meaning chain.now (member self.old group.old)).shared) }
    {
        let mut replies = Sequence::new(self.alloc);
        let mut left = chain.commands().as_slice();
        while let Some((command, rest)) = left.split_first() {
            let stops = self.run_command(group, command, &mut replies)?;
            left = if stops { &[] } else { rest };
        }
        let reply = join_replies(self.alloc, &replies)?;
        self.out.push_all(reply.as_slice())
    }

    /// Runs a command, and appends its replies to those of its chain. The answer is whether the rest of the chain isn't run.
    fn run_command(
        &mut self,
        group: &mut G,
        command: &Command,
        replies: &mut DssList,
    ) -> Result<bool, NoMemory>
        ensures ran { OnOk result (ran_by self.new group.new replies.new
            ≡ with_command G.meaning self.old.list command.now (ran_by self.old group.old replies.old)) }
        ensures rest { OnOk result (self.new ≡ record self.old { unit = self.new.unit; ran = self.new.ran }) }
        ensures stops { IfOk result (λ stops. stops ≡ stops_after command.now (G.meaning.replies group.old self.old.unit command.now)) }
    {
        let answer = group.exec(&mut self.unit, command)?;
        self.ran.push(command.code)?;
        put_replies(self.alloc, &self.list, &answer, replies)?;
        Ok(stops_after(command, &answer))
    }

    /// Closes where the bytes behind the whole DSSs have a fault.
    fn stop(&mut self) -> Result<(), NoMemory>
        ensures { OnOk result (self.new ≡ stopped self.old.reader.fault self.old) }
    {
        match self.reader.fault() {
            Some(StreamFault::Frame { why, corr, .. }) => {
                self.close(&syntax_dss(corr, syntax_error(why)))
            }
            Some(StreamFault::TooLong { corr, .. }) => self.close(&limit_dss(corr)),
            None => Ok(()),
        }
    }

    /// Answers this, drops what was read, and takes nothing more.
    fn close(&mut self, reply: &[u8]) -> Result<(), NoMemory>
        ensures { OnOk result (self.new ≡ closed reply.now self.old) }
    {
        self.out.push_all(reply)?;
        self.reader = Reader::new(self.alloc, Side::Requests, MOST_CHAIN);
        self.chains = ChainReader::new(self.alloc);
        self.dead = true;
        Ok(())
    }
}

ghost use Rattle.std.specs.Prelude.{◌≡◌, ◌≤◌, ◌<◌, ◌+◌, ◌^◌, ◌++◌, [], if◌then◌else◌, length, map, take, drop, option_copied, IfOk, OnOk};
ghost use Rattle.std.specs.Option.{ForSome};
ghost use Rattle.std.specs.List.{AllByRecursion};
ghost use Rattle.access_handshake.specs.declared.stage.Stage.TheVariants.{New, Attached};
ghost use Rattle.reply_texts.specs.RdbName.{characters_of};
ghost use Rattle.unit_segments.specs.Limit.{most_commands};
ghost use Rattle.unit_segments.specs.Release.{FitsAChain};
ghost use Rattle.unit_segments.specs.Strip.{FitsAReply};
ghost use Rattle.requester_core.specs.Replay.{given};
ghost use Rattle.requester_core.specs.Round.{needed, work};
ghost use Rattle.requester_core.specs.Talk.{quiet, mark_of, again_for, begun, to_send, sent, is_in_segment, back, given_up, ended_in};
ghost use Rattle.requester_core.specs.Talk.{with_piece, with_replies, read_in, read_all, judged_piece, with_byte, without_reader, judged_all};
ghost use Rattle.requester_core.specs.Reply.{most_reply_bytes, least_after, number_in, rest_of};
ghost use Rattle.dss_frame.specs.declared.dss.Side.TheVariants.{Replies};
ghost use Rattle.dss_frame.specs.Reading.{start, fed};

use crate::answer::told_typdef;
use crate::got::Got;
use crate::judging::{admits, finished};
use crate::replay::replayed;
use crate::reply::{Judged, Numbers, Rest, judge, judge_byte};
use crate::round::{Rounds, put_access, put_again, put_hello, put_work};
use access_handshake::{Access, Mark, Stage};
use byteorder::{BigEndian, ByteOrder};
use ddm_codepoints::TypDef;
use dss_frame::{DssList, FeedFault, Placed, Reader, Side};
use link_ends::{NoMemory, Sequence};
use reply_texts::RdbName;
use std::alloc::Global;
use std::collections::VecDeque;
use std::marker::Model;
use std::mem;
use unit_segments::{Command, CommandList, RegisterLog, Segment};

/// How many bytes a reply has at most.
const MOST_REPLY_BYTES: usize = 33_554_432;

/// The gateway's end of a conversation with a server, for as long as a session has it. It is seen as the chains still to be sent,
/// how far the first of them was taken, and what was read of its reply.
#[derive(Debug, Drop)]
pub struct Talk {
    alloc: Global,
    name: RdbName,
    stage: Stage,
    mechanism: u16,
    typdef: TypDef,
    rounds: Rounds,
    taken: usize,
    reader: Reader,
    replies: DssList,
    unread: usize,
}

impl Model for Talk {
    ghost use Rattle.std.specs.Prelude.{◌≡◌};
    ghost use Rattle.std.specs.List.{AllByRecursion};
    ghost use Rattle.reply_texts.specs.RdbName.{characters_of};
    ghost use Rattle.unit_segments.specs.Strip.{FitsAReply};
    ghost use Rattle.requester_core.specs.Reply.{most_reply_bytes};
    ghost use Rattle.requester_core.specs.Talk.{Talking};

    ghost Value = { Talking };

    ghost view = { λ t. record {
      name = characters_of t.name;
      stage = t.stage;
      mechanism = t.mechanism;
      typdef = t.typdef;
      rounds = t.rounds.items;
      taken = t.taken;
      reader = t.reader;
      replies = t.replies;
      unread = t.unread;
    } };

    ghost invariant = { λ t. (t.reader.limit ≡ most_reply_bytes) × AllByRecursion FitsAReply t.replies };
}

impl Talk {
    /// A conversation that was dialled: nothing was said in it. The name of the gateway's database is told in ACCSEC. What is read
    /// is stored in memory of this allocator.
    pub fn dialled(alloc: Global, rdb: &RdbName) -> Talk
        ensures { result ≡ quiet (characters_of rdb.now) New }
    {
        Talk::at(alloc, rdb, Stage::New)
    }

    /// A conversation that was idle: the server's attributes are known.
    pub fn idle(alloc: Global, rdb: &RdbName) -> Talk
        ensures { result ≡ quiet (characters_of rdb.now) Attached }
    {
        Talk::at(alloc, rdb, Stage::Attached)
    }

    /// A conversation at a stage.
    fn at(alloc: Global, rdb: &RdbName, stage: Stage) -> Talk
        ensures { result ≡ quiet (characters_of rdb.now) stage }
    {
        Talk {
            alloc,
            name: *rdb,
            stage,
            mechanism: 0,
            typdef: TypDef::Sql370,
            rounds: VecDeque::new(alloc),
            taken: 0,
            reader: new_reader(alloc),
            replies: Sequence::new(alloc),
            unread: 0,
        }
    }

    /// Sets out what is to be sent: the handshake that leads from where the conversation stands to where the session does, and then
    /// the segment, where one is given. The handshake is the gateway's EXCSAT on a conversation that was dialled, then ACCSEC, SECCHK,
    /// ACCRDB and one EXCSQLSET of the registers, as far as the stage has them, as one chain where it has at most 16,777,216 bytes
    /// and else each as a chain of its own, and then the commands that run again, where the database was accessed and a segment is given. A conversation
    /// that is past its server's attributes needs none. No body of the segment's commands has more than 16,777,216 bytes, and at most
    /// 4,096 commands run again.
    #[tactic(auto, unfolding(crate::specs::Talk::begun))]
    pub fn begin(
        &mut self,
        stage: Stage,
        access: Option<&Access>,
        secmec: u16,
        registers: &RegisterLog,
        again: &CommandList,
        segment: Option<&Segment>,
    ) -> Result<(), NoMemory>
        requires fits { ForSome (option_copied segment) (λ commands. AllByRecursion FitsAChain commands) }
        requires few { length again.now ≤ most_commands }
        ensures { OnOk result (self.new ≡ begun stage secmec (option_copied access.entry) registers.now again.now (option_copied segment.entry) self.old) }
    {
        let mut rounds = VecDeque::new(self.alloc);
        let again = again_for(again, segment);
        self.put_needed(stage, access, secmec, registers, again, &mut rounds)?;
        put_work(self.alloc, segment, &mut rounds)?;
        self.mechanism = secmec;
        self.rounds = rounds;
        self.taken = 0;
        self.replies = Sequence::new(self.alloc);
        self.unread = 0;
        Ok(())
    }

    /// Appends the rounds of the handshake.
    fn put_needed(
        &self,
        stage: Stage,
        access: Option<&Access>,
        secmec: u16,
        registers: &RegisterLog,
        again: &[Command],
        rounds: &mut Rounds,
    ) -> Result<(), NoMemory>
        requires { length again.now ≤ most_commands }
        ensures { OnOk result (rounds.new.items ≡ rounds.old.items
            ++ needed self.now.stage self.now.name stage (given secmec (option_copied access.entry)) registers.now again.now) }
    {
        match self.stage {
            Stage::New => put_hello(self.alloc, rounds)?,
            Stage::Attached => {}
            Stage::Chosen | Stage::Checked | Stage::Accessed => return Ok(()),
        }
        let commands = replayed(self.alloc, &self.name, stage, secmec, access, registers)?;
        put_access(self.alloc, &commands, rounds)?;
        put_again(self.alloc, stage, again, rounds)
    }

    /// The bytes of the chain in work that weren't taken yet. A chain is sent when the reply to the one before is whole.
    pub fn to_send(&self) -> &[u8]
        ensures { result.now ≡ to_send self.now }
    {
        match self.rounds.front() {
            Some(outgoing) => outgoing.bytes().get(self.taken..).unwrap_or(&[]),
            None => &[],
        }
    }

    /// So many of these bytes were taken.
    pub fn on_sent(&mut self, n: usize) -> Result<(), NoMemory>
        requires { n ≤ length (to_send self.old) }
        ensures { OnOk result (self.new ≡ sent n self.old) }
    {
        let Some(outgoing) = self.rounds.front() else {
            return Ok(());
        };
        if self.taken <= outgoing.bytes().len() {
            self.taken += n;
        }
        Ok(())
    }

    /// Whether a byte of the segment was taken.
    pub fn in_segment(&self) -> bool
        ensures { result ≡ is_in_segment self.now }
    {
        match self.rounds.front() {
            Some(outgoing) => outgoing.round().is_work() && self.taken > 0,
            None => false,
        }
    }

    /// Where the conversation stands, and how many bytes were read of a reply that isn't whole.
    pub fn mark(&self) -> Mark
        ensures { result ≡ mark_of self.now }
    {
        Mark {
            stage: self.stage,
            unread: self.unread,
        }
    }

    /// Reads a piece of the server's bytes, as the reply to the chain in work. A reply is whole DSSs of a server, chained but for the
    /// last, whose correlation numbers never fall, each that of a command of the chain (DRDA, volume 3, DSS: chaining), and has at most
    /// 33,554,432 bytes. `Broken` comes exactly where it isn't so, and where a byte follows it in the piece; the lower of the places of
    /// this and of the first byte beyond the limit decides, and the limit where both are one: `TooLong` of the segment's reply,
    /// `Refused` of another. When the reply is whole, `Refused` comes exactly where it refuses access; else `Whole` for the segment,
    /// and behind the last chain of a handshake without one `Ready`. In every other case it is `More`; the next chain is in work
    /// where the reply is whole. Where no chain is in work, nothing is read.
    #[tactic(auto, unfolding(crate::specs::Talk::back))]
    pub fn on_back(&mut self, piece: &[u8]) -> Result<Got, NoMemory>
        ensures got { IfOk result (λ got. got ≡ (back piece.now self.old).got) }
        ensures talk { OnOk result (self.new ≡ (back piece.now self.old).talk) }
    {
        let Some(outgoing) = self.rounds.front() else {
            return Ok(Got::More);
        };
        let is_work = outgoing.round().is_work();
        let count = outgoing.round().commands().len();
        match self.read(count, piece)? {
            Judged::GoesOn => Ok(Got::More),
            Judged::Leaves { at } => {
                self.give_up();
                Ok(Got::Broken { at })
            }
            Judged::Passes => {
                self.give_up();
                Ok(too_long(is_work))
            }
            Judged::Ends => self.end(),
        }
    }

    /// Reads a piece of the reply to so many commands: what is within the limit, and the first byte beyond it.
    fn read(&mut self, count: usize, piece: &[u8]) -> Result<Judged, NoMemory>
        ensures judged { IfOk result (λ judged. judged ≡ judged_all count piece.now self.old) }
        ensures talk { OnOk result (self.new ≡ read_all piece.now self.old) }
    {
        let (front, behind) = split(piece, MOST_REPLY_BYTES.saturating_sub(self.unread));
        let judged = self.read_within(count, front)?;
        match behind.first() {
            Some(byte) => self.read_beyond(count, judged, *byte),
            None => Ok(judged),
        }
    }

    /// Reads a piece that is within the limit.
    fn read_within(&mut self, count: usize, piece: &[u8]) -> Result<Judged, NoMemory>
        requires { self.old.unread + length piece.now < 2 ^ 64 }
        ensures judged { IfOk result (λ judged. judged ≡ judged_piece count piece.now self.old) }
        ensures talk { OnOk result (self.new ≡ read_in piece.now self.old) }
    {
        let placed = self.take_in(piece)?;
        let numbers = Numbers {
            count,
            least: least_after(&self.replies),
        };
        let judged = judge(numbers, placed.as_slice(), self.rest());
        self.keep(placed)?;
        Ok(judged)
    }

    /// Reads the first byte beyond the limit, behind what comes to this. The reader isn't kept.
    fn read_beyond(&mut self, count: usize, judged: Judged, byte: u8) -> Result<Judged, NoMemory>
        ensures judged { IfOk result (λ now. now ≡ with_byte judged count byte self.old) }
        ensures talk { OnOk result (self.new ≡ without_reader self.old) }
    {
        let mut reader = mem::replace(&mut self.reader, new_reader(self.alloc));
        let numbers = Numbers {
            count,
            least: least_after(&self.replies),
        };
        match judged {
            Judged::GoesOn => judge_byte(numbers, &mut reader, byte),
            Judged::Leaves { .. } | Judged::Passes => Ok(judged),
            Judged::Ends => Ok(Judged::Leaves { at: reader.place() }),
        }
    }

    /// Reads a piece, and takes out of the reader what is whole.
    fn take_in(&mut self, piece: &[u8]) -> Result<Vec<Placed>, NoMemory>
        requires { self.old.unread + length piece.now < 2 ^ 64 }
        ensures placed { IfOk result (λ placed. placed.items ≡ (fed self.old.reader piece.now).whole) }
        ensures fit { IfOk result (λ placed. AllByRecursion (λ p. FitsAReply p.dss) placed.items) }
        ensures talk { OnOk result (self.new ≡ with_piece piece.now self.old) }
    {
        if let Err(FeedFault::NoMemory) = self.reader.feed(piece) {
            return Err(NoMemory);
        }
        let placed = take_all(self.alloc, &mut self.reader)?;
        self.unread += piece.len();
        Ok(placed)
    }

    /// What stands behind the whole DSSs that were read.
    fn rest(&self) -> Rest
        ensures { result ≡ rest_of self.now.reader }
    {
        let begun = self.reader.begun();
        Rest {
            place: self.reader.place(),
            begun: !begun.is_empty(),
            number: number_in(begun),
            fault: self.reader.fault(),
        }
    }

    /// Adds DSSs to the reply in work.
    fn keep(&mut self, placed: Vec<Placed>) -> Result<(), NoMemory>
        requires { AllByRecursion (λ p. FitsAReply p.dss) placed.items }
        ensures { OnOk result (self.new ≡ with_replies placed.items self.old) }
    {
        let mut replies = mem::replace(&mut self.replies, Sequence::new(self.alloc));
        append(placed, &mut replies)?;
        self.replies = replies;
        Ok(())
    }

    /// Gives up the reply in work.
    fn give_up(&mut self)
        ensures { self.new ≡ given_up self.old }
    {
        self.reader = new_reader(self.alloc);
        self.replies = Sequence::new(self.alloc);
    }

    /// The reply in work is whole.
    fn end(&mut self) -> Result<Got, NoMemory>
        ensures got { IfOk result (λ got. got ≡ (ended_in self.old.rounds self.old).got) }
        ensures talk { OnOk result (self.new ≡ (ended_in self.old.rounds self.old).talk) }
    {
        let Some(outgoing) = self.rounds.front() else {
            return Ok(Got::More);
        };
        let round = outgoing.round();
        let replies = self.replies.as_slice();
        if !admits(self.alloc, self.typdef, self.mechanism, round, replies)? {
            self.give_up();
            return Ok(Got::Refused);
        }
        let typdef = told_typdef(self.alloc, self.typdef, replies)?;
        let done = finished(self.alloc, round, &self.replies, self.stage)?;
        self.rounds.pop_front();
        self.stage = done.stage;
        self.typdef = typdef;
        self.taken = 0;
        self.replies = Sequence::new(self.alloc);
        self.unread = 0;
        Ok(match done.stripped {
            Some(stripped) => Got::Whole(stripped),
            None if self.rounds.is_empty() => Got::Ready,
            None => Got::More,
        })
    }
}

/// What reads a reply.
fn new_reader(alloc: Global) -> Reader
    ensures { result ≡ start Replies most_reply_bytes }
{
    Reader::new(alloc, Side::Replies, MOST_REPLY_BYTES as u64)
}

/// The first so many bytes of a piece, where it has so many, and the others.
fn split(piece: &[u8], room: usize) -> (&[u8], &[u8])
    ensures front { result.0.now ≡ take room piece.now }
    ensures behind { result.1.now ≡ drop room piece.now }
{
    match piece.split_at_checked(room) {
        Some(parts) => parts,
        None => (piece, &[]),
    }
}

/// What runs again: nothing without a segment.
fn again_for<'a>(again: &'a CommandList, segment: Option<&Segment>) -> &'a [Command]
    ensures again { result.now ≡ again_for (option_copied segment.entry) again.now }
    ensures few { length result.now ≤ length again.now }
{
    if segment.is_some() {
        again.as_slice()
    } else {
        &[]
    }
}

/// Appends DSSs without their places.
fn append(placed: Vec<Placed>, replies: &mut DssList) -> Result<(), NoMemory>
    ensures { OnOk result (replies.new ≡ replies.old ++ map (λ p. p.dss) placed.items) }
{
    for one in placed {
        replies.push(one.dss)?;
    }
    Ok(())
}

/// What a reply comes to that has too many bytes, of a round that is or isn't the segment.
fn too_long(is_work: bool) -> Got
    ensures { result ≡ (if is_work then Got.TooLong else Got.Refused) }
{
    if is_work { Got::TooLong } else { Got::Refused }
}

/// The least number that may come behind these DSSs of a reply.
fn least_after(replies: &DssList) -> u16
    ensures { result ≡ least_after replies.now }
{
    match replies.as_slice().last() {
        Some(reply) => reply.corr,
        None => 1,
    }
}

/// The correlation number of the DSS that begins with these bytes, where it came.
fn number_in(bytes: &[u8]) -> Option<u16>
    ensures { result ≡ number_in bytes.now }
{
    if bytes.len() < 6 {
        return None;
    }
    Some(BigEndian::read_u16(&bytes[4..]))
}

/// Takes out of a reader all that is whole.
fn take_all(alloc: Global, reader: &mut Reader) -> Result<Vec<Placed>, NoMemory>
    requires { reader.old.limit ≡ most_reply_bytes }
    ensures placed { IfOk result (λ placed. placed.items ≡ reader.old.whole) }
    ensures fit { IfOk result (λ placed. AllByRecursion (λ p. FitsAReply p.dss) placed.items) }
    ensures rest { OnOk result (reader.new ≡ record reader.old { whole = [] }) }
    ensures limit { reader.new.limit ≡ reader.old.limit }
{
    let mut all = Vec::new(alloc);
    while let Some(placed) = reader.take() {
        all.push(placed)?;
    }
    Ok(all)
}

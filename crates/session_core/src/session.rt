ghost use Rattle.std.specs.Prelude.{◌≡◌, ◌≤◌, ◌++◌, true, [], Some, drop, length, nat_lt, slice_get, option_copied, option_map, IsTrue, IfOk, OnOk};
ghost use Rattle.std.specs.List.{AllByRecursion};
ghost use Rattle.reply_texts.specs.Sqlcard.{has_text};
ghost use Rattle.reply_texts.specs.RdbName.{characters_of};
ghost use Rattle.unit_segments.specs.Limit.{most_commands, most_reply_bytes};
ghost use Rattle.unit_segments.specs.Spelling.{join};
ghost use Rattle.plain_model.specs.Group.{IsCommand};
ghost use Rattle.plain_model.specs.Core.{new_core, first, others, first_number, still, settled, finished};
ghost use Rattle.plain_model.specs.Local.{is_local};
ghost use Rattle.plain_model.specs.Begun.{Chain as ChainRead, Fault, TooLong, begun};
ghost use Rattle.plain_model.specs.Answered.{answered, answered_core, unit_after, standing_after, register_fault, past_limit};
ghost use Rattle.plain_model.specs.Lost.{lost, owes, accepted, rolled_back_with, none_left_replies, none_left, message, closed, left};
ghost use Rattle.session_core.specs.Seen.{seen_owed, seen_kind, seen_end, unnumbered, ends_kept, standing_by_access, work_done, segment_left};
ghost use Rattle.session_core.specs.SeenAnswer.{with_first};

use crate::access::{
    gives_admission, has_accrdbrm, sets_only, stands_by_access, told_typdef, without_error,
};
use crate::end::{CoreEnd, LimitKind};
use crate::local::{answer_locally, is_local};
use crate::replies::{ended_card, message, rerouted_card, rolled_back, sqlcard};
use crate::size::room_behind;
use crate::standing::Standing;
use crate::work::{append, grown_again, has_commit, is_work, limit_of};
use access_handshake::Stage;
use ddm_codepoints::TypDef;
use ddm_codepoints::code_point::{ACCRDB, AGNPRMRM, RSCLMTRM, SECCHK};
use ddm_codepoints::value::{ERROR, SEVERE};
use dss_frame::{Dss, DssList};
use link_ends::{NoMemory, Octets, Sequence};
use reply_texts::{Card, RdbName, limit_dss, syntax_dss};
use requester_core::{Lost, Owed, Verdict, decide};
use std::alloc::Global;
use std::marker::Model;
use unit_segments::{
    Chain, Command, CommandList, RegisterFault, Segment, SegmentList, Stripped, cut, join_replies,
};

/// How many bytes the replies to a chain have at most.
const MOST_REPLY_BYTES: usize = 33_554_432;

/// A session without its conversation and without bytes. It is seen as the core of the plain model, where the number of the unit in
/// work isn't counted.
#[derive(Drop)]
pub struct SessionCore {
    alloc: Global,
    standing: Standing,
    typdef: TypDef,
    pinned: bool,
    spoken: bool,
    again: CommandList,
    /// The segments of the chain in work, and how many of them are answered.
    segments: SegmentList,
    answered: usize,
    kept: DssList,
    sent: bool,
    owed: Option<Owed>,
    end: Option<CoreEnd>,
}

impl Model for SessionCore {
    ghost use Rattle.std.specs.Prelude.{◌≡◌, true, drop, option_map};
    ghost use Rattle.std.specs.List.{AllByRecursion};
    ghost use Rattle.plain_model.specs.Group.{IsCommand};
    ghost use Rattle.plain_model.specs.Core.{Core};
    ghost use Rattle.plain_model.specs.Answered.{fit};
    ghost use Rattle.session_core.specs.Seen.{seen_owed, seen_end};

    ghost Value = { Core };

    ghost view = { λ c. record {
      standing = c.standing;
      typdef = c.typdef;
      pinned = c.pinned;
      spoken = c.spoken;
      again = c.again;
      unit = 0;
      segments = drop c.answered c.segments;
      kept = c.kept;
      sent = c.sent;
      owed = seen_owed c.owed;
      end = option_map seen_end c.end;
    } };

    ghost invariant = { λ c. AllByRecursion (AllByRecursion IsCommand) (drop c.answered c.segments) × (fit c.again ≡ true) };
}

impl SessionCore {
    /// A session in which nothing was said.
    pub fn new(alloc: Global) -> SessionCore
        ensures { result ≡ unnumbered new_core }
    {
        SessionCore {
            alloc,
            standing: Standing::new(alloc),
            typdef: TypDef::Sql370,
            pinned: false,
            spoken: false,
            again: Sequence::new(alloc),
            segments: Sequence::new(alloc),
            answered: 0,
            kept: Sequence::new(alloc),
            sent: false,
            owed: None,
            end: None,
        }
    }

    // ---- what it is

    /// Where it stands.
    pub fn standing(&self) -> &Standing
        ensures { result.now ≡ self.now.standing }
    {
        &self.standing
    }

    /// The commands that run again before the segment in work where its conversation is lost. They are few.
    pub fn again(&self) -> &CommandList
        ensures again { result.now ≡ self.now.again }
        ensures few { length result.now ≤ most_commands }
    {
        &self.again
    }

    /// The segment in work: the first of the chain in work that isn't answered.
    pub fn segment(&self) -> Option<&Segment>
        ensures segment { option_copied result ≡ slice_get self.now.segments 0 }
        ensures commands { AllByRecursion IsCommand (first self.now.segments) }
    {
        self.segments.get(self.answered)
    }

    /// The replies that are kept to the segments of the chain in work that are answered.
    pub fn kept(&self) -> &DssList
        ensures { result.now ≡ self.now.kept }
    {
        &self.kept
    }

    /// Whether the replies to the chain in work have too many bytes with these behind those that are kept: more than 33,554,432 in one
    /// chain.
    #[tactic(auto, using(crate::proofs::Sizes::passes_first, crate::proofs::Sizes::passes_then, crate::proofs::Sizes::room_most))]
    pub fn passes_limit(&self, replies: &DssList) -> bool
        ensures { result ≡ nat_lt most_reply_bytes (length (join (self.now.kept ++ replies.now))) }
    {
        match room_behind(MOST_REPLY_BYTES, self.kept.as_slice()) {
            Some(room) => room_behind(room, replies.as_slice()).is_none(),
            None => true,
        }
    }

    /// The error that is still to be told of a unit of work that was lost.
    pub fn owed(&self) -> Option<Owed>
        ensures { seen_owed result ≡ self.now.owed }
    {
        self.owed
    }

    /// How it ended, if it did.
    pub fn end(&self) -> Option<CoreEnd>
        ensures { option_map seen_end result ≡ self.now.end }
    {
        self.end
    }

    /// The correlation number of the first command of the segment in work, or 0.
    pub fn first_number(&self) -> u16
        ensures { result ≡ first_number self.now }
    {
        match self.commands().first() {
            Some(command) => command.corr,
            None => 0,
        }
    }

    /// The commands of the segment in work.
    fn commands(&self) -> &[Command]
        ensures first { result.now ≡ first self.now.segments }
        ensures commands { AllByRecursion IsCommand result.now }
    {
        first_of(&self.segments, self.answered)
    }

    // ---- a chain comes into work

    /// A chain comes into work. What the gateway itself answers of it is answered: the bytes of the reply to the whole chain, where
    /// that is all of it.
    #[tactic(auto, unfolding(plain_model::specs::Begun::begun))]
    pub fn begin_chain(&mut self, rdb: &RdbName, chain: &Chain) -> Result<Octets, NoMemory>
        requires { AllByRecursion IsCommand chain.now }
        ensures said { IfOk result (λ said. said ≡ (begun (characters_of rdb.now) (ChainRead chain.now) self.old).said) }
        ensures core { OnOk result (self.new ≡ (begun (characters_of rdb.now) (ChainRead chain.now) self.old).core) }
    {
        self.segments = cut(self.alloc, chain)?;
        self.answered = 0;
        self.settle(rdb)?;
        self.finish()
    }

    /// In place of a chain a field comes that is none of it: it is answered SYNTAXRM (DDM, volume 3), and the session ends.
    #[tactic(auto, unfolding(plain_model::specs::Begun::begun))]
    pub fn begin_fault(
        &mut self,
        rdb: &RdbName,
        place: u64,
        error: u8,
        number: u16,
    ) -> Result<Octets, NoMemory>
        ensures said { IfOk result (λ said. said ≡ (begun (characters_of rdb.now) (Fault place error number) self.old).said) }
        ensures core { OnOk result (self.new ≡ (begun (characters_of rdb.now) (Fault place error number) self.old).core) }
    {
        self.end = Some(CoreEnd::Refused { place });
        Octets::of(self.alloc, &syntax_dss(number, error))
    }

    /// A chain that is too long is answered RSCLMTRM (DDM, volume 3), and the session ends.
    #[tactic(auto, unfolding(plain_model::specs::Begun::begun))]
    pub fn begin_too_long(&mut self, rdb: &RdbName, number: u16) -> Result<Octets, NoMemory>
        ensures said { IfOk result (λ said. said ≡ (begun (characters_of rdb.now) (TooLong number) self.old).said) }
        ensures core { OnOk result (self.new ≡ (begun (characters_of rdb.now) (TooLong number) self.old).core) }
    {
        self.end = Some(CoreEnd::Limit {
            kind: LimitKind::Request,
        });
        Octets::of(self.alloc, &limit_dss(number))
    }

    // ---- the segment in work

    /// A first byte of the segment in work was sent.
    pub fn send(&mut self)
        ensures { self.new ≡ record self.old { sent = true } }
    {
        self.sent = true;
    }

    /// The segment in work was answered so: the bytes of the reply to the whole chain, where it was the last of it.
    #[tactic(auto, unfolding(plain_model::specs::Answered::answered), using(crate::proofs::Cores::finished_said, crate::proofs::Cores::finished_core))]
    pub fn answer(&mut self, rdb: &RdbName, stripped: Stripped) -> Result<Octets, NoMemory>
        ensures said { IfOk result (λ said. said ≡ (answered (characters_of rdb.now) stripped self.old).said) }
        ensures core { OnOk result (self.new ≡ unnumbered (answered (characters_of rdb.now) stripped self.old).core) }
    {
        let number = self.first_number();
        match self.take_answer(stripped)? {
            None => {
                self.settle(rdb)?;
                self.finish()
            }
            Some(fault) => self.pass_limit(number, limit_of(fault)),
        }
    }

    /// The segment leaves with its replies: what is wrong with the registers that its unit of work has set, if something is.
    #[tactic(auto, using(crate::proofs::Cores::stands_then_left))]
    fn take_answer(&mut self, stripped: Stripped) -> Result<Option<RegisterFault>, NoMemory>
        ensures fault { IfOk result (λ fault. fault ≡ register_fault stripped self.old) }
        ensures core { OnOk result (self.new ≡ unnumbered (answered_core stripped self.old)) }
    {
        let fault = self.stand(&stripped)?;
        self.do_work(&stripped)?;
        self.leave_segment(stripped)?;
        Ok(fault)
    }

    /// The session stands where the replies to the segment lead it.
    #[tactic(auto, using(crate::proofs::Cores::unit_stands, crate::proofs::Cores::access_stands))]
    fn stand(&mut self, stripped: &Stripped) -> Result<Option<RegisterFault>, NoMemory>
        ensures fault { IfOk result (λ fault. fault ≡ register_fault stripped.now self.old) }
        ensures core { OnOk result (self.new ≡ record self.old { standing = standing_after self.old.standing (first self.old.segments) stripped.now }) }
    {
        if stands_by_access(self.commands()) {
            // The registers are judged by the log as it was: access begins another.
            let fault = self.standing.register_fault(stripped)?;
            self.stand_by_access(stripped.replies.as_slice())?;
            return Ok(fault);
        }
        if stripped.ended {
            return self.standing.end_unit(&stripped.sets);
        }
        Ok(None)
    }

    /// The same of a segment of access.
    fn stand_by_access(&mut self, replies: &[Dss]) -> Result<(), NoMemory>
        ensures { OnOk result (self.new ≡ record self.old { standing = standing_by_access self.old.standing (first self.old.segments) replies.now }) }
    {
        let Some(command) = self.commands().first() else {
            return Ok(());
        };
        let code = command.code;
        let object = command.body.part(0, command.body.len())?;
        match code {
            SECCHK if gives_admission(replies) => self.standing.check(self.alloc, object),
            SECCHK => self.standing = Standing::attached(self.alloc),
            ACCRDB if has_accrdbrm(replies) => self.standing.access_database(self.alloc, object),
            _ => {}
        }
        Ok(())
    }

    /// What the answer makes of the unit of work.
    fn do_work(&mut self, stripped: &Stripped) -> Result<(), NoMemory>
        ensures { OnOk result (self.new ≡ unnumbered (unit_after stripped.now self.old)) }
    {
        if stripped.ended {
            self.pinned = !stripped.granted;
            self.spoken = false;
            self.again = Sequence::new(self.alloc);
            return Ok(());
        }
        if is_work(self.commands()) {
            return self.do_segment(stripped.replies.as_slice());
        }
        Ok(())
    }

    /// The segment joins those that run again, or the unit of work is spoken.
    fn do_segment(&mut self, replies: &[Dss]) -> Result<(), NoMemory>
        ensures { OnOk result (self.new ≡ work_done replies.now self.old) }
    {
        if !self.spoken
            && without_error(replies)
            && sets_only(self.typdef, self.commands(), replies)
        {
            if let Some(grown) = grown_again(self.alloc, &self.again, self.commands())? {
                self.again = grown;
                return Ok(());
            }
        }
        self.spoken = true;
        Ok(())
    }

    /// The segment leaves, and its replies are kept.
    fn leave_segment(&mut self, stripped: Stripped) -> Result<(), NoMemory>
        ensures { OnOk result (self.new ≡ segment_left stripped self.old) }
    {
        let Stripped { replies, stop, .. } = stripped;
        self.typdef = told_typdef(self.alloc, self.typdef, replies.as_slice())?;
        if self.kept.is_empty() {
            self.kept = replies;
        } else {
            append(replies.as_slice(), &mut self.kept)?;
        }
        self.sent = false;
        if stop {
            self.stop();
        } else {
            self.next();
        }
        Ok(())
    }

    /// The chain in work has no segments any more.
    fn stop(&mut self)
        ensures { self.new ≡ record self.old { segments = [] } }
    {
        self.segments = Sequence::new(self.alloc);
        self.answered = 0;
    }

    /// The next segment of the chain comes into work.
    #[tactic(auto, using(crate::proofs::Cores::others_drop))]
    fn next(&mut self)
        ensures { self.new ≡ record self.old { segments = others self.old.segments } }
    {
        if self.answered < self.segments.len() {
            self.answered += 1;
        }
    }

    /// The reply is finished, and RSCLMTRM and the end follow as a chain of their own.
    fn pass_limit(&mut self, number: u16, kind: LimitKind) -> Result<Octets, NoMemory>
        ensures said { IfOk result (λ said. said ≡ (past_limit number (seen_kind kind) self.old).said) }
        ensures core { OnOk result (self.new ≡ (past_limit number (seen_kind kind) self.old).core) }
    {
        let mut said = join_replies(self.alloc, &self.kept)?;
        said.push_all(&limit_dss(number))?;
        self.stop();
        self.kept = Sequence::new(self.alloc);
        self.end = Some(CoreEnd::Limit { kind });
        Ok(said)
    }

    // ---- what the gateway itself answers

    /// The segments in front that the gateway itself answers are answered, while nothing is owed.
    #[tactic(auto, using(crate::proofs::Cores::settle_first, crate::proofs::Cores::settle_still))]
    fn settle(&mut self, rdb: &RdbName) -> Result<(), NoMemory>
        ensures { OnOk result (self.new ≡ (settled (characters_of rdb.now) self.old).core) }
    {
        if self.owed.is_some() {
            return Ok(());
        }
        while self.is_local(rdb)? {
            self.answer_first(rdb)?;
        }
        Ok(())
    }

    /// Whether the gateway itself answers the first segment.
    fn is_local(&self, rdb: &RdbName) -> Result<bool, NoMemory>
        ensures { IfOk result (λ local. local ≡ is_local (characters_of rdb.now) self.now.standing (first self.now.segments)) }
    {
        is_local(self.alloc, rdb, &self.standing, self.commands())
    }

    /// The gateway itself answers the first segment.
    fn answer_first(&mut self, rdb: &RdbName) -> Result<(), NoMemory>
        ensures { OnOk result (self.new ≡ with_first (characters_of rdb.now) self.old) }
    {
        let commands = first_of(&self.segments, self.answered);
        if answer_locally(
            self.alloc,
            rdb,
            commands,
            &mut self.standing,
            &mut self.kept,
        )? {
            self.stop();
        } else {
            self.next();
        }
        Ok(())
    }

    /// A chain whose segments are all answered is finished: its reply.
    fn finish(&mut self) -> Result<Octets, NoMemory>
        ensures said { IfOk result (λ said. said ≡ (finished (still self.old)).said) }
        ensures core { OnOk result (self.new ≡ (finished (still self.old)).core) }
    {
        if self.segment().is_some() {
            return Ok(Octets::new(self.alloc));
        }
        let said = join_replies(self.alloc, &self.kept)?;
        self.kept = Sequence::new(self.alloc);
        Ok(said)
    }

    // ---- the conversation is lost

    /// The conversation is lost: the segment in work is no longer sent. An error is owed where its commit was sent, or where the unit
    /// of work can't run again; one that was owed stays.
    #[tactic(auto, unfolding(plain_model::specs::Lost::lost))]
    pub fn lose(&mut self)
        ensures { self.new ≡ unnumbered (lost self.old) }
    {
        if self.owed.is_none() {
            let lost = Lost {
                commit_sent: self.sent && has_commit(self.commands()),
                spoken: self.spoken,
                pinned: self.pinned,
            };
            if let Verdict::Owe(owed) = decide(&lost) {
                self.owe(owed);
            }
        }
        self.sent = false;
    }

    /// An error is owed: nothing is done in the unit of work in work now.
    fn owe(&mut self, owed: Owed)
        ensures { self.new ≡ unnumbered (owes (seen_owed (Some owed)) (record self.old { sent = self.new.sent })) }
    {
        self.owed = Some(owed);
        self.spoken = false;
        self.pinned = false;
        self.again = Sequence::new(self.alloc);
        self.sent = false;
    }

    /// The owed error answers the first command in work: ABNUOWRM and SQLCARD (DDM, volume 3). Nothing more of the chain is run. The
    /// bytes of the reply to the chain.
    #[tactic(auto, unfolding(plain_model::specs::Lost::accepted))]
    pub fn accept(&mut self, rdb: &RdbName) -> Result<Octets, NoMemory>
        ensures said { IfOk result (λ said. said ≡ (accepted (characters_of rdb.now) self.old).said) }
        ensures core { OnOk result (self.new ≡ (accepted (characters_of rdb.now) self.old).core) }
    {
        self.roll_back(rdb, &rerouted_card(self.owed))?;
        self.stop();
        self.owed = None;
        self.finish()
    }

    /// Tells the first command in work that its unit of work was rolled back, with this card.
    fn roll_back(&mut self, rdb: &RdbName, card: &Card) -> Result<(), NoMemory>
        requires { IsTrue (has_text card.now) }
        ensures { OnOk result (self.new ≡ record self.old { kept = self.old.kept ++ rolled_back_with (characters_of rdb.now) card.now self.old }) }
    {
        let number = self.first_number();
        self.kept.push(rolled_back(self.alloc, rdb, number)?)?;
        self.kept
            .push(sqlcard(self.alloc, card, self.typdef, number)?)
    }

    /// No member gives access: AGNPRMRM before the database was accessed, and else ABNUOWRM and SQLCARD (DDM, volume 3). The bytes of
    /// the last reply; the session ends.
    #[tactic(auto, unfolding(plain_model::specs::Lost::none_left))]
    pub fn end_without_member(&mut self, rdb: &RdbName) -> Result<Octets, NoMemory>
        ensures said { IfOk result (λ said. said ≡ (none_left (characters_of rdb.now) self.old).said) }
        ensures core { OnOk result (self.new ≡ (none_left (characters_of rdb.now) self.old).core) }
    {
        self.put_last(rdb)?;
        self.end_with(CoreEnd::NoMember)
    }

    /// Keeps what is told where no member gives access.
    fn put_last(&mut self, rdb: &RdbName) -> Result<(), NoMemory>
        ensures { OnOk result (self.new ≡ record self.old {
          kept = self.old.kept ++ none_left_replies (characters_of rdb.now) self.old.standing.stage self.old;
        }) }
    {
        match self.standing.stage() {
            Stage::New | Stage::Attached | Stage::Chosen | Stage::Checked => {
                self.put_message(AGNPRMRM, SEVERE)
            }
            Stage::Accessed => {
                let unknown = matches!(self.owed, Some(Owed::Unknown));
                self.roll_back(rdb, &ended_card(unknown))
            }
        }
    }

    /// Keeps a reply message with its severity alone, with the number of the first command in work.
    fn put_message(&mut self, code: u16, value: u16) -> Result<(), NoMemory>
        ensures { OnOk result (self.new ≡ record self.old { kept = self.old.kept ++ message code value self.old }) }
    {
        let number = self.first_number();
        self.kept.push(message(self.alloc, code, value, number)?)
    }

    // ---- other ends

    /// A limit on replies or transports is passed: RSCLMTRM (DDM, volume 3). The bytes of the last reply; the session ends.
    #[tactic(auto, unfolding(plain_model::specs::Lost::closed))]
    pub fn close(&mut self, kind: LimitKind) -> Result<Octets, NoMemory>
        ensures said { IfOk result (λ said. said ≡ (closed (seen_kind kind) self.old).said) }
        ensures core { OnOk result (self.new ≡ (closed (seen_kind kind) self.old).core) }
    {
        self.put_message(RSCLMTRM, ERROR)?;
        self.end_with(CoreEnd::Limit { kind })
    }

    /// The replies that are kept are the last reply.
    fn end_with(&mut self, end: CoreEnd) -> Result<Octets, NoMemory>
        ensures said { IfOk result (λ said. said ≡ (ends_kept (seen_end end) self.old).said) }
        ensures core { OnOk result (self.new ≡ (ends_kept (seen_end end) self.old).core) }
    {
        let said = join_replies(self.alloc, &self.kept)?;
        self.kept = Sequence::new(self.alloc);
        self.end = Some(end);
        Ok(said)
    }

    /// The application ended, or failed. An end that the session already had stays.
    #[tactic(auto, unfolding(plain_model::specs::Lost::left))]
    pub fn leave(&mut self, failed: bool)
        ensures { self.new ≡ left failed self.old }
    {
        if self.end.is_some() {
            return;
        }
        self.end = Some(if failed {
            CoreEnd::AppFault
        } else {
            CoreEnd::AppEnded
        });
    }
}

/// The commands of the first segment behind those that are answered.
fn first_of(segments: &SegmentList, answered: usize) -> &[Command]
    requires { AllByRecursion (AllByRecursion IsCommand) (drop answered segments.now) }
    ensures first { result.now ≡ first (drop answered segments.now) }
    ensures commands { AllByRecursion IsCommand result.now }
{
    match segments.get(answered) {
        Some(segment) => segment.commands().as_slice(),
        None => &[],
    }
}

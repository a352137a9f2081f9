ghost use Rattle.std.specs.Prelude.{◌≡◌, ◌≤◌, ◌≢◌, ◌++◌, None, drop, length, map, IsOk, IfOk, OnOk, OnErr};
ghost use Rattle.reply_texts.specs.RdbName.{characters_of};
ghost use Rattle.gateway_session.specs.declared.need.Need.TheVariants.{App, Lend, Dial, Send, Back, Give, Say};
ghost use Rattle.gateway_session.specs.Session.{new_session, uncounted};
ghost use Rattle.gateway_session.specs.Members.{LendsMember};
ghost use Rattle.gateway_session.specs.Steps.{after_app, after_lend, after_dialled, after_sent, after_back, after_given, after_lost};
ghost use Rattle.gateway_session.specs.Memory.{Runs, IsClosing, IsGoing, IsLast, closed_after, step, out_of_memory, to_say_of, said_in};
ghost use Rattle.gateway_session.specs.Memory.{rest_after_said, app_end_in, id_in, need_in, to_say_in};
ghost use Rattle.gateway_session.specs.Memory.{to_send_in, mark_in, held_in, tries_in, loss_in, list_in, word_in, without_loss, without_list, without_word};
ghost use Rattle.gateway_session.specs.Memory.{outcome_in, without_outcome, user_in};
ghost use Rattle.gateway_session.specs.Told.{most_name};
ghost use Rattle.reply_texts.specs.Text.{ascii_in};
ghost use Rattle.ddm_codepoints.specs.declared.typdef.TypDef.TheVariants.{Sql370};

use crate::loss::{ErrorWord, Lent, LossWhy};
use crate::need::{End, Need};
use crate::running::{NO_MARK, Running};
use crate::saying::place_behind;
use access_handshake::Mark;
use ddm_codepoints::TypDef;
use link_ends::{NoMemory, Octets};
use reply_texts::{RdbName, decode, memory_dss};
use server_list::Tried;
use std::alloc::Global;
use std::marker::Model;
use unit_ledger::Outcome;

/// What is left of a session that found no memory.
#[derive(Drop)]
pub struct Closing {
    /// RSCLMTRM (DDM, volume 3), and how many of its bytes were said.
    pub reply: [u8; 16],
    pub said: usize,
}

/// One application's session.
#[derive(Drop)]
pub struct Session {
    running: Running,
    closing: Option<Closing>,
}

impl Model for Session {
    ghost use Rattle.gateway_session.specs.Memory.{State};
    ghost use Rattle.gateway_session.specs.Closing.{state_of, ClosesEmpty};

    ghost Value = { State };

    ghost view = { λ s. state_of s.running s.closing };

    ghost invariant = { λ s. ClosesEmpty s.running s.closing };
}

impl Session {
    /// Nothing came, and nothing was said. The session has this number.
    pub fn new(alloc: Global, id: u32, rdb: &RdbName) -> Result<Session, NoMemory>
        ensures { IfOk result (λ session. session ≡ Runs (uncounted (new_session id (characters_of rdb.now)))) }
    {
        Ok(Session {
            running: Running::new(alloc, id, rdb),
            closing: None,
        })
    }

    /// Its number.
    pub fn id(&self) -> u32
        ensures { result ≡ id_in self.now }
    {
        self.running.id()
    }

    // ---- what it is

    /// What it needs next.
    pub fn need(&self) -> Need
        ensures { result ≡ need_in self.now }
    {
        match &self.closing {
            None => self.running.need(),
            Some(_) if self.running.is_gone() || self.to_say().is_empty() => {
                Need::Done(End::NoMemory)
            }
            Some(_) => Need::Say,
        }
    }

    /// The number of the transport that is held.
    pub fn held(&self) -> Option<u64>
        ensures { result ≡ held_in self.now }
    {
        match &self.closing {
            None => self.running.number(),
            Some(_) => None,
        }
    }

    /// The members that were tried for the segment in work.
    pub fn tried(&self) -> Tried
        ensures { result ≡ (tries_in self.now).tried }
    {
        match &self.closing {
            None => self.running.tries().tried,
            Some(_) => Tried::none(),
        }
    }

    /// Whether the next transport is to be dialled.
    pub fn fresh(&self) -> bool
        ensures { result ≡ (tries_in self.now).fresh }
    {
        match &self.closing {
            None => self.running.tries().fresh,
            Some(_) => false,
        }
    }

    /// The bytes that its server is to be sent now.
    pub fn to_send(&self) -> &[u8]
        ensures { result.now ≡ to_send_in self.now }
    {
        match &self.closing {
            None => self.running.to_send(),
            Some(_) => &[],
        }
    }

    /// Bytes that are to be said to its application: all of them, but that RSCLMTRM for want of memory comes by itself, behind the rest
    /// of the reply that was finished before.
    pub fn to_say(&self) -> &[u8]
        ensures { result.now ≡ to_say_in self.now }
    {
        match &self.closing {
            Some(closing) if self.running.to_say().is_empty() => closing.left(),
            _ => self.running.to_say(),
        }
    }

    /// Where the conversation that is held stands; nothing was said where there is none.
    pub fn mark(&self) -> Mark
        ensures { result ≡ mark_in self.now }
    {
        match &self.closing {
            None => self.running.mark(),
            Some(_) => NO_MARK,
        }
    }

    /// The name of the user that was given for access (DDM, volume 3, USRID), in ASCII, in the first bytes; how many these are. There is
    /// none before access, nor where it has more than 32 bytes or one that is no character in EBCDIC, nor once memory ran out.
    pub fn user(&self, out: &mut [u8; 32]) -> usize
        ensures count { result ≡ length (user_in self.now) }
        ensures name { out.new ≡ user_in self.now ++ drop (length (user_in self.now)) out.old }
    {
        match &self.closing {
            None => put_name(self.running.user_codes(), out),
            Some(_) => 0,
        }
    }

    // ---- what wasn't asked for

    /// The last list of members that a server told, if that wasn't asked for: the data of SRVLST (DRDA, volume 3).
    pub fn learned(&mut self) -> Option<Octets>
        ensures list { result ≡ list_in self.old }
        ensures session { self.new ≡ without_list self.old }
    {
        self.running.take_list()
    }

    /// The last loss, if that wasn't asked for: the number of the transport, and why it was lost.
    pub fn lost(&mut self) -> Option<(u64, LossWhy)>
        ensures loss { result ≡ loss_in self.old }
        ensures session { self.new ≡ without_loss self.old }
    {
        self.running.take_loss()
    }

    /// The last error that the session made, if that wasn't asked for.
    pub fn told(&mut self) -> Option<ErrorWord>
        ensures word { result ≡ word_in self.old }
        ensures session { self.new ≡ without_word self.old }
    {
        self.running.take_word()
    }

    /// What was told last of the end of a unit of work, if that wasn't asked for: by the replies to the command that ended it, by an
    /// owed error, or where no member is left. A step tells of one unit at most.
    pub fn outcome(&mut self) -> Option<Outcome>
        ensures outcome { result ≡ outcome_in self.old }
        ensures session { self.new ≡ without_outcome self.old }
    {
        self.running.take_outcome()
    }

    // ---- steps

    /// A piece came of the application. It needs it.
    pub fn on_app(&mut self, piece: &[u8]) -> Result<(), NoMemory>
        requires { need_in self.old ≡ App }
        ensures ok { OnOk result (self.new ≡ step (after_app piece.now) self.old) }
        ensures memory { OnErr result (self.new ≡ out_of_memory to_say_of self.old) }
    {
        let last = self.last();
        let stepped = self.running.app(piece);
        self.close_after(stepped, last)
    }

    /// The pool answered. It needs a transport; a member that is named is 1 to 32.
    pub fn on_lend(&mut self, lent: Lent) -> Result<(), NoMemory>
        requires need { need_in self.old ≡ Lend }
        requires member { LendsMember lent }
        ensures ok { OnOk result (self.new ≡ step (after_lend lent) self.old) }
        ensures memory { OnErr result (self.new ≡ out_of_memory to_say_of self.old) }
    {
        let last = self.last();
        let stepped = self.running.lend(lent);
        self.close_after(stepped, last)
    }

    /// Its transport was dialled, or couldn't be. It needs that.
    pub fn on_dialled(&mut self, ok: bool) -> Result<(), NoMemory>
        requires { need_in self.old ≡ Dial }
        ensures ok { OnOk result (self.new ≡ step (after_dialled ok) self.old) }
        ensures memory { OnErr result (self.new ≡ out_of_memory to_say_of self.old) }
    {
        let last = self.last();
        let stepped = self.running.dialled(ok);
        self.close_after(stepped, last)
    }

    /// So many bytes were sent to its server; a link that takes none takes nothing more. It needs that.
    pub fn on_sent(&mut self, n: usize) -> Result<(), NoMemory>
        requires need { need_in self.old ≡ Send }
        requires size { n ≤ length (to_send_in self.old) }
        ensures ok { OnOk result (self.new ≡ step (after_sent n) self.old) }
        ensures memory { OnErr result (self.new ≡ out_of_memory to_say_of self.old) }
    {
        let last = self.last();
        let stepped = self.running.sent(n);
        self.close_after(stepped, last)
    }

    /// A piece came of its server; a link that gives none gives nothing more. It needs that.
    pub fn on_back(&mut self, piece: &[u8]) -> Result<(), NoMemory>
        requires { need_in self.old ≡ Back }
        ensures ok { OnOk result (self.new ≡ step (after_back piece.now) self.old) }
        ensures memory { OnErr result (self.new ≡ out_of_memory to_say_of self.old) }
    {
        let last = self.last();
        let stepped = self.running.back(piece);
        self.close_after(stepped, last)
    }

    /// Its transport was given back. It needs that.
    pub fn on_given(&mut self) -> Result<(), NoMemory>
        requires { need_in self.old ≡ Give }
        ensures ok { OnOk result (self.new ≡ step after_given self.old) }
        ensures memory { OnErr result (self.new ≡ out_of_memory to_say_of self.old) }
    {
        self.running.given();
        Ok(())
    }

    /// So many bytes were said to its application. It needs that.
    pub fn on_said(&mut self, n: usize) -> Result<(), NoMemory>
        requires need { need_in self.old ≡ Say }
        requires size { n ≤ length (to_say_in self.old) }
        ensures ok { OnOk result (self.new ≡ said_in n self.old) }
        ensures memory { OnErr result (self.new ≡ out_of_memory (rest_after_said n) self.old) }
        ensures closing { IsClosing self.old → IsOk result }
    {
        if let Some(closing) = &mut self.closing {
            if self.running.to_say().is_empty() {
                closing.count_said(n);
            } else {
                self.running.count_said(n);
            }
            return Ok(());
        }
        let last = self.last();
        let stepped = self.running.said(n);
        self.close_after(stepped, last)
    }

    /// The transport that is held was lost.
    pub fn on_lost(&mut self, why: LossWhy) -> Result<(), NoMemory>
        requires { held_in self.old ≢ None }
        ensures ok { OnOk result (self.new ≡ step (after_lost why) self.old) }
        ensures memory { OnErr result (self.new ≡ out_of_memory to_say_of self.old) }
    {
        self.running.lose(why);
        Ok(())
    }

    /// The application ended, or failed: the session needs nothing more. An end that it already had stays.
    pub fn on_app_end(&mut self, fault: bool)
        ensures { self.new ≡ app_end_in fault self.old }
    {
        self.running.app_end(fault);
    }

    // ---- want of memory

    /// What RSCLMTRM and the loss are, where memory runs out in the next step.
    fn last(&self) -> Last
        ensures { IsLast self.now result }
    {
        Last {
            number: self.running.first_number(),
            loss: self.running.loss_at_end(),
        }
    }

    /// After a step in which memory ran out the session says RSCLMTRM and ends, and a transport that it held is lost.
    fn close_after(&mut self, stepped: Result<(), NoMemory>, last: Last) -> Result<(), NoMemory>
        requires { IsGoing self.old }
        ensures same { result ≡ stepped }
        ensures ok { OnOk result (self.new ≡ self.old) }
        ensures memory { OnErr result (self.new ≡ closed_after last self.old) }
    {
        if stepped.is_err() {
            self.running.stop(last.loss);
            self.closing = Some(Closing {
                reply: memory_dss(last.number),
                said: 0,
            });
        }
        stepped
    }
}

/// What is told where memory runs out: the correlation number of RSCLMTRM, and the last loss.
#[derive(Clone, Copy)]
pub struct Last {
    pub number: u16,
    pub loss: Option<(u64, LossWhy)>,
}

impl Closing {
    /// The bytes of RSCLMTRM that weren't said.
    fn left(&self) -> &[u8]
        ensures { result.now ≡ drop self.now.said self.now.reply }
    {
        self.reply.as_slice().get(self.said..).unwrap_or(&[])
    }

    /// So many of them were said.
    fn count_said(&mut self, n: usize)
        requires { n ≤ length (drop self.old.said self.old.reply) }
        ensures reply { self.new.reply ≡ self.old.reply }
        ensures said { drop self.new.said self.old.reply ≡ drop n (drop self.old.said self.old.reply) }
    {
        self.said = place_behind(&self.reply, self.said, n);
    }
}

/// Puts a name in EBCDIC into the first bytes, in ASCII: how many they are.
fn put_name(codes: &[u8], out: &mut [u8; 32]) -> usize
    requires { length codes.now ≤ most_name }
    ensures count { result ≡ length codes.now }
    ensures name { out.new ≡ map (ascii_in Sql370) codes.now ++ drop (length codes.now) out.old }
{
    let front = &mut out[..codes.len()];
    front.copy_from_slice(codes);
    decode(front, TypDef::Sql370);
    codes.len()
}

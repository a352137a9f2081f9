ghost use Rattle.std.specs.Prelude.{◌≡◌, ℕ, ◌+◌, ◌-◌, ◌<◌, ◌≤◌, ◌==◌, ◌≢◌, ◌&&◌, ◌||◌, [], ◌∷◌, ◌++◌, length, true, false, Some, None, IfOk, IfSome};

use crate::entry::{PoolAnswer, PoolCall};
use crate::lists::{is_newer, known_rows, members_of};
use crate::numbers::Numbered;
use crate::rows::{
    counts_of, exchange_oldest, idle_of, is_among, is_behind, is_waiting, remove_number,
    remove_session,
};
use link_ends::NoMemory;
use server_list::{ServerList, Tried, choose};
use std::alloc::Global;
use std::marker::Model;

/// How many transports may be idle.
const MOST_IDLE: usize = 32;

/// How many sessions may wait.
const MOST_WAITING: usize = 64;

/// A pool as plain numbers: who is lent what, what is idle, who waits, and the list in use.
#[derive(Debug, Drop)]
pub struct Pool {
    cap: usize,
    known: Tried,
    list: ServerList,
    lent: Vec<Numbered>,
    idle: Vec<Numbered>,
    waiting: Vec<u32>,
    drawn: u64,
}

impl Model for Pool {
    ghost use Rattle.transport_pool.specs.State.{PoolState};

    ghost Value = { PoolState };

    ghost use Rattle.transport_pool.specs.Inside.{state_of, IsKept};

    ghost view = { state_of };

    ghost invariant = { IsKept };
}

impl Pool {
    ghost use Rattle.transport_pool.specs.State.{PoolState, without, is_among, counts_of, is_waiting, is_behind};
    ghost use Rattle.transport_pool.specs.Steps.{after_leave, after_learn, empty_pool, must_wait, would_wait, after_wait, idle_of, lent_out, rested};
    ghost use Rattle.transport_pool.specs.Steps.{lend_step, give_step, lost_step, learn_step, leave_step, pool_step};
    ghost use Rattle.server_list.specs.Choice.{pick};
    ghost use Rattle.server_list.specs.Tried.{is_member, has_member};
    ghost use Rattle.transport_pool.specs.Sound.{times, IsSound};
    ghost use Rattle.transport_pool.specs.Sound.{RowsAreSound};

    /// A pool without transports, in which so many may be lent, with this list.
    pub fn new(alloc: Global, cap: usize, list: &ServerList) -> Result<Pool, NoMemory>
        requires { cap ≤ 32 }
        ensures { IfOk result (λ pool. pool ≡ empty_pool cap list.now) }
    {
        let lent = Vec::with_capacity(alloc, 32)?;
        let idle = Vec::with_capacity(alloc, MOST_IDLE)?;
        let waiting = Vec::with_capacity(alloc, MOST_WAITING)?;
        Ok(Pool {
            cap,
            known: members_of(list),
            list: *list,
            lent,
            idle,
            waiting,
            drawn: 0,
        })
    }

    /// The members that can be listed.
    pub fn known(&self) -> Tried
        ensures { result ≡ self.now.known }
    {
        self.known
    }

    /// The list in use.
    pub fn list(&self) -> ServerList
        ensures { result ≡ self.now.list }
    {
        self.list
    }

    /// Whether a session waits.
    pub fn waits(&self, session: u32) -> bool
        ensures { result ≡ is_waiting session self.now.waiting }
    {
        is_waiting(&self.waiting, session)
    }

    /// Whether a lend would have this session wait.
    pub fn queues(&self, session: u32, tried: Tried) -> bool
        ensures { result ≡ would_wait self.now session tried }
    {
        self.pick(tried).is_some() && self.must_wait(session)
    }

    /// The limits hold, and all numbers differ.
    pub fn is_sound(&self)
        ensures pool { IsSound self.now }
        ensures rows { RowsAreSound self.now.list.rows }
    {
        self.list.is_sound();
        let _ = &self.lent;
    }

    /// The session waits no more.
    fn leave(&mut self, session: u32)
        ensures { self.new ≡ after_leave self.old session }
    {
        remove_session(&mut self.waiting, session);
    }

    /// The session waits, at the end where it didn't yet.
    fn wait(&mut self, session: u32)
        ensures { self.new ≡ after_wait self.old session }
    {
        if is_waiting(&self.waiting, session) || self.waiting.len() >= MOST_WAITING {
            return;
        }
        self.waiting.push_reserved(session);
    }

    /// Whether a session has to wait.
    fn must_wait(&self, session: u32) -> bool
        ensures waits { result ≡ must_wait self.now session }
        ensures room { result ≡ false → length self.now.lent < self.now.cap }
    {
        is_behind(&self.waiting, session) || self.lent.len() == self.cap
    }

    /// The number is no longer lent.
    fn lose(&mut self, number: u64)
        ensures { self.new ≡ (lost_step self.old number).state }
    {
        remove_number(&mut self.lent, number);
    }

    /// The member that the next transport goes to.
    fn pick(&self, tried: Tried) -> Option<u32>
        ensures picked { result ≡ pick self.now.list.rows (counts_of self.now.lent) tried }
        ensures member { IfSome result (λ member. is_member member ≡ true) }
        ensures untried { IfSome result (λ member. has_member tried member ≡ false) }
    {
        let counts = counts_of(&self.lent);
        choose(&self.list, &counts, &tried)
    }

    /// The idle transport of this member that was given back last, unless a fresh one is asked for.
    fn idle_of(&self, member: u32, fresh: bool) -> Option<Numbered>
        ensures found { result ≡ idle_of member fresh self.now.idle }
        ensures there { IfSome result (λ transport. 1 ≤ times transport.number self.now.idle) }
        ensures member { IfSome result (λ transport. transport.member ≡ member) }
    {
        idle_of(&self.idle, member, fresh)
    }

    /// Lends an idle transport.
    fn lend_idle(&mut self, transport: Numbered) -> PoolAnswer
        requires room { length self.old.lent < self.old.cap }
        requires there { 1 ≤ times transport.number self.old.idle }
        requires member { is_member transport.member ≡ true }
        ensures { record { state = self.new; answer = result } ≡ lent_out self.old transport.member (Some transport) }
    {
        remove_number(&mut self.idle, transport.number);
        self.lent.push_reserved(transport);
        PoolAnswer::Idle {
            number: transport.number,
            member: transport.member,
        }
    }

    /// Lends the right to dial a transport with the next number, while there is a next number.
    fn dial(&mut self, member: u32) -> PoolAnswer
        requires room { length self.old.lent < self.old.cap }
        requires member { is_member member ≡ true }
        ensures { record { state = self.new; answer = result } ≡ lent_out self.old member None }
    {
        if self.drawn == u64::MAX {
            return PoolAnswer::Worn;
        }
        self.drawn += 1;
        let number = self.drawn;
        self.lent.push_reserved(Numbered { number, member });
        PoolAnswer::Dial { number, member }
    }

    /// Lends a transport of this member.
    fn lend_of(&mut self, member: u32, fresh: bool) -> PoolAnswer
        requires room { length self.old.lent < self.old.cap }
        requires member { is_member member ≡ true }
        ensures { record { state = self.new; answer = result } ≡ lent_out self.old member (idle_of member fresh self.old.idle) }
    {
        match self.idle_of(member, fresh) {
            Some(transport) => self.lend_idle(transport),
            None => self.dial(member),
        }
    }

    /// A session asks for a transport.
    fn lend(&mut self, session: u32, tried: Tried, fresh: bool) -> PoolAnswer
        ensures { record { state = self.new; answer = result } ≡ lend_step self.old session tried fresh }
    {
        let Some(member) = self.pick(tried) else {
            self.leave(session);
            return PoolAnswer::NoneLeft;
        };
        if self.must_wait(session) {
            self.wait(session);
            return PoolAnswer::Queue;
        }
        self.leave(session);
        self.lend_of(member, fresh)
    }

    /// Lays a transport to rest that was lent. Where 32 were idle the one idle longest is handed out.
    fn rest(&mut self, transport: Numbered) -> PoolAnswer
        requires member { is_member transport.member ≡ true }
        requires unused { times transport.number self.old.idle + times transport.number self.old.lent ≡ 0 }
        requires drawn { transport.number ≤ self.old.drawn }
        ensures { record { state = self.new; answer = result } ≡ rested self.old transport }
    {
        if self.idle.len() < MOST_IDLE {
            self.idle.push_reserved(transport);
            return PoolAnswer::Nothing;
        }
        let oldest = exchange_oldest(&mut self.idle, transport);
        PoolAnswer::Handed {
            number: oldest.number,
        }
    }

    /// A transport is given back. Where its number isn't lent with its member it is handed back.
    fn give(&mut self, number: u64, member: u32) -> PoolAnswer
        ensures { record { state = self.new; answer = result } ≡ give_step self.old number member }
    {
        if !self.is_lent(number, member) {
            return PoolAnswer::Handed { number };
        }
        self.lose(number);
        self.rest(Numbered { number, member })
    }

    /// Whether the number is lent with this member.
    fn is_lent(&self, number: u64, member: u32) -> bool
        ensures lent { result ≡ is_among number member self.now.lent }
        ensures member { result ≡ true → is_member member ≡ true }
        ensures unused { result ≡ true → times number self.now.idle + times number (without number self.now.lent) ≡ 0 }
        ensures drawn { result ≡ true → number ≤ self.now.drawn }
    {
        is_among(&self.lent, number, member)
    }

    /// A newer list is the list from now on, with the rows of known members, where there are any.
    fn learn(&mut self, list: &ServerList)
        ensures { self.new ≡ after_learn self.old list.now }
    {
        if !is_newer(list, &self.list) {
            return;
        }
        if let Some(list) = known_rows(list, &self.known) {
            self.list = list;
        }
    }

    /// Takes a call.
    #[tactic(auto, unfolding(crate::specs::Steps::pool_step))]
    pub fn step(&mut self, call: &PoolCall) -> PoolAnswer
        ensures { record { state = self.new; answer = result } ≡ pool_step self.old call.now }
    {
        match call {
            PoolCall::Lend {
                session,
                tried,
                fresh,
            } => self.lend(*session, *tried, *fresh),
            PoolCall::GiveBack { number, member } => self.give(*number, *member),
            PoolCall::Lost { number } => {
                self.lose(*number);
                PoolAnswer::Nothing
            }
            PoolCall::Learn { list } => {
                self.learn(list);
                PoolAnswer::Nothing
            }
            PoolCall::Leave { session } => {
                self.leave(*session);
                PoolAnswer::Nothing
            }
        }
    }
}

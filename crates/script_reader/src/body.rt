ghost use Rattle.std.specs.Prelude.{◌≡◌, ◌≤◌, length, ok_or, Ok, IfSome};
ghost use Rattle.script_reader.specs.declared.script.ScriptWhy.TheVariants.{Field};
ghost use Rattle.script_reader.specs.Answers.{Adds, Gives};
ghost use Rattle.script_reader.specs.Body.{app_of, count_of, idle_app, bytes_read, app_read, start_read, command_added, settle_read};
ghost use Rattle.script_reader.specs.Body.{moved, move_read, act_read, drop_read, stepped, step_read, down_read, up_read, with_event};
ghost use Rattle.script_reader.specs.Draft.{with_line, goes_on, next_number, chains_after};

use crate::command::read_command;
use crate::draft::Draft;
use crate::fault::{FIELD, LineFault};
use crate::script::{Line, ScriptWhy};
use crate::weights::read_member;
use gateway_setup::Event;
use hex_lines::read_hex;
use link_ends::Octets;
use script_commands::{start_chains, write_command};
use script_words::{
    CommandWord, MoveWord, StepWord, count_words, fourth_word, is_name, read_number, read_within,
    second_word, third_word,
};
use server_list::ServerList;
use std::alloc::Global;

/// The application that the second word names.
fn read_app(line: &[u8]) -> Option<u32>
    ensures app { result ≡ app_of line.now }
    ensures least { IfSome result (λ app. 1 ≤ app) }
    ensures most { IfSome result (λ app. app ≤ 64) }
{
    read_within(second_word(line), 1, 64)
}

/// How many bytes an event moves at most.
fn read_count(line: &[u8]) -> Option<u32>
    ensures { result ≡ count_of line.now }
{
    read_within(third_word(line), 1, 65_536)
}

/// The bytes that the third word spells, and none where there are but two words.
#[tactic(auto, unfolding(crate::specs::Body::bytes_read))]
fn read_bytes(alloc: Global, line: &[u8]) -> Result<Octets, LineFault>
    ensures { Gives result (ok_or (bytes_read line.now) Field) }
{
    if count_words(line) == 2 {
        return Ok(Octets::new(alloc));
    }
    read_hex(alloc, third_word(line))?.ok_or(FIELD)
}

fn moved(kind: MoveWord, app: u32, n: u32) -> Event
    ensures { result ≡ moved kind app n }
{
    match kind {
        MoveWord::Take => Event::Take { app, n },
        MoveWord::Send => Event::Send { app, n },
        MoveWord::Back => Event::Back { app, n },
        MoveWord::Say => Event::Say { app, n },
    }
}

/// take I N, send I N, back I N, say I N
#[tactic(auto, unfolding(crate::specs::Body::move_read))]
pub fn read_move(kind: MoveWord, line: &[u8]) -> Option<Event>
    ensures { result ≡ move_read kind line.now }
{
    let app = read_app(line)?;
    let n = read_count(line)?;
    Some(moved(kind, app, n))
}

/// act T N
#[tactic(auto, unfolding(crate::specs::Body::act_read))]
pub fn read_act(line: &[u8]) -> Option<Event>
    ensures { result ≡ act_read line.now }
{
    let transport = read_number(second_word(line))?;
    let n = read_count(line)?;
    Some(Event::Act { transport, n })
}

/// drop T
#[tactic(auto, unfolding(crate::specs::Body::drop_read))]
pub fn read_drop(line: &[u8]) -> Option<Event>
    ensures { result ≡ drop_read line.now }
{
    let transport = read_number(second_word(line))?;
    Some(Event::Drop { transport })
}

fn stepped(kind: StepWord, app: u32) -> Event
    ensures { result ≡ stepped kind app }
{
    match kind {
        StepWord::End => Event::End { app },
        StepWord::Lend => Event::Lend { app },
        StepWord::Dial => Event::Dial { app },
        StepWord::Cut => Event::Cut { app },
        StepWord::Give => Event::Give { app },
    }
}

/// end I, lend I, dial I, cut I, give I
#[tactic(auto, unfolding(crate::specs::Body::step_read))]
pub fn read_step(kind: StepWord, line: &[u8]) -> Option<Event>
    ensures { result ≡ step_read kind line.now }
{
    let app = read_app(line)?;
    Some(stepped(kind, app))
}

/// down M
#[tactic(auto, unfolding(crate::specs::Body::down_read))]
fn read_down(members: &ServerList, line: &[u8]) -> Option<Event>
    ensures { result ≡ down_read members.now.rows line.now }
{
    let member = read_member(members, second_word(line))?;
    Some(Event::Down { member })
}

/// up M
#[tactic(auto, unfolding(crate::specs::Body::up_read))]
fn read_up(members: &ServerList, line: &[u8]) -> Option<Event>
    ensures { result ≡ up_read members.now.rows line.now }
{
    let member = read_member(members, second_word(line))?;
    Some(Event::Up { member })
}

impl Draft {
    /// A line more in the body.
    fn add_to_body(&mut self, line: Line) -> Result<(), LineFault>
        ensures { Adds result self.new (Ok (with_line self.old line)) }
    {
        self.lines.push(line)?;
        Ok(())
    }

    /// Whether the chain of an application goes on.
    fn goes_on(&self, app: u32) -> bool
        requires low { 1 ≤ app }
        requires high { app ≤ 64 }
        ensures { result ≡ goes_on self.now.chains app }
    {
        self.chains[app as usize - 1].is_some()
    }

    /// The number of the next command of an application.
    fn next_number(&self, app: u32) -> u16
        requires low { 1 ≤ app }
        requires high { app ≤ 64 }
        ensures { result ≡ next_number self.now.chains app }
    {
        self.chains[app as usize - 1].unwrap_or(1)
    }

    /// The application that the second word names, whose chain doesn't go on.
    #[tactic(auto, unfolding(crate::specs::Body::idle_app))]
    fn read_idle(&self, line: &[u8]) -> Result<u32, LineFault>
        ensures { Gives result (idle_app self.now line.now) }
    {
        let app = read_app(line).ok_or(FIELD)?;
        if self.goes_on(app) {
            return Err(LineFault::Refused(ScriptWhy::Order));
        }
        Ok(app)
    }

    /// app I, app I HEX
    #[tactic(auto, unfolding(crate::specs::Body::app_read))]
    pub fn add_app(&mut self, alloc: Global, line: &[u8]) -> Result<(), LineFault>
        ensures { Adds result self.new (app_read self.old line.now) }
    {
        let app = self.read_idle(line)?;
        let bytes = read_bytes(alloc, line)?;
        self.add_to_body(Line::Bytes { app, bytes })
    }

    /// start I USER PASSWORD
    #[tactic(auto, unfolding(crate::specs::Body::start_read))]
    pub fn add_start(&mut self, alloc: Global, line: &[u8]) -> Result<(), LineFault>
        ensures { Adds result self.new (start_read self.old line.now) }
    {
        let app = self.read_idle(line)?;
        let user = third_word(line);
        let password = fourth_word(line);
        if !is_name(user) || !is_name(password) {
            return Err(FIELD);
        }
        let bytes = start_chains(alloc, self.name(), user, password)?;
        self.add_to_body(Line::Bytes { app, bytes })
    }

    /// A line that is a command, whose chain goes on or doesn't.
    #[tactic(auto, unfolding(crate::specs::Body::command_added))]
    pub fn add_command(
        &mut self,
        alloc: Global,
        word: CommandWord,
        more: bool,
        line: &[u8],
    ) -> Result<(), LineFault>
        requires { length line.now ≤ 16777216 }
        ensures { Adds result self.new (ok_or (command_added self.old word more line.now) Field) }
    {
        let app = read_app(line).ok_or(FIELD)?;
        let number = self.next_number(app);
        let command = read_command(alloc, word, number, self.name(), line)?;
        let bytes = write_command(alloc, &command, more)?;
        self.add_to_body(Line::Bytes { app, bytes })?;
        self.chains[app as usize - 1] = if more {
            Some(number.wrapping_add(1))
        } else {
            None
        };
        Ok(())
    }

    /// A line that is this event, or whose fields aren't as said.
    pub fn add_event(&mut self, event: Option<Event>) -> Result<(), LineFault>
        ensures { Adds result self.new (with_event self.old event) }
    {
        let event = event.ok_or(FIELD)?;
        self.add_to_body(Line::Event(event))
    }

    /// down M
    pub fn add_down(&mut self, line: &[u8]) -> Result<(), LineFault>
        ensures { Adds result self.new (with_event self.old (down_read self.old.text.list.rows line.now)) }
    {
        let event = read_down(&self.list, line);
        self.add_event(event)
    }

    /// up M
    pub fn add_up(&mut self, line: &[u8]) -> Result<(), LineFault>
        ensures { Adds result self.new (with_event self.old (up_read self.old.text.list.rows line.now)) }
    {
        let event = read_up(&self.list, line);
        self.add_event(event)
    }

    /// settle N
    #[tactic(auto, unfolding(crate::specs::Body::settle_read))]
    pub fn add_settle(&mut self, line: &[u8]) -> Result<(), LineFault>
        ensures { Adds result self.new (ok_or (settle_read self.old line.now) Field) }
    {
        let budget = read_within(second_word(line), 1, 1_000_000).ok_or(FIELD)?;
        self.add_to_body(Line::Settle(budget))
    }
}

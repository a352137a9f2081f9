ghost use Rattle.std.specs.Prelude.{◌≡◌, ◌≤◌, [], length};
ghost use Rattle.script_reader.specs.Answers.{Adds, Gives, Reads};
ghost use Rattle.script_reader.specs.Draft.{start, some_goes_on};
ghost use Rattle.script_reader.specs.Script.{words_read, fields_read, words_added, line_added, is_finished, lines_added};

use crate::body::{read_act, read_drop, read_move, read_step};
use crate::fault::LineFault;
use crate::rows::Rows;
use crate::script::{Line, Script, ScriptFault, ScriptWhy};
use crate::users::Users;
use gateway_setup::{SentLists, Setup};
use hex_lines::is_skipped;
use reply_texts::RdbName;
use script_words::{
    Keyword, Stage, count_words, first_word, fits_count, is_printable, is_whole, read_keyword,
    stage_after,
};
use server_list::ServerList;
use std::alloc::Global;
use std::marker::Model;

/// How many applications a script has at most.
const APPLICATIONS: usize = 64;

/// What was read of a script so far.
#[derive(Drop)]
pub struct Draft {
    pub(crate) stage: Stage,
    pub(crate) rdb: Option<RdbName>,
    pub(crate) cap: u32,
    pub(crate) list: ServerList,
    pub(crate) sent_lists: SentLists,
    pub(crate) users: Users,
    pub(crate) rows: Rows,
    pub(crate) lines: Vec<Line>,
    /// Of each application whose chain goes on the number of its next command.
    pub(crate) chains: [Option<u16>; 64],
}

impl Model for Draft {
    ghost use Rattle.std.specs.Prelude.{◌≡◌, length};
    ghost use Rattle.script_reader.specs.Draft.{DraftText, name_of};

    ghost Value = { DraftText };

    ghost view = { λ d. record {
      stage = d.stage;
      text = record {
        rdb = name_of d.rdb;
        cap = d.cap;
        list = d.list;
        sent = d.sent_lists;
        users = d.users;
        rows = d.rows;
        lines = d.lines.items;
      };
      chains = d.chains;
    } };

    ghost invariant = { λ d. length d.chains ≡ 64 };
}

/// What line this is, where it may have so many words.
#[tactic(auto, unfolding(crate::specs::Script::words_read))]
fn read_words(line: &[u8]) -> Result<Keyword, LineFault>
    ensures { Gives result (words_read line.now) }
{
    let Some(keyword) = read_keyword(first_word(line)) else {
        return Err(LineFault::Refused(ScriptWhy::Word));
    };
    if fits_count(keyword, count_words(line)) {
        Ok(keyword)
    } else {
        Err(LineFault::Refused(ScriptWhy::Word))
    }
}

impl Draft {
    /// A script of which no line was read yet.
    pub fn new(alloc: Global) -> Draft
        ensures { result ≡ start }
    {
        Draft {
            stage: Stage::Start,
            rdb: None,
            cap: 0,
            list: ServerList::new(),
            sent_lists: SentLists::new(),
            users: Users::new(alloc),
            rows: Rows::new(alloc),
            lines: Vec::new(alloc),
            chains: [None; APPLICATIONS],
        }
    }

    /// The name of the database, empty where there is none yet.
    pub(crate) fn name(&self) -> &[u8]
        ensures name { result.now ≡ self.now.text.rdb }
        ensures short { length result.now ≤ 18 }
    {
        match &self.rdb {
            Some(name) => name.as_slice(),
            None => &[],
        }
    }

    /// Adds the fields of a line with this first word. The line has as many words as that wants.
    #[tactic(auto, unfolding(crate::specs::Script::fields_read))]
    fn add_fields(&mut self, alloc: Global, keyword: Keyword, line: &[u8]) -> Result<(), LineFault>
        requires { length line.now ≤ 16777216 }
        ensures { Adds result self.new (fields_read keyword self.old line.now) }
    {
        match keyword {
            Keyword::Header(kind) => self.add_header(alloc, kind, line),
            Keyword::Command(kind, goes_on) => self.add_command(alloc, kind, goes_on, line),
            Keyword::App => self.add_app(alloc, line),
            Keyword::Start => self.add_start(alloc, line),
            Keyword::Move(kind) => self.add_event(read_move(kind, line)),
            Keyword::Act => self.add_event(read_act(line)),
            Keyword::Drop => self.add_event(read_drop(line)),
            Keyword::Step(kind) => self.add_event(read_step(kind, line)),
            Keyword::Down => self.add_down(line),
            Keyword::Up => self.add_up(line),
            Keyword::Settle => self.add_settle(line),
        }
    }

    /// Adds a line that isn't skipped and is all printable.
    #[tactic(auto, unfolding(crate::specs::Script::words_added))]
    fn add_words(&mut self, alloc: Global, line: &[u8]) -> Result<(), LineFault>
        requires { length line.now ≤ 16777216 }
        ensures { Adds result self.new (words_added self.old line.now) }
    {
        let keyword = read_words(line)?;
        let Some(stage) = stage_after(self.stage, keyword) else {
            return Err(LineFault::Refused(ScriptWhy::Order));
        };
        self.stage = stage;
        self.add_fields(alloc, keyword, line)
    }

    /// Adds a line.
    #[tactic(auto, unfolding(crate::specs::Script::line_added))]
    pub fn add_line(&mut self, alloc: Global, line: &[u8]) -> Result<(), LineFault>
        requires { length line.now ≤ 16777216 }
        ensures { Adds result self.new (line_added self.old line.now) }
    {
        if is_skipped(line) {
            return Ok(());
        }
        if !is_printable(line) {
            return Err(LineFault::Refused(ScriptWhy::Word));
        }
        self.add_words(alloc, line)
    }

    /// Whether some chain goes on.
    fn some_goes_on(&self) -> bool
        ensures { result ≡ some_goes_on self.now.chains }
    {
        self.chains.iter().any(|chain| chain.is_some())
    }

    /// The script, where its header is whole, no chain goes on, and no line is left. `number` is that of the line after its
    /// last.
    #[tactic(auto, unfolding(crate::specs::Script::lines_added))]
    pub fn finish(self, number: u64) -> Result<Script, ScriptFault>
        ensures { Reads result (lines_added number self []) }
    {
        let refused = ScriptFault::Refused {
            line: number,
            why: ScriptWhy::Order,
        };
        if !is_whole(self.stage) || self.some_goes_on() {
            return Err(refused);
        }
        let Draft {
            rdb,
            cap,
            list,
            sent_lists,
            users,
            rows,
            lines,
            ..
        } = self;
        let Some(rdb) = rdb else {
            return Err(refused);
        };
        Ok(Script {
            setup: Setup {
                rdb,
                cap,
                list,
                sent_lists,
            },
            users,
            rows,
            lines,
        })
    }
}

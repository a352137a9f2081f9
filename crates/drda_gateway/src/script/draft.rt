ghost use Rattle.std.specs.Prelude.{◌≡◌, []};
ghost use Rattle.drda_gateway.specs.Answers.{Adds, Reads};
ghost use Rattle.drda_gateway.specs.Keyword.{keyword_by_name, fits_count, keyword_of, stage_after, is_whole};
ghost use Rattle.drda_gateway.specs.Script.{start, words_added, line_added, lines_added};
ghost use Rattle.drda_gateway.specs.Split.{words_of};

use crate::script::fault::LineFault;
use crate::script::field::is_printable;
use crate::script::split::split_words;
use crate::script::{Script, ScriptFault, ScriptWhy};
use hex_lines::is_skipped;
use std::alloc::Global;

/// The first word of a line.
#[derive(Clone, Copy)]
pub enum Keyword {
    Rdb,
    Cap,
    Member,
    User,
    App,
    Take,
    Settle,
}

/// How far the header was read.
#[derive(Clone, Copy)]
pub enum Stage {
    Start,
    AfterRdb,
    AfterCap,
    Members,
    Users,
    Body,
}

/// The keyword that is spelled so.
fn keyword_by_name(word: &[u8]) -> Option<Keyword>
    ensures { result ≡ keyword_by_name word.now }
{
    if word == b"rdb".as_slice() {
        return Some(Keyword::Rdb);
    }
    if word == b"cap".as_slice() {
        return Some(Keyword::Cap);
    }
    if word == b"member".as_slice() {
        return Some(Keyword::Member);
    }
    if word == b"user".as_slice() {
        return Some(Keyword::User);
    }
    if word == b"app".as_slice() {
        return Some(Keyword::App);
    }
    if word == b"take".as_slice() {
        return Some(Keyword::Take);
    }
    if word == b"settle".as_slice() {
        return Some(Keyword::Settle);
    }
    None
}

/// Whether a line with this first word may have so many words.
fn fits_count(keyword: Keyword, count: usize) -> bool
    ensures { result ≡ fits_count keyword count }
{
    match keyword {
        Keyword::Rdb | Keyword::Cap | Keyword::Settle => count == 2,
        Keyword::Member | Keyword::User | Keyword::Take => count == 3,
        Keyword::App => count == 2 || count == 3,
    }
}

/// How far the header is after a line with this first word, where it may stand here.
fn stage_after(stage: Stage, keyword: Keyword) -> Option<Stage>
    ensures { result ≡ stage_after stage keyword }
{
    match (stage, keyword) {
        (Stage::Start, Keyword::Rdb) => Some(Stage::AfterRdb),
        (Stage::AfterRdb, Keyword::Cap) => Some(Stage::AfterCap),
        (Stage::AfterCap | Stage::Members, Keyword::Member) => Some(Stage::Members),
        (Stage::Members | Stage::Users, Keyword::User) => Some(Stage::Users),
        (
            Stage::Members | Stage::Users | Stage::Body,
            Keyword::App | Keyword::Take | Keyword::Settle,
        ) => Some(Stage::Body),
        _ => None,
    }
}

/// Whether the header has all that it needs.
fn is_whole(stage: Stage) -> bool
    ensures { result ≡ is_whole stage }
{
    match stage {
        Stage::Start | Stage::AfterRdb | Stage::AfterCap => false,
        Stage::Members | Stage::Users | Stage::Body => true,
    }
}

/// What was read of a script so far.
#[derive(Drop)]
pub struct Draft {
    stage: Stage,
    script: Script,
}

impl Draft {
    /// A script of which no line was read yet.
    pub fn new(alloc: Global) -> Draft
        ensures { result ≡ start }
    {
        Draft {
            stage: Stage::Start,
            script: Script::new(alloc),
        }
    }

    /// Adds a line that isn't skipped and is all printable.
    #[tactic(auto, unfolding(crate::specs::Script::words_added, crate::specs::Keyword::keyword_of))]
    fn add_words(&mut self, alloc: Global, line: &[u8]) -> Result<(), LineFault>
        ensures { Adds result self.new (words_added self.old (words_of line.now)) }
    {
        let words = split_words(line);
        let Some(keyword) = keyword_by_name(words.first) else {
            return Err(LineFault::Refused(ScriptWhy::Word));
        };
        if !fits_count(keyword, words.count) {
            return Err(LineFault::Refused(ScriptWhy::Word));
        }
        let Some(stage) = stage_after(self.stage, keyword) else {
            return Err(LineFault::Refused(ScriptWhy::Order));
        };
        self.script.add_fields(alloc, keyword, &words)?;
        self.stage = stage;
        Ok(())
    }

    /// Adds a line.
    #[tactic(auto, unfolding(crate::specs::Script::line_added))]
    pub fn add_line(&mut self, alloc: Global, line: &[u8]) -> Result<(), LineFault>
        ensures { Adds result self.new (line_added self.old line.now) }
    {
        if is_skipped(line) {
            return Ok(());
        }
        if !is_printable(line) {
            return Err(LineFault::Refused(ScriptWhy::Word));
        }
        self.add_words(alloc, line)
    }

    /// The script, where its header is whole, and no line is left. `number` is that of the line after its last.
    #[tactic(auto, unfolding(crate::specs::Script::lines_added))]
    pub fn finish(self, number: u64) -> Result<Script, ScriptFault>
        ensures { Reads result (lines_added number self []) }
    {
        let Draft { stage, script } = self;
        if is_whole(stage) {
            Ok(script)
        } else {
            Err(ScriptFault::Refused {
                line: number,
                why: ScriptWhy::Order,
            })
        }
    }
}

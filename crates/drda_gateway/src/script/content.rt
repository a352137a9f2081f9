ghost use Rattle.std.specs.Prelude.{◌≡◌, ok_or};
ghost use Rattle.drda_gateway.specs.Answers.{Adds, Gives};
ghost use Rattle.drda_gateway.specs.ScriptText.{empty_text};
ghost use Rattle.drda_gateway.specs.Content.{rdb_read, cap_read, member_read, user_read, app_read, take_read, settle_read, bytes_read, fields_read};
ghost use Rattle.drda_gateway.specs.declared.script.ScriptWhy.TheVariants.{Field};

use crate::script::draft::Keyword;
use crate::script::fault::LineFault;
use crate::script::field::is_name;
use crate::script::number::read_within;
use crate::script::split::Words;
use crate::script::users::Users;
use crate::script::{Line, Member, Script, ScriptWhy};
use hex_lines::read_hex;
use link_ends::Octets;
use std::alloc::Global;

const FIELD: LineFault = LineFault::Refused(ScriptWhy::Field);

/// The bytes that the third word of a line spells, or none where there are but two words.
#[tactic(auto, unfolding(crate::specs::Content::bytes_read))]
fn read_bytes(alloc: Global, count: usize, third: &[u8]) -> Result<Octets, LineFault>
    ensures { Gives result (ok_or (bytes_read count third.now) Field) }
{
    if count == 2 {
        return Ok(Octets::new(alloc));
    }
    read_hex(alloc, third)?.ok_or(FIELD)
}

impl Script {
    /// A script of which nothing was read yet.
    pub fn new(alloc: Global) -> Script
        ensures { result ≡ empty_text }
    {
        Script {
            rdb: Octets::new(alloc),
            cap: 0,
            members: Vec::new(alloc),
            users: Users::new(alloc),
            lines: Vec::new(alloc),
        }
    }

    #[tactic(auto, unfolding(crate::specs::Content::rdb_read))]
    fn add_rdb(&mut self, alloc: Global, name: &[u8]) -> Result<(), LineFault>
        ensures { Adds result self.new (ok_or (rdb_read self.old name.now) Field) }
    {
        if !is_name(name, 18) {
            return Err(FIELD);
        }
        self.rdb = Octets::of(alloc, name)?;
        Ok(())
    }

    #[tactic(auto, unfolding(crate::specs::Content::cap_read))]
    fn add_cap(&mut self, number: &[u8]) -> Result<(), LineFault>
        ensures { Adds result self.new (ok_or (cap_read self.old number.now) Field) }
    {
        self.cap = read_within(number, 1, 32).ok_or(FIELD)?;
        Ok(())
    }

    #[tactic(auto, unfolding(crate::specs::Content::member_read))]
    fn add_member(&mut self, number: &[u8], weight: &[u8]) -> Result<(), LineFault>
        ensures { Adds result self.new (ok_or (member_read self.old number.now weight.now) Field) }
    {
        let number = read_within(number, 1, 32).ok_or(FIELD)?;
        let weight = read_within(weight, 0, 65_535).ok_or(FIELD)?;
        if number as usize != self.members.len() + 1 {
            return Err(FIELD);
        }
        self.members.push(Member {
            number,
            weight: weight as u16,
        })?;
        Ok(())
    }

    #[tactic(auto, unfolding(crate::specs::Content::user_read))]
    fn add_user(&mut self, alloc: Global, name: &[u8], password: &[u8]) -> Result<(), LineFault>
        ensures { Adds result self.new (ok_or (user_read self.old name.now password.now) Field) }
    {
        if !is_name(name, 8) || !is_name(password, 8) {
            return Err(FIELD);
        }
        if self.users.add(alloc, name, password)? {
            Ok(())
        } else {
            Err(FIELD)
        }
    }

    #[tactic(auto, unfolding(crate::specs::Content::app_read))]
    fn add_app(&mut self, app: &[u8], bytes: Octets) -> Result<(), LineFault>
        ensures { Adds result self.new (ok_or (app_read self.old app.now bytes) Field) }
    {
        let app = read_within(app, 1, 64).ok_or(FIELD)?;
        self.lines.push(Line::App { app, bytes })?;
        Ok(())
    }

    #[tactic(auto, unfolding(crate::specs::Content::take_read))]
    fn add_take(&mut self, app: &[u8], count: &[u8]) -> Result<(), LineFault>
        ensures { Adds result self.new (ok_or (take_read self.old app.now count.now) Field) }
    {
        let app = read_within(app, 1, 64).ok_or(FIELD)?;
        let count = read_within(count, 1, 65_536).ok_or(FIELD)?;
        self.lines.push(Line::Take { app, count })?;
        Ok(())
    }

    #[tactic(auto, unfolding(crate::specs::Content::settle_read))]
    fn add_settle(&mut self, budget: &[u8]) -> Result<(), LineFault>
        ensures { Adds result self.new (ok_or (settle_read self.old budget.now) Field) }
    {
        let budget = read_within(budget, 1, 1_000_000).ok_or(FIELD)?;
        self.lines.push(Line::Settle { budget })?;
        Ok(())
    }

    /// Adds the fields of a line with this first word. The line has as many words as that wants.
    #[tactic(auto, unfolding(crate::specs::Content::fields_read))]
    pub fn add_fields(
        &mut self,
        alloc: Global,
        keyword: Keyword,
        words: &Words,
    ) -> Result<(), LineFault>
        ensures { Adds result self.new
            (ok_or (fields_read keyword self.old words.now.count words.now.second.now words.now.third.now) Field) }
    {
        match keyword {
            Keyword::Rdb => self.add_rdb(alloc, words.second),
            Keyword::Cap => self.add_cap(words.second),
            Keyword::Member => self.add_member(words.second, words.third),
            Keyword::User => self.add_user(alloc, words.second, words.third),
            Keyword::App => {
                let bytes = read_bytes(alloc, words.count, words.third)?;
                self.add_app(words.second, bytes)
            }
            Keyword::Take => self.add_take(words.second, words.third),
            Keyword::Settle => self.add_settle(words.second),
        }
    }
}

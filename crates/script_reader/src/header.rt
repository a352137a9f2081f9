ghost use Rattle.std.specs.Prelude.{◌≡◌};
ghost use Rattle.script_reader.specs.Answers.{Adds};
ghost use Rattle.script_reader.specs.Header.{with_text, rdb_read, cap_read, member_read, list_read, numbered_read, user_read, row_read, header_read};

use crate::draft::Draft;
use crate::fault::{FIELD, LineFault};
use crate::weights::{read_member, read_weights, send_by_all};
use reply_texts::RdbName;
use script_words::{
    HeaderWord, behind_first, behind_third, fourth_word, is_name, read_within, second_word,
    third_word,
};
use server_list::ServerRow;
use std::alloc::Global;

impl Draft {
    /// A line of the header with this first word.
    #[tactic(auto, unfolding(crate::specs::Header::header_read))]
    pub fn add_header(
        &mut self,
        alloc: Global,
        word: HeaderWord,
        line: &[u8],
    ) -> Result<(), LineFault>
        ensures { Adds result self.new (with_text self.old (header_read word self.old.text line.now)) }
    {
        match word {
            HeaderWord::Rdb => self.add_rdb(line),
            HeaderWord::Cap => self.add_cap(line),
            HeaderWord::Member => self.add_member(line),
            HeaderWord::List => self.add_list(line),
            HeaderWord::NumberedList => self.add_numbered(line),
            HeaderWord::User => self.add_user(alloc, line),
            HeaderWord::Row => self.add_row(alloc, line),
        }
    }

    /// rdb NAME
    #[tactic(auto, unfolding(crate::specs::Header::rdb_read))]
    fn add_rdb(&mut self, line: &[u8]) -> Result<(), LineFault>
        ensures { Adds result self.new (with_text self.old (rdb_read self.old.text line.now)) }
    {
        let name = RdbName::of(second_word(line)).ok_or(FIELD)?;
        self.rdb = Some(name);
        Ok(())
    }

    /// cap N
    #[tactic(auto, unfolding(crate::specs::Header::cap_read))]
    fn add_cap(&mut self, line: &[u8]) -> Result<(), LineFault>
        ensures { Adds result self.new (with_text self.old (cap_read self.old.text line.now)) }
    {
        self.cap = read_within(second_word(line), 1, 32).ok_or(FIELD)?;
        Ok(())
    }

    /// member M W
    #[tactic(auto, unfolding(crate::specs::Header::member_read))]
    fn add_member(&mut self, line: &[u8]) -> Result<(), LineFault>
        ensures { Adds result self.new (with_text self.old (member_read self.old.text line.now)) }
    {
        let member = read_within(second_word(line), 1, 32).ok_or(FIELD)?;
        let weight = read_within(third_word(line), 0, 65_535).ok_or(FIELD)?;
        if member as usize != self.list.len() + 1 {
            return Err(FIELD);
        }
        self.list.push(ServerRow {
            member,
            weight: weight as u16,
        });
        Ok(())
    }

    /// list M=W ..
    #[tactic(auto, unfolding(crate::specs::Header::list_read))]
    fn add_list(&mut self, line: &[u8]) -> Result<(), LineFault>
        ensures { Adds result self.new (with_text self.old (list_read self.old.text line.now)) }
    {
        let members = self.list;
        let list = read_weights(&members, 0, behind_first(line)).ok_or(FIELD)?;
        send_by_all(&mut self.sent_lists, list, &members);
        Ok(())
    }

    /// list2 M N K=W ..
    #[tactic(auto, unfolding(crate::specs::Header::numbered_read))]
    fn add_numbered(&mut self, line: &[u8]) -> Result<(), LineFault>
        ensures { Adds result self.new (with_text self.old (numbered_read self.old.text line.now)) }
    {
        let member = read_member(&self.list, second_word(line)).ok_or(FIELD)?;
        let number = read_within(third_word(line), 1, 4_294_967_295).ok_or(FIELD)?;
        let list = read_weights(&self.list, number, behind_third(line)).ok_or(FIELD)?;
        if self.sent_lists.set(member, list) {
            Ok(())
        } else {
            Err(FIELD)
        }
    }

    /// user NAME PASSWORD
    #[tactic(auto, unfolding(crate::specs::Header::user_read))]
    fn add_user(&mut self, alloc: Global, line: &[u8]) -> Result<(), LineFault>
        ensures { Adds result self.new (with_text self.old (user_read self.old.text line.now)) }
    {
        let name = second_word(line);
        let password = third_word(line);
        if !is_name(name) || !is_name(password) {
            return Err(FIELD);
        }
        if self.users.add(alloc, name, password)? {
            Ok(())
        } else {
            Err(FIELD)
        }
    }

    /// row SCHEMA KEY TEXT
    #[tactic(auto, unfolding(crate::specs::Header::row_read))]
    fn add_row(&mut self, alloc: Global, line: &[u8]) -> Result<(), LineFault>
        ensures { Adds result self.new (with_text self.old (row_read self.old.text line.now)) }
    {
        let schema = second_word(line);
        let text = fourth_word(line);
        let key = read_within(third_word(line), 0, 999_999_999).ok_or(FIELD)?;
        if !is_name(schema) || !is_name(text) {
            return Err(FIELD);
        }
        if self.rows.add(alloc, schema, key, text)? {
            Ok(())
        } else {
            Err(FIELD)
        }
    }
}

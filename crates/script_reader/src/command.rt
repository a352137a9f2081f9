ghost use Rattle.std.specs.Prelude.{◌≡◌, ◌≤◌, length, ok_or};
ghost use Rattle.script_reader.specs.declared.script.ScriptWhy.TheVariants.{Field};
ghost use Rattle.script_reader.specs.Answers.{Gives};
ghost use Rattle.script_reader.specs.Command.{statement_read, asks_hold, without_hold, prepared_read, prepare_read, section_of, section_read, command_read};

use crate::fault::{FIELD, LineFault};
use ddm_codepoints::code_point::{CLSQRY, CNTQRY, EXCSQLIMM, EXCSQLSET, OPNQRY, RDBCMM, RDBRLLBCK};
use script_commands::{prepare_command, section_command, statement_command, unit_end_command};
use script_words::{CommandWord, behind_second, behind_third, read_text, read_within, third_word};
use std::alloc::Global;
use unit_segments::Command;

/// What stands in front of the text of a statement whose cursor is to be held.
const HOLD: &[u8] = b"hold ";

/// sql I TEXT, set I TEXT
#[tactic(auto, unfolding(crate::specs::Command::statement_read))]
fn read_statement(alloc: Global, code: u16, corr: u16, line: &[u8]) -> Result<Command, LineFault>
    requires { length line.now ≤ 16777216 }
    ensures { Gives result (ok_or (statement_read code corr line.now) Field) }
{
    let text = read_text(behind_second(line)).ok_or(FIELD)?;
    Ok(statement_command(alloc, code, corr, text)?)
}

/// Whether a text asks for a held cursor, and its statement.
fn cut_hold(text: &[u8]) -> (bool, &[u8])
    ensures asks { result.0 ≡ asks_hold text.now }
    ensures statement { result.1.now ≡ without_hold text.now }
{
    match text.strip_prefix(HOLD) {
        Some(statement) => (true, statement),
        None => (false, text),
    }
}

/// TEXT, or hold TEXT
#[tactic(auto, unfolding(crate::specs::Command::prepared_read))]
fn read_prepared(
    alloc: Global,
    corr: u16,
    rdb: &[u8],
    section: u16,
    text: &[u8],
) -> Result<Command, LineFault>
    requires name { length rdb.now ≤ 18 }
    requires text { length text.now ≤ 16777216 }
    ensures { Gives result (ok_or (prepared_read corr rdb.now section text.now) Field) }
{
    let (hold, statement) = cut_hold(text);
    let text = read_text(statement).ok_or(FIELD)?;
    Ok(prepare_command(alloc, corr, rdb, section, hold, text)?)
}

/// The section that the third word names.
fn read_section(line: &[u8]) -> Option<u16>
    ensures { result ≡ section_of line.now }
{
    let section = read_within(third_word(line), 0, 65_535)?;
    Some(section as u16)
}

/// prepare I S TEXT, prepare I S hold TEXT
#[tactic(auto, unfolding(crate::specs::Command::prepare_read))]
fn read_prepare(alloc: Global, corr: u16, rdb: &[u8], line: &[u8]) -> Result<Command, LineFault>
    requires name { length rdb.now ≤ 18 }
    requires line { length line.now ≤ 16777216 }
    ensures { Gives result (ok_or (prepare_read corr rdb.now line.now) Field) }
{
    let section = read_section(line).ok_or(FIELD)?;
    read_prepared(alloc, corr, rdb, section, behind_third(line))
}

/// open I S, fetch I S, close I S
#[tactic(auto, unfolding(crate::specs::Command::section_read))]
fn read_of_section(
    alloc: Global,
    code: u16,
    corr: u16,
    rdb: &[u8],
    line: &[u8],
) -> Result<Command, LineFault>
    requires { length rdb.now ≤ 18 }
    ensures { Gives result (ok_or (section_read code corr rdb.now line.now) Field) }
{
    let section = read_section(line).ok_or(FIELD)?;
    Ok(section_command(alloc, code, corr, rdb, section)?)
}

/// The command with this number that a line with this first word is.
#[tactic(auto, unfolding(crate::specs::Command::command_read))]
pub fn read_command(
    alloc: Global,
    word: CommandWord,
    corr: u16,
    rdb: &[u8],
    line: &[u8],
) -> Result<Command, LineFault>
    requires name { length rdb.now ≤ 18 }
    requires line { length line.now ≤ 16777216 }
    ensures { Gives result (ok_or (command_read word corr rdb.now line.now) Field) }
{
    match word {
        CommandWord::Sql => read_statement(alloc, EXCSQLIMM, corr, line),
        CommandWord::Set => read_statement(alloc, EXCSQLSET, corr, line),
        CommandWord::Prepare => read_prepare(alloc, corr, rdb, line),
        CommandWord::Open => read_of_section(alloc, OPNQRY, corr, rdb, line),
        CommandWord::Fetch => read_of_section(alloc, CNTQRY, corr, rdb, line),
        CommandWord::Close => read_of_section(alloc, CLSQRY, corr, rdb, line),
        CommandWord::Commit => Ok(unit_end_command(alloc, RDBCMM, corr)?),
        CommandWord::RollBack => Ok(unit_end_command(alloc, RDBRLLBCK, corr)?),
    }
}

ghost use Rattle.std.specs.Prelude.{◌≡◌, ◌≤◌, false, length, IfOk};
ghost use Rattle.script_commands.specs.Objects.{held_object, sqlstt_object};
ghost use Rattle.script_commands.specs.Commands.{command, statement_command, prepared_objects, prepare_command, section_command, unit_end_command};

use crate::object::{object, object_of_section, text_object};
use ddm_codepoints::code_point::{PRPSQLSTT, SQLATTR, SQLSTT};
use link_ends::{NoMemory, Octets, OctetsList};
use std::alloc::Global;
use unit_segments::Command;

/// A command with this number and these objects, whose chain doesn't go on after an error.
fn command(corr: u16, code: u16, body: Octets, objects: OctetsList) -> Command
    ensures { result ≡ record { code = code; corr = corr; go_on = false; at = 0; body = body; objects = objects } }
{
    Command {
        code,
        corr,
        go_on: false,
        at: 0,
        body,
        objects,
    }
}

/// EXCSQLIMM or EXCSQLSET, by its code point, with a statement. DDM, volume 3, EXCSQLIMM, EXCSQLSET.
pub fn statement_command(
    alloc: Global,
    code: u16,
    corr: u16,
    text: &[u8],
) -> Result<Command, NoMemory>
    requires { length text.now ≤ 16777216 }
    ensures { IfOk result (λ command. command ≡ statement_command code corr text.now) }
{
    let mut objects = OctetsList::new(alloc);
    objects.push(sqlstt_object(alloc, text)?)?;
    let body = object(alloc, code, &[])?;
    Ok(command(corr, code, body, objects))
}

/// SQLSTT with the text of a statement. DRDA, volume 3, SQLSTT.
#[tactic(auto, unfolding(crate::specs::Objects::sqlstt_object))]
fn sqlstt_object(alloc: Global, text: &[u8]) -> Result<Octets, NoMemory>
    requires { length text.now ≤ 16777216 }
    ensures { IfOk result (λ object. object ≡ sqlstt_object text.now) }
{
    text_object(alloc, SQLSTT, text)
}

/// SQLATTR for a cursor that is held. DRDA, volume 3, SQLATTR.
#[tactic(auto, unfolding(crate::specs::Objects::held_object))]
fn held_object(alloc: Global) -> Result<Octets, NoMemory>
    ensures { IfOk result (λ object. object ≡ held_object) }
{
    text_object(alloc, SQLATTR, b"WITH HOLD")
}

/// The objects of PRPSQLSTT.
fn prepared_objects(alloc: Global, hold: bool, text: &[u8]) -> Result<OctetsList, NoMemory>
    requires { length text.now ≤ 16777216 }
    ensures { IfOk result (λ objects. objects ≡ prepared_objects hold text.now) }
{
    let mut objects = OctetsList::new(alloc);
    if hold {
        objects.push(held_object(alloc)?)?;
    }
    objects.push(sqlstt_object(alloc, text)?)?;
    Ok(objects)
}

/// PRPSQLSTT of a section, whose cursor is held or isn't. DDM, volume 3, PRPSQLSTT.
pub fn prepare_command(
    alloc: Global,
    corr: u16,
    rdb: &[u8],
    section: u16,
    hold: bool,
    text: &[u8],
) -> Result<Command, NoMemory>
    requires name { length rdb.now ≤ 18 }
    requires text { length text.now ≤ 16777216 }
    ensures { IfOk result (λ command. command ≡ prepare_command corr rdb.now section hold text.now) }
{
    let objects = prepared_objects(alloc, hold, text)?;
    let body = object_of_section(alloc, PRPSQLSTT, rdb, section)?;
    Ok(command(corr, PRPSQLSTT, body, objects))
}

/// OPNQRY, CNTQRY or CLSQRY, by its code point, of a section. DDM, volume 3, OPNQRY, CNTQRY, CLSQRY.
pub fn section_command(
    alloc: Global,
    code: u16,
    corr: u16,
    rdb: &[u8],
    section: u16,
) -> Result<Command, NoMemory>
    requires { length rdb.now ≤ 18 }
    ensures { IfOk result (λ command. command ≡ section_command code corr rdb.now section) }
{
    let body = object_of_section(alloc, code, rdb, section)?;
    Ok(command(corr, code, body, OctetsList::new(alloc)))
}

/// RDBCMM or RDBRLLBCK, by its code point. DDM, volume 3, RDBCMM, RDBRLLBCK.
pub fn unit_end_command(alloc: Global, code: u16, corr: u16) -> Result<Command, NoMemory>
    ensures { IfOk result (λ command. command ≡ unit_end_command code corr) }
{
    let body = object(alloc, code, &[])?;
    Ok(command(corr, code, body, OctetsList::new(alloc)))
}

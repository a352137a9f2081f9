ghost use Rattle.std.specs.Prelude.{◌≡◌, [], ◌∷◌, IfOk, OnOk};
ghost use Rattle.member_replies.specs.Reply.{dsss_of, message, reply_data};
ghost use Rattle.group_store.specs.Query.{is_select, prpsqlstt_answered, opnqry_answered, cntqry_answered, clsqry_answered};

use crate::statement::{first_statement, is_held, section_of};
use crate::store::Store;
use crate::unit::{Cursor, StoreUnit};
use dss_frame::DssList;
use link_ends::{NoMemory, Octets, Sequence};
use member_replies::{
    SqlOutcome, card, endqryrm, message, opnqryrm, put_data, put_message, qrydsc, qrydta, qrynoprm,
    reply_data, sqlcard,
};
use member_statements::Statement;
use std::alloc::Global;
use unit_segments::Command;

/// PRPSQLSTT keeps the SELECT under its section. DRDA, volume 3, PRPSQLSTT.
#[tactic(auto, unfolding(crate::specs::Query::prpsqlstt_answered))]
pub(crate) fn prpsqlstt(unit: &mut StoreUnit, command: &Command) -> Result<DssList, NoMemory>
    ensures said { IfOk result (λ replies. replies ≡ dsss_of command.now.corr (prpsqlstt_answered unit.old command.now).said) }
    ensures unit { OnOk result (unit.new ≡ (prpsqlstt_answered unit.old command.now).unit) }
{
    let alloc = unit.alloc;
    let statement = first_statement(alloc, unit.typdef, command)?;
    if !is_select(&statement) {
        return card(alloc, command.corr, SqlOutcome::NoStatement);
    }
    let held = is_held(unit.typdef, command);
    unit.prepared.insert(section_of(command), held)?;
    card(alloc, command.corr, SqlOutcome::Success)
}

/// Whether this is the SELECT.
fn is_select(statement: &Option<Statement>) -> bool
    ensures { result ≡ is_select statement.now }
{
    matches!(statement, Some(Statement::Select))
}

impl Store {
    /// OPNQRY opens a cursor on the rows that the unit sees. DRDA, volume 3, OPNQRY.
    #[tactic(auto, unfolding(crate::specs::Query::opnqry_answered))]
    pub(crate) fn opnqry(
        &self,
        unit: &mut StoreUnit,
        command: &Command,
    ) -> Result<DssList, NoMemory>
        ensures said { IfOk result (λ replies. replies ≡ dsss_of command.now.corr (opnqry_answered self.now.rows unit.old command.now).said) }
        ensures unit { OnOk result (unit.new ≡ (opnqry_answered self.now.rows unit.old command.now).unit) }
    {
        let alloc = unit.alloc;
        let section = section_of(command);
        let Some(held) = unit.prepared.get(&section).copied() else {
            return card(alloc, command.corr, SqlOutcome::NotPrepared);
        };
        if unit.cursors.contains_key(&section) {
            return card(alloc, command.corr, SqlOutcome::CursorOpen);
        }
        let rows = self.rows_seen(unit)?;
        unit.cursors.insert(section, Cursor { held, rows })?;
        two(alloc, command.corr, opnqryrm(alloc)?, qrydsc(alloc)?)
    }
}

/// CNTQRY fetches a row, and closes the cursor where none is left. DRDA, volume 3, CNTQRY.
#[tactic(auto, unfolding(crate::specs::Query::cntqry_answered))]
pub(crate) fn cntqry(unit: &mut StoreUnit, command: &Command) -> Result<DssList, NoMemory>
    ensures said { IfOk result (λ replies. replies ≡ dsss_of command.now.corr (cntqry_answered unit.old command.now).said) }
    ensures unit { OnOk result (unit.new ≡ (cntqry_answered unit.old command.now).unit) }
{
    let alloc = unit.alloc;
    let section = section_of(command);
    let Some(mut cursor) = unit.cursors.remove(&section) else {
        return message(alloc, command.corr, qrynoprm(alloc)?);
    };
    let Some((key, text)) = cursor.rows.pop_first() else {
        return two(
            alloc,
            command.corr,
            endqryrm(alloc)?,
            sqlcard(alloc, SqlOutcome::NotFound)?,
        );
    };
    unit.cursors.insert(section, cursor)?;
    reply_data(alloc, command.corr, qrydta(alloc, key, text.as_slice())?)
}

/// CLSQRY closes the cursor. DRDA, volume 3, CLSQRY.
#[tactic(auto, unfolding(crate::specs::Query::clsqry_answered))]
pub(crate) fn clsqry(unit: &mut StoreUnit, command: &Command) -> Result<DssList, NoMemory>
    ensures said { IfOk result (λ replies. replies ≡ dsss_of command.now.corr (clsqry_answered unit.old command.now).said) }
    ensures unit { OnOk result (unit.new ≡ (clsqry_answered unit.old command.now).unit) }
{
    let alloc = unit.alloc;
    match unit.cursors.remove(&section_of(command)) {
        Some(_) => card(alloc, command.corr, SqlOutcome::Success),
        None => message(alloc, command.corr, qrynoprm(alloc)?),
    }
}

/// A reply message and reply data behind it.
fn two(alloc: Global, corr: u16, object: Octets, behind: Octets) -> Result<DssList, NoMemory>
    ensures { IfOk result (λ replies. replies ≡ dsss_of corr (message object ∷ reply_data behind ∷ [])) }
{
    let mut replies = Sequence::new(alloc);
    put_message(&mut replies, corr, object)?;
    put_data(&mut replies, corr, behind)?;
    Ok(replies)
}

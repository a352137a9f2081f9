ghost use Rattle.std.specs.Prelude.{◌≡◌, ◌++◌, if◌then◌else◌, IfOk, OnOk, OnErr};
ghost use Rattle.member_replies.specs.Reply.{dsss_of, sets_said};
ghost use Rattle.group_store.specs.Store.{with_commit};
ghost use Rattle.group_store.specs.Rows.{conflicts};
ghost use Rattle.group_store.specs.UnitEnd.{asks_release, asks_sets, has_no_cursor, ended, rdbcmm_answered, rdbrllbck_answered};

use crate::store::Store;
use crate::unit::StoreUnit;
use access_handshake::{Stage, find_parameter};
use ddm_codepoints::code_point::{RLSCONV, RTNSETSTT};
use ddm_codepoints::value::{COMMITTED, RELEASE, RETURN_SETS, ROLLED_BACK};
use dss_frame::DssList;
use link_ends::{NoMemory, Sequence};
use member_replies::{SqlOutcome, enduowrm, put_data, put_message, sqlcard, sqlstt};
use unit_segments::{Command, data_of};

impl Store {
    /// RDBCMM commits the unit of work, or rolls it back where it met another one's commit. DDM, volume 3, RDBCMM.
    #[tactic(auto, unfolding(crate::specs::UnitEnd::rdbcmm_answered))]
    pub(crate) fn rdbcmm(
        &mut self,
        unit: &mut StoreUnit,
        command: &Command,
    ) -> Result<DssList, NoMemory>
        ensures said { IfOk result (λ replies. replies ≡ dsss_of command.now.corr (rdbcmm_answered self.old.rows unit.old command.now).said) }
        ensures unit { OnOk result (unit.new ≡ (rdbcmm_answered self.old.rows unit.old command.now).unit) }
        ensures shared { OnOk result (self.new ≡ (if conflicts self.old.rows unit.old.writes then self.old else with_commit self.old unit.old.writes)) }
        ensures no_memory { OnErr result (self.new ≡ self.old) }
    {
        if self.conflicts(&unit.writes) {
            unit.roll_back();
            return end_unit(unit, command, ROLLED_BACK, SqlOutcome::Conflict);
        }
        let writes = unit.commit();
        let replies = end_unit(unit, command, COMMITTED, SqlOutcome::Success)?;
        self.commit(writes)?;
        Ok(replies)
    }
}

/// RDBRLLBCK rolls the unit of work back. DDM, volume 3, RDBRLLBCK.
#[tactic(auto, unfolding(crate::specs::UnitEnd::rdbrllbck_answered))]
pub(crate) fn rdbrllbck(unit: &mut StoreUnit, command: &Command) -> Result<DssList, NoMemory>
    ensures said { IfOk result (λ replies. replies ≡ dsss_of command.now.corr (rdbrllbck_answered unit.old command.now).said) }
    ensures unit { OnOk result (unit.new ≡ (rdbrllbck_answered unit.old command.now).unit) }
{
    unit.roll_back();
    end_unit(unit, command, ROLLED_BACK, SqlOutcome::Success)
}

/// Answers a command whose unit of work ended in this way; a conversation that is released is at Attached.
fn end_unit(
    unit: &mut StoreUnit,
    command: &Command,
    disposition: u8,
    outcome: SqlOutcome,
) -> Result<DssList, NoMemory>
    ensures said { IfOk result (λ replies. replies ≡ dsss_of command.now.corr (ended disposition outcome unit.old command.now).said) }
    ensures unit { OnOk result (unit.new ≡ (ended disposition outcome unit.old command.now).unit) }
{
    let alloc = unit.alloc;
    let granted = asks_release(command) && has_no_cursor(unit);
    let mut replies = Sequence::new(alloc);
    put_message(
        &mut replies,
        command.corr,
        enduowrm(alloc, disposition, granted)?,
    )?;
    put_data(&mut replies, command.corr, sqlcard(alloc, outcome)?)?;
    if asks_sets(command) {
        put_sets(&mut replies, command.corr, unit)?;
    }
    if granted {
        *unit = StoreUnit::at(alloc, Stage::Attached);
    }
    Ok(replies)
}

/// Whether no cursor is left.
fn has_no_cursor(unit: &StoreUnit) -> bool
    ensures { result ≡ has_no_cursor unit.now }
{
    unit.cursors.len() == 0
}

/// Whether release is asked. DRDA, volume 3, RLSCONV.
fn asks_release(command: &Command) -> bool
    ensures { result ≡ asks_release command.now }
{
    match find_parameter(data_of(command.body.as_slice()), RLSCONV) {
        Some(bytes) => bytes == [RELEASE].as_slice(),
        None => false,
    }
}

/// Whether the SET statements are asked. DRDA, volume 3, RTNSETSTT.
fn asks_sets(command: &Command) -> bool
    ensures { result ≡ asks_sets command.now }
{
    match find_parameter(data_of(command.body.as_slice()), RTNSETSTT) {
        Some(bytes) => bytes == [RETURN_SETS].as_slice(),
        None => false,
    }
}

/// Appends the SET statements of the registers that were set, in order. DRDA, volume 3, SQLSTT.
fn put_sets(replies: &mut DssList, corr: u16, unit: &StoreUnit) -> Result<(), NoMemory>
    ensures { OnOk result (replies.new ≡ replies.old ++ dsss_of corr (sets_said unit.now.typdef unit.now.registers)) }
{
    for (register, value) in &unit.registers {
        let object = sqlstt(unit.alloc, *register, value.as_slice(), unit.typdef)?;
        put_data(replies, corr, object)?;
    }
    Ok(())
}

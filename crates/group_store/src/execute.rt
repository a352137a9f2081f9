ghost use Rattle.std.specs.Prelude.{◌≡◌, is_some, IfOk, IfSome, OnOk, ℕ, List, Some};
ghost use Rattle.member_replies.specs.Reply.{dsss_of, card_said};
ghost use Rattle.group_store.specs.Answered.{says};
ghost use Rattle.group_store.specs.Rows.{seen_at};
ghost use Rattle.group_store.specs.Statement.{is_object_with, data_with, IsSound};
ghost use Rattle.std.specs.List.{list_any};
ghost use Rattle.group_store.specs.Execute.{inserted, replaced, after_sets, statement_done, excsqlimm_answered, excsqlset_answered};
ghost use Rattle.ddm_codepoints.specs.CodePoint.{sqlstt};
ghost use Rattle.unit_segments.specs.declared.command.Command.{Command};

use crate::rows::Place;
use crate::statement::{first_statement, is_object_with, statement_in};
use crate::store::Store;
use crate::text::Text;
use crate::unit::StoreUnit;
use ddm_codepoints::code_point::SQLSTT;
use dss_frame::DssList;
use link_ends::{NoMemory, Octets};
use member_replies::{SqlOutcome, card};
use member_statements::Statement;
use unit_segments::{Command, data_of};

impl Store {
    /// EXCSQLIMM runs one statement other than a SELECT. DRDA, volume 3, EXCSQLIMM.
    #[tactic(auto, unfolding(crate::specs::Execute::excsqlimm_answered))]
    pub(crate) fn excsqlimm(
        &self,
        unit: &mut StoreUnit,
        command: &Command,
    ) -> Result<DssList, NoMemory>
        ensures said { IfOk result (λ replies. replies
            ≡ dsss_of command.now.corr (excsqlimm_answered self.now.rows self.now.commits unit.old command.now).said) }
        ensures unit { OnOk result (unit.new ≡ (excsqlimm_answered self.now.rows self.now.commits unit.old command.now).unit) }
    {
        let alloc = unit.alloc;
        let statement = first_statement(alloc, unit.typdef, command)?;
        let outcome = self.run(unit, statement)?;
        card(alloc, command.corr, outcome)
    }

    /// Runs a statement other than a SELECT.
    fn run(
        &self,
        unit: &mut StoreUnit,
        statement: Option<Statement>,
    ) -> Result<SqlOutcome, NoMemory>
        requires { IfSome statement IsSound }
        ensures { IfOk result (λ outcome. statement_done self.now.rows self.now.commits unit.old statement ≡ says unit.new (card_said outcome)) }
    {
        match statement {
            Some(Statement::Insert { key, text }) => self.insert(unit, key, Text::of(text)),
            Some(Statement::Update { key, text }) => self.replace(unit, key, Some(Text::of(text))),
            Some(Statement::Delete { key }) => self.replace(unit, key, None),
            Some(Statement::Set { register, value }) => {
                unit.set(register, Text::of(value))?;
                Ok(SqlOutcome::Success)
            }
            Some(Statement::Select) | None => Ok(SqlOutcome::NoStatement),
        }
    }

    /// Inserts a row that isn't there.
    fn insert(&self, unit: &mut StoreUnit, key: u32, text: Text) -> Result<SqlOutcome, NoMemory>
        ensures { IfOk result (λ outcome. inserted self.now.rows self.now.commits unit.old key text ≡ says unit.new (card_said outcome)) }
    {
        let place = unit.place(key)?;
        if self.sees(unit, &place) {
            return Ok(SqlOutcome::Duplicate);
        }
        unit.write(self.commits, key, Some(text))?;
        Ok(SqlOutcome::Success)
    }

    /// Writes a row that is there, or lets it go.
    fn replace(
        &self,
        unit: &mut StoreUnit,
        key: u32,
        text: Option<Text>,
    ) -> Result<SqlOutcome, NoMemory>
        ensures { IfOk result (λ outcome. replaced self.now.rows self.now.commits unit.old key text ≡ says unit.new (card_said outcome)) }
    {
        let place = unit.place(key)?;
        if !self.sees(unit, &place) {
            return Ok(SqlOutcome::NotFound);
        }
        unit.write(self.commits, key, text)?;
        Ok(SqlOutcome::Success)
    }

    /// Whether the unit sees a row at this place.
    fn sees(&self, unit: &StoreUnit, place: &Place) -> bool
        ensures { result ≡ is_some (seen_at place.now self.now.rows unit.now.writes) }
    {
        match unit.writes.get(place) {
            Some(write) => write.text.is_some(),
            None => match self.rows.get(place) {
                Some(version) => version.text.is_some(),
                None => false,
            },
        }
    }
}

/// EXCSQLSET runs its SET statements in order, up to the first that is none. DRDA, volume 3, EXCSQLSET.
#[tactic(auto, unfolding(crate::specs::Execute::excsqlset_answered))]
pub(crate) fn excsqlset(unit: &mut StoreUnit, command: &Command) -> Result<DssList, NoMemory>
    ensures said { IfOk result (λ replies. replies ≡ dsss_of command.now.corr (excsqlset_answered unit.old command.now).said) }
    ensures unit { OnOk result (unit.new ≡ (excsqlset_answered unit.old command.now).unit) }
{
    let objects = command.objects.as_slice();
    if !has_statement(objects) {
        return card(unit.alloc, command.corr, SqlOutcome::NoStatement);
    }
    let outcome = set_all(unit, objects)?;
    card(unit.alloc, command.corr, outcome)
}

/// Whether one of these bodies is a SQLSTT.
fn has_statement(objects: &[Octets]) -> bool
    ensures { result ≡ list_any (is_object_with sqlstt) objects.now }
{
    objects.iter().any(|body| is_object_with(body, SQLSTT))
}

/// Runs the SET statements that these objects have, in order, up to the first that is none.
fn set_all(unit: &mut StoreUnit, objects: &[Octets]) -> Result<SqlOutcome, NoMemory>
    ensures outcome { IfOk result (λ outcome. outcome ≡ (after_sets unit.old.typdef (data_with sqlstt objects.now) unit.old.registers).outcome) }
    ensures unit { OnOk result (unit.new
        ≡ record unit.old { registers = (after_sets unit.old.typdef (data_with sqlstt objects.now) unit.old.registers).registers }) }
{
    let mut left = objects;
    while let Some((body, rest)) = left.split_first() {
        if is_object_with(body, SQLSTT) {
            match statement_in(unit.alloc, unit.typdef, data_of(body.as_slice()))? {
                Some(Statement::Set { register, value }) => unit.set(register, Text::of(value))?,
                _ => return Ok(SqlOutcome::NoStatement),
            }
        }
        left = rest;
    }
    Ok(SqlOutcome::Success)
}

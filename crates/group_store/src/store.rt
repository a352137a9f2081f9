ghost use Rattle.std.specs.Prelude.{◌≡◌, ◌==◌, false, IsTrue, IfOk, OnOk, OnErr};
ghost use Rattle.ddm_codepoints.specs.CodePoint.{rdbcmm};
ghost use Rattle.unit_segments.specs.Command.{data_of};
ghost use Rattle.member_replies.specs.Reply.{dsss_of};
ghost use Rattle.group_store.specs.Access.{secchkcd_of, secchk_answered};
ghost use Rattle.group_store.specs.Store.{StoreState, empty_store, is_known, done, store_meaning};
ghost use Rattle.group_store.specs.Values.{IsUnit, Stands};
ghost use Rattle.group_store.specs.GroupLaws.All.{store_laws};

use crate::access::{accrdb, accsec, asks_password, excsat, has_password, name_in, user_in};
use crate::execute::excsqlset;
use crate::query::{clsqry, cntqry, prpsqlstt};
use crate::rows::{Place, Version};
use crate::unit::StoreUnit;
use crate::unit_end::rdbrllbck;
use access_handshake::{Stage, next_stage};
use bytes::Bytes;
use ddm_codepoints::code_point::{
    ACCRDB, ACCSEC, CLSQRY, CNTQRY, EXCSAT, EXCSQLIMM, EXCSQLSET, OPNQRY, PRPSQLSTT, RDBCMM,
    RDBRLLBCK, SECCHK,
};
use ddm_codepoints::value::{ADMITTED, ERROR, INFO};
use dss_frame::DssList;
use link_ends::NoMemory;
use member_replies::{message, secchkrm};
use plain_model::Group;
use reply_texts::{cmdnsp, prccnv};
use std::alloc::Global;
use std::collections::BTreeMap;
use std::marker::Model;
use unit_segments::{Command, data_of};

/// SECCHKCD of a user who isn't known.
const UNKNOWN_USER: u8 = 0x13;

/// SECCHKCD of a password that is missing, or another than the user's.
const WRONG_PASSWORD: u8 = 0x0F;

/// The data of the small group, which all conversations with its members share: its users, its rows, and how many units of
/// work were committed.
#[derive(Drop)]
pub struct Store {
    pub(crate) alloc: Global,
    /// The users' passwords by their names, both in EBCDIC.
    pub(crate) users: BTreeMap<Bytes, Bytes>,
    pub(crate) rows: BTreeMap<Place, Version>,
    pub(crate) commits: u64,
}

impl Model for Store {
    ghost use Rattle.group_store.specs.Store.{StoreState};

    ghost Value = { StoreState };

    ghost view = { λ s. record { users = s.users.entries; rows = s.rows.entries; commits = s.commits } };
}

impl Store {
    /// No users and no rows, and no unit of work was committed.
    pub fn new(alloc: Global) -> Store
        ensures { result ≡ empty_store }
    {
        Store {
            alloc,
            users: BTreeMap::new(alloc),
            rows: BTreeMap::new(alloc),
            commits: 0,
        }
    }

    /// How many units of work were committed; it stays at its greatest value.
    pub fn commits(&self) -> u64
        ensures { result ≡ self.now.commits }
    {
        self.commits
    }
}

impl Group for Store {
    type Unit = StoreUnit;

    ghost meaning = { store_meaning };

    ghost is_shared = { λ shared. Unit {0} };

    ghost is_unit = { IsUnit };

    ghost stands = { Stands };

    fn fresh(&self) -> Result<StoreUnit, NoMemory> {
        Ok(StoreUnit::at(self.alloc, Stage::New))
    }

    /// A command that isn't known is answered CMDNSPRM at every stage, and one that the stage doesn't allow PRCCNVRM.
    #[tactic(auto, unfolding(crate::specs::Store::answered, crate::specs::Store::data_after, crate::specs::Store::unit_after, crate::specs::Store::replies))]
    fn exec(&mut self, unit: &mut StoreUnit, command: &Command) -> Result<DssList, NoMemory> {
        let alloc = self.alloc;
        let code = command.code;
        if !is_known(code) {
            return message(alloc, command.corr, cmdnsp(alloc, code)?);
        }
        if next_stage(unit.stage, code).is_none() {
            return message(alloc, command.corr, prccnv(alloc)?);
        }
        if code == RDBCMM {
            return self.rdbcmm(unit, command);
        }
        self.do_other(unit, command)
    }

    ghost laws = { store_laws };
}

impl Store {
    /// Runs a command that is known, that the stage allows, and that isn't RDBCMM.
    fn do_other(&self, unit: &mut StoreUnit, command: &Command) -> Result<DssList, NoMemory>
        requires known { IsTrue (is_known command.now.code) }
        requires other { (command.now.code == rdbcmm) ≡ false }
        ensures said { IfOk result (λ given. given ≡ dsss_of command.now.corr (done self.now unit.old command.now).said) }
        ensures unit { OnOk result (unit.new ≡ (done self.now unit.old command.now).unit) }
    {
        match command.code {
            EXCSAT => excsat(unit, command),
            ACCSEC => accsec(unit, command),
            SECCHK => self.secchk(unit, command),
            ACCRDB => accrdb(unit, command),
            RDBRLLBCK => rdbrllbck(unit, command),
            EXCSQLIMM => self.excsqlimm(unit, command),
            EXCSQLSET => excsqlset(unit, command),
            PRPSQLSTT => prpsqlstt(unit, command),
            OPNQRY => self.opnqry(unit, command),
            CNTQRY => cntqry(unit, command),
            _ => clsqry(unit, command),
        }
    }

    /// SECCHK admits a user who is known, with the right password where one is asked. DDM, volume 3, SECCHK.
    fn secchk(&self, unit: &mut StoreUnit, command: &Command) -> Result<DssList, NoMemory>
        ensures said { IfOk result (λ given. given ≡ dsss_of command.now.corr (secchk_answered self.now.users unit.old (data_of command.now.body)).said) }
        ensures unit { OnOk result (unit.new ≡ (secchk_answered self.now.users unit.old (data_of command.now.body)).unit) }
    {
        let alloc = self.alloc;
        let params = data_of(command.body.as_slice());
        let code = self.secchkcd(params)?;
        if code == ADMITTED {
            *unit = StoreUnit::checked(alloc, user_in(alloc, params)?);
            return message(alloc, command.corr, secchkrm(alloc, INFO, ADMITTED)?);
        }
        *unit = StoreUnit::at(alloc, Stage::Attached);
        message(alloc, command.corr, secchkrm(alloc, ERROR, code)?)
    }

    /// SECCHKCD for these parameters.
    fn secchkcd(&self, params: &[u8]) -> Result<u8, NoMemory>
        ensures { IfOk result (λ code. code ≡ secchkcd_of self.now.users params.now) }
    {
        let Some(name) = name_in(params) else {
            return Ok(UNKNOWN_USER);
        };
        let name = Bytes::copy_from_slice(self.alloc, name)?;
        Ok(match self.users.get(&name) {
            None => UNKNOWN_USER,
            Some(known) if asks_password(params) && !has_password(params, known.as_slice()) => {
                WRONG_PASSWORD
            }
            Some(_) => ADMITTED,
        })
    }
}

/// Whether the small member knows this command.
fn is_known(code: u16) -> bool
    ensures { result ≡ is_known code }
{
    matches!(
        code,
        EXCSAT
            | ACCSEC
            | SECCHK
            | ACCRDB
            | RDBCMM
            | RDBRLLBCK
            | EXCSQLIMM
            | EXCSQLSET
            | PRPSQLSTT
            | OPNQRY
            | CNTQRY
            | CLSQRY
    )
}

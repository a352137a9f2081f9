ghost use Rattle.std.specs.Prelude.{◌≡◌, [], None, if◌then◌else◌, IfOk, OnOk};
ghost use Rattle.unit_segments.specs.Registers.{with_sets};
ghost use Rattle.plain_model.specs.Standing.{new, attached, chosen, checked, accessed, register_typdef, log_with, after_end};

use access_handshake::{Access, Stage, find_parameter};
use ddm_codepoints::code_point::TYPDEFNAM;
use ddm_codepoints::{TypDef, typdef_of};
use link_ends::{NoMemory, Octets, OctetsList};
use std::alloc::Global;
use std::marker::Model;
use unit_segments::{RegisterFault, RegisterLog, Stripped, data_of};

/// Where a session stands with its server, and what leads another server there: what it gave for its access, and its special registers
/// at the end of the last unit of work.
#[derive(Drop)]
pub struct Standing {
    stage: Stage,
    access: Access,
    log: RegisterLog,
}

impl Model for Standing {
    ghost use Rattle.plain_model.specs.Standing.{Standing as Stands};

    ghost Value = { Stands };

    ghost view = { λ s. record { stage = s.stage; access = s.access; log = s.log } };
}

impl Standing {
    /// Nothing was said.
    pub(crate) fn new(alloc: Global) -> Standing
        ensures { result ≡ new }
    {
        Standing::at(alloc, Stage::New)
    }

    /// The server's attributes are known: EXCSAT (DDM, volume 3).
    pub(crate) fn attached(alloc: Global) -> Standing
        ensures { result ≡ attached }
    {
        Standing::at(alloc, Stage::Attached)
    }

    /// A stage without access.
    fn at(alloc: Global, stage: Stage) -> Standing
        ensures { result ≡ record { stage = stage; access = record { secmec = 0; secchk = []; accrdb = [] }; log = [] } }
    {
        Standing {
            stage,
            access: Access {
                secmec: 0,
                secchk: Octets::new(alloc),
                accrdb: Octets::new(alloc),
            },
            log: RegisterLog::new(alloc),
        }
    }

    /// This mechanism is chosen: ACCSEC (DDM, volume 3).
    pub(crate) fn chosen(alloc: Global, mechanism: u16) -> Standing
        ensures { result ≡ chosen mechanism }
    {
        Standing {
            stage: Stage::Chosen,
            access: Access {
                secmec: mechanism,
                secchk: Octets::new(alloc),
                accrdb: Octets::new(alloc),
            },
            log: RegisterLog::new(alloc),
        }
    }

    /// The user may go on, with this SECCHK (DDM, volume 3).
    pub(crate) fn check(&mut self, alloc: Global, secchk: Octets)
        ensures { self.new ≡ checked secchk self.old }
    {
        self.stage = Stage::Checked;
        self.access.secchk = secchk;
        self.access.accrdb = Octets::new(alloc);
        self.log = RegisterLog::new(alloc);
    }

    /// The database was accessed, with this ACCRDB (DDM, volume 3).
    pub(crate) fn access_database(&mut self, alloc: Global, accrdb: Octets)
        ensures { self.new ≡ accessed accrdb self.old }
    {
        self.stage = Stage::Accessed;
        self.access.accrdb = accrdb;
        self.log = RegisterLog::new(alloc);
    }

    /// The stage.
    pub fn stage(&self) -> Stage
        ensures { result ≡ self.now.stage }
    {
        self.stage
    }

    /// What was given for access so far; what wasn't is empty.
    pub fn access(&self) -> &Access
        ensures { result.now ≡ self.now.access }
    {
        &self.access
    }

    /// The special registers at the end of the last unit of work.
    pub fn registers(&self) -> &RegisterLog
        ensures { result.now ≡ self.now.log }
    {
        &self.log
    }

    /// What is wrong with the first register that can't be kept, if one can't, where these replies ended a unit of work in which
    /// registers were set. The log stays as it is.
    pub(crate) fn register_fault(
        &self,
        stripped: &Stripped,
    ) -> Result<Option<RegisterFault>, NoMemory>
        ensures { IfOk result (λ fault. fault ≡ (if stripped.now.ended then (log_with self.now stripped.now.sets).fault else None)) }
    {
        if !stripped.ended {
            return Ok(None);
        }
        let mut log = self.log.copy()?;
        add_sets(register_typdef(&self.access), &stripped.sets, &mut log)
    }

    /// The unit of work ended, in which these registers were set: what is wrong with the first that can't be kept, if one can't.
    pub(crate) fn end_unit(&mut self, sets: &OctetsList) -> Result<Option<RegisterFault>, NoMemory>
        ensures fault { IfOk result (λ fault. fault ≡ (log_with self.old sets.now).fault) }
        ensures standing { OnOk result (self.new ≡ after_end self.old sets.now) }
    {
        add_sets(register_typdef(&self.access), sets, &mut self.log)
    }
}

/// Adds SET statements to a log, in order, up to the first that it can't take: what is wrong with that.
#[tactic(auto, unfolding(unit_segments::specs::Registers::with_sets))]
fn add_sets(
    typdef: TypDef,
    sets: &OctetsList,
    log: &mut RegisterLog,
) -> Result<Option<RegisterFault>, NoMemory>
    ensures fault { IfOk result (λ fault. fault ≡ (with_sets typdef sets.now log.old).fault) }
    ensures log { OnOk result (log.new ≡ (with_sets typdef sets.now log.old).log) }
{
    let mut left = sets.as_slice();
    while let Some((sqlstt, rest)) = left.split_first() {
        match log.add(sqlstt.as_slice(), typdef) {
            Ok(()) => {}
            Err(RegisterFault::NoMemory) => return Err(NoMemory),
            Err(fault) => return Ok(Some(fault)),
        }
        left = rest;
    }
    Ok(None)
}

/// The type definition in which register statements are written: that of ACCRDB, or else one of the ASCII family.
fn register_typdef(access: &Access) -> TypDef
    ensures { result ≡ register_typdef access.now }
{
    match find_parameter(data_of(access.accrdb.as_slice()), TYPDEFNAM) {
        Some(name) => typdef_of(name).unwrap_or(TypDef::SqlAsc),
        None => TypDef::SqlAsc,
    }
}

ghost use Rattle.std.specs.Prelude.{◌≡◌};
ghost use Rattle.std.specs.Option.{option_copied};
ghost use Rattle.ddm_codepoints.specs.CodeClass.{class_of, name_of, entry_of, is_command};

use crate::code_point::*;

/// What a code point stands for.
#[derive(Clone, Copy, Debug, PartialEq, Eq)]
pub enum CodeClass {
    /// A command that leads to access to a database.
    Access,
    /// A command to a database that was accessed, other than one that ends a unit of work.
    Pass,
    /// A command that ends a unit of work.
    UnitEnd,
    /// An object or a parameter, which is no command.
    Object,
    /// A reply message, which is no command.
    Reply,
    /// None of the code points of the table.
    Unknown,
}

impl CodeClass {
    /// Whether a code point of this class is a command. An object or a reply message is none.
    pub fn is_command(self) -> bool
        ensures { result ≡ is_command self }
    {
        matches!(
            self,
            CodeClass::Access | CodeClass::Pass | CodeClass::UnitEnd
        )
    }
}

/// A code point, its class and its name.
#[derive(Clone, Copy)]
struct Entry(u16, CodeClass, &'static str);

/// The code points that have a class.
static TABLE: [Entry; 76] = [
    Entry(EXCSAT, CodeClass::Access, "EXCSAT"),
    Entry(ACCSEC, CodeClass::Access, "ACCSEC"),
    Entry(SECCHK, CodeClass::Access, "SECCHK"),
    Entry(ACCRDB, CodeClass::Access, "ACCRDB"),
    Entry(RDBCMM, CodeClass::UnitEnd, "RDBCMM"),
    Entry(RDBRLLBCK, CodeClass::UnitEnd, "RDBRLLBCK"),
    Entry(BGNBND, CodeClass::Pass, "BGNBND"),
    Entry(BNDSQLSTT, CodeClass::Pass, "BNDSQLSTT"),
    Entry(CLSQRY, CodeClass::Pass, "CLSQRY"),
    Entry(CNTQRY, CodeClass::Pass, "CNTQRY"),
    Entry(DRPPKG, CodeClass::Pass, "DRPPKG"),
    Entry(DSCSQLSTT, CodeClass::Pass, "DSCSQLSTT"),
    Entry(ENDBND, CodeClass::Pass, "ENDBND"),
    Entry(EXCSQLIMM, CodeClass::Pass, "EXCSQLIMM"),
    Entry(EXCSQLSTT, CodeClass::Pass, "EXCSQLSTT"),
    Entry(OPNQRY, CodeClass::Pass, "OPNQRY"),
    Entry(PRPSQLSTT, CodeClass::Pass, "PRPSQLSTT"),
    Entry(REBIND, CodeClass::Pass, "REBIND"),
    Entry(EXCSQLSET, CodeClass::Pass, "EXCSQLSET"),
    Entry(FDODSC, CodeClass::Object, "FDODSC"),
    Entry(EXTDTA, CodeClass::Object, "EXTDTA"),
    Entry(FDODTA, CodeClass::Object, "FDODTA"),
    Entry(EXCSATRD, CodeClass::Object, "EXCSATRD"),
    Entry(ACCSECRD, CodeClass::Object, "ACCSECRD"),
    Entry(SQLCARD, CodeClass::Object, "SQLCARD"),
    Entry(SQLDARD, CodeClass::Object, "SQLDARD"),
    Entry(SQLDTA, CodeClass::Object, "SQLDTA"),
    Entry(SQLDTARD, CodeClass::Object, "SQLDTARD"),
    Entry(SQLSTT, CodeClass::Object, "SQLSTT"),
    Entry(QRYDSC, CodeClass::Object, "QRYDSC"),
    Entry(QRYDTA, CodeClass::Object, "QRYDTA"),
    Entry(SRVLST, CodeClass::Object, "SRVLST"),
    Entry(SQLATTR, CodeClass::Object, "SQLATTR"),
    Entry(CODPNT, CodeClass::Object, "CODPNT"),
    Entry(TYPDEFNAM, CodeClass::Object, "TYPDEFNAM"),
    Entry(TYPDEFOVR, CodeClass::Object, "TYPDEFOVR"),
    Entry(PRDID, CodeClass::Object, "PRDID"),
    Entry(SRVCLSNM, CodeClass::Object, "SRVCLSNM"),
    Entry(SVRCOD, CodeClass::Object, "SVRCOD"),
    Entry(SYNERRCD, CodeClass::Object, "SYNERRCD"),
    Entry(SRVRLSLV, CodeClass::Object, "SRVRLSLV"),
    Entry(EXTNAM, CodeClass::Object, "EXTNAM"),
    Entry(SRVNAM, CodeClass::Object, "SRVNAM"),
    Entry(RLSCONV, CodeClass::Object, "RLSCONV"),
    Entry(CCSIDSBC, CodeClass::Object, "CCSIDSBC"),
    Entry(CCSIDDBC, CodeClass::Object, "CCSIDDBC"),
    Entry(CCSIDMBC, CodeClass::Object, "CCSIDMBC"),
    Entry(USRID, CodeClass::Object, "USRID"),
    Entry(PASSWORD, CodeClass::Object, "PASSWORD"),
    Entry(SECMEC, CodeClass::Object, "SECMEC"),
    Entry(SECCHKCD, CodeClass::Object, "SECCHKCD"),
    Entry(MGRLVLLS, CodeClass::Object, "MGRLVLLS"),
    Entry(RTNSETSTT, CodeClass::Object, "RTNSETSTT"),
    Entry(RDBACCCL, CodeClass::Object, "RDBACCCL"),
    Entry(RDBNAM, CodeClass::Object, "RDBNAM"),
    Entry(PKGNAMCSN, CodeClass::Object, "PKGNAMCSN"),
    Entry(QRYBLKSZ, CodeClass::Object, "QRYBLKSZ"),
    Entry(UOWDSP, CodeClass::Object, "UOWDSP"),
    Entry(CRRTKN, CodeClass::Object, "CRRTKN"),
    Entry(MGRLVLRM, CodeClass::Reply, "MGRLVLRM"),
    Entry(SECCHKRM, CodeClass::Reply, "SECCHKRM"),
    Entry(AGNPRMRM, CodeClass::Reply, "AGNPRMRM"),
    Entry(RSCLMTRM, CodeClass::Reply, "RSCLMTRM"),
    Entry(PRCCNVRM, CodeClass::Reply, "PRCCNVRM"),
    Entry(SYNTAXRM, CodeClass::Reply, "SYNTAXRM"),
    Entry(CMDNSPRM, CodeClass::Reply, "CMDNSPRM"),
    Entry(VALNSPRM, CodeClass::Reply, "VALNSPRM"),
    Entry(ACCRDBRM, CodeClass::Reply, "ACCRDBRM"),
    Entry(QRYNOPRM, CodeClass::Reply, "QRYNOPRM"),
    Entry(RDBNACRM, CodeClass::Reply, "RDBNACRM"),
    Entry(OPNQRYRM, CodeClass::Reply, "OPNQRYRM"),
    Entry(ENDQRYRM, CodeClass::Reply, "ENDQRYRM"),
    Entry(ENDUOWRM, CodeClass::Reply, "ENDUOWRM"),
    Entry(ABNUOWRM, CodeClass::Reply, "ABNUOWRM"),
    Entry(RDBNFNRM, CodeClass::Reply, "RDBNFNRM"),
    Entry(SQLERRRM, CodeClass::Reply, "SQLERRRM"),
];

/// What a code point stands for: DDM, volume 3, with the classes of this project.
pub fn class(code: u16) -> CodeClass
    ensures { result ≡ class_of code }
{
    match entry_of(&TABLE, code) {
        Some(entry) => entry.1,
        None => CodeClass::Unknown,
    }
}

/// The standard's name of a code point: None exactly where the code point isn't in the table.
pub fn name(code: u16) -> Option<&'static str>
    ensures { option_copied result ≡ name_of code }
{
    match entry_of(&TABLE, code) {
        Some(entry) => Some(entry.2),
        None => None,
    }
}

/// The entry of a code point.
#[tactic(auto, unfolding(crate::specs::CodeClass::entry_of))]
fn entry_of(table: &[Entry], code: u16) -> Option<Entry>
    ensures { result ≡ entry_of table.now code }
{
    table.iter().copied().find(|entry| entry.0 == code)
}

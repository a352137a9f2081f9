ghost use Rattle.std.specs.Prelude.{◌≡◌, if◌then◌else◌};
ghost use Rattle.access_handshake.specs.Stage.{is_for_database, next_stage};

use ddm_codepoints::code_point::{ACCRDB, ACCSEC, EXCSAT, SECCHK};
use ddm_codepoints::{CodeClass, class};

/// How far a conversation has come towards a database.
#[derive(Clone, Copy, Debug, PartialEq, Eq)]
pub enum Stage {
    /// Nothing was said.
    New,
    /// The server's attributes are known.
    Attached,
    /// A security mechanism is chosen.
    Chosen,
    /// The user may go on.
    Checked,
    /// The database was accessed.
    Accessed,
}

/// Where a conversation stands.
#[derive(Clone, Copy, Debug, PartialEq, Eq)]
pub struct Mark {
    pub stage: Stage,
    /// How many bytes that were read belong to no reply yet.
    pub unread: usize,
}

/// The stage after this command, where it succeeds: None exactly where the stage doesn't allow it. DDM, volume 3, EXCSAT,
/// ACCSEC, SECCHK, ACCRDB.
pub fn next_stage(stage: Stage, code: u16) -> Option<Stage>
    ensures { result ≡ next_stage stage code }
{
    match stage {
        Stage::New => after(code == EXCSAT, Stage::Attached),
        Stage::Attached if code == EXCSAT => Some(Stage::Attached),
        Stage::Attached => after(code == ACCSEC, Stage::Chosen),
        Stage::Chosen if code == ACCSEC => Some(Stage::Chosen),
        Stage::Chosen => after(code == SECCHK, Stage::Checked),
        Stage::Checked => after(code == ACCRDB, Stage::Accessed),
        Stage::Accessed => after(is_for_database(class(code)), Stage::Accessed),
    }
}

/// The next stage, where the command is allowed.
fn after(allowed: bool, next: Stage) -> Option<Stage>
    ensures { result ≡ if allowed then Some next else None }
{
    if allowed { Some(next) } else { None }
}

/// Whether commands of this class are for a database that was accessed.
fn is_for_database(class: CodeClass) -> bool
    ensures { result ≡ is_for_database class }
{
    matches!(class, CodeClass::Pass | CodeClass::UnitEnd)
}

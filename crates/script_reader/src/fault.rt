ghost use Rattle.std.specs.Prelude.{◌≡◌};
ghost use Rattle.script_reader.specs.Answers.{fault_at};
ghost use Rattle.script_reader.specs.declared.fault.LineFault.TheVariants.{NoMemory as OutOfMemory};

use crate::script::{ScriptFault, ScriptWhy};
use link_ends::NoMemory;
use std::alloc::AllocFailed;

/// Why a line wasn't added.
#[derive(Clone, Copy)]
pub enum LineFault {
    Refused(ScriptWhy),
    NoMemory,
}

/// A field isn't as the line wants it.
pub const FIELD: LineFault = LineFault::Refused(ScriptWhy::Field);

impl LineFault {
    /// The same, of the line of this number.
    pub fn at(self, line: u64) -> ScriptFault
        ensures { result ≡ fault_at line self }
    {
        match self {
            LineFault::Refused(why) => ScriptFault::Refused { line, why },
            LineFault::NoMemory => ScriptFault::NoMemory,
        }
    }
}

impl From<NoMemory> for LineFault {
    ghost from_gives = { λ _ e. e ≡ OutOfMemory };

    fn from(_error: NoMemory) -> LineFault {
        LineFault::NoMemory
    }
}

impl<T: Drop> From<AllocFailed<T>> for LineFault {
    ghost from_gives = { λ _ e. e ≡ OutOfMemory };

    fn from(_error: AllocFailed<T>) -> LineFault {
        LineFault::NoMemory
    }
}

ghost use Rattle.std.specs.Prelude.{◌≡◌};
ghost use Rattle.unit_segments.specs.declared.fault.ChainFault.TheVariants.{NoMemory as OutOfMemory};

use link_ends::NoMemory;
use thiserror::Error;

/// Why DSSs are no chain.
#[derive(Clone, Copy, Debug, PartialEq, Eq, Error)]
pub enum ChainFault {
    /// A field at this place is none of a chain: its SYNERRCD (DDM, volume 3), and the correlation number it is told by.
    #[error("the chain can't be read at {at} (error {err:02X})")]
    Syntax { at: u64, err: u8, corr: u16 },
    /// The command whose DSS begins at this place is one more than a chain may have.
    #[error("the chain has too many commands at {at}")]
    TooMany { at: u64, corr: u16 },
    /// Memory ran out.
    #[error("memory ran out")]
    NoMemory,
}

impl From<NoMemory> for ChainFault {
    ghost from_gives = { λ _ e. e ≡ OutOfMemory };

    fn from(_error: NoMemory) -> ChainFault {
        ChainFault::NoMemory
    }
}

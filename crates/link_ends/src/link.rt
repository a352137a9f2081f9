ghost use Rattle.std.specs.Prelude.{ℕ, List, Result};
ghost use Rattle.link_ends.specs.declared.source.Failed.{Failed};
ghost use Rattle.link_ends.specs.Link.{LinkState, IsHeard, IsSaid};

use crate::source::Failed;

/// A connection: where bytes come from and where others go.
pub trait Link: Drop {
    /// The bytes that are left to read, those that were read, and those that were taken, each where the link tells them, and its
    /// counts. Each count rises by one, and stands still at the greatest value of a u64.
    ghost state: { Self → LinkState };

    /// That a read into this buffer was made and answered so, with the buffer and the link as they are then. Only a read gives it.
    ghost reads: { Self → List ℕ → Result ℕ Failed → List ℕ → Self → Type 0 };

    /// That a write of this piece was made and answered so, with the link as it is then. Only a write gives it.
    ghost writes: { Self → List ℕ → Result ℕ Failed → Self → Type 0 };

    /// Reads the next bytes into the front of `buf`, and answers how many: 0 only at the end, or where `buf` is empty. An `Err`
    /// has read nothing. What stands in `buf` behind the bytes that were read is as before.
    fn read(&mut self, buf: &mut [u8]) -> Result<usize, Failed>
        ensures heard { IsHeard result (state self.old) (state self.new) buf.old buf.new }
        ensures call { reads self.old buf.old result buf.new self.new };

    /// Takes the first bytes of `piece`, and answers how many. An `Err` has taken none.
    fn write(&mut self, piece: &[u8]) -> Result<usize, Failed>
        ensures said { IsSaid result (state self.old) (state self.new) piece.now }
        ensures call { writes self.old piece.now result self.new };
}

ghost use Rattle.link_ends.specs.Sink.{SinkState, IsWritten};

use crate::source::Failed;

/// Where bytes go.
pub trait Sink {
    /// The bytes that were taken so far, where the sink tells them, how many calls have failed, and how many writes of a
    /// piece that isn't empty took none of it. Each count rises by one, and stands still at the greatest value of a u64.
    ghost state: { Self → SinkState };

    /// Takes the first bytes of `piece`, and answers how many. An `Err` has taken none.
    fn write(&mut self, piece: &[u8]) -> Result<usize, Failed>
        ensures { IsWritten result (state self.old) (state self.new) piece.now };
}

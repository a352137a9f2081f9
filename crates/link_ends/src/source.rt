ghost use Rattle.link_ends.specs.Source.{SourceState, IsRead};

/// A call on the outside failed. What it was to move was not moved.
#[derive(Clone, Copy, Debug, PartialEq, Eq)]
pub struct Failed;

/// Where bytes come from.
pub trait Source {
    /// The bytes that are left, where the source tells them, how many calls have failed, and how many reads have met the
    /// end. Each count rises by one, and stands still at the greatest value of a u64.
    ghost state: { Self → SourceState };

    /// Reads the next bytes into the front of `buf`, and answers how many. It answers 0 only at the end, or where
    /// `buf` is empty; an `Err` has read nothing. What stands in `buf` behind the bytes that were read is as before.
    fn read(&mut self, buf: &mut [u8]) -> Result<usize, Failed>
        ensures { IsRead result (state self.old) (state self.new) buf.old buf.new };
}

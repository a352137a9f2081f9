//! Laws of reading and of spellings. Each function is a law: it does nothing, and what it ensures holds of every value.

ghost use Rattle.std.specs.Prelude.{◌≡◌, ℕ, ◌++◌, List};
ghost use Rattle.dss_frame.specs.declared.dss.Placed.{Placed};
ghost use Rattle.dss_frame.specs.declared.dss.Side.{Side};
ghost use Rattle.dss_frame.specs.Reading.{View, start, fed, behind};
ghost use Rattle.dss_frame.specs.Calls.{Call, after_calls, taken_by, fed_by};

/// It doesn't matter how bytes are cut into pieces.
pub fn pieces_read_as_one()
    ensures { (v : View) (p q : List ℕ) → fed (fed v p) q ≡ fed v (p ++ q) }
{}

/// What was read before stays in front, and doesn't matter to what is read next.
pub fn what_was_read_stays()
    ensures { (front : List Placed) (v : View) (p : List ℕ) → fed (behind front v) p ≡ behind front (fed v p) }
{}

/// Whatever pieces a reader is fed, and whenever DSSs are taken in between: those that were taken and those that are left
/// are what it reads of all bytes in one piece, and so are the bytes that it awaits more of and its fault.
pub fn calls_read_as_one()
    ensures { (side : Side) (limit : ℕ) (calls : List Call)
        → behind (taken_by (start side limit) calls) (after_calls (start side limit) calls) ≡ fed (start side limit) (fed_by calls) }
{}

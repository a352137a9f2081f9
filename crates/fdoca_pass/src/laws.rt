//! What reading triplets means, as laws: each is a function that does nothing, and what it ensures is the law.

ghost use Rattle.std.specs.Prelude.{◌≡◌, ℕ, List, None, Some, take};
ghost use Rattle.std.specs.List.{flat_map};
ghost use Rattle.link_ends.specs.Bytes.{AreBytes};
ghost use Rattle.fdoca_pass.specs.declared.fault.TripletFault.{TripletFault};
ghost use Rattle.fdoca_pass.specs.Triplets.{Described, spelling, AreTriplets, triplets_of, read_to, IsFirstFault};

/// The triplets that are read, joined, are the bytes before the fault, and all bytes where there is none.
pub fn joined_are_the_bytes()
    ensures { (bytes : List ℕ) → flat_map spelling (triplets_of bytes).triplets ≡ take (read_to bytes) bytes }
{}

/// Bytes that are read without a fault are these triplets, one after another.
pub fn read_are_triplets()
    ensures { (bytes : List ℕ) → AreBytes bytes → (triplets_of bytes).fault ≡ None → AreTriplets (triplets_of bytes).triplets bytes }
{}

/// The spellings of triplets, one after another, are read as these triplets.
pub fn triplets_are_read()
    ensures { (triplets : List Described) (bytes : List ℕ) → AreTriplets triplets bytes
        → triplets_of bytes ≡ record { triplets = triplets; fault = None } }
{}

/// The fault that is told is the first: before its place stand the triplets that are read, and at its place a length that is
/// below 2, or goes beyond the bytes that are left.
pub fn first_fault_is_told()
    ensures { (bytes : List ℕ) (fault : TripletFault) → AreBytes bytes → (triplets_of bytes).fault ≡ Some fault
        → IsFirstFault fault (triplets_of bytes).triplets bytes }
{}

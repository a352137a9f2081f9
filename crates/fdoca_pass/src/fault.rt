/// Why bytes are no triplet.
#[derive(Clone, Copy, Debug, PartialEq, Eq)]
pub enum TripletWhy {
    /// The length is below 2, so it doesn't count itself and the type.
    Short,
    /// The length goes beyond the bytes that are left.
    Past,
}

/// A fault of a triplet: the offset of its first byte, from 0, and why.
#[derive(Clone, Copy, Debug, PartialEq, Eq)]
pub struct TripletFault {
    pub at: usize,
    pub why: TripletWhy,
}

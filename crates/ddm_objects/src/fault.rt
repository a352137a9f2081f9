/// Why bytes are no object. The code of each is that of SYNERRCD.
#[derive(Clone, Copy, Debug, PartialEq, Eq)]
pub enum ObjWhy {
    /// Fewer than four bytes are left, or the length is below 4: 07.
    LessThan4,
    /// The object ends past the end of what it lies in, with its extended length or its data, or bytes are left over
    /// after the only object: 08.
    Past,
    /// The length has its top bit set and is none that is read there, or the extended length is too great: 0C.
    Extended,
}

/// A fault of an object: its offset in bytes, from 0, and why. Where bytes are left over it is the offset of the
/// first of these.
#[derive(Clone, Copy, Debug, PartialEq, Eq)]
pub struct ObjFault {
    pub at: usize,
    pub why: ObjWhy,
}

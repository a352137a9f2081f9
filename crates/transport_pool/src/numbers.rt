/// A transport as plain numbers: its own, and that of its member.
#[derive(Clone, Copy, Debug)]
pub struct Numbered {
    pub number: u64,
    pub member: u32,
}

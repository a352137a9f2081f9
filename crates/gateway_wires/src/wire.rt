use link_ends::Octets;

/// All bytes of a transport.
#[derive(Debug, Drop)]
pub struct Wire {
    /// The number of its member.
    pub member: u32,
    /// The bytes that were sent to the member.
    pub to: Octets,
    /// The bytes that the member answered.
    pub from: Octets,
}

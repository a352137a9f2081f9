use server_list::Tried;

/// What a session asks a pool with.
#[derive(Clone, Copy, Debug)]
pub struct Terms {
    pub session: u32,
    /// The members that it doesn't want.
    pub tried: Tried,
    /// Whether it wants a transport that is newly dialled.
    pub fresh: bool,
}

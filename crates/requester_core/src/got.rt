use unit_segments::Stripped;

/// What a piece of a server's bytes comes to.
#[derive(Debug, Drop)]
pub enum Got {
    /// The reply to the chain in work isn't whole yet; or it is, and the next chain is to be sent.
    More,
    /// The server refused access, or its reply to a chain of access is too long.
    Refused,
    /// The bytes left the grammar of a reply at this place: that of a field that isn't of it, or of the first byte behind the reply.
    Broken { at: u64 },
    /// The reply to the segment has more bytes than a reply may.
    TooLong,
    /// Access was given, and there is no segment.
    Ready,
    /// The reply to the segment is whole: what it comes to.
    Whole(Stripped),
}

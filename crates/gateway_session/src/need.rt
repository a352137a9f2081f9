use server_list::Tried;
use session_core::LimitKind;

/// How a session ended.
#[derive(Clone, Copy, Debug)]
pub enum End {
    /// Its application ended.
    AppEnded,
    /// Its application's link failed.
    AppFault,
    /// Its application's bytes were refused at this place: SYNTAXRM (DDM, volume 3).
    Refused { place: u64 },
    /// No listed member is left: these were tried for the segment in work.
    NoMember { tried: Tried },
    /// A limit was passed: RSCLMTRM (DDM, volume 3).
    Limit { kind: LimitKind },
    /// Memory ran out: RSCLMTRM (DDM, volume 3).
    NoMemory,
}

/// What a session needs next.
#[derive(Clone, Copy, Debug)]
pub enum Need {
    /// Bytes of its application.
    App,
    /// A transport.
    Lend,
    /// That its transport is dialled.
    Dial,
    /// That bytes are sent to its server.
    Send,
    /// Bytes of its server.
    Back,
    /// That its transport is given back.
    Give,
    /// That bytes are said to its application.
    Say,
    /// Nothing: it has ended.
    Done(End),
}

/// A limit that a session passed.
#[derive(Clone, Copy, Debug, PartialEq, Eq)]
pub enum LimitKind {
    /// The bytes or the commands of a chain.
    Request,
    /// The bytes of the replies to a chain.
    Reply,
    /// How many special registers are set.
    Registers,
    /// The text of a SET statement.
    Set,
    /// The numbers of transports.
    Numbers,
}

/// How a session ended.
#[derive(Clone, Copy, Debug, PartialEq, Eq)]
pub enum CoreEnd {
    /// Its application ended.
    AppEnded,
    /// Its application's link failed.
    AppFault,
    /// Its application's bytes were refused at this place: SYNTAXRM (DDM, volume 3).
    Refused { place: u64 },
    /// No listed member is left.
    NoMember,
    /// A limit was passed: RSCLMTRM (DDM, volume 3).
    Limit { kind: LimitKind },
}

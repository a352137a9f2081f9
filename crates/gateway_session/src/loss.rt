/// What a session is told of a transport that it asks for.
#[derive(Clone, Copy, Debug, PartialEq, Eq)]
pub enum Lent {
    /// It gets one that was idle: its number, and the number of its member.
    Idle { number: u64, member: u32 },
    /// It may dial one.
    Dial { number: u64, member: u32 },
    /// It waits.
    Queue,
    /// Each listed member was tried.
    NoneLeft,
    /// The greatest number was drawn.
    Worn,
}

/// Why a session lost its transport.
#[derive(Clone, Copy, Debug, PartialEq, Eq)]
pub enum LossWhy {
    /// It couldn't be dialled.
    Dial,
    /// The member refused access.
    Refused,
    /// Its link failed.
    Fault,
    /// Its link gave nothing more.
    Ended,
    /// Its link took nothing more.
    Stuck,
    /// The member's bytes left the grammar of a reply, at this place.
    Frame { at: u64 },
    /// It was cut.
    Cut,
    /// The session ended.
    Left,
}

/// An error that a session makes.
#[derive(Clone, Copy, Debug, PartialEq, Eq)]
pub enum ErrorWord {
    /// The unit of work was rolled back, and the application goes on: SQLSTATE 08506.
    Rerouted,
    /// What became of the unit of work isn't known, and the application goes on: SQLSTATE 08007.
    ReroutedUnknown,
    /// The unit of work was rolled back, and no member is left: SQLSTATE 08001.
    Ended,
    /// What became of the unit of work isn't known, and no member is left: SQLSTATE 08007.
    EndedUnknown,
    /// No member gives access: AGNPRMRM (DDM, volume 3).
    NoAccess,
    /// The application's bytes were refused: SYNTAXRM (DDM, volume 3).
    Syntax,
    /// A limit was passed: RSCLMTRM (DDM, volume 3).
    Limit,
}

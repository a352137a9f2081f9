use gateway_session::Lent;

/// What a turn came to: the event that its session needed, and how many bytes were moved. Where a call failed none were.
#[derive(Clone, Copy, Debug, PartialEq, Eq)]
pub enum Event {
    /// So many bytes came of the application.
    Take { n: usize },
    /// The application's link gave nothing more or took nothing more, or it failed.
    End { failed: bool },
    /// The pool was asked for a transport.
    Lend { lent: Lent },
    /// A transport was dialled, or couldn't be.
    Dial { reached: bool },
    /// So many bytes were sent to the member; or its link failed.
    Send { n: usize, failed: bool },
    /// So many bytes came of the member; or its link failed.
    Back { n: usize, failed: bool },
    /// The transport was given back.
    Give,
    /// So many bytes were said to the application.
    Say { n: usize },
}

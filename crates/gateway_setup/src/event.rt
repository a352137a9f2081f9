/// One event: what an application, the gateway, a member or the way between them does next. Applications are numbered from
/// 1 to 64, members from 1 to 32, and transports as the pool numbers them. `n` is how many bytes are moved at most.
#[derive(Clone, Copy, Debug, PartialEq, Eq)]
pub enum Event {
    /// The gateway takes bytes that the application sent.
    Take { app: u32, n: u32 },
    /// The application ends its connection.
    End { app: u32 },
    /// The session asks the pool for a transport.
    Lend { app: u32 },
    /// The session's transport is dialled.
    Dial { app: u32 },
    /// The session sends bytes to its member.
    Send { app: u32, n: u32 },
    /// The member takes bytes of a transport, and acts on them.
    Act { transport: u64, n: u32 },
    /// The session reads bytes that its member answered.
    Back { app: u32, n: u32 },
    /// The gateway loses the session's transport.
    Cut { app: u32 },
    /// The member drops a transport.
    Drop { transport: u64 },
    /// The session gives its transport back.
    Give { app: u32 },
    /// The application is sent bytes of its replies.
    Say { app: u32, n: u32 },
    /// The member goes down: dials to it fail, and its transports are dropped.
    Down { member: u32 },
    /// The member comes up: dials to it succeed.
    Up { member: u32 },
}

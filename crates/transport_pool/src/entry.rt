use server_list::{ServerList, Tried};

/// A call of a pool, as plain numbers.
#[derive(Clone, Copy, Debug)]
pub enum PoolCall {
    /// A session asks for a transport.
    Lend {
        session: u32,
        tried: Tried,
        fresh: bool,
    },
    /// A transport is given back.
    GiveBack {
        number: u64,
        member: u32,
    },
    /// A transport was lost.
    Lost {
        number: u64,
    },
    /// A member told a list.
    Learn {
        list: ServerList,
    },
    /// A session waits no more.
    Leave {
        session: u32,
    },
}

/// What a call of a pool answers, as plain numbers.
#[derive(Clone, Copy, Debug, PartialEq, Eq)]
pub enum PoolAnswer {
    /// An idle transport is lent.
    Idle { number: u64, member: u32 },
    /// The right to dial a transport is lent.
    Dial { number: u64, member: u32 },
    /// The session has to wait.
    Queue,
    /// All listed members are tried.
    NoneLeft,
    /// All numbers are drawn.
    Worn,
    /// A transport is handed out, to be closed.
    Handed { number: u64 },
    /// Nothing is handed out.
    Nothing,
}

/// A call of a pool with its answer.
#[derive(Clone, Copy, Debug)]
pub struct PoolEntry {
    pub call: PoolCall,
    pub answer: PoolAnswer,
}

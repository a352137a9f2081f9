ghost use Rattle.std.specs.Prelude.{◌≡◌};
ghost use Rattle.requester_core.specs.Lost.{decided};

/// How a session stood when its conversation with a server was lost.
#[derive(Clone, Copy, Debug, PartialEq, Eq)]
pub struct Lost {
    /// A byte was sent of a segment that commits: RDBCMM (DDM, volume 3).
    pub commit_sent: bool,
    /// The unit of work has answered something that doesn't run again without a word.
    pub spoken: bool,
    /// The last end of a unit of work didn't release the conversation: RLSCONV (DRDA, volume 3).
    pub pinned: bool,
}

/// The error that an application is owed.
#[derive(Clone, Copy, Debug, PartialEq, Eq)]
pub enum Owed {
    /// The unit of work was rolled back, and the application goes on with another server.
    Rerouted,
    /// The unit of work was to be committed, and whether it was isn't known.
    Unknown,
}

/// What becomes of the segment in work.
#[derive(Clone, Copy, Debug, PartialEq, Eq)]
pub enum Verdict {
    /// It runs again, and nothing is said.
    Again,
    /// It is answered by an error.
    Owe(Owed),
}

/// What becomes of the segment in work when its conversation is lost: an unknown outcome exactly where its commit was sent, else
/// a roll back exactly where its unit of work is spoken or pinned.
pub fn decide(lost: &Lost) -> Verdict
    ensures { result ≡ decided lost.now }
{
    if lost.commit_sent {
        Verdict::Owe(Owed::Unknown)
    } else if lost.spoken || lost.pinned {
        Verdict::Owe(Owed::Rerouted)
    } else {
        Verdict::Again
    }
}

/// What an application is told of the end of a unit of work (DDM, volume 3, ENDUOWRM, ABNUOWRM).
#[derive(Clone, Copy, Debug, PartialEq, Eq)]
pub enum Outcome {
    /// It was committed: UOWDSP of ENDUOWRM is 1.
    Committed,
    /// It was rolled back: ENDUOWRM, with any other UOWDSP, or none.
    RolledBack,
    /// It was rolled back, since its server was lost before a commit was sent there.
    Rerouted,
    /// Its server was lost after a commit was sent there: nothing is known of it.
    Unknown,
}

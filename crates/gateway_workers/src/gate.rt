/// What is called before a session's first turn, under no lock.
pub trait Gate {
    /// The session of this number is about to begin.
    fn at_session(&self, session: u32);
}

/// A gate that does nothing.
#[derive(Debug, Drop)]
pub struct NoGate;

impl Gate for NoGate {
    fn at_session(&self, _session: u32) {}
}

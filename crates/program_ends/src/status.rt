/// How a command ends. Its number is the status of the program.
#[derive(Clone, Copy, Debug, PartialEq, Eq)]
pub enum Status {
    /// All that is to be written was taken.
    Done = 0,
    /// The words aren't those of the command.
    Usage = 1,
    /// The input is refused.
    Refused = 2,
    /// A read failed.
    SourceFault = 3,
    /// A write failed, or took nothing.
    SinkFault = 4,
    /// Memory ran out.
    NoMemory = 5,
    /// All that is to be written was taken, and what it shows isn't whole.
    NotWhole = 6,
}

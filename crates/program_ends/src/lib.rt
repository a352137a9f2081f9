//! What a command of the program reads to its end and writes whole: texts of a source, texts for a sink, the status that says how the
//! command ended, and the ends of the program itself.
#![tactic(auto)]

mod input;
mod output;
mod status;
mod std_ends;

pub use input::{ReadError, read_all};
pub use output::{offer, write_all};
pub use status::Status;
pub use std_ends::{StdSink, StdSource};

#[cfg(test)]
mod tests;

//! The bytes that an application of a script sends: the chains by which it gets access, and its commands.
#![tactic(auto)]

mod command;
mod object;
mod start;
mod write;

pub use command::{prepare_command, section_command, statement_command, unit_end_command};
pub use start::start_chains;
pub use write::write_command;

#[cfg(test)]
mod tests;

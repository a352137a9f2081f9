//! A member's end of a transport: bytes in whatever pieces they come are read as chains of commands, each chain is run over
//! the group's data once it is whole, and answered.
#![tactic(auto)]

mod chain_run;
mod conversation;
mod laws;
mod listed;

pub use conversation::{CodeList, Conversation};
pub use laws::pieces_are_taken_as_one;

#[cfg(test)]
mod tests;

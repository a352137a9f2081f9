//! Captured streams of a conversation, shown DSS by DSS and checked: what each side sent, which reply belongs to which chain
//! of commands, and what is wrong.
#![tactic(auto)]

mod answered;
mod capture;
mod ending;
mod line;
mod replies;
mod requests;
mod shown;
mod text;
mod trace;

pub use trace::{TraceFault, Traced, trace_text};

#[cfg(test)]
mod tests;

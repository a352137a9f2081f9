//! What applications are told of their units of work.
#![tactic(auto)]

mod outcome;

pub use outcome::Outcome;

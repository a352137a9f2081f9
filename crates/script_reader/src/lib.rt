//! Scripts: what a gateway begins with, and the bytes and events of a play, read from a text.
#![tactic(auto)]

mod body;
mod command;
mod draft;
mod fault;
mod header;
mod rows;
mod script;
mod users;
mod weights;

pub use script::{Line, Row, Script, ScriptFault, ScriptWhy, User, read_script};

#[cfg(test)]
mod tests;

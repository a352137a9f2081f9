//! Scripts that are made from a number: applications that insert rows, some of which lose their transports on the way.
#![tactic(auto)]

mod draw;
mod lines;
mod make;
mod words;

pub use make::make_script;
pub use words::{Asked, read_asked};

#[cfg(test)]
mod tests;

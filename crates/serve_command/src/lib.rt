//! The command `serve`: a gateway whose applications are served by workers over one pool of transports, and what is told of them.
#![tactic(auto)]

mod members;
mod serving;

pub use serving::serve;

#[cfg(test)]
mod tests;

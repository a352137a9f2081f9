//! The transports between a gateway and its members, by their numbers: the bytes that were sent and answered on each, how many of
//! them are on their way, and the members' ends; and which members are down.
#![tactic(auto)]

mod line;
mod moving;
mod wire;
mod wires;

pub use line::Line;
pub use wire::Wire;
pub use wires::Wires;

#[cfg(test)]
mod tests;

//! Links, dials and doors over TCP. What a connection carries isn't known, so none of them tells bytes; they keep their counts, and
//! their calls answer as every link's, dial's and door's do. Each piece is sent at once, and each call moves what is there.
#![tactic(auto)]

mod dial;
mod door;
mod link;

pub use dial::TcpDial;
pub use door::TcpDoor;
pub use link::TcpLink;

#[cfg(test)]
mod tests;

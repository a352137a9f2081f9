//! The ends of the gateway: what bytes come from and go to, as traits whose contracts say what is read and written,
//! and when a fault may be answered. Beside them stand ends in memory. Nothing here opens a file or a socket.
#![tactic(auto)]

mod dial;
mod door;
mod link;
mod marks;
mod mem_dial;
mod mem_door;
mod mem_link;
mod mem_sink;
mod mem_source;
mod octets;
mod room;
mod sequence;
mod short;
mod sink;
mod source;
mod tape;
mod unused;

pub use dial::Dial;
pub use door::Door;
pub use link::Link;
pub use marks::Marks;
pub use mem_dial::MemDial;
pub use mem_door::MemDoor;
pub use mem_link::MemLink;
pub use mem_sink::MemSink;
pub use mem_source::MemSource;
pub use octets::{NoMemory, Octets};
pub use sequence::{OctetsList, Sequence};
pub use sink::Sink;
pub use source::{Failed, Source};
pub use tape::Tape;

#[cfg(test)]
mod tests;

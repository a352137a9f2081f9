//! Threads that serve the links of doors by runs, each over a door and a dial of its own, and all over one pool behind a lock.
#![tactic(auto)]

mod gate;
mod jobs;
mod serving;
mod settling;
mod worker;

pub use gate::{Gate, NoGate};
pub use jobs::WorkerEnds;
pub use serving::serve_links;
pub use settling::Served;

#[cfg(test)]
mod tests;

//! A small member over links: each link is served by one conversation, and all conversations stand over one group's data behind
//! a lock.
#![tactic(auto)]

mod session;
mod workers;

pub use session::{MemberEnd, member_session};
pub use workers::{Worked, serve_doors};

#[cfg(test)]
mod tests;

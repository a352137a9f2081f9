//! Sessions over links: one turn of a session is one call of a link, of a dial or of a lender.
#![tactic(auto)]

mod calls;
mod event;
mod feeding;
mod lease;
mod run;
mod serving;
mod settling;
mod turning;

pub use event::Event;
pub use lease::Lease;
pub use run::{Done, NotMade, Run, Step};
pub use serving::serve_session;

#[cfg(test)]
mod tests;

//! What a gateway begins with, and the events that may happen to it.
#![tactic(auto)]

mod event;
mod laws;
mod sent_lists;
mod setup;

pub use event::Event;
pub use laws::each_list_stays;
pub use sent_lists::SentLists;
pub use setup::Setup;

#[cfg(test)]
mod tests;

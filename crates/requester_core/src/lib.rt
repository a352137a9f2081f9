//! The gateway's end of a conversation with a server: what it sends to stand where its session does, the session's segments, and the
//! replies; and what is owed to an application whose conversation is lost.
#![tactic(auto)]

mod answer;
mod got;
mod judging;
mod laws;
mod lost;
mod replay;
mod reply;
mod round;
mod talk;

pub use got::Got;
pub use laws::{
    calls_are_the_rounds, each_reply_begins_anew, handshake_is_set_out, pieces_are_the_reply,
    whole_replies_are_read,
};
pub use lost::{Lost, Owed, Verdict, decide};
pub use replay::replay_chain;
pub use talk::Talk;

#[cfg(test)]
mod tests;

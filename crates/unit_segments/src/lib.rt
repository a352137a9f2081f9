//! Chains of commands: reading them, cutting them into the segments that run at once, asking for release, taking what was
//! asked for out of the replies, and the log of special registers.
#![tactic(auto)]

mod body;
mod chain_reader;
mod command;
mod fault;
mod join;
mod laws;
mod registers;
mod release;
mod reply;
mod rewrite;
mod segment;
mod share;
mod statement;
mod stripped;
mod write;

pub use body::{code_of, data_of};
pub use chain_reader::ChainReader;
pub use command::{Chain, Command, CommandList};
pub use fault::ChainFault;
pub use join::join_replies;
pub use laws::{
    access_chain_is_read, asked_segment_is_read, body_fault_is_the_first, bytes_are_one_list,
    chains_are_one_list, chains_are_read, chains_can_be_written, read_are_chains,
    register_chain_is_read, segments_are_one_list, segments_are_the_chain, sound_bodies_are_read,
    told_fault_is_the_first, written_chain_is_read,
};
pub use registers::{RegisterFault, RegisterLog};
pub use release::ask_release;
pub use reply::{is_object_of, tells_error};
pub use segment::{Segment, SegmentList, cut};
pub use share::share_command;
pub use statement::sql_text;
pub use stripped::{Stripped, strip};
pub use write::write_chain;

#[cfg(test)]
mod tests;

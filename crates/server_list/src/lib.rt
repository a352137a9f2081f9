//! Members of a group with their weights, as a server tells them to its clients in SRVLST, and the choice of the member
//! that the next transport goes to.
#![tactic(auto)]

mod choice;
mod laws;
mod list;
mod read;
mod tried;
mod write;

pub use choice::choose;
pub use laws::{tried_has_what_was_added, written_list_is_read};
pub use list::{ServerList, ServerRow};
pub use read::read_list;
pub use tried::Tried;
pub use write::write_list;

#[cfg(test)]
mod tests;

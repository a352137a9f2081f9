//! What a server says besides the data: SQLCARD, reply messages, and the replies that close a conversation.
#![tactic(auto)]

mod closing;
mod laws;
mod rdb_name;
mod reply;
mod sqlcard;
mod text;

pub use closing::{agnprm_dss, ended_dss, limit_dss, memory_dss, syntax_dss, syntax_error};
pub use laws::written_card_is_read;
pub use rdb_name::RdbName;
pub use reply::{abnuow, cmdnsp, enduow, prccnv};
pub use sqlcard::{Card, Sqlca, read_sqlcard, write_sqlcard};
pub use text::{are_characters_in, decode, encode};

#[cfg(test)]
mod tests;

//! What the small member says: its replies to a command, and the SQLCARDs that say what comes of a statement. Which replies
//! they are, and which parameters they have, is this project's own choice.
#![tactic(auto)]

mod reply;
mod sql_outcome;
#[cfg(test)]
mod tests;

pub use reply::{
    accrdbrm, card, endqryrm, enduowrm, message, opnqryrm, put_data, put_message, qrydsc, qrydta,
    qrynoprm, reply_data, secchkrm, sqlcard, sqlstt, valnsprm,
};
pub use sql_outcome::SqlOutcome;

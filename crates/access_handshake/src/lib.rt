//! How an application and a server meet: the commands that come before access to data, their answers, and what a gateway
//! itself sends to get access.
#![tactic(auto)]

mod accepted;
mod access;
mod accsec;
mod excsat;
mod manager;
mod object;
mod parameter;
mod rdbnam;
mod stage;

pub use accepted::{Accepted, read_accepted};
pub use access::{Access, access_chain, accsec_command, hello};
pub use accsec::{AccsecAnswer, answer_accsec, has_secmec};
pub use excsat::{ExcsatAnswer, answer_excsat, answer_is_short};
pub use parameter::find_parameter;
pub use rdbnam::{answer_rdbnam, has_rdbnam};
pub use stage::{Mark, Stage, next_stage};

#[cfg(test)]
mod tests;

//! The words of the program's commands `serve` and `member`: which are right, and what they say.
#![tactic(auto)]

mod command;
mod field;
mod member;
mod serve;

pub use member::{MEMBER_USAGE, MemberWords, User, read_member};
pub use serve::{SERVE_USAGE, ServeWords, read_serve};

#[cfg(test)]
mod tests;

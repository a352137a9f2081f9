//! The statements that the small member knows: read from their texts, and written again where they set a register. They are
//! a subset of SQL that this project chose. A text is in ASCII and has the characters of `ddm_codepoints` alone.
#![tactic(auto)]

mod laws;
mod reading;
mod register;
mod statement;
#[cfg(test)]
mod tests;

pub use laws::read_statements_are_spelled;
pub use reading::read_statement;
pub use register::{Register, write_set};
pub use statement::{MOST_DIGITS, MOST_TEXT, Statement};

//! Texts of lines, some of which spell bytes in hexadecimal digits: scripts and captures are such.
#![tactic(auto)]

mod digits;
mod line;

pub use digits::read_hex;
pub use line::{MOST_BYTES, cut_at, is_skipped, split_line};

#[cfg(test)]
mod tests;

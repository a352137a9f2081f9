//! The words of scripts: how a line is cut into words, what its first word says, numbers and other fields, and the order in
//! which lines stand.
#![tactic(auto)]

mod field;
mod keyword;
mod number;
mod stage;
mod words;

pub use field::{is_name, is_printable, read_text};
pub use keyword::{CommandWord, HeaderWord, Keyword, MoveWord, StepWord, fits_count, read_keyword};
pub use number::{read_number, read_within};
pub use stage::{Stage, is_whole, stage_after};
pub use words::{
    SPACE, behind_first, behind_second, behind_third, count_words, first_word, fourth_word,
    second_word, third_word,
};

#[cfg(test)]
mod tests;

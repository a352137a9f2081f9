//! The numbers and characters of DDM: code points and what they stand for, EBCDIC, and type definition names. No call
//! here takes memory.
#![tactic(auto)]

mod character;
mod code_class;
pub mod code_point;
mod laws;
mod typdef;
pub mod value;

pub use character::{NAME_LENGTH, SPACE, ascii_of, ebcdic_of, padded_name, trimmed};
pub use code_class::{CodeClass, class, name};
pub use laws::{characters_are_found, codes_lead_back, table_is_found, unknown_has_no_name};
pub use typdef::{TypDef, typdef_of};

#[cfg(test)]
mod tests;

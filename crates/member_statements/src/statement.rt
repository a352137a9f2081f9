use crate::register::Register;
use link_ends::Octets;

/// How many digits a key has at most.
pub const MOST_DIGITS: usize = 9;

/// How many characters a text has at most.
pub const MOST_TEXT: usize = 200;

/// A statement on the one table T, whose rows have a number K as their key and a text V.
#[derive(Debug, Drop)]
pub enum Statement {
    /// `INSERT INTO T VALUES (key, 'text')`
    Insert {
        /// The row's key.
        key: u32,
        /// The row's text, in ASCII.
        text: Octets,
    },
    /// `UPDATE T SET V = 'text' WHERE K = key`
    Update {
        /// The row's key.
        key: u32,
        /// The row's new text, in ASCII.
        text: Octets,
    },
    /// `DELETE FROM T WHERE K = key`
    Delete {
        /// The row's key.
        key: u32,
    },
    /// `SET register = 'value'`
    Set {
        /// The special register.
        register: Register,
        /// Its new value, in ASCII.
        value: Octets,
    },
    /// `SELECT K, V FROM T`
    Select,
}

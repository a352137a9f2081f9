//! That scripts which are made from a number can be read: a law over two crates, of which neither stands on the other.
#![tactic(auto)]

mod laws;

pub use laws::made_scripts_are_read;

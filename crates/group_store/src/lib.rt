//! The small group: members that share users, the rows of one table, and the number of commits, in memory. It is this project's
//! own, a subset of what a database does.
#![tactic(auto)]

mod access;
mod commit;
mod execute;
mod query;
mod rows;
mod setup;
mod statement;
mod store;
mod text;
mod unit;
mod unit_end;

pub use rows::{Row, RowList};
pub use store::Store;
pub use unit::StoreUnit;

#[cfg(test)]
mod tests;

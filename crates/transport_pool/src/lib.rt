//! The pool of transports to the members of a group: which session is lent which transport, who waits, and the list in
//! use, decided as plain numbers; the links of the idle transports beside them; and the journal of what was decided, call
//! by call.
#![tactic(auto)]

mod decisions;
mod entry;
mod grant;
mod house;
mod journal;
mod laws;
mod lend;
mod lists;
mod moves;
mod numbers;
mod pool;
mod rows;
mod slots;
mod terms;
mod transport;

pub use decisions::Decisions;
pub use entry::{PoolAnswer, PoolCall, PoolEntry};
pub use grant::Grant;
pub use house::House;
pub use journal::Journal;
pub use laws::{limits_hold, order_holds};
pub use lend::{Lend, Listed, Spent};
pub use numbers::Numbered;
pub use pool::Pool;
pub use terms::Terms;
pub use transport::Transport;

#[cfg(test)]
mod tests;

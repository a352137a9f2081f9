//! Who lends transports to sessions and takes them back: a pool that one thread alone has, or one that many share behind a lock.
#![tactic(auto)]

mod hall;
mod house_lender;
mod lender;
mod lending;
mod lock_lender;
mod shelf;

pub use hall::Hall;
pub use house_lender::HouseLender;
pub use lender::Lender;
pub use lock_lender::LockLender;
pub use shelf::Shelf;

#[cfg(test)]
mod tests;

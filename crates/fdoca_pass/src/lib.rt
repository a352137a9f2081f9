//! FD:OCA triplets, passed over by their lengths: a byte of length, which counts itself, a byte of type, and the rest.
#![tactic(auto)]

mod fault;
mod laws;
mod triplet;

pub use fault::{TripletFault, TripletWhy};
pub use laws::{first_fault_is_told, joined_are_the_bytes, read_are_triplets, triplets_are_read};
pub use triplet::{Triplet, TripletScan, triplets};

#[cfg(test)]
mod tests;

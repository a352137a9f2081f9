//! DDM objects: reading one, reading a list of them, and writing them one within another. An object is two bytes of
//! length, two bytes of code point, and its data; all numbers are big-endian.
#![tactic(auto)]

mod builder;
mod fault;
mod laws;
mod member;
mod object;

pub use builder::Builder;
pub use fault::{ObjFault, ObjWhy};
pub use laws::{
    canonical_are_members, canonical_is_first, canonical_is_outer, first_fault_is_first,
    first_is_spelled, found_is_within, members_are_one_list, members_are_spelled,
    members_fault_is_first, outer_fault_is_first, outer_is_spelled, spelled_are_members,
    spelled_is_first, spelled_is_outer,
};
pub use member::{MemberScan, find, members};
pub use object::{Object, first, outer};

#[cfg(test)]
mod tests;

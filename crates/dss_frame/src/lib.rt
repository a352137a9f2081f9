//! The frames of DRDA: bytes in whatever pieces they come are read as DSSs (data stream structures), and a DSS is
//! written in its one canonical spelling.
#![tactic(auto)]

mod dss;
mod fault;
mod laws;
mod reader;
mod scan;
mod segments;
mod spelling_laws;
mod step;
mod stream_laws;
mod unread;
mod writer;

pub use dss::{Dss, DssList, Kind, Placed, Side};
pub use fault::{FeedFault, StreamFault, Why};
pub use laws::{calls_read_as_one, pieces_read_as_one, what_was_read_stays};
pub use reader::Reader;
pub use spelling_laws::{
    awaited_has_no_spelling, bad_fields_are_found, canonical_is_a_spelling,
    no_spelling_begins_another, read_is_a_spelling, spelling_is_read,
};
pub use stream_laws::{
    bad_is_found, beyond_is_found, beyond_is_told, each_stands_at_its_place, fault_has_its_number,
    fault_is_the_first, nothing_mends_it, read_is_a_stream, stream_is_read, streams_are_one,
    what_is_held_follows, what_is_not_bad_goes_on, what_is_written_is_read,
};
pub use writer::write_dss;

#[cfg(test)]
mod tests;

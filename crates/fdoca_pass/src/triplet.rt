ghost use Rattle.std.specs.Prelude.{◌≡◌, ◌+◌, ◌<◌, ◌≤◌, length, IfOk, option_map};
ghost use Rattle.fdoca_pass.specs.Triplets.{triplet_at, next_of, after_next};
ghost use Rattle.fdoca_pass.specs.Seen.{seen_found, seen_result};

use crate::fault::{TripletFault, TripletWhy};
use std::marker::Model;

/// How many bytes stand before the data of a triplet: its length and its type.
const HEADER: usize = 2;

/// A triplet (DRDA, volume 2, FD:OCA): its type, and its data, which are a part of the bytes that were read. Its length
/// counts these and two bytes more.
#[derive(Clone, Copy, Debug)]
pub struct Triplet<'a> {
    pub kind: u8,
    pub bytes: &'a [u8],
}

/// A walk over the triplets that stand one after another in bytes.
#[derive(Debug, Drop)]
pub struct TripletScan<'a> {
    at: usize,
    left: &'a [u8],
}

impl<'a> Model for TripletScan<'a> {
    ghost use Rattle.std.specs.Prelude.{◌+◌, ◌<◌, ◌^◌, length};
    ghost use Rattle.fdoca_pass.specs.Triplets.{Scan};

    ghost Value = { Scan };

    ghost view = { λ s. record { at = s.at; left = s.left.now } };

    ghost invariant = { λ s. s.at + length s.left.now < 2 ^ 64 };
}

/// The triplets that stand one after another in these bytes. It takes no memory.
pub fn triplets(bytes: &[u8]) -> TripletScan<'_>
    ensures { result ≡ record { at = 0; left = bytes.now } }
{
    TripletScan { at: 0, left: bytes }
}

impl<'a> TripletScan<'a> {
    /// The next triplet, or the fault in its place, with its offset from the walk's beginning: `Short` exactly where its
    /// length is below 2, `Past` exactly where its length goes beyond the bytes that are left. None at the end, and after a
    /// fault.
    pub fn next(&mut self) -> Option<Result<Triplet<'a>, TripletFault>>
        ensures answer { option_map seen_result result ≡ next_of self.old }
        ensures after { self.new ≡ after_next self.old }
    {
        if self.left.is_empty() {
            return None;
        }
        match read_triplet(self.at, self.left) {
            Ok((triplet, rest)) => {
                self.at += self.left.len() - rest.len();
                self.left = rest;
                Some(Ok(triplet))
            }
            Err(fault) => {
                self.left = &[];
                Some(Err(fault))
            }
        }
    }
}

/// The triplet that the bytes begin with, and the bytes after it. It lies at the offset `at`, which a fault answers.
#[tactic(auto, unfolding(crate::specs::Triplets::triplet_at))]
fn read_triplet(at: usize, bytes: &[u8]) -> Result<(Triplet<'_>, &[u8]), TripletFault>
    requires { 0 < length bytes.now }
    ensures found { seen_found result ≡ triplet_at at bytes.now }
    ensures within { IfOk result (λ found. length found.1.now + 2 ≤ length bytes.now) }
{
    let len = usize::from(bytes[0]);
    if len < HEADER {
        return Err(TripletFault {
            at,
            why: TripletWhy::Short,
        });
    }
    if len > bytes.len() {
        return Err(TripletFault {
            at,
            why: TripletWhy::Past,
        });
    }
    let (first, rest) = bytes.split_at(len);
    let triplet = Triplet {
        kind: first[1],
        bytes: &first[HEADER..],
    };
    Ok((triplet, rest))
}

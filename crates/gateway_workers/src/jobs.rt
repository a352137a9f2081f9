//! What a worker begins with, and what it ends with.
ghost use Rattle.std.specs.Prelude.{◌≡◌};

use std::sync::ledger::{Ledger, Share};

/// A worker's door and dial.
#[derive(Drop)]
pub struct WorkerEnds<D, N> {
    pub door: D,
    pub dial: N,
}

/// A worker's ends, with its part of a ledger of the pool's calls, and of one of its lends that were answered Dial.
#[derive(Drop)]
pub(crate) struct Job<D, N, X: Ledger, Y: Ledger> {
    pub door: D,
    pub dial: N,
    pub calls: Share<X>,
    pub dials: Share<Y>,
    pub ghost call_part: { calls.parts ≡ 1 },
    pub ghost dial_part: { dials.parts ≡ 1 },
}

/// What a worker leaves: how many links its door gave, whether its door failed, and whether it found no memory.
#[derive(Drop)]
pub(crate) struct Worked<D, N, X: Ledger, Y: Ledger> {
    pub job: Job<D, N, X, Y>,
    pub sessions: u64,
    pub failed: bool,
    pub refused: bool,
}

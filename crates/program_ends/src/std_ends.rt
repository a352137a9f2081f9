ghost use Rattle.std.specs.Prelude.{◌≡◌, None};

use link_ends::{Failed, Sink, Source};
use std::io::{Read, Write};

/// How many bytes a source reads at most in one call.
const PIECE: usize = 4096;

/// A reader as a source. It tells no bytes; its counts begin at 0. A reader may write behind the bytes that it read, so it
/// reads into a piece of the source's own.
#[derive(Drop)]
pub struct StdSource<R: Read + Drop> {
    input: R,
    piece: [u8; PIECE],
    faults: u64,
    ends: u64,
}

impl<R: Read + Drop> StdSource<R> {
    /// No call of it was made yet.
    pub fn new(input: R) -> StdSource<R>
        ensures input { result.input ≡ input }
        ensures counts { (result.faults ≡ 0) × (result.ends ≡ 0) }
    {
        StdSource {
            input,
            piece: [0; PIECE],
            faults: 0,
            ends: 0,
        }
    }
}

impl<R: Read + Drop> Source for StdSource<R> {
    ghost state = { λ s. record { left = None; faults = s.faults; ends = s.ends } };

    fn read(&mut self, buf: &mut [u8]) -> Result<usize, Failed> {
        let piece = &mut self.piece[..];
        let most = buf.len().min(piece.len());
        match self.input.read(&mut piece[..most]) {
            Ok(count) => {
                if count == 0 && !buf.is_empty() {
                    self.ends = self.ends.saturating_add(1);
                }
                buf[..count].copy_from_slice(&self.piece[..count]);
                Ok(count)
            }
            Err(_) => {
                self.faults = self.faults.saturating_add(1);
                Err(Failed)
            }
        }
    }
}

/// A writer as a sink. It tells no bytes; its counts begin at 0.
#[derive(Drop)]
pub struct StdSink<W: Write + Drop> {
    output: W,
    faults: u64,
    stuck: u64,
}

impl<W: Write + Drop> StdSink<W> {
    /// No call of it was made yet.
    pub fn new(output: W) -> StdSink<W>
        ensures output { result.output ≡ output }
        ensures counts { (result.faults ≡ 0) × (result.stuck ≡ 0) }
    {
        StdSink {
            output,
            faults: 0,
            stuck: 0,
        }
    }
}

impl<W: Write + Drop> Sink for StdSink<W> {
    ghost state = { λ s. record { taken = None; faults = s.faults; stuck = s.stuck } };

    fn write(&mut self, piece: &[u8]) -> Result<usize, Failed> {
        match self.output.write(piece) {
            Ok(count) => {
                if count == 0 && !piece.is_empty() {
                    self.stuck = self.stuck.saturating_add(1);
                }
                Ok(count)
            }
            Err(_) => {
                self.faults = self.faults.saturating_add(1);
                Err(Failed)
            }
        }
    }
}

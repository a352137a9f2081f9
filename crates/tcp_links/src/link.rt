ghost use Rattle.std.specs.Prelude.{◌≡◌, None};

use link_ends::{Failed, Link};
use std::io::{Read, Write};
use std::net::TcpStream;

/// How many bytes a link reads at most in one call.
const PIECE: usize = 4096;

/// A connection as a link. It tells no bytes; its counts begin at 0. A stream may write behind the bytes that it read, so it reads
/// into a piece of the link's own.
#[derive(Drop)]
pub struct TcpLink {
    stream: TcpStream,
    piece: [u8; PIECE],
    faults: u64,
    ends: u64,
    stuck: u64,
}

impl TcpLink {
    /// A connection that sends each piece at once, where the host can do that. No call of the link was made yet.
    pub fn new(stream: TcpStream) -> TcpLink
        ensures { (result.faults ≡ 0) × (result.ends ≡ 0) × (result.stuck ≡ 0) }
    {
        let _ = stream.set_nodelay(true);
        TcpLink {
            stream,
            piece: [0; PIECE],
            faults: 0,
            ends: 0,
            stuck: 0,
        }
    }
}

impl Link for TcpLink {
    ghost state = { λ l. record { left = None; heard = None; taken = None; faults = l.faults; ends = l.ends; stuck = l.stuck } };

    ghost reads = { λ old buffer result buffer_now new. Unit {0} };

    ghost writes = { λ old piece result new. Unit {0} };

    fn read(&mut self, buf: &mut [u8]) -> Result<usize, Failed> {
        let piece = &mut self.piece[..];
        let most = buf.len().min(piece.len());
        match self.stream.read(&mut piece[..most]) {
            Ok(count) => {
                if count == 0 && !buf.is_empty() {
                    self.ends = self.ends.saturating_add(1);
                }
                buf[..count].copy_from_slice(&self.piece[..count]);
                Ok(count)
            }
            Err(_) => {
                self.faults = self.faults.saturating_add(1);
                Err(Failed)
            }
        }
    }

    fn write(&mut self, piece: &[u8]) -> Result<usize, Failed> {
        match self.stream.write(piece) {
            Ok(count) => {
                if count == 0 && !piece.is_empty() {
                    self.stuck = self.stuck.saturating_add(1);
                }
                Ok(count)
            }
            Err(_) => {
                self.faults = self.faults.saturating_add(1);
                Err(Failed)
            }
        }
    }
}

ghost use Rattle.std.specs.Prelude.{◌≡◌, ◌==◌, ◌++◌, ◌+◌, ◌≤◌, [], length, take, drop, slice_range, IfOk, IfSome, OnOk, OnErr};

use crate::short::{SHORT, Short};
use bytes::Bytes;
use std::alloc::{AllocError, AllocFailed, Global};
use std::marker::Model;

/// Memory ran out. The call that answers it has changed nothing.
#[derive(Clone, Copy, Debug, PartialEq, Eq)]
pub struct NoMemory;

impl From<AllocError> for NoMemory {
    fn from(_error: AllocError) -> NoMemory {
        NoMemory
    }
}

impl<T: Drop> From<AllocFailed<T>> for NoMemory {
    fn from(_error: AllocFailed<T>) -> NoMemory {
        NoMemory
    }
}

/// Where the bytes of a list are kept.
#[derive(Debug, Drop)]
enum Kept {
    /// In the value itself.
    Inside(Short),
    /// In a buffer that grows, and that no other list shares.
    Own(Vec<u8>),
    /// In a buffer that other lists may share.
    Shared(Bytes),
}

/// A list of bytes that can grow. A short one stands in the value itself and takes no memory; the parts of a long one
/// that was made of bytes at once share its buffer.
#[derive(Debug, Drop)]
pub struct Octets {
    alloc: Global,
    kept: Kept,
}

impl Model for Octets {
    ghost use Rattle.std.specs.Prelude.{List, ℕ};

    ghost Value = { List ℕ };

    ghost use Rattle.link_ends.specs.Kept.{kept_bytes};

    ghost view = { λ o. kept_bytes o.kept };
}

impl Octets {
    /// No bytes yet. What is added later is stored in memory of this allocator.
    pub fn new(alloc: Global) -> Octets
        ensures { result ≡ [] }
    {
        Octets {
            alloc,
            kept: Kept::Inside(Short::new()),
        }
    }

    /// A copy of these bytes.
    pub fn of(alloc: Global, bytes: &[u8]) -> Result<Octets, NoMemory>
        ensures { IfOk result (λ octets. octets ≡ bytes.now) }
    {
        Octets::front_of(alloc, bytes, bytes.len())
    }

    /// A copy of the first `count` of these bytes.
    #[inline]
    pub fn front_of(alloc: Global, bytes: &[u8], count: usize) -> Result<Octets, NoMemory>
        requires { count ≤ length bytes.now }
        ensures { IfOk result (λ octets. octets ≡ take count bytes.now) }
    {
        if count > SHORT {
            return shared_copy(alloc, &bytes[..count]);
        }
        Ok(Octets::short_front_of(alloc, bytes, count))
    }

    /// The same of few bytes, which stand in the value itself. It takes no memory.
    #[inline]
    pub fn short_front_of(alloc: Global, bytes: &[u8], count: usize) -> Octets
        requires within { count ≤ length bytes.now }
        requires short { count ≤ 24 }
        ensures { result ≡ take count bytes.now }
    {
        Octets {
            alloc,
            kept: Kept::Inside(Short::front_of(bytes, count)),
        }
    }

    /// The bytes of a buffer, which is taken over. It takes no memory.
    pub fn from_grown(bytes: Vec<u8>) -> Octets
        ensures { result ≡ bytes.items }
    {
        Octets {
            alloc: *bytes.allocator(),
            kept: Kept::Own(bytes),
        }
    }

    /// The bytes of a buffer that others may share. It takes no memory.
    pub fn from_shared(alloc: Global, bytes: Bytes) -> Octets
        ensures { result ≡ bytes }
    {
        Octets {
            alloc,
            kept: Kept::Shared(bytes),
        }
    }

    /// Appends these bytes.
    pub fn push_all(&mut self, bytes: &[u8]) -> Result<(), NoMemory>
        ensures ok { OnOk result (self.new ≡ self.old ++ bytes.now) }
        ensures err { OnErr result (self.new ≡ self.old) }
    {
        match &mut self.kept {
            Kept::Own(buffer) => {
                buffer.extend_from_slice(bytes)?;
                return Ok(());
            }
            Kept::Inside(short) if bytes.len() <= SHORT - short.len() => {
                short.push_all(bytes);
                return Ok(());
            }
            _ => {}
        }
        self.move_and_push(bytes)
    }

    /// Appends the first `count` of these bytes. Where the list has a buffer of its own, all of them are copied, and those
    /// behind are given up: for an array of few bytes that is a few moves and no call.
    #[inline]
    pub fn push_front_of(&mut self, bytes: &[u8], count: usize) -> Result<(), NoMemory>
        requires { count ≤ length bytes.now }
        ensures ok { OnOk result (self.new ≡ self.old ++ take count bytes.now) }
        ensures err { OnErr result (self.new ≡ self.old) }
    {
        if let Kept::Own(buffer) = &mut self.kept {
            buffer.extend_from_slice(bytes)?;
            buffer.truncate(buffer.len() - (bytes.len() - count));
            return Ok(());
        }
        self.push_all(&bytes[..count])
    }

    /// Moves the bytes into a buffer of their own, and appends these.
    #[inline(never)]
    fn move_and_push(&mut self, bytes: &[u8]) -> Result<(), NoMemory>
        ensures ok { OnOk result (self.new ≡ self.old ++ bytes.now) }
        ensures err { OnErr result (self.new ≡ self.old) }
    {
        let grown = grown(self.alloc, self.as_slice(), bytes)?;
        self.kept = Kept::Own(grown);
        Ok(())
    }

    /// Gives up the first `count` bytes.
    pub fn advance(&mut self, count: usize)
        requires { count ≤ length self.old }
        ensures { self.new ≡ drop count self.old }
    {
        match &mut self.kept {
            Kept::Inside(bytes) => bytes.advance(count),
            Kept::Own(bytes) => {
                let left = bytes.len() - count;
                bytes.copy_within(count.., 0);
                bytes.truncate(left);
            }
            Kept::Shared(bytes) => bytes.advance(count),
        }
    }

    /// Keeps the first `len` bytes, or all of them where there are no more.
    pub fn truncate(&mut self, len: usize)
        ensures { self.new ≡ take len self.old }
    {
        match &mut self.kept {
            Kept::Inside(bytes) => bytes.truncate(len),
            Kept::Own(bytes) => bytes.truncate(len),
            Kept::Shared(bytes) => bytes.truncate(len),
        }
    }

    /// The bytes, oldest first.
    pub fn as_slice(&self) -> &[u8]
        ensures { result.now ≡ self.now }
    {
        match &self.kept {
            Kept::Inside(bytes) => bytes.as_slice(),
            Kept::Own(bytes) => bytes.as_slice(),
            Kept::Shared(bytes) => bytes.as_slice(),
        }
    }

    /// The bytes and others behind them, where they stand in the value itself.
    #[inline]
    pub fn as_array(&self) -> Option<&[u8; SHORT]>
        ensures { IfSome result (λ bytes. take (length self.now) bytes.now ≡ self.now) }
    {
        match &self.kept {
            Kept::Inside(bytes) => Some(bytes.as_array()),
            _ => None,
        }
    }

    /// How many bytes there are.
    pub fn len(&self) -> usize
        ensures { result ≡ length self.now }
    {
        match &self.kept {
            Kept::Inside(bytes) => bytes.len(),
            Kept::Own(bytes) => bytes.len(),
            Kept::Shared(bytes) => bytes.len(),
        }
    }

    /// Whether there are none.
    pub fn is_empty(&self) -> bool
        ensures { result ≡ (length self.now == 0) }
    {
        self.len() == 0
    }

    /// The bytes from `from` up to `to`, as a list of their own. A long part of a buffer that others may share shares it.
    pub fn part(&self, from: usize, to: usize) -> Result<Octets, NoMemory>
        requires order { from ≤ to }
        requires within { to ≤ length self.now }
        ensures { IfOk result (λ octets. octets ≡ slice_range self.now from to) }
    {
        match &self.kept {
            Kept::Shared(bytes) if to - from > SHORT => {
                Ok(Octets::from_shared(self.alloc, bytes.slice(from..to)?))
            }
            _ => Octets::of(self.alloc, &self.as_slice()[from..to]),
        }
    }
}

/// A copy of many bytes, in a buffer that others may share.
#[inline(never)]
fn shared_copy(alloc: Global, bytes: &[u8]) -> Result<Octets, NoMemory>
    ensures { IfOk result (λ octets. octets ≡ bytes.now) }
{
    let bytes = Bytes::copy_from_slice(alloc, bytes)?;
    Ok(Octets::from_shared(alloc, bytes))
}

/// A buffer with these bytes, and others behind them.
fn grown(alloc: Global, bytes: &[u8], more: &[u8]) -> Result<Vec<u8>, NoMemory>
    ensures { IfOk result (λ grown. grown.items ≡ bytes.now ++ more.now) }
{
    let mut grown = Vec::with_capacity(alloc, bytes.len().saturating_add(more.len()))?;
    grown.extend_from_slice(bytes)?;
    grown.extend_from_slice(more)?;
    Ok(grown)
}

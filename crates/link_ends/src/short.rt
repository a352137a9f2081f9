ghost use Rattle.std.specs.Prelude.{◌≡◌, ◌+◌, ◌++◌, ◌≤◌, [], length, take, drop};

use std::marker::Model;

/// How many bytes can stand in a value itself.
pub(crate) const SHORT: usize = 24;

/// A few bytes, which stand in the value itself: the first `len` of these.
#[derive(Debug, Drop)]
pub(crate) struct Short {
    bytes: [u8; SHORT],
    len: usize,
}

impl Model for Short {
    ghost use Rattle.std.specs.Prelude.{List, ℕ, ◌≤◌, take};
    ghost use Rattle.link_ends.specs.declared.short.TheConstants.{SHORT};

    ghost Value = { List ℕ };

    ghost view = { λ s. take s.len s.bytes };

    ghost invariant = { λ s. s.len ≤ SHORT };
}

impl Short {
    /// No bytes.
    pub(crate) fn new() -> Short
        ensures { result ≡ [] }
    {
        Short {
            bytes: [0; SHORT],
            len: 0,
        }
    }

    /// The first `len` of these bytes. Where there are enough of them, a whole value is copied, whatever `len` is: that is
    /// a few moves and no call.
    pub(crate) fn front_of(bytes: &[u8], len: usize) -> Short
        requires within { len ≤ length bytes.now }
        requires short { len ≤ SHORT }
        ensures { result ≡ take len bytes.now }
    {
        if bytes.len() < SHORT {
            let mut short = Short::new();
            short.push_all(&bytes[..len]);
            return short;
        }
        let mut copy = [0; SHORT];
        copy.copy_from_slice(&bytes[..SHORT]);
        Short { bytes: copy, len }
    }

    /// How many bytes there are.
    pub(crate) fn len(&self) -> usize
        ensures len { result ≡ length self.now }
        ensures bound { result ≤ SHORT }
    {
        self.len
    }

    /// The bytes, oldest first.
    pub(crate) fn as_slice(&self) -> &[u8]
        ensures bytes { result.now ≡ self.now }
        ensures bound { length result.now ≤ SHORT }
    {
        &self.bytes[..self.len]
    }

    /// The value itself: the bytes, and others behind them.
    pub(crate) fn as_array(&self) -> &[u8; SHORT]
        ensures bytes { take (length self.now) result.now ≡ self.now }
        ensures bound { length self.now ≤ SHORT }
    {
        &self.bytes
    }

    /// Appends these bytes.
    pub(crate) fn push_all(&mut self, bytes: &[u8])
        requires { length self.old + length bytes.now ≤ SHORT }
        ensures { self.new ≡ self.old ++ bytes.now }
    {
        let from = self.len;
        self.len += bytes.len();
        self.bytes[from..self.len].copy_from_slice(bytes);
    }

    /// Keeps the first `len` bytes, or all of them where there are no more.
    pub(crate) fn truncate(&mut self, len: usize)
        ensures { self.new ≡ take len self.old }
    {
        self.len = self.len.min(len);
    }

    /// Gives up the first `count` bytes.
    pub(crate) fn advance(&mut self, count: usize)
        requires { count ≤ length self.old }
        ensures { self.new ≡ drop count self.old }
    {
        let mut rest = Short::new();
        rest.push_all(&self.as_slice()[count..]);
        *self = rest;
    }
}

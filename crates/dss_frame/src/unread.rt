ghost use Rattle.std.specs.Prelude.{◌≡◌, ◌++◌, ◌≤◌, [], length, take, drop, OnOk, OnErr};

use link_ends::NoMemory;
use std::alloc::Global;
use std::marker::Model;
use std::mem;

/// The bytes of the DSS that isn't whole.
#[derive(Debug, Drop)]
pub(crate) struct Unread {
    bytes: Vec<u8>,
    /// Where those of the next one are put: the two are used in turns.
    other: Vec<u8>,
}

impl Model for Unread {
    ghost use Rattle.std.specs.Prelude.{List, ℕ};

    ghost Value = { List ℕ };

    ghost view = { λ u. u.bytes.items };
}

impl Unread {
    /// No bytes yet.
    pub(crate) fn new(alloc: Global) -> Unread
        ensures { result ≡ [] }
    {
        Unread {
            bytes: Vec::new(alloc),
            other: Vec::new(alloc),
        }
    }

    /// How many bytes there are.
    pub(crate) fn len(&self) -> usize
        ensures { result ≡ length self.now }
    {
        self.bytes.len()
    }

    /// The bytes, oldest first.
    pub(crate) fn as_slice(&self) -> &[u8]
        ensures { result.now ≡ self.now }
    {
        self.bytes.as_slice()
    }

    /// Appends these bytes.
    pub(crate) fn push_all(&mut self, bytes: &[u8]) -> Result<(), NoMemory>
        ensures ok { OnOk result (self.new ≡ self.old ++ bytes.now) }
        ensures err { OnErr result (self.new ≡ self.old) }
    {
        self.bytes.extend_from_slice(bytes)?;
        Ok(())
    }

    /// Keeps the first `len` bytes, or all of them where there are no more.
    pub(crate) fn truncate(&mut self, len: usize)
        ensures { self.new ≡ take len self.old }
    {
        self.bytes.truncate(len);
    }

    /// Keeps the bytes from `begins` on.
    pub(crate) fn keep_from(&mut self, begins: usize)
        requires { begins ≤ length self.old }
        ensures { self.new ≡ drop begins self.old }
    {
        if begins == 0 {
            return;
        }
        let left = self.bytes.len() - begins;
        self.bytes.copy_within(begins.., 0);
        self.bytes.truncate(left);
    }

    /// These bytes instead.
    pub(crate) fn replace(&mut self, bytes: &[u8]) -> Result<(), NoMemory>
        ensures ok { OnOk result (self.new ≡ bytes.now) }
        ensures err { OnErr result (self.new ≡ self.old) }
    {
        self.other.clear();
        self.other.extend_from_slice(bytes)?;
        mem::swap(&mut self.bytes, &mut self.other);
        Ok(())
    }
}

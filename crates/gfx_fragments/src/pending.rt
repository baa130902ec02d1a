ghost use Rattle.std.specs.Prelude.{◌≡◌, ◌+◌, ◌≤◌, [], ◌++◌, length, take, drop, OnOk, OnErr};

use gfx_base::NoMemory;
use gfx_dvc::PREFIX;
use std::alloc::Global;
use std::marker::Model;

/// Bytes of a recording that weren't used yet. Contracts see them.
#[derive(Debug, Drop)]
pub(crate) struct Pending {
    buffer: Vec<u8>,
    start: usize,
}

impl Model for Pending {
    ghost use Rattle.std.specs.Prelude.{ℕ, List, ◌*◌, ◌≤◌, length, drop};

    ghost Value = { List ℕ };

    ghost view = { λ p. drop p.start p.buffer.items };

    ghost invariant = { λ p. 2 * p.start ≤ length p.buffer.items };
}

impl Pending {
    /// No bytes. It takes no memory.
    pub(crate) fn new(alloc: Global) -> Pending
        ensures { result ≡ [] }
    {
        Pending {
            buffer: Vec::new(alloc),
            start: 0,
        }
    }

    /// Puts the next bytes at the end.
    pub(crate) fn gain(&mut self, piece: &[u8]) -> Result<(), NoMemory>
        ensures ok { OnOk result (self.new ≡ self.old ++ piece.now) }
        ensures err { OnErr result (self.new ≡ self.old) }
    {
        self.buffer.extend_from_slice(piece)?;
        Ok(())
    }

    /// The bytes.
    pub(crate) fn rest(&self) -> &[u8]
        ensures { result.now ≡ self.now }
    {
        &self.buffer[self.start..]
    }

    /// The fragment of this size at the front, behind its length.
    pub(crate) fn fragment(&self, size: usize) -> &[u8]
        requires { PREFIX + size ≤ length self.now }
        ensures { result.now ≡ take size (drop PREFIX self.now) }
    {
        let (_, behind) = self.rest().split_at(PREFIX);
        let (fragment, _) = behind.split_at(size);
        fragment
    }

    /// Lets go of this many bytes. They leave the buffer once they are more than half of it.
    pub(crate) fn pass(&mut self, count: usize)
        requires { count ≤ length self.old }
        ensures { self.new ≡ drop count self.old }
    {
        self.start += count;
        if self.start > self.buffer.len() - self.start {
            let left = self.buffer.len() - self.start;
            self.buffer.copy_within(self.start.., 0);
            self.buffer.truncate(left);
            self.start = 0;
        }
    }
}

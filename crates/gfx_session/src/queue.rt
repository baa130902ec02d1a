//! Bytes in flight.
ghost use Rattle.std.specs.Prelude.{◌≡◌, ◌≤◌, ◌==◌, [], ◌++◌, length, take, drop, OnOk, OnErr};

use gfx_base::{Bytes, NoMemory};
use std::alloc::Global;
use std::marker::Model;

/// Bytes that were sent and not taken yet, in their order. Contracts see the list.
#[derive(Drop)]
pub struct Queue {
    alloc: Global,
    bytes: Bytes,
    at: usize,
}

impl Model for Queue {
    ghost use Rattle.std.specs.Prelude.{ℕ, List, ◌≤◌, length, drop};

    ghost Value = { List ℕ };

    ghost view = { λ q. drop q.at q.bytes };

    ghost invariant = { λ q. q.at ≤ length q.bytes };
}

impl Queue {
    /// No bytes. It takes no memory.
    pub fn new(alloc: Global) -> Queue
        ensures { result ≡ [] }
    {
        Queue {
            alloc,
            bytes: Bytes::new(alloc),
            at: 0,
        }
    }

    pub fn len(&self) -> usize
        ensures { result ≡ length self.now }
    {
        self.bytes.len() - self.at
    }

    pub fn is_empty(&self) -> bool
        ensures { result ≡ (length self.now == 0) }
    {
        self.len() == 0
    }

    /// The bytes at the front, at most so many.
    pub fn front(&self, most: usize) -> &[u8]
        ensures { result.now ≡ take most self.now }
    {
        let rest = self.rest();
        if most < rest.len() {
            let (front, _) = rest.split_at(most);
            front
        } else {
            rest
        }
    }

    /// Lets go of this many bytes at the front, whatever it answers. They leave the buffer once they are
    /// more than half of it, so that a turn of one byte doesn't move the others.
    pub fn pass(&mut self, count: usize) -> Result<(), NoMemory>
        requires { count ≤ length self.old }
        ensures { self.new ≡ drop count self.old }
    {
        let left = self.len() - count;
        self.at = self.bytes.len() - left;
        if self.at > left {
            let mut bytes = Bytes::new(self.alloc);
            bytes.append(self.rest())?;
            self.bytes = bytes;
            self.at = 0;
        }
        Ok(())
    }

    /// Puts bytes behind the others. Where there are none it takes the buffer over.
    pub fn put(&mut self, bytes: Bytes) -> Result<(), NoMemory>
        ensures ok { OnOk result (self.new ≡ self.old ++ bytes) }
        ensures err { OnErr result (self.new ≡ self.old) }
    {
        if self.is_empty() {
            self.bytes = bytes;
            self.at = 0;
            return Ok(());
        }
        self.bytes.append(bytes.as_slice())
    }

    fn rest(&self) -> &[u8]
        ensures { result.now ≡ self.now }
    {
        &self.bytes.as_slice()[self.at..]
    }
}

ghost use Rattle.std.specs.Prelude.{◌≡◌, ℕ, ◌<◌, ◌≤◌, List, Option, Some, length, take, drop, IfOk, OnErr};
ghost use Rattle.gfx_base.specs.Stream.{Gave, Keeps, Rose};
ghost use Rattle.gfx_base.specs.Memory.{reading_of, read_count, read_answer, read_after};

use crate::answer::Failed;
use std::marker::Model;

/// Where input comes from. What a failed read leaves is told by the clauses, never by the content.
pub trait Source {
    /// The bytes left, where the object tells them.
    ghost left: { Self → Option (List ℕ) };

    /// How many reads have failed, up to the last value.
    ghost faults: { Self → ℕ };

    /// Puts the next bytes into the front of `buf`, and says how many. 0 means that none is left.
    fn read(&mut self, buf: &mut [u8]) -> Result<usize, Failed>
        requires { 0 < length buf.old }
        ensures within { IfOk result (λ n. n ≤ length buf.old) }
        ensures given { IfOk result (λ n. Gave (left self.old) (take n buf.new) (left self.new)) }
        ensures count { IfOk result (λ _. faults self.new ≡ faults self.old) }
        ensures failed { OnErr result (Rose (faults self.old) (faults self.new)) }
        ensures kept { OnErr result (Keeps (left self.old) (left self.new)) }
        ensures never_falls { faults self.old ≤ faults self.new };
}

/// A source over memory, some of whose reads fail.
#[derive(Debug, Drop)]
pub struct SliceSource<'a> {
    bytes: &'a [u8],
    fails: &'a [u64],
    calls: u64,
    faults: u64,
}

impl<'a> Model for SliceSource<'a> {
    ghost use Rattle.gfx_base.specs.Memory.{Reading};

    ghost Value = { Reading };

    ghost view = { λ s. record { left = s.bytes.now; fails = s.fails.now; calls = s.calls; faults = s.faults } };
}

impl<'a> SliceSource<'a> {
    /// A source of these bytes. The reads whose numbers, counted from 1, are in `fails` will fail.
    pub fn new(bytes: &'a [u8], fails: &'a [u64]) -> SliceSource<'a>
        ensures { result ≡ reading_of bytes.now fails.now }
    {
        SliceSource {
            bytes,
            fails,
            calls: 0,
            faults: 0,
        }
    }

    /// The bytes that are left.
    pub fn left(&self) -> &[u8]
        ensures { result.now ≡ self.now.left }
    {
        self.bytes
    }
}

impl<'a> Source for SliceSource<'a> {
    ghost left = { λ s. Some s.left };

    ghost faults = { λ s. s.faults };

    /// Fails exactly where its number is listed; else gives as many bytes as there are and fit.
    fn read(&mut self, buf: &mut [u8]) -> Result<usize, Failed>
        requires { 0 < length buf.old }
        ensures within { IfOk result (λ n. n ≤ length buf.old) }
        ensures given { IfOk result (λ n. Gave (Some self.old.left) (take n buf.new) (Some self.new.left)) }
        ensures count { IfOk result (λ _. self.new.faults ≡ self.old.faults) }
        ensures failed { OnErr result (Rose self.old.faults self.new.faults) }
        ensures kept { OnErr result (Keeps (Some self.old.left) (Some self.new.left)) }
        ensures never_falls { self.old.faults ≤ self.new.faults }

        ensures fails { result ≡ read_answer self.old (length buf.old) }
        ensures after { self.new ≡ read_after self.old (length buf.old) }
        ensures rest_of_buffer { drop (read_count self.old (length buf.old)) buf.new
            ≡ drop (read_count self.old (length buf.old)) buf.old }
    {
        self.calls = self.calls.saturating_add(1);
        if self.fails.contains(&self.calls) {
            self.faults = self.faults.saturating_add(1);
            return Err(Failed);
        }
        let count = buf.len().min(self.bytes.len());
        let (front, rest) = self.bytes.split_at(count);
        buf[..count].copy_from_slice(front);
        self.bytes = rest;
        Ok(count)
    }
}

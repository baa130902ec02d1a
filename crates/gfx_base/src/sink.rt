ghost use Rattle.std.specs.Prelude.{◌≡◌, ℕ, ◌<◌, ◌≤◌, List, Option, Some, length, take, IfOk, OnErr};
ghost use Rattle.gfx_base.specs.Stream.{Gained, Keeps, Rose, Writes, change};
ghost use Rattle.gfx_base.specs.Memory.{writing_of, write_answer, write_after};

use crate::answer::{Failed, NoMemory};
use std::alloc::Global;
use std::marker::Model;

/// Where output goes.
pub trait Sink {
    /// The bytes held, where the object tells them.
    ghost held: { Self → Option (List ℕ) };

    /// How many writes have failed, up to the last value.
    ghost faults: { Self → ℕ };

    /// Takes bytes from the front of `piece`, at least one, and says how many.
    fn write(&mut self, piece: &[u8]) -> Result<usize, Failed>
        requires { 0 < length piece.now }
        ensures within { IfOk result (λ n. (0 < n) × (n ≤ length piece.now)) }
        ensures gained { IfOk result (λ n. Gained (held self.old) (take n piece.now) (held self.new)) }
        ensures count { IfOk result (λ _. faults self.new ≡ faults self.old) }
        ensures failed { OnErr result (Rose (faults self.old) (faults self.new)) }
        ensures kept { OnErr result (Keeps (held self.old) (held self.new)) }
        ensures never_falls { faults self.old ≤ faults self.new };
}

/// Writes all of these bytes, in as many pieces as the sink takes, until a write fails.
pub fn write_all<O: Sink>(out: &mut O, bytes: &[u8]) -> Result<(), Failed>
    ensures { Writes result
        (change (O.faults out.old) (O.faults out.new) (O.held out.old) (O.held out.new)) bytes.now }
{
    let mut rest = bytes;
    'pieces: while !rest.is_empty() {
        let taken = out.write(rest)?;
        let (_, after) = rest.split_at(taken);
        rest = after;
    }
    Ok(())
}

/// A sink over memory with a fixed room, some of whose writes fail.
#[derive(Debug, Drop)]
pub struct VecSink<'a> {
    bytes: Vec<u8>,
    room: usize,
    fails: &'a [u64],
    calls: u64,
    faults: u64,
}

impl<'a> Model for VecSink<'a> {
    ghost use Rattle.std.specs.Prelude.{◌≤◌, vec_len, vec_capacity};
    ghost use Rattle.gfx_base.specs.Memory.{Writing};

    ghost Value = { Writing };

    ghost view = { λ s. record { held = s.bytes.items; room = s.room; fails = s.fails.now; calls = s.calls; faults = s.faults } };

    ghost invariant = { λ s. (vec_len s.bytes ≤ s.room) × (s.room ≤ vec_capacity s.bytes) };
}

impl<'a> VecSink<'a> {
    /// An empty sink that takes its room now. The writes whose numbers, counted from 1, are in `fails` will fail.
    pub fn new(alloc: Global, room: usize, fails: &'a [u64]) -> Result<VecSink<'a>, NoMemory>
        ensures { IfOk result (λ sink. sink ≡ writing_of room fails.now) }
    {
        Ok(VecSink {
            bytes: Vec::with_capacity(alloc, room)?,
            room,
            fails,
            calls: 0,
            faults: 0,
        })
    }

    /// The bytes that it holds.
    pub fn held(&self) -> &[u8]
        ensures { result.now ≡ self.now.held }
    {
        &self.bytes
    }
}

impl<'a> Sink for VecSink<'a> {
    ghost held = { λ s. Some s.held };

    ghost faults = { λ s. s.faults };

    /// Fails exactly where its number is listed or no room is left; else takes as many bytes as there
    /// are and fit.
    fn write(&mut self, piece: &[u8]) -> Result<usize, Failed>
        requires { 0 < length piece.now }
        ensures within { IfOk result (λ n. (0 < n) × (n ≤ length piece.now)) }
        ensures gained { IfOk result (λ n. Gained (Some self.old.held) (take n piece.now) (Some self.new.held)) }
        ensures count { IfOk result (λ _. self.new.faults ≡ self.old.faults) }
        ensures failed { OnErr result (Rose self.old.faults self.new.faults) }
        ensures kept { OnErr result (Keeps (Some self.old.held) (Some self.new.held)) }
        ensures never_falls { self.old.faults ≤ self.new.faults }

        ensures fails { result ≡ write_answer self.old piece.now }
        ensures after { self.new ≡ write_after self.old piece.now }
    {
        self.calls = self.calls.saturating_add(1);
        if self.fails.contains(&self.calls) || self.bytes.len() == self.room {
            self.faults = self.faults.saturating_add(1);
            return Err(Failed);
        }
        let count = piece.len().min(self.room - self.bytes.len());
        let (front, _) = piece.split_at(count);
        self.bytes.extend_from_slice(front).unwrap();
        Ok(count)
    }
}

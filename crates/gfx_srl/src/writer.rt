ghost use Rattle.std.specs.Prelude.{◌≡◌, ◌≢◌, ◌≤◌, ◌<◌, ◌==◌, ◌^◌, ◌+◌, ◌-◌, ◌++◌, ◌∷◌, [], ℕ, List, pos, true, false, OnOk, OnErr, IfOk, if◌then◌else◌};
ghost use Rattle.std.specs.Int.RustNames.{unsigned_abs};
ghost use Rattle.gfx_bits.specs.Bits.{digits, zeros_code};
ghost use Rattle.gfx_srl.specs.Code.{Pair, k, is_negative};
ghost use Rattle.gfx_srl.specs.Srl.{Written};
ghost use Rattle.gfx_srl.specs.Steps.{HasWritten, Writes};

use crate::params::{PARAMETER_START, after_run, after_value, width_of};
use gfx_base::{Bytes, NoMemory};
use gfx_bits::{BitWriter, NoBits};
use std::alloc::Global;
use std::marker::Model;

/// Writes SRL: value after value, each at a width.
#[derive(Drop)]
pub struct SrlWriter {
    bits: BitWriter,
    kp: u32,
    zeros: u32,
}

impl Model for SrlWriter {
    ghost use Rattle.std.specs.Prelude.{◌≤◌, ◌<◌, ◌^◌};
    ghost use Rattle.gfx_srl.specs.Code.{k};
    ghost use Rattle.gfx_srl.specs.Steps.{Writer};

    ghost Value = { Writer };

    ghost view = { λ writer. record { bits = writer.bits; kp = writer.kp; zeros = writer.zeros } };

    ghost invariant = { λ writer. (writer.kp ≤ 80) × (writer.zeros < 2 ^ k writer.kp) };
}

impl SrlWriter {
    /// Nothing written. It takes no memory.
    pub fn new(alloc: Global) -> Self
        ensures { HasWritten [] result }
    {
        SrlWriter {
            bits: BitWriter::new(alloc),
            kp: PARAMETER_START,
            zeros: 0,
        }
    }

    /// Writes a value whose magnitude has at most `n` bits. An `Err` changes nothing.
    #[inline(always)]
    pub fn push(&mut self, value: i32, n: u8) -> Result<(), NoMemory>
        requires some { 1 ≤ n }
        requires few { n ≤ 24 }
        requires small { unsigned_abs value < 2 ^ n }
        ensures ok { OnOk result (Writes n value self.old self.new) }
        ensures err { OnErr result (self.new ≡ self.old) }
    {
        let written = if value == 0 {
            self.push_zero()
        } else {
            self.push_value(value, n)
        };
        match written {
            Ok(()) => Ok(()),
            Err(_) => Err(NoMemory),
        }
    }

    /// What was written, as bytes. A run covers zeros at the end, and zero bits fill the last byte.
    pub fn finish(self) -> Result<Bytes, NoMemory>
        // These bytes and no others.
        ensures { IfOk result (λ bytes. (pairs : List Pair) → HasWritten pairs self → Written pairs bytes) }
    {
        match self.close() {
            Ok(bytes) => Ok(Bytes::from_vec(bytes)),
            Err(_) => Err(NoMemory),
        }
    }

    // Writes a zero: it waits until zeros fill a run.
    #[inline(always)]
    fn push_zero(&mut self) -> Result<(), NoBits>
        ensures ok { OnOk result ((n : ℕ) → Writes n (pos 0) self.old self.new) }
        ensures err { OnErr result (self.new ≡ self.old) }
    {
        let zeros = self.zeros + 1;
        if zeros < 1 << width_of(self.kp) {
            self.zeros = zeros;
            return Ok(());
        }
        self.bits.push(0, 1)?;
        self.zeros = 0;
        self.kp = after_run(self.kp);
        Ok(())
    }

    // Writes the zeros that wait, and a value that ends them.
    #[inline(always)]
    fn push_value(&mut self, value: i32, n: u8) -> Result<(), NoBits>
        requires some { 1 ≤ n }
        requires few { n ≤ 24 }
        requires value { value ≢ pos 0 }
        requires small { unsigned_abs value < 2 ^ n }
        ensures ok { OnOk result (Writes n value self.old self.new) }
        ensures err { OnErr result (self.new ≡ self.old) }
    {
        let width = width_of(self.kp);
        push_last_run(&mut self.bits, self.zeros, width, value, n)?;
        self.zeros = 0;
        self.kp = after_value(self.kp);
        Ok(())
    }

    // The last run, and the bits as bytes.
    fn close(self) -> Result<Vec<u8>, NoBits>
        ensures { IfOk result (λ bytes. (pairs : List Pair) → HasWritten pairs self → Written pairs bytes.items) }
    {
        let SrlWriter {
            mut bits,
            zeros,
            ..
        } = self;
        push_rest(&mut bits, zeros)?;
        bits.finish()
    }
}

// Writes a run for zeros that wait, if there are any.
fn push_rest(bits: &mut BitWriter, zeros: u32) -> Result<(), NoBits>
    ensures { OnOk result (bits.new ≡ bits.old ++ (if zeros == 0 then [] else false ∷ [])) }
{
    if zeros > 0 {
        bits.push(0, 1)?;
    }
    Ok(())
}

// Whether a value is below 0.
#[inline(always)]
fn is_negative(value: i32) -> bool
    ensures { result ≡ is_negative value }
{
    value < 0
}

// A sign as a bit.
#[inline(always)]
fn sign_bit(negative: bool) -> u32
    ensures { result ≡ (if negative then 1 else 0) }
{
    if negative { 1 } else { 0 }
}

// Writes zeros that a value ends, all of its bits or none: a one, the zeros, the sign, and the magnitude by how many
// are below it.
#[inline(always)]
fn push_last_run(
    bits: &mut BitWriter,
    zeros: u32,
    width: u8,
    value: i32,
    n: u8,
) -> Result<(), NoBits>
    requires width { width ≤ 10 }
    requires zeros { zeros < 2 ^ width }
    requires some { 1 ≤ n }
    requires few { n ≤ 24 }
    requires value { value ≢ pos 0 }
    requires small { unsigned_abs value < 2 ^ n }
    ensures ok { OnOk result (bits.new ≡ bits.old ++ (true ∷ (digits width zeros ++ (is_negative value ∷ zeros_code (2 ^ n - 2) (unsigned_abs value - 1))))) }
    ensures err { OnErr result (bits.new ≡ bits.old) }
{
    let sign = sign_bit(is_negative(value));
    let head = (1 << (width + 1)) + 2 * zeros + sign;
    bits.push_counted(head, width + 2, value.unsigned_abs() - 1, (1 << n) - 2)
}

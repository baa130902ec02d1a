ghost use Rattle.std.specs.Prelude.{◌≡◌, ◌+◌, ◌*◌, ◌^◌, ◌%◌, ◌<◌, ◌≤◌, ◌++◌, [], ℕ, List, length, replicate, true, false, IfOk, OnOk, OnErr};
ghost use Rattle.gfx_bits.specs.Bits.{bits_of, digits, zeros_code, IsPadded, GainsSome};

use std::alloc::{AllocError, Global};
use std::marker::Model;

/// How many bits go to memory at once.
const WORD: u32 = 32;

/// Memory for the bits is wanting.
#[derive(Clone, Copy, Debug, Drop, PartialEq, Eq)]
pub struct NoBits;

impl From<AllocError> for NoBits {
    fn from(_error: AllocError) -> Self {
        NoBits
    }
}

/// Bits written into bytes, the most significant first.
///
/// A clause sees the list of the bits written.
#[derive(Drop)]
pub struct BitWriter {
    bytes: Vec<u8>,
    pending: u64,
    count: u32,
}

impl Model for BitWriter {
    ghost use Rattle.std.specs.Prelude.{List, Bool, length, ◌≡◌, ◌≤◌, ◌<◌, ◌%◌, ◌^◌, ◌++◌};

    ghost Value = { List Bool };

    ghost use Rattle.gfx_bits.specs.Bits.{bits_of, digits};

    ghost view = { λ writer. bits_of writer.bytes.items ++ digits writer.count writer.pending };

    ghost invariant = { λ writer. (writer.count < 32) × (writer.pending < 2 ^ writer.count) × (length writer.bytes.items % 4 ≡ 0) };
}

impl BitWriter {
    /// No bits.
    pub fn new(alloc: Global) -> Self
        ensures { result ≡ [] }
    {
        BitWriter {
            bytes: Vec::new(alloc),
            pending: 0,
            count: 0,
        }
    }

    /// Writes a number below 2 ^ n as `n` bits. An `Err` changes nothing.
    pub fn push(&mut self, value: u32, n: u8) -> Result<(), NoBits>
        requires width { n ≤ 32 }
        requires below { value < 2 ^ n }
        ensures ok { OnOk result (self.new ≡ self.old ++ digits n value) }
        ensures err { OnErr result (self.new ≡ self.old) }
    {
        let pending = (self.pending << n) | value as u64;
        let count = self.count + n as u32;
        if count < WORD {
            self.pending = pending;
            self.count = count;
            return Ok(());
        }
        let rest = count - WORD;
        let word = (pending >> rest) as u32;
        self.bytes.extend_from_slice(&word.to_be_bytes())?;
        self.pending = pending & ((1 << rest) - 1);
        self.count = rest;
        Ok(())
    }

    /// Writes that many ones. An `Err` changes nothing.
    pub fn push_ones(&mut self, count: u32) -> Result<(), NoBits>
        ensures ok { OnOk result (self.new ≡ self.old ++ replicate count true) }
        ensures err { OnErr result (self.new ≡ self.old) }
    {
        let (whole, pending, held) = (self.bytes.len(), self.pending, self.count);
        let written = self.write_ones(count);
        self.settle(whole, pending, held, written)
    }

    /// Writes that many zeros. An `Err` changes nothing.
    pub fn push_zeros(&mut self, count: u32) -> Result<(), NoBits>
        ensures ok { OnOk result (self.new ≡ self.old ++ replicate count false) }
        ensures err { OnErr result (self.new ≡ self.old) }
    {
        let (whole, pending, held) = (self.bytes.len(), self.pending, self.count);
        let written = self.write_zeros(count);
        self.settle(whole, pending, held, written)
    }

    /// Writes a number below 2 ^ n as `n` bits, and behind it a count in unary: a zero for each, and a one, which
    /// the largest count, `most`, goes without. An `Err` changes nothing, so all of these bits are written or none.
    pub fn push_counted(&mut self, value: u32, n: u8, count: u32, most: u32) -> Result<(), NoBits>
        requires width { n ≤ 32 }
        requires below { value < 2 ^ n }
        requires within { count ≤ most }
        ensures ok { OnOk result (self.new ≡ self.old ++ (digits n value ++ zeros_code most count)) }
        ensures err { OnErr result (self.new ≡ self.old) }
    {
        let (whole, pending, held) = (self.bytes.len(), self.pending, self.count);
        let written = self.write_counted(value, n, count, most);
        self.settle(whole, pending, held, written)
    }

    // Ones, of which an error leaves some.
    fn write_ones(&mut self, count: u32) -> Result<(), NoBits>
        ensures ok { OnOk result (self.new ≡ self.old ++ replicate count true) }
        ensures err { OnErr result (GainsSome self.old self.new) }
    {
        let mut left = count;
        'words: while left >= WORD {
            self.push(u32::MAX, 32)?;
            left -= WORD;
        }
        self.push((1 << left) - 1, left as u8)
    }

    // Zeros, of which an error leaves some.
    fn write_zeros(&mut self, count: u32) -> Result<(), NoBits>
        ensures ok { OnOk result (self.new ≡ self.old ++ replicate count false) }
        ensures err { OnErr result (GainsSome self.old self.new) }
    {
        let mut left = count;
        'words: while left >= WORD {
            self.push(0, 32)?;
            left -= WORD;
        }
        self.push(0, left as u8)
    }

    // A number and a count behind it, of whose bits an error leaves some.
    #[inline(always)]
    fn write_counted(&mut self, value: u32, n: u8, count: u32, most: u32) -> Result<(), NoBits>
        requires width { n ≤ 32 }
        requires below { value < 2 ^ n }
        requires within { count ≤ most }
        ensures ok { OnOk result (self.new ≡ self.old ++ (digits n value ++ zeros_code most count)) }
        ensures err { OnErr result (GainsSome self.old self.new) }
    {
        self.push(value, n)?;
        self.write_zeros(count)?;
        if count < most {
            return self.push(1, 1);
        }
        Ok(())
    }

    // Takes back what was written since the writer held these whole bytes and these bits behind them, if it is an error.
    #[inline(always)]
    fn settle(
        &mut self,
        whole: usize,
        pending: u64,
        held: u32,
        written: Result<(), NoBits>,
    ) -> Result<(), NoBits>
        requires held { held < 32 }
        requires pending { pending < 2 ^ held }
        requires whole { whole % 4 ≡ 0 }
        ensures result { result ≡ written }
        ensures ok { OnOk written (self.new ≡ self.old) }
        ensures err { OnErr written ((bytes : List ℕ) → length bytes ≡ whole → GainsSome (bits_of bytes ++ digits held pending) self.old → self.new ≡ bits_of bytes ++ digits held pending) }
    {
        if written.is_err() {
            self.bytes.truncate(whole);
            self.pending = pending;
            self.count = held;
        }
        written
    }

    /// The bits as bytes. The last byte is filled up with zeros.
    pub fn finish(self) -> Result<Vec<u8>, NoBits>
        ensures { IfOk result (λ bytes. IsPadded self bytes.items) }
    {
        let BitWriter {
            mut bytes,
            pending,
            count,
        } = self;
        let word = (pending << (WORD - count)) as u32;
        let whole = ((count + 7) / 8) as usize;
        bytes.extend_from_slice(&word.to_be_bytes()[..whole])?;
        Ok(bytes)
    }
}

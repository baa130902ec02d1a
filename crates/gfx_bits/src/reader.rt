ghost use Rattle.std.specs.Prelude.{◌≡◌, ◌+◌, ◌-◌, ◌*◌, ◌/◌, ◌%◌, ◌^◌, ◌<◌, ◌≤◌, ℕ, List, [], Bool, true, false, drop, suc, min, replicate, length};
ghost use Rattle.gfx_bits.specs.Bits.{number, ones, bits_of, first, Spelled, zeros_code};
ghost use Rattle.gfx_bits.specs.Ahead.{bits_ahead, IsAhead, Shows};

use crate::word::number_in;
use std::marker::Model;

/// How many bits are ahead at least, once more are fetched, where there are that many.
const WINDOW: u32 = 57;

/// How many bytes are fetched at once, where there are that many.
const WORD: usize = 8;

/// Bits read from bytes, the most significant first. Past the end they are zero.
///
/// A clause sees the list of the bits that are left.
#[derive(Drop)]
pub struct BitReader<'a> {
    /// The next bits, from the top. Below the first `count` of them all are zero.
    ahead: u64,
    count: u32,
    /// The bytes behind those bits.
    rest: &'a [u8],
}

impl<'a> Model for BitReader<'a> {
    ghost use Rattle.std.specs.Prelude.{List, Bool};

    ghost Value = { List Bool };

    ghost use Rattle.gfx_bits.specs.Ahead.{bits_ahead, IsAhead};

    ghost view = { λ reader. bits_ahead reader.ahead reader.count reader.rest.now };

    ghost invariant = { λ reader. IsAhead reader.ahead reader.count };
}

impl<'a> BitReader<'a> {
    /// All the bits of the bytes.
    pub fn new(bytes: &'a [u8]) -> Self
        ensures { result ≡ bits_of bytes.now }
    {
        BitReader {
            ahead: 0,
            count: 0,
            rest: bytes,
        }
    }

    /// Another reader of the same bits.
    #[inline(always)]
    pub fn copy(&self) -> Self
        ensures { result ≡ self.now }
    {
        BitReader {
            ahead: self.ahead,
            count: self.count,
            rest: self.rest,
        }
    }

    /// Reads the next `n` bits as a number.
    #[inline(always)]
    pub fn read(&mut self, n: u8) -> u32
        requires { n ≤ 32 }
        ensures value { result ≡ number n self.old }
        ensures rest { self.new ≡ drop n self.old }
    {
        let word = self.peek(n as u32);
        self.pass(n as u32);
        number_in(word, 0, n as u32)
    }

    /// Counts the ones before the next zero, and goes past them and the zero. A count from
    /// `u32::MAX` on is answered as `u32::MAX`.
    #[inline(always)]
    pub fn read_ones(&mut self) -> u32
        ensures count { result ≡ min (ones self.old) u32.MAX }
        ensures rest { self.new ≡ drop (suc (ones self.old)) self.old }
    {
        let mut count = 0u32;
        'windows: loop {
            let ahead = ones_of(self.peek(WINDOW));
            if ahead < WINDOW {
                self.pass(ahead + 1);
                return count.saturating_add(ahead);
            }
            self.pass(WINDOW);
            count = count.saturating_add(WINDOW);
        }
    }

    /// Reads the ones before the next zero, as `read_ones` does, and behind the zero the next
    /// `n` bits as a number. Mostly what is ahead holds them all.
    #[inline(always)]
    pub fn read_ones_then(&mut self, n: u8) -> (u32, u32)
        requires { n ≤ 32 }
        ensures count { result.0 ≡ min (ones self.old) u32.MAX }
        ensures value { result.1 ≡ number n (drop (suc (ones self.old)) self.old) }
        ensures rest { self.new ≡ drop n (drop (suc (ones self.old)) self.old) }
    {
        let ones = self.ahead.leading_ones();
        let taken = ones + 1 + n as u32;
        if taken <= self.count {
            let behind = self.ahead << ones;
            self.ahead = behind << (1 + n as u32);
            self.count -= taken;
            let value = behind >> (63 - n as u32);
            return (ones, value as u32);
        }
        self.fetch_ones_then(n)
    }

    /// Counts the zeros before the next one, at most that many, and goes past them, and past the
    /// one where there are fewer.
    #[inline(always)]
    pub fn read_zeros(&mut self, most: u32) -> u32
        ensures most { result ≤ most }
        ensures spelled { Spelled self.old (zeros_code most result) self.new }
    {
        let zeros = self.ahead.leading_zeros();
        let room = self.count.min(most);
        if zeros < room {
            self.ahead = (self.ahead << zeros) << 1;
            self.count -= zeros + 1;
            return zeros;
        }
        if most < self.count {
            self.ahead = self.ahead << most;
            self.count -= most;
            return most;
        }
        self.fetch_zeros(most)
    }

    /// The next `n` bits at the top of a word. Nothing is said of what is below them.
    #[inline(always)]
    pub fn peek(&mut self, n: u32) -> u64
        requires { n ≤ 57 }
        ensures shows { Shows n result self.old }
        ensures same { self.new ≡ self.old }
    {
        if self.count >= n {
            return self.ahead;
        }
        if self.rest.len() < WORD {
            let (ahead, count, rest) = last_bits(self.ahead, self.count, self.rest);
            self.ahead = ahead;
            self.count = count;
            self.rest = rest;
            return ahead;
        }
        let word = first_word(self.rest);
        let room = 64 - self.count;
        let bytes = room / 8;
        let next = word >> (64 - 8 * bytes);
        self.ahead = self.ahead | (next << (room - 8 * bytes));
        self.count += 8 * bytes;
        self.rest = &self.rest[bytes as usize..];
        self.ahead
    }

    /// Goes past the next `n` bits. Mostly they are ahead, as behind `peek`.
    #[inline(always)]
    pub fn pass(&mut self, n: u32)
        requires { n ≤ 57 }
        ensures { self.new ≡ drop n self.old }
    {
        if n <= self.count {
            self.ahead = self.ahead << n;
            self.count -= n;
            return;
        }
        *self = last_behind(self.ahead, self.count, self.rest, n);
    }

    // What `read_ones_then` says, behind a fetch.
    #[inline(always)]
    fn fetch_ones_then(&mut self, n: u8) -> (u32, u32)
        requires { n ≤ 32 }
        ensures count { result.0 ≡ min (ones self.old) u32.MAX }
        ensures value { result.1 ≡ number n (drop (suc (ones self.old)) self.old) }
        ensures rest { self.new ≡ drop n (drop (suc (ones self.old)) self.old) }
    {
        let word = self.peek(WINDOW);
        let ones = ones_of(word);
        let taken = ones + 1 + n as u32;
        if taken <= WINDOW {
            self.pass(taken);
            return (ones, number_in(word, ones + 1, n as u32));
        }
        let (ones, value, reader) = ones_then_number(self.ahead, self.count, self.rest, n);
        *self = reader;
        (ones, value)
    }

    // What `read_zeros` says, behind a fetch.
    #[inline(always)]
    fn fetch_zeros(&mut self, most: u32) -> u32
        ensures most { result ≤ most }
        ensures spelled { Spelled self.old (zeros_code most result) self.new }
    {
        let zeros = zeros_of(self.peek(WINDOW));
        if zeros < WINDOW.min(most) {
            self.pass(zeros + 1);
            return zeros;
        }
        if most <= WINDOW {
            self.pass(most);
            return most;
        }
        let (zeros, reader) = many_zeros(self.ahead, self.count, self.rest, most);
        *self = reader;
        zeros
    }
}

// The first eight bytes as a number.
#[inline(always)]
fn first_word(bytes: &[u8]) -> u64
    requires { WORD ≤ length bytes.now }
    ensures { result ≡ number 64 (bits_of bytes.now) }
{
    let [a, b, c, d, e, f, g, h, ..] = bytes else {
        unreachable!();
    };
    u64::from_be_bytes([*a, *b, *c, *d, *e, *f, *g, *h])
}

// What `filled_by_bytes` gives, in parts. Inlined: so the memory that the call writes is blanked in this arm alone.
#[inline(always)]
fn last_bits<'a>(ahead: u64, count: u32, rest: &'a [u8]) -> (u64, u32, &'a [u8])
    requires room { count ≤ 56 }
    requires ahead { IsAhead ahead count }
    ensures same { bits_ahead result.0 result.1 result.2.now ≡ bits_ahead ahead count rest.now }
    ensures ahead { IsAhead result.0 result.1 }
    ensures enough { result.1 < 57 → result.2.now ≡ [] }
{
    let (ahead, count, rest) = filled_by_bytes(ahead, count, rest);
    (ahead, count, rest)
}

// What `behind` gives, in parts, for the same reason.
#[inline(always)]
fn last_behind<'a>(ahead: u64, count: u32, rest: &'a [u8], n: u32) -> BitReader<'a>
    requires few { n ≤ 57 }
    requires over { count < n }
    requires ahead { IsAhead ahead count }
    ensures { result ≡ drop n (bits_ahead ahead count rest.now) }
{
    let BitReader { ahead, count, rest } = behind(ahead, count, rest, n);
    BitReader { ahead, count, rest }
}

// Fetches bytes behind fewer than 57 bits: then there are as many, or all that are left.
#[cold]
#[inline(never)]
fn filled_by_bytes<'a>(mut ahead: u64, mut count: u32, mut rest: &'a [u8]) -> (u64, u32, &'a [u8])
    requires room { count ≤ 56 }
    requires ahead { IsAhead ahead count }
    ensures same { bits_ahead result.0 result.1 result.2.now ≡ bits_ahead ahead count rest.now }
    ensures ahead { IsAhead result.0 result.1 }
    ensures enough { result.1 < 57 → result.2.now ≡ [] }
{
    'bytes: while count < WINDOW && rest.len() > 0 {
        ahead = ahead | (u64::from(rest[0]) << (56 - count));
        count += 8;
        rest = &rest[1..];
    }
    (ahead, count, rest)
}

// What `read_ones_then` says, where 57 bits do not hold it all, or fewer are left.
#[cold]
#[inline(never)]
fn ones_then_number<'a>(ahead: u64, count: u32, rest: &'a [u8], n: u8) -> (u32, u32, BitReader<'a>)
    requires width { n ≤ 32 }
    requires ahead { IsAhead ahead count }
    ensures count { result.0 ≡ min (ones (bits_ahead ahead count rest.now)) u32.MAX }
    ensures value { result.1 ≡ number n (drop (suc (ones (bits_ahead ahead count rest.now))) (bits_ahead ahead count rest.now)) }
    ensures rest { result.2 ≡ drop n (drop (suc (ones (bits_ahead ahead count rest.now))) (bits_ahead ahead count rest.now)) }
{
    let mut reader = BitReader { ahead, count, rest };
    let found = reader.read_ones();
    let value = reader.read(n);
    (found, value, reader)
}

// What `read_zeros` says, where 57 bits do not hold them all, or fewer are left.
#[cold]
#[inline(never)]
fn many_zeros<'a>(ahead: u64, count: u32, rest: &'a [u8], most: u32) -> (u32, BitReader<'a>)
    requires { IsAhead ahead count }
    ensures most { result.0 ≤ most }
    ensures spelled { Spelled (bits_ahead ahead count rest.now) (zeros_code most result.0) result.1 }
{
    let mut reader = BitReader { ahead, count, rest };
    let mut found = 0u32;
    'windows: while found < most {
        let room = WINDOW.min(most - found);
        let zeros = zeros_of(reader.peek(WINDOW));
        if zeros < room {
            reader.pass(zeros + 1);
            return (found + zeros, reader);
        }
        reader.pass(room);
        found += room;
    }
    (found, reader)
}

// What is behind the next n bits, where fewer are ahead.
#[cold]
#[inline(never)]
fn behind<'a>(ahead: u64, count: u32, rest: &'a [u8], n: u32) -> BitReader<'a>
    requires few { n ≤ 57 }
    requires over { count < n }
    requires ahead { IsAhead ahead count }
    ensures { result ≡ drop n (bits_ahead ahead count rest.now) }
{
    let (ahead, count, rest) = filled_by_bytes(ahead, count, rest);
    BitReader {
        ahead: ahead << n,
        count: count.saturating_sub(n),
        rest,
    }
}

// How many ones the 57 bits at the top of a word begin with.
#[inline(always)]
fn ones_of(word: u64) -> u32
    ensures { (bits : List Bool) → Shows 57 word bits → result ≡ min 57 (ones bits) }
{
    ((word >> 7) << 7).leading_ones()
}

// How many zeros the 57 bits at the top of a word begin with.
#[inline(always)]
fn zeros_of(word: u64) -> u32
    ensures within { result ≤ 57 }
    ensures zeros { (bits : List Bool) → Shows 57 word bits → (n : ℕ) → n ≤ result → Spelled bits (replicate n false) (drop n bits) }
    ensures ends { (bits : List Bool) → Shows 57 word bits → result < 57 → first (drop result bits) ≡ true }
{
    word.leading_zeros().min(WINDOW)
}

ghost use Rattle.std.specs.Prelude.{◌≡◌, ℕ, ◌≤◌, ◌<◌, ◌+◌, ◌-◌, ◌^◌, [], ◌∷◌, ◌++◌, drop, replicate, min, IsTrue, true, false, suc, pos, negsuc, MatchBool, if◌then◌else◌};
ghost use Rattle.std.specs.Int.RustNames.{unsigned_abs};
ghost use Rattle.gfx_bits.specs.Ahead.{Shows};
ghost use Rattle.gfx_bits.specs.Bits.{bits_of, number};
ghost use Rattle.gfx_srl.specs.Code.{k};
ghost use Rattle.gfx_srl.specs.Steps.{BeginsToken, ComesToValue, HasRead, ReadsMany, ReadsNext, ReadsZero};

use crate::params::{PARAMETER_MAX, PARAMETER_START, after_run, after_value, width_of};
use crate::value::{MOST_AHEAD, most_zeros, signed, value_in};
use gfx_bits::{BitReader, number_in, word_behind};
use std::marker::Model;

/// Reads SRL: value after value, each at a width that the caller knows. Past the end bits are zero.
/// It takes no memory.
#[derive(Drop)]
pub struct SrlReader<'a> {
    bits: BitReader<'a>,
    kp: u32,
    zeros: u32,
    ends: bool,
}

impl<'a> Model for SrlReader<'a> {
    ghost use Rattle.std.specs.Prelude.{◌≤◌};
    ghost use Rattle.gfx_srl.specs.Steps.{Reader};

    ghost Value = { Reader };

    ghost view = { λ reader. record { bits = reader.bits; kp = reader.kp; zeros = reader.zeros; ends = reader.ends } };

    ghost invariant = { λ reader. reader.kp ≤ 80 };
}

impl<'a> SrlReader<'a> {
    /// Begins to read these bytes.
    pub fn new(bytes: &'a [u8]) -> Self
        ensures { HasRead (bits_of bytes.now) [] result }
    {
        SrlReader {
            bits: BitReader::new(bytes),
            kp: PARAMETER_START,
            zeros: 0,
            ends: false,
        }
    }

    /// Another reader of the same values.
    #[inline(always)]
    pub fn copy(&self) -> Self
        ensures { result ≡ self.now }
    {
        SrlReader {
            bits: self.bits.copy(),
            kp: self.kp,
            zeros: self.zeros,
            ends: self.ends,
        }
    }

    /// The next value, whose magnitude has at most `n` bits.
    #[inline(always)]
    pub fn read(&mut self, n: u8) -> i32
        requires some { 1 ≤ n }
        requires few { n ≤ 24 }
        ensures value { ReadsNext n result self.old self.new }
        ensures small { unsigned_abs result < 2 ^ n }
    {
        if self.passes_zero() {
            0
        } else {
            self.read_value(n)
        }
    }

    /// Goes past zeros, at most so many as there is room for, and to the value behind them where there is room for it
    /// too, which it reads: how many zeros, and the value, 0 for none. A token at most; where the zeros don't fill the
    /// room, another token begins behind it.
    #[inline(always)]
    pub fn step(&mut self, n: u8, room: usize) -> (usize, i32)
        requires some { 1 ≤ n }
        requires few { n ≤ 24 }
        requires room { 1 ≤ room }
        ensures within { result.0 ≤ room }
        ensures zeros { result.1 ≡ pos 0 → (1 ≤ result.0) × ReadsMany n (replicate result.0 (pos 0)) self.old self.new }
        ensures value { (result.1 ≡ pos 0 → ⊥) → (result.0 < room) × ReadsMany n (replicate result.0 (pos 0) ++ result.1 ∷ []) self.old self.new }
        ensures small { unsigned_abs result.1 < 2 ^ n }
        ensures begins { result.0 < room → BeginsToken self.new }
    {
        if self.begins() & (n <= MOST_AHEAD) {
            return self.step_ahead(n, room);
        }
        self.step_by_parts(n, room)
    }

    // Whether a token comes next, of which nothing was read yet.
    #[inline(always)]
    fn begins(&self) -> bool
        ensures { IsTrue result → BeginsToken self.now }
    {
        (self.zeros == 0) & !self.ends
    }

    // What `step` says, a part of a token after another.
    #[inline(always)]
    fn step_by_parts(&mut self, n: u8, room: usize) -> (usize, i32)
        requires some { 1 ≤ n }
        requires few { n ≤ 24 }
        requires room { 1 ≤ room }
        ensures within { result.0 ≤ room }
        ensures zeros { result.1 ≡ pos 0 → (1 ≤ result.0) × ReadsMany n (replicate result.0 (pos 0)) self.old self.new }
        ensures value { (result.1 ≡ pos 0 → ⊥) → (result.0 < room) × ReadsMany n (replicate result.0 (pos 0) ++ result.1 ∷ []) self.old self.new }
        ensures small { unsigned_abs result.1 < 2 ^ n }
        ensures begins { result.0 < room → BeginsToken self.new }
    {
        self.open_token();
        let passed = self.pass_run(room);
        if (passed < room) & self.ends {
            return (passed, self.read_value(n));
        }
        (passed, 0)
    }

    /// What `step` says where a token begins and has at most `MOST_AHEAD` bits for its value: it looks at all its bits
    /// together.
    #[inline(always)]
    pub fn step_ahead(&mut self, n: u8, room: usize) -> (usize, i32)
        requires begins { BeginsToken self.old }
        requires some { 1 ≤ n }
        requires few { n ≤ MOST_AHEAD }
        requires room { 1 ≤ room }
        ensures within { result.0 ≤ room }
        ensures zeros { result.1 ≡ pos 0 → (1 ≤ result.0) × ReadsMany n (replicate result.0 (pos 0)) self.old self.new }
        ensures value { (result.1 ≡ pos 0 → ⊥) → (result.0 < room) × ReadsMany n (replicate result.0 (pos 0) ++ result.1 ∷ []) self.old self.new }
        ensures small { unsigned_abs result.1 < 2 ^ n }
        ensures begins { result.0 < room → BeginsToken self.new }
    {
        let width = width_of(self.kp) as u32;
        let word = self.bits.peek(2 + width + most_zeros(n));
        if number_in(word, 0, 1) == 0 {
            return (self.step_run(room), 0);
        }
        let run = number_in(word, 1, width);
        if run as usize >= room {
            self.open_last(run);
            return (self.fill(room), 0);
        }
        (run as usize, self.read_last(word, n))
    }

    // Goes past a full run, at most so many of its zeros as there is room for, and says how many.
    // Where all are passed nothing is written of what is still to come: a loop of such steps needn't keep it in registers.
    #[inline(always)]
    fn step_run(&mut self, room: usize) -> usize
        requires begins { BeginsToken self.old }
        requires full { number 1 self.old.bits ≡ 0 }
        requires room { 1 ≤ room }
        ensures some { 1 ≤ result }
        ensures within { result ≤ room }
        ensures reads { (n : ℕ) → ReadsMany n (replicate result (pos 0)) self.old self.new }
        ensures begins { result < room → BeginsToken self.new }
    {
        let zeros = 1u32 << width_of(self.kp);
        if zeros as usize >= room {
            self.open_run();
            return self.fill(room);
        }
        self.kp = after_run(self.kp);
        self.bits.pass(1);
        zeros as usize
    }

    // Goes past a token whose run ends in a value, which the word shows, and says the value.
    #[inline(always)]
    fn read_last(&mut self, word: u64, n: u8) -> i32
        requires begins { BeginsToken self.old }
        requires last { number 1 self.old.bits ≡ 0 → ⊥ }
        requires some { 1 ≤ n }
        requires few { n ≤ MOST_AHEAD }
        requires shows { Shows (2 + k self.old.kp + (2 ^ n - 2)) word self.old.bits }
        ensures value { ReadsMany n (replicate (number (k self.old.kp) (drop 1 self.old.bits)) (pos 0) ++ result ∷ []) self.old self.new }
        ensures some { result ≡ pos 0 → ⊥ }
        ensures small { unsigned_abs result < 2 ^ n }
        ensures begins { BeginsToken self.new }
    {
        let width = width_of(self.kp) as u32;
        let (value, size) = value_in(word_behind(word, 1 + width), n);
        self.bits.pass(1 + width + size);
        self.kp = after_value(self.kp);
        value
    }

    // Where neither a zero nor a value is known to come next: reads a token, but for its value.
    #[inline(always)]
    fn open_token(&mut self)
        ensures reads { ReadsMany 0 [] self.old self.new }
        ensures known { self.new.zeros ≡ 0 → self.new.ends ≡ true }
    {
        if self.zeros > 0 || self.ends {
            return;
        }
        self.begin_token();
    }

    // The same where a token begins.
    #[inline(always)]
    fn begin_token(&mut self)
        requires begins { BeginsToken self.old }
        ensures reads { ReadsMany 0 [] self.old self.new }
        ensures known { self.new.zeros ≡ 0 → self.new.ends ≡ true }
    {
        let width = width_of(self.kp) as u32;
        let word = self.bits.peek(1 + width);
        if number_in(word, 0, 1) == 0 {
            self.open_run();
            return;
        }
        self.open_last(number_in(word, 1, width));
    }

    // Goes past a full run, all of whose zeros are then known to come next.
    #[inline(always)]
    fn open_run(&mut self)
        requires begins { BeginsToken self.old }
        requires full { number 1 self.old.bits ≡ 0 }
        ensures reads { ReadsMany 0 [] self.old self.new }
        ensures zeros { self.new.zeros ≡ 2 ^ k self.old.kp }
        ensures some { 1 ≤ self.new.zeros }
        ensures ends { self.new.ends ≡ false }
    {
        self.zeros = 1 << width_of(self.kp);
        self.kp = after_run(self.kp);
        self.bits.pass(1);
    }

    // Goes past the head of a token whose run ends in a value: its zeros and the value are then known to come next.
    #[inline(always)]
    fn open_last(&mut self, run: u32)
        requires begins { BeginsToken self.old }
        requires last { number 1 self.old.bits ≡ 0 → ⊥ }
        requires run { run ≡ number (k self.old.kp) (drop 1 self.old.bits) }
        ensures reads { ReadsMany 0 [] self.old self.new }
        ensures zeros { self.new.zeros ≡ run }
        ensures ends { self.new.ends ≡ true }
    {
        self.bits.pass(1 + width_of(self.kp) as u32);
        self.zeros = run;
        self.ends = true;
    }

    // Goes past zeros that are known to come next, at most that many, and says how many.
    #[inline(always)]
    fn pass_run(&mut self, most: usize) -> usize
        ensures count { result ≡ min self.old.zeros most }
        ensures rest { self.new ≡ record self.old { zeros = self.old.zeros - result } }
    {
        let passed = (self.zeros as usize).min(most);
        self.zeros -= passed as u32;
        passed
    }

    // Goes past as many of the zeros that are known to come next as there is room for.
    #[inline(always)]
    fn fill(&mut self, room: usize) -> usize
        requires { room ≤ self.old.zeros }
        ensures count { result ≡ room }
        ensures rest { self.new ≡ record self.old { zeros = self.old.zeros - room } }
    {
        self.pass_run(room);
        room
    }

    // Whether the next value is 0; it goes past it then, and else to the sign of the value.
    #[inline(always)]
    fn passes_zero(&mut self) -> bool
        ensures { MatchBool result (ReadsZero self.old self.new) (ComesToValue self.old self.new) }
    {
        self.open_token();
        if self.zeros > 0 {
            self.zeros -= 1;
            return true;
        }
        false
    }

    // Reads a value's sign and magnitude.
    #[inline(always)]
    fn read_value(&mut self, n: u8) -> i32
        requires ends { self.old.ends ≡ true }
        requires zeros { self.old.zeros ≡ 0 }
        requires some { 1 ≤ n }
        requires few { n ≤ 24 }
        ensures value { ReadsNext n result self.old self.new }
        ensures some { result ≡ pos 0 → ⊥ }
        ensures small { unsigned_abs result < 2 ^ n }
        ensures begins { BeginsToken self.new }
    {
        let negative = self.bits.read(1) == 1;
        let below = self.bits.read_zeros((1 << n) - 2);
        self.kp = after_value(self.kp);
        self.ends = false;
        signed(negative, below)
    }
}

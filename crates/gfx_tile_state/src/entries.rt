ghost use Rattle.std.specs.Prelude.{◌≡◌, ◌≤◌, ◌^◌, false, pos, neg_ℤ, ◌<ℤ◌, ◌≤ℤ◌, drop, MatchBool, if◌then◌else◌};
ghost use Rattle.gfx_bits.specs.Bits.{number};
ghost use Rattle.gfx_dwt.specs.Ranges.{Within};
ghost use Rattle.gfx_tile_state.specs.Entries.{ReadsEntry, way};

use gfx_bits::{BitReader, number_in};
use gfx_srl::SrlReader;

/// Four numbers of up to so many bits are read by one look.
pub const MOST_OF_FOUR: u8 = 14;

/// The readers of an upgrade's data, which run through all bands of a component.
#[derive(Drop)]
pub struct Readers<'a> {
    pub srl: SrlReader<'a>,
    pub bits: BitReader<'a>,
}

impl<'a> Readers<'a> {
    /// Other readers of the same data.
    #[inline(always)]
    pub fn copy(&self) -> Self
        ensures { result ≡ self.now }
    {
        Readers {
            srl: self.srl.copy(),
            bits: self.bits.copy(),
        }
    }
}

/// Reads the entry of a place whose position falls by `n`, if it is a raw number: one of LL3, or of a sum that isn't
/// zero.
#[inline(always)]
pub(crate) fn read_raw(readers: &mut Readers<'_>, sum: i16, n: u8, low: bool) -> i32
    requires some { 1 ≤ n }
    requires few { n ≤ 24 }
    ensures reads { (low ≡ false → sum ≡ pos 0 → ⊥) → ReadsEntry (way n low sum) n result readers.old readers.new }
    ensures small { Within (2 ^ 24) result }
{
    if low {
        return read_number(&mut readers.bits, n);
    }
    away(read_number(&mut readers.bits, n), is_below_zero(sum))
}

#[inline(always)]
fn read_number(bits: &mut BitReader<'_>, n: u8) -> i32
    requires { n ≤ 24 }
    ensures value { result ≡ pos (number n bits.old) }
    ensures rest { bits.new ≡ drop n bits.old }
    ensures small { Within (2 ^ 24) result }
{
    bits.read(n) as i32
}

/// The next four numbers of `n` bits, by one look.
#[inline(always)]
pub(crate) fn read_four(bits: &mut BitReader<'_>, n: u8) -> (i32, i32, i32, i32)
    requires { n ≤ MOST_OF_FOUR }
    ensures first { result.0 ≡ pos (number n bits.old) }
    ensures second { result.1 ≡ pos (number n (drop n bits.old)) }
    ensures third { result.2 ≡ pos (number n (drop n (drop n bits.old))) }
    ensures fourth { result.3 ≡ pos (number n (drop n (drop n (drop n bits.old)))) }
    ensures rest { bits.new ≡ drop n (drop n (drop n (drop n bits.old))) }
    ensures small { Within (2 ^ 24) result.0 × Within (2 ^ 24) result.1 × Within (2 ^ 24) result.2 × Within (2 ^ 24) result.3 }
{
    let width = n as u32;
    let word = bits.peek(4 * width);
    bits.pass(4 * width);
    (
        number_in(word, 0, width) as i32,
        number_in(word, width, width) as i32,
        number_in(word, 2 * width, width) as i32,
        number_in(word, 3 * width, width) as i32,
    )
}

#[inline(always)]
pub(crate) fn is_below_zero(sum: i16) -> bool
    ensures { MatchBool result (sum <ℤ pos 0) (pos 0 ≤ℤ sum) }
{
    sum < 0
}

/// A magnitude with the sign that is known.
#[inline(always)]
pub(crate) fn away(magnitude: i32, down: bool) -> i32
    requires { Within (2 ^ 24) magnitude }
    ensures value { result ≡ (if down then neg_ℤ magnitude else magnitude) }
    ensures small { Within (2 ^ 24) result }
{
    if down { -magnitude } else { magnitude }
}

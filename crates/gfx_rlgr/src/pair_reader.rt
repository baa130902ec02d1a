//! Two values, of which RLGR3 makes one token.
ghost use Rattle.std.specs.Prelude.{◌≡◌, ◌+◌, ◌*◌, ◌<◌, ◌≤◌, ◌^◌, ◌∷◌, [], true, false, min, negsuc, ℕ, suc, List, Bool, length, drop};
ghost use Rattle.gfx_bits.specs.Ahead.{Shows};
ghost use Rattle.gfx_bits.specs.Bits.{number, ones};
ghost use Rattle.gfx_rlgr.specs.declared.mode.Mode.TheVariants.{Rlgr3};
ghost use Rattle.gfx_rlgr.specs.Code.{k, unfold_number};
ghost use Rattle.gfx_rlgr.specs.Steps.{AreWithin, ReadsToken, kept};

use crate::digits::{digits_of, digits_of_large};
use crate::number_reader::{OUT_OF_RANGE, unfolded};
use crate::params::Params;
use gfx_bits::{BitReader, number_in};

/// How many bits a reader shows at once.
const WINDOW: u32 = 57;

/// A pair whose sum begins with fewer ones is read by one look: it has 57 bits at most.
const FEW_ONES: u32 = 32;

/// Reads two values. Nearly always few ones begin their sum, and one look shows them whole.
#[inline(always)]
pub(crate) fn read_pair(bits: &mut BitReader<'_>, params: &mut Params) -> (i16, i16)
    requires within { AreWithin params.old }
    requires single { k params.old ≡ 0 }
    requires count { length bits.old < 2 ^ 67 }
    ensures { ReadsToken Rlgr3 bits.old bits.new params.old params.new (result.0 ∷ (result.1 ∷ [])) }
{
    let word = bits.peek(WINDOW);
    let ones = ones_of(word);
    if ones >= FEW_ONES {
        return long_pair(bits, params);
    }
    let low = params.kr() as u32;
    let sum = sum_in(word, ones, low);
    let width = digits_of(sum);
    let at = ones + 1 + low;
    let one = number_in(word, at, width);
    bits.pass(at + width);
    let other = sum.saturating_sub(one);
    params.after_ones(ones);
    params.after_pair(one, other);
    (first(one > sum, one), unfolded(other as u64))
}

// The sum whose code a word begins with, by its ones, which are few, and its low bits.
#[inline(always)]
fn sum_in(word: u64, high: u32, low: u32) -> u32
    requires few { high < FEW_ONES }
    requires low { low ≤ 10 }
    ensures sum { (bits : List Bool) → Shows 57 word bits → high ≡ min 57 (ones bits) → result ≡ ones bits * 2 ^ low + number low (drop (suc (ones bits)) bits) }
    ensures small { result < 2 ^ 15 }
{
    (high << low) + number_in(word, high + 1, low)
}

// How many ones the 57 bits at the top of a word begin with.
#[inline(always)]
fn ones_of(word: u64) -> u32
    ensures { (bits : List Bool) → Shows 57 word bits → result ≡ min 57 (ones bits) }
{
    ((word >> 7) << 7).leading_ones()
}

// What `read_long_pair` does, in place. The call stands in a function of its own, so that the memory it writes is blanked here alone.
#[inline(always)]
fn long_pair(bits: &mut BitReader<'_>, params: &mut Params) -> (i16, i16)
    requires within { AreWithin params.old }
    requires single { k params.old ≡ 0 }
    requires count { length bits.old < 2 ^ 67 }
    ensures { ReadsToken Rlgr3 bits.old bits.new params.old params.new (result.0 ∷ (result.1 ∷ [])) }
{
    let (values, behind, reader) = read_long_pair(&bits.copy(), *params);
    *bits = reader;
    *params = behind;
    values
}

// Reads two values, however long their code.
#[cold]
#[inline(never)]
fn read_long_pair<'a>(
    bits: &BitReader<'a>,
    mut params: Params,
) -> ((i16, i16), Params, BitReader<'a>)
    requires within { AreWithin params }
    requires single { k params ≡ 0 }
    requires count { length bits.now < 2 ^ 67 }
    ensures { ReadsToken Rlgr3 bits.now result.2 params result.1 (result.0.0 ∷ (result.0.1 ∷ [])) }
{
    let mut reader = bits.copy();
    let low = params.kr();
    let (ones, sum) = read_sum(&mut reader, low);
    let one = read_wide(&mut reader, digits_of_large(sum));
    let other = sum.saturating_sub(one);
    params.after_ones(narrow(ones));
    let less = narrow(one);
    let rest = narrow(other);
    params.after_pair(less, rest);
    let values = (first(one > sum, less), unfolded(rest as u64));
    (values, params, reader)
}

// Reads the code of a sum, however large: its ones, and the sum.
fn read_sum(bits: &mut BitReader<'_>, low: u8) -> (u128, u128)
    requires low { low ≤ 10 }
    requires count { length bits.old < 2 ^ 67 }
    ensures ones { result.0 ≡ ones bits.old }
    ensures sum { result.1 ≡ ones bits.old * 2 ^ low + number low (drop (suc (ones bits.old)) bits.old) }
    ensures small { result.1 < 2 ^ 78 }
    ensures rest { bits.new ≡ drop low (drop (suc (ones bits.old)) bits.old) }
{
    let ones = count_ones(bits);
    let sum = (ones << low) + bits.read(low) as u128;
    (ones, sum)
}

// Counts the ones before the next zero, and goes past them and the zero.
fn count_ones(bits: &mut BitReader<'_>) -> u128
    requires { length bits.old < 2 ^ 67 }
    ensures count { result ≡ ones bits.old }
    ensures rest { bits.new ≡ drop (suc (ones bits.old)) bits.old }
{
    let mut count = 0u128;
    'windows: loop {
        let ahead = ones_of(bits.peek(WINDOW));
        if ahead < WINDOW {
            bits.pass(ahead + 1);
            return count + ahead as u128;
        }
        bits.pass(WINDOW);
        count += WINDOW as u128;
    }
}

// Reads the next `n` bits as a number.
fn read_wide(bits: &mut BitReader<'_>, n: u32) -> u128
    requires { n ≤ 96 }
    ensures value { result ≡ number n bits.old }
    ensures rest { bits.new ≡ drop n bits.old }
{
    let high = n / 3;
    let middle = (n - high) / 2;
    let low = n - high - middle;
    let top = (bits.read(high as u8) as u128) << (middle + low);
    let next = (bits.read(middle as u8) as u128) << low;
    top + (next + bits.read(low as u8) as u128)
}

// A number as far as 32 bits hold it.
#[inline(always)]
fn narrow(number: u128) -> u32
    ensures { result ≡ min number u32.MAX }
{
    number.min(u32::MAX as u128) as u32
}

// The first value of a pair, by its number. Of a broken pair it is out of range.
#[inline(always)]
fn first(broken: bool, number: u32) -> i16
    ensures broken { broken ≡ true → result ≡ negsuc 32767 }
    ensures whole { broken ≡ false → (exact : ℕ) → min exact 65535 ≡ min number 65535 → result ≡ kept (unfold_number exact) }
{
    if broken {
        OUT_OF_RANGE
    } else {
        unfolded(number as u64)
    }
}

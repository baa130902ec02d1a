ghost use Rattle.std.specs.Prelude.{◌≡◌, ◌≤◌, ◌<◌, ◌+◌, ◌-◌, ◌^◌, ℕ, List, Bool, drop, suc, pos, negsuc, if◌then◌else◌};
ghost use Rattle.std.specs.Int.RustNames.{unsigned_abs};
ghost use Rattle.gfx_bits.specs.Ahead.{Shows};
ghost use Rattle.gfx_bits.specs.Bits.{Spelled, first, zeros_code};
ghost use Rattle.gfx_srl.specs.Code.{is_negative};

use gfx_bits::{number_in, zeros_behind};

/// A token of a value of up to so many bits is looked at as a whole.
pub const MOST_AHEAD: u8 = 5;

/// The values of two bits, by three bits that begin with one: its sign, and what spells its magnitude.
const VALUES: [i8; 8] = [3, 2, 1, 1, -3, -2, -1, -1];

/// How many of those three bits spell it.
const SIZES: [u8; 8] = [3, 3, 2, 2, 3, 3, 2, 2];

/// The most zeros that spell a magnitude.
#[inline(always)]
pub(crate) fn most_zeros(n: u8) -> u32
    requires some { 1 ≤ n }
    requires few { n ≤ 24 }
    ensures most { result ≡ 2 ^ n - 2 }
    ensures small { n ≤ MOST_AHEAD → result ≤ 30 }
{
    (1 << n) - 2
}

/// The value of this sign whose magnitude is one more.
#[inline(always)]
pub(crate) fn signed(negative: bool, below: u32) -> i32
    requires { below < 2 ^ 24 }
    ensures { result ≡ (if negative then negsuc below else pos (suc below)) }
{
    if negative {
        -(below as i32) - 1
    } else {
        below as i32 + 1
    }
}

/// The value of up to `n` bits whose sign and magnitude a word begins with, and how many bits spell both.
#[inline(always)]
pub(crate) fn value_in(word: u64, n: u8) -> (i32, u32)
    requires some { 1 ≤ n }
    requires few { n ≤ MOST_AHEAD }
    ensures value { (shown : ℕ) (bits : List Bool) → 1 + (2 ^ n - 2) ≤ shown → shown ≤ 64 → Shows shown word bits → (is_negative result.0 ≡ first bits) × Spelled (drop 1 bits) (zeros_code (2 ^ n - 2) (unsigned_abs result.0 - 1)) (drop result.1 bits) }
    ensures some { result.0 ≡ pos 0 → ⊥ }
    ensures small { unsigned_abs result.0 < 2 ^ n }
    ensures size { result.1 ≤ 1 + (2 ^ n - 2) }
{
    if n == 2 {
        return value_of_two_bits(word);
    }
    let negative = number_in(word, 0, 1) == 1;
    let (below, size) = zeros_behind(word, most_zeros(n));
    (signed(negative, below), 1 + size)
}

// The same for two bits, the most frequent ones: from a table.
#[inline(always)]
fn value_of_two_bits(word: u64) -> (i32, u32)
    ensures value { (shown : ℕ) (bits : List Bool) → 3 ≤ shown → shown ≤ 64 → Shows shown word bits → (is_negative result.0 ≡ first bits) × Spelled (drop 1 bits) (zeros_code 2 (unsigned_abs result.0 - 1)) (drop result.1 bits) }
    ensures some { result.0 ≡ pos 0 → ⊥ }
    ensures small { unsigned_abs result.0 < 4 }
    ensures size { result.1 ≤ 3 }
{
    let at = number_in(word, 0, 3) as usize;
    (i32::from(VALUES[at]), u32::from(SIZES[at]))
}

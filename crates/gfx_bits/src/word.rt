ghost use Rattle.std.specs.Prelude.{◌≡◌, ◌+◌, ◌-◌, ◌≤◌, ℕ, List, Bool, drop, length};
ghost use Rattle.gfx_bits.specs.Ahead.{Shows};
ghost use Rattle.gfx_bits.specs.Bits.{number, Spelled, zeros_code};

/// The `n` bits of a word behind its first `at`, as a number.
#[inline(always)]
pub fn number_in(word: u64, at: u32, n: u32) -> u32
    requires inside { at + n ≤ 63 }
    requires few { n ≤ 32 }
    ensures { (shown : ℕ) (bits : List Bool) → at + n ≤ shown → shown ≤ 64 → Shows shown word bits → result ≡ number n (drop at bits) }
{
    (((word << at) >> 1) >> (63 - n)) as u32
}

/// What a word shows behind its first `n` bits, as a word.
#[inline(always)]
pub fn word_behind(word: u64, n: u32) -> u64
    requires { n ≤ 63 }
    ensures { (shown : ℕ) (bits : List Bool) → n ≤ shown → shown ≤ 64 → Shows shown word bits → Shows (shown - n) result (drop n bits) }
{
    word << n
}

/// How many zeros stand in a word before the next one, behind its first bit, at most that many; and how many bits spell
/// them, with that one where they are fewer.
#[inline(always)]
pub fn zeros_behind(word: u64, most: u32) -> (u32, u32)
    requires few { most ≤ 62 }
    ensures most { result.0 ≤ most }
    ensures spelled { (shown : ℕ) (bits : List Bool) → 1 + most ≤ shown → shown ≤ 64 → Shows shown word bits → Spelled (drop 1 bits) (zeros_code most result.0) (drop result.1 (drop 1 bits)) }
    ensures size { result.1 ≡ length (zeros_code most result.0) }
    ensures within { result.1 ≤ most }
{
    // A one behind the most of them ends a count with no test. What spells them is counted by itself: a reader waits for it.
    let zeros = word << 1;
    let end = 1 << (63 - most);
    (
        (zeros | end).leading_zeros(),
        ((zeros >> 1) | end).leading_zeros(),
    )
}

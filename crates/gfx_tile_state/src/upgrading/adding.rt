//! What an entry adds to a sum at a bit position, and whether the sum stays in the range of a coefficient.

ghost use Rattle.std.specs.Prelude.{◌≡◌, ◌≤◌, ◌<◌, ◌+◌, ◌-◌, ◌^◌, pos, ◌+ℤ◌, ◌*ℤ◌, ℤ, true, ◌&&◌, slice_set};
ghost use Rattle.gfx_dwt.specs.Ranges.{AllCoefficients, Within, at};
ghost use Rattle.gfx_quant.specs.Coefficient.{coefficient_of, is_coefficient};
ghost use Rattle.gfx_tile_state.specs.Entries.{wrapped};

/// A sum with what an entry adds to it at a bit position.
#[inline(always)]
fn sum_of(sum: i16, entry: i32, position: u8) -> i64
    requires entry { Within (2 ^ 24) entry }
    requires low { 1 ≤ position }
    requires high { position ≤ 30 }
    ensures { result ≡ sum +ℤ coefficient_of entry position }
{
    i64::from(sum) + times(entry, position)
}

#[inline(always)]
#[tactic(auto, using(crate::proofs::Sums::times_within))]
fn times(entry: i32, position: u8) -> i64
    requires entry { Within (2 ^ 24) entry }
    requires low { 1 ≤ position }
    requires high { position ≤ 30 }
    ensures value { result ≡ coefficient_of entry position }
    ensures small { Within (2 ^ 53) result }
{
    weighed(entry, weight(position))
}

/// What an entry at this bit position is multiplied by.
#[inline(always)]
fn weight(position: u8) -> i32
    requires low { 1 ≤ position }
    requires high { position ≤ 30 }
    ensures { result ≡ pos (2 ^ (position - 1)) }
{
    1 << (position - 1)
}

#[inline(always)]
fn weighed(value: i32, weight: i32) -> i64
    ensures { result ≡ value *ℤ weight }
{
    i64::from(value) * i64::from(weight)
}

#[inline(always)]
fn is_small(sum: i64) -> bool
    ensures { result ≡ is_coefficient sum }
{
    -32768 <= sum && sum <= 32767
}

#[inline(always)]
fn low_bits(sum: i64) -> i16
    ensures { result ≡ wrapped sum }
{
    (sum.rem_euclid(65_536) as u16).cast_signed()
}

/// Adds to a sum what an entry adds to it at a bit position, as 16 bits hold it, and says whether it stays in the range
/// of a coefficient.
#[inline(always)]
pub(crate) fn add_entry(plane: &mut [i16; 4096], place: usize, entry: i32, position: u8) -> bool
    requires inside { place < 4096 }
    requires coefficients { AllCoefficients plane.old }
    requires entry { Within (2 ^ 24) entry }
    requires least { 1 ≤ position }
    requires most { position ≤ 30 }
    ensures fits { result ≡ is_coefficient (at plane.old place +ℤ coefficient_of entry position) }
    ensures sum { plane.new ≡ slice_set plane.old place (wrapped (at plane.old place +ℤ coefficient_of entry position)) }
{
    let sum = sum_of(plane[place], entry, position);
    plane[place] = low_bits(sum);
    is_small(sum)
}

/// Puts what an entry makes of a sum that is zero, as 16 bits hold it, and says whether it is in the range of a
/// coefficient; where it surely is, nothing is tested.
#[inline(always)]
pub(crate) fn put_entry(
    plane: &mut [i16; 4096],
    place: usize,
    entry: i32,
    position: u8,
    sure: bool,
) -> bool
    requires inside { place < 4096 }
    requires entry { Within (2 ^ 24) entry }
    requires least { 1 ≤ position }
    requires most { position ≤ 30 }
    requires sure { sure ≡ true → is_coefficient (coefficient_of entry position) ≡ true }
    ensures fits { result ≡ is_coefficient (coefficient_of entry position) }
    ensures sum { plane.new ≡ slice_set plane.old place (wrapped (coefficient_of entry position)) }
{
    let sum = times(entry, position);
    plane[place] = low_bits(sum);
    sure || is_small(sum)
}

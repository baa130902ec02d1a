ghost use Rattle.std.specs.Prelude.{◌≡◌, ℕ, ◌+◌, ◌-◌, ◌*◌, ◌<◌, ◌≤◌, ◌^◌, length};
ghost use Rattle.gfx_dwt.specs.declared.layout.Scale.TheVariants.{First};
ghost use Rattle.gfx_dwt.specs.declared.layout.Scale.{Scale};
ghost use Rattle.gfx_dwt.specs.declared.layout.Transform.TheVariants.{Plain, Reduced};
ghost use Rattle.gfx_dwt.specs.Lifting.{low_of};
ghost use Rattle.gfx_dwt.specs.Place.{high_size, line_size, low_size};
ghost use Rattle.gfx_dwt.specs.Ranges.{AllWithin, Within, at};
ghost use Rattle.gfx_dwt.specs.Splitting.{differed, high_half, low_half};

use crate::formula::{Lifting, PlainLifting, ReducedLifting, beyond, high_place, low_place};
use crate::layout::{Scale, Transform};

/// The first places of both halves, as far as their even samples have one behind them; gives the last of the high half.
fn first_places<L: Lifting>(line: &[i32], low: &mut [i32], high: &mut [i32], count: usize) -> i32
    requires some { 0 < count }
    requires line_len { 2 * count < length line.now }
    requires low_len { count ≤ length low.old }
    requires high_len { count ≤ length high.old }
    requires line { AllWithin (2 ^ 28) line.now }
    ensures lows { (k : ℕ) → k < count → at low.new k ≡ low_of L.transform (at line.now (2 * k)) (differed L.transform (at line.now) (k - 1)) (differed L.transform (at line.now) k) }
    ensures highs { (k : ℕ) → k < count → at high.new k ≡ differed L.transform (at line.now) k }
    ensures last { result ≡ differed L.transform (at line.now) (count - 1) }
    ensures small { Within (2 ^ 28) result }
{
    let mut even = line[0];
    let mut before = high_place::<L>(line[1], even, line[2]);
    for k in 0..count {
        let next = line[2 * k + 2];
        let here = high_place::<L>(line[2 * k + 1], even, next);
        high[k] = here;
        low[k] = low_place::<L>(even, before, here);
        before = here;
        even = next;
    }
    before
}

/// Splits a line of the plain transform, whose last even sample stands behind itself.
#[inline(always)]
fn split_plain(line: &[i32], low: &mut [i32], high: &mut [i32], end: usize)
    requires some { 0 < end }
    requires end { length high.old ≡ end + 1 }
    requires low_len { length low.old ≡ length high.old }
    requires line_len { length line.now ≡ 2 * length high.old }
    requires line { AllWithin (2 ^ 28) line.now }
    ensures lows { (l : Scale) → length high.old ≡ high_size Plain l → (k : ℕ) → k < length high.old → at low.new k ≡ low_half Plain l (at line.now) k }
    ensures highs { (l : Scale) → length high.old ≡ high_size Plain l → (k : ℕ) → k < length high.old → at high.new k ≡ high_half Plain l (at line.now) k }
{
    let before = first_places::<PlainLifting>(line, low, high, end);
    let here = high_place::<PlainLifting>(line[2 * end + 1], line[2 * end], line[2 * end]);
    high[end] = here;
    low[end] = low_place::<PlainLifting>(line[2 * end], before, here);
}

/// Splits a line of reduce-extrapolate at its second and third level, whose last sample is an even one.
#[inline(always)]
fn split_later(line: &[i32], low: &mut [i32], high: &mut [i32], count: usize)
    requires some { 0 < count }
    requires count { length high.old ≡ count }
    requires low_len { length low.old ≡ length high.old + 1 }
    requires line_len { length line.now ≡ 2 * length high.old + 1 }
    requires line { AllWithin (2 ^ 28) line.now }
    ensures lows { (l : Scale) → length high.old ≡ high_size Reduced l → length low.old ≡ low_size Reduced l → (k : ℕ) → k < length low.old → at low.new k ≡ low_half Reduced l (at line.now) k }
    ensures highs { (l : Scale) → length high.old ≡ high_size Reduced l → length low.old ≡ low_size Reduced l → (k : ℕ) → k < length high.old → at high.new k ≡ high_half Reduced l (at line.now) k }
{
    let before = first_places::<ReducedLifting>(line, low, high, count);
    low[count] = low_place::<ReducedLifting>(line[2 * count], before, before);
}

/// Splits a line of reduce-extrapolate at its first level, which is longer by an even sample than it has.
fn split_first(line: &[i32], low: &mut [i32], high: &mut [i32])
    requires low_len { length low.old ≡ 33 }
    requires high_len { length high.old ≡ 31 }
    requires line_len { length line.now ≡ 64 }
    requires line { AllWithin (2 ^ 28) line.now }
    ensures lows { (k : ℕ) → k < length low.old → at low.new k ≡ low_half Reduced First (at line.now) k }
    ensures highs { (k : ℕ) → k < length high.old → at high.new k ≡ high_half Reduced First (at line.now) k }
{
    let before = first_places::<ReducedLifting>(line, low, high, 31);
    low[31] = low_place::<ReducedLifting>(line[62], before, 0);
    let last = beyond(line[62], line[63]);
    low[32] = low_place::<ReducedLifting>(last, 0, 0);
}

/// Splits a line into its halves. Sizes stand here as numbers, so that each loop has a copy of its own for its size.
pub(crate) fn split_line(
    transform: Transform,
    level: Scale,
    line: &[i32],
    low: &mut [i32],
    high: &mut [i32],
)
    requires low_len { length low.old ≡ low_size transform level }
    requires high_len { length high.old ≡ high_size transform level }
    requires line_len { length line.now ≡ line_size transform level }
    requires line { AllWithin (2 ^ 28) line.now }
    ensures lows { (k : ℕ) → k < low_size transform level → at low.new k ≡ low_half transform level (at line.now) k }
    ensures highs { (k : ℕ) → k < high_size transform level → at high.new k ≡ high_half transform level (at line.now) k }
{
    match (transform, level) {
        (Transform::Plain, Scale::First) => split_plain(line, low, high, 31),
        (Transform::Plain, Scale::Second) => split_plain(line, low, high, 15),
        (Transform::Plain, Scale::Third) => split_plain(line, low, high, 7),
        (Transform::Reduced, Scale::First) => split_first(line, low, high),
        (Transform::Reduced, Scale::Second) => split_later(line, low, high, 16),
        (Transform::Reduced, Scale::Third) => split_later(line, low, high, 8),
    }
}

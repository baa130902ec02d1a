ghost use Rattle.std.specs.Prelude.{◌≡◌, ℕ, ◌+◌, ◌-◌, ◌*◌, ◌<◌, ◌≤◌, min, length};
ghost use Rattle.gfx_dwt.specs.declared.layout.Transform.TheVariants.{Plain};
ghost use Rattle.gfx_dwt.specs.Joining.{joined, lowered};
ghost use Rattle.gfx_dwt.specs.Lifting.{even_of, odd_of};
ghost use Rattle.gfx_dwt.specs.Narrow.{AreSmall};
ghost use Rattle.gfx_dwt.specs.Place.{high_size, line_size, low_size};
ghost use Rattle.gfx_dwt.specs.Ranges.{AllWithin, Within, at};
ghost use Rattle.gfx_dwt.specs.Samples.{cell};

use crate::layout::{Scale, Transform};
use crate::narrow::formula::{PlainNarrow, even_sample, odd_sample};
use crate::narrow::lines::put_pairs;
use crate::narrow::range::{greatest_of, higher, lower};

/// Writes even samples, from the low half and the high half around them. The result is their greatest magnitude.
#[inline(always)]
fn evens_of(out: &mut [i16], low: &[i16], before: &[i16], here: &[i16]) -> u16
    requires low_len { length low.now ≡ length out.old }
    requires before_len { length before.now ≡ length out.old }
    requires here_len { length here.now ≡ length out.old }
    requires low { AllWithin 16382 low.now }
    requires before { AllWithin 8191 before.now }
    requires here { AllWithin 8191 here.now }
    requires evens { (k : ℕ) → k < length out.old → Within 16382 (even_of Plain (at low.now k) (at before.now k) (at here.now k)) }
    ensures each { (k : ℕ) → k < length out.old → at out.new k ≡ even_of Plain (at low.now k) (at before.now k) (at here.now k) }
    ensures within { AllWithin result out.new }
{
    let mut lowest = 0;
    let mut highest = 0;
    for k in 0..out.len() {
        let even = even_sample::<PlainNarrow>(low[k], before[k], here[k]);
        lowest = lower(lowest, even);
        highest = higher(highest, even);
        out[k] = even;
    }
    greatest_of(lowest, highest)
}

/// Writes odd samples, from the high half and the even samples on both sides. The result is their greatest magnitude.
#[inline(always)]
fn odds_of(out: &mut [i16], high: &[i16], left: &[i16], right: &[i16]) -> u16
    requires high_len { length high.now ≡ length out.old }
    requires left_len { length left.now ≡ length out.old }
    requires right_len { length right.now ≡ length out.old }
    requires high { AllWithin 8191 high.now }
    requires left { AllWithin 16382 left.now }
    requires right { AllWithin 16382 right.now }
    ensures each { (k : ℕ) → k < length out.old → at out.new k ≡ odd_of Plain (at high.now k) (at left.now k) (at right.now k) }
    ensures within { AllWithin result out.new }
{
    let mut lowest = 0;
    let mut highest = 0;
    for k in 0..out.len() {
        let odd = odd_sample::<PlainNarrow>(high[k], left[k], right[k]);
        lowest = lower(lowest, odd);
        highest = higher(highest, odd);
        out[k] = odd;
    }
    greatest_of(lowest, highest)
}

/// Writes the first even sample of each row, in front of which the row's first high number stands again. The result is
/// their greatest magnitude.
#[inline(always)]
fn first_evens(evens: &mut [i16], low: &[i16], high: &[i16], size: usize, rows: usize) -> u16
    requires rows { rows ≤ 64 }
    requires size { 0 < size }
    requires most { size ≤ 32 }
    requires low_len { length low.now ≡ rows * size }
    requires high_len { length high.now ≡ rows * size }
    requires evens_len { rows * size ≤ length evens.old }
    requires small { AreSmall low.now high.now }
    ensures first { (r : ℕ) → r < rows → cell size evens.new r 0 ≡ even_of Plain (cell size low.now r 0) (cell size high.now r 0) (cell size high.now r 0) }
    ensures within { (r : ℕ) → r < rows → Within result (cell size evens.new r 0) }
    ensures others { (r k : ℕ) → 0 < k → k < size → cell size evens.new r k ≡ cell size evens.old r k }
{
    let mut most = 0;
    for r in 0..rows {
        let start = r * size;
        let even = even_sample::<PlainNarrow>(low[start], high[start], high[start]);
        most = most.max(even.unsigned_abs());
        evens[start] = even;
    }
    most
}

/// Writes the last odd sample of each row, behind which the row's last even sample stands again. The result is their
/// greatest magnitude.
#[inline(always)]
fn last_odds(odds: &mut [i16], high: &[i16], evens: &[i16], size: usize, rows: usize) -> u16
    requires rows { rows ≤ 64 }
    requires size { 0 < size }
    requires most { size ≤ 32 }
    requires high_len { length high.now ≡ rows * size }
    requires evens_len { rows * size ≤ length evens.now }
    requires odds_len { length odds.old ≡ rows * size }
    requires high { AllWithin 8191 high.now }
    requires evens { AllWithin 16382 evens.now }
    ensures last { (r : ℕ) → r < rows → cell size odds.new r (size - 1) ≡ odd_of Plain (cell size high.now r (size - 1)) (cell size evens.now r (size - 1)) (cell size evens.now r (size - 1)) }
    ensures within { (r : ℕ) → r < rows → Within result (cell size odds.new r (size - 1)) }
    ensures others { (r k : ℕ) → k + 1 < size → cell size odds.new r k ≡ cell size odds.old r k }
{
    let mut most = 0;
    for r in 0..rows {
        let end = r * size + size - 1;
        let odd = odd_sample::<PlainNarrow>(high[end], evens[end], evens[end]);
        most = most.max(odd.unsigned_abs());
        odds[end] = odd;
    }
    most
}

/// Writes the even samples of all rows, and nought behind them. No sample's magnitude is greater than the result.
// In front of a row's first sample stands the end of the row before at first, so that sample is found again.
#[inline(always)]
fn flat_evens(low: &[i16], high: &[i16], evens: &mut [i16], size: usize, rows: usize) -> u16
    requires rows { rows ≤ 64 }
    requires some { 0 < rows }
    requires size { 0 < size }
    requires most { size ≤ 32 }
    requires low_len { length low.now ≡ rows * size }
    requires high_len { length high.now ≡ rows * size }
    requires evens_len { length evens.old ≡ rows * size + 1 }
    requires small { AreSmall low.now high.now }
    ensures each { (r k : ℕ) → r < rows → k < size → cell size evens.new r k ≡ lowered Plain (cell size low.now r) (cell size high.now r) k }
    ensures within { (k : ℕ) → k < rows * size → Within result (at evens.new k) }
    ensures small { AllWithin 16382 evens.new }
{
    let count = rows * size;
    let most = evens_of(
        &mut evens[1..count],
        &low[1..count],
        &high[..count - 1],
        &high[1..count],
    );
    let first = first_evens(evens, low, high, size, rows);
    evens[count] = 0;
    most.max(first)
}

/// Writes the odd samples of all rows. No sample's magnitude is greater than the result.
// Behind a row's last sample stands the front of the next row at first, so that sample is found again.
#[inline(always)]
fn flat_odds(high: &[i16], evens: &[i16], odds: &mut [i16], size: usize, rows: usize) -> u16
    requires rows { rows ≤ 64 }
    requires size { 0 < size }
    requires most { size ≤ 32 }
    requires high_len { length high.now ≡ rows * size }
    requires evens_len { length evens.now ≡ rows * size + 1 }
    requires odds_len { length odds.old ≡ rows * size }
    requires high { AllWithin 8191 high.now }
    requires evens { AllWithin 16382 evens.now }
    ensures each { (r k : ℕ) → r < rows → k < size → cell size odds.new r k ≡ odd_of Plain (cell size high.now r k) (cell size evens.now r k) (cell size evens.now r (min (k + 1) (size - 1))) }
    ensures within { AllWithin result odds.new }
{
    let count = rows * size;
    let most = odds_of(odds, high, &evens[..count], &evens[1..count + 1]);
    let last = last_odds(odds, high, evens, size, rows);
    most.max(last)
}

/// Joins each row of a low and of a high quarter in the plain transform, with room in spare memory. Both halves of a row
/// have the same size there, so all rows are one list: no row is copied with its edges, and no loop is short. The samples
/// at the rows' ends, which have a neighbour of another row then, are mended afterwards. No magnitude of what is written
/// is greater than the result, so it needs no second look; the result may be a mended sample's, and so too large.
#[inline(always)]
pub(crate) fn join_flat(
    level: Scale,
    low: &[i16],
    high: &[i16],
    out: &mut [i16],
    rows: usize,
    spare: &mut [i16],
) -> u16
    requires rows { rows ≤ 64 }
    requires low_len { length low.now ≡ rows * low_size Plain level }
    requires high_len { length high.now ≡ rows * high_size Plain level }
    requires out_len { length out.old ≡ rows * line_size Plain level }
    requires spare_len { 2 * (rows * (low_size Plain level + 1)) ≤ length spare.old }
    requires small { AreSmall low.now high.now }
    ensures joined { (r c : ℕ) → r < rows → c < line_size Plain level → cell (line_size Plain level) out.new r c ≡ joined Plain level (cell (low_size Plain level) low.now r) (cell (high_size Plain level) high.now r) c }
    ensures within { AllWithin result out.new }
{
    if rows == 0 {
        return 0;
    }
    let size = level.low_size(Transform::Plain);
    let count = rows * size;
    let (evens, rest) = spare.split_at_mut(count + 1);
    let odds = &mut rest[..count];
    let most_even = flat_evens(low, high, evens, size, rows);
    let most_odd = flat_odds(high, evens, odds, size, rows);
    put_pairs(evens, odds, out);
    most_even.max(most_odd)
}

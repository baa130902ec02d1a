ghost use Rattle.std.specs.Prelude.{◌≡◌, ℕ, ◌+◌, ◌*◌, ◌<◌, ◌≤◌, ℤ, List, length, pos, false, IsTrue};
ghost use Rattle.gfx_dwt.specs.declared.layout.Band.TheVariants.{Ll3};
ghost use Rattle.gfx_dwt.specs.declared.layout.Scale.TheVariants.{First, Second, Third};
ghost use Rattle.gfx_dwt.specs.Joining.{joined};
ghost use Rattle.gfx_dwt.specs.Narrow.{AreSmall, IsNarrow, StaysNarrow, level_of};
ghost use Rattle.gfx_dwt.specs.Place.{coefficient, high_size, line_size, low_size, low_start, part_start};
ghost use Rattle.gfx_dwt.specs.Ranges.{AllWithin, at};
ghost use Rattle.gfx_dwt.specs.Samples.{cell, quarter, sample, second_level, third_level};

use crate::layout::{Scale, Transform};
use crate::narrow::joining::{join_narrow_columns, join_narrow_rows};
use crate::narrow::range::{are_small, fit, is_low};
use crate::narrow::smooth::{smooth_columns, smooth_rows};
use crate::noughts::all_are;

/// Joins the rows of a level's quarters, with room in spare memory: those of its low half, and those of its high half.
/// Where the result is true, what was written is known to fit 16 bits without being looked at again.
fn join_narrow_quarters(
    transform: Transform,
    level: Scale,
    low: &[i16],
    bands: &[i16],
    above: &mut [i16],
    below: &mut [i16],
    spare: &mut [i16],
) -> bool
    requires low_len { length low.now ≡ low_size transform level * low_size transform level }
    requires bands_len { length bands.now ≡ low_start transform level }
    requires above_len { length above.old ≡ low_size transform level * line_size transform level }
    requires below_len { length below.old ≡ high_size transform level * line_size transform level }
    requires spare_len { 2 * (low_size transform level * (low_size transform level + 1)) ≤ length spare.old }
    requires small { AreSmall low.now bands.now }
    ensures above { (r x : ℕ) → r < low_size transform level → x < line_size transform level → cell (line_size transform level) above.new r x ≡ joined transform level (cell (low_size transform level) low.now r) (quarter 0 (high_size transform level) bands.now r) x }
    ensures below { (r x : ℕ) → r < high_size transform level → x < line_size transform level → cell (line_size transform level) below.new r x ≡ joined transform level (quarter (low_size transform level * high_size transform level) (low_size transform level) bands.now r) (quarter (low_size transform level * high_size transform level + high_size transform level * low_size transform level) (high_size transform level) bands.now r) x }
    ensures small { IsTrue result → AreSmall above.new below.new }
{
    let low_size = level.low_size(transform);
    let high_size = level.high_size(transform);
    let (hl, rest) = bands.split_at(low_size * high_size);
    let (lh, hh) = rest.split_at(high_size * low_size);
    let most_above = join_narrow_rows(transform, level, low, hl, above, low_size, spare);
    let most_below = join_narrow_rows(transform, level, lh, hh, below, high_size, spare);
    fit(most_above, most_below)
}

/// Joins a level of its low quarter and its bands in a plane, where all numbers are small enough. HL, LH and HH stand
/// one behind the other. The plane that the columns are joined into is the room for joining the rows.
fn join_detailed(
    transform: Transform,
    level: Scale,
    coefficients: &[i16; 4096],
    low: &[i16],
    rows: &mut [i16; 4096],
    out: &mut [i16],
) -> bool
    requires low_len { length low.now ≡ low_size transform level * low_size transform level }
    requires out_len { length out.old ≡ line_size transform level * line_size transform level }
    ensures joined { IsTrue result → (y x : ℕ) → y < line_size transform level → x < line_size transform level → cell (line_size transform level) out.new y x ≡ level_of transform level coefficients.now (cell (low_size transform level) low.now) y x }
    ensures wide { result ≡ false → IsNarrow transform level coefficients.now (cell (low_size transform level) low.now) → ⊥ }
{
    let low_size = level.low_size(transform);
    let width = low_size + level.high_size(transform);
    let bands = &coefficients[4096 - width * width..4096 - low_size * low_size];
    if !are_small(low, bands) {
        return false;
    }
    let (above, rest) = rows.split_at_mut(low_size * width);
    let (below, _) = rest.split_at_mut((width - low_size) * width);
    let small = join_narrow_quarters(transform, level, low, bands, above, below, out);
    if !small && !are_small(above, below) {
        return false;
    }
    join_narrow_columns(transform, level, above, below, out, width);
    true
}

/// Joins a level whose bands are nought, where the numbers of its low quarter are small enough.
fn join_smooth(
    transform: Transform,
    level: Scale,
    low: &[i16],
    rows: &mut [i16; 4096],
    out: &mut [i16],
) -> bool
    requires low_len { length low.now ≡ low_size transform level * low_size transform level }
    requires out_len { length out.old ≡ line_size transform level * line_size transform level }
    ensures joined { IsTrue result → (plane : List ℤ) → ((k : ℕ) → k < low_start transform level → at plane (part_start transform level + k) ≡ pos 0) → (y x : ℕ) → y < line_size transform level → x < line_size transform level → cell (line_size transform level) out.new y x ≡ level_of transform level plane (cell (low_size transform level) low.now) y x }
    ensures wide { result ≡ false → AllWithin 16382 low.now → ⊥ }
{
    if !is_low(low) {
        return false;
    }
    let low_size = level.low_size(transform);
    let width = low_size + level.high_size(transform);
    let above = &mut rows[..low_size * width];
    smooth_rows(transform, level, low, above, low_size);
    smooth_columns(transform, level, above, out, width);
    true
}

/// Joins a level of its low quarter and its bands in a plane, where all numbers are small enough.
fn join_narrow_level(
    transform: Transform,
    level: Scale,
    coefficients: &[i16; 4096],
    low: &[i16],
    rows: &mut [i16; 4096],
    out: &mut [i16],
) -> bool
    requires low_len { length low.now ≡ low_size transform level * low_size transform level }
    requires out_len { length out.old ≡ line_size transform level * line_size transform level }
    ensures joined { IsTrue result → (y x : ℕ) → y < line_size transform level → x < line_size transform level → cell (line_size transform level) out.new y x ≡ level_of transform level coefficients.now (cell (low_size transform level) low.now) y x }
    ensures wide { result ≡ false → IsNarrow transform level coefficients.now (cell (low_size transform level) low.now) → ⊥ }
{
    let low_size = level.low_size(transform);
    let width = low_size + level.high_size(transform);
    let bands = &coefficients[4096 - width * width..4096 - low_size * low_size];
    if all_are(bands, 0) {
        return join_smooth(transform, level, low, rows, out);
    }
    join_detailed(transform, level, coefficients, low, rows, out)
}

/// Joins the third level, of LL3 and its bands, where all numbers are small enough.
fn join_third(
    transform: Transform,
    coefficients: &[i16; 4096],
    rows: &mut [i16; 4096],
    out: &mut [i16],
) -> bool
    requires { length out.old ≡ low_size transform Second * low_size transform Second }
    ensures joined { IsTrue result → (r c : ℕ) → r < low_size transform Second → c < low_size transform Second → cell (low_size transform Second) out.new r c ≡ third_level transform coefficients.now r c }
    ensures wide { result ≡ false → IsNarrow transform Third coefficients.now (coefficient transform coefficients.now Ll3) → ⊥ }
{
    let size = Scale::Third.low_size(transform);
    let low = &coefficients[4096 - size * size..];
    join_narrow_level(transform, Scale::Third, coefficients, low, rows, out)
}

/// Joins the third and the second level, where all numbers are small enough.
fn join_second(
    transform: Transform,
    coefficients: &[i16; 4096],
    third: &mut [i16],
    rows: &mut [i16; 4096],
    out: &mut [i16],
) -> bool
    requires third_len { length third.old ≡ low_size transform Second * low_size transform Second }
    requires out_len { length out.old ≡ low_size transform First * low_size transform First }
    ensures joined { IsTrue result → (r c : ℕ) → r < low_size transform First → c < low_size transform First → cell (low_size transform First) out.new r c ≡ second_level transform coefficients.now r c }
    ensures wide { result ≡ false → StaysNarrow transform coefficients.now → ⊥ }
{
    if !join_third(transform, coefficients, rows, third) {
        return false;
    }
    join_narrow_level(transform, Scale::Second, coefficients, third, rows, out)
}

/// Joins all three levels, where all numbers are small enough.
fn join_first(
    transform: Transform,
    coefficients: &[i16; 4096],
    third: &mut [i16],
    second: &mut [i16],
    rows: &mut [i16; 4096],
    out: &mut [i16; 4096],
) -> bool
    requires third_len { length third.old ≡ low_size transform Second * low_size transform Second }
    requires second_len { length second.old ≡ low_size transform First * low_size transform First }
    ensures joined { IsTrue result → (y x : ℕ) → y < 64 → x < 64 → cell 64 out.new y x ≡ sample transform coefficients.now y x }
    ensures wide { result ≡ false → StaysNarrow transform coefficients.now → ⊥ }
{
    if !join_second(transform, coefficients, third, rows, second) {
        return false;
    }
    join_narrow_level(transform, Scale::First, coefficients, second, rows, out)
}

/// The same, in so much of two arrays as the levels fill.
pub(crate) fn join_narrow(
    transform: Transform,
    coefficients: &[i16; 4096],
    third: &mut [i16; 289],
    second: &mut [i16; 1089],
    rows: &mut [i16; 4096],
    out: &mut [i16; 4096],
) -> bool
    ensures joined { IsTrue result → (y x : ℕ) → y < 64 → x < 64 → cell 64 out.new y x ≡ sample transform coefficients.now y x }
    ensures wide { result ≡ false → StaysNarrow transform coefficients.now → ⊥ }
{
    let third_size = Scale::Second.low_size(transform);
    let second_size = Scale::First.low_size(transform);
    join_first(
        transform,
        coefficients,
        &mut third[..third_size * third_size],
        &mut second[..second_size * second_size],
        rows,
        out,
    )
}

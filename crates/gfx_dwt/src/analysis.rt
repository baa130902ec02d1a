ghost use Rattle.std.specs.Prelude.{drop, ◌≡◌, ℕ, ◌+◌, ◌-◌, ◌*◌, ◌<◌, ◌≤◌, ◌^◌, length};
ghost use Rattle.gfx_dwt.specs.declared.layout.Band.{Band};
ghost use Rattle.gfx_dwt.specs.Coefficients.{High, IsSplitAt, Low, half, transformed};
ghost use Rattle.gfx_dwt.specs.Place.{coefficient, columns, high_size, line_size, low_size, low_start, part_start, rows};
ghost use Rattle.gfx_dwt.specs.Ranges.{AllSamples, AllWithin, at};
ghost use Rattle.gfx_dwt.specs.Samples.{cell, quarter};
ghost use Rattle.gfx_dwt.specs.Splitting.{grows, high_half, low_half};

use crate::layout::{Scale, Transform};
use crate::splitting::{split_columns, split_rows};

/// Splits all rows of a plane's two halves: the upper one into LL and HL, the lower one into LH and HH.
fn split_quarters(
    transform: Transform,
    level: Scale,
    above: &[i32],
    below: &[i32],
    part: &mut [i32],
)
    requires part_len { length part.old ≡ line_size transform level * line_size transform level }
    requires above_len { length above.now ≡ low_size transform level * line_size transform level }
    requires below_len { length below.now ≡ high_size transform level * line_size transform level }
    requires above { AllWithin (2 ^ 28) above.now }
    requires below { AllWithin (2 ^ 28) below.now }
    ensures low_low { (r c : ℕ) → r < low_size transform level → c < low_size transform level → quarter (low_start transform level) (low_size transform level) part.new r c ≡ low_half transform level (cell (line_size transform level) above.now r) c }
    ensures high_low { (r c : ℕ) → r < low_size transform level → c < high_size transform level → quarter 0 (high_size transform level) part.new r c ≡ high_half transform level (cell (line_size transform level) above.now r) c }
    ensures low_high { (r c : ℕ) → r < high_size transform level → c < low_size transform level → quarter (low_size transform level * high_size transform level) (low_size transform level) part.new r c ≡ low_half transform level (cell (line_size transform level) below.now r) c }
    ensures high_high { (r c : ℕ) → r < high_size transform level → c < high_size transform level → quarter (low_size transform level * high_size transform level + high_size transform level * low_size transform level) (high_size transform level) part.new r c ≡ high_half transform level (cell (line_size transform level) below.now r) c }
    ensures within { (bound : ℕ) → AllWithin bound above.now → AllWithin bound below.now → AllWithin (grows transform level * bound) part.new }
{
    let low_size = level.low_size(transform);
    let high_size = level.high_size(transform);
    let (hl, rest) = part.split_at_mut(low_size * high_size);
    let (lh, rest) = rest.split_at_mut(high_size * low_size);
    let (hh, ll) = rest.split_at_mut(high_size * high_size);
    split_rows(transform, level, above, ll, hl, low_size);
    split_rows(transform, level, below, lh, hh, high_size);
}

/// Splits a level in the part of the plane that it fills.
fn split_level(transform: Transform, level: Scale, part: &mut [i32], tmp: &mut [i32])
    requires part_len { length part.old ≡ line_size transform level * line_size transform level }
    requires tmp_len { length tmp.old ≡ length part.old }
    requires part { AllWithin (2 ^ 26) part.old }
    ensures quarters { IsSplitAt transform level 0 (cell (line_size transform level) part.old) part.new }
    ensures within { (bound : ℕ) → AllWithin bound part.old → AllWithin (grows transform level * (grows transform level * bound)) part.new }
{
    let width = level.low_size(transform) + level.high_size(transform);
    let (above, below) = tmp.split_at_mut(level.low_size(transform) * width);
    split_columns(transform, level, part, above, below, width);
    split_quarters(transform, level, above, below, part);
}

/// Splits a level in the plane; the bands before its part stay.
fn split_in_plane(
    transform: Transform,
    level: Scale,
    plane: &mut [i32; 4096],
    tmp: &mut [i32; 4096],
)
    requires { AllWithin (2 ^ 26) plane.old }
    ensures quarters { IsSplitAt transform level (part_start transform level) (cell (line_size transform level) (drop (part_start transform level) plane.old)) plane.new }
    ensures kept { (k : ℕ) → k < part_start transform level → at plane.new k ≡ at plane.old k }
    ensures within { (bound : ℕ) → AllWithin bound plane.old → AllWithin (grows transform level * (grows transform level * bound)) plane.new }
{
    let width = level.low_size(transform) + level.high_size(transform);
    let size = width * width;
    split_level(
        transform,
        level,
        &mut plane[4096 - size..],
        &mut tmp[..size],
    );
}

/// Turns samples row by row into coefficients in band order ([MS-RDPRFX] 3.1.8.2.4, and [MS-RDPEGFX] for
/// reduce-extrapolate), in a workspace of the caller's, of which nothing is said afterwards.
pub fn forward_with(plane: &mut [i32; 4096], transform: Transform, tmp: &mut [i32; 4096])
    requires { AllSamples plane.old }
    ensures coefficients { (band : Band) (row column : ℕ) → row < rows transform band → column < columns transform band → coefficient transform plane.new band row column ≡ transformed transform plane.old band row column }
    ensures within { AllWithin 1179648 plane.new }
{
    split_in_plane(transform, Scale::First, plane, tmp);
    split_in_plane(transform, Scale::Second, plane, tmp);
    split_in_plane(transform, Scale::Third, plane, tmp);
}

/// Turns samples row by row into coefficients in band order ([MS-RDPRFX] 3.1.8.2.4, and [MS-RDPEGFX] for
/// reduce-extrapolate).
pub fn forward(plane: &mut [i32; 4096], transform: Transform)
    requires { AllSamples plane.old }
    ensures coefficients { (band : Band) (row column : ℕ) → row < rows transform band → column < columns transform band → coefficient transform plane.new band row column ≡ transformed transform plane.old band row column }
    ensures within { AllWithin 1179648 plane.new }
{
    let mut tmp = [0; 4096];
    forward_with(plane, transform, &mut tmp);
}

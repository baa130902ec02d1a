ghost use Rattle.std.specs.Prelude.{drop, ◌≡◌, ℕ, ◌+◌, ◌-◌, ◌*◌, ◌<◌, ◌≤◌, ◌^◌, length};
ghost use Rattle.gfx_dwt.specs.Joining.{joined};
ghost use Rattle.gfx_dwt.specs.Place.{high_size, line_size, low_size, low_start};
ghost use Rattle.gfx_dwt.specs.Ranges.{AllCoefficients, AllWithin, at};
ghost use Rattle.gfx_dwt.specs.Samples.{cell, part_joined, quarter, sample};

use crate::joining::{join_columns, join_rows};
use crate::layout::{Scale, Transform};

/// Joins all rows of a level's part: LL with HL above, LH with HH below.
#[inline(always)]
fn join_quarters(
    transform: Transform,
    level: Scale,
    part: &[i32],
    above: &mut [i32],
    below: &mut [i32],
)
    requires part_len { length part.now ≡ line_size transform level * line_size transform level }
    requires above_len { length above.old ≡ low_size transform level * line_size transform level }
    requires below_len { length below.old ≡ high_size transform level * line_size transform level }
    requires part { AllWithin (2 ^ 26) part.now }
    ensures above_within { AllWithin (2 ^ 28) above.new }
    ensures below_within { AllWithin (2 ^ 28) below.new }
    ensures above { (r x : ℕ) → r < low_size transform level → x < line_size transform level → cell (line_size transform level) above.new r x ≡ joined transform level (quarter (low_start transform level) (low_size transform level) part.now r) (quarter 0 (high_size transform level) part.now r) x }
    ensures below { (r x : ℕ) → r < high_size transform level → x < line_size transform level → cell (line_size transform level) below.new r x ≡ joined transform level (quarter (low_size transform level * high_size transform level) (low_size transform level) part.now r) (quarter (low_size transform level * high_size transform level + high_size transform level * low_size transform level) (high_size transform level) part.now r) x }
{
    let low_size = level.low_size(transform);
    let high_size = level.high_size(transform);
    let (hl, rest) = part.split_at(low_size * high_size);
    let (lh, rest) = rest.split_at(high_size * low_size);
    let (hh, ll) = rest.split_at(high_size * high_size);
    join_rows(transform, level, ll, hl, above, low_size);
    join_rows(transform, level, lh, hh, below, high_size);
}

/// Joins a level in the part of the plane that it fills.
#[inline(always)]
fn join_level(transform: Transform, level: Scale, part: &mut [i32], tmp: &mut [i32])
    requires part_len { length part.old ≡ line_size transform level * line_size transform level }
    requires tmp_len { length tmp.old ≡ length part.old }
    requires part { AllWithin (2 ^ 26) part.old }
    ensures each { (y x : ℕ) → y < line_size transform level → x < line_size transform level → cell (line_size transform level) part.new y x ≡ part_joined transform level part.old y x }
    ensures within { (bound : ℕ) → AllWithin bound part.old → AllWithin (16 * bound) part.new }
{
    let width = level.low_size(transform) + level.high_size(transform);
    let (above, below) = tmp.split_at_mut(level.low_size(transform) * width);
    join_quarters(transform, level, part, above, below);
    join_columns(transform, level, above, below, part, width);
}

/// Joins a level in the part that it fills at the end of a plane, or of a part of one; what stands before it stays.
#[inline(always)]
pub(crate) fn join_in_plane(transform: Transform, level: Scale, plane: &mut [i32], tmp: &mut [i32])
    requires plane_len { line_size transform level * line_size transform level ≤ length plane.old }
    requires tmp_len { line_size transform level * line_size transform level ≤ length tmp.old }
    requires within { AllWithin (2 ^ 26) plane.old }
    ensures each { (y x : ℕ) → y < line_size transform level → x < line_size transform level → at plane.new (length plane.old - line_size transform level * line_size transform level + (y * line_size transform level + x)) ≡ part_joined transform level (drop (length plane.old - line_size transform level * line_size transform level) plane.old) y x }
    ensures kept { (k : ℕ) → k < length plane.old - line_size transform level * line_size transform level → at plane.new k ≡ at plane.old k }
    ensures within { (bound : ℕ) → AllWithin bound plane.old → AllWithin (16 * bound) plane.new }
{
    let width = level.low_size(transform) + level.high_size(transform);
    let size = width * width;
    let start = plane.len() - size;
    join_level(transform, level, &mut plane[start..], &mut tmp[..size]);
}

/// Turns coefficients in band order into samples row by row ([MS-RDPRFX] 3.1.8.1.4, and [MS-RDPEGFX] for
/// reduce-extrapolate), in a workspace of the caller's, of which nothing is said afterwards.
pub fn inverse_with(plane: &mut [i32; 4096], transform: Transform, tmp: &mut [i32; 4096])
    requires { AllCoefficients plane.old }
    ensures samples { (y x : ℕ) → y < 64 → x < 64 → cell 64 plane.new y x ≡ sample transform plane.old y x }
    ensures within { AllWithin 1507328 plane.new }
{
    join_in_plane(transform, Scale::Third, plane, tmp);
    join_in_plane(transform, Scale::Second, plane, tmp);
    join_in_plane(transform, Scale::First, plane, tmp);
}

/// Turns coefficients in band order into samples row by row ([MS-RDPRFX] 3.1.8.1.4, and [MS-RDPEGFX] for
/// reduce-extrapolate).
pub fn inverse(plane: &mut [i32; 4096], transform: Transform)
    requires { AllCoefficients plane.old }
    ensures samples { (y x : ℕ) → y < 64 → x < 64 → cell 64 plane.new y x ≡ sample transform plane.old y x }
    ensures within { AllWithin 1507328 plane.new }
{
    let mut tmp = [0; 4096];
    inverse_with(plane, transform, &mut tmp);
}

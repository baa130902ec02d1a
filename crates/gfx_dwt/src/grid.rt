ghost use Rattle.std.specs.Prelude.{pos, ◌≡◌, ℕ, ◌+◌, ◌*◌, ◌<◌, ◌≤◌, ◌^◌, length};
ghost use Rattle.gfx_dwt.specs.Joining.{behind, edged};
ghost use Rattle.gfx_dwt.specs.Place.{high_size};
ghost use Rattle.gfx_dwt.specs.Ranges.{AllWithin, at};
ghost use Rattle.gfx_dwt.specs.Samples.{cell, column};

use crate::layout::{Scale, Transform};

/// What stands behind the high half at the first level of reduce-extrapolate.
static NOUGHTS: [i32; 64] = [0; 64];

/// A row of a plane of this width.
#[inline(always)]
pub(crate) fn row(plane: &[i32], width: usize, index: usize) -> &[i32]
    requires { index * width + width ≤ length plane.now }
    ensures len { length result.now ≡ width }
    ensures each { (k : ℕ) → k < width → at result.now k ≡ cell width plane.now index k }
    ensures within { (bound : ℕ) → AllWithin bound plane.now → AllWithin bound result.now }
{
    let start = index * width;
    &plane[start..start + width]
}

#[inline(always)]
fn noughts(width: usize) -> &'static [i32]
    requires { width ≤ 64 }
    ensures len { length result.now ≡ width }
    ensures each { (k : ℕ) → at result.now k ≡ pos 0 }
    ensures within { (bound : ℕ) → AllWithin bound result.now }
{
    &NOUGHTS[..width]
}

/// The row that stands behind the end of a high half with this last row.
#[inline(always)]
#[tactic(auto, unfolding(crate::specs::Joining::behind))]
fn row_behind<'a>(transform: Transform, level: Scale, last: &'a [i32]) -> &'a [i32]
    requires { length last.now ≤ 64 }
    ensures len { length result.now ≡ length last.now }
    ensures each { (k : ℕ) → at result.now k ≡ behind transform level (at last.now k) }
    ensures within { (bound : ℕ) → AllWithin bound last.now → AllWithin bound result.now }
{
    match transform {
        Transform::Plain => last,
        Transform::Reduced => match level {
            Scale::First => noughts(last.len()),
            Scale::Second => last,
            Scale::Third => last,
        },
    }
}

/// A row of a high half, or what stands behind its end.
#[inline]
pub(crate) fn edge_row<'a>(
    transform: Transform,
    level: Scale,
    high: &'a [i32],
    width: usize,
    index: usize,
) -> &'a [i32]
    requires width { width ≤ 64 }
    requires high_len { length high.now ≡ high_size transform level * width }
    requires high { AllWithin (2 ^ 28) high.now }
    ensures len { length result.now ≡ width }
    ensures each { (k : ℕ) → k < width → at result.now k ≡ edged transform level (column width high.now k) index }
    ensures within { AllWithin (2 ^ 28) result.now }
{
    let size = level.high_size(transform);
    if index < size {
        row(high, width, index)
    } else {
        row_behind(transform, level, row(high, width, size - 1))
    }
}

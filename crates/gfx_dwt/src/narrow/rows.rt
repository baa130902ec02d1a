ghost use Rattle.std.specs.Prelude.{◌≡◌, ℕ, ◌+◌, ◌-◌, ◌*◌, ◌<◌, ◌≤◌, length};
ghost use Rattle.gfx_dwt.specs.Joining.{edged};
ghost use Rattle.gfx_dwt.specs.Lifting.{even_of, odd_of};
ghost use Rattle.gfx_dwt.specs.Place.{high_size, line_size, low_size};
ghost use Rattle.gfx_dwt.specs.Ranges.{AllWithin, Within};
ghost use Rattle.gfx_dwt.specs.Samples.{cell};

use crate::layout::{Scale, Transform};
use crate::narrow::grid::narrow_row;
use crate::narrow::lines::{put_edged, put_evens, put_line};

/// Writes each row of a high quarter with what stands in front of it and behind its end.
#[inline(always)]
pub(crate) fn edge_rows(
    transform: Transform,
    level: Scale,
    high: &[i16],
    edges: &mut [i16],
    rows: usize,
)
    requires rows { rows ≤ 64 }
    requires high_len { length high.now ≡ rows * high_size transform level }
    requires edges_len { length edges.old ≡ rows * (low_size transform level + 1) }
    requires high { AllWithin 8191 high.now }
    ensures { (r k : ℕ) → r < rows → k < low_size transform level + 1 → cell (low_size transform level + 1) edges.new r k ≡ edged transform level (cell (high_size transform level) high.now r) (k - 1) }
{
    let high_size = level.high_size(transform);
    let room = level.low_size(transform) + 1;
    for r in 0..rows {
        let start = r * room;
        put_edged(
            transform,
            level,
            narrow_row(high, high_size, r),
            &mut edges[start..start + room],
        );
    }
}

/// Writes the even samples of each row, and the last of them again.
#[inline(always)]
pub(crate) fn even_rows(
    transform: Transform,
    level: Scale,
    low: &[i16],
    edges: &[i16],
    evens: &mut [i16],
    rows: usize,
)
    requires rows { rows ≤ 64 }
    requires low_len { length low.now ≡ rows * low_size transform level }
    requires edges_len { length edges.now ≡ rows * (low_size transform level + 1) }
    requires evens_len { length evens.old ≡ rows * (low_size transform level + 1) }
    requires low { AllWithin 16382 low.now }
    requires edges { AllWithin 8191 edges.now }
    requires evens { (r k : ℕ) → r < rows → k < low_size transform level → Within 16382 (even_of transform (cell (low_size transform level) low.now r k) (cell (low_size transform level + 1) edges.now r k) (cell (low_size transform level + 1) edges.now r (k + 1))) }
    ensures each { (r k : ℕ) → r < rows → k < low_size transform level → cell (low_size transform level + 1) evens.new r k ≡ even_of transform (cell (low_size transform level) low.now r k) (cell (low_size transform level + 1) edges.now r k) (cell (low_size transform level + 1) edges.now r (k + 1)) }
    ensures last { (r : ℕ) → r < rows → cell (low_size transform level + 1) evens.new r (low_size transform level) ≡ cell (low_size transform level + 1) evens.new r (low_size transform level - 1) }
{
    let low_size = level.low_size(transform);
    let room = low_size + 1;
    for r in 0..rows {
        let start = r * room;
        put_evens(
            transform,
            narrow_row(low, low_size, r),
            narrow_row(edges, room, r),
            &mut evens[start..start + room],
        );
    }
}

/// Writes each row, from its high half with its edges and from its even samples with the last of them again.
#[inline(always)]
pub(crate) fn line_rows(
    transform: Transform,
    level: Scale,
    edges: &[i16],
    evens: &[i16],
    out: &mut [i16],
    rows: usize,
)
    requires rows { rows ≤ 64 }
    requires edges_len { length edges.now ≡ rows * (low_size transform level + 1) }
    requires evens_len { length evens.now ≡ rows * (low_size transform level + 1) }
    requires out_len { length out.old ≡ rows * line_size transform level }
    requires edges { AllWithin 8191 edges.now }
    requires evens { AllWithin 16382 evens.now }
    ensures evens { (r k : ℕ) → r < rows → 2 * k < line_size transform level → cell (line_size transform level) out.new r (2 * k) ≡ cell (low_size transform level + 1) evens.now r k }
    ensures odds { (r k : ℕ) → r < rows → 2 * k + 1 < line_size transform level → cell (line_size transform level) out.new r (2 * k + 1) ≡ odd_of transform (cell (low_size transform level + 1) edges.now r (k + 1)) (cell (low_size transform level + 1) evens.now r k) (cell (low_size transform level + 1) evens.now r (k + 1)) }
{
    let low_size = level.low_size(transform);
    let room = low_size + 1;
    let size = low_size + level.high_size(transform);
    for r in 0..rows {
        let start = r * size;
        put_line(
            transform,
            narrow_row(edges, room, r),
            narrow_row(evens, room, r),
            &mut out[start..start + size],
        );
    }
}

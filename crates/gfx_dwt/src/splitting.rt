ghost use Rattle.std.specs.Prelude.{◌≡◌, ℕ, ◌+◌, ◌-◌, ◌*◌, ◌<◌, ◌≤◌, ◌^◌, length, min};
ghost use Rattle.gfx_dwt.specs.Joining.{edged};
ghost use Rattle.gfx_dwt.specs.Lifting.{low_of};
ghost use Rattle.gfx_dwt.specs.Place.{high_size, line_size, low_size};
ghost use Rattle.gfx_dwt.specs.Ranges.{AllWithin, at};
ghost use Rattle.gfx_dwt.specs.Samples.{cell, column};
ghost use Rattle.gfx_dwt.specs.Splitting.{evens, grows, high_half, low_half};

use crate::grid::{edge_row, row};
use crate::halves::split_line;
use crate::kernels::{differ, divide, extend, smooth};
use crate::layout::{Scale, Transform};

/// Splits each row of a half plane into its quarters.
pub(crate) fn split_rows(
    transform: Transform,
    level: Scale,
    source: &[i32],
    low: &mut [i32],
    high: &mut [i32],
    rows: usize,
)
    requires rows { rows ≤ 64 }
    requires source_len { length source.now ≡ rows * line_size transform level }
    requires low_len { length low.old ≡ rows * low_size transform level }
    requires high_len { length high.old ≡ rows * high_size transform level }
    requires source { AllWithin (2 ^ 28) source.now }
    ensures lows { (r c : ℕ) → r < rows → c < low_size transform level → cell (low_size transform level) low.new r c ≡ low_half transform level (cell (line_size transform level) source.now r) c }
    ensures highs { (r c : ℕ) → r < rows → c < high_size transform level → cell (high_size transform level) high.new r c ≡ high_half transform level (cell (line_size transform level) source.now r) c }
    ensures low_within { (bound : ℕ) → AllWithin bound source.now → AllWithin (grows transform level * bound) low.new }
    ensures high_within { (bound : ℕ) → AllWithin bound source.now → AllWithin bound high.new }
{
    let low_size = level.low_size(transform);
    let high_size = level.high_size(transform);
    for r in 0..rows {
        let line = row(source, low_size + high_size, r);
        let start = r * low_size;
        let high_start = r * high_size;
        let low = &mut low[start..start + low_size];
        let high = &mut high[high_start..high_start + high_size];
        split_line(transform, level, line, low, high);
    }
}

/// Writes a row of the high half of a plane.
fn high_row(
    transform: Transform,
    level: Scale,
    source: &[i32],
    index: usize,
    out: &mut [i32],
    width: usize,
)
    requires width { width ≡ line_size transform level }
    requires index { index < high_size transform level }
    requires source_len { length source.now ≡ width * width }
    requires out_len { length out.old ≡ width }
    requires source { AllWithin (2 ^ 26) source.now }
    ensures { (c : ℕ) → c < width → at out.new c ≡ high_half transform level (column width source.now c) index }
{
    let next = (index + 1).min(level.low_size(transform) - 1);
    let left = row(source, width, 2 * index);
    let odd = row(source, width, 2 * index + 1);
    let right = row(source, width, 2 * next);
    differ(transform, out, odd, left, right);
}

/// Writes a row of the low half of a plane, whose high half is known.
fn low_row(
    transform: Transform,
    level: Scale,
    source: &[i32],
    high: &[i32],
    index: usize,
    out: &mut [i32],
    width: usize,
)
    requires width { width ≡ line_size transform level }
    requires index { index < low_size transform level }
    requires source_len { length source.now ≡ width * width }
    requires high_len { length high.now ≡ high_size transform level * width }
    requires out_len { length out.old ≡ width }
    requires source { AllWithin (2 ^ 26) source.now }
    requires high { AllWithin (2 ^ 28) high.now }
    ensures { (c : ℕ) → c < width → at out.new c ≡ low_of transform (evens transform level (column width source.now c) index) (edged transform level (column width high.now c) (index - 1)) (edged transform level (column width high.now c) index) }
{
    if 2 * index < width {
        let before = edge_row(transform, level, high, width, index.saturating_sub(1));
        let here = edge_row(transform, level, high, width, index);
        smooth(transform, out, row(source, width, 2 * index), before, here);
    } else {
        extend(
            out,
            row(source, width, width - 2),
            row(source, width, width - 1),
        );
    }
}

/// Writes a row of the high half of a plane and the row of the low half beside it.
#[inline(always)]
fn split_pair(
    transform: Transform,
    level: Scale,
    source: &[i32],
    index: usize,
    next: usize,
    known: &mut [i32],
    low: &mut [i32],
    high: &mut [i32],
    width: usize,
)
    requires width { width ≡ line_size transform level }
    requires index { index < high_size transform level }
    requires next { next ≡ min (index + 1) (low_size transform level - 1) }
    requires source_len { length source.now ≡ width * width }
    requires known_len { length known.old ≡ width }
    requires low_len { length low.old ≡ width }
    requires high_len { length high.old ≡ width }
    requires source { AllWithin (2 ^ 26) source.now }
    requires known { (c : ℕ) → c < width → at known.old c ≡ high_half transform level (column width source.now c) (index - 1) }
    ensures known { (c : ℕ) → c < width → at known.new c ≡ high_half transform level (column width source.now c) index }
    ensures lows { (c : ℕ) → c < width → at low.new c ≡ low_half transform level (column width source.now c) index }
    ensures highs { (c : ℕ) → c < width → at high.new c ≡ high_half transform level (column width source.now c) index }
{
    divide(
        transform,
        row(source, width, 2 * index),
        row(source, width, 2 * index + 1),
        row(source, width, 2 * next),
        known,
        high,
        low,
    );
}

/// Writes all rows of the high half of a plane, and the rows of the low half beside them.
fn split_pairs(
    transform: Transform,
    level: Scale,
    source: &[i32],
    low: &mut [i32],
    high: &mut [i32],
    width: usize,
)
    requires width { width ≡ line_size transform level }
    requires source_len { length source.now ≡ width * width }
    requires low_len { length low.old ≡ low_size transform level * width }
    requires high_len { length high.old ≡ high_size transform level * width }
    requires source { AllWithin (2 ^ 26) source.now }
    ensures lows { (r x : ℕ) → r < high_size transform level → x < width → cell width low.new r x ≡ low_half transform level (column width source.now x) r }
    ensures highs { (r x : ℕ) → r < high_size transform level → x < width → cell width high.new r x ≡ high_half transform level (column width source.now x) r }
{
    let mut room = [0; 64];
    let known = &mut room[..width];
    high_row(transform, level, source, 0, known, width);
    let last = level.high_size(transform) - 1;
    // The last pair stands alone, since behind it the next even row is not always two rows on.
    'pairs: for r in 0..last {
        let start = r * width;
        split_pair(
            transform,
            level,
            source,
            r,
            r + 1,
            known,
            &mut low[start..start + width],
            &mut high[start..start + width],
            width,
        );
    }
    let next = (last + 1).min(level.low_size(transform) - 1);
    let start = last * width;
    split_pair(
        transform,
        level,
        source,
        last,
        next,
        known,
        &mut low[start..start + width],
        &mut high[start..start + width],
        width,
    );
}

/// Splits each column of a plane into its halves, row by row over whole rows.
pub(crate) fn split_columns(
    transform: Transform,
    level: Scale,
    source: &[i32],
    low: &mut [i32],
    high: &mut [i32],
    width: usize,
)
    requires width { width ≡ line_size transform level }
    requires source_len { length source.now ≡ width * width }
    requires low_len { length low.old ≡ low_size transform level * width }
    requires high_len { length high.old ≡ high_size transform level * width }
    requires source { AllWithin (2 ^ 26) source.now }
    ensures lows { (r x : ℕ) → r < low_size transform level → x < width → cell width low.new r x ≡ low_half transform level (column width source.now x) r }
    ensures highs { (r x : ℕ) → r < high_size transform level → x < width → cell width high.new r x ≡ high_half transform level (column width source.now x) r }
    ensures low_within { (bound : ℕ) → AllWithin bound source.now → AllWithin (grows transform level * bound) low.new }
    ensures high_within { (bound : ℕ) → AllWithin bound source.now → AllWithin bound high.new }
{
    split_pairs(transform, level, source, low, high, width);
    'lows: for r in level.high_size(transform)..level.low_size(transform) {
        let start = r * width;
        low_row(
            transform,
            level,
            source,
            high,
            r,
            &mut low[start..start + width],
            width,
        );
    }
}

ghost use Rattle.std.specs.Prelude.{◌≡◌, ℕ, ◌+◌, ◌-◌, ◌*◌, ◌/◌, ◌%◌, ◌<◌, ◌≤◌, ◌^◌, ◌==◌, if◌then◌else◌, length};
ghost use Rattle.gfx_dwt.specs.Joining.{even, joined, odd};
ghost use Rattle.gfx_dwt.specs.Place.{high_size, line_size, low_size};
ghost use Rattle.gfx_dwt.specs.Ranges.{AllWithin, at};
ghost use Rattle.gfx_dwt.specs.Samples.{cell, column};

use crate::grid::{edge_row, row};
use crate::kernels::{lower, pair, raise};
use crate::layout::{Scale, Transform};
use crate::lines::join_line;

/// Joins each row of a low and of a high quarter.
pub(crate) fn join_rows(
    transform: Transform,
    level: Scale,
    low: &[i32],
    high: &[i32],
    out: &mut [i32],
    rows: usize,
)
    requires rows { rows ≤ 64 }
    requires low_len { length low.now ≡ rows * low_size transform level }
    requires high_len { length high.now ≡ rows * high_size transform level }
    requires out_len { length out.old ≡ rows * line_size transform level }
    requires low { AllWithin (2 ^ 26) low.now }
    requires high { AllWithin (2 ^ 26) high.now }
    ensures each { (r c : ℕ) → r < rows → c < line_size transform level → cell (line_size transform level) out.new r c ≡ joined transform level (cell (low_size transform level) low.now r) (cell (high_size transform level) high.now r) c }
    ensures within { AllWithin (2 ^ 28) out.new }
{
    let low_size = level.low_size(transform);
    let high_size = level.high_size(transform);
    let size = low_size + high_size;
    for r in 0..rows {
        let low = row(low, low_size, r);
        let high = row(high, high_size, r);
        let start = r * size;
        join_line(transform, level, low, high, &mut out[start..start + size]);
    }
}

/// Writes two rows behind a known even one: the odd row behind it, and the next even row.
fn join_pair(
    transform: Transform,
    level: Scale,
    low: &[i32],
    high: &[i32],
    place: usize,
    rows: &mut [i32],
    width: usize,
)
    requires width { width ≤ 64 }
    requires place { place + 1 < low_size transform level }
    requires low_len { length low.now ≡ low_size transform level * width }
    requires high_len { length high.now ≡ high_size transform level * width }
    requires rows_len { length rows.old ≡ 3 * width }
    requires low { AllWithin (2 ^ 28) low.now }
    requires high { AllWithin (2 ^ 28) high.now }
    requires above { (c : ℕ) → c < width → at rows.old c ≡ even transform level (column width low.now c) (column width high.now c) place }
    ensures above { (c : ℕ) → c < width → at rows.new c ≡ at rows.old c }
    ensures odds { (c : ℕ) → c < width → at rows.new (width + c) ≡ odd transform level (column width low.now c) (column width high.now c) place }
    ensures evens { (c : ℕ) → c < width → at rows.new (width + (width + c)) ≡ even transform level (column width low.now c) (column width high.now c) (place + 1) }
{
    let (above, rest) = rows.split_at_mut(width);
    let (odds, evens) = rest.split_at_mut(width);
    let here = edge_row(transform, level, high, width, place);
    let next = edge_row(transform, level, high, width, place + 1);
    pair(
        transform,
        above,
        odds,
        evens,
        row(low, width, place + 1),
        here,
        next,
    );
}

/// Writes the last row of a plane of even width, behind its last even row.
fn join_last(
    transform: Transform,
    level: Scale,
    low: &[i32],
    high: &[i32],
    place: usize,
    rows: &mut [i32],
    width: usize,
)
    requires width { width ≤ 64 }
    requires whole { 2 * place + 2 ≡ line_size transform level }
    requires low_len { length low.now ≡ low_size transform level * width }
    requires high_len { length high.now ≡ high_size transform level * width }
    requires rows_len { length rows.old ≡ 2 * width }
    requires low { AllWithin (2 ^ 28) low.now }
    requires high { AllWithin (2 ^ 28) high.now }
    requires above { (c : ℕ) → c < width → at rows.old c ≡ even transform level (column width low.now c) (column width high.now c) place }
    ensures above { (c : ℕ) → c < width → at rows.new c ≡ at rows.old c }
    ensures odds { (c : ℕ) → c < width → at rows.new (width + c) ≡ odd transform level (column width low.now c) (column width high.now c) place }
{
    let (above, odds) = rows.split_at_mut(width);
    let here = edge_row(transform, level, high, width, place);
    match transform {
        Transform::Plain => raise(transform, odds, here, above, above),
        Transform::Reduced => raise(transform, odds, here, above, row(low, width, place + 1)),
    }
}

/// Joins each column of the two halves of a plane, row by row over whole rows.
pub(crate) fn join_columns(
    transform: Transform,
    level: Scale,
    low: &[i32],
    high: &[i32],
    out: &mut [i32],
    width: usize,
)
    requires width { width ≡ line_size transform level }
    requires low_len { length low.now ≡ low_size transform level * width }
    requires high_len { length high.now ≡ high_size transform level * width }
    requires out_len { length out.old ≡ width * width }
    requires low { AllWithin (2 ^ 28) low.now }
    requires high { AllWithin (2 ^ 28) high.now }
    ensures { (y x : ℕ) → y < width → x < width → cell width out.new y x ≡ joined transform level (column width low.now x) (column width high.now x) y }
{
    let first = row(high, width, 0);
    lower(
        transform,
        &mut out[..width],
        row(low, width, 0),
        first,
        first,
    );
    for place in 0..(width - 1) / 2 {
        let start = 2 * place * width;
        join_pair(
            transform,
            level,
            low,
            high,
            place,
            &mut out[start..start + 3 * width],
            width,
        );
    }
    if width % 2 == 0 {
        let start = (width - 2) * width;
        join_last(
            transform,
            level,
            low,
            high,
            (width - 2) / 2,
            &mut out[start..start + 2 * width],
            width,
        );
    }
}

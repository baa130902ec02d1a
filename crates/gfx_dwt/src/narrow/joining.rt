ghost use Rattle.std.specs.Prelude.{◌≡◌, ℕ, ◌+◌, ◌-◌, ◌*◌, ◌/◌, ◌%◌, ◌<◌, ◌≤◌, ◌==◌, if◌then◌else◌, length};
ghost use Rattle.gfx_dwt.specs.Joining.{even, joined, odd};
ghost use Rattle.gfx_dwt.specs.Narrow.{AreSmall};
ghost use Rattle.gfx_dwt.specs.Place.{high_size, line_size, low_size};
ghost use Rattle.gfx_dwt.specs.Ranges.{AllWithin, at};
ghost use Rattle.gfx_dwt.specs.Samples.{cell, column};

use crate::layout::{Scale, Transform};
use crate::narrow::flat::join_flat;
use crate::narrow::grid::{narrow_edge_row, narrow_row};
use crate::narrow::kernels::{lower, pair, raise};
use crate::narrow::range::most_of;
use crate::narrow::rows::{edge_rows, even_rows, line_rows};

/// Joins each row of a low and of a high quarter, with room in spare memory. Each step is done for all rows before the
/// next one, so that what it reads was written long before: the processor waits for a number that it reads across two
/// writes just made.
#[inline(always)]
fn join_rows_of(
    transform: Transform,
    level: Scale,
    low: &[i16],
    high: &[i16],
    out: &mut [i16],
    rows: usize,
    spare: &mut [i16],
)
    requires rows { rows ≤ 64 }
    requires low_len { length low.now ≡ rows * low_size transform level }
    requires high_len { length high.now ≡ rows * high_size transform level }
    requires out_len { length out.old ≡ rows * line_size transform level }
    requires spare_len { 2 * (rows * (low_size transform level + 1)) ≤ length spare.old }
    requires small { AreSmall low.now high.now }
    ensures { (r c : ℕ) → r < rows → c < line_size transform level → cell (line_size transform level) out.new r c ≡ joined transform level (cell (low_size transform level) low.now r) (cell (high_size transform level) high.now r) c }
{
    let count = rows * (level.low_size(transform) + 1);
    let (edges, rest) = spare.split_at_mut(count);
    let (evens, _) = rest.split_at_mut(count);
    edge_rows(transform, level, high, edges, rows);
    even_rows(transform, level, low, edges, evens, rows);
    line_rows(transform, level, edges, evens, out, rows);
}

/// The same, in the plain transform for all rows as one list. The result is no less than the magnitude of any number that
/// is written. The sizes of the first level are known, so that it has loops of its own; those of the others aren't, since
/// the compiler unrolls short loops and then does one number at a time.
pub(crate) fn join_narrow_rows(
    transform: Transform,
    level: Scale,
    low: &[i16],
    high: &[i16],
    out: &mut [i16],
    rows: usize,
    spare: &mut [i16],
) -> u16
    requires rows { rows ≤ 64 }
    requires low_len { length low.now ≡ rows * low_size transform level }
    requires high_len { length high.now ≡ rows * high_size transform level }
    requires out_len { length out.old ≡ rows * line_size transform level }
    requires spare_len { 2 * (rows * (low_size transform level + 1)) ≤ length spare.old }
    requires small { AreSmall low.now high.now }
    ensures joined { (r c : ℕ) → r < rows → c < line_size transform level → cell (line_size transform level) out.new r c ≡ joined transform level (cell (low_size transform level) low.now r) (cell (high_size transform level) high.now r) c }
    ensures within { AllWithin result out.new }
{
    match (transform, level) {
        (Transform::Plain, Scale::First) => join_flat(Scale::First, low, high, out, rows, spare),
        (Transform::Plain, _) => join_flat(level, low, high, out, rows, spare),
        (Transform::Reduced, Scale::First) => {
            join_rows_of(
                Transform::Reduced,
                Scale::First,
                low,
                high,
                out,
                rows,
                spare,
            );
            most_of(out)
        }
        (Transform::Reduced, _) => {
            join_rows_of(Transform::Reduced, level, low, high, out, rows, spare);
            most_of(out)
        }
    }
}

/// Writes two rows behind a known even one: the odd row behind it, and the next even row.
#[inline(always)]
fn join_pair(
    transform: Transform,
    level: Scale,
    low: &[i16],
    high: &[i16],
    place: usize,
    rows: &mut [i16],
    width: usize,
)
    requires width { width ≤ 64 }
    requires place { place + 1 < low_size transform level }
    requires low_len { length low.now ≡ low_size transform level * width }
    requires high_len { length high.now ≡ high_size transform level * width }
    requires rows_len { length rows.old ≡ 3 * width }
    requires small { AreSmall low.now high.now }
    requires above { (c : ℕ) → c < width → at rows.old c ≡ even transform level (column width low.now c) (column width high.now c) place }
    ensures above { (c : ℕ) → c < width → at rows.new c ≡ at rows.old c }
    ensures odds { (c : ℕ) → c < width → at rows.new (width + c) ≡ odd transform level (column width low.now c) (column width high.now c) place }
    ensures evens { (c : ℕ) → c < width → at rows.new (width + (width + c)) ≡ even transform level (column width low.now c) (column width high.now c) (place + 1) }
{
    let (above, rest) = rows.split_at_mut(width);
    let (odds, evens) = rest.split_at_mut(width);
    let here = narrow_edge_row(transform, level, high, width, place);
    let next = narrow_edge_row(transform, level, high, width, place + 1);
    pair(
        transform,
        above,
        odds,
        evens,
        narrow_row(low, width, place + 1),
        here,
        next,
    );
}

/// Writes the last row of a plane of even width, behind its last even row.
#[inline(always)]
fn join_last(
    transform: Transform,
    level: Scale,
    low: &[i16],
    high: &[i16],
    place: usize,
    rows: &mut [i16],
    width: usize,
)
    requires width { width ≤ 64 }
    requires whole { 2 * place + 2 ≡ line_size transform level }
    requires low_len { length low.now ≡ low_size transform level * width }
    requires high_len { length high.now ≡ high_size transform level * width }
    requires rows_len { length rows.old ≡ 2 * width }
    requires small { AreSmall low.now high.now }
    requires above { (c : ℕ) → c < width → at rows.old c ≡ even transform level (column width low.now c) (column width high.now c) place }
    ensures above { (c : ℕ) → c < width → at rows.new c ≡ at rows.old c }
    ensures odds { (c : ℕ) → c < width → at rows.new (width + c) ≡ odd transform level (column width low.now c) (column width high.now c) place }
{
    let (above, odds) = rows.split_at_mut(width);
    let here = narrow_edge_row(transform, level, high, width, place);
    match transform {
        Transform::Plain => raise(transform, odds, here, above, above),
        Transform::Reduced => raise(
            transform,
            odds,
            here,
            above,
            narrow_row(low, width, place + 1),
        ),
    }
}

/// Joins each column of the two halves of a plane, row by row over whole rows.
#[inline(always)]
fn join_columns_of(
    transform: Transform,
    level: Scale,
    low: &[i16],
    high: &[i16],
    out: &mut [i16],
    width: usize,
)
    requires width { width ≡ line_size transform level }
    requires low_len { length low.now ≡ low_size transform level * width }
    requires high_len { length high.now ≡ high_size transform level * width }
    requires out_len { length out.old ≡ width * width }
    requires small { AreSmall low.now high.now }
    ensures { (y x : ℕ) → y < width → x < width → cell width out.new y x ≡ joined transform level (column width low.now x) (column width high.now x) y }
{
    let first = narrow_row(high, width, 0);
    lower(
        transform,
        &mut out[..width],
        narrow_row(low, width, 0),
        first,
        first,
    );
    for place in 0..(width - 1) / 2 {
        let start = 2 * place * width;
        join_pair(
            transform,
            level,
            low,
            high,
            place,
            &mut out[start..start + 3 * width],
            width,
        );
    }
    if width % 2 == 0 {
        let start = (width - 2) * width;
        join_last(
            transform,
            level,
            low,
            high,
            (width - 2) / 2,
            &mut out[start..start + 2 * width],
            width,
        );
    }
}

/// The same. Sizes are known in each of the cases, so that each has loops of its own.
pub(crate) fn join_narrow_columns(
    transform: Transform,
    level: Scale,
    low: &[i16],
    high: &[i16],
    out: &mut [i16],
    width: usize,
)
    requires width { width ≡ line_size transform level }
    requires low_len { length low.now ≡ low_size transform level * width }
    requires high_len { length high.now ≡ high_size transform level * width }
    requires out_len { length out.old ≡ width * width }
    requires small { AreSmall low.now high.now }
    ensures { (y x : ℕ) → y < width → x < width → cell width out.new y x ≡ joined transform level (column width low.now x) (column width high.now x) y }
{
    match (transform, level) {
        (Transform::Plain, Scale::First) => {
            join_columns_of(Transform::Plain, Scale::First, low, high, out, 64)
        }
        (Transform::Plain, Scale::Second) => {
            join_columns_of(Transform::Plain, Scale::Second, low, high, out, 32)
        }
        (Transform::Plain, Scale::Third) => {
            join_columns_of(Transform::Plain, Scale::Third, low, high, out, 16)
        }
        (Transform::Reduced, Scale::First) => {
            join_columns_of(Transform::Reduced, Scale::First, low, high, out, 64)
        }
        (Transform::Reduced, Scale::Second) => {
            join_columns_of(Transform::Reduced, Scale::Second, low, high, out, 33)
        }
        (Transform::Reduced, Scale::Third) => {
            join_columns_of(Transform::Reduced, Scale::Third, low, high, out, 17)
        }
    }
}

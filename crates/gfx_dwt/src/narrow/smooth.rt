ghost use Rattle.std.specs.Prelude.{◌≡◌, ℕ, ◌+◌, ◌-◌, ◌*◌, ◌/◌, ◌<◌, ◌≤◌, ◌+ℤ◌, length, min, pos};
ghost use Rattle.gfx_dwt.specs.Joining.{joined};
ghost use Rattle.gfx_dwt.specs.Lifting.{halved};
ghost use Rattle.gfx_dwt.specs.Place.{line_size, low_size};
ghost use Rattle.gfx_dwt.specs.Ranges.{AllWithin, at};
ghost use Rattle.gfx_dwt.specs.Samples.{cell, column};

use crate::layout::{Scale, Transform};
use crate::narrow::grid::narrow_row;
use crate::narrow::kernels::{amid, copy};
use crate::narrow::lines::{put_last, put_pairs};

/// Writes places, and the last of them again.
#[inline(always)]
fn put_with_last(places: &[i16], out: &mut [i16])
    requires some { 0 < length places.now }
    requires out_len { length out.old ≡ length places.now + 1 }
    requires places { AllWithin 16382 places.now }
    ensures each { (k : ℕ) → k < length places.now → at out.new k ≡ at places.now k }
    ensures last { at out.new (length places.now) ≡ at places.now (length places.now - 1) }
{
    let end = places.len();
    copy(places, &mut out[..end]);
    out[end] = places[end - 1];
}

/// Writes what lies half way between each place and the next.
#[inline(always)]
fn put_amid(transform: Transform, places: &[i16], out: &mut [i16])
    requires places_len { length out.old + 1 ≤ length places.now }
    requires places { AllWithin 16382 places.now }
    ensures { (k : ℕ) → k < length out.old → at out.new k ≡ halved transform (at places.now k +ℤ at places.now (k + 1)) }
{
    let count = out.len();
    amid(transform, out, &places[..count], &places[1..count + 1]);
}

/// Joins a line whose high half is nought, in places for its even and its odd samples.
#[inline(always)]
fn smooth_line_in(
    transform: Transform,
    level: Scale,
    low: &[i16],
    evens: &mut [i16],
    odds: &mut [i16],
    out: &mut [i16],
)
    requires low_len { length low.now ≡ low_size transform level }
    requires evens_len { length evens.old ≡ low_size transform level + 1 }
    requires odds_len { length odds.old ≡ line_size transform level / 2 }
    requires out_len { length out.old ≡ line_size transform level }
    requires low { AllWithin 16382 low.now }
    ensures { (k : ℕ) → k < length out.old → at out.new k ≡ joined transform level (at low.now) (λ n. pos 0) k }
{
    let count = odds.len();
    put_with_last(low, evens);
    put_amid(transform, evens, odds);
    put_pairs(evens, odds, out);
    put_last(out, 2 * count, evens[count]);
}

/// Joins a line whose high half is nought.
#[inline(always)]
fn smooth_line(transform: Transform, level: Scale, low: &[i16], out: &mut [i16])
    requires low_len { length low.now ≡ low_size transform level }
    requires out_len { length out.old ≡ line_size transform level }
    requires low { AllWithin 16382 low.now }
    ensures { (k : ℕ) → k < length out.old → at out.new k ≡ joined transform level (at low.now) (λ n. pos 0) k }
{
    let mut evens = [0; 34];
    let mut odds = [0; 32];
    let size = level.low_size(transform) + 1;
    let count = (level.low_size(transform) + level.high_size(transform)) / 2;
    smooth_line_in(
        transform,
        level,
        low,
        &mut evens[..size],
        &mut odds[..count],
        out,
    );
}

/// Joins each row of a low quarter beside which the high one is nought.
#[inline(always)]
fn smooth_rows_of(transform: Transform, level: Scale, low: &[i16], out: &mut [i16], rows: usize)
    requires rows { rows ≤ 64 }
    requires low_len { length low.now ≡ rows * low_size transform level }
    requires out_len { length out.old ≡ rows * line_size transform level }
    requires low { AllWithin 16382 low.now }
    ensures each { (r c : ℕ) → r < rows → c < line_size transform level → cell (line_size transform level) out.new r c ≡ joined transform level (cell (low_size transform level) low.now r) (λ n. pos 0) c }
    ensures within { AllWithin 16382 out.new }
{
    let low_size = level.low_size(transform);
    let size = low_size + level.high_size(transform);
    for r in 0..rows {
        let low = narrow_row(low, low_size, r);
        let start = r * size;
        smooth_line(transform, level, low, &mut out[start..start + size]);
    }
}

/// The same. The sizes of the first level are known, so that it has loops of its own; those of the others aren't, since
/// the compiler unrolls short loops and then does one number at a time.
pub(crate) fn smooth_rows(
    transform: Transform,
    level: Scale,
    low: &[i16],
    out: &mut [i16],
    rows: usize,
)
    requires rows { rows ≤ 64 }
    requires low_len { length low.now ≡ rows * low_size transform level }
    requires out_len { length out.old ≡ rows * line_size transform level }
    requires low { AllWithin 16382 low.now }
    ensures each { (r c : ℕ) → r < rows → c < line_size transform level → cell (line_size transform level) out.new r c ≡ joined transform level (cell (low_size transform level) low.now r) (λ n. pos 0) c }
    ensures within { AllWithin 16382 out.new }
{
    match (transform, level) {
        (Transform::Plain, Scale::First) => {
            smooth_rows_of(Transform::Plain, Scale::First, low, out, rows)
        }
        (Transform::Plain, _) => { smooth_rows_of(Transform::Plain, level, low, out, rows) }
        (Transform::Reduced, Scale::First) => {
            smooth_rows_of(Transform::Reduced, Scale::First, low, out, rows)
        }
        (Transform::Reduced, _) => { smooth_rows_of(Transform::Reduced, level, low, out, rows) }
    }
}

/// Writes a row and the one half way to the next.
#[inline(always)]
fn smooth_pair(transform: Transform, here: &[i16], next: &[i16], rows: &mut [i16], width: usize)
    requires here_len { length here.now ≡ width }
    requires next_len { length next.now ≡ width }
    requires rows_len { length rows.old ≡ 2 * width }
    requires here { AllWithin 16382 here.now }
    requires next { AllWithin 16382 next.now }
    ensures evens { (c : ℕ) → c < width → at rows.new c ≡ at here.now c }
    ensures odds { (c : ℕ) → c < width → at rows.new (width + c) ≡ halved transform (at here.now c +ℤ at next.now c) }
{
    let (evens, odds) = rows.split_at_mut(width);
    copy(here, evens);
    amid(transform, odds, here, next);
}

/// Joins each column of a plane whose lower half is nought, row by row over whole rows.
#[inline(always)]
fn smooth_columns_of(transform: Transform, level: Scale, low: &[i16], out: &mut [i16], width: usize)
    requires width { width ≡ line_size transform level }
    requires low_len { length low.now ≡ low_size transform level * width }
    requires out_len { length out.old ≡ width * width }
    requires low { AllWithin 16382 low.now }
    ensures { (y x : ℕ) → y < width → x < width → cell width out.new y x ≡ joined transform level (column width low.now x) (λ n. pos 0) y }
{
    let end = level.low_size(transform) - 1;
    'pairs: for place in 0..end {
        let start = 2 * place * width;
        smooth_pair(
            transform,
            narrow_row(low, width, place),
            narrow_row(low, width, place + 1),
            &mut out[start..start + 2 * width],
            width,
        );
    }
    'rest: for r in 2 * end..width {
        let start = r * width;
        copy(narrow_row(low, width, end), &mut out[start..start + width]);
    }
}

/// The same. The sizes of the first level are known, so that it has loops of its own; those of the others aren't, since
/// the compiler unrolls short loops and then does one number at a time.
pub(crate) fn smooth_columns(
    transform: Transform,
    level: Scale,
    low: &[i16],
    out: &mut [i16],
    width: usize,
)
    requires width { width ≡ line_size transform level }
    requires low_len { length low.now ≡ low_size transform level * width }
    requires out_len { length out.old ≡ width * width }
    requires low { AllWithin 16382 low.now }
    ensures { (y x : ℕ) → y < width → x < width → cell width out.new y x ≡ joined transform level (column width low.now x) (λ n. pos 0) y }
{
    match (transform, level) {
        (Transform::Plain, Scale::First) => {
            smooth_columns_of(Transform::Plain, Scale::First, low, out, 64)
        }
        (Transform::Plain, _) => { smooth_columns_of(Transform::Plain, level, low, out, width) }
        (Transform::Reduced, Scale::First) => {
            smooth_columns_of(Transform::Reduced, Scale::First, low, out, 64)
        }
        (Transform::Reduced, _) => { smooth_columns_of(Transform::Reduced, level, low, out, width) }
    }
}

//! Pixels that are put into cells, row by row in runs of at most 64.
ghost use Rattle.std.specs.Prelude.{◌≡◌, ◌≤◌, ◌<◌, ◌+◌, ◌-◌, ◌*◌, ◌%◌, length, slice_index_or, IsTrue};
ghost use Rattle.gfx_base.specs.Geometry.{lies_in, holds, width_of, height_of};
ghost use Rattle.gfx_surface.specs.Cells.{places};
ghost use Rattle.gfx_surface.specs.Picture.{shade, in_rect, no_pixel};
ghost use Rattle.gfx_surface.specs.Where.{WritesWhere, IsWholeCell, run_in};

use crate::cells::{CELL_PLACES, Grid, cell_start, place_of, run_at};
use crate::copies::{copy_run, copy_whole_run};
use gfx_base::{CELL_SIDE, Cell, Format, Pixel, Rect};

/// Puts pixels into a rectangle, row by row from its top, as this format keeps them: a whole cell at
/// once.
pub(crate) fn put_pixels(
    cells: &mut [Pixel],
    grid: Grid,
    rect: Rect,
    from: &[Pixel],
    format: Format,
)
    requires full { length cells.old ≡ places grid.width grid.height }
    requires inside { IsTrue (lies_in grid.width grid.height rect) }
    requires whole { length from.now ≡ width_of rect * height_of rect }
    ensures { WritesWhere grid.width grid.height (holds rect)
        (λ x y. shade format (in_rect rect from.now x y)) cells.old cells.new }
{
    if is_whole_cell(rect) {
        put_cell(cells, grid, rect, from, format);
    } else {
        put_rows(cells, grid, rect, from, format);
    }
}

/// Whether a rectangle is one cell, all of it on the surface.
fn is_whole_cell(rect: Rect) -> bool
    ensures { IsTrue result → IsWholeCell rect }
{
    (rect.left % CELL_SIDE == 0)
        & (rect.top % CELL_SIDE == 0)
        & (rect.width() == CELL_SIDE)
        & (rect.height() == CELL_SIDE)
}

/// Puts pixels into a whole cell.
fn put_cell(cells: &mut [Pixel], grid: Grid, rect: Rect, from: &[Pixel], format: Format)
    requires cell { IsWholeCell rect }
    requires full { length cells.old ≡ places grid.width grid.height }
    requires inside { IsTrue (lies_in grid.width grid.height rect) }
    requires whole { length from.now ≡ width_of rect * height_of rect }
    ensures { WritesWhere grid.width grid.height (holds rect)
        (λ x y. shade format (in_rect rect from.now x y)) cells.old cells.new }
{
    let cell = Cell {
        x: rect.left / CELL_SIDE,
        y: rect.top / CELL_SIDE,
    };
    copy_run(from, format, cells, cell_start(grid.width, cell));
}

/// Puts pixels into a rectangle, row by row from its top.
#[tactic(auto, using(std::proofs::lemmas::Nat::rows))]
fn put_rows(cells: &mut [Pixel], grid: Grid, rect: Rect, from: &[Pixel], format: Format)
    requires full { length cells.old ≡ places grid.width grid.height }
    requires inside { IsTrue (lies_in grid.width grid.height rect) }
    requires whole { length from.now ≡ width_of rect * height_of rect }
    ensures { WritesWhere grid.width grid.height (holds rect)
        (λ x y. shade format (in_rect rect from.now x y)) cells.old cells.new }
{
    let count = usize::from(rect.width());
    'rows: for i in 0..rect.height() {
        let start = usize::from(i) * count;
        let row = &from[start..start + count];
        put_row(cells, grid, rect.left, rect.top + i, row, format);
    }
}

/// Puts pixels into a row, from a column on, as this format keeps them: up to the border of a cell, and
/// from there on.
pub(crate) fn put_row(
    cells: &mut [Pixel],
    grid: Grid,
    x: u16,
    y: u16,
    from: &[Pixel],
    format: Format,
)
    requires full { length cells.old ≡ places grid.width grid.height }
    requires columns { x + length from.now ≤ grid.width }
    requires row { y < grid.height }
    ensures { WritesWhere grid.width grid.height (holds (run_in x y (length from.now)))
        (λ i _. shade format (slice_index_or from.now (i - x) no_pixel)) cells.old cells.new }
{
    let first = before_border(x).min(from.len());
    let (run, rest) = from.split_at(first);
    put_part(cells, grid, x, y, run, format);
    put_from_border(cells, grid, x + first as u16, y, rest, format);
}

/// Puts pixels into a row, from the border of a cell on: whole runs, and the rest.
fn put_from_border(cells: &mut [Pixel], grid: Grid, x: u16, y: u16, from: &[Pixel], format: Format)
    requires full { length cells.old ≡ places grid.width grid.height }
    requires columns { x + length from.now ≤ grid.width }
    requires row { y < grid.height }
    requires border { 0 < length from.now → x % 64 ≡ 0 }
    ensures { WritesWhere grid.width grid.height (holds (run_in x y (length from.now)))
        (λ i _. shade format (slice_index_or from.now (i - x) no_pixel)) cells.old cells.new }
{
    let whole = from.len() / 64 * 64;
    let (runs, rest) = from.split_at(whole);
    put_runs(cells, grid, x, y, runs, format);
    put_part(cells, grid, x + whole as u16, y, rest, format);
}

/// Puts whole runs into a row, from the border of a cell on.
// From run to run the place goes on by a cell: no address is reckoned anew.
fn put_runs(cells: &mut [Pixel], grid: Grid, x: u16, y: u16, from: &[Pixel], format: Format)
    requires full { length cells.old ≡ places grid.width grid.height }
    requires columns { x + length from.now ≤ grid.width }
    requires row { y < grid.height }
    requires border { 0 < length from.now → x % 64 ≡ 0 }
    requires whole { length from.now % 64 ≡ 0 }
    ensures { WritesWhere grid.width grid.height (holds (run_in x y (length from.now)))
        (λ i _. shade format (slice_index_or from.now (i - x) no_pixel)) cells.old cells.new }
{
    let mut done = 0;
    let mut place = place_of(grid.width, x, y);
    'runs: while done < from.len() {
        copy_whole_run(&from[done..done + 64], format, cells, place);
        done += 64;
        place += CELL_PLACES;
    }
}

/// Puts pixels into a row of one cell, from a column on.
fn put_part(cells: &mut [Pixel], grid: Grid, x: u16, y: u16, from: &[Pixel], format: Format)
    requires full { length cells.old ≡ places grid.width grid.height }
    requires columns { x + length from.now ≤ grid.width }
    requires one_cell { x % 64 + length from.now ≤ 64 }
    requires row { y < grid.height }
    ensures { WritesWhere grid.width grid.height (holds (run_in x y (length from.now)))
        (λ i _. shade format (slice_index_or from.now (i - x) no_pixel)) cells.old cells.new }
{
    if !from.is_empty() {
        let at = run_at(grid, x, y, from.len());
        copy_run(from, format, cells, at);
    }
}

/// How many columns there are before the next border of a cell, from this column on.
#[inline(always)]
fn before_border(x: u16) -> usize
    ensures border { (x + result) % 64 ≡ 0 }
    ensures few { x % 64 + result ≤ 64 }
{
    usize::from((CELL_SIDE - x % CELL_SIDE) % CELL_SIDE)
}

//! Rectangles of pixels taken to another place of the same cells: nothing is read after it was written.
ghost use Rattle.std.specs.Prelude.{◌≡◌, ◌≤◌, ◌<◌, ◌+◌, ◌-◌, ◌%◌, length, IsTrue};
ghost use Rattle.gfx_base.specs.Geometry.{lies_in, holds, moved};
ghost use Rattle.gfx_surface.specs.Cells.{places, kept_at};
ghost use Rattle.gfx_surface.specs.Where.{WritesWhere, run_in, taken_from};

use crate::cells::{Grid, left_in_cell, run_at};
use gfx_base::{Pixel, Point, Rect};

/// Takes a rectangle to a point of the same cells.
pub(crate) fn move_rect(cells: &mut [Pixel], grid: Grid, rect: Rect, to: Point)
    requires inside { IsTrue (lies_in grid.width grid.height rect) }
    requires fits { IsTrue (lies_in grid.width grid.height (moved rect to)) }
    requires full { length cells.old ≡ places grid.width grid.height }
    ensures { WritesWhere grid.width grid.height (holds (moved rect to)) (taken_from grid.width cells.old rect to) cells.old cells.new }
{
    if to.y <= rect.top {
        move_up(cells, grid, rect, to);
    } else {
        move_down(cells, grid, rect, to);
    }
}

/// The same, not downwards: from the top row on.
fn move_up(cells: &mut [Pixel], grid: Grid, rect: Rect, to: Point)
    requires inside { IsTrue (lies_in grid.width grid.height rect) }
    requires fits { IsTrue (lies_in grid.width grid.height (moved rect to)) }
    requires full { length cells.old ≡ places grid.width grid.height }
    requires up { to.y ≤ rect.top }
    ensures { WritesWhere grid.width grid.height (holds (moved rect to)) (taken_from grid.width cells.old rect to) cells.old cells.new }
{
    let count = usize::from(rect.width());
    'rows: for i in 0..rect.height() {
        move_row(cells, grid, rect.left, rect.top + i, to.x, to.y + i, count);
    }
}

/// The same, downwards: from the bottom row on.
fn move_down(cells: &mut [Pixel], grid: Grid, rect: Rect, to: Point)
    requires inside { IsTrue (lies_in grid.width grid.height rect) }
    requires fits { IsTrue (lies_in grid.width grid.height (moved rect to)) }
    requires full { length cells.old ≡ places grid.width grid.height }
    requires down { rect.top < to.y }
    ensures { WritesWhere grid.width grid.height (holds (moved rect to)) (taken_from grid.width cells.old rect to) cells.old cells.new }
{
    let count = usize::from(rect.width());
    let mut i = rect.height();
    'rows: while i > 0 {
        i -= 1;
        move_row(cells, grid, rect.left, rect.top + i, to.x, to.y + i, count);
    }
}

/// Takes so many columns of a row to a place of the same cells.
fn move_row(cells: &mut [Pixel], grid: Grid, left: u16, top: u16, x: u16, y: u16, pixels: usize)
    requires from_columns { left + pixels ≤ grid.width }
    requires from_row { top < grid.height }
    requires columns { x + pixels ≤ grid.width }
    requires row { y < grid.height }
    requires full { length cells.old ≡ places grid.width grid.height }
    ensures { WritesWhere grid.width grid.height (holds (run_in x y pixels))
        (λ i _. kept_at grid.width cells.old (i - x + left) top) cells.old cells.new }
{
    if x <= left {
        move_left(cells, grid, left, top, x, y, pixels);
    } else {
        move_right(cells, grid, left, top, x, y, pixels);
    }
}

/// The same, not to the right: from the first column on, in runs that lie in one cell at both places.
fn move_left(cells: &mut [Pixel], grid: Grid, left: u16, top: u16, x: u16, y: u16, pixels: usize)
    requires from_columns { left + pixels ≤ grid.width }
    requires from_row { top < grid.height }
    requires columns { x + pixels ≤ grid.width }
    requires row { y < grid.height }
    requires full { length cells.old ≡ places grid.width grid.height }
    requires leftward { x ≤ left }
    ensures { WritesWhere grid.width grid.height (holds (run_in x y pixels))
        (λ i _. kept_at grid.width cells.old (i - x + left) top) cells.old cells.new }
{
    let mut done = 0;
    'runs: while done < pixels {
        let (from_column, column) = (left + done as u16, x + done as u16);
        let both = left_in_cell(from_column).min(left_in_cell(column));
        let count = both.min(pixels - done);
        let start = run_at(grid, from_column, top, count);
        let place = run_at(grid, column, y, count);
        cells.copy_within(start..start + count, place);
        done += count;
    }
}

/// The same, to the right: from the last column on.
fn move_right(cells: &mut [Pixel], grid: Grid, left: u16, top: u16, x: u16, y: u16, pixels: usize)
    requires from_columns { left + pixels ≤ grid.width }
    requires from_row { top < grid.height }
    requires columns { x + pixels ≤ grid.width }
    requires row { y < grid.height }
    requires full { length cells.old ≡ places grid.width grid.height }
    requires rightward { left < x }
    ensures { WritesWhere grid.width grid.height (holds (run_in x y pixels))
        (λ i _. kept_at grid.width cells.old (i - x + left) top) cells.old cells.new }
{
    let mut rest = pixels;
    'runs: while rest > 0 {
        let last = (rest - 1) as u16;
        let both = upto_in_cell(left + last).min(upto_in_cell(x + last));
        let count = both.min(rest);
        rest -= count;
        let start = run_at(grid, left + rest as u16, top, count);
        let place = run_at(grid, x + rest as u16, y, count);
        cells.copy_within(start..start + count, place);
    }
}

/// How many columns of a cell there are up to this column.
#[inline(always)]
fn upto_in_cell(x: u16) -> usize
    ensures { result ≡ x % 64 + 1 }
{
    usize::from(x % 64) + 1
}

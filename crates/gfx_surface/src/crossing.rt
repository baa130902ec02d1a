//! Rectangles of pixels taken from the cells of one surface to those of another.
ghost use Rattle.std.specs.Prelude.{◌≡◌, ◌≤◌, ◌<◌, ◌+◌, ◌-◌, length, IsTrue};
ghost use Rattle.gfx_base.specs.Geometry.{lies_in, holds, moved};
ghost use Rattle.gfx_surface.specs.Cells.{places, kept_at};
ghost use Rattle.gfx_surface.specs.Picture.{shade};
ghost use Rattle.gfx_surface.specs.Where.{WritesWhere, run_in, taken_from};

use crate::cells::{Grid, left_in_cell, run_at};
use crate::copies::copy_run;
use gfx_base::{Format, Pixel, Point, Rect};

/// Takes a rectangle of cells to a point of other cells, as this format keeps it.
pub(crate) fn copy_rect(
    from: &[Pixel],
    from_grid: Grid,
    rect: Rect,
    format: Format,
    cells: &mut [Pixel],
    grid: Grid,
    to: Point,
)
    requires inside { IsTrue (lies_in from_grid.width from_grid.height rect) }
    requires from_full { length from.now ≡ places from_grid.width from_grid.height }
    requires fits { IsTrue (lies_in grid.width grid.height (moved rect to)) }
    requires full { length cells.old ≡ places grid.width grid.height }
    ensures { WritesWhere grid.width grid.height (holds (moved rect to))
        (λ x y. shade format (taken_from from_grid.width from.now rect to x y)) cells.old cells.new }
{
    let count = usize::from(rect.width());
    'rows: for i in 0..rect.height() {
        let at = Point {
            x: rect.left,
            y: rect.top + i,
        };
        let to = Point {
            x: to.x,
            y: to.y + i,
        };
        copy_row(from, from_grid, at, format, cells, grid, to, count);
    }
}

/// Takes so many columns of a row to a place of other cells, in runs that lie in one cell of each.
fn copy_row(
    from: &[Pixel],
    from_grid: Grid,
    at: Point,
    format: Format,
    cells: &mut [Pixel],
    grid: Grid,
    to: Point,
    pixels: usize,
)
    requires from_columns { at.x + pixels ≤ from_grid.width }
    requires from_row { at.y < from_grid.height }
    requires from_full { length from.now ≡ places from_grid.width from_grid.height }
    requires columns { to.x + pixels ≤ grid.width }
    requires row { to.y < grid.height }
    requires full { length cells.old ≡ places grid.width grid.height }
    ensures { WritesWhere grid.width grid.height (holds (run_in to.x to.y pixels))
        (λ x _. shade format (kept_at from_grid.width from.now (x - to.x + at.x) at.y)) cells.old cells.new }
{
    let mut done = 0;
    'runs: while done < pixels {
        let (from_column, column) = (at.x + done as u16, to.x + done as u16);
        let both = left_in_cell(from_column).min(left_in_cell(column));
        let count = both.min(pixels - done);
        let start = run_at(from_grid, from_column, at.y, count);
        let place = run_at(grid, column, to.y, count);
        copy_run(&from[start..start + count], format, cells, place);
        done += count;
    }
}

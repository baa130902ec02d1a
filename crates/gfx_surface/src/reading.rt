//! Rows that are read out of cells, in runs of at most 64.
ghost use Rattle.std.specs.Prelude.{◌≡◌, ℕ, ◌≤◌, ◌<◌, ◌+◌, ◌-◌, ◌*◌, length, slice_index_or, IsTrue};
ghost use Rattle.gfx_base.specs.Geometry.{lies_in, width_of, height_of, sized};
ghost use Rattle.gfx_base.specs.declared.pixel.Pixel.{Pixel as AnyPixel};
ghost use Rattle.gfx_surface.specs.Cells.{places, kept_at};
ghost use Rattle.gfx_surface.specs.Rows.{WritesRows, WritesRun};

use crate::cells::{Grid, left_in_cell, run_at};
use crate::copies::copy_run;
use gfx_base::{Format, Pixel, Rect};

/// Reads the pixels of a rectangle, row by row from its top.
#[tactic(auto, using(std::proofs::lemmas::Nat::rows))]
pub(crate) fn read_rect(cells: &[Pixel], grid: Grid, rect: Rect, out: &mut [Pixel])
    requires full { length cells.now ≡ places grid.width grid.height }
    requires inside { IsTrue (lies_in grid.width grid.height rect) }
    requires whole { length out.old ≡ width_of rect * height_of rect }
    ensures { WritesRows (width_of rect) (sized (width_of rect) (height_of rect))
        (λ x y. kept_at grid.width cells.now (x + rect.left) (y + rect.top)) out.old out.new }
{
    let count = usize::from(rect.width());
    'rows: for i in 0..rect.height() {
        let at = usize::from(i) * count;
        read_into(cells, grid, rect.left, rect.top + i, out, at, count);
    }
}

/// Reads so many columns of a row into a slice, from a place of it on.
fn read_into(
    cells: &[Pixel],
    grid: Grid,
    x: u16,
    y: u16,
    out: &mut [Pixel],
    at: usize,
    count: usize,
)
    requires full { length cells.now ≡ places grid.width grid.height }
    requires columns { x + count ≤ grid.width }
    requires row { y < grid.height }
    requires within { at + count ≤ length out.old }
    ensures { WritesRun at (at + count) (λ k. kept_at grid.width cells.now (x + (k - at)) y) out.old out.new }
{
    read_row(cells, grid, x, y, &mut out[at..at + count]);
}

/// Reads a piece of a row, from this column on.
pub(crate) fn read_row(cells: &[Pixel], grid: Grid, x: u16, y: u16, out: &mut [Pixel])
    requires full { length cells.now ≡ places grid.width grid.height }
    requires columns { x + length out.old ≤ grid.width }
    requires row { y < grid.height }
    ensures { (k : ℕ) (d : AnyPixel) → k < length out.old
        → slice_index_or out.new k d ≡ kept_at grid.width cells.now (x + k) y }
{
    let mut done = 0;
    'runs: while done < out.len() {
        let column = x + done as u16;
        let count = left_in_cell(column).min(out.len() - done);
        let at = run_at(grid, column, y, count);
        copy_run(&cells[at..at + count], Format::Argb, out, done);
        done += count;
    }
}

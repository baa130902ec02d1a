//! Pixels from their bytes: blue, green, red and alpha each.
ghost use Rattle.std.specs.Prelude.{◌≡◌, ◌≤◌, ◌<◌, ◌+◌, ◌-◌, ◌*◌, length, slice_index_or, IsTrue};
ghost use Rattle.gfx_base.specs.Geometry.{lies_in, holds, width_of, height_of};
ghost use Rattle.gfx_surface.specs.Cells.{places};
ghost use Rattle.gfx_surface.specs.Picture.{in_rect, raw_pixels, no_pixel};
ghost use Rattle.gfx_surface.specs.Rows.{WritesRun};
ghost use Rattle.gfx_surface.specs.Where.{WritesWhere, run_in};

use crate::cells::{Grid, left_in_cell, run_at};
use crate::colour::shaded;
use gfx_base::{BYTES_PER_PIXEL, Format, Pixel, Rect};

/// Puts the pixels of these bytes into a rectangle, row by row from its top, as this format keeps
/// them.
#[tactic(auto, using(std::proofs::lemmas::Nat::rows))]
pub(crate) fn put_raw(cells: &mut [Pixel], grid: Grid, rect: Rect, bytes: &[u8], format: Format)
    requires full { length cells.old ≡ places grid.width grid.height }
    requires inside { IsTrue (lies_in grid.width grid.height rect) }
    requires whole { length bytes.now ≡ BYTES_PER_PIXEL * (width_of rect * height_of rect) }
    ensures { WritesWhere grid.width grid.height (holds rect)
        (in_rect rect (raw_pixels format bytes.now)) cells.old cells.new }
{
    let count = usize::from(rect.width());
    'rows: for i in 0..rect.height() {
        let start = BYTES_PER_PIXEL * (usize::from(i) * count);
        let row = &bytes[start..start + BYTES_PER_PIXEL * count];
        put_raw_row(cells, grid, rect.left, rect.top + i, row, count, format);
    }
}

/// Puts so many pixels into a row, from a column on.
fn put_raw_row(
    cells: &mut [Pixel],
    grid: Grid,
    x: u16,
    y: u16,
    bytes: &[u8],
    pixels: usize,
    format: Format,
)
    requires full { length cells.old ≡ places grid.width grid.height }
    requires columns { x + pixels ≤ grid.width }
    requires row { y < grid.height }
    requires whole { length bytes.now ≡ BYTES_PER_PIXEL * pixels }
    ensures { WritesWhere grid.width grid.height (holds (run_in x y pixels))
        (λ i _. slice_index_or (raw_pixels format bytes.now) (i - x) no_pixel) cells.old cells.new }
{
    let mut done = 0;
    'runs: while done < pixels {
        let column = x + done as u16;
        let count = left_in_cell(column).min(pixels - done);
        let at = run_at(grid, column, y, count);
        let start = BYTES_PER_PIXEL * done;
        let run = &bytes[start..start + BYTES_PER_PIXEL * count];
        put_run(run, format, cells, at, count);
        done += count;
    }
}

/// Puts so many pixels at a place and those after it.
fn put_run(bytes: &[u8], format: Format, pixels: &mut [Pixel], at: usize, count: usize)
    requires within { at + count ≤ length pixels.old }
    requires whole { length bytes.now ≡ BYTES_PER_PIXEL * count }
    ensures { WritesRun at (at + count)
        (λ k. slice_index_or (raw_pixels format bytes.now) (k - at) no_pixel) pixels.old pixels.new }
{
    put_pixels(bytes, format, &mut pixels[at..at + count]);
}

/// Makes pixels those of these bytes, as this format keeps them.
fn put_pixels(bytes: &[u8], format: Format, pixels: &mut [Pixel])
    requires { length bytes.now ≡ BYTES_PER_PIXEL * length pixels.old }
    ensures { pixels.new ≡ raw_pixels format bytes.now }
{
    'pixels: for i in 0..pixels.len() {
        let at = BYTES_PER_PIXEL * i;
        let pixel = Pixel {
            b: bytes[at],
            g: bytes[at + 1],
            r: bytes[at + 2],
            a: bytes[at + 3],
        };
        pixels[i] = shaded(format, pixel);
    }
}

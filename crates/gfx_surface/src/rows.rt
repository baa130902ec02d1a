//! Pixels that stand row by row in one slice.
ghost use Rattle.std.specs.Prelude.{◌≡◌, ◌≤◌, ◌<◌, ◌+◌, ◌*◌, ◌^◌, length, IsTrue};
ghost use Rattle.gfx_base.specs.Geometry.{lies_in};
ghost use Rattle.gfx_surface.specs.Rows.{WritesRows, WritesRun};

use gfx_base::{Pixel, Rect};

/// How many columns rows have, and how many rows there are.
#[derive(Clone, Copy)]
pub struct Sides {
    pub width: usize,
    pub height: usize,
}

/// Gives the places of a rectangle this colour.
#[tactic(auto, using(std::proofs::lemmas::Nat::rows))]
pub(crate) fn fill_rows(pixels: &mut [Pixel], sides: Sides, rect: Rect, colour: Pixel)
    requires inside { IsTrue (lies_in sides.width sides.height rect) }
    requires full { length pixels.old ≡ sides.width * sides.height }
    ensures { WritesRows sides.width rect (λ _ _. colour) pixels.old pixels.new }
{
    let (left, right) = (usize::from(rect.left), usize::from(rect.right));
    // Row by row over whole runs, so that it vectorises.
    'rows: for y in rect.top..rect.bottom {
        let start = usize::from(y) * sides.width;
        fill_run(pixels, start + left, start + right, colour);
    }
}

/// Gives the places from one up to another this colour.
fn fill_run(pixels: &mut [Pixel], from: usize, to: usize, colour: Pixel)
    requires ordered { from ≤ to }
    requires within { to ≤ length pixels.old }
    ensures { WritesRun from to (λ _. colour) pixels.old pixels.new }
{
    pixels[from..to].fill(colour);
}

//! A part of a row of the output, put together.
ghost use Rattle.std.specs.Prelude.{◌≡◌, ◌≤◌, ◌<◌, ◌+◌, ◌-◌, drop, length, map, replicate, Some};
ghost use Rattle.std.specs.Option.{option_copied};
ghost use Rattle.gfx_base.specs.declared.format.Format.TheVariants.{Xrgb};
ghost use Rattle.gfx_surface.specs.Picture.{zero_colour, shade, row_of, run_of};
ghost use Rattle.gfx_surface_map.specs.Composed.{PaintsPart, PaintsRun};

use crate::place::Place;
use gfx_base::Pixel;
use gfx_surface::Surface;

/// What shows where no surface is.
const BLACK: Pixel = Pixel {
    b: 0,
    g: 0,
    r: 0,
    a: 255,
};

/// Makes a part of a row of the output black.
pub(crate) fn clear_part(out: &mut [Pixel])
    ensures { out.new ≡ replicate (length out.old) (zero_colour Xrgb) }
{
    out.fill(BLACK);
}

/// Paints a surface, if there is one, that stands at this place over a part of a row of the output, which begins
/// with this column.
pub(crate) fn paint_part(
    surface: Option<&Surface>,
    place: Place,
    left: u32,
    y: u32,
    out: &mut [Pixel],
)
    ensures { PaintsPart (option_copied surface.entry) place left y out.old out.new }
{
    if let Some(surface) = surface {
        paint_surface(surface, place, left, y, out);
    }
}

/// Paints a surface that stands at this place over a part of a row of the output.
fn paint_surface(surface: &Surface, place: Place, left: u32, y: u32, out: &mut [Pixel])
    ensures { PaintsPart (Some surface.now) place left y out.old out.new }
{
    let (_, height) = surface.size();
    let Some(row) = y.checked_sub(place.y) else {
        return;
    };
    if row < u32::from(height) {
        paint_run(surface, row as u16, place.x, left, out);
    }
}

/// Puts the opaque pixels of a surface's row, which begins with a column, into a part of a row, as far as they
/// reach into it.
fn paint_run(surface: &Surface, row: u16, x: u32, left: u32, out: &mut [Pixel])
    requires { row < surface.now.height }
    ensures { PaintsRun (drop (left - x) (row_of surface.now row)) (x - left) out.old out.new }
{
    let (width, _) = surface.size();
    let before = left.saturating_sub(x);
    let start = x.saturating_sub(left) as usize;
    if before < u32::from(width) && start < out.len() {
        let from = before as u16;
        let count = usize::from(width - from).min(out.len() - start);
        read_opaque(surface, from, row, &mut out[start..start + count]);
    }
}

/// Reads pixels of a surface's row, from a column on, and makes them opaque.
fn read_opaque(surface: &Surface, x: u16, row: u16, out: &mut [Pixel])
    requires row { row < surface.now.height }
    requires columns { x + length out.old ≤ surface.now.width }
    ensures { out.new ≡ map (shade Xrgb) (run_of surface.now x row (length out.old)) }
{
    surface.read_row(x, row, out);
    make_opaque(out);
}

/// Makes pixels opaque.
fn make_opaque(pixels: &mut [Pixel])
    ensures { pixels.new ≡ map (shade Xrgb) pixels.old }
{
    'pixels: for i in 0..pixels.len() {
        pixels[i] = opaque(pixels[i]);
    }
}

/// A colour that nothing shines through.
fn opaque(colour: Pixel) -> Pixel
    ensures { result ≡ shade Xrgb colour }
{
    Pixel { a: 255, ..colour }
}

//! The third layer of a stream: rectangles, each by a subcodec.
ghost use Rattle.std.specs.Prelude.{◌≡◌, ◌<◌, ◌≤◌, ◌+◌, ◌*◌, ◌^◌, length, map, IfOk};
ghost use Rattle.gfx_base.specs.Outcome.{Gives};
ghost use Rattle.gfx_clear_store.specs.Rings.{Rings};
ghost use Rattle.gfx_clear_bands.specs.Canvas.{on_canvas};
ghost use Rattle.gfx_base.specs.Colour.{opaque};
ghost use Rattle.gfx_clear.specs.Subcodecs.{overwritten, area_drawn, rows_drawn, subcodec, subcodecs};

use crate::area::{AREA, Area, area_at, decode};
use gfx_base::{Fault, Pixel, Rgb};
use std::alloc::Global;

/// Draws subcodecs in a picture of these sides to the end of the bytes.
pub(crate) fn draw_subcodecs(
    alloc: Global,
    bytes: &[u8],
    width: u16,
    height: u16,
    canvas: &mut [Pixel],
) -> Result<(), Fault>
    requires { length canvas.old ≡ width * height }
    ensures { (held : Rings) → Gives (λ _. on_canvas canvas.new held) result (subcodecs width height (on_canvas canvas.old held) bytes.now) }
{
    let mut rest = bytes;
    'subcodecs: while !rest.is_empty() {
        rest = match draw_subcodec(alloc, rest, width, height, canvas) {
            Ok(rest) => rest,
            Err(fault) => return Err(fault),
        };
    }
    Ok(())
}

/// Draws one subcodec, and returns the bytes behind it.
#[tactic(auto, unfolding(crate::specs::Subcodecs::subcodec, gfx_base::specs::Results::and_then))]
fn draw_subcodec<'a>(
    alloc: Global,
    bytes: &'a [u8],
    width: u16,
    height: u16,
    canvas: &mut [Pixel],
) -> Result<&'a [u8], Fault>
    requires { length canvas.old ≡ width * height }
    ensures subcodec { (held : Rings) → Gives (λ rest. (on_canvas canvas.new held, rest.now)) result (subcodec width height (on_canvas canvas.old held) bytes.now) }
    ensures shorter { IfOk result (λ rest. length rest.now < length bytes.now) }
{
    let area = match area_at(bytes, width, height) {
        Ok(area) => area,
        Err(refusal) => return Err(Fault::Refused(refusal)),
    };
    let (_, rest) = bytes.split_at(AREA);
    let (own, rest) = rest.split_at(area.size as usize);
    let count = u32::from(area.width) * u32::from(area.height);
    match decode(alloc, area.codec, count, own) {
        Ok(pixels) => {
            draw_area(&area, pixels.as_slice(), width, canvas);
            Ok(rest)
        }
        Err(fault) => Err(fault),
    }
}

/// Draws pixels in a rectangle of a picture of which each row has so many pixels.
fn draw_area(area: &Area, pixels: &[Rgb], across: u16, canvas: &mut [Pixel])
    requires whole { length pixels.now ≡ area.now.width * area.now.height }
    requires across { area.now.x + area.now.width ≤ across }
    requires down { across * (area.now.y + area.now.height) ≤ length canvas.old }
    requires few { length canvas.old < 2 ^ 32 }
    ensures { (held : Rings) → on_canvas canvas.new held ≡ area_drawn across area.now pixels.now (on_canvas canvas.old held) }
{
    let (across, width) = (usize::from(across), usize::from(area.width));
    let mut at = usize::from(area.y) * across + usize::from(area.x);
    let mut rest = pixels;
    'rows: for _ in 0..area.height {
        let (row, others) = rest.split_at(width);
        draw_row(at, row, canvas);
        rest = others;
        at += across;
    }
}

/// Draws a row at a place and those after it.
fn draw_row(at: usize, row: &[Rgb], canvas: &mut [Pixel])
    requires { at + length row.now ≤ length canvas.old }
    ensures { canvas.new ≡ overwritten at (map opaque row.now) canvas.old }
{
    paint_row(row, &mut canvas[at..at + row.len()]);
}

/// Makes pixels these colours, opaque.
fn paint_row(row: &[Rgb], out: &mut [Pixel])
    requires { length out.old ≡ length row.now }
    ensures { out.new ≡ map opaque row.now }
{
    'pixels: for i in 0..row.len() {
        out[i] = row[i].opaque();
    }
}

//! Pixels taken from one slice to another, as a format keeps them.
ghost use Rattle.std.specs.Prelude.{◌≡◌, ◌≤◌, ◌+◌, ◌-◌, length, map, slice_index_or, IsTrue};
ghost use Rattle.gfx_base.specs.declared.format.Format.TheVariants.{Xrgb};
ghost use Rattle.gfx_surface.specs.Picture.{AreOpaque, shade, no_pixel};
ghost use Rattle.gfx_surface.specs.Rows.{WritesRun};

use crate::colour::{OPAQUE, shaded};
use gfx_base::{Format, Pixel};

/// Puts pixels at a place and those after it, as this format keeps them.
pub(crate) fn copy_run(from: &[Pixel], format: Format, pixels: &mut [Pixel], at: usize)
    requires { at + length from.now ≤ length pixels.old }
    ensures { WritesRun at (at + length from.now)
        (λ k. slice_index_or (map (shade format) from.now) (k - at) no_pixel) pixels.old pixels.new }
{
    copy_pixels(from, format, &mut pixels[at..at + from.len()]);
}

/// The same with 64 pixels, a whole row of a cell.
// Inlined, with a length that is known: so each is a few moves of many pixels at a time.
#[inline(always)]
pub(crate) fn copy_whole_run(from: &[Pixel], format: Format, pixels: &mut [Pixel], at: usize)
    requires whole { length from.now ≡ 64 }
    requires within { at + 64 ≤ length pixels.old }
    ensures { WritesRun at (at + length from.now)
        (λ k. slice_index_or (map (shade format) from.now) (k - at) no_pixel) pixels.old pixels.new }
{
    keep_pixels(from, format, &mut pixels[at..at + 64]);
}

/// Makes pixels those of another slice, as this format keeps them, one by one.
#[inline(always)]
fn keep_pixels(from: &[Pixel], format: Format, pixels: &mut [Pixel])
    requires { length pixels.old ≡ length from.now }
    ensures { pixels.new ≡ map (shade format) from.now }
{
    match format {
        Format::Argb => pixels.copy_from_slice(from),
        Format::Xrgb => shade_pixels(from, pixels),
    }
}

/// Makes pixels those of another slice, as this format keeps them.
fn copy_pixels(from: &[Pixel], format: Format, pixels: &mut [Pixel])
    requires { length pixels.old ≡ length from.now }
    ensures { pixels.new ≡ map (shade format) from.now }
{
    match format {
        Format::Argb => pixels.copy_from_slice(from),
        Format::Xrgb => copy_opaque(from, pixels),
    }
}

/// Makes pixels those of another slice, without their alpha: all at once where they have none.
fn copy_opaque(from: &[Pixel], pixels: &mut [Pixel])
    requires { length pixels.old ≡ length from.now }
    ensures { pixels.new ≡ map (shade Xrgb) from.now }
{
    if are_opaque(from) {
        pixels.copy_from_slice(from);
    } else {
        shade_pixels(from, pixels);
    }
}

/// Whether nothing shines through any pixel.
// No early return: so it is done on many pixels at a time.
fn are_opaque(from: &[Pixel]) -> bool
    ensures { IsTrue result → AreOpaque from.now }
{
    let mut opaque = true;
    for i in 0..from.len() {
        opaque &= is_opaque(from[i]);
    }
    opaque
}

#[inline]
fn is_opaque(pixel: Pixel) -> bool
    ensures { IsTrue result → pixel.a ≡ 255 }
{
    pixel.a == OPAQUE
}

/// Makes pixels those of another slice, without their alpha.
#[inline(always)]
fn shade_pixels(from: &[Pixel], pixels: &mut [Pixel])
    requires { length pixels.old ≡ length from.now }
    ensures { pixels.new ≡ map (shade Xrgb) from.now }
{
    'pixels: for i in 0..from.len() {
        pixels[i] = shaded(Format::Xrgb, from[i]);
    }
}

//! Colours of pixels, and pixels of colours.
ghost use Rattle.std.specs.Prelude.{◌≡◌, true, List, length, map, IfOk};
ghost use Rattle.gfx_base.specs.declared.pixel.Pixel.{Pixel as AnyPixel};
ghost use Rattle.gfx_clear_bands.specs.Canvas.{is_drawn};
ghost use Rattle.gfx_clear.specs.Painting.{drawn_over};
ghost use Rattle.gfx_base.specs.Colour.{colour_of, opaque};

use gfx_base::{NoMemory, Pixel, Rgb};
use gfx_clear_bands::DRAWN;
use std::alloc::Global;

/// The colours of pixels.
pub(crate) fn colours_of(alloc: Global, pixels: &[Pixel]) -> Result<Vec<Rgb>, NoMemory>
    ensures { IfOk result (λ colours. colours.items ≡ map colour_of pixels.now) }
{
    let mut colours = Vec::with_capacity(alloc, pixels.len())?;
    'pixels: for pixel in pixels {
        colours.push_reserved(pixel.colour());
    }
    Ok(colours)
}

/// Opaque pixels of colours.
pub(crate) fn pixels_of(alloc: Global, colours: &[Rgb]) -> Result<Vec<Pixel>, NoMemory>
    ensures { IfOk result (λ pixels. pixels.items ≡ map opaque colours.now) }
{
    let mut pixels = Vec::with_capacity(alloc, colours.len())?;
    'colours: for colour in colours {
        pixels.push_reserved(colour.opaque());
    }
    Ok(pixels)
}

/// Draws over pixels where something is drawn on a canvas.
pub(crate) fn draw_over(pixels: &mut [Pixel], canvas: &[Pixel])
    requires { length canvas.now ≡ length pixels.old }
    ensures { pixels.new ≡ drawn_over pixels.old (map colour_of canvas.now) (map is_drawn canvas.now) }
{
    'pixels: for i in 0..pixels.len() {
        if canvas[i].a == DRAWN {
            pixels[i] = canvas[i];
        }
    }
}

/// Whether all pixels of a canvas are drawn.
pub(crate) fn is_all_drawn(canvas: &[Pixel]) -> bool
    ensures { result ≡ true → (pixels : List AnyPixel) → length pixels ≡ length canvas.now → drawn_over pixels (map colour_of canvas.now) (map is_drawn canvas.now) ≡ canvas.now }
{
    'pixels: for pixel in canvas {
        if pixel.a != DRAWN {
            return false;
        }
    }
    true
}

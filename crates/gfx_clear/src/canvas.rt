//! What a stream is drawn on before the surface is.
ghost use Rattle.std.specs.Prelude.{◌≡◌, ◌≤◌, length, map, OnOk};
ghost use Rattle.std.specs.Vec.{vec_len};
ghost use Rattle.gfx_clear.specs.Canvas.{blank};

use gfx_base::{NoMemory, Pixel};
use std::alloc::Global;

/// Room to draw in, as much as any stream took yet. What stands in it between streams means nothing.
#[derive(Drop)]
pub(crate) struct Canvas {
    /// The pixels that a stream draws; with layers, those that are drawn have alpha 255, and the others 0.
    pub(crate) pixels: Vec<Pixel>,
    /// The pixels of the surface under layers.
    pub(crate) background: Vec<Pixel>,
}

impl Canvas {
    /// No room yet.
    pub(crate) fn new(alloc: Global) -> Canvas {
        Canvas {
            pixels: Vec::new(alloc),
            background: Vec::new(alloc),
        }
    }
}

/// Makes room for so many pixels. It never gets less.
pub(crate) fn make_room(pixels: &mut Vec<Pixel>, count: usize) -> Result<(), NoMemory>
    ensures { OnOk result (count ≤ vec_len pixels.new) }
{
    if pixels.len() < count {
        pixels.resize(count, Pixel::default())?;
    }
    Ok(())
}

/// Makes a canvas show a background on which nothing is drawn.
pub(crate) fn begin(background: &[Pixel], canvas: &mut [Pixel])
    requires { length canvas.old ≡ length background.now }
    ensures { canvas.new ≡ map blank background.now }
{
    'pixels: for i in 0..background.len() {
        canvas[i] = blank(background[i]);
    }
}

/// A pixel that isn't drawn.
#[inline(always)]
fn blank(pixel: Pixel) -> Pixel
    ensures { result ≡ blank pixel }
{
    Pixel { a: 0, ..pixel }
}

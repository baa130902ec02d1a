//! What tiles are drawn on before a surface shows them.
use gfx_base::{CELL_SIDE, Format, NoMemory, Pixel};
use gfx_surface::Surface;
use std::alloc::Global;
use std::marker::Model;

/// A surface of one tile, from which tiles are drawn, and the pixels of a tile. Its sides and its format are always those of
/// `IsCanvas`; of what stands in it nothing is said between two tiles.
#[derive(Drop)]
pub(crate) struct Canvas {
    pub(crate) surface: Surface,
    pub(crate) pixels: [Pixel; 4096],
}

impl Model for Canvas {
    ghost use Rattle.gfx_surface.specs.Picture.{Picture};

    ghost Value = { Picture };

    ghost view = { λ canvas. canvas.surface };

    ghost use Rattle.gfx_prog_decode.specs.Canvas.{IsCanvas};

    ghost invariant = { λ canvas. IsCanvas canvas.surface };
}

impl Canvas {
    /// A canvas, for any number of tiles.
    pub(crate) fn new(alloc: Global) -> Result<Canvas, NoMemory> {
        Ok(Canvas {
            surface: Surface::new(alloc, CELL_SIDE, CELL_SIDE, Format::Argb)?,
            pixels: [Pixel::default(); 4096],
        })
    }
}

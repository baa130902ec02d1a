//! What tiles are read and drawn in before a surface shows them.
ghost use Rattle.std.specs.Prelude.{IfOk};
ghost use Rattle.gfx_rfx_video.specs.Inside.{IsCanvas};

use crate::colours::Samples;
use crate::planes::Planes;
use gfx_base::{CELL_SIDE, Format, NoMemory, Pixel};
use gfx_surface::Surface;
use std::alloc::Global;
use std::marker::Model;

/// A surface of one tile, from which parts of tiles are drawn, and what tiles are read and coloured in: one for all messages
/// of a decoder. Contracts see the surface's picture; of what else stands in it nothing is said between two tiles.
#[derive(Drop)]
pub(crate) struct Canvas {
    pub(crate) surface: Surface,
    pub(crate) pixels: [Pixel; 4096],
    pub(crate) values: [i16; 4096],
    pub(crate) planes: Planes,
    pub(crate) samples: Samples,
}

impl Model for Canvas {
    ghost use Rattle.gfx_surface.specs.Picture.{Picture};

    ghost Value = { Picture };

    ghost view = { λ canvas. canvas.surface };
}

impl Canvas {
    /// A canvas, for any number of tiles.
    pub(crate) fn new(alloc: Global) -> Result<Canvas, NoMemory>
        ensures { IfOk result IsCanvas }
    {
        Ok(Canvas {
            surface: Surface::new(alloc, CELL_SIDE, CELL_SIDE, Format::Argb)?,
            pixels: [Pixel::default(); 4096],
            values: [0; 4096],
            planes: Planes::new(),
            samples: Samples::new(),
        })
    }
}

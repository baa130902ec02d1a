//! The text of one surface.
ghost use Rattle.gfx_base.specs.Stream.{Writes, change};
ghost use Rattle.gfx_surface.specs.Picture.{row_of};
ghost use Rattle.gfx_report.specs.Texts.{rows_text, surface_text};

use crate::digits::PIXEL_DIGITS;
use crate::line::write_surface_line;
use crate::row::{PIECE, write_surface_row};
use gfx_base::{Failed, Pixel, Sink};
use gfx_surface::Surface;

/// Writes a surface: its line, and its rows.
pub(crate) fn write_surface<O: Sink>(id: u16, surface: &Surface, out: &mut O) -> Result<(), Failed>
    ensures { Writes result
        (change (O.faults out.old) (O.faults out.new) (O.held out.old) (O.held out.new))
        (surface_text id surface.now) }
{
    write_surface_line(id, surface, out)?;
    write_rows(surface, out)
}

/// Writes a surface's rows, from the top.
fn write_rows<O: Sink>(surface: &Surface, out: &mut O) -> Result<(), Failed>
    ensures { Writes result
        (change (O.faults out.old) (O.faults out.new) (O.held out.old) (O.held out.new))
        (rows_text (row_of surface.now) surface.now.height) }
{
    let (_, height) = surface.size();
    let mut pixels = [Pixel::default(); PIECE];
    let mut digits = [0; PIXEL_DIGITS * PIECE];
    'rows: for y in 0..height {
        write_surface_row(surface, y, &mut pixels, &mut digits, out)?;
    }
    Ok(())
}

//! The dump of the output.
ghost use Rattle.std.specs.Prelude.{◌≡◌, length};
ghost use Rattle.gfx_base.specs.Stream.{Writes, change};
ghost use Rattle.gfx_surface_map.specs.Composed.{output_row};
ghost use Rattle.gfx_report.specs.Reports.{Reports};
ghost use Rattle.gfx_report.specs.Texts.{output_text, rows_text};

use crate::digits::PIXEL_DIGITS;
use crate::fault::ReportFault;
use crate::line::write_output_line;
use crate::row::{PIECE, write_row};
use gfx_base::{Failed, Pixel, Sink};
use gfx_surface_map::SurfaceMap;
use std::alloc::Global;

/// Writes the output: a line with its sides, and a line for each row as `dump` has it. Before the first
/// reset there are no rows. It takes memory for one row, before anything is written; after a fault the
/// sink has gained a front of the text. The text is this project's own rule.
pub fn dump_output<O: Sink>(
    alloc: Global,
    surfaces: &SurfaceMap,
    out: &mut O,
) -> Result<(), ReportFault>
    ensures { Reports result
        (change (O.faults out.old) (O.faults out.new) (O.held out.old) (O.held out.new))
        (output_text surfaces.now.shown) }
{
    let (width, _) = surfaces.output_size();
    let Ok(mut row) = Vec::from_elem(alloc, Pixel::default(), width as usize) else {
        return Err(ReportFault::Memory);
    };
    match write_output(surfaces, &mut row, out) {
        Ok(()) => Ok(()),
        Err(Failed) => Err(ReportFault::Failed),
    }
}

/// Writes the output, row by row, by way of a row.
fn write_output<O: Sink>(
    surfaces: &SurfaceMap,
    row: &mut [Pixel],
    out: &mut O,
) -> Result<(), Failed>
    requires { length row.old ≡ surfaces.now.shown.output.width }
    ensures { Writes result
        (change (O.faults out.old) (O.faults out.new) (O.held out.old) (O.held out.new))
        (output_text surfaces.now.shown) }
{
    let (width, height) = surfaces.output_size();
    write_output_line(width, height, out)?;
    write_output_rows(surfaces, row, out)
}

/// Writes the output's rows, from the top.
fn write_output_rows<O: Sink>(
    surfaces: &SurfaceMap,
    row: &mut [Pixel],
    out: &mut O,
) -> Result<(), Failed>
    requires { length row.old ≡ surfaces.now.shown.output.width }
    ensures { Writes result
        (change (O.faults out.old) (O.faults out.new) (O.held out.old) (O.held out.new))
        (rows_text (output_row surfaces.now.shown) surfaces.now.shown.output.height) }
{
    let (_, height) = surfaces.output_size();
    let mut digits = [0; PIXEL_DIGITS * PIECE];
    'rows: for y in 0..height {
        surfaces.compose_row(y, row);
        write_row(row, &mut digits, out)?;
    }
    Ok(())
}

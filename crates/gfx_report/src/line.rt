//! The lines above the rows of a surface, and of the output.
ghost use Rattle.std.specs.Prelude.{◌≡◌};
ghost use Rattle.gfx_base.specs.Stream.{Writes, change};
ghost use Rattle.gfx_report.specs.Texts.{surface_line, output_line, sides_text, format_name};

use gfx_base::{Failed, Format, Sink, write_all};
use gfx_line::Line;
use gfx_surface::Surface;

/// Writes the line above a surface's rows.
pub(crate) fn write_surface_line<O: Sink>(
    id: u16,
    surface: &Surface,
    out: &mut O,
) -> Result<(), Failed>
    ensures { Writes result
        (change (O.faults out.old) (O.faults out.new) (O.held out.old) (O.held out.new))
        (surface_line id surface.now) }
{
    write_all(out, surface_line(id, surface).as_slice())
}

/// The line above a surface's rows.
#[tactic(auto, unfolding(crate::specs::Texts::surface_line))]
fn surface_line(id: u16, surface: &Surface) -> Line
    ensures { result ≡ surface_line id surface.now }
{
    let (width, height) = surface.size();
    let mut line = Line::new();
    line.put(b"surface ");
    line.put_u16(id);
    line.put(b" ");
    line.put_u16(width);
    line.put(b"x");
    line.put_u16(height);
    line.put(b" ");
    line.put(name_of(surface.format()));
    line.put(b"\n");
    line
}

/// Writes the line above the output's rows.
pub(crate) fn write_output_line<O: Sink>(width: u32, height: u32, out: &mut O) -> Result<(), Failed>
    ensures { Writes result
        (change (O.faults out.old) (O.faults out.new) (O.held out.old) (O.held out.new))
        (output_line width height) }
{
    write_all(out, output_line(width, height).as_slice())
}

/// The line above the output's rows.
#[tactic(auto, unfolding(crate::specs::Texts::output_line))]
fn output_line(width: u32, height: u32) -> Line
    ensures { result ≡ output_line width height }
{
    let mut line = Line::new();
    line.put(b"output ");
    line.put_u32(width);
    line.put(b"x");
    line.put_u32(height);
    line.put(b"\n");
    line
}

/// The name of a format.
fn name_of(format: Format) -> &'static [u8]
    ensures { result.now ≡ format_name format }
{
    match format {
        Format::Xrgb => b"xrgb",
        Format::Argb => b"argb",
    }
}

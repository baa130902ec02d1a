//! The line of a row of pixels.
ghost use Rattle.std.specs.Prelude.{◌≡◌, ◌<◌, ◌≤◌, ◌+◌, ◌*◌, length};
ghost use Rattle.std.specs.List.{flat_map};
ghost use Rattle.gfx_base.specs.Stream.{Writes, change};
ghost use Rattle.gfx_surface.specs.Picture.{row_of, run_of};
ghost use Rattle.gfx_report.specs.Texts.{pixel_digits, row_line};

use crate::digits::{PIXEL_DIGITS, fill_digits};
use gfx_base::{Failed, Pixel, Sink, write_all};
use gfx_surface::Surface;

/// How many pixels go to the sink in one piece.
pub const PIECE: usize = 2048;

/// Writes a row: the digits of its pixels and a newline.
pub(crate) fn write_row<O: Sink>(
    pixels: &[Pixel],
    digits: &mut [u8],
    out: &mut O,
) -> Result<(), Failed>
    requires { length digits.old ≡ PIXEL_DIGITS * PIECE }
    ensures { Writes result
        (change (O.faults out.old) (O.faults out.new) (O.held out.old) (O.held out.new)) (row_line pixels.now) }
{
    write_pixels(pixels, digits, out)?;
    write_all(out, b"\n")
}

/// Writes the digits of these pixels, piece by piece.
fn write_pixels<O: Sink>(pixels: &[Pixel], digits: &mut [u8], out: &mut O) -> Result<(), Failed>
    requires { length digits.old ≡ PIXEL_DIGITS * PIECE }
    ensures { Writes result
        (change (O.faults out.old) (O.faults out.new) (O.held out.old) (O.held out.new))
        (flat_map pixel_digits pixels.now) }
{
    let mut rest = pixels;
    'pieces: while !rest.is_empty() {
        let count = rest.len().min(PIECE);
        let (piece, after) = rest.split_at(count);
        write_piece(piece, &mut digits[..PIXEL_DIGITS * count], out)?;
        rest = after;
    }
    Ok(())
}

/// Writes a row of a surface: the digits of its pixels and a newline.
pub(crate) fn write_surface_row<O: Sink>(
    surface: &Surface,
    y: u16,
    pixels: &mut [Pixel],
    digits: &mut [u8],
    out: &mut O,
) -> Result<(), Failed>
    requires row { y < surface.now.height }
    requires pixels { length pixels.old ≡ PIECE }
    requires digits { length digits.old ≡ PIXEL_DIGITS * PIECE }
    ensures { Writes result
        (change (O.faults out.old) (O.faults out.new) (O.held out.old) (O.held out.new))
        (row_line (row_of surface.now y)) }
{
    write_runs(surface, y, pixels, digits, out)?;
    write_all(out, b"\n")
}

/// Writes the digits of a row of a surface, run by run.
fn write_runs<O: Sink>(
    surface: &Surface,
    y: u16,
    pixels: &mut [Pixel],
    digits: &mut [u8],
    out: &mut O,
) -> Result<(), Failed>
    requires row { y < surface.now.height }
    requires pixels { length pixels.old ≡ PIECE }
    requires digits { length digits.old ≡ PIXEL_DIGITS * PIECE }
    ensures { Writes result
        (change (O.faults out.old) (O.faults out.new) (O.held out.old) (O.held out.new))
        (flat_map pixel_digits (row_of surface.now y)) }
{
    let (width, _) = surface.size();
    let mut x = 0;
    'runs: while x < width {
        let count = usize::from(width - x).min(PIECE);
        let run = &mut pixels[..count];
        write_run(surface, x, y, run, &mut digits[..PIXEL_DIGITS * count], out)?;
        x += count as u16;
    }
    Ok(())
}

/// Writes the digits of as many pixels of a row as a slice has, read into it.
fn write_run<O: Sink>(
    surface: &Surface,
    x: u16,
    y: u16,
    pixels: &mut [Pixel],
    digits: &mut [u8],
    out: &mut O,
) -> Result<(), Failed>
    requires columns { x + length pixels.old ≤ surface.now.width }
    requires row { y < surface.now.height }
    requires digits { length digits.old ≡ PIXEL_DIGITS * length pixels.old }
    ensures { Writes result
        (change (O.faults out.old) (O.faults out.new) (O.held out.old) (O.held out.new))
        (flat_map pixel_digits (run_of surface.now x y (length pixels.old))) }
{
    surface.read_row(x, y, pixels);
    write_piece(pixels, digits, out)
}

/// Writes the digits of these pixels, made in a slice that is as long.
fn write_piece<O: Sink>(pixels: &[Pixel], digits: &mut [u8], out: &mut O) -> Result<(), Failed>
    requires { length digits.old ≡ PIXEL_DIGITS * length pixels.now }
    ensures { Writes result
        (change (O.faults out.old) (O.faults out.new) (O.held out.old) (O.held out.new))
        (flat_map pixel_digits pixels.now) }
{
    fill_digits(pixels, digits);
    write_all(out, digits)
}

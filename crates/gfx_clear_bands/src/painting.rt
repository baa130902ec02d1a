//! Bands painted on a canvas.
ghost use Rattle.std.specs.Prelude.{◌≡◌, ◌<◌, ◌≤◌, ◌+◌, ◌-◌, ◌*◌, length, ℕ, ◌^◌, IfOk};
ghost use Rattle.gfx_clear_store.specs.Rings.{Rings};
ghost use Rattle.gfx_clear_bands.specs.Canvas.{on_canvas};
ghost use Rattle.gfx_clear_bands.specs.Bands.{drawn_down, is_shaped, height_of, columns, one_band, bands, Draws};
ghost use Rattle.gfx_clear_bands.specs.Inner.{DrawsColumn, DrawsOn};

use crate::band::{Band, HEAD, band_head};
use crate::bar::{held_bar, read_bar};
use gfx_base::{Fault, Pixel, Refusal, Rgb};
use gfx_clear_store::{MOST_BAR, Store};

/// The alpha of what is drawn on a canvas.
pub const DRAWN: u8 = 255;

/// Reads bands of a picture of these sides to the end of the bytes, and paints their columns on its canvas,
/// where alpha 255 says that a pixel is drawn. It takes no memory. After a refusal the columns before the fault
/// are painted and kept.
pub fn paint_bands(
    store: &mut Store,
    bytes: &[u8],
    width: u16,
    height: u16,
    canvas: &mut [Pixel],
) -> Result<(), Fault>
    requires canvas { length canvas.old ≡ width * height }
    ensures bands { Draws result (on_canvas canvas.new store.new.held) (bands width height (on_canvas canvas.old store.old.held) bytes.now) }
    ensures marked { store.new.marked ≡ store.old.marked }
{
    let mut rest = bytes;
    'bands: while !rest.is_empty() {
        rest = match paint_band(store, rest, width, height, canvas) {
            Ok(rest) => rest,
            Err(refusal) => return Err(Fault::Refused(refusal)),
        };
    }
    Ok(())
}

/// Paints one band, and returns the bytes behind it.
fn paint_band<'a>(
    store: &mut Store,
    bytes: &'a [u8],
    width: u16,
    height: u16,
    canvas: &mut [Pixel],
) -> Result<&'a [u8], Refusal>
    requires canvas { length canvas.old ≡ width * height }
    ensures band { DrawsOn result (on_canvas canvas.new store.new.held) (one_band width height (on_canvas canvas.old store.old.held) bytes.now) }
    ensures marked { store.new.marked ≡ store.old.marked }
    ensures shorter { IfOk result (λ rest. length rest.now < length bytes.now) }
{
    let band = match band_head(bytes, width, height) {
        Ok(band) => band,
        Err(refusal) => return Err(refusal),
    };
    let (_, rest) = bytes.split_at(HEAD);
    paint_columns(store, rest, &band, width, canvas)
}

/// Paints the columns of a band, and returns the bytes behind them.
fn paint_columns<'a>(
    store: &mut Store,
    bytes: &'a [u8],
    band: &Band,
    width: u16,
    canvas: &mut [Pixel],
) -> Result<&'a [u8], Refusal>
    requires sides { band.now.left ≤ band.now.right }
    requires inside { band.now.right < width }
    requires rows { band.now.top ≤ band.now.bottom }
    requires low { band.now.bottom - band.now.top < MOST_BAR }
    requires canvas { width * (band.now.bottom + 1) ≤ length canvas.old }
    ensures columns { DrawsOn result (on_canvas canvas.new store.new.held)
        (columns width band.now (band.now.right + 1 - band.now.left) band.now.left (on_canvas canvas.old store.old.held) bytes.now) }
    ensures marked { store.new.marked ≡ store.old.marked }
    ensures shorter { IfOk result (λ rest. length rest.now ≤ length bytes.now) }
{
    let mut rest = bytes;
    let end = band.right + 1;
    'columns: for x in band.left..end {
        rest = match paint_column(store, rest, band, x, width, canvas) {
            Ok(rest) => rest,
            Err(refusal) => return Err(refusal),
        };
    }
    Ok(rest)
}

/// Paints one column of a band, and returns the bytes behind it.
fn paint_column<'a>(
    store: &mut Store,
    bytes: &'a [u8],
    band: &Band,
    x: u16,
    width: u16,
    canvas: &mut [Pixel],
) -> Result<&'a [u8], Refusal>
    requires rows { band.now.top ≤ band.now.bottom }
    requires low { band.now.bottom - band.now.top < MOST_BAR }
    requires x { x < width }
    requires canvas { width * (band.now.bottom + 1) ≤ length canvas.old }
    ensures column { DrawsColumn result width band.now x (on_canvas canvas.old store.old.held) (on_canvas canvas.new store.new.held) bytes.now }
    ensures marked { store.new.marked ≡ store.old.marked }
    ensures shorter { IfOk result (λ rest. length rest.now ≤ length bytes.now) }
{
    let height = band.bottom - band.top + 1;
    let across = usize::from(width);
    let at = usize::from(band.top) * across + usize::from(x);
    if let Some(held) = held_bar(store, bytes, height) {
        paint_down(across, at, held.pixels, canvas);
        return Ok(held.rest);
    }
    let read = match read_bar(store, bytes, height, band.background) {
        Ok(read) => read,
        Err(refusal) => return Err(refusal),
    };
    paint_down(across, at, read.pixels.as_slice(), canvas);
    Ok(read.rest)
}

/// Paints colours one below the other, the first at this place.
fn paint_down(width: usize, mut at: usize, colours: &[Rgb], canvas: &mut [Pixel])
    requires fits { width * length colours.now + at < 2 ^ 48 }
    requires within { (k : ℕ) → k < length colours.now → at + width * k < length canvas.old }
    ensures { (held : Rings) → on_canvas canvas.new held ≡ drawn_down width at colours.now (on_canvas canvas.old held) }
{
    'colours: for colour in colours {
        canvas[at] = colour.opaque();
        at += width;
    }
}

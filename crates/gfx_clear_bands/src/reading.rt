//! Bands read into a picture.
ghost use Rattle.std.specs.Prelude.{◌≡◌, ◌<◌, ◌≤◌, ◌+◌, ◌-◌, ◌*◌, length, ℕ, ◌^◌, IfOk};
ghost use Rattle.gfx_clear_store.specs.Rings.{Rings};
ghost use Rattle.gfx_clear_bands.specs.Bands.{drawing, drawn_down, is_shaped, height_of, columns, one_band, bands, Draws};
ghost use Rattle.gfx_clear_bands.specs.Inner.{DrawsColumn, DrawsOn};

use crate::band::{Band, HEAD, band_head};
use crate::bar::read_bar;
use gfx_base::{Fault, Refusal, Rgb};
use gfx_clear_store::{MOST_BAR, Store};

/// Reads bands of a picture of these sides to the end of the bytes, draws their columns, and notes what is
/// drawn. It takes no memory. After a refusal the columns before the fault are drawn and kept.
pub fn read_bands(
    store: &mut Store,
    bytes: &[u8],
    width: u16,
    height: u16,
    out: &mut [Rgb],
    drawn: &mut [bool],
) -> Result<(), Fault>
    requires out { length out.old ≡ width * height }
    requires drawn { length drawn.old ≡ width * height }
    ensures bands { Draws result (drawing out.new drawn.new store.new.held) (bands width height (drawing out.old drawn.old store.old.held) bytes.now) }
    ensures marked { store.new.marked ≡ store.old.marked }
{
    let mut rest = bytes;
    'bands: while !rest.is_empty() {
        rest = match read_band(store, rest, width, height, out, drawn) {
            Ok(rest) => rest,
            Err(refusal) => return Err(Fault::Refused(refusal)),
        };
    }
    Ok(())
}

/// Reads one band, and returns the bytes behind it.
fn read_band<'a>(
    store: &mut Store,
    bytes: &'a [u8],
    width: u16,
    height: u16,
    out: &mut [Rgb],
    drawn: &mut [bool],
) -> Result<&'a [u8], Refusal>
    requires out { length out.old ≡ width * height }
    requires drawn { length drawn.old ≡ width * height }
    ensures band { DrawsOn result (drawing out.new drawn.new store.new.held) (one_band width height (drawing out.old drawn.old store.old.held) bytes.now) }
    ensures marked { store.new.marked ≡ store.old.marked }
    ensures shorter { IfOk result (λ rest. length rest.now < length bytes.now) }
{
    let band = match band_head(bytes, width, height) {
        Ok(band) => band,
        Err(refusal) => return Err(refusal),
    };
    let (_, rest) = bytes.split_at(HEAD);
    read_columns(store, rest, &band, width, out, drawn)
}

/// Reads the columns of a band, and returns the bytes behind them.
fn read_columns<'a>(
    store: &mut Store,
    bytes: &'a [u8],
    band: &Band,
    width: u16,
    out: &mut [Rgb],
    drawn: &mut [bool],
) -> Result<&'a [u8], Refusal>
    requires sides { band.now.left ≤ band.now.right }
    requires inside { band.now.right < width }
    requires rows { band.now.top ≤ band.now.bottom }
    requires low { band.now.bottom - band.now.top < MOST_BAR }
    requires out { width * (band.now.bottom + 1) ≤ length out.old }
    requires drawn { length drawn.old ≡ length out.old }
    ensures columns { DrawsOn result (drawing out.new drawn.new store.new.held)
        (columns width band.now (band.now.right + 1 - band.now.left) band.now.left (drawing out.old drawn.old store.old.held) bytes.now) }
    ensures marked { store.new.marked ≡ store.old.marked }
    ensures shorter { IfOk result (λ rest. length rest.now ≤ length bytes.now) }
{
    let mut rest = bytes;
    let end = band.right + 1;
    'columns: for x in band.left..end {
        rest = match read_column(store, rest, band, x, width, out, drawn) {
            Ok(rest) => rest,
            Err(refusal) => return Err(refusal),
        };
    }
    Ok(rest)
}

/// Reads one column of a band, draws it, and returns the bytes behind it.
fn read_column<'a>(
    store: &mut Store,
    bytes: &'a [u8],
    band: &Band,
    x: u16,
    width: u16,
    out: &mut [Rgb],
    drawn: &mut [bool],
) -> Result<&'a [u8], Refusal>
    requires rows { band.now.top ≤ band.now.bottom }
    requires low { band.now.bottom - band.now.top < MOST_BAR }
    requires x { x < width }
    requires out { width * (band.now.bottom + 1) ≤ length out.old }
    requires drawn { length drawn.old ≡ length out.old }
    ensures column { DrawsColumn result width band.now x (drawing out.old drawn.old store.old.held) (drawing out.new drawn.new store.new.held) bytes.now }
    ensures marked { store.new.marked ≡ store.old.marked }
    ensures shorter { IfOk result (λ rest. length rest.now ≤ length bytes.now) }
{
    let height = band.bottom - band.top + 1;
    let read = match read_bar(store, bytes, height, band.background) {
        Ok(read) => read,
        Err(refusal) => return Err(refusal),
    };
    let at = usize::from(band.top) * usize::from(width) + usize::from(x);
    draw_down(usize::from(width), at, read.pixels.as_slice(), out, drawn);
    Ok(read.rest)
}

/// Draws pixels one below the other, the first at this place.
fn draw_down(width: usize, mut at: usize, pixels: &[Rgb], out: &mut [Rgb], drawn: &mut [bool])
    requires fits { width * length pixels.now + at < 2 ^ 48 }
    requires within { (k : ℕ) → k < length pixels.now → at + width * k < length out.old }
    requires drawn { length drawn.old ≡ length out.old }
    ensures { (held : Rings) → drawing out.new drawn.new held ≡ drawn_down width at pixels.now (drawing out.old drawn.old held) }
{
    'pixels: for pixel in pixels {
        out[at] = *pixel;
        drawn[at] = true;
        at += width;
    }
}

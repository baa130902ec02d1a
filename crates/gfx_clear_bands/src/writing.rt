//! Bands written from a picture.
ghost use Rattle.std.specs.Prelude.{◌≡◌, ◌<◌, ◌≤◌, ◌+◌, ◌*◌, length, OnOk, OnErr, slice_index_or, ◌^◌};
ghost use Rattle.gfx_clear_bands.specs.Writing.{black, head_bytes, columns_of, band_elements, elements, output, with_written, WritesPart};

use crate::column::{column_at, write_column};
use arrayvec::ArrayVec;
use gfx_base::{Bytes, NoMemory, Rgb};
use gfx_clear_store::{MOST_BAR, Store};

/// Writes a picture of these sides as bands. The rings take what reading the bands gives them. Without
/// memory the first columns are written and kept.
pub fn write_bands(
    store: &mut Store,
    pixels: &[Rgb],
    width: u16,
    height: u16,
    out: &mut Bytes,
) -> Result<(), NoMemory>
    requires width { 1 ≤ width }
    requires height { 1 ≤ height }
    requires pixels { length pixels.now ≡ width * height }
    ensures ok { OnOk result (output store.new out.new ≡ with_written (output store.old out.old) (elements width height pixels.now)) }
    ensures err { OnErr result (WritesPart (elements width height pixels.now) (output store.old out.old) (output store.new out.new)) }
{
    store.prepare();
    let mut top = 0;
    'bands: while top < height {
        let rows = (height - top).min(MOST_BAR as u16);
        match write_band(store, pixels, width, top, rows, out) {
            Ok(()) => top += rows,
            Err(fault) => return Err(fault),
        }
    }
    Ok(())
}

/// Writes so many rows from this one on as a band.
fn write_band(
    store: &mut Store,
    pixels: &[Rgb],
    width: u16,
    top: u16,
    rows: u16,
    out: &mut Bytes,
) -> Result<(), NoMemory>
    requires width { 1 ≤ width }
    requires some { 1 ≤ rows }
    requires rows { rows ≤ MOST_BAR }
    requires bottom { top + rows < 2 ^ 16 }
    requires pixels { width * (top + rows) ≤ length pixels.now }
    ensures ok { OnOk result (output store.new out.new ≡ with_written (output store.old out.old) (band_elements width pixels.now top rows)) }
    ensures err { OnErr result (WritesPart (band_elements width pixels.now top rows) (output store.old out.old) (output store.new out.new)) }
{
    let start = usize::from(top) * usize::from(width);
    let background = pixels[start];
    match out.append(head_bytes(width, top, rows, background).as_slice()) {
        Ok(()) => write_columns(store, pixels, width, start, rows, background, out),
        Err(fault) => Err(fault),
    }
}

/// Writes all columns of a band on its background.
fn write_columns(
    store: &mut Store,
    pixels: &[Rgb],
    width: u16,
    start: usize,
    rows: u16,
    background: Rgb,
    out: &mut Bytes,
) -> Result<(), NoMemory>
    requires rows { rows ≤ MOST_BAR }
    requires fits { start < 2 ^ 32 }
    requires some { 1 ≤ rows }
    requires pixels { start + width * rows ≤ length pixels.now }
    ensures ok { OnOk result (output store.new out.new ≡ with_written (output store.old out.old) (columns_of width pixels.now background rows start width)) }
    ensures err { OnErr result (WritesPart (columns_of width pixels.now background rows start width) (output store.old out.old) (output store.new out.new)) }
{
    'columns: for x in 0..width {
        let column = column_at(pixels, usize::from(width), start + usize::from(x), rows);
        match write_column(store, background, column.as_slice(), out) {
            Ok(()) => {}
            Err(fault) => return Err(fault),
        }
    }
    Ok(())
}

/// The head of a band over the whole width.
#[tactic(auto, unfolding(crate::specs::Writing::head_bytes))]
fn head_bytes(width: u16, top: u16, rows: u16, background: Rgb) -> ArrayVec<u8, 11>
    requires width { 1 ≤ width }
    requires rows { 1 ≤ rows }
    requires bottom { top + rows < 2 ^ 16 }
    ensures { result.items ≡ head_bytes width top rows background }
{
    let mut head = ArrayVec::new();
    // There is room for all of them.
    let _ = head.try_extend_from_slice(&u16::to_le_bytes(0));
    let _ = head.try_extend_from_slice(&(width - 1).to_le_bytes());
    let _ = head.try_extend_from_slice(&top.to_le_bytes());
    let _ = head.try_extend_from_slice(&(top + rows - 1).to_le_bytes());
    let _ = head.try_extend_from_slice(&[background.b, background.g, background.r]);
    head
}

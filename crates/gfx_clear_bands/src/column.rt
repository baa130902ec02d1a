//! One column of a picture, as a server sends it.
ghost use Rattle.std.specs.Prelude.{◌≡◌, ℕ, [], ◌∷◌, None, ◌≤◌, ◌<◌, ◌+◌, ◌*◌, ◌-◌, ◌^◌, ◌++◌, length, take, drop, OnOk, OnErr};
ghost use Rattle.std.specs.List.{flat_map};
ghost use Rattle.std.specs.Int.{w16, to_le_bytes};
ghost use Rattle.arrayvec.specs.ArrayVec.{array_vec_len};
ghost use Rattle.gfx_clear_bands.specs.Writing.{column, without_front, without_end, short_of, row_of, colour_bytes, sent, sent_bar};
ghost use Rattle.gfx_clear_store.specs.Rings.{with_mark};

use crate::bar::{keep, keep_short};
use crate::word::{HIT, OFF, SHORT_HIT};
use arrayvec::ArrayVec;
use gfx_base::{Bytes, NoMemory, Rgb};
use gfx_clear_store::{MOST_BAR, Store};

/// So many pixels of a picture, one below the other, the first at this place.
pub(crate) fn column_at(
    pixels: &[Rgb],
    width: usize,
    mut at: usize,
    rows: u16,
) -> ArrayVec<Rgb, MOST_BAR>
    requires rows { rows ≤ MOST_BAR }
    requires fits { width * rows + at < 2 ^ 48 }
    requires within { (k : ℕ) → k < rows → at + width * k < length pixels.now }
    ensures column { result.items ≡ column width pixels.now at rows }
    ensures height { array_vec_len result ≡ rows }
{
    let mut found = ArrayVec::new();
    'rows: for row in 0..rows {
        found.push(pixels[at]);
        at += width;
    }
    found
}

/// Writes a column on a background: as the least place that holds it, or as that of its short, or whole.
#[tactic(auto, unfolding(crate::specs::Writing::sent))]
pub(crate) fn write_column(
    store: &mut Store,
    background: Rgb,
    pixels: &[Rgb],
    out: &mut Bytes,
) -> Result<(), NoMemory>
    requires { length pixels.now ≤ MOST_BAR }
    ensures bytes { OnOk result (out.new ≡ out.old ++ (sent store.old.held background pixels.now).bytes) }
    ensures store { OnOk result (store.new ≡ with_mark (sent store.old.held background pixels.now).rings store.old.marked) }
    ensures kept { OnErr result (store.new ≡ store.old) }
    ensures same { OnErr result (out.new ≡ out.old) }
{
    match store.find_bar(pixels) {
        Some(place) => out.append(&(HIT + place).to_le_bytes()),
        None => write_short(store, background, pixels, out),
    }
}

/// Writes a column that no bar is.
fn write_short(
    store: &mut Store,
    background: Rgb,
    pixels: &[Rgb],
    out: &mut Bytes,
) -> Result<(), NoMemory>
    requires { length pixels.now ≤ MOST_BAR }
    ensures bytes { OnOk result (out.new ≡ out.old ++ (sent_bar store.old.held background pixels.now None).bytes) }
    ensures store { OnOk result (store.new ≡ with_mark (sent_bar store.old.held background pixels.now None).rings store.old.marked) }
    ensures kept { OnErr result (store.new ≡ store.old) }
    ensures same { OnErr result (out.new ≡ out.old) }
{
    let short = short_of(background, pixels);
    let on = row_of(background, pixels);
    match store.find_short(short) {
        Some(place) => out.append(short_hit(place, on).as_slice())?,
        None => {
            out.append(miss(on, short).as_slice())?;
            keep_short(store, short);
        }
    }
    keep(store, pixels);
    Ok(())
}

/// The bytes of a hit on a short.
fn short_hit(place: u16, on: u8) -> ArrayVec<u8, 3>
    requires { place < SHORT_HIT }
    ensures { result.items ≡ to_le_bytes w16 (SHORT_HIT + place) ++ on ∷ [] }
{
    let mut bytes = ArrayVec::new();
    // There is room for them.
    let _ = bytes.try_extend_from_slice(&(SHORT_HIT + place).to_le_bytes());
    bytes.push(on);
    bytes
}

/// The bytes of a miss.
fn miss(on: u8, short: &[Rgb]) -> ArrayVec<u8, 160>
    requires { on + length short.now ≤ MOST_BAR }
    ensures { result.items ≡ to_le_bytes w16 (on + OFF * (on + length short.now)) ++ flat_map colour_bytes short.now }
{
    let off = u16::from(on) + short.len() as u16;
    let mut bytes = ArrayVec::new();
    // There is room for them, and for three of each colour.
    let _ = bytes.try_extend_from_slice(&(u16::from(on) + OFF * off).to_le_bytes());
    'colours: for pixel in short {
        bytes.push(pixel.b);
        bytes.push(pixel.g);
        bytes.push(pixel.r);
    }
    bytes
}

/// A column from its first to its last pixel that isn't background.
fn short_of(background: Rgb, pixels: &[Rgb]) -> &[Rgb]
    ensures short { result.now ≡ short_of background pixels.now }
    ensures within { length result.now ≤ length pixels.now }
{
    let (_, back) = pixels.split_at(front_of(background, pixels));
    let (short, _) = back.split_at(end_of(background, back));
    short
}

/// The row where that begins, or 0 where there is none.
fn row_of(background: Rgb, pixels: &[Rgb]) -> u8
    requires { length pixels.now ≤ MOST_BAR }
    ensures row { result ≡ row_of background pixels.now }
    ensures within { result + length (short_of background pixels.now) ≤ length pixels.now }
{
    let front = front_of(background, pixels);
    if front == pixels.len() {
        0
    } else {
        front as u8
    }
}

/// How many pixels at the front are background.
fn front_of(background: Rgb, pixels: &[Rgb]) -> usize
    ensures front { drop result pixels.now ≡ without_front background pixels.now }
    ensures within { result ≤ length pixels.now }
{
    'front: for (row, pixel) in pixels.iter().enumerate() {
        if *pixel != background {
            return row;
        }
    }
    pixels.len()
}

/// How many pixels stand before the background at the end.
fn end_of(background: Rgb, pixels: &[Rgb]) -> usize
    ensures end { take result pixels.now ≡ without_end background pixels.now }
    ensures within { result ≤ length pixels.now }
{
    let mut end = pixels.len();
    'end: while end > 0 {
        if pixels[end - 1] != background {
            return end;
        }
        end -= 1;
    }
    end
}

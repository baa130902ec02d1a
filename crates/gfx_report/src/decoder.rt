//! The bytes of what a ClearCodec decoder holds, as a hasher takes them in.
ghost use Rattle.std.specs.Prelude.{◌≡◌, Some, is_some};
ghost use Rattle.std.specs.Option.{option_map};
ghost use Rattle.gfx_clear_store.specs.Rings.{AreRings};
ghost use Rattle.gfx_glyph.specs.Glyphs.{slot_at};
ghost use Rattle.gfx_report.specs.Audit.{places_held, glyphs_held};
ghost use Rattle.gfx_report.specs.Hashing.{Took};
ghost use Rattle.gfx_report.specs.StateBytes.{place_bytes, ring_bytes, glyph_bytes, glyphs_bytes, clear_bytes};

use crate::colours::add_colours;
use crate::hashing::add_sides;
use gfx_base::Rgb;
use gfx_clear::ClearState;
use gfx_clear_store::Store;
use gfx_glyph::Glyphs;
use sha2::{Digest, Sha256};

/// The indices of glyphs are below this ([MS-RDPEGFX] 2.2.4.1, glyphIndex).
pub const INDICES: u16 = 4000;

/// Adds what a decoder holds: the bars, the shorts, the glyphs and the two cursors.
pub(crate) fn add_decoder(decoder: &ClearState, hasher: &mut Sha256)
    ensures { Took hasher.old hasher.new (clear_bytes decoder.now.rings decoder.now.glyphs) }
{
    let (bars, shorts) = decoder.cursors();
    add_bars(decoder.store(), hasher);
    add_shorts(decoder.store(), hasher);
    add_glyphs(decoder.glyphs(), INDICES, hasher);
    hasher.update(bars.to_le_bytes());
    hasher.update(shorts.to_le_bytes());
}

/// Adds the bars, by ascending place, up to where nothing was ever written, and gives how many there are.
pub(crate) fn add_bars(store: &Store, hasher: &mut Sha256) -> u16
    requires { AreRings store.now.held }
    ensures took { Took hasher.old hasher.new (ring_bytes 0 store.now.held.bars.slots) }
    ensures held { result ≡ places_held store.now.held.bars.slots }
{
    let (bars, _) = store.written();
    let mut held = 0;
    'places: for place in 0..bars {
        held += u16::from(add_place(place, store.bar(place), hasher));
    }
    held
}

/// Adds the shorts, by ascending place, up to where nothing was ever written, and gives how many there are.
pub(crate) fn add_shorts(store: &Store, hasher: &mut Sha256) -> u16
    requires { AreRings store.now.held }
    ensures took { Took hasher.old hasher.new (ring_bytes 0 store.now.held.shorts.slots) }
    ensures held { result ≡ places_held store.now.held.shorts.slots }
{
    let (_, shorts) = store.written();
    let mut held = 0;
    'places: for place in 0..shorts {
        held += u16::from(add_place(place, store.short(place), hasher));
    }
    held
}

/// Adds a place of a ring, if it was ever written, and gives whether it was.
#[inline(always)]
fn add_place(place: u16, slot: Option<&[Rgb]>, hasher: &mut Sha256) -> bool
    ensures took { Took hasher.old hasher.new (place_bytes place (option_map (λ pixels. pixels.now) slot.entry)) }
    ensures held { result ≡ is_some slot.entry }
{
    match slot {
        Some(pixels) => {
            add_column(place, pixels, hasher);
            true
        }
        None => false,
    }
}

/// Adds the pixels that stand at a place.
fn add_column(place: u16, pixels: &[Rgb], hasher: &mut Sha256)
    ensures { Took hasher.old hasher.new (place_bytes place (Some pixels.now)) }
{
    hasher.update(place.to_le_bytes());
    // No ring holds a column of 256 pixels or more.
    hasher.update([(pixels.len() % 256) as u8]);
    add_colours(pixels, hasher);
}

/// Adds the glyphs of so many indices, ascending, and gives how many there are.
pub(crate) fn add_glyphs(glyphs: &Glyphs, count: u16, hasher: &mut Sha256) -> u16
    ensures took { Took hasher.old hasher.new (glyphs_bytes count glyphs.now) }
    ensures held { result ≡ glyphs_held count glyphs.now }
{
    let mut held = 0;
    'indices: for index in 0..count {
        held += u16::from(add_index(glyphs, index, hasher));
    }
    held
}

/// Adds an index, if a glyph is held there, and gives whether one is.
#[inline(always)]
fn add_index(glyphs: &Glyphs, index: u16, hasher: &mut Sha256) -> bool
    ensures took { Took hasher.old hasher.new (glyph_bytes index (slot_at glyphs.now index)) }
    ensures held { result ≡ is_some (slot_at glyphs.now index) }
{
    match glyphs.get(index) {
        Some(glyph) => {
            hasher.update(index.to_le_bytes());
            add_sides(glyph.width, glyph.height, hasher);
            add_colours(glyph.pixels.as_slice(), hasher);
            true
        }
        None => false,
    }
}

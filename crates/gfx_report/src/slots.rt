//! The lines of the filled slots.
ghost use Rattle.std.specs.Prelude.{◌≡◌};
ghost use Rattle.std.specs.FinMap.{len};
ghost use Rattle.gfx_base.specs.Stream.{Writes, change};
ghost use Rattle.gfx_bitmap_cache.specs.Slots.{entry, image_of};
ghost use Rattle.gfx_report.specs.Audit.{slots_line, slot_line, slot_lines, slots_text};
ghost use Rattle.gfx_report.specs.StateBytes.{pixels_bytes};
ghost use Rattle.sha2.specs.Sha256.{sha256};

use crate::hashing::add_pixels;
use crate::hexadecimal::{put_digest, put_key};
use gfx_base::{Bitmap, Failed, Pixel, Sink, write_all};
use gfx_bitmap_cache::Cache;
use gfx_line::Line;
use sha2::{Digest, Sha256};

/// Writes how many slots are filled, and a line for each, ascending.
pub(crate) fn write_slots<O: Sink>(cache: &Cache, out: &mut O) -> Result<(), Failed>
    ensures { Writes result
        (change (O.faults out.old) (O.faults out.new) (O.held out.old) (O.held out.new))
        (slots_text cache.now.slots) }
{
    write_all(out, slots_line(cache).as_slice())?;
    write_filled(cache, out)
}

/// The line that says how many slots are filled.
#[tactic(auto, unfolding(crate::specs::Audit::slots_line))]
fn slots_line(cache: &Cache) -> Line
    ensures { result ≡ slots_line cache.now.slots }
{
    let mut line = Line::new();
    line.put(b"slots ");
    line.put_u16(count_filled(cache));
    line.put(b"\n");
    line
}

/// How many slots are filled.
fn count_filled(cache: &Cache) -> u16
    ensures { result ≡ len cache.now.slots }
{
    let mut count = 0;
    let mut from = 0;
    'slots: while let Some(slot) = cache.next_slot(from) {
        count += 1;
        from = slot + 1;
    }
    count
}

/// Writes a line for each filled slot, ascending.
fn write_filled<O: Sink>(cache: &Cache, out: &mut O) -> Result<(), Failed>
    ensures { Writes result
        (change (O.faults out.old) (O.faults out.new) (O.held out.old) (O.held out.new))
        (slot_lines cache.now.slots) }
{
    let mut from = 0;
    'slots: while let Some(slot) = cache.next_slot(from) {
        let key = cache.key(slot).unwrap();
        let bitmap = cache.show(slot).unwrap();
        write_slot(slot, key, bitmap, out)?;
        from = slot + 1;
    }
    Ok(())
}

/// Writes the line of a filled slot.
fn write_slot<O: Sink>(slot: u16, key: u64, bitmap: &Bitmap, out: &mut O) -> Result<(), Failed>
    ensures { Writes result
        (change (O.faults out.old) (O.faults out.new) (O.held out.old) (O.held out.new))
        (slot_line slot (entry key (image_of bitmap.now))) }
{
    write_all(out, slot_line(slot, key, bitmap).as_slice())
}

/// The line of a filled slot.
#[tactic(auto, unfolding(crate::specs::Audit::slot_line))]
fn slot_line(slot: u16, key: u64, bitmap: &Bitmap) -> Line
    ensures { result ≡ slot_line slot (entry key (image_of bitmap.now)) }
{
    let mut line = Line::new();
    line.put(b"slot ");
    line.put_u16(slot);
    line.put(b" ");
    line.put_u16(bitmap.width);
    line.put(b"x");
    line.put_u16(bitmap.height);
    line.put(b" ");
    put_key(key, &mut line);
    line.put(b" ");
    put_digest(&digest_of(bitmap.pixels.as_slice()), &mut line);
    line.put(b"\n");
    line
}

/// The SHA-256 of pixels.
fn digest_of(pixels: &[Pixel]) -> [u8; 32]
    ensures { result ≡ sha256 (pixels_bytes pixels.now) }
{
    let mut hasher = Sha256::new();
    add_pixels(pixels, &mut hasher);
    hasher.finalize()
}

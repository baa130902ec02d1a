//! The lines of what a ClearCodec decoder holds.
ghost use Rattle.std.specs.Prelude.{◌≡◌, ◌+◌, ◌≤◌, ◌++◌, length, codes, decimal};
ghost use Rattle.gfx_base.specs.Stream.{Writes, change};
ghost use Rattle.gfx_clear_store.specs.Rings.{AreRings};
ghost use Rattle.gfx_glyph.specs.declared.glyphs.TheConstants.{PLACES};
ghost use Rattle.gfx_report.specs.Audit.{bars_line, shorts_line, glyphs_line, decoder_text, held_text, places_held, glyphs_held};
ghost use Rattle.gfx_report.specs.StateBytes.{ring_bytes, glyphs_bytes};
ghost use Rattle.sha2.specs.Sha256.{sha256};

use crate::decoder::{INDICES, add_bars, add_glyphs, add_shorts};
use crate::hexadecimal::put_digest;
use gfx_base::{Failed, Sink, write_all};
use gfx_clear::ClearState;
use gfx_glyph::Glyphs;
use gfx_line::{LINE_ROOM, Line};
use sha2::{Digest, Sha256};

/// How many bytes a count and a digest have at most, as `put_held` appends them.
const MOST_HELD: usize = 71;

/// How many bytes the name of a ring has at most, with the blank behind it.
const MOST_NAME: usize = 7;

/// What is held of one kind.
#[derive(Clone, Copy)]
struct Held {
    /// How many there are.
    count: u16,
    /// The SHA-256 of their bytes.
    digest: [u8; 32],
}

/// Writes the lines of the bars, the shorts and the glyphs.
pub(crate) fn write_stores<O: Sink>(decoder: &ClearState, out: &mut O) -> Result<(), Failed>
    ensures { Writes result
        (change (O.faults out.old) (O.faults out.new) (O.held out.old) (O.held out.new))
        (decoder_text decoder.now.rings decoder.now.glyphs) }
{
    write_all(out, bars_line(decoder).as_slice())?;
    write_all(out, shorts_line(decoder).as_slice())?;
    write_all(out, glyphs_line(decoder.glyphs()).as_slice())
}

/// The line of the bars.
#[tactic(auto, unfolding(crate::specs::Audit::bars_line))]
fn bars_line(decoder: &ClearState) -> Line
    ensures { result ≡ bars_line decoder.now.rings }
{
    let (cursor, _) = decoder.cursors();
    ring_line(b"bars ", cursor, held_bars(decoder))
}

/// The line of the shorts.
#[tactic(auto, unfolding(crate::specs::Audit::shorts_line))]
fn shorts_line(decoder: &ClearState) -> Line
    ensures { result ≡ shorts_line decoder.now.rings }
{
    let (_, cursor) = decoder.cursors();
    ring_line(b"shorts ", cursor, held_shorts(decoder))
}

/// The line of a ring: its name, its cursor and what it holds.
fn ring_line(name: &[u8], cursor: u16, held: Held) -> Line
    requires { length name.now ≤ MOST_NAME }
    ensures { result ≡ name.now ++ (decimal cursor ++ (codes " " ++ held_text held.count held.digest)) }
{
    let mut line = Line::new();
    line.put(name);
    line.put_u16(cursor);
    line.put(b" ");
    put_held(held, &mut line);
    line
}

/// The line of the glyphs.
#[tactic(auto, unfolding(crate::specs::Audit::glyphs_line))]
fn glyphs_line(glyphs: &Glyphs) -> Line
    ensures { result ≡ glyphs_line glyphs.now }
{
    let mut line = Line::new();
    line.put(b"glyphs ");
    put_held(held_glyphs(glyphs), &mut line);
    line
}

/// Appends what is held, and ends the line.
fn put_held(held: Held, line: &mut Line)
    requires { length line.old + MOST_HELD ≤ LINE_ROOM }
    ensures { line.new ≡ line.old ++ held_text held.count held.digest }
{
    line.put_u16(held.count);
    line.put(b" ");
    put_digest(&held.digest, line);
    line.put(b"\n");
}

/// The bars.
fn held_bars(decoder: &ClearState) -> Held
    requires { AreRings decoder.now.rings }
    ensures count { result.count ≡ places_held decoder.now.rings.bars.slots }
    ensures digest { result.digest ≡ sha256 (ring_bytes 0 decoder.now.rings.bars.slots) }
{
    let mut hasher = Sha256::new();
    let count = add_bars(decoder.store(), &mut hasher);
    let digest = hasher.finalize();
    Held { count, digest }
}

/// The shorts.
fn held_shorts(decoder: &ClearState) -> Held
    requires { AreRings decoder.now.rings }
    ensures count { result.count ≡ places_held decoder.now.rings.shorts.slots }
    ensures digest { result.digest ≡ sha256 (ring_bytes 0 decoder.now.rings.shorts.slots) }
{
    let mut hasher = Sha256::new();
    let count = add_shorts(decoder.store(), &mut hasher);
    let digest = hasher.finalize();
    Held { count, digest }
}

/// The glyphs.
fn held_glyphs(glyphs: &Glyphs) -> Held
    ensures count { result.count ≡ glyphs_held PLACES glyphs.now }
    ensures digest { result.digest ≡ sha256 (glyphs_bytes PLACES glyphs.now) }
{
    let mut hasher = Sha256::new();
    let count = add_glyphs(glyphs, INDICES, &mut hasher);
    let digest = hasher.finalize();
    Held { count, digest }
}

//! Streams as a server writes them.
ghost use Rattle.std.specs.Prelude.{◌≡◌, ◌<◌, ◌≤◌, ◌+◌, ◌*◌, ◌^◌, ◌++◌, length, IfOk, OnErr, OnOk};
ghost use Rattle.gfx_clear.specs.Sending.{use_of, head_bytes, message, part_as, part_bytes, rings_after, sent_as};
ghost use Rattle.gfx_clear.specs.Inner.{MayUse};

use crate::head::{GLYPH_HIT, GLYPH_INDEX, GlyphUse};
use crate::layer::Layer;
use crate::part::{part_as, put_part};
use arrayvec::ArrayVec;
use gfx_base::{Bytes, Cause, NoMemory, Rgb};
use gfx_clear_store::Store;
use gfx_glyph::Glyphs;
use std::alloc::Global;

/// The most pixels of a picture that is sent.
pub const MOST_PIXELS: u32 = 8_388_608;

/// What a stream of a picture does with an index.
pub(crate) fn use_of(
    glyphs: &Glyphs,
    index: Option<u16>,
    width: u16,
    height: u16,
    pixels: &[Rgb],
) -> GlyphUse
    requires { length pixels.now ≡ width * height }
    ensures { result ≡ use_of index width height pixels.now glyphs.now }
{
    match index {
        None => GlyphUse::Unused,
        Some(index) => {
            if glyphs.holds(index, width, height, pixels) {
                GlyphUse::Shows { index }
            } else {
                GlyphUse::Stores { index }
            }
        }
    }
}

/// The stream of a picture whose use of an index is known. The rings and the glyphs take what decoding it
/// gives them; without memory the glyphs stay as they were, and the caller rolls the rings back.
pub(crate) fn encode_as(
    alloc: Global,
    store: &mut Store,
    glyphs: &mut Glyphs,
    sequence: u8,
    glyph: GlyphUse,
    layer: Layer,
    pixels: &[Rgb],
    width: u16,
    height: u16,
) -> Result<Bytes, NoMemory>
    requires width { 1 ≤ width }
    requires height { 1 ≤ height }
    requires few { width * height ≤ MOST_PIXELS }
    requires pixels { length pixels.now ≡ width * height }
    requires glyph { MayUse (width * height) glyph }
    ensures ok { IfOk result (λ bytes. message bytes store.new.held glyphs.new sequence ≡ sent_as glyph layer store.old.held glyphs.old sequence width height pixels.now) }
    ensures err { OnErr result (glyphs.new ≡ glyphs.old) }
    ensures marked { store.new.marked ≡ store.old.marked }
    ensures small { IfOk result (λ bytes. length bytes ≤ 5 * length pixels.now + 20000) }
{
    match glyph {
        GlyphUse::Shows { .. } => started(alloc, glyph, sequence),
        GlyphUse::Unused => {
            with_layer(alloc, store, sequence, glyph, layer, pixels, width, height)
        }
        GlyphUse::Stores { index } => {
            let out = with_layer(alloc, store, sequence, glyph, layer, pixels, width, height)?;
            match glyphs.store(index, width, height, pixels) {
                Ok(()) => Ok(out),
                Err(Cause::Memory) => Err(NoMemory),
                Err(Cause::Refused(_)) => unreachable!(),
            }
        }
    }
}

/// A stream with its head alone.
fn started(alloc: Global, glyph: GlyphUse, sequence: u8) -> Result<Bytes, NoMemory>
    ensures { IfOk result (λ bytes. bytes ≡ head_bytes glyph sequence) }
{
    let mut out = Bytes::new(alloc);
    out.append(head_bytes(glyph, sequence).as_slice())?;
    Ok(out)
}

/// A head, and a picture by a layer.
fn with_layer(
    alloc: Global,
    store: &mut Store,
    sequence: u8,
    glyph: GlyphUse,
    layer: Layer,
    pixels: &[Rgb],
    width: u16,
    height: u16,
) -> Result<Bytes, NoMemory>
    requires width { 1 ≤ width }
    requires height { 1 ≤ height }
    requires few { width * height ≤ MOST_PIXELS }
    requires pixels { length pixels.now ≡ width * height }
    ensures ok { IfOk result (λ bytes. bytes ≡ head_bytes glyph sequence ++ part_bytes width height (part_as layer store.old.held width height pixels.now)) }
    ensures store { OnOk result (store.new.held ≡ rings_after layer store.old.held width height pixels.now) }
    ensures marked { store.new.marked ≡ store.old.marked }
    ensures small { IfOk result (λ bytes. length bytes ≤ 5 * length pixels.now + 20000) }
{
    let mut out = started(alloc, glyph, sequence)?;
    put_layer(alloc, store, layer, pixels, width, height, &mut out)?;
    Ok(out)
}

/// Appends a picture by a layer.
fn put_layer(
    alloc: Global,
    store: &mut Store,
    layer: Layer,
    pixels: &[Rgb],
    width: u16,
    height: u16,
    out: &mut Bytes,
) -> Result<(), NoMemory>
    requires width { 1 ≤ width }
    requires height { 1 ≤ height }
    requires few { width * height ≤ MOST_PIXELS }
    requires pixels { length pixels.now ≡ width * height }
    ensures ok { OnOk result (out.new ≡ out.old ++ part_bytes width height (part_as layer store.old.held width height pixels.now)) }
    ensures store { OnOk result (store.new.held ≡ rings_after layer store.old.held width height pixels.now) }
    ensures marked { store.new.marked ≡ store.old.marked }
    ensures small { OnOk result (length out.new ≤ length out.old + 5 * length pixels.now + 19000) }
{
    let part = part_as(alloc, store, layer, pixels, width, height)?;
    put_part(&part, width, height, out)?;
    Ok(())
}

/// The head of a stream.
fn head_bytes(glyph: GlyphUse, sequence: u8) -> ArrayVec<u8, 4>
    ensures { result.items ≡ head_bytes glyph sequence }
{
    let mut head = ArrayVec::new();
    match glyph {
        GlyphUse::Unused => {
            head.push(0);
            head.push(sequence);
        }
        GlyphUse::Stores { index } => {
            head.push(GLYPH_INDEX);
            head.push(sequence);
            let _ = head.try_extend_from_slice(&index.to_le_bytes());
        }
        GlyphUse::Shows { index } => {
            head.push(GLYPH_INDEX + GLYPH_HIT);
            head.push(sequence);
            let _ = head.try_extend_from_slice(&index.to_le_bytes());
        }
    }
    head
}

//! What stands behind the head of a stream, drawn in a rectangle of a surface.
ghost use Rattle.std.specs.Prelude.{◌≡◌, ◌*◌, is_ok, length, map, IsTrue, OnOk, OnErr};
ghost use Rattle.gfx_base.specs.Geometry.{lies_in, width_of, height_of};
ghost use Rattle.gfx_base.specs.Outcome.{Applies, Gives, WantsOnlyIf};
ghost use Rattle.gfx_base.specs.Results.{and_then};
ghost use Rattle.gfx_surface.specs.Picture.{overlaid, rect_of};
ghost use Rattle.gfx_clear_store.specs.Rings.{Rings};
ghost use Rattle.gfx_clear_bands.specs.Canvas.{is_drawn, on_canvas};
ghost use Rattle.gfx_clear.specs.declared.head.GlyphUse.TheVariants.{Shows};
ghost use Rattle.gfx_clear.specs.Begun.{is_begun_as};
ghost use Rattle.gfx_clear.specs.Parts.{parts};
ghost use Rattle.gfx_clear.specs.Clear.{layered, drawn_in_layers, behind_head, undrawn, glyphs_after, with_glyphs};
ghost use Rattle.gfx_clear.specs.Inner.{parts_seen, Draws};
ghost use Rattle.gfx_clear.specs.Wholes.{covers, whole_pixels};
ghost use Rattle.gfx_clear.specs.Painting.{drawn_over};
ghost use Rattle.gfx_base.specs.Colour.{colour_of, opaque};

use crate::canvas::{Canvas, begin, make_room};
use crate::head::GlyphUse;
use crate::parts::{Parts, draw_residual, read_parts};
use crate::pixels::{colours_of, draw_over, is_all_drawn, pixels_of};
use crate::subcodecs::draw_subcodecs;
use crate::whole::{Whole, paint_whole, whole_of};
use gfx_base::{Fault, NoMemory, Pixel, Rect, Refusal, Rgb};
use gfx_clear_bands::paint_bands;
use gfx_clear_store::Store;
use gfx_glyph::Glyphs;
use gfx_surface::Surface;
use std::alloc::Global;

/// Draws what stands behind a head in a rectangle, and stores the glyph. Any fault leaves glyphs and surface
/// as they were; the caller rolls the rings back.
pub(crate) fn draw(
    alloc: Global,
    canvas: &mut Canvas,
    store: &mut Store,
    glyphs: &mut Glyphs,
    surface: &mut Surface,
    rect: Rect,
    glyph: GlyphUse,
    bytes: &[u8],
) -> Result<(), Fault>
    requires { IsTrue (lies_in surface.old.width surface.old.height rect) }
    ensures draws { Draws result rect store.new.held glyphs.old glyphs.new surface.old surface.new
        (behind_head glyph (width_of rect) (height_of rect) glyphs.old (undrawn (map colour_of (rect_of surface.old rect)) store.old.held) bytes.now) }
    ensures memory { WantsOnlyIf result (is_begun_as glyph (width_of rect) (height_of rect) glyphs.old bytes.now) }
    ensures marked { store.new.marked ≡ store.old.marked }
{
    match glyph {
        GlyphUse::Shows { index } => draw_glyph(alloc, glyphs, surface, rect, index, bytes),
        GlyphUse::Stores { .. } | GlyphUse::Unused => draw_parts(
            alloc, canvas, store, glyphs, surface, rect, glyph, bytes,
        ),
    }
}

/// Draws a glyph, behind whose index no bytes stand.
fn draw_glyph(
    alloc: Global,
    glyphs: &Glyphs,
    surface: &mut Surface,
    rect: Rect,
    index: u16,
    bytes: &[u8],
) -> Result<(), Fault>
    requires { IsTrue (lies_in surface.old.width surface.old.height rect) }
    ensures draws { (rings : Rings) → Draws result rect rings glyphs.now glyphs.now surface.old surface.new
        (behind_head (Shows index) (width_of rect) (height_of rect) glyphs.now (undrawn (map colour_of (rect_of surface.old rect)) rings) bytes.now) }
    ensures memory { WantsOnlyIf result (is_begun_as (Shows index) (width_of rect) (height_of rect) glyphs.now bytes.now) }
{
    if !bytes.is_empty() {
        return Err(Fault::Refused(Refusal::ClearLengths));
    }
    match glyphs.show(index, rect.width(), rect.height()) {
        Ok(colours) => match paint(alloc, surface, rect, colours) {
            Ok(()) => Ok(()),
            Err(NoMemory) => Err(Fault::Memory),
        },
        Err(refusal) => Err(Fault::Refused(refusal)),
    }
}

/// Puts colours into a rectangle, opaque.
pub(crate) fn paint(
    alloc: Global,
    surface: &mut Surface,
    rect: Rect,
    colours: &[Rgb],
) -> Result<(), NoMemory>
    requires inside { IsTrue (lies_in surface.old.width surface.old.height rect) }
    requires whole { length colours.now ≡ width_of rect * height_of rect }
    ensures ok { OnOk result (surface.new ≡ overlaid surface.old rect (map opaque colours.now)) }
    ensures err { OnErr result (surface.new ≡ surface.old) }
{
    let pixels = pixels_of(alloc, colours)?;
    surface.put(rect, &pixels);
    Ok(())
}

/// Draws the layers of the parts in these bytes.
fn draw_parts(
    alloc: Global,
    canvas: &mut Canvas,
    store: &mut Store,
    glyphs: &mut Glyphs,
    surface: &mut Surface,
    rect: Rect,
    glyph: GlyphUse,
    bytes: &[u8],
) -> Result<(), Fault>
    requires { IsTrue (lies_in surface.old.width surface.old.height rect) }
    ensures draws { Draws result rect store.new.held glyphs.old glyphs.new surface.old surface.new
        (and_then (drawn_in_layers (width_of rect) (height_of rect) (undrawn (map colour_of (rect_of surface.old rect)) store.old.held) bytes.now)
        (with_glyphs glyph (width_of rect) (height_of rect) glyphs.old)) }
    ensures memory { WantsOnlyIf result (is_ok (parts bytes.now)) }
    ensures marked { store.new.marked ≡ store.old.marked }
{
    let parts = match read_parts(bytes) {
        Ok(parts) => parts,
        Err(refusal) => return Err(Fault::Refused(refusal)),
    };
    if let Some(whole) = whole_of(&parts, rect.width(), rect.height()) {
        return draw_whole(alloc, canvas, glyphs, surface, rect, glyph, &whole);
    }
    draw_layered(alloc, canvas, store, glyphs, surface, rect, glyph, &parts)
}

/// Draws a part over all that stood there, and stores the glyph.
fn draw_whole(
    alloc: Global,
    canvas: &mut Canvas,
    glyphs: &mut Glyphs,
    surface: &mut Surface,
    rect: Rect,
    glyph: GlyphUse,
    whole: &Whole<'_>,
) -> Result<(), Fault>
    requires { IsTrue (lies_in surface.old.width surface.old.height rect) }
    ensures { (rings : Rings) → Draws result rect rings glyphs.old glyphs.new surface.old surface.new
        (and_then (covers (whole_pixels whole.now (width_of rect * height_of rect)) (undrawn (map colour_of (rect_of surface.old rect)) rings))
        (with_glyphs glyph (width_of rect) (height_of rect) glyphs.old)) }
{
    let count = usize::from(rect.width()) * usize::from(rect.height());
    match make_room(&mut canvas.pixels, count) {
        Ok(()) => {}
        Err(NoMemory) => return Err(Fault::Memory),
    }
    let out = &mut canvas.pixels[..count];
    paint_over(alloc, out, glyphs, surface, rect, glyph, whole)
}

/// The same on a canvas of as many pixels as the rectangle has. What stood there means nothing.
fn paint_over(
    alloc: Global,
    canvas: &mut [Pixel],
    glyphs: &mut Glyphs,
    surface: &mut Surface,
    rect: Rect,
    glyph: GlyphUse,
    whole: &Whole<'_>,
) -> Result<(), Fault>
    requires inside { IsTrue (lies_in surface.old.width surface.old.height rect) }
    requires canvas { length canvas.old ≡ width_of rect * height_of rect }
    ensures { (rings : Rings) → Draws result rect rings glyphs.old glyphs.new surface.old surface.new
        (and_then (covers (whole_pixels whole.now (width_of rect * height_of rect)) (undrawn (map colour_of (rect_of surface.old rect)) rings))
        (with_glyphs glyph (width_of rect) (height_of rect) glyphs.old)) }
{
    match paint_whole(whole, canvas) {
        Ok(()) => {}
        Err(refusal) => return Err(Fault::Refused(refusal)),
    }
    match keep_painted(alloc, glyphs, glyph, rect.width(), rect.height(), canvas) {
        Ok(()) => {}
        Err(fault) => return Err(fault),
    }
    surface.put(rect, canvas);
    Ok(())
}

/// Stores the colours of pixels where the stream says so.
fn keep_painted(
    alloc: Global,
    glyphs: &mut Glyphs,
    glyph: GlyphUse,
    width: u16,
    height: u16,
    pixels: &[Pixel],
) -> Result<(), Fault>
    requires { length pixels.now ≡ width * height }
    ensures { Applies result glyphs.old glyphs.new (glyphs_after glyph width height (map colour_of pixels.now) glyphs.old) }
{
    match glyph {
        GlyphUse::Stores { index } => {
            let colours = match colours_of(alloc, pixels) {
                Ok(colours) => colours,
                Err(NoMemory) => return Err(Fault::Memory),
            };
            glyphs.store(index, width, height, &colours)
        }
        _ => Ok(()),
    }
}

/// Draws layers over what stood there, and stores the glyph.
fn draw_layered(
    alloc: Global,
    canvas: &mut Canvas,
    store: &mut Store,
    glyphs: &mut Glyphs,
    surface: &mut Surface,
    rect: Rect,
    glyph: GlyphUse,
    parts: &Parts<'_>,
) -> Result<(), Fault>
    requires { IsTrue (lies_in surface.old.width surface.old.height rect) }
    ensures draws { Draws result rect store.new.held glyphs.old glyphs.new surface.old surface.new
        (and_then (layered (width_of rect) (height_of rect) (undrawn (map colour_of (rect_of surface.old rect)) store.old.held) (parts_seen parts.now))
        (with_glyphs glyph (width_of rect) (height_of rect) glyphs.old)) }
    ensures marked { store.new.marked ≡ store.old.marked }
{
    let count = usize::from(rect.width()) * usize::from(rect.height());
    match make_room(&mut canvas.pixels, count) {
        Ok(()) => {}
        Err(NoMemory) => return Err(Fault::Memory),
    }
    match make_room(&mut canvas.background, count) {
        Ok(()) => {}
        Err(NoMemory) => return Err(Fault::Memory),
    }
    let out = &mut canvas.pixels[..count];
    let background = &mut canvas.background[..count];
    draw_over_background(
        alloc, out, background, store, glyphs, surface, rect, glyph, parts,
    )
}

/// The same on a canvas of as many pixels as the rectangle has, with as many for the background.
fn draw_over_background(
    alloc: Global,
    canvas: &mut [Pixel],
    background: &mut [Pixel],
    store: &mut Store,
    glyphs: &mut Glyphs,
    surface: &mut Surface,
    rect: Rect,
    glyph: GlyphUse,
    parts: &Parts<'_>,
) -> Result<(), Fault>
    requires inside { IsTrue (lies_in surface.old.width surface.old.height rect) }
    requires canvas { length canvas.old ≡ width_of rect * height_of rect }
    requires background { length background.old ≡ width_of rect * height_of rect }
    ensures draws { Draws result rect store.new.held glyphs.old glyphs.new surface.old surface.new
        (and_then (layered (width_of rect) (height_of rect) (undrawn (map colour_of (rect_of surface.old rect)) store.old.held) (parts_seen parts.now))
        (with_glyphs glyph (width_of rect) (height_of rect) glyphs.old)) }
    ensures marked { store.new.marked ≡ store.old.marked }
{
    let (width, height) = (rect.width(), rect.height());
    surface.read(rect, background);
    begin(background, canvas);
    match draw_layers(alloc, store, parts, width, height, canvas) {
        Ok(()) => {}
        Err(fault) => return Err(fault),
    }
    match keep_painted(alloc, glyphs, glyph, width, height, canvas) {
        Ok(()) => {}
        Err(fault) => return Err(fault),
    }
    put_canvas(surface, rect, background, canvas);
    Ok(())
}

/// Puts what is drawn on a canvas into a rectangle, over its pixels.
fn put_canvas(surface: &mut Surface, rect: Rect, background: &mut [Pixel], canvas: &[Pixel])
    requires inside { IsTrue (lies_in surface.old.width surface.old.height rect) }
    requires canvas { length canvas.now ≡ width_of rect * height_of rect }
    requires background { length background.old ≡ width_of rect * height_of rect }
    ensures { surface.new ≡ overlaid surface.old rect (drawn_over background.old (map colour_of canvas.now) (map is_drawn canvas.now)) }
{
    if is_all_drawn(canvas) {
        surface.put(rect, canvas);
    } else {
        draw_over(background, canvas);
        surface.put(rect, background);
    }
}

/// Draws the layers, one over the other.
fn draw_layers(
    alloc: Global,
    store: &mut Store,
    parts: &Parts<'_>,
    width: u16,
    height: u16,
    canvas: &mut [Pixel],
) -> Result<(), Fault>
    requires canvas { length canvas.old ≡ width * height }
    ensures layers { Gives (λ _. on_canvas canvas.new store.new.held) result
        (layered width height (on_canvas canvas.old store.old.held) (parts_seen parts.now)) }
    ensures marked { store.new.marked ≡ store.old.marked }
{
    match draw_residual(parts.residual, canvas) {
        Ok(()) => {}
        Err(fault) => return Err(fault),
    }
    match paint_bands(store, parts.bands, width, height, canvas) {
        Ok(()) => {}
        Err(fault) => return Err(fault),
    }
    draw_subcodecs(alloc, parts.subcodecs, width, height, canvas)
}

//! What a message draws, as it is noted once the message is applied.
ghost use Rattle.std.specs.Prelude.{◌≡◌, Some, IfOk, OnErr, true, is_some, map};
ghost use Rattle.gfx_base.specs.Geometry.{moved};
ghost use Rattle.std.specs.List.{flat_map};
ghost use Rattle.std.specs.FinMap as finmap;
ghost use Rattle.gfx_pdu.specs.Borrowed.{pdu_of};
ghost use Rattle.gfx_prog_block.specs.Reading.{blocks_of};
ghost use Rattle.gfx_state.specs.Written.{areas_in, areas_of, image_rect, rect_of_area, written, written_on};
ghost use Rattle.gfx_bitmap_cache.specs.Slots.{shown as image_at};
ghost use Rattle.gfx_damage.specs.Marks.{with_rects};
ghost use Rattle.gfx_damage.specs.Drawing.{drawing_in, drawn_by, rects_drawn, AreSides};

use crate::adding::{Sides, add_blocks, add_copies, add_rects};
use crate::few_rects::FewRects;
use gfx_base::{Fault, NoMemory, Point, Rect};
use gfx_bitmap_cache::Cache;
use gfx_pdu::{Pdu, PduRef};
use gfx_prog_block::{Blocks, read_blocks};
use gfx_state::State;
use std::alloc::Global;

/// The rectangles that a message draws, borrowed from it. They may reach over the sides of its surface.
#[derive(Drop)]
pub(crate) enum Drawn<'a> {
    One(Rect),
    Rects(&'a [Rect]),
    Copies { rect: Rect, points: &'a [Point] },
    Regions(Blocks<'a>),
}

/// A surface that is there, and what a message draws on it.
#[derive(Drop)]
pub(crate) struct Drawing<'a> {
    pub(crate) surface: u16,
    sides: Sides,
    drawn: Drawn<'a>,
}

/// What a message draws on a surface that is there; None where it draws on none.
#[tactic(auto, unfolding(gfx_state::specs::Written::written_on))]
pub(crate) fn drawing_of<'a>(
    alloc: Global,
    state: &State,
    pdu: &'a PduRef<'_>,
) -> Result<Option<Drawing<'a>>, NoMemory>
    ensures value { IfOk result (λ drawing. drawing_in drawing ≡ written state.now (pdu_of pdu.now)) }
    ensures memory { OnErr result (is_some (written state.now (pdu_of pdu.now)) ≡ true) }
{
    match pdu {
        PduRef::WireToSurface1 { surface, rect, .. } => {
            Ok(drawing_on(state, *surface, Drawn::One(*rect)))
        }
        PduRef::WireToSurface2 {
            surface,
            payload,
            ..
        } => regions_on(alloc, state, *surface, payload),
        PduRef::CapsConfirm { .. } => Ok(None),
        PduRef::Other(pdu) => owned_drawing_of(alloc, state, pdu),
    }
}

/// The same of a message that owns its data.
#[tactic(auto, unfolding(gfx_state::specs::Written::written_on))]
fn owned_drawing_of<'a>(
    alloc: Global,
    state: &State,
    pdu: &'a Pdu,
) -> Result<Option<Drawing<'a>>, NoMemory>
    ensures value { IfOk result (λ drawing. drawing_in drawing ≡ written state.now pdu.now) }
    ensures memory { OnErr result (is_some (written state.now pdu.now) ≡ true) }
{
    match pdu {
        Pdu::WireToSurface1 { surface, rect, .. } => {
            Ok(drawing_on(state, *surface, Drawn::One(*rect)))
        }
        Pdu::WireToSurface2 {
            surface,
            payload,
            ..
        } => regions_on(alloc, state, *surface, payload.as_slice()),
        Pdu::SolidFill { surface, rects, .. } => {
            Ok(drawing_on(state, *surface, Drawn::Rects(rects.as_slice())))
        }
        Pdu::SurfaceToSurface {
            destination,
            rect,
            points,
            ..
        } => Ok(copies_on(state, *destination, *rect, points.as_slice())),
        Pdu::CacheToSurface {
            slot,
            surface,
            points,
        } => {
            let rect = image_rect(state.cache(), *slot);
            Ok(copies_on(state, *surface, rect, points.as_slice()))
        }
        Pdu::DeleteEncodingContext { .. }
        | Pdu::SurfaceToCache { .. }
        | Pdu::EvictCacheEntry { .. }
        | Pdu::CreateSurface { .. }
        | Pdu::DeleteSurface { .. }
        | Pdu::StartFrame { .. }
        | Pdu::EndFrame { .. }
        | Pdu::ResetGraphics { .. }
        | Pdu::MapSurfaceToOutput { .. }
        | Pdu::CapsConfirm { .. } => Ok(None),
    }
}

/// The sides of a surface that is there.
fn sides_of(state: &State, surface: u16) -> Option<Sides>
    ensures { AreSides result (finmap.get state.now.shown.surfaces surface) }
{
    let target = state.surfaces().get(surface)?;
    let (width, height) = target.size();
    Some(Sides { width, height })
}

/// What is drawn on a surface, where it is there.
fn drawing_on<'a>(state: &State, surface: u16, drawn: Drawn<'a>) -> Option<Drawing<'a>>
    ensures { drawing_in result ≡ written_on state.now (Some (surface, rects_drawn drawn.entry)) }
{
    let Some(sides) = sides_of(state, surface) else {
        return None;
    };
    Some(Drawing {
        surface,
        sides,
        drawn,
    })
}

/// Copies of a rectangle at points of a surface.
fn copies_on<'a>(
    state: &State,
    surface: u16,
    rect: Rect,
    points: &'a [Point],
) -> Option<Drawing<'a>>
    ensures { drawing_in result ≡ written_on state.now (Some (surface, map (moved rect) points.now)) }
{
    drawing_on(state, surface, Drawn::Copies { rect, points })
}

/// The regions of a progressive message, which are read only where its surface is there.
fn regions_on<'a>(
    alloc: Global,
    state: &State,
    surface: u16,
    payload: &'a [u8],
) -> Result<Option<Drawing<'a>>, NoMemory>
    ensures value { IfOk result (λ drawing. drawing_in drawing ≡ written_on state.now (Some (surface, map rect_of_area (areas_of (blocks_of payload.now))))) }
    ensures memory { OnErr result (is_some (written_on state.now (Some (surface, map rect_of_area (areas_of (blocks_of payload.now))))) ≡ true) }
{
    let Some(sides) = sides_of(state, surface) else {
        return Ok(None);
    };
    let blocks = blocks_of(alloc, payload)?;
    Ok(Some(Drawing {
        surface,
        sides,
        drawn: Drawn::Regions(blocks),
    }))
}

/// The blocks of a message, or none where it is refused for them.
fn blocks_of<'a>(alloc: Global, payload: &'a [u8]) -> Result<Blocks<'a>, NoMemory>
    ensures { IfOk result (λ blocks. flat_map areas_in blocks ≡ areas_of (blocks_of payload.now)) }
{
    match read_blocks(alloc, payload) {
        Ok(blocks) => Ok(blocks),
        Err(Fault::Refused(_)) => Ok(Blocks::new(alloc)),
        Err(Fault::Memory) => Err(NoMemory),
    }
}

/// The rectangle of a slot's bitmap, from the top left; an empty one where there is none.
fn image_rect(cache: &Cache, slot: u16) -> Rect
    ensures { result ≡ image_rect (image_at cache.now slot) }
{
    match cache.show(slot) {
        Ok(bitmap) => Rect::sized(bitmap.width, bitmap.height),
        Err(_) => Rect::sized(0, 0),
    }
}

/// Puts what of a drawing lies on its surface to the rectangles that the surface has.
pub(crate) fn add_drawing(held: &mut FewRects, drawing: &Drawing<'_>)
    ensures { held.new ≡ with_rects held.old (drawn_by drawing.now).1 }
{
    let sides = drawing.sides;
    match &drawing.drawn {
        Drawn::One(rect) => add_rects(held, sides, &[*rect]),
        Drawn::Rects(rects) => add_rects(held, sides, rects),
        Drawn::Copies { rect, points } => add_copies(held, sides, *rect, points),
        Drawn::Regions(blocks) => add_blocks(held, sides, blocks.as_slice()),
    }
}

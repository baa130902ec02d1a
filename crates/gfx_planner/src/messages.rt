//! The messages that a step is made into.
ghost use Rattle.std.specs.Prelude.{◌≡◌, ◌≤◌, [], ◌∷◌, IfOk, IsOk, IsSome, IfSome, Some, None, false, map};
ghost use Rattle.std.specs.FinMap.{get};
ghost use Rattle.std.specs.List.{slice_get};
ghost use Rattle.gfx_base.specs.Format.{byte_of};
ghost use Rattle.gfx_base.specs.Geometry.{width_of, height_of};
ghost use Rattle.gfx_prog_live.specs.Live.{at_start as no_passes};
ghost use Rattle.gfx_slot_plan.specs.Plan.{keeps, slot_of, touched, forgotten};
ghost use Rattle.gfx_script.specs.Script.{IsStep};
ghost use Rattle.gfx_state.specs.Sending.{IsCarried};
ghost use Rattle.gfx_pdu.specs.declared.pdu.Pdu.TheVariants.{CreateSurface, SolidFill, SurfaceToSurface, ResetGraphics, MapSurfaceToOutput, EvictCacheEntry};
ghost use Rattle.gfx_planner.specs.TileSteps.{is_video_paint, sends_tiles};
ghost use Rattle.gfx_planner.specs.Made.{made};
ghost use Rattle.gfx_planner.specs.BitmapMessages.{keeping, showing_slot, emptying};
ghost use Rattle.gfx_planner.specs.PaintMessages.{painting};
ghost use Rattle.gfx_planner.specs.StepMessages.{made_as, one_monitor};
ghost use Rattle.gfx_planner.specs.CanSend.{CanBeSent};
ghost use Rattle.gfx_planner.specs.ClearPaints.{clear_paint_of};

use crate::paint::raw_payload;
use gfx_base::{Fault, Format, NoMemory, Pixel, Point, Points, Rect, Rects};
use gfx_pdu::{Codec, Monitor, Monitors, Pdu};
use gfx_script::{Kind, Script, Step};
use gfx_slot_plan::SlotPlan;
use gfx_state::State;
use gfx_surface_map::MOST_OUTPUT_SIDE;
use std::alloc::Global;

/// The flag of the primary monitor ([MS-RDPBCGR] TS_MONITOR_PRIMARY).
pub const PRIMARY: u32 = 1;

/// The messages of a step that goes as a kind other than those of ClearCodec, and neither in passes nor as video, in the
/// state before it. The choice of slots goes on by the step.
#[tactic(auto, unfolding(crate::specs::StepMessages::made_as))]
pub(crate) fn step_messages(
    alloc: Global,
    script: &Script,
    state: &State,
    plan: &mut SlotPlan,
    step: &Step,
    kind: Option<Kind>,
) -> Result<Vec<Pdu>, NoMemory>
    requires numbers { IsStep step.now }
    requires possible { CanBeSent (made_as script.now state.now no_passes plan.old kind step.now) }
    requires messages { clear_paint_of script.now.thin kind step.now ≡ None }
    requires apart { sends_tiles script.now.thin kind step.now ≡ false }
    requires still { is_video_paint script.now.thin kind step.now ≡ false }
    ensures { IfOk result (λ pdus. made_as script.now state.now no_passes plan.old kind step.now ≡ made pdus.items plan.new) }
{
    match step {
        Step::Surface {
            id,
            width,
            height,
            format,
        } => alone(alloc, create_surface(*id, *width, *height, *format)),
        Step::Delete { id } => alone(alloc, Pdu::DeleteSurface { id: *id }),
        Step::Reset { width, height } => alone(alloc, reset_output(alloc, *width, *height)?),
        Step::Map { id, x, y } => alone(alloc, map_surface(*id, *x, *y)),
        Step::Fill { id, colour, rects } => alone(alloc, fill_rects(alloc, *id, *colour, rects)?),
        Step::Copy {
            from,
            to,
            rect,
            points,
        } => alone(alloc, copy_rect(alloc, *from, *to, *rect, points)?),
        Step::Keep { id, key, rect } => keep_rect(alloc, plan, *id, *key, *rect),
        Step::Show { key, to, points } => alone(alloc, show_key(alloc, plan, *key, *to, points)?),
        Step::Forget { key } => alone(alloc, forget_key(plan, *key)),
        Step::Paint {
            id,
            picture,
            at,
            ..
        } => {
            // What goes by ClearCodec, in passes or as video isn't made into messages here: it goes uncompressed.
            alone(
                alloc,
                paint_picture(alloc, script, state, *id, *picture, *at)?,
            )
        }
        Step::Improve { .. } => unreachable!(),
        Step::Frame => Ok(Vec::new(alloc)),
    }
}

/// A list of one message.
fn alone(alloc: Global, pdu: Pdu) -> Result<Vec<Pdu>, NoMemory>
    ensures { IfOk result (λ pdus. pdus.items ≡ pdu ∷ []) }
{
    let mut pdus = Vec::new(alloc);
    pdus.push(pdu)?;
    Ok(pdus)
}

/// Makes a surface.
fn create_surface(id: u16, width: u16, height: u16, format: Format) -> Pdu
    ensures { result ≡ CreateSurface id width height (byte_of format) }
{
    Pdu::CreateSurface {
        id,
        width,
        height,
        format: format.byte(),
    }
}

/// Gives the output these sides, with one monitor that covers it.
fn reset_output(alloc: Global, width: u32, height: u32) -> Result<Pdu, NoMemory>
    requires width { (1 ≤ width) × (width ≤ MOST_OUTPUT_SIDE) }
    requires height { (1 ≤ height) × (height ≤ MOST_OUTPUT_SIDE) }
    ensures { IfOk result (λ pdu. pdu ≡ ResetGraphics width height (one_monitor width height ∷ [])) }
{
    let mut monitors = Monitors::new(alloc);
    monitors.push(Monitor {
        left: 0,
        top: 0,
        right: width - 1,
        bottom: height - 1,
        flags: PRIMARY,
    })?;
    Ok(Pdu::ResetGraphics {
        width,
        height,
        monitors,
    })
}

/// Maps a surface to a place of the output.
fn map_surface(id: u16, x: u32, y: u32) -> Pdu
    ensures { result ≡ MapSurfaceToOutput id 0 x y }
{
    Pdu::MapSurfaceToOutput {
        id,
        reserved: 0,
        x,
        y,
    }
}

/// Gives rectangles one colour.
fn fill_rects(alloc: Global, surface: u16, colour: Pixel, rects: &Rects) -> Result<Pdu, NoMemory>
    ensures { IfOk result (λ pdu. pdu ≡ SolidFill surface colour rects.now) }
{
    let mut copied = Rects::new(alloc);
    copied.append(rects.as_slice())?;
    Ok(Pdu::SolidFill {
        surface,
        colour,
        rects: copied,
    })
}

/// Copies a rectangle to points.
fn copy_rect(
    alloc: Global,
    source: u16,
    destination: u16,
    rect: Rect,
    points: &Points,
) -> Result<Pdu, NoMemory>
    ensures { IfOk result (λ pdu. pdu ≡ SurfaceToSurface source destination rect points.now) }
{
    let mut copied = Points::new(alloc);
    copied.append(points.as_slice())?;
    Ok(Pdu::SurfaceToSurface {
        source,
        destination,
        rect,
        points: copied,
    })
}

/// Keeps a rectangle of a surface as the bitmap of a key. Slots that go for it are emptied first.
#[tactic(auto, unfolding(crate::specs::BitmapMessages::keeping))]
fn keep_rect(
    alloc: Global,
    plan: &mut SlotPlan,
    surface: u16,
    key: u64,
    rect: Rect,
) -> Result<Vec<Pdu>, NoMemory>
    requires { IsOk (keeps plan.old key (width_of rect) (height_of rect)) }
    ensures { IfOk result (λ pdus. keeping (keeps plan.old key (width_of rect) (height_of rect)) surface key rect ≡ made pdus.items plan.new) }
{
    let kept = match plan.keep(alloc, key, rect.width(), rect.height()) {
        Ok(kept) => kept,
        Err(Fault::Memory) => return Err(NoMemory),
        Err(Fault::Refused(_)) => unreachable!(),
    };
    let mut pdus = empty_slots(alloc, kept.dropped.as_slice())?;
    pdus.push(Pdu::SurfaceToCache {
        surface,
        key,
        slot: kept.slot,
        rect,
    })?;
    Ok(pdus)
}

/// Empties slots, one after another.
fn empty_slots(alloc: Global, slots: &[u16]) -> Result<Vec<Pdu>, NoMemory>
    ensures { IfOk result (λ pdus. pdus.items ≡ map EvictCacheEntry slots.now) }
{
    let pdus = slots
        .iter()
        .map(|slot| Pdu::EvictCacheEntry { slot: *slot });
    Ok(pdus.collect(alloc)?)
}

/// Puts the bitmap of a key at points of a surface.
#[tactic(auto, unfolding(crate::specs::BitmapMessages::showing_slot))]
fn show_key(
    alloc: Global,
    plan: &mut SlotPlan,
    key: u64,
    surface: u16,
    points: &Points,
) -> Result<Pdu, NoMemory>
    requires { IsSome (slot_of key plan.old.places) }
    ensures pdu { IfOk result (λ pdu. showing_slot (slot_of key plan.old.places) surface points.now ≡ Some pdu) }
    ensures plan { IfOk result (λ _. plan.new ≡ touched plan.old key) }
{
    let Some(slot) = plan.touch(key) else {
        unreachable!()
    };
    let mut copied = Points::new(alloc);
    copied.append(points.as_slice())?;
    Ok(Pdu::CacheToSurface {
        slot,
        surface,
        points: copied,
    })
}

/// Holds the bitmap of a key no more.
#[tactic(auto, unfolding(crate::specs::BitmapMessages::emptying))]
fn forget_key(plan: &mut SlotPlan, key: u64) -> Pdu
    requires { IsSome (slot_of key plan.old.places) }
    ensures pdu { emptying (slot_of key plan.old.places) ≡ Some result }
    ensures plan { plan.new ≡ forgotten plan.old key }
{
    let Some(slot) = plan.forget(key) else {
        unreachable!()
    };
    Pdu::EvictCacheEntry { slot }
}

/// Paints a picture uncompressed, in the format of its surface.
fn paint_picture(
    alloc: Global,
    script: &Script,
    state: &State,
    id: u16,
    picture: u32,
    at: Point,
) -> Result<Pdu, NoMemory>
    requires there { IsSome (painting None state.now.clear (get state.now.shown.surfaces id) (slice_get script.now.pictures picture) None id at) }
    requires fits { IfSome (painting None state.now.clear (get state.now.shown.surfaces id) (slice_get script.now.pictures picture) None id at) IsCarried }
    ensures { IfOk result (λ pdu. painting None state.now.clear (get state.now.shown.surfaces id) (slice_get script.now.pictures picture) None id at ≡ Some pdu) }
{
    let Some(surface) = state.surfaces().get(id) else {
        unreachable!()
    };
    let Some((width, height)) = script.picture_size(picture) else {
        unreachable!()
    };
    Ok(Pdu::WireToSurface1 {
        surface: id,
        codec: Codec::Uncompressed.id(),
        format: surface.format().byte(),
        rect: Rect {
            left: at.x,
            top: at.y,
            right: at.x + width,
            bottom: at.y + height,
        },
        payload: raw_payload(alloc, script, picture, width, height)?,
    })
}

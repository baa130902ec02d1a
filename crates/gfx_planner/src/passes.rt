//! Steps that are painted in passes, and the tiles that other steps end.
ghost use Rattle.std.specs.Prelude.{◌≡◌, [], ◌∷◌, IfOk, IfSome, IsSome, OnOk, Option, Some, false, map, option_map, true};
ghost use Rattle.std.specs.FinMap.{get};
ghost use Rattle.std.specs.List.{AllByRecursion, slice_get};
ghost use Rattle.gfx_base.specs.Cells.{has_pixels};
ghost use Rattle.gfx_base.specs.Geometry.{IsRect, sized};
ghost use Rattle.gfx_prog_live.specs.Inside.{AreBy};
ghost use Rattle.gfx_quant.specs.Setting.{is_accepted};
ghost use Rattle.gfx_script.specs.declared.step.Kind.{Kind};
ghost use Rattle.gfx_script.specs.Ways.{goes_by};
ghost use Rattle.gfx_script.specs.Writes.{area, at_each, place_of};
ghost use Rattle.gfx_slot_plan.specs.Plan.{Plan};
ghost use Rattle.gfx_planner.specs.Bitmaps.{sides_kept};
ghost use Rattle.gfx_planner.specs.Slots.{PlanFitsCache};
ghost use Rattle.gfx_planner.specs.TileSteps.{goes_in_passes, is_video_paint, sends_tiles};
ghost use Rattle.gfx_planner.specs.Passes.{ended_by, improved_passes, painted_passes, passes_as};
ghost use Rattle.gfx_planner.specs.Made.{made};
ghost use Rattle.gfx_planner.specs.TileMessages.{improving, painting_in_passes, passes_message};
ghost use Rattle.gfx_planner.specs.StepMessages.{made_as};
ghost use Rattle.gfx_planner.specs.CanSend.{FitsAt, MayGoAsTiles, CanBeSent};

use gfx_base::{Bytes, Format, NoMemory, Point, Rect, moved_to};
use gfx_pdu::{PROGRESSIVE, Pdu};
use gfx_prog_encode::CONTEXT;
use gfx_prog_live::Passes;
use gfx_script::{Kind, Script, Step};
use gfx_slot_plan::SlotPlan;
use gfx_state::State;
use std::alloc::Global;

/// Whether a step that goes as a kind sends tiles that may be raised: a paint in passes, or an improvement. A client may
/// be thin.
pub(crate) fn sends_tiles(step: &Step, kind: Option<Kind>, thin: bool) -> bool
    ensures { result ≡ sends_tiles thin kind step.now }
{
    match step {
        Step::Paint { .. } => goes_in_passes(kind, thin),
        Step::Improve { .. } => true,
        _ => false,
    }
}

/// Whether the picture of a paint that goes as a kind goes in passes.
fn goes_in_passes(kind: Option<Kind>, thin: bool) -> bool
    ensures { result ≡ goes_in_passes (goes_by thin kind) }
{
    match kind {
        Some(kind) => kind.way(thin).is_in_passes(),
        None => false,
    }
}

/// The messages of a step that is painted in passes, in the state before it. Its tiles are live from then on.
pub(crate) fn passes_messages(
    alloc: Global,
    script: &Script,
    state: &State,
    passes: &mut Passes,
    plan: &SlotPlan,
    step: &Step,
    kind: Option<Kind>,
) -> Result<Vec<Pdu>, NoMemory>
    requires in_passes { sends_tiles script.now.thin kind step.now ≡ true }
    requires possible { CanBeSent (made_as script.now state.now passes.old plan.now kind step.now) }
    requires may { MayGoAsTiles script.now passes.old step.now }
    ensures made { IfOk result (λ pdus. made_as script.now state.now passes.old plan.now kind step.now ≡ made pdus.items plan.now) }
    ensures passes { IfOk result (λ _. passes.new ≡ passes_as script.now (sides_kept plan.now state.now.cache.slots) state.now.shown.surfaces passes.old kind step.now) }
{
    match step {
        Step::Paint {
            id,
            picture,
            at,
            ..
        } => paint_in_passes(alloc, script, state, passes, *id, *picture, *at),
        Step::Improve { id } => improve_in_passes(alloc, script, state, passes, *id),
        _ => unreachable!(),
    }
}

/// The messages that paint a picture in passes, its top left corner at a place of a surface.
fn paint_in_passes(
    alloc: Global,
    script: &Script,
    state: &State,
    passes: &mut Passes,
    id: u16,
    picture: u32,
    at: Point,
) -> Result<Vec<Pdu>, NoMemory>
    requires there { IsSome (get state.now.shown.surfaces id) }
    requires drawn { IsSome (slice_get script.now.pictures picture) }
    requires accepted { is_accepted script.now.setting ≡ true }
    requires by { AreBy script.now.setting passes.old.live }
    requires placed { IfSome (slice_get script.now.pictures picture) (λ source. IsRect (place_of source at) × (has_pixels (place_of source at) ≡ true)) }
    ensures made { IfOk result (λ pdus. (next : Plan) → painting_in_passes script.now passes.old (get state.now.shown.surfaces id) (slice_get script.now.pictures picture) id at next ≡ made pdus.items next) }
    ensures passes { OnOk result (passes.new ≡ painted_passes script.now passes.old id (slice_get script.now.pictures picture) at) }
{
    let Some(surface) = state.surfaces().get(id) else {
        unreachable!()
    };
    let Some((width, height)) = script.picture_size(picture) else {
        unreachable!()
    };
    let rect = moved_to(Rect::sized(width, height), at);
    let all = passes.paint(alloc, script, id, picture, rect)?;
    as_messages(alloc, id, surface.format(), all)
}

/// The messages that raise the live tiles of a surface.
fn improve_in_passes(
    alloc: Global,
    script: &Script,
    state: &State,
    passes: &mut Passes,
    id: u16,
) -> Result<Vec<Pdu>, NoMemory>
    requires there { IsSome (get state.now.shown.surfaces id) }
    requires by { AreBy script.now.setting passes.old.live }
    ensures made { IfOk result (λ pdus. (next : Plan) → improving script.now passes.old (get state.now.shown.surfaces id) id next ≡ made pdus.items next) }
    ensures passes { OnOk result (passes.new ≡ improved_passes passes.old id (get state.now.shown.surfaces id)) }
{
    let Some(surface) = state.surfaces().get(id) else {
        unreachable!()
    };
    let (width, height) = surface.size();
    let all = passes.improve(alloc, script.setting(), id, width, height)?;
    as_messages(alloc, id, surface.format(), all)
}

/// The messages that carry data of passes, in the format of their surface.
fn as_messages(
    alloc: Global,
    surface: u16,
    format: Format,
    all: Vec<Bytes>,
) -> Result<Vec<Pdu>, NoMemory>
    ensures { IfOk result (λ pdus. pdus.items ≡ map (passes_message surface format) all.items) }
{
    let pdus = all.into_iter().map(|payload| Pdu::WireToSurface2 {
        surface,
        codec: PROGRESSIVE,
        context: CONTEXT,
        format: format.byte(),
        payload,
    });
    Ok(pdus.collect(alloc)?)
}

/// Ends the tiles that a step changes which goes neither in passes nor as video: those of a surface that it deletes, or of
/// the cells in which it writes.
pub(crate) fn end_touched(
    script: &Script,
    state: &State,
    plan: &SlotPlan,
    passes: &mut Passes,
    step: &Step,
)
    requires plan { PlanFitsCache plan.now state.now.cache }
    requires fits { FitsAt script.now (sides_kept plan.now state.now.cache.slots) step.now }
    ensures { (kind : Option Kind) → sends_tiles script.now.thin kind step.now ≡ false → is_video_paint script.now.thin kind step.now ≡ false
        → passes.new ≡ passes_as script.now (sides_kept plan.now state.now.cache.slots) state.now.shown.surfaces passes.old kind step.now }
{
    match step {
        Step::Delete { id } => passes.drop_surface(*id),
        Step::Surface {
            id,
            width,
            height,
            ..
        } => passes.end_in(*id, Rect::sized(*width, *height)),
        Step::Fill { id, rects, .. } => end_in_each(passes, *id, rects.as_slice()),
        Step::Copy {
            to,
            rect,
            points,
            ..
        } => end_at_each(passes, *to, *rect, points.as_slice()),
        Step::Show { key, to, points } => end_shown(
            state,
            plan,
            passes,
            *key,
            *to,
            points.as_slice(),
        ),
        Step::Paint {
            id,
            picture,
            at,
            ..
        } => end_painted(script, passes, *id, *picture, *at),
        _ => {}
    }
}

/// Ends the tiles of the cells that a change in rectangles of a surface touches.
fn end_in_each(passes: &mut Passes, id: u16, rects: &[Rect])
    ensures { passes.new ≡ ended_by passes.old (Some (area id rects.now)) }
{
    'rects: for rect in rects {
        passes.end_in(id, *rect);
    }
}

/// The same of a rectangle at points.
fn end_at_each(passes: &mut Passes, id: u16, rect: Rect, points: &[Point])
    requires { AllByRecursion IsRect (at_each points.now rect) }
    ensures { passes.new ≡ ended_by passes.old (Some (area id (at_each points.now rect))) }
{
    'points: for point in points {
        passes.end_in(id, moved_to(rect, *point));
    }
}

/// The same of the bitmap of a key at points, where it is kept.
fn end_shown(
    state: &State,
    plan: &SlotPlan,
    passes: &mut Passes,
    key: u64,
    to: u16,
    points: &[Point],
)
    requires plan { PlanFitsCache plan.now state.now.cache }
    requires fits { IfSome (sides_kept plan.now state.now.cache.slots key) (λ sides. AllByRecursion IsRect (at_each points.now (sized sides.width sides.height))) }
    ensures { passes.new ≡ ended_by passes.old (option_map (λ sides. area to (at_each points.now (sized sides.width sides.height))) (sides_kept plan.now state.now.cache.slots key)) }
{
    let Some(slot) = plan.slot(key) else {
        return;
    };
    let Ok(bitmap) = state.cache().show(slot) else {
        return;
    };
    end_at_each(passes, to, Rect::sized(bitmap.width, bitmap.height), points);
}

/// The same of a picture, where it is there, its top left corner at a place.
pub(crate) fn end_painted(script: &Script, passes: &mut Passes, id: u16, picture: u32, at: Point)
    requires { IfSome (slice_get script.now.pictures picture) (λ source. IsRect (place_of source at)) }
    ensures { passes.new ≡ ended_by passes.old (option_map (λ source. area id (place_of source at ∷ [])) (slice_get script.now.pictures picture)) }
{
    let Some((width, height)) = script.picture_size(picture) else {
        return;
    };
    passes.end_in(id, moved_to(Rect::sized(width, height), at));
}

//! Paints that go as RemoteFX video.
ghost use Rattle.std.specs.Prelude.{◌≡◌, [], ◌∷◌, IfOk, IfSome, IsSome, OnOk, map, option_map, true};
ghost use Rattle.std.specs.FinMap.{get};
ghost use Rattle.std.specs.List.{slice_get};
ghost use Rattle.gfx_base.specs.Cells.{has_pixels};
ghost use Rattle.gfx_base.specs.Geometry.{IsRect};
ghost use Rattle.gfx_quant.specs.Setting.{is_accepted};
ghost use Rattle.gfx_script.specs.Writes.{area, place_of};
ghost use Rattle.gfx_slot_plan.specs.Plan.{Plan};
ghost use Rattle.gfx_video_paint.specs.Inside.{HasSome};
ghost use Rattle.gfx_video_paint.specs.Video.{video_payloads};
ghost use Rattle.gfx_planner.specs.Bitmaps.{sides_kept};
ghost use Rattle.gfx_planner.specs.TileSteps.{is_video_paint};
ghost use Rattle.gfx_planner.specs.Passes.{counted_in, ended_by, passes_as};
ghost use Rattle.gfx_planner.specs.Made.{made};
ghost use Rattle.gfx_planner.specs.VideoMessages.{mode_of, painting_as_video, video_message};
ghost use Rattle.gfx_planner.specs.StepMessages.{made_as};
ghost use Rattle.gfx_planner.specs.CanSend.{MayGoAsTiles, CanBeSent};

use crate::passes::end_painted;
use gfx_base::{Bytes, Format, NoMemory, Point, Rect, moved_to};
use gfx_pdu::{Codec, Pdu};
use gfx_prog_live::Passes;
use gfx_rlgr::Mode;
use gfx_script::{Entropy, Kind, Script, Step};
use gfx_slot_plan::SlotPlan;
use gfx_state::State;
use gfx_video_paint::video_messages;
use std::alloc::Global;

/// Whether a step that goes as a kind is a paint that goes as video. A client may be thin.
pub(crate) fn is_video_paint(step: &Step, kind: Option<Kind>, thin: bool) -> bool
    ensures { result ≡ is_video_paint thin kind step.now }
{
    match (step, kind) {
        (Step::Paint { .. }, Some(kind)) => kind.way(thin).is_video(),
        _ => false,
    }
}

/// The messages of a paint that goes as video, in the state before it: they are counted, and the live tiles of the cells
/// that it touches end.
pub(crate) fn video_paint_messages(
    alloc: Global,
    script: &Script,
    state: &State,
    passes: &mut Passes,
    plan: &SlotPlan,
    step: &Step,
    kind: Option<Kind>,
) -> Result<Vec<Pdu>, NoMemory>
    requires video { is_video_paint script.now.thin kind step.now ≡ true }
    requires possible { CanBeSent (made_as script.now state.now passes.old plan.now kind step.now) }
    requires may { MayGoAsTiles script.now passes.old step.now }
    ensures made { IfOk result (λ pdus. made_as script.now state.now passes.old plan.now kind step.now ≡ made pdus.items plan.now) }
    ensures passes { IfOk result (λ _. passes.new ≡ passes_as script.now (sides_kept plan.now state.now.cache.slots) state.now.shown.surfaces passes.old kind step.now) }
{
    match step {
        Step::Paint {
            id,
            picture,
            at,
            ..
        } => paint_as_video(alloc, script, state, passes, *id, *picture, *at),
        _ => unreachable!(),
    }
}

/// The messages that paint a picture as video, its top left corner at a place of a surface.
fn paint_as_video(
    alloc: Global,
    script: &Script,
    state: &State,
    passes: &mut Passes,
    id: u16,
    picture: u32,
    at: Point,
) -> Result<Vec<Pdu>, NoMemory>
    requires there { IsSome (get state.now.shown.surfaces id) }
    requires drawn { IsSome (slice_get script.now.pictures picture) }
    requires accepted { is_accepted script.now.setting ≡ true }
    requires placed { IfSome (slice_get script.now.pictures picture) (λ source. IsRect (place_of source at) × (has_pixels (place_of source at) ≡ true)) }
    ensures made { IfOk result (λ pdus. (next : Plan) → painting_as_video script.now passes.old.videos (get state.now.shown.surfaces id) (slice_get script.now.pictures picture) id at next ≡ made pdus.items next) }
    ensures passes { OnOk result (passes.new ≡ counted_in (slice_get script.now.pictures picture)
        (ended_by passes.old (option_map (λ source. area id (place_of source at ∷ [])) (slice_get script.now.pictures picture)))) }
{
    let Some(surface) = state.surfaces().get(id) else {
        unreachable!()
    };
    let Some((width, height)) = script.picture_size(picture) else {
        unreachable!()
    };
    end_painted(script, passes, id, picture, at);
    let all = counted_messages(alloc, script, passes, picture)?;
    let rect = moved_to(Rect::sized(width, height), at);
    as_messages(alloc, id, surface.format(), rect, all)
}

/// The data of the messages of a picture, which are counted.
fn counted_messages(
    alloc: Global,
    script: &Script,
    passes: &mut Passes,
    picture: u32,
) -> Result<Vec<Bytes>, NoMemory>
    requires accepted { is_accepted script.now.setting ≡ true }
    requires drawn { IsSome (slice_get script.now.pictures picture) }
    requires some { IfSome (slice_get script.now.pictures picture) HasSome }
    ensures data { IfOk result (λ all. IfSome (slice_get script.now.pictures picture)
        (λ drawing. all.items ≡ video_payloads script.now.setting (mode_of script.now.entropy) drawing passes.old.videos)) }
    ensures counted { OnOk result (passes.new ≡ counted_in (slice_get script.now.pictures picture) passes.old) }
{
    let mut next = passes.videos();
    let all = video_messages(alloc, script, mode_of(script.entropy()), picture, &mut next)?;
    passes.count_videos(next);
    Ok(all)
}

/// The entropy coder of a script's video.
fn mode_of(entropy: Entropy) -> Mode
    ensures { result ≡ mode_of entropy }
{
    match entropy {
        Entropy::One => Mode::Rlgr1,
        Entropy::Three => Mode::Rlgr3,
    }
}

/// The messages that carry data of video for a rectangle of a surface, in its format.
fn as_messages(
    alloc: Global,
    surface: u16,
    format: Format,
    rect: Rect,
    all: Vec<Bytes>,
) -> Result<Vec<Pdu>, NoMemory>
    ensures { IfOk result (λ pdus. pdus.items ≡ map (video_message surface format rect) all.items) }
{
    let pdus = all.into_iter().map(|payload| Pdu::WireToSurface1 {
        surface,
        codec: Codec::Video.id(),
        format: format.byte(),
        rect,
        payload,
    });
    Ok(pdus.collect(alloc)?)
}

//! Sending what a step is made into: its messages, those of passes and of video among them, or a paint whose stream the
//! server's end writes and draws at once.
ghost use Rattle.std.specs.Prelude.{◌≡◌, ◌∷◌, [], IfSome, OnOk, false, true};
ghost use Rattle.std.specs.FinMap.{get};
ghost use Rattle.std.specs.List.{slice_get};
ghost use Rattle.gfx_prog_live.specs.Live.{at_start as no_passes};
ghost use Rattle.gfx_script.specs.Script.{IsStep};
ghost use Rattle.gfx_planner.specs.Bitmaps.{sides_kept};
ghost use Rattle.gfx_planner.specs.Slots.{PlanFitsCache};
ghost use Rattle.gfx_planner.specs.TileSteps.{is_video_paint, sends_tiles};
ghost use Rattle.gfx_planner.specs.Passes.{passes_as};
ghost use Rattle.gfx_planner.specs.PaintMessages.{paint_message};
ghost use Rattle.gfx_planner.specs.StepMessages.{made_as};
ghost use Rattle.gfx_planner.specs.CanSend.{FitsAt, MayGoAsTiles, CanBeSent};
ghost use Rattle.gfx_planner.specs.ClearPaints.{MayPaintClear, clear_paint_of};
ghost use Rattle.gfx_planner.specs.Planned.{MaySend, SendsMade, SendsMessages};

use crate::clear_paint::{ClearPaint, clear_paint};
use crate::messages::step_messages;
use crate::paint::colours;
use crate::passes::{end_touched, passes_messages, sends_tiles};
use crate::sender::Sender;
use crate::video::{is_video_paint, video_paint_messages};
use gfx_base::{Bytes, NoMemory, Rect, moved_to};
use gfx_prog_live::Passes;
use gfx_script::{Kind, Script, Step};
use gfx_slot_plan::SlotPlan;
use std::alloc::Global;

/// Puts out the messages of a step that goes as a kind, and applies them. Tiles that it paints in passes are live from
/// then on, and those that it changes otherwise no more.
pub(crate) fn send_step(
    alloc: Global,
    sender: &mut Sender,
    plan: &mut SlotPlan,
    passes: &mut Passes,
    script: &Script,
    step: &Step,
    kind: Option<Kind>,
    out: &mut Bytes,
) -> Result<(), NoMemory>
    requires numbers { IsStep step.now }
    requires possible { CanBeSent (made_as script.now sender.old passes.old plan.old kind step.now) }
    requires accepted { IfSome (made_as script.now sender.old passes.old plan.old kind step.now) (λ into. MaySend sender.old into.pdus) }
    requires paint { IfSome (clear_paint_of script.now.thin kind step.now) (MayPaintClear script.now sender.old) }
    requires tiles { MayGoAsTiles script.now passes.old step.now }
    requires plan { PlanFitsCache plan.old sender.old.cache }
    requires fits { sends_tiles script.now.thin kind step.now ≡ false → FitsAt script.now (sides_kept plan.old sender.old.cache.slots) step.now }
    ensures made { SendsMade result sender.old sender.new plan.new out.old out.new (made_as script.now sender.old passes.old plan.old kind step.now) }
    ensures passes { OnOk result (passes.new ≡ passes_as script.now (sides_kept plan.old sender.old.cache.slots) sender.old.shown.surfaces passes.old kind step.now) }
{
    if sends_tiles(step, kind, script.thin()) {
        return send_in_passes(alloc, sender, plan, passes, script, step, kind, out);
    }
    if is_video_paint(step, kind, script.thin()) {
        return send_as_video(alloc, sender, plan, passes, script, step, kind, out);
    }
    end_touched(script, sender.state(), plan, passes, step);
    send_apart(alloc, sender, plan, script, step, kind, out)
}

/// The same of a step that is painted in passes.
fn send_in_passes(
    alloc: Global,
    sender: &mut Sender,
    plan: &SlotPlan,
    passes: &mut Passes,
    script: &Script,
    step: &Step,
    kind: Option<Kind>,
    out: &mut Bytes,
) -> Result<(), NoMemory>
    requires in_passes { sends_tiles script.now.thin kind step.now ≡ true }
    requires possible { CanBeSent (made_as script.now sender.old passes.old plan.now kind step.now) }
    requires accepted { IfSome (made_as script.now sender.old passes.old plan.now kind step.now) (λ into. MaySend sender.old into.pdus) }
    requires may { MayGoAsTiles script.now passes.old step.now }
    ensures made { SendsMade result sender.old sender.new plan.now out.old out.new (made_as script.now sender.old passes.old plan.now kind step.now) }
    ensures passes { OnOk result (passes.new ≡ passes_as script.now (sides_kept plan.now sender.old.cache.slots) sender.old.shown.surfaces passes.old kind step.now) }
{
    let pdus = passes_messages(alloc, script, sender.state(), passes, plan, step, kind)?;
    sender.send(pdus.as_slice(), out)
}

/// The same of a paint that goes as video.
fn send_as_video(
    alloc: Global,
    sender: &mut Sender,
    plan: &SlotPlan,
    passes: &mut Passes,
    script: &Script,
    step: &Step,
    kind: Option<Kind>,
    out: &mut Bytes,
) -> Result<(), NoMemory>
    requires video { is_video_paint script.now.thin kind step.now ≡ true }
    requires possible { CanBeSent (made_as script.now sender.old passes.old plan.now kind step.now) }
    requires accepted { IfSome (made_as script.now sender.old passes.old plan.now kind step.now) (λ into. MaySend sender.old into.pdus) }
    requires may { MayGoAsTiles script.now passes.old step.now }
    ensures made { SendsMade result sender.old sender.new plan.now out.old out.new (made_as script.now sender.old passes.old plan.now kind step.now) }
    ensures passes { OnOk result (passes.new ≡ passes_as script.now (sides_kept plan.now sender.old.cache.slots) sender.old.shown.surfaces passes.old kind step.now) }
{
    let pdus = video_paint_messages(alloc, script, sender.state(), passes, plan, step, kind)?;
    sender.send(pdus.as_slice(), out)
}

/// The same of another step, whose messages don't depend on what is live.
fn send_apart(
    alloc: Global,
    sender: &mut Sender,
    plan: &mut SlotPlan,
    script: &Script,
    step: &Step,
    kind: Option<Kind>,
    out: &mut Bytes,
) -> Result<(), NoMemory>
    requires numbers { IsStep step.now }
    requires apart { sends_tiles script.now.thin kind step.now ≡ false }
    requires still { is_video_paint script.now.thin kind step.now ≡ false }
    requires possible { CanBeSent (made_as script.now sender.old no_passes plan.old kind step.now) }
    requires accepted { IfSome (made_as script.now sender.old no_passes plan.old kind step.now) (λ into. MaySend sender.old into.pdus) }
    requires paint { IfSome (clear_paint_of script.now.thin kind step.now) (MayPaintClear script.now sender.old) }
    ensures { SendsMade result sender.old sender.new plan.new out.old out.new (made_as script.now sender.old no_passes plan.old kind step.now) }
{
    match clear_paint(step, kind, script.thin()) {
        Some(paint) => send_paint(alloc, sender, script, &paint, out),
        None => {
            let pdus = step_messages(alloc, script, sender.state(), plan, step, kind)?;
            sender.send(pdus.as_slice(), out)
        }
    }
}

/// Paints by ClearCodec, and puts out the message of it.
fn send_paint(
    alloc: Global,
    sender: &mut Sender,
    script: &Script,
    paint: &ClearPaint,
    out: &mut Bytes,
) -> Result<(), NoMemory>
    requires { MayPaintClear script.now sender.old paint.now }
    ensures { IfSome (get sender.old.shown.surfaces paint.now.id) (λ surface. IfSome (slice_get script.now.pictures paint.now.picture)
        (λ picture. SendsMessages result sender.old sender.new out.old out.new (paint_message (Some paint.now.layer) sender.old.clear paint.now.glyph surface picture paint.now.id paint.now.at ∷ []))) }
{
    let Some((width, height)) = script.picture_size(paint.picture) else {
        unreachable!()
    };
    let pixels = colours(alloc, script, paint.picture, width, height)?;
    let rect = moved_to(Rect::sized(width, height), paint.at);
    sender.paint_clear(
        paint.id,
        rect,
        pixels.as_slice(),
        paint.layer,
        paint.glyph,
        out,
    )
}

//! Steps one after another, each frame of the script as one frame on the wire.
ghost use Rattle.std.specs.Prelude.{◌≡◌, ◌<◌, false};
ghost use Rattle.gfx_planner.specs.Allowed.{IsAllowedStep, IsInFrame, KeepsFrame, kinded_at};
ghost use Rattle.gfx_planner.specs.Planned.{SendsOn};
ghost use Rattle.gfx_planner.specs.Stream.{PutsInFrame, opening, opened, closing, closed};

use crate::planner::{MOST_FRAMES, Planner};
use gfx_base::{Bytes, NoMemory};
use gfx_script::{Kind, Script, Step};

/// Puts out a step of this number, counted from 1, a paint as this kind. Its frame is opened where
/// none is open, and is ended behind a frame step. Without memory the planner is spent.
pub fn put_in_frame(
    planner: &mut Planner,
    script: &Script,
    step: u32,
    kind: Option<Kind>,
    out: &mut Bytes,
) -> Result<(), NoMemory>
    requires fresh { planner.old.spent ≡ false }
    requires keeps { KeepsFrame planner.old.server }
    requires few { planner.old.server.frames < MOST_FRAMES }
    requires allowed { IsAllowedStep script.now planner.old.server (kinded_at script.now.steps step kind) }
    ensures { PutsInFrame script.now result planner.old.server planner.new out.old out.new (kinded_at script.now.steps step kind) }
{
    open_where_none(planner, out)?;
    planner.put(script, step, kind, out)?;
    let Some(step) = script.step(step) else {
        unreachable!()
    };
    close_behind(planner, step, out)
}

fn open_where_none(planner: &mut Planner, out: &mut Bytes) -> Result<(), NoMemory>
    requires fresh { planner.old.spent ≡ false }
    requires keeps { KeepsFrame planner.old.server }
    requires few { planner.old.server.frames < MOST_FRAMES }
    ensures { SendsOn result planner.new out.old out.new (opening planner.old.server) (opened planner.old.server) }
{
    if planner.is_in_frame() {
        return Ok(());
    }
    planner.open_frame(out)?;
    Ok(())
}

fn close_behind(planner: &mut Planner, step: &Step, out: &mut Bytes) -> Result<(), NoMemory>
    requires fresh { planner.old.spent ≡ false }
    requires inside { IsInFrame planner.old.server }
    ensures { SendsOn result planner.new out.old out.new (closing planner.old.server step.now) (closed planner.old.server step.now) }
{
    match step {
        Step::Frame => planner.close_frame(out),
        _ => Ok(()),
    }
}

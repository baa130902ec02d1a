//! Writing the stream of a script, frame by frame.
ghost use Rattle.std.specs.Prelude.{◌≡◌, ◌≤◌, List, length};
ghost use Rattle.gfx_base.specs.Stream.{change};
ghost use Rattle.gfx_chooser.specs.Choosing.{Chooser as Choosing};
ghost use Rattle.gfx_chooser.specs.Seen.{seen};
ghost use Rattle.gfx_planner.specs.Server.{at_start};
ghost use Rattle.gfx_planner.specs.Planned.{ready};
ghost use Rattle.gfx_script.specs.Script.{IsAccepted};
ghost use Rattle.gfxpipe.specs.Stream.{WritesStream, HasPut, MayGoOn, PlansFrame};

use crate::trouble::Trouble;
use gfx_base::{Bytes, NoMemory, Sink, write_all};
use gfx_chooser::{Chooser, kind_at};
use gfx_planner::{Planner, put_in_frame};
use gfx_script::Script;
use std::alloc::Global;

/// Writes the stream of a script, each frame once it is planned. Paints that name no kind go as these choosers
/// choose, which are asked once their step is planned.
pub(crate) fn write_stream<C: Chooser, O: Sink>(
    alloc: Global,
    script: &Script,
    choosers: &mut Vec<C>,
    out: &mut O,
) -> Result<(), Trouble>
    requires { IsAccepted script.now }
    ensures { WritesStream result script.now (seen C.reply C.is_spent choosers.old.items) (seen C.reply C.is_spent choosers.new.items)
        (change (O.faults out.old) (O.faults out.new) (O.held out.old) (O.held out.new)) }
{
    let mut planner = Planner::new(alloc, script.small())?;
    let written = write_frames(alloc, &mut planner, script, choosers, out);
    let_go(planner);
    written
}

/// Lets a planner go. What this costs to prove is paid here once, and not at each exit.
fn let_go(_planner: Planner) {}

/// The same by a planner that has sent nothing.
fn write_frames<C: Chooser, O: Sink>(
    alloc: Global,
    planner: &mut Planner,
    script: &Script,
    choosers: &mut Vec<C>,
    out: &mut O,
) -> Result<(), Trouble>
    requires accepted { IsAccepted script.now }
    requires begun { planner.old ≡ ready (at_start script.now.small) }
    ensures { WritesStream result script.now (seen C.reply C.is_spent choosers.old.items) (seen C.reply C.is_spent choosers.new.items)
        (change (O.faults out.old) (O.faults out.new) (O.held out.old) (O.held out.new)) }
{
    let mut frame = Bytes::new(alloc);
    let mut next = 1;
    'frames: while script.step(next).is_some() {
        next = plan_frame(planner, script, next, choosers, &mut frame)?;
        let Ok(()) = write_all(out, frame.as_slice()) else {
            return Err(Trouble::Write);
        };
        frame.truncate(0);
    }
    Ok(())
}

/// Plans the steps from this number on, up to a frame step, and answers the number behind them.
fn plan_frame<C: Chooser>(
    planner: &mut Planner,
    script: &Script,
    first: u32,
    choosers: &mut Vec<C>,
    out: &mut Bytes,
) -> Result<u32, NoMemory>
    requires accepted { IsAccepted script.now }
    requires from { 1 ≤ first }
    requires there { first ≤ length script.now.steps }
    requires goes_on { MayGoOn script.now first planner.old (seen C.reply C.is_spent choosers.old.items) }
    ensures { (begun : List Choosing) → HasPut script.now first planner.old begun (seen C.reply C.is_spent choosers.old.items)
        → PlansFrame result script.now begun (seen C.reply C.is_spent choosers.new.items) first planner.new out.old out.new }
{
    let mut number = first;
    'steps: while let Some(step) = script.step(number) {
        let kind = kind_at(script, number, choosers);
        put_in_frame(planner, script, number, kind, out)?;
        number += 1;
        if step.is_frame() {
            break;
        }
    }
    Ok(number)
}

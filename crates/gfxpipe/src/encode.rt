//! The command `encode`: a script is read whole, and its stream is written.
ghost use Rattle.std.specs.Prelude.{◌<◌, ◌^◌, None};
ghost use Rattle.gfx_base.specs.Stream.{change};
ghost use Rattle.gfx_chooser.specs.Seen.{seen};
ghost use Rattle.gfxpipe.specs.Rule.{DidAll};
ghost use Rattle.gfxpipe.specs.Rules.{encoding, script_input};

use crate::ending::Ending;
use crate::script::read_whole;
use crate::stream::write_stream;
use crate::trouble::Trouble;
use gfx_base::{Sink, Source};
use gfx_chooser::Chooser;
use std::alloc::Global;

/// Reads a script within the limit, and writes its stream. Choosers are asked once it comes to a step.
pub(crate) fn encode<C: Chooser, I: Source, O: Sink>(
    alloc: Global,
    limit: usize,
    choosers: &mut Vec<C>,
    input: &mut I,
    out: &mut O,
) -> Result<Ending, Trouble>
    requires { limit < 2 ^ 63 }
    ensures { DidAll result None encoding script_input (seen C.reply C.is_spent choosers.old.items) (seen C.reply C.is_spent choosers.new.items) limit
        (change (I.faults input.old) (I.faults input.new) (I.left input.old) (I.left input.new))
        (change (O.faults out.old) (O.faults out.new) (O.held out.old) (O.held out.new)) }
{
    match read_whole(alloc, limit, input)? {
        Ok(script) => {
            write_stream(alloc, &script, choosers, out)?;
            Ok(Ending::Done)
        }
        Err(ending) => Ok(ending),
    }
}

//! The command `make`: the script that a number stands for is written.
ghost use Rattle.gfx_base.specs.Stream.{change};
ghost use Rattle.gfxpipe.specs.Did.{EndsUnread};
ghost use Rattle.gfxpipe.specs.Rules.{making};
ghost use Rattle.std.specs.Prelude.{[]};

use crate::ending::Ending;
use crate::trouble::Trouble;
use gfx_base::{Sink, write_all};
use gfx_generator::make_script;
use std::alloc::Global;

/// Writes the script of a number.
pub(crate) fn make<O: Sink>(alloc: Global, number: u32, out: &mut O) -> Result<Ending, Trouble>
    ensures { EndsUnread result (making number).writes_on ((making number).due [] 0 [])
        (change (O.faults out.old) (O.faults out.new) (O.held out.old) (O.held out.new)) }
{
    let text = make_script(alloc, number)?;
    match write_all(out, text.as_slice()) {
        Ok(()) => Ok(Ending::Done),
        Err(_) => Err(Trouble::Write),
    }
}

//! A script that is read whole.
ghost use Rattle.std.specs.Prelude.{◌<◌, ◌^◌};
ghost use Rattle.gfx_base.specs.Stream.{change};
ghost use Rattle.gfxpipe.specs.Scripts.{ReadsScript, ReadsText};

use crate::ending::Ending;
use crate::trouble::Trouble;
use gfx_base::{Bytes, Source};
use gfx_input::{Nowhere, Read, read_input};
use gfx_script::Script;
use gfx_script_text::{ScriptError, read_script};
use std::alloc::Global;

/// Reads a script whole, within the limit, or finds how a run ends whose input is none.
pub(crate) fn read_whole<I: Source>(
    alloc: Global,
    limit: usize,
    input: &mut I,
) -> Result<Result<Script, Ending>, Trouble>
    requires { limit < 2 ^ 63 }
    ensures { ReadsScript result limit
        (change (I.faults input.old) (I.faults input.new) (I.left input.old) (I.left input.new)) }
{
    let mut text = Bytes::new(alloc);
    match read_input(input, limit, &mut text, &mut Nowhere)? {
        Read::TooLong => return Ok(Err(Ending::TooLong)),
        Read::Stopped => unreachable!(),
        Read::Whole => {}
    }
    read_text(alloc, text.as_slice())
}

/// Reads the text of a script, or finds how a run ends whose text is none.
pub(crate) fn read_text(alloc: Global, text: &[u8]) -> Result<Result<Script, Ending>, Trouble>
    ensures { ReadsText result text.now }
{
    match read_script(alloc, text) {
        Ok(script) => Ok(Ok(script)),
        Err(ScriptError::Fault { step, kind }) => Ok(Err(Ending::Faulty { step, kind })),
        Err(ScriptError::Memory) => Err(Trouble::Memory),
    }
}

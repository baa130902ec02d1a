//! The commands `fragment` and `join`: a stream becomes its recording of fragments, and back.
ghost use Rattle.std.specs.Prelude.{◌≡◌, ◌<◌, ◌^◌};
ghost use Rattle.gfx_base.specs.Stream.{change};
ghost use Rattle.gfx_fragments.specs.Found.{fragmented, joined};
ghost use Rattle.gfxpipe.specs.Fragments.{ending_as};
ghost use Rattle.gfxpipe.specs.Rules.{Works};

use crate::ending::Ending;
use crate::trouble::Trouble;
use gfx_base::{Sink, Source};
use gfx_fragments::Ended;
use std::alloc::Global;

/// How a command on fragments ended, as a run of the program ends.
fn ending_as(ended: Ended) -> Ending
    ensures { result ≡ ending_as ended }
{
    match ended {
        Ended::Done => Ending::Done,
        Ended::TooLong => Ending::TooLong,
        Ended::Refused { number, refusal } => Ending::Refused { number, refusal },
    }
}

/// Reads a stream within the limit, and writes its recording of fragments.
pub(crate) fn fragment<I: Source, O: Sink>(
    alloc: Global,
    limit: usize,
    input: &mut I,
    out: &mut O,
) -> Result<Ending, Trouble>
    requires { limit < 2 ^ 63 }
    ensures { Works fragmented result limit
        (change (I.faults input.old) (I.faults input.new) (I.left input.old) (I.left input.new))
        (change (O.faults out.old) (O.faults out.new) (O.held out.old) (O.held out.new)) }
{
    let ended = gfx_fragments::fragment(alloc, limit, input, out)?;
    Ok(ending_as(ended))
}

/// Reads a recording of fragments within the limit, and writes its stream.
pub(crate) fn join<I: Source, O: Sink>(
    alloc: Global,
    limit: usize,
    input: &mut I,
    out: &mut O,
) -> Result<Ending, Trouble>
    requires { limit < 2 ^ 63 }
    ensures { Works joined result limit
        (change (I.faults input.old) (I.faults input.new) (I.left input.old) (I.left input.new))
        (change (O.faults out.old) (O.faults out.new) (O.held out.old) (O.held out.new)) }
{
    let ended = gfx_fragments::join(alloc, limit, input, out)?;
    Ok(ending_as(ended))
}

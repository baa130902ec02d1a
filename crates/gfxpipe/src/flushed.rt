//! The last word of a run whose output is buffered.
ghost use Rattle.gfx_base.specs.Stream.{change};
ghost use Rattle.gfxpipe.specs.Flushed.{IsSaid};

use crate::status::Status;
use gfx_base::{Failed, Sink, write_all};

/// Says on `err` the line of a run that ended so, once what its output held back is flushed, and answers
/// the status of the whole. A flush that failed makes it WriteFault, with the line of that, unless a
/// write had failed before; a line that can't be written makes it WriteFault too.
pub fn say_flushed<E: Sink>(
    status: Status,
    flushed: Result<(), Failed>,
    line: &[u8],
    err: &mut E,
) -> Status
    ensures { IsSaid result status flushed line.now
        (change (E.faults err.old) (E.faults err.new) (E.held err.old) (E.held err.new)) }
{
    let is_lost = flushed.is_err() && status != Status::WriteFault;
    let line = if is_lost {
        b"output: write failed\n"
    } else {
        line
    };
    match write_all(err, line) {
        Ok(()) if flushed.is_ok() => status,
        _ => Status::WriteFault,
    }
}

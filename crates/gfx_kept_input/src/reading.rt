ghost use Rattle.std.specs.Prelude.{◌≡◌, ◌<◌, ◌^◌};
ghost use Rattle.gfx_base.specs.Stream.{change};
ghost use Rattle.gfx_kept_input.specs.Due.{ReadsKept};
ghost use Rattle.gfx_kept_input.specs.Taking.{ended_by};

use crate::outcome::KeptInput;
use crate::taker::{Intake, Part};
use gfx_base::{Refusal, Source};
use gfx_input::{InputFault, Nowhere, Read, read_input};
use std::alloc::Global;

/// Reads an input: the server's kept file and the client's, each behind its length, and a script of at most `limit`
/// bytes behind them. It is refused as early as can be: by the server's file, then by the client's, KeptShape each,
/// then by both, KeptDiffers; the script is too long only where none of these comes. At most one file's bytes are held
/// beside what was read of the files.
pub fn read_kept_input<I: Source>(
    alloc: Global,
    limit: usize,
    input: &mut I,
) -> Result<KeptInput, InputFault>
    requires { limit < 2 ^ 63 }
    ensures { ReadsKept result limit
        (change (I.faults input.old) (I.faults input.new) (I.left input.old) (I.left input.new)) }
{
    let mut taker = Intake::new(alloc);
    let read = read_input(input, limit, &mut taker, &mut Nowhere)?;
    Ok(ended(read, taker))
}

/// What an input comes to that was read so far.
fn ended(read: Read, taker: Intake) -> KeptInput
    ensures { result ≡ ended_by read taker }
{
    let Intake {
        part,
        bytes,
        server,
        client,
        ..
    } = taker;
    match (read, part) {
        (Read::TooLong, _) => KeptInput::TooLong,
        (_, Part::Server | Part::Client) => KeptInput::Refused(Refusal::KeptShape),
        (_, Part::Script) => KeptInput::Whole {
            server: server.kept,
            client: client.kept,
            script: bytes,
        },
        (_, Part::Refused(refusal)) => KeptInput::Refused(refusal),
    }
}

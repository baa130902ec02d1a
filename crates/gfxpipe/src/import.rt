//! The command `import`: two files of kept bitmaps and a script are read, the session of the script is played, which begins
//! with what is imported of the files, and a line is written for each acknowledged frame.
ghost use Rattle.std.specs.Prelude.{◌≡◌, ◌<◌, ◌^◌, true};
ghost use Rattle.gfx_base.specs.Stream.{change};
ghost use Rattle.gfx_chooser.specs.Seen.{seen};
ghost use Rattle.gfx_import.specs.Agreed.{agree};
ghost use Rattle.gfx_script_text.specs.Text.{script_kept};
ghost use Rattle.gfxpipe.specs.Imports.{Begins, ReadsSession, imported_as};
ghost use Rattle.gfxpipe.specs.Outcome.{ended_of, session_of};
ghost use Rattle.gfxpipe.specs.Rule.{DidAll};
ghost use Rattle.gfxpipe.specs.Rules.{importing, kept_input};

use crate::ending::Ending;
use crate::outcome::Outcome;
use crate::session::play_out;
use crate::trouble::Trouble;
use gfx_base::{Sink, Source};
use gfx_chooser::Chooser;
use gfx_import::Kept;
use gfx_kept_input::{KeptInput, read_kept_input};
use gfx_script_text::{ScriptError, read_script_kept};
use gfx_session::{Digests, Session};
use std::alloc::Global;

/// Reads two files of kept bitmaps and a script within the limit, plays the session that begins with them, and writes a line
/// for each acknowledged frame.
pub(crate) fn import<C: Chooser, I: Source, O: Sink>(
    alloc: Global,
    limit: usize,
    choosers: &mut Vec<C>,
    input: &mut I,
    out: &mut O,
) -> Result<Outcome, Trouble>
    requires { limit < 2 ^ 63 }
    ensures { DidAll (ended_of result) (session_of result) importing kept_input (seen C.reply C.is_spent choosers.old.items) (seen C.reply C.is_spent choosers.new.items) limit
        (change (I.faults input.old) (I.faults input.new) (I.left input.old) (I.left input.new))
        (change (O.faults out.old) (O.faults out.new) (O.held out.old) (O.held out.new)) }
{
    match read_session(alloc, limit, input)? {
        Ok(begun) => {
            let session = play_out(begun, choosers, out)?;
            Ok(Outcome {
                ending: Ending::Done,
                session: Some(session),
            })
        }
        Err(ending) => Ok(Outcome {
            ending,
            session: None,
        }),
    }
}

/// Reads two files of kept bitmaps and a script within the limit, and begins their session, or finds how a run ends whose
/// input is refused. The files are let go.
fn read_session<I: Source>(
    alloc: Global,
    limit: usize,
    input: &mut I,
) -> Result<Result<Session, Ending>, Trouble>
    requires { limit < 2 ^ 63 }
    ensures { ReadsSession result limit
        (change (I.faults input.old) (I.faults input.new) (I.left input.old) (I.left input.new)) }
{
    match read_kept_input(alloc, limit, input)? {
        KeptInput::Whole {
            server,
            client,
            script,
        } => begin_session(alloc, &server, &client, script.as_slice()),
        KeptInput::TooLong => Ok(Err(Ending::TooLong)),
        KeptInput::Refused(refusal) => Ok(Err(Ending::Kept(refusal))),
    }
}

/// The session of a script that is read with these two files, or how a run ends whose text is none.
fn begin_session(
    alloc: Global,
    server: &Kept,
    client: &Kept,
    text: &[u8],
) -> Result<Result<Session, Ending>, Trouble>
    requires { agree server.now client.now ≡ true }
    ensures { Begins result (imported_as server.now client.now (script_kept server.now client.now text.now)) }
{
    match read_script_kept(alloc, text, server, client) {
        Ok(script) => {
            let session = Session::with_kept(alloc, script, server, client, Digests::On)?;
            Ok(Ok(session))
        }
        Err(ScriptError::Fault { step, kind }) => Ok(Err(Ending::Faulty { step, kind })),
        Err(ScriptError::Memory) => Err(Trouble::Memory),
    }
}

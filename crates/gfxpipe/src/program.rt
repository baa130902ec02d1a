//! The one public call.
ghost use Rattle.std.specs.Prelude.{◌≡◌, ◌<◌, ◌^◌, map};
ghost use Rattle.gfx_base.specs.Stream.{change};
ghost use Rattle.gfx_words.specs.CommandLine.{accepted};
ghost use Rattle.gfxpipe.specs.Outcome.{ended_of, session_of};
ghost use Rattle.gfx_chooser.specs.Seen.{seen};
ghost use Rattle.gfxpipe.specs.Rule.{limits};
ghost use Rattle.gfxpipe.specs.Run.{Executes, Runs};

use crate::audit::audit;
use crate::encode::encode;
use crate::ending::{Ending, close};
use crate::fragments::{fragment, join};
use crate::import::import;
use crate::make::make;
use crate::outcome::{Outcome, alone, parted};
use crate::render::{Dump, render};
use crate::session::session;
use crate::status::Status;
use crate::trial::trial;
use crate::trouble::Trouble;
use gfx_base::{Sink, Source};
use gfx_chooser::Chooser;
use gfx_session::Session;
use gfx_words::{Command, command_of};
use std::alloc::Global;

/// No recording is read further than one byte past this. This project's own rule.
pub const STREAM_LIMIT: usize = 1_073_741_824;

/// No script is read further than one byte past this. This project's own rule.
pub const SCRIPT_LIMIT: usize = 67_108_864;

/// What a run has come to.
#[derive(Drop)]
pub struct Ran {
    /// How it ended.
    pub status: Status,
    /// The session whose lines were written. It is there exactly where the command is `session`, `trial` or
    /// `import` and is done.
    pub session: Option<Session>,
}

impl Ran {
    /// How it ended. The session is let go.
    pub fn into_status(self) -> Status
        ensures { result ≡ self.status }
    {
        self.status
    }
}

/// Runs the program: the words are those behind its name, `out` gains what the command prints, and
/// `err` a line of how it ended where it is not done. Where a script is sent, these choosers are asked how the
/// paints go that name no kind, in order until one answers; one that is spent then is dropped.
pub fn run<C: Chooser, I: Source, O: Sink, E: Sink>(
    alloc: Global,
    words: &[&str],
    choosers: &mut Vec<C>,
    input: &mut I,
    out: &mut O,
    err: &mut E,
) -> Ran
    ensures { Runs result (accepted (map (λ word. word.now) words.now)) (seen C.reply C.is_spent choosers.old.items) (seen C.reply C.is_spent choosers.new.items) (limits STREAM_LIMIT SCRIPT_LIMIT)
        (change (I.faults input.old) (I.faults input.new) (I.left input.old) (I.left input.new))
        (change (O.faults out.old) (O.faults out.new) (O.held out.old) (O.held out.new))
        (change (E.faults err.old) (E.faults err.new) (E.held err.old) (E.held err.new)) }
{
    let outcome = execute(
        alloc,
        words,
        STREAM_LIMIT,
        SCRIPT_LIMIT,
        choosers,
        input,
        out,
    );
    let (ended, session) = parted(outcome);
    let status = close(&ended, err);
    Ran { status, session }
}

/// Finds the command of the words and carries it out, within the limits on a recording and on a script.
fn execute<C: Chooser, I: Source, O: Sink>(
    alloc: Global,
    words: &[&str],
    stream: usize,
    script: usize,
    choosers: &mut Vec<C>,
    input: &mut I,
    out: &mut O,
) -> Result<Outcome, Trouble>
    requires stream { stream < 2 ^ 63 }
    requires script { script < 2 ^ 63 }
    ensures { Executes (ended_of result) (session_of result) (accepted (map (λ word. word.now) words.now)) (seen C.reply C.is_spent choosers.old.items) (seen C.reply C.is_spent choosers.new.items) (limits stream script)
        (change (I.faults input.old) (I.faults input.new) (I.left input.old) (I.left input.new))
        (change (O.faults out.old) (O.faults out.new) (O.held out.old) (O.held out.new)) }
{
    match command_of(alloc, words) {
        Ok(Some(Command::Render)) => alone(render(alloc, Dump::Surfaces, stream, input, out)),
        Ok(Some(Command::RenderOutput)) => alone(render(alloc, Dump::Output, stream, input, out)),
        Ok(Some(Command::Audit)) => alone(audit(alloc, stream, input, out)),
        Ok(Some(Command::Encode)) => alone(encode(alloc, script, choosers, input, out)),
        Ok(Some(Command::Session)) => session(alloc, script, choosers, input, out),
        Ok(Some(Command::Make(number))) => alone(make(alloc, number, out)),
        Ok(Some(Command::Trial(number))) => trial(alloc, number, choosers, out),
        Ok(Some(Command::Import)) => import(alloc, script, choosers, input, out),
        Ok(Some(Command::Fragment)) => alone(fragment(alloc, stream, input, out)),
        Ok(Some(Command::Join)) => alone(join(alloc, stream, input, out)),
        Ok(None) => alone(Ok(Ending::Usage)),
        Err(_) => Err(Trouble::Memory),
    }
}

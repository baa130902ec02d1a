//! Serving a client: each record is read, done and answered, until the input ends.

ghost use Rattle.std.specs.Prelude.{IfOk, IfSome};
ghost use Rattle.gfx_session.specs.Live.{IsLive};

use crate::answers::{Answer, Denial, Said, write_answer};
use crate::bodies::read_step;
use crate::commands::{Command, LIMITS, Word, command_of};
use crate::opening::{Early, Opening};
use crate::paints::read_paint;
use gfx_base::{NoMemory, Sink, Source};
use gfx_estimate::BySize;
use gfx_session::{LiveEnd, LiveFault, ServerFault};
use live_records::{Ending, Record, read_record};
use std::alloc::Global;

/// A picture whose kind is left open goes in passes where it would take more hundredths of its pixels uncompressed.
const SHARE: u8 = 60;

/// Serves a client until the input ends.
pub fn serve_client<I: Source, O: Sink>(
    alloc: Global,
    input: &mut I,
    output: &mut O,
) -> Result<(), Ending> {
    let mut said = Said::new(alloc);
    let mut opening = Opening::new(alloc);
    match await_client(alloc, input, &mut opening, &mut said, output) {
        Err(ending) => Err(ending),
        Ok(None) => Ok(()),
        Ok(Some(mut live)) => feed(alloc, input, &mut live, opening.held(), &mut said, output),
    }
}

/// Answers until the client has said what it offers, and makes the server's end for it; none where the input ends
/// before. The bytes of the client are held, and aren't answered yet.
fn await_client<I: Source, O: Sink>(
    alloc: Global,
    input: &mut I,
    opening: &mut Opening,
    said: &mut Said,
    output: &mut O,
) -> Result<Option<LiveEnd>, Ending>
    ensures { IfOk result (λ found. IfSome found IsLive) }
{
    let mut room = Vec::new(alloc);
    'records: for _ in 0..u64::MAX {
        let Some(record) = read_record(input, LIMITS, &mut room)? else {
            return Ok(None);
        };
        let answer = match opening.obey(record) {
            Early::Answered(answer) => answer,
            Early::Chose(head) => {
                match LiveEnd::new(alloc, head, opening.digests()) {
                    Ok(live) => return Ok(Some(live)),
                    Err(_) => opening.close(Denial::Fault(ServerFault::Memory)),
                }
            }
        };
        write_answer(answer, said, output)?;
    }
    Ok(None)
}

/// Takes the bytes of the client that were held, and answers each record behind them.
fn feed<I: Source, O: Sink>(
    alloc: Global,
    input: &mut I,
    live: &mut LiveEnd,
    held: &[u8],
    said: &mut Said,
    output: &mut O,
) -> Result<(), Ending>
    requires { IsLive live.old }
{
    let answer = take(live, held, said);
    write_answer(answer, said, output)?;
    let mut room = Vec::new(alloc);
    let mut choosers = choosers(alloc)?;
    'records: for _ in 0..u64::MAX {
        let Some(record) = read_record(input, LIMITS, &mut room)? else {
            return Ok(());
        };
        said.clear();
        let answer = obey(alloc, live, &mut choosers, record, said);
        write_answer(answer, said, output)?;
    }
    Ok(())
}

/// What chooses how a picture goes whose kind is left open.
fn choosers(alloc: Global) -> Result<Vec<BySize>, NoMemory> {
    let mut choosers = Vec::new(alloc);
    choosers.push(BySize { share: SHARE })?;
    Ok(choosers)
}

/// Does what a record says.
fn obey(
    alloc: Global,
    live: &mut LiveEnd,
    choosers: &mut Vec<BySize>,
    record: Record<'_>,
    said: &mut Said,
) -> Answer
    requires { IsLive live.old }
    ensures { IsLive live.new }
{
    let command = match command_of(record) {
        Ok(command) => command,
        Err(answer) => return answer,
    };
    match command {
        Command::Take => take(live, record.body, said),
        Command::Settle => Answer::Untimely,
        Command::Push(word) => push(alloc, live, word, record.body),
        Command::Paint => paint(alloc, live, record.body),
        Command::Serve => serve(live, choosers, said),
        Command::ImproveIdle => improve(live),
        Command::WantsFrame => Answer::Says(live.wants_frame()),
        Command::StepsBehind => Answer::Behind(live.steps_behind()),
    }
}

/// Takes bytes of the client.
fn take(live: &mut LiveEnd, piece: &[u8], said: &mut Said) -> Answer
    requires { IsLive live.old }
    ensures { IsLive live.new }
{
    match live.take(piece, &mut said.out, &mut said.shown) {
        Ok(()) => Answer::Taken,
        Err(fault) => {
            said.clear();
            Answer::Denied(Denial::Fault(fault))
        }
    }
}

/// Pushes a step.
fn push(alloc: Global, live: &mut LiveEnd, word: Word, body: &[u8]) -> Answer
    requires { IsLive live.old }
    ensures { IsLive live.new }
{
    match read_step(alloc, word, body) {
        Ok(step) => pushed(live.push(step)),
        Err(fault) => fault.into(),
    }
}

/// Pushes a picture with its paint.
fn paint(alloc: Global, live: &mut LiveEnd, body: &[u8]) -> Answer
    requires { IsLive live.old }
    ensures { IsLive live.new }
{
    match read_paint(alloc, body) {
        Ok(paint) => pushed(live.paint(paint.id, paint.at, paint.picture, paint.kind, paint.glyph)),
        Err(fault) => fault.into(),
    }
}

/// Improves what shows, where nothing else is to do.
fn improve(live: &mut LiveEnd) -> Answer
    requires { IsLive live.old }
    ensures { IsLive live.new }
{
    match live.improve_idle() {
        Ok(improved) => Answer::Says(improved),
        Err(fault) => fault.into(),
    }
}

/// What is answered to what was pushed.
fn pushed(outcome: Result<(), LiveFault>) -> Answer {
    match outcome {
        Ok(()) => Answer::Done,
        Err(fault) => fault.into(),
    }
}

/// Has a turn.
fn serve(live: &mut LiveEnd, choosers: &mut Vec<BySize>, said: &mut Said) -> Answer
    requires { IsLive live.old }
    ensures { IsLive live.new }
{
    match live.serve(choosers, &mut said.out) {
        Ok(turned) => Answer::Served(turned),
        Err(_) => {
            said.clear();
            Answer::NoMemory
        }
    }
}

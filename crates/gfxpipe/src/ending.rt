//! What a command comes to, and the line that says so.
ghost use Rattle.std.specs.Prelude.{◌≡◌, ◌+◌, ◌≤◌, ◌++◌, length, codes};
ghost use Rattle.gfx_base.specs.Stream.{Writes, change};
ghost use Rattle.gfxpipe.specs.Ending.{status_of, line_of, message_line, kept_line, script_line, at_step, Closes};

use crate::status::Status;
use crate::trouble::Trouble;
use gfx_base::{Failed, Refusal, Sink, write_all};
use gfx_line::{LINE_ROOM, Line};
use gfx_script::ScriptKind;
use gfx_words::USAGE;

/// What a command comes to where no call failed.
#[derive(Clone, Copy, Debug, PartialEq, Eq)]
pub enum Ending {
    /// It has done all that it was given.
    Done,
    /// The words are no command.
    Usage,
    /// The input is longer than its limit.
    TooLong,
    /// The message of this number, counted from 1, is refused.
    Refused { number: u64, refusal: Refusal },
    /// The files of kept bitmaps are refused: one is none, or the two differ.
    Kept(Refusal),
    /// This is wrong with the step of this number, counted from 1; 0 stands for a fault outside the steps.
    Faulty { step: u32, kind: ScriptKind },
}

/// The status of a run that ends so.
fn status_of(ended: &Result<Ending, Trouble>) -> Status
    ensures { result ≡ status_of ended.now }
{
    match ended {
        Ok(Ending::Done) => Status::Done,
        Ok(Ending::Usage) => Status::Usage,
        Ok(Ending::TooLong | Ending::Refused { .. } | Ending::Kept(_) | Ending::Faulty { .. }) =>
            Status::Refused,
        Err(Trouble::Read) => Status::ReadFault,
        Err(Trouble::Write) => Status::WriteFault,
        Err(Trouble::Memory) => Status::NoMemory,
    }
}

/// Says on `err` how the run ended, in a line of its own or, where all is done, in none. A line that
/// can't be written makes the status WriteFault.
pub(crate) fn close<E: Sink>(ended: &Result<Ending, Trouble>, err: &mut E) -> Status
    ensures { Closes result ended.now
        (change (E.faults err.old) (E.faults err.new) (E.held err.old) (E.held err.new)) }
{
    match write_line(ended, err) {
        Ok(()) => status_of(ended),
        Err(_) => Status::WriteFault,
    }
}

/// Writes the line that says how a run ended.
fn write_line<E: Sink>(ended: &Result<Ending, Trouble>, err: &mut E) -> Result<(), Failed>
    ensures { Writes result
        (change (E.faults err.old) (E.faults err.new) (E.held err.old) (E.held err.new)) (line_of ended.now) }
{
    match ended {
        Ok(Ending::Done) => Ok(()),
        Ok(Ending::Usage) => write_usage(err),
        Ok(Ending::TooLong) => write_all(err, b"input: TooLong\n"),
        Ok(Ending::Refused { number, refusal }) => {
            write_all(err, message_line(*number, *refusal).as_slice())
        }
        Ok(Ending::Kept(refusal)) => write_all(err, kept_line(*refusal).as_slice()),
        Ok(Ending::Faulty { step, kind }) => {
            write_all(err, script_line(*step, *kind).as_slice())
        }
        Err(Trouble::Read) => write_all(err, b"input: read failed\n"),
        Err(Trouble::Write) => write_all(err, b"output: write failed\n"),
        Err(Trouble::Memory) => write_all(err, b"memory: none left\n"),
    }
}

/// Writes the usage line.
fn write_usage<E: Sink>(err: &mut E) -> Result<(), Failed>
    ensures { Writes result
        (change (E.faults err.old) (E.faults err.new) (E.held err.old) (E.held err.new)) (USAGE.now ++ codes "\n") }
{
    write_all(err, USAGE.as_bytes())?;
    write_all(err, b"\n")
}

/// The line of a refused message.
#[tactic(auto, unfolding(crate::specs::Ending::message_line))]
fn message_line(number: u64, refusal: Refusal) -> Line
    ensures { result ≡ message_line number refusal }
{
    let mut line = Line::new();
    line.put(b"message ");
    line.put_u64(number);
    line.put(b": ");
    line.put_u64(u64::from(refusal.number()));
    line.put(b" ");
    line.put(refusal.name().as_bytes());
    line.put(b"\n");
    line
}

/// The line of files of kept bitmaps that are refused.
#[tactic(auto, unfolding(crate::specs::Ending::kept_line))]
fn kept_line(refusal: Refusal) -> Line
    ensures { result ≡ kept_line refusal }
{
    let mut line = Line::new();
    line.put(b"kept: ");
    line.put_u64(u64::from(refusal.number()));
    line.put(b" ");
    line.put(refusal.name().as_bytes());
    line.put(b"\n");
    line
}

/// The line of a script that isn't accepted.
#[tactic(auto, unfolding(crate::specs::Ending::script_line))]
fn script_line(step: u32, kind: ScriptKind) -> Line
    ensures { result ≡ script_line step kind }
{
    let mut line = Line::new();
    line.put(b"script: ");
    put_step(&mut line, step);
    line.put(kind.name().as_bytes());
    line.put(b"\n");
    line
}

/// Appends the number of a step, where there is one.
fn put_step(line: &mut Line, step: u32)
    requires { length line.old + 32 ≤ LINE_ROOM }
    ensures bytes { line.new ≡ line.old ++ at_step step }
    ensures len { length line.new ≤ length line.old + 32 }
{
    if step == 0 {
        return;
    }
    line.put(b"step ");
    line.put_u32(step);
    line.put(b": ");
}

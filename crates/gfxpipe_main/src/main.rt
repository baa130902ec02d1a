//! The program `gfxpipe`: the real streams, one call of `gfxpipe::run`, and the exit number.
#![tactic(auto)]

use gfx_base::{NoMemory, VecSink};
use gfx_chooser::{ByArea, ByColours, Chooser};
use gfx_streams::{StdSink, StdSource};
use gfxpipe::{Status, run, say_flushed};
use std::env;
use std::io::{BufWriter, ErrorKind};
use std::process::ExitCode;

/// No line on the standard error is longer.
const LINE_ROOM: usize = 128;

/// Pictures of no more colours go by palettes, where a paint names no kind.
const FEW_COLOURS: u16 = 16;

/// Other pictures of at least so many pixels go in passes, where a paint names no kind.
const LARGE_AREA: u32 = 16_384;

/// No command has this word. It stands for words that aren't UTF-8.
const NO_COMMAND: &str = "\u{fffd}";

/// The largest block by which the C library's allocator takes its measure of what to keep: a little below 32 MB.
const MEASURE: usize = 33_546_240;

fn main(rt: HostRuntime) -> ExitCode {
    keep_freed_memory(&rt);
    let status = match start(&rt) {
        Ok(status) => status,
        Err(NoMemory) => {
            let mut err = StdSink::new(rt.stderr());
            say_flushed(Status::NoMemory, Ok(()), b"memory: none left\n", &mut err)
        }
    };
    ExitCode::from(status.number())
}

/// Has the allocator keep freed memory for what comes next. Payloads, canvases and pictures come again with each
/// message, and the system would else map and clear their pages anew each time: half of a large recording's time.
/// The C library's allocator gives a large block back once it is freed, until it has freed one at least as large;
/// it then keeps up to twice that one's size. The block that is taken here is never touched, so it costs no page.
fn keep_freed_memory(rt: &HostRuntime) {
    let block: Result<Vec<u8>, _> = Vec::with_capacity(rt.alloc(), MEASURE);
    drop(block);
}

/// Takes the words of the command line, and runs the program on the real streams.
fn start(rt: &HostRuntime) -> Result<Status, NoMemory> {
    match env::args(rt) {
        Ok(arguments) => {
            let arguments = arguments.skip(1).collect::<Vec<_>>(rt.alloc())?;
            let mut words = Vec::new(rt.alloc());
            for argument in &arguments {
                words.push(argument.as_str())?;
            }
            run_on_streams(rt, &words)
        }
        Err(error) if error.kind() == ErrorKind::InvalidData => run_on_streams(rt, &[NO_COMMAND]),
        Err(_) => Err(NoMemory),
    }
}

/// Runs the program on the real streams. What it prints is buffered; the line on the standard error
/// is written last, once the output is out.
fn run_on_streams(rt: &HostRuntime, words: &[&str]) -> Result<Status, NoMemory> {
    let alloc = rt.alloc();
    let mut input = StdSource::new(rt.stdin());
    let Ok(buffered) = BufWriter::new(alloc, rt.stdout()) else {
        return Err(NoMemory);
    };
    let mut output = StdSink::new(buffered);
    let mut line = VecSink::new(alloc, LINE_ROOM, &[])?;
    let mut choosers: Vec<Box<dyn Chooser>> = Vec::new(alloc);
    choosers.push(Box::new(alloc, ByColours { most: FEW_COLOURS })?)?;
    choosers.push(Box::new(alloc, ByArea { least: LARGE_AREA })?)?;
    let status = run(
        alloc,
        words,
        &mut choosers,
        &mut input,
        &mut output,
        &mut line,
    )
    .into_status();
    let mut err = StdSink::new(rt.stderr());
    Ok(say_flushed(status, output.flush(), line.held(), &mut err))
}

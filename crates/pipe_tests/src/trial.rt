//! The commands `make` and `trial`: scripts by number, and their sessions.
use crate::claiming::claim;
use crate::examples::{has_come_to, nobody, run_by};
use gfx_base::NoMemory;
use gfx_chooser::{ByArea, ByColours, Chooser};
use gfxpipe::Status;
use std::alloc::Global;

/// The lines of three trials, as a reference implementation prints them.
const TRIALS: [(&str, &str); 3] = [
    (
        "1",
        "trial 1 acks 7 step 402 client f19bda1877d2482533cfa2ef745f6d691bc74e0af3e0798c28909acca673f923 server f19bda1877d2482533cfa2ef745f6d691bc74e0af3e0798c28909acca673f923\n",
    ),
    (
        "2",
        "trial 2 acks 5 step 402 client f30e8f35bdc4667791ded217b7ddf83b4de09d4cbf7afc5996712f7ff9590251 server f30e8f35bdc4667791ded217b7ddf83b4de09d4cbf7afc5996712f7ff9590251\n",
    ),
    (
        "3",
        "trial 3 acks 7 step 402 client ab0b04f42ab392ab7492c8ff13588d96b332cfe00adb0530b291c9d8bf84bd90 server ab0b04f42ab392ab7492c8ff13588d96b332cfe00adb0530b291c9d8bf84bd90\n",
    ),
];

/// The room of the text of a script.
const ROOM: usize = 131_072;

/// Choosers that are asked for several paints.
type Choosers = Vec<Box<dyn Chooser>>;

/// Puts the choosers of trials behind others.
fn push_both(alloc: Global, choosers: &mut Choosers) -> Result<(), NoMemory> {
    choosers.push(Box::new(alloc, ByColours { most: 16 })?)?;
    choosers.push(Box::new(alloc, ByArea { least: 16_384 })?)?;
    Ok(())
}

/// Whether a trial by these choosers has this line.
fn is_told(
    alloc: Global,
    choosers: &mut Choosers,
    number: &str,
    line: &str,
) -> Result<bool, NoMemory> {
    push_both(alloc, choosers)?;
    let words = ["trial", number];
    let ran = run_by(alloc, &words, choosers, ROOM, &[], &[], &[])?;
    Ok(has_come_to(&ran, Status::Done, line.as_bytes(), ""))
}

/// The same by new choosers.
fn has_line(alloc: Global, number: &str, line: &str) -> Result<bool, NoMemory> {
    let mut choosers: Choosers = Vec::new(alloc);
    is_told(alloc, &mut choosers, number, line)
}

/// Whether each trial has its line.
fn all_have_lines(alloc: Global) -> Result<bool, NoMemory> {
    for (number, line) in &TRIALS {
        if !has_line(alloc, number, line)? {
            return Ok(false);
        }
    }
    Ok(true)
}

#[test]
fn trials_have_their_lines(rt: HostRuntime) {
    claim(&rt, all_have_lines(rt.alloc()));
}

/// Whether `encode` is done with a script, in a room for its stream.
fn is_encoded(alloc: Global, script: &[u8]) -> Result<bool, NoMemory> {
    let (mut choosers, room) = (nobody(alloc), 16 * ROOM);
    let ran = run_by(alloc, &["encode"], &mut choosers, room, script, &[], &[])?;
    Ok(ran.status == Status::Done)
}

/// Whether it is done with a script that is made.
fn made_is_encoded(alloc: Global) -> Result<bool, NoMemory> {
    let (mut choosers, words) = (nobody(alloc), ["make", "1"]);
    let made = run_by(alloc, &words, &mut choosers, ROOM, &[], &[], &[])?;
    let done = made.status == Status::Done;
    Ok(is_encoded(alloc, made.out.held())? && done)
}

/// What is made is a script that is accepted.
#[test]
fn what_is_made_is_encoded(rt: HostRuntime) {
    claim(&rt, made_is_encoded(rt.alloc()));
}

/// Whether the first write that fails ends a command with a number, where the first read would fail too.
fn write_of_number_fails(alloc: Global, word: &str) -> Result<bool, NoMemory> {
    let (mut choosers, words) = (nobody(alloc), [word, "1"]);
    let ran = run_by(alloc, &words, &mut choosers, ROOM, &[], &[1], &[1])?;
    let line = "output: write failed\n";
    Ok(has_come_to(&ran, Status::WriteFault, &[], line))
}

#[test]
fn writes_that_fail(rt: HostRuntime) {
    claim(&rt, write_of_number_fails(rt.alloc(), "make"));
    claim(&rt, write_of_number_fails(rt.alloc(), "trial"));
}

//! Serving a viewer: each record is read, done and answered, until the input ends.

use crate::answers::{Answer, Said, Wrong, write_answer};
use crate::commands::{Command, LIMITS};
use crate::viewer::Viewer;
use gfx_base::{Sink, Source};
use live_records::{Ending, Record, read_record};
use std::alloc::Global;

/// Serves a viewer until the input ends.
pub fn serve_viewer<I: Source, O: Sink>(
    alloc: Global,
    input: &mut I,
    output: &mut O,
) -> Result<(), Ending> {
    let mut viewer = Viewer::new(alloc)?;
    let mut said = Said::new(alloc);
    answer_all(alloc, input, &mut viewer, &mut said, output)
}

/// Answers each record.
fn answer_all<I: Source, O: Sink>(
    alloc: Global,
    input: &mut I,
    viewer: &mut Viewer,
    said: &mut Said,
    output: &mut O,
) -> Result<(), Ending> {
    let mut room = Vec::new(alloc);
    'records: for _ in 0..u64::MAX {
        let Some(record) = read_record(input, LIMITS, &mut room)? else {
            return Ok(());
        };
        said.clear();
        let answer = obey(viewer, record, said);
        write_answer(answer, said, output)?;
    }
    Ok(())
}

/// Does what a record says.
fn obey(viewer: &mut Viewer, record: Record<'_>, said: &mut Said) -> Answer {
    let Some(command) = Command::of_kind(record.kind) else {
        return Answer::Unknown;
    };
    if command.is_bare() && !record.body.is_empty() {
        return Answer::Wrong(Wrong::Key);
    }
    match command {
        Command::Offer => viewer.offer(record.body),
        Command::Hello => viewer.hello(said),
        Command::Take => viewer.take(record.body, said),
        Command::Written => viewer.written(said),
        Command::Picture => viewer.picture(record.body, said),
    }
}

//! A client that another program drives: it reads commands from the standard input, and writes one answer to each to
//! the standard output (docs/LIVE.md).
//!
//! The program that starts it has a transport and a window. It hands on the server's channel messages; what it is
//! answered goes to the server, and tells which part of the output was written and how a rectangle of it looks. The
//! protocol, the caches and the surfaces are kept here.
#![tactic(auto)]

mod answers;
mod commands;
mod offers;
mod serving;
mod viewer;
mod written;

use gfx_streams::{StdSink, StdSource};
use serving::serve_viewer;
use std::process::ExitCode;

fn main(rt: HostRuntime) -> ExitCode {
    let mut input = StdSource::new(rt.stdin());
    let mut output = StdSink::new(rt.stdout());
    match serve_viewer(rt.alloc(), &mut input, &mut output) {
        Ok(()) => ExitCode::SUCCESS,
        Err(ending) => {
            // Where the line can't be written either, the exit number says enough.
            let _ = eprintln!(rt; "{ending}");
            ExitCode::FAILURE
        }
    }
}

//! A server's end that another program feeds: it reads commands from the standard input, and writes one answer to
//! each to the standard output (docs/LIVE.md).
//!
//! The program that starts it has a screen that changes, and the bytes of its client. It says what the screen shows,
//! and hands the client's bytes on; what it is answered goes to the client. The protocol, the caches and the window
//! are kept here.
//!
//! What commands may come goes by whether the client has said which versions it offers:
//!
//! ```text
//!               a beginning of what it says              whatever comes
//!                   +----+                                   +----+
//!                   v    |                                   v    |
//! start -------> opening ---- its first message is whole --> fed
//!                   |                                         |
//!                   +-------- the end of the input -----------+----> 0
//! ```
#![tactic(auto)]

mod answers;
mod bodies;
mod commands;
mod opening;
mod paints;
mod serving;
mod settings;

use gfx_streams::{StdSink, StdSource};
use serving::serve_client;
use std::process::ExitCode;

/// The largest block by which the C library's allocator takes its measure of what to keep: a little below 32 MB.
const MEASURE: usize = 33_546_240;

fn main(rt: HostRuntime) -> ExitCode {
    keep_freed_memory(&rt);
    let mut input = StdSource::new(rt.stdin());
    let mut output = StdSink::new(rt.stdout());
    match serve_client(rt.alloc(), &mut input, &mut output) {
        Ok(()) => ExitCode::SUCCESS,
        Err(ending) => {
            // Where the line can't be written either, the exit number says enough.
            let _ = eprintln!(rt; "{ending}");
            ExitCode::FAILURE
        }
    }
}

/// Has the allocator keep freed memory for what comes next, since a picture comes with each paint. The C library's
/// allocator gives a large block back once it is freed, until it has freed one at least as large; it then keeps up to
/// twice that one's size. The block that is taken here is never touched, so it costs no page.
fn keep_freed_memory(rt: &HostRuntime) {
    let block: Result<Vec<u8>, _> = Vec::with_capacity(rt.alloc(), MEASURE);
    drop(block);
}

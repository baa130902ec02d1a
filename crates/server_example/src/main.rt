//! How a server embeds its end of a session: scripts are planned, the bytes of a client are heard, and
//! what goes to the client is printed.
//!
//! How a picture goes whose paint names no kind, a chooser of this program's own says.
//!
//! The client here offers version 10, takes what it is sent, and acknowledges each frame late, so that
//! steps wait for the window, are joined into one frame, and those that others cover are left out.
#![tactic(auto)]

ghost use Rattle.std.specs.Prelude.{IfSome};
ghost use Rattle.gfx_session.specs.Kept.{IsServerEnd};

mod chooser;
mod scripts;

use anyhow::anyhow;
use chooser::Lines;
use gfx_base::Bytes;
use gfx_schedule::Turned;
use gfx_script_text::read_script;
use gfx_session::{Digests, ServerEnd, ServerFault};
use scripts::{EXAMPLES, Example};
use std::alloc::Global;

/// A picture that is no higher is taken for a line of text.
const LINE_HEIGHT: u16 = 2;

/// What happens to the server's end.
#[derive(Clone, Copy, Debug)]
enum Event {
    /// Its client says which versions it offers.
    Offers,
    /// Its client acknowledges a frame, the so many-th that it has drawn.
    Acknowledges { frame: u8, drawn: u8 },
    /// It has a turn.
    Serves,
}

/// What a client says first: it offers version 10 without the video codec AVC, maybe with a small cache.
fn offers(small: bool) -> [u8; 26] {
    let flags = if small { 0x22 } else { 0x20 };
    [
        0x16, 0, 0, 0, 0x12, 0, 0, 0, 0x16, 0, 0, 0, 1, 0, 2, 0, 0xa, 0, 4, 0, 0, 0, flags, 0, 0, 0,
    ]
}

/// The acknowledgement of a frame, the so many-th that was drawn.
fn acknowledgement(frame: u8, drawn: u8) -> [u8; 24] {
    [
        0x14, 0, 0, 0, 0xd, 0, 0, 0, 0x14, 0, 0, 0, 0, 0, 0, 0, frame, 0, 0, 0, drawn, 0, 0, 0,
    ]
}

/// The first frame goes at once; the next two wait for its acknowledgement, and go as one.
const EVENTS: [Event; 9] = [
    Event::Offers,
    Event::Serves,
    Event::Serves,
    Event::Serves,
    Event::Serves,
    Event::Acknowledges { frame: 1, drawn: 1 },
    Event::Serves,
    Event::Acknowledges { frame: 2, drawn: 2 },
    Event::Serves,
];

/// A client that acknowledges a frame that it was never sent.
const WRONG_EVENTS: [Event; 4] = [
    Event::Offers,
    Event::Serves,
    Event::Acknowledges { frame: 9, drawn: 1 },
    Event::Acknowledges { frame: 1, drawn: 1 },
];

fn main(rt: HostRuntime) -> anyhow::Result<()> {
    for example in &EXAMPLES {
        println!(rt; "{}", example.rule)?;
        play(&rt, rt.alloc(), example, &EVENTS)?;
    }
    println!(rt; "a frame is acknowledged that was never sent")?;
    play(&rt, rt.alloc(), &EXAMPLES[0], &WRONG_EVENTS)
}

/// Plays these events on the server's end of a script, and prints what each comes to.
fn play(rt: &impl Print, alloc: Global, example: &Example, events: &[Event]) -> anyhow::Result<()> {
    match start(alloc, example) {
        Some(mut server) => {
            let mut choosers = Vec::new(alloc);
            choosers.push(Lines { most: LINE_HEIGHT })?;
            play_all(rt, alloc, &mut server, &mut choosers, example.small, events)
        }
        None => Err(anyhow!("no server's end")),
    }
}

/// The server's end of a script, if the script has no fault and memory suffices.
fn start(alloc: Global, example: &Example) -> Option<ServerEnd>
    ensures { IfSome result IsServerEnd }
{
    match read_script(alloc, example.script.as_bytes()) {
        Ok(script) => ServerEnd::new(alloc, script, Digests::Off).ok(),
        Err(_) => None,
    }
}

/// Plays these events one after the other.
fn play_all(
    rt: &impl Print,
    alloc: Global,
    server: &mut ServerEnd,
    choosers: &mut Vec<Lines>,
    small: bool,
    events: &[Event],
) -> anyhow::Result<()>
    requires { IsServerEnd server.old }
    ensures { IsServerEnd server.new }
{
    'events: for event in events {
        let mut out = Bytes::new(alloc);
        let told = play_one(server, choosers, small, *event, &mut out);
        println!(rt; "{event:?}: {told:?}")?;
        print_bytes(rt, out.as_slice())?;
    }
    Ok(())
}

/// What an event comes to.
#[derive(Clone, Copy, Debug)]
enum Told {
    /// So many acknowledgements were taken.
    Heard(u32),
    /// The client's bytes are refused.
    Refused(ServerFault),
    /// What the turn did.
    Turned(Turned),
    /// No memory is left.
    NoMemory,
}

/// Plays an event; what goes to the client is put out.
fn play_one(
    server: &mut ServerEnd,
    choosers: &mut Vec<Lines>,
    small: bool,
    event: Event,
    out: &mut Bytes,
) -> Told
    requires { IsServerEnd server.old }
    ensures { IsServerEnd server.new }
{
    match event {
        Event::Offers => hear(server, &offers(small), out),
        Event::Acknowledges { frame, drawn } => hear(server, &acknowledgement(frame, drawn), out),
        Event::Serves => match server.serve(choosers, out) {
            Ok(turned) => Told::Turned(turned),
            Err(_) => Told::NoMemory,
        },
    }
}

/// Hears bytes of the client.
fn hear(server: &mut ServerEnd, bytes: &[u8], out: &mut Bytes) -> Told
    requires { IsServerEnd server.old }
    ensures { IsServerEnd server.new }
{
    match server.take(bytes, out) {
        Ok(count) => Told::Heard(count),
        Err(fault) => Told::Refused(fault),
    }
}

/// Prints bytes in hexadecimal, if there are any.
fn print_bytes(rt: &impl Print, bytes: &[u8]) -> anyhow::Result<()> {
    if bytes.is_empty() {
        return Ok(());
    }
    for byte in bytes {
        print!(rt; "{byte:02x}")?;
    }
    println!(rt; "")?;
    Ok(())
}

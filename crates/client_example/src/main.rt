//! How a thin client embeds the client's end: the bytes of the channel come in pieces, and each message is
//! drawn as soon as it is whole.
//!
//! Here they come from the standard input, in pieces of 16 bytes, as from a slow line. What a client would
//! send to its server is printed, and at the end what it shows; and whether the stream ended where a message did.
#![tactic(auto)]

ghost use Rattle.std.specs.Prelude.{OnOk};
ghost use Rattle.gfx_client.specs.Client.{IsAtEnd};

use anyhow::{Context, anyhow};
use gfx_base::{Pixel, Rect};
use gfx_caps::VERSION_10;
use gfx_client::{Client, Offer, Offers, Stepped};
use gfx_surface::Surface;
use std::alloc::Global;
use std::io::Read;

/// How many bytes come at a time.
const PIECE: usize = 16;

fn main(rt: HostRuntime) -> anyhow::Result<()> {
    let mut client = connect(rt.alloc())?;
    draw_all(&rt, &mut client)
}

/// Says the client's first words, draws what comes from the standard input until it ends, and shows it.
fn draw_all(rt: &HostRuntime, client: &mut Client) -> anyhow::Result<()> {
    print!(rt; "to the server:")?;
    let hello = client.hello().ok().context("no memory is left")?;
    print_bytes(rt, hello.as_slice())?;
    let mut input = rt.stdin();
    let mut piece = [0; PIECE];
    for _ in 0..u64::MAX {
        draw(rt, client)?;
        let count = input.read(&mut piece)?;
        if count == 0 {
            return end_of_stream(rt, client);
        }
        client.take(&piece[..count])?;
    }
    Err(anyhow!("the stream doesn't end"))
}

/// A client that offers version 10.
fn connect(alloc: Global) -> anyhow::Result<Client> {
    let mut offers = Offers::new(alloc);
    let offer = Offer {
        version: VERSION_10,
        small: false,
        thin: false,
    };
    offers.push(offer).ok().context("no memory is left")?;
    Client::new(alloc, offers).ok().context("no memory is left")
}

/// Draws all messages that are whole, and answers each frame's end. Then the client needs more bytes.
fn draw(rt: &impl Print, client: &mut Client) -> anyhow::Result<()>
    ensures { OnOk result (IsAtEnd client.new) }
{
    for _ in 0..u64::MAX {
        match client.step()? {
            Stepped::Applied { .. } => {}
            Stepped::Ended { frame, reply, .. } => {
                print!(rt; "frame {frame} is drawn; to the server:")?;
                print_bytes(rt, reply.as_slice())?;
                print_damage(rt, client)?;
            }
            Stepped::Need => return Ok(()),
        }
    }
    Err(anyhow!("the messages don't end"))
}

/// Prints which part of the screen a frame has written: a client copies no more than that to its window.
fn print_damage(rt: &impl Print, client: &Client) -> anyhow::Result<()> {
    let damage = client.damage();
    if damage.is_whole() {
        println!(rt; "  anything may show")?;
        return Ok(());
    }
    let mut from = 0;
    for _ in 0..=u16::MAX {
        let Some(id) = client.surfaces().next_id(from) else {
            break;
        };
        print_rects(rt, id, damage.rects(id))?;
        // The id 65,535 has none behind it.
        let Some(next) = id.checked_add(1) else {
            break;
        };
        from = next;
    }
    Ok(())
}

/// Prints the rectangles of a surface that were written.
fn print_rects(rt: &impl Print, id: u16, rects: &[Rect]) -> anyhow::Result<()> {
    for rect in rects {
        let Rect {
            left,
            top,
            right,
            bottom,
        } = *rect;
        println!(rt; "  surface {id}: from {left}, {top} to {right}, {bottom}")?;
    }
    Ok(())
}

/// Shows what is drawn. A stream that ends within a message is told, and is an error.
fn end_of_stream(rt: &impl Print, client: &Client) -> anyhow::Result<()>
    requires { IsAtEnd client.now }
{
    show(rt, client)?;
    match client.finish() {
        Ok(()) => Ok(()),
        Err(fault) => {
            println!(rt; "the stream is cut: {fault}")?;
            Err(anyhow!("the stream is cut"))
        }
    }
}

/// Prints how many messages are drawn, and all surfaces by ascending id.
fn show(rt: &impl Print, client: &Client) -> anyhow::Result<()> {
    println!(rt; "{} messages are drawn", client.applied())?;
    let surfaces = client.surfaces();
    let mut from = 0;
    for _ in 0..=u16::MAX {
        let Some(id) = surfaces.next_id(from) else {
            break;
        };
        if let Some(surface) = surfaces.get(id) {
            show_surface(rt, id, surface)?;
        }
        // The id 65,535 has none behind it.
        let Some(next) = id.checked_add(1) else {
            break;
        };
        from = next;
    }
    Ok(())
}

/// Prints the size of a surface, and its first pixel as B, G, R, A.
fn show_surface(rt: &impl Print, id: u16, surface: &Surface) -> anyhow::Result<()> {
    let (width, height) = surface.size();
    print!(rt; "surface {id} of {width} by {height}, which begins with")?;
    if width == 0 || height == 0 {
        println!(rt; " nothing")?;
        return Ok(());
    }
    let Pixel { b, g, r, a } = surface.pixel(0, 0);
    print_bytes(rt, &[b, g, r, a])
}

/// Prints bytes in hexadecimal, and ends the line.
fn print_bytes(rt: &impl Print, bytes: &[u8]) -> anyhow::Result<()> {
    for byte in bytes {
        print!(rt; " {byte:02x}")?;
    }
    println!(rt; "")?;
    Ok(())
}

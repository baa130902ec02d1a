//! The line of an acknowledged frame.
ghost use Rattle.std.specs.Prelude.{◌≡◌};
ghost use Rattle.gfx_base.specs.Stream.{Writes, change};
ghost use Rattle.gfx_report.specs.Texts.{ack_line};

use crate::hexadecimal::put_digests;
use gfx_base::{Failed, Sink, write_all};
use gfx_line::Line;

/// Writes the line of an acknowledged frame: its id, its recorded step, and the digests of the client's and
/// of the server's state right after it. It takes no memory; after a fault the sink has gained a front of
/// the line. The text is this project's own rule.
pub fn write_ack<O: Sink>(
    frame: u32,
    step: u32,
    client: &[u8; 32],
    server: &[u8; 32],
    out: &mut O,
) -> Result<(), Failed>
    ensures { Writes result
        (change (O.faults out.old) (O.faults out.new) (O.held out.old) (O.held out.new))
        (ack_line frame step client.now server.now) }
{
    write_all(out, ack_line(frame, step, client, server).as_slice())
}

/// The line of an acknowledged frame.
#[tactic(auto, unfolding(crate::specs::Texts::ack_line))]
fn ack_line(frame: u32, step: u32, client: &[u8; 32], server: &[u8; 32]) -> Line
    ensures { result ≡ ack_line frame step client.now server.now }
{
    let mut line = Line::new();
    line.put(b"ack ");
    line.put_u32(frame);
    line.put(b" step ");
    line.put_u32(step);
    put_digests(client, server, &mut line);
    line
}

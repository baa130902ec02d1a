//! The line of a trial.
ghost use Rattle.std.specs.Prelude.{◌≡◌};
ghost use Rattle.gfx_base.specs.Stream.{Writes, change};
ghost use Rattle.gfx_report.specs.Texts.{digests_text, trial_line, trial_text};

use crate::hexadecimal::put_digests;
use gfx_base::{Failed, Sink, write_all};
use gfx_line::Line;

/// Writes the line of a trial: its number, how many frames were acknowledged, the last recorded step, and the
/// digests of the client's and of the server's state right after it. It takes no memory; after a fault the
/// sink has gained a front of the line. The text is this project's own rule.
pub fn write_trial<O: Sink>(
    number: u32,
    count: usize,
    step: u32,
    client: &[u8; 32],
    server: &[u8; 32],
    out: &mut O,
) -> Result<(), Failed>
    ensures { Writes result
        (change (O.faults out.old) (O.faults out.new) (O.held out.old) (O.held out.new))
        (trial_line number count step client.now server.now) }
{
    write_all(out, trial_text(number, count, step).as_slice())?;
    write_all(out, digests_text(client, server).as_slice())
}

/// What a trial came to.
fn trial_text(number: u32, count: usize, step: u32) -> Line
    ensures { result ≡ trial_text number count step }
{
    let mut line = Line::new();
    line.put(b"trial ");
    line.put_u32(number);
    line.put(b" acks ");
    line.put_u64(count as u64);
    line.put(b" step ");
    line.put_u32(step);
    line
}

/// The digests of both states, to the end of the line.
fn digests_text(client: &[u8; 32], server: &[u8; 32]) -> Line
    ensures { result ≡ digests_text client.now server.now }
{
    let mut line = Line::new();
    put_digests(client, server, &mut line);
    line
}

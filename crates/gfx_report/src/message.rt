//! The line of a message.
ghost use Rattle.std.specs.Prelude.{◌≡◌, ◌≤◌, length};
ghost use Rattle.gfx_base.specs.Stream.{Writes, change};
ghost use Rattle.gfx_report.specs.Audit.{audit_line, message_name};

use gfx_base::{Failed, Sink, write_all};
use gfx_line::Line;
use gfx_pdu::Id;

/// How many bytes the longest name has.
const MOST_NAME: usize = 21;

/// Writes the line of a message: its number, its name as the standard has it, and its size in bytes, header
/// included. It takes no memory; after a fault the sink has gained a front of the line. The text is this
/// project's own rule.
pub fn audit_line<O: Sink>(number: u64, id: Id, size: usize, out: &mut O) -> Result<(), Failed>
    ensures { Writes result
        (change (O.faults out.old) (O.faults out.new) (O.held out.old) (O.held out.new))
        (audit_line number id size) }
{
    write_all(out, message_line(number, id, size).as_slice())
}

/// The line of a message.
#[tactic(auto, unfolding(crate::specs::Audit::audit_line))]
fn message_line(number: u64, id: Id, size: usize) -> Line
    ensures { result ≡ audit_line number id size }
{
    let mut line = Line::new();
    line.put_u64(number);
    line.put(b" ");
    line.put(name_of(id));
    line.put(b" ");
    line.put_u64(size as u64);
    line.put(b"\n");
    line
}

/// The name of a message ([MS-RDPEGFX] 2.2.2), without its frame.
fn name_of(id: Id) -> &'static [u8]
    ensures name { result.now ≡ message_name id }
    ensures len { length result.now ≤ MOST_NAME }
{
    match id {
        Id::WireToSurface1 => b"WireToSurface1",
        Id::WireToSurface2 => b"WireToSurface2",
        Id::DeleteEncodingContext => b"DeleteEncodingContext",
        Id::SolidFill => b"SolidFill",
        Id::SurfaceToSurface => b"SurfaceToSurface",
        Id::SurfaceToCache => b"SurfaceToCache",
        Id::CacheToSurface => b"CacheToSurface",
        Id::EvictCacheEntry => b"EvictCacheEntry",
        Id::CreateSurface => b"CreateSurface",
        Id::DeleteSurface => b"DeleteSurface",
        Id::StartFrame => b"StartFrame",
        Id::EndFrame => b"EndFrame",
        Id::ResetGraphics => b"ResetGraphics",
        Id::MapSurfaceToOutput => b"MapSurfaceToOutput",
        Id::CapsConfirm => b"CapsConfirm",
    }
}

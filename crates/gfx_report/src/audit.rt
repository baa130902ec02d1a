//! The end of an audit.
ghost use Rattle.std.specs.Prelude.{◌≡◌};
ghost use Rattle.gfx_base.specs.Stream.{Writes, change};
ghost use Rattle.gfx_report.specs.Audit.{audit_end_text, tiles_line};

use crate::slots::write_slots;
use crate::stores::write_stores;
use gfx_base::{Failed, Sink, write_all};
use gfx_bitmap_cache::Cache;
use gfx_clear::ClearState;
use gfx_line::Line;

/// Writes the end of an audit: how many slots are filled and a line for each, ascending, with its number, its
/// sides, its key and the SHA-256 of its pixels; a line for the bars and one for the shorts, each with its
/// cursor, how many there are and the SHA-256 of their bytes; a line for the glyphs without a cursor; and a
/// line for the count of tiles. It takes no memory, and copies no picture; after a fault the sink has gained
/// a front of the text. The text and the bytes are this project's own rule.
pub fn audit_end<O: Sink>(
    cache: &Cache,
    clear: &ClearState,
    tiles: usize,
    out: &mut O,
) -> Result<(), Failed>
    ensures { Writes result
        (change (O.faults out.old) (O.faults out.new) (O.held out.old) (O.held out.new))
        (audit_end_text cache.now.slots clear.now.rings clear.now.glyphs tiles) }
{
    write_slots(cache, out)?;
    write_stores(clear, out)?;
    write_all(out, tiles_line(tiles).as_slice())
}

/// The line of the count of tiles.
#[tactic(auto, unfolding(crate::specs::Audit::tiles_line))]
fn tiles_line(count: usize) -> Line
    ensures { result ≡ tiles_line count }
{
    let mut line = Line::new();
    line.put(b"tiles ");
    line.put_u64(count as u64);
    line.put(b"\n");
    line
}

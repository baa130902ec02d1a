//! What a message touches, as it stood before: cells of the surface and records, kept and put back.
ghost use Rattle.std.specs.Prelude.{◌≡◌, IsTrue, OnErr, OnOk};
ghost use Rattle.std.specs.FinMap as finmap;
ghost use Rattle.gfx_surface.specs.Picture.{IsPicture};
ghost use Rattle.gfx_prog_decode.specs.Coding.{begins_in};
ghost use Rattle.gfx_prog_decode.specs.Scene.{scene};
ghost use Rattle.gfx_prog_decode.specs.Undo.{CanBack, Keeps, StaysUndoable, kept, nothing, undone};

use crate::key::Key;
use crate::records::Records;
use crate::tile_log::TileLog;
use gfx_base::NoMemory;
use gfx_surface::{CellLog, Surface};
use gfx_tile_state::TileState;
use std::alloc::Global;

/// The cells and the records that a message touched, and memory for more of them.
#[derive(Drop)]
pub(crate) struct Log {
    pub(crate) cells: CellLog,
    pub(crate) records: TileLog,
}

impl Log {
    /// Nothing. It takes no memory.
    pub(crate) fn new(alloc: Global) -> Log
        ensures { kept result ≡ nothing }
    {
        Log {
            cells: CellLog::new(alloc),
            records: TileLog::new(alloc),
        }
    }

    /// A record, of any state.
    pub(crate) fn tile(&mut self, alloc: Global) -> Result<TileState, NoMemory>
        ensures { kept self.new ≡ kept self.old }
    {
        self.records.tile(alloc)
    }

    /// Lets go of all that is kept, but for its memory.
    pub(crate) fn spend(&mut self)
        ensures { kept self.new ≡ nothing }
    {
        self.cells.spend();
        self.records.spend();
    }
}

/// Keeps a key's record and its cell before their first change.
pub(crate) fn keep(
    alloc: Global,
    log: &mut Log,
    records: &Records,
    surface: &Surface,
    key: Key,
) -> Result<(), NoMemory>
    requires { IsTrue (begins_in surface.now.width surface.now.height key.x key.y) }
    ensures ok { OnOk result (Keeps key (scene records.now surface.now) (kept log.old) (kept log.new)) }
    ensures err { OnErr result (StaysUndoable (kept log.old) (scene records.now surface.now) (kept log.new) (scene records.now surface.now)) }
{
    log.records.keep(alloc, records, key)?;
    log.cells.keep(alloc, surface, key.cell())?;
    Ok(())
}

/// Puts a record in the place of a key's own, which is kept before its first change, as is its cell.
pub(crate) fn exchange(
    alloc: Global,
    log: &mut Log,
    records: &mut Records,
    surface: &Surface,
    key: Key,
    tile: TileState,
) -> Result<(), NoMemory>
    requires shape { IsPicture surface.now }
    requires begins { IsTrue (begins_in surface.now.width surface.now.height key.x key.y) }
    ensures exchanged { OnOk result (records.new ≡ finmap.insert records.old key tile) }
    ensures keeps { OnOk result (Keeps key (scene records.old surface.now) (kept log.old) (kept log.new)) }
    ensures undo { OnErr result (StaysUndoable (kept log.old) (scene records.old surface.now) (kept log.new) (scene records.new surface.now)) }
{
    log.cells.keep(alloc, surface, key.cell())?;
    log.records.exchange(records, key, tile)?;
    Ok(())
}

/// Puts all back.
pub(crate) fn undo(records: &mut Records, surface: &mut Surface, log: &mut Log)
    requires { CanBack (kept log.old).tiles records.old }
    ensures { scene records.new surface.new ≡ undone (kept log.old) (scene records.old surface.old) }
{
    log.records.put_back(records);
    log.cells.put_back(surface);
}

//! Memory that stands for nothing, kept so that the next message takes none.
ghost use Rattle.std.specs.Prelude.{◌≡◌, IfOk};

use gfx_base::NoMemory;
use gfx_tile_state::TileState;
use std::alloc::Global;

/// How many records' memory is kept at most: those of a desktop of 3840 by 2160 pixels. This project's own rule.
const MOST_SPARE: usize = 2_048;

/// Records that no longer have to be put back. What stands in them means nothing.
#[derive(Drop)]
pub(crate) struct Spare {
    tiles: Vec<TileState>,
}

impl Spare {
    /// Nothing yet. It takes no memory.
    pub(crate) fn new(alloc: Global) -> Spare {
        Spare {
            tiles: Vec::new(alloc),
        }
    }

    /// A record that is the same as another.
    pub(crate) fn copy(&mut self, alloc: Global, tile: &TileState) -> Result<TileState, NoMemory>
        ensures { IfOk result (λ copy. copy ≡ tile.now) }
    {
        let mut copy = self.tile(alloc)?;
        copy.copy_from(tile);
        Ok(copy)
    }

    /// A record, of any state.
    pub(crate) fn tile(&mut self, alloc: Global) -> Result<TileState, NoMemory> {
        match self.tiles.pop() {
            Some(spare) => Ok(spare),
            None => TileState::new(alloc),
        }
    }

    /// Takes a record, if there is one.
    pub(crate) fn take(&mut self, tile: Option<TileState>) {
        if let Some(tile) = tile {
            self.take_tile(tile);
        }
    }

    /// Takes a record. Where there is no room for it, it is let go of.
    fn take_tile(&mut self, tile: TileState) {
        if self.tiles.len() < MOST_SPARE {
            let _ = self.tiles.push(tile);
        }
    }
}

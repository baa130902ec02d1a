//! What a key had before a message touched it.
use crate::key::Key;
use gfx_tile_state::TileState;

/// A key's record, if it had one.
#[derive(Drop)]
pub(crate) struct SavedTile {
    pub(crate) key: Key,
    pub(crate) tile: Option<TileState>,
}

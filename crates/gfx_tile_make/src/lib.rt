//! Tiles at the server's end of the progressive codec: pixels to quantised values, and level by level
//! the values and the data that are sent of them, whole or as the difference from another tile.
//!
//! It stands on the transforms, the quantising and the coders, and its laws on what records of tiles
//! make of its data. The messages of progressive paints are written over it.
#![tactic(auto)]

mod data;
mod entry;
mod fitting;
mod laws;
mod levels;
mod part;
mod passing;
mod planes;
mod source;

pub use data::Pass;
pub use laws::{
    first_is_shown, kept_is_due, last_is_direct, one_pass, pass_is_read, plain_may_be_sent,
    upgrade_is_shown,
};
pub use part::SourcePart;
pub use source::SourceTile;

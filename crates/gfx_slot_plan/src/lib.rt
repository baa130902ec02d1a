//! The server's choice of slots for its cache of bitmaps: which slot a key takes, and which keys go
//! for it. Contracts see the keys with their slots and bytes as one list, the most recently used first.
//!
//! It stands on `gfx_base`, and on `gfx_bitmap_cache` for the limits; the planner and the reader of
//! scripts above it hold one.
#![tactic(auto)]

mod allocation;
mod kept;
mod laws;
mod plan;
mod pool;
mod shelf;

pub use kept::{Kept, Slots};
pub use laws::{keys_are_kept_in_turn, least_recently_used_go};
pub use plan::SlotPlan;

//! The cache of bitmaps of a client or of a server, by slots, within the limits on their number and
//! their bytes. Contracts see a finite map from slots to keys and images.
//!
//! It stands on `gfx_base`; the state of the client and of the planner above it hold one. The server's
//! choice of slots keeps to the same limits.
#![tactic(auto)]

mod cache;
mod limits;
mod slot;

pub use cache::Cache;
pub use limits::{
    MOST_BYTES, MOST_SLOTS, MOST_SMALL_BYTES, MOST_SMALL_SLOTS, budget, bytes_for, last_slot,
};

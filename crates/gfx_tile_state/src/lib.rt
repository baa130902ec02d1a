//! Records of progressive tiles: what passes have left of a tile, and its pixels.
//!
//! It stands on the coders, the transforms and the quantising. The progressive decoder keeps such a
//! record for each cell that was painted, and the server's source tiles are measured against it.
#![tactic(auto)]

mod entries;
mod first;
mod kept;
mod laws;
mod part;
mod planes;
mod scratch;
mod shape;
mod state;
mod upgrading;

pub use laws::{
    a_first_pass_is, an_upgrade_is, known_signs, may_add_is, may_upgrade_is, one_reading,
    passes_of_one_transform, what_data_say,
};
pub use part::Part;
pub use scratch::Scratch;
pub use shape::PassShape;
pub use state::TileState;

//! The wavelet transforms of RemoteFX, both ways.
//! A leaf of the pipe: the tile crates stand on it, and it on nothing.
#![tactic(auto)]

mod analysis;
mod formula;
mod grid;
mod halves;
mod joining;
mod kernels;
mod layout;
mod lines;
mod narrow;
mod noughts;
mod splitting;
mod synthesis;

pub use analysis::{forward, forward_with};
pub use layout::{Band, Scale, Transform};
pub use narrow::{Workspace, inverse_narrow};
pub use noughts::{all_are, noughts_before};
pub use synthesis::{inverse, inverse_with};

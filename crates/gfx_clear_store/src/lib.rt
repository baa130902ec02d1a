//! The two stores of columns of a ClearCodec decoder: full columns, called bars, and shorts, the parts of
//! columns that differ from a background. Both are rings that are written at a cursor. A store can be
//! marked and rolled back to its mark, and finds the least place of given pixels by an index.
//!
//! It stands on `gfx_base`; the bands of ClearCodec read and write through it.
#![tactic(auto)]

mod bar;
mod entering;
mod finding;
mod home;
mod index;
mod laws;
mod log;
mod ring;
mod store;

pub use laws::the_least_is_found;
pub use store::{BARS, MOST_BAR, MOST_SHORT, SHORTS, Store};

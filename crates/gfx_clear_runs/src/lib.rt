//! Runs of ClearCodec: the residual layer and the RLEX subcodec, read and written.
//!
//! `gfx_clear` puts them into whole streams. They know nothing of bands, glyphs or surfaces.
#![tactic(auto)]

mod coding;
mod collect;
mod element;
mod front;
mod laws;
mod length;
mod paint;
mod palette;
mod read;
mod write;

pub use laws::{
    one_runs_form, read_runs_are_spelled, read_segments_are_spelled, rlex_reads_back,
    runs_are_longest, runs_read_back, spelled_runs_are_read, spelled_segments_are_read,
};
pub use paint::{paint_rlex, paint_runs};
pub use read::{read_rlex, read_runs};
pub use write::{write_rlex, write_runs};

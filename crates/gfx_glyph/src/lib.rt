//! Glyphs: small areas that ClearCodec keeps by an index, so that they are shown again by a few bytes.
//!
//! `gfx_clear` stores and shows them. A look-up of pixels goes through an index, so that a server finds a
//! glyph without a look at each.
#![tactic(auto)]

mod glyph;
mod glyphs;
mod print;

pub use glyph::Glyph;
pub use glyphs::Glyphs;

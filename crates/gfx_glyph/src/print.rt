//! A number that tells most pixels apart.
ghost use Rattle.std.specs.Prelude.{◌≡◌};
ghost use Rattle.gfx_glyph.specs.Index.{print_of};

use gfx_base::{Rgb, hash_of};

/// How many homes there are for prints.
pub(crate) const HOMES: usize = 4096;

/// The print of these pixels.
#[tactic(auto, unfolding(crate::specs::Index::print_of))]
pub(crate) fn print_of(pixels: &[Rgb]) -> u32
    ensures { result ≡ print_of pixels.now }
{
    (hash_of(pixels) >> 32) as u32
}

//! The sizes of a picture by each kind.
ghost use Rattle.std.specs.Prelude.{◌≡◌, List, ◌<◌, ◌≤◌, ◌+◌, ◌*◌, ◌/◌, ◌^◌, length};
ghost use Rattle.std.specs.List.{flat_map};
ghost use Rattle.gfx_base.specs.declared.pixel.Rgb.{Rgb};
ghost use Rattle.gfx_chooser.specs.Facts.{colours_in};
ghost use Rattle.gfx_clear.specs.State.{fresh};
ghost use Rattle.gfx_clear.specs.declared.layer.Layer.TheVariants.{Palette, Plain, Residual};
ghost use Rattle.gfx_clear_bands.specs.Writing.{black};
ghost use Rattle.gfx_clear_runs.specs.Writing.{longest_runs, runs_written, segment_spelled};
ghost use Rattle.gfx_estimate.specs.Inner.{are_palette};
ghost use Rattle.gfx_estimate.specs.Passes.{passes_size, steps_from};
ghost use Rattle.gfx_estimate.specs.Sizes.{layer_size, raw_size, sizes_of};

use crate::columns::bands_size;
use crate::runs::count_runs;
use gfx_base::BYTES_PER_PIXEL;
use gfx_chooser::{MOST_COLOURS, count_colours};
use gfx_script::Picture;

/// How many bytes the data of a paint have that shows a picture, by each kind that it may go as.
#[derive(Clone, Copy, Debug, PartialEq, Eq)]
pub struct Sizes {
    /// Uncompressed, exactly.
    pub raw: u64,
    /// By runs of one colour, exactly.
    pub residual: u64,
    /// By runs over a palette, or plainly where there are too many colours, exactly.
    pub palette: u64,
    /// Pixel by pixel, exactly.
    pub plain: u64,
    /// By bands to a client that holds no column, nearly: a word for each column, and the pixels of each that none
    /// before it was alike in its hash. Columns that the client holds already cost less.
    pub bands: u64,
    /// In passes, the first of them, roughly: so many bytes for each tile, and some for each step from a pixel to
    /// its right neighbour.
    pub passes: u64,
}

/// How many bytes stand before the one part of a ClearCodec stream that isn't empty.
pub(crate) const HEAD: u64 = 14;

/// How many bytes stand before the data of a subcodec.
const AREA: u64 = 13;

/// How many bytes a pixel has in a stream that has all of them.
const PIXEL: u64 = 3;

/// How many bytes a first pass has for each tile, roughly.
pub(crate) const TILE: u64 = 70;

/// Steps that are so large together take one byte more, roughly.
pub(crate) const STEP: u64 = 400;

/// What a picture costs by each kind where it has no glyph. It takes no memory, and looks at each pixel at most
/// three times.
#[tactic(auto, unfolding(crate::specs::Sizes::sizes_of))]
pub fn estimate(picture: &Picture) -> Sizes
    ensures { result ≡ sizes_of picture.now }
{
    let runs = count_runs(picture);
    Sizes {
        raw: raw_size(picture),
        residual: residual_size(picture, runs.residual),
        palette: palette_size(picture, runs.segments),
        plain: plain_size(picture),
        bands: bands_size(picture),
        passes: passes_size(picture, runs.steps),
    }
}

/// How many pixels a picture has.
fn area(picture: &Picture) -> u64
    ensures area { result ≡ picture.now.width * picture.now.height }
    ensures few { result < 2 ^ 32 }
{
    u64::from(picture.width) * u64::from(picture.height)
}

/// How many bytes it has uncompressed.
fn raw_size(picture: &Picture) -> u64
    ensures { result ≡ raw_size picture.now }
{
    BYTES_PER_PIXEL as u64 * area(picture)
}

/// How many bytes it has as residual, where its runs have so many.
fn residual_size(picture: &Picture, runs: u64) -> u64
    requires runs { runs ≡ length (runs_written (colours_in picture.now)) }
    requires few { runs < 2 ^ 48 }
    ensures { result ≡ layer_size fresh Residual picture.now }
{
    HEAD + runs
}

/// How many bytes it has pixel by pixel.
fn plain_size(picture: &Picture) -> u64
    ensures { result ≡ layer_size fresh Plain picture.now }
{
    HEAD + AREA + PIXEL * area(picture)
}

/// How many bytes it has by a palette, where its runs have so many as segments.
fn palette_size(picture: &Picture, segments: u64) -> u64
    requires segments { (palette : List Rgb) → segments ≡ length (flat_map (segment_spelled palette) (longest_runs (colours_in picture.now))) }
    requires few { segments < 2 ^ 48 }
    ensures { result ≡ layer_size fresh Palette picture.now }
{
    let colours = count_colours(picture);
    if are_palette(colours) {
        HEAD + AREA + 1 + PIXEL * u64::from(colours) + segments
    } else {
        plain_size(picture)
    }
}

/// Whether so many colours make a palette: there are some, and not too many.
fn are_palette(colours: u16) -> bool
    ensures { result ≡ are_palette colours }
{
    0 < colours && colours < MOST_COLOURS
}

/// How many bytes its first pass has, roughly, where the steps between its pixels are so large.
#[tactic(auto, unfolding(crate::specs::Passes::passes_size))]
fn passes_size(picture: &Picture, steps: u64) -> u64
    requires steps { steps ≡ steps_from black (colours_in picture.now) }
    requires few { steps < 2 ^ 48 }
    ensures { result ≡ passes_size picture.now }
{
    let (across, down) = (tiles_along(picture.width), tiles_along(picture.height));
    TILE * (across * down) + steps / STEP
}

/// How many tiles lie along a side.
fn tiles_along(side: u16) -> u64
    ensures tiles { result ≡ (side + 63) / 64 }
    ensures few { result ≤ 1024 }
{
    (u64::from(side) + 63) / 64
}

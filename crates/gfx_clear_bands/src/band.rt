//! The head of a band.
ghost use Rattle.std.specs.Prelude.{◌≡◌, ◌≤◌, true, length, IfOk, OnOk};
ghost use Rattle.gfx_clear_bands.specs.Bands.{band_head, is_shaped};
ghost use Rattle.gfx_clear_bands.specs.Inner.{IsShaped};

use crate::bar::colour_at;
use gfx_base::{Refusal, Rgb};
use gfx_clear_store::MOST_BAR;

/// A rectangle of a picture whose columns are sent one by one, its last column and its last row included.
#[derive(Clone, Copy)]
pub(crate) struct Band {
    pub(crate) left: u16,
    pub(crate) right: u16,
    pub(crate) top: u16,
    pub(crate) bottom: u16,
    pub(crate) background: Rgb,
}

/// How many bytes the head has.
pub(crate) const HEAD: usize = 11;

/// The head of the band at the front of these bytes.
#[tactic(auto, unfolding(crate::specs::Bands::band_head, gfx_base::specs::Results::and_then))]
pub(crate) fn band_head(bytes: &[u8], width: u16, height: u16) -> Result<Band, Refusal>
    ensures head { result ≡ band_head width height bytes.now }
    ensures shaped { IfOk result (IsShaped width height) }
    ensures within { OnOk result (HEAD ≤ length bytes.now) }
{
    if bytes.len() < HEAD {
        return Err(Refusal::ClearLengths);
    }
    let band = Band {
        left: u16::from_le_bytes([bytes[0], bytes[1]]),
        right: u16::from_le_bytes([bytes[2], bytes[3]]),
        top: u16::from_le_bytes([bytes[4], bytes[5]]),
        bottom: u16::from_le_bytes([bytes[6], bytes[7]]),
        background: colour_at(bytes, 8),
    };
    if !is_shaped(&band, width, height) {
        return Err(Refusal::BandShape);
    }
    Ok(band)
}

/// Whether its sides are in their order and in the picture, and it is no higher than a bar.
fn is_shaped(band: &Band, width: u16, height: u16) -> bool
    ensures test { result ≡ is_shaped width height band.now }
    ensures shaped { result ≡ true → IsShaped width height band.now }
{
    band.left <= band.right
        && band.right < width
        && band.top <= band.bottom
        && band.bottom < height
        && usize::from(band.bottom - band.top) < MOST_BAR
}

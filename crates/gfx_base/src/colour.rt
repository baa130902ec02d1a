//! Words on colours.
ghost use Rattle.std.specs.Prelude.{◌≡◌, ◌<◌, ◌^◌, length};
ghost use Rattle.std.specs.List.{fold};
ghost use Rattle.gfx_base.specs.Colour.{colour_of, opaque, is_opaque, same_colour, mixed, hash_of};

use crate::pixel::{Pixel, Rgb};

/// An odd number near 2^64 divided by the golden ratio.
const SPREAD: u64 = 0x9E37_79B9_7F4A_7C15;

impl Pixel {
    /// The pixel without its alpha.
    #[inline(always)]
    pub fn colour(self) -> Rgb
        ensures { result ≡ colour_of self }
    {
        Rgb {
            b: self.b,
            g: self.g,
            r: self.r,
        }
    }

    /// Whether nothing shines through the pixel: its alpha is 255.
    #[inline(always)]
    pub fn is_opaque(self) -> bool
        ensures { result ≡ is_opaque self }
    {
        self.a == 255
    }
}

impl Rgb {
    /// The colour as a pixel that nothing shines through, with alpha 255.
    #[inline(always)]
    pub fn opaque(self) -> Pixel
        ensures { result ≡ opaque self }
    {
        Pixel {
            b: self.b,
            g: self.g,
            r: self.r,
            a: 255,
        }
    }

    /// Whether two colours are the same.
    #[inline(always)]
    pub fn is_same(self, other: Rgb) -> bool
        ensures { result ≡ same_colour self other }
    {
        self.b == other.b && self.g == other.g && self.r == other.r
    }
}

/// A number of 64 bits that is another where pixels mostly are, for look-ups by hash.
pub fn hash_of(pixels: &[Rgb]) -> u64
    ensures { result ≡ hash_of pixels.now }
{
    let mut hash = pixels.len() as u64;
    for pixel in pixels {
        hash = mixed(hash, *pixel);
    }
    hash
}

/// A hash with one more pixel.
#[inline(always)]
#[tactic(auto, unfolding(crate::specs::Colour::mixed))]
fn mixed(hash: u64, pixel: Rgb) -> u64
    ensures { result ≡ mixed hash pixel }
{
    let number = u64::from(pixel.b) + 256 * u64::from(pixel.g) + 65536 * u64::from(pixel.r);
    hash.wrapping_add(number).wrapping_mul(SPREAD)
}

//! Pictures, which scripts name and paint.

ghost use Rattle.std.specs.Prelude.{◌≡◌, ◌<◌, ◌+◌, ◌*◌, ◌%◌, ◌^◌, ◌&&◌};
ghost use Rattle.std.specs.List.{slice_index_or};
ghost use Rattle.gfx_surface.specs.Picture.{no_pixel};
ghost use Rattle.gfx_script.specs.Patterns.{opaque, hash_at, noise_pixel, is_ink, is_in_middle, pattern_pixel, pixel_of};
ghost use Rattle.gfx_script.specs.Pictures.{are_sides, is_drawn};
ghost use Rattle.gfx_script.specs.Sparing.{without_pixels};

use crate::MOST_AREA;
use gfx_base::{Pixel, Pixels};

/// What a picture shows.
#[derive(Debug, Drop)]
pub enum Pattern {
    /// One colour.
    Solid { colour: Pixel },
    /// Shades by column and row.
    Ramp,
    /// Numbers that look drawn by chance.
    Noise { seed: u16 },
    /// Something like lines of black letters on white.
    Text,
    /// A light window in the middle of a blue desktop.
    Desktop,
    /// These pixels, row by row from the top.
    Hex { pixels: Pixels },
}

/// A picture of a script. Its sides are 1 to 65,535.
#[derive(Debug, Drop)]
pub struct Picture {
    pub width: u16,
    pub height: u16,
    pub pattern: Pattern,
}

/// The colour of pixels that a script has forgotten.
const BLACK: Pixel = Pixel {
    b: 0,
    g: 0,
    r: 0,
    a: 255,
};

/// The picture that stands for one that a script has forgotten: a black pixel.
pub(crate) const BLANK: Picture = Picture {
    width: 1,
    height: 1,
    pattern: Pattern::Solid { colour: BLACK },
};

impl Picture {
    /// The pixel at column x of row y.
    pub fn pixel(&self, x: u16, y: u16) -> Pixel
        ensures { result ≡ pixel_of self.now x y }
    {
        pattern_pixel(self.width, self.height, &self.pattern, x, y)
    }

    /// Whether the sides are from 1 on, and the pixels not too many.
    pub fn is_in_range(&self) -> bool
        ensures { result ≡ is_drawn self.now }
    {
        are_sides(self.width, self.height)
    }

    /// Forgets its pixels where they are listed: all are black then.
    pub(crate) fn forget_pixels(&mut self)
        ensures { self.new ≡ without_pixels self.old }
    {
        if let Pattern::Hex { .. } = &self.pattern {
            self.pattern = Pattern::Solid { colour: BLACK };
        }
    }
}

/// Whether a picture may have these sides.
pub(crate) fn are_sides(width: u16, height: u16) -> bool
    ensures { result ≡ are_sides width height }
{
    1 <= width && (1 <= height && u32::from(width) * u32::from(height) <= MOST_AREA)
}

/// The pixel of a pattern of these sides.
#[tactic(auto, unfolding(crate::specs::Patterns::pattern_pixel))]
#[inline(always)]
fn pattern_pixel(width: u16, height: u16, pattern: &Pattern, x: u16, y: u16) -> Pixel
    ensures { result ≡ pattern_pixel width height pattern.now x y }
{
    match pattern {
        Pattern::Solid { colour } => *colour,
        Pattern::Ramp => ramp_pixel(x, y),
        Pattern::Noise { seed } => noise_pixel(hash_at(*seed, x, y)),
        Pattern::Text if is_ink(x, y) => opaque(0, 0, 0),
        Pattern::Text => opaque(255, 255, 255),
        Pattern::Desktop if is_in_window(width, height, x, y) => opaque(240, 240, 240),
        Pattern::Desktop => opaque(160, 96, 32),
        Pattern::Hex { pixels } => listed_pixel(width, pixels.as_slice(), x, y),
    }
}

/// A colour with full alpha.
fn opaque(b: u8, g: u8, r: u8) -> Pixel
    ensures { result ≡ opaque b g r }
{
    Pixel { b, g, r, a: 255 }
}

/// Shades by column, row and their sum.
fn ramp_pixel(x: u16, y: u16) -> Pixel
    ensures { result ≡ opaque (x % 256) (y % 256) ((x + y) % 256) }
{
    let sum = u32::from(x) + u32::from(y);
    opaque((x % 256) as u8, (y % 256) as u8, (sum % 256) as u8)
}

/// A number of 32 bits from a place and a seed.
fn hash_at(seed: u16, x: u16, y: u16) -> u64
    ensures hash { result ≡ hash_at seed x y }
    ensures fits { result < 2 ^ 32 }
{
    let sum = 2654435761 * u64::from(x) + 2246822519 * u64::from(y) + 3266489917 * u64::from(seed);
    sum % 4294967296
}

/// The three upper bytes of a number of 32 bits.
fn noise_pixel(hash: u64) -> Pixel
    requires { hash < 2 ^ 32 }
    ensures { result ≡ noise_pixel hash }
{
    opaque(
        (hash / 16777216) as u8,
        (hash / 65536 % 256) as u8,
        (hash / 256 % 256) as u8,
    )
}

/// Whether a letter has ink at a place.
fn is_ink(x: u16, y: u16) -> bool
    ensures { result ≡ is_ink x y }
{
    let (column, row) = (u32::from(x % 8), u32::from(y % 16));
    let letter = 3 * u32::from(x / 8) + u32::from(y / 16);
    column < 6 && row < 11 && (column * row + letter) % 3 == 0
}

/// Whether a place lies in the middle half of both sides.
fn is_in_window(width: u16, height: u16, x: u16, y: u16) -> bool
    ensures { result ≡ (is_in_middle width x && is_in_middle height y) }
{
    is_in_middle(width, x) && is_in_middle(height, y)
}

/// Whether a place lies in the middle half of a side.
fn is_in_middle(side: u16, at: u16) -> bool
    ensures { result ≡ is_in_middle side at }
{
    let (side, at) = (u32::from(side), u32::from(at));
    side <= 4 * at && 4 * at < 3 * side
}

/// The pixel at a place of pixels that stand row by row.
fn listed_pixel(width: u16, pixels: &[Pixel], x: u16, y: u16) -> Pixel
    ensures { result ≡ slice_index_or pixels.now (y * width + x) no_pixel }
{
    let at = usize::from(y) * usize::from(width) + usize::from(x);
    match pixels.get(at) {
        Some(pixel) => *pixel,
        None => NO_PIXEL,
    }
}

/// What stands outside the pixels that are listed.
const NO_PIXEL: Pixel = Pixel {
    b: 0,
    g: 0,
    r: 0,
    a: 0,
};

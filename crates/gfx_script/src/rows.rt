//! Pictures of a screen's own bytes.

ghost use Rattle.std.specs.Prelude.{◌≡◌, ◌+◌, ◌*◌, ◌<◌, ℕ, IfOk, length, slice_index};
ghost use Rattle.gfx_base.specs.declared.format.Format.TheVariants.{Xrgb};
ghost use Rattle.gfx_base.specs.Outcome.{Gives};
ghost use Rattle.gfx_surface.specs.Picture.{raw_pixels};
ghost use Rattle.gfx_script.specs.Patterns.{opaque, pixel_of};
ghost use Rattle.gfx_script.specs.Pictures.{IsDrawn};
ghost use Rattle.gfx_script.specs.Rows.{picture_from};

use crate::error::{Flaw, ScriptKind};
use crate::picture::{Pattern, Picture, are_sides};
use gfx_base::{BYTES_PER_PIXEL, NoMemory, Pixel, Pixels};
use std::alloc::Global;

impl Picture {
    /// The picture of these rows from the top, of which each pixel has four bytes: blue, green, red, and one that
    /// says nothing. Range where the sides are out of their range or the pixels too many, Pixels where the bytes are
    /// fewer or more.
    #[tactic(auto, unfolding(crate::specs::Rows::picture_from, gfx_base::specs::Results::and_then))]
    pub fn from_rows(alloc: Global, width: u16, height: u16, rows: &[u8]) -> Result<Picture, Flaw>
        ensures exact { Gives (λ picture. picture) result (picture_from width height rows.now) }
        ensures drawn { IfOk result IsDrawn }
        ensures pixels { IfOk result (λ picture. (x y : ℕ) → x < width → y < height → pixel_of picture x y ≡ opaque (slice_index rows.now (4 * (y * width + x))) (slice_index rows.now (4 * (y * width + x) + 1)) (slice_index rows.now (4 * (y * width + x) + 2))) }
    {
        if !are_sides(width, height) {
            return Err(Flaw::Refused(ScriptKind::Range));
        }
        let area = usize::from(width) * usize::from(height);
        if rows.len() != BYTES_PER_PIXEL * area {
            return Err(Flaw::Refused(ScriptKind::Pixels));
        }
        let pixels = opaque_pixels(alloc, rows, area)?;
        Ok(Picture {
            width,
            height,
            pattern: Pattern::Hex { pixels },
        })
    }
}

/// So many pixels of these bytes.
fn opaque_pixels(alloc: Global, bytes: &[u8], count: usize) -> Result<Pixels, NoMemory>
    requires { length bytes.now ≡ BYTES_PER_PIXEL * count }
    ensures { IfOk result (λ pixels. pixels ≡ raw_pixels Xrgb bytes.now) }
{
    let mut pixels = vec![in alloc; NOTHING; count]?;
    fill_opaque(pixels.as_mut_slice(), bytes);
    Ok(Pixels::from_vec(pixels))
}

/// Makes pixels those of these bytes.
// Over slices of known lengths, so that no index is tested and the loop becomes one of vectors.
fn fill_opaque(pixels: &mut [Pixel], bytes: &[u8])
    requires { length bytes.now ≡ BYTES_PER_PIXEL * length pixels.old }
    ensures { pixels.new ≡ raw_pixels Xrgb bytes.now }
{
    'pixels: for i in 0..pixels.len() {
        let at = BYTES_PER_PIXEL * i;
        pixels[i] = Pixel {
            b: bytes[at],
            g: bytes[at + 1],
            r: bytes[at + 2],
            a: 255,
        };
    }
}

/// What a pixel is before its bytes are put there.
const NOTHING: Pixel = Pixel {
    b: 0,
    g: 0,
    r: 0,
    a: 0,
};

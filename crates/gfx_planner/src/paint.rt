//! The data of paints.
ghost use Rattle.std.specs.Prelude.{◌≡◌, ℕ, ◌<◌, ◌+◌, ◌*◌, ◌∷◌, [], ◌++◌, IfSome, IfOk, Some, OnOk, option_map};
ghost use Rattle.std.specs.List.{slice_get};
ghost use Rattle.gfx_planner.specs.Pixels.{pixels_in, colours_in};
ghost use Rattle.gfx_planner.specs.PaintMessages.{raw_bytes};

use gfx_base::{Bytes, NoMemory, Pixel, Rgb};
use gfx_script::Script;
use std::alloc::Global;

/// The uncompressed data of a picture of these sides ([MS-RDPEGFX] RDPGFX_CODECID_UNCOMPRESSED).
pub(crate) fn raw_payload(
    alloc: Global,
    script: &Script,
    picture: u32,
    width: u16,
    height: u16,
) -> Result<Bytes, NoMemory>
    requires { option_map {U = ℕ × ℕ} (λ one. (one.width, one.height)) (slice_get script.now.pictures picture) ≡ Some (width, height) }
    ensures { IfOk result (λ bytes. IfSome (slice_get script.now.pictures picture) (λ one. bytes ≡ raw_bytes (pixels_in one))) }
{
    let count = usize::from(width) * usize::from(height);
    let mut bytes = Vec::with_capacity(alloc, 4 * count)?;
    let (mut x, mut y) = (0, 0);
    'pixels: for _ in 0..count {
        put_pixel(&mut bytes, script.picture_pixel(picture, x, y))?;
        (x, y) = next_place(width, x, y);
    }
    Ok(Bytes::from_vec(bytes))
}

/// The colours of a picture of these sides, row by row.
pub(crate) fn colours(
    alloc: Global,
    script: &Script,
    picture: u32,
    width: u16,
    height: u16,
) -> Result<Vec<Rgb>, NoMemory>
    requires { option_map {U = ℕ × ℕ} (λ one. (one.width, one.height)) (slice_get script.now.pictures picture) ≡ Some (width, height) }
    ensures { IfOk result (λ colours. IfSome (slice_get script.now.pictures picture) (λ one. colours.items ≡ colours_in one)) }
{
    let count = usize::from(width) * usize::from(height);
    let mut colours = Vec::with_capacity(alloc, count)?;
    let (mut x, mut y) = (0, 0);
    'pixels: for _ in 0..count {
        colours.push(script.picture_pixel(picture, x, y).colour())?;
        (x, y) = next_place(width, x, y);
    }
    Ok(colours)
}

/// The place behind this one, row by row.
#[inline(always)]
fn next_place(width: u16, x: u16, y: u16) -> (u16, u16)
    requires inside { x < width }
    requires rows { y < 65535 }
    ensures inside { result.0 < width }
    ensures next { result.1 * width + result.0 ≡ y * width + x + 1 }
{
    if x + 1 < width {
        (x + 1, y)
    } else {
        (0, y + 1)
    }
}

/// Puts one more pixel to uncompressed data.
#[inline(always)]
fn put_pixel(bytes: &mut Vec<u8>, pixel: Pixel) -> Result<(), NoMemory>
    ensures { OnOk result (bytes.new.items ≡ bytes.old.items ++ (pixel.b ∷ pixel.g ∷ pixel.r ∷ pixel.a ∷ [])) }
{
    bytes.push(pixel.b)?;
    bytes.push(pixel.g)?;
    bytes.push(pixel.r)?;
    bytes.push(pixel.a)?;
    Ok(())
}

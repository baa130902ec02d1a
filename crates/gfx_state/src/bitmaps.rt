//! Bitmaps that are taken from surfaces.
ghost use Rattle.std.specs.Prelude.{◌≡◌, IfOk, IsTrue};
ghost use Rattle.gfx_base.specs.Geometry.{lies_in};
ghost use Rattle.gfx_bitmap_cache.specs.Slots.{image_of};
ghost use Rattle.gfx_state.specs.Step.{image_in};

use gfx_base::{Bitmap, NoMemory, Pixel, Pixels, Rect};
use gfx_surface::Surface;
use std::alloc::Global;

/// Whether a rectangle lies on a surface.
pub(crate) fn lies_on(rect: Rect, surface: &Surface) -> bool
    ensures { result ≡ lies_in surface.now.width surface.now.height rect }
{
    let (width, height) = surface.size();
    rect.lies_in(width, height)
}

/// The bitmap of a rectangle of a surface, as it stands.
pub(crate) fn bitmap_of(alloc: Global, surface: &Surface, rect: Rect) -> Result<Bitmap, NoMemory>
    requires { IsTrue (lies_in surface.now.width surface.now.height rect) }
    ensures { IfOk result (λ bitmap. image_of bitmap ≡ image_in surface.now rect) }
{
    let (width, height) = (rect.width(), rect.height());
    let area = usize::from(width) * usize::from(height);
    let mut pixels = Vec::from_elem(alloc, Pixel::default(), area)?;
    surface.read(rect, &mut pixels);
    Ok(Bitmap {
        width,
        height,
        pixels: Pixels::from_vec(pixels),
    })
}

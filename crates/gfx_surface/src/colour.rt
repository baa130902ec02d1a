//! Colours as a surface's format keeps them.
ghost use Rattle.std.specs.Prelude.{◌≡◌};
ghost use Rattle.gfx_base.specs.declared.pixel.Pixel.{Pixel as AnyPixel};
ghost use Rattle.gfx_surface.specs.Picture.{shade, zero_colour};

use gfx_base::{Format, Pixel};

/// The alpha of a pixel that nothing shines through.
pub const OPAQUE: u8 = 255;

/// The colour of a new surface ([MS-RDPEGFX] leaves it open; this project's own rule).
pub(crate) fn empty_colour(format: Format) -> Pixel
    ensures { result ≡ zero_colour format }
{
    shaded(
        format,
        Pixel {
            b: 0,
            g: 0,
            r: 0,
            a: 0,
        },
    )
}

/// A colour as this format keeps it.
pub(crate) fn shaded(format: Format, colour: Pixel) -> Pixel
    ensures { result ≡ shade format colour }
{
    match format {
        Format::Xrgb => Pixel {
            a: OPAQUE,
            ..colour
        },
        Format::Argb => colour,
    }
}

/// The format that keeps what these two formats keep.
pub(crate) fn kept_by_both(first: Format, second: Format) -> Format
    ensures { (pixel : AnyPixel) → shade result pixel ≡ shade first (shade second pixel) }
{
    match first {
        Format::Xrgb => Format::Xrgb,
        Format::Argb => second,
    }
}

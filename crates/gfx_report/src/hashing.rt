//! The bytes of surfaces and bitmaps, as a hasher takes them in.
ghost use Rattle.std.specs.Prelude.{◌≡◌, ◌<◌, ◌≤◌, ◌+◌, ◌*◌, length};
ghost use Rattle.gfx_bitmap_cache.specs.Slots.{entry, image_of};
ghost use Rattle.gfx_surface.specs.Picture.{row_of, run_of};
ghost use Rattle.gfx_report.specs.Hashing.{Took};
ghost use Rattle.gfx_report.specs.StateBytes.{two_bytes, sides_bytes, pixel_bytes, pixels_bytes, surface_bytes, slot_bytes};

use gfx_base::{BYTES_PER_PIXEL, Bitmap, Pixel};
use gfx_surface::Surface;
use sha2::{Digest, Sha256};

/// How many pixels are added in one piece.
const PIECE: usize = 256;

/// Adds a surface.
pub(crate) fn add_surface(id: u16, surface: &Surface, hasher: &mut Sha256)
    ensures { Took hasher.old hasher.new (surface_bytes id surface.now) }
{
    let (width, height) = surface.size();
    hasher.update(id.to_le_bytes());
    add_sides(width, height, hasher);
    hasher.update([surface.format().byte()]);
    add_rows(surface, hasher);
}

/// Adds a filled slot.
pub(crate) fn add_slot(slot: u16, key: u64, bitmap: &Bitmap, hasher: &mut Sha256)
    ensures { Took hasher.old hasher.new (slot_bytes slot (entry key (image_of bitmap.now))) }
{
    hasher.update(slot.to_le_bytes());
    hasher.update(key.to_le_bytes());
    add_sides(bitmap.width, bitmap.height, hasher);
    add_pixels(bitmap.pixels.as_slice(), hasher);
}

/// Adds two sides.
pub(crate) fn add_sides(width: u16, height: u16, hasher: &mut Sha256)
    ensures { Took hasher.old hasher.new (sides_bytes width height) }
{
    hasher.update(width.to_le_bytes());
    hasher.update(height.to_le_bytes());
}

/// Adds the pixels of a surface, row by row from the top.
fn add_rows(surface: &Surface, hasher: &mut Sha256)
    ensures { Took hasher.old hasher.new (pixels_bytes surface.now.pixels) }
{
    let (_, height) = surface.size();
    let mut pixels = [Pixel::default(); PIECE];
    let mut bytes = [0; BYTES_PER_PIXEL * PIECE];
    'rows: for y in 0..height {
        add_row(surface, y, &mut pixels, &mut bytes, hasher);
    }
}

/// Adds the pixels of a row of a surface, run by run.
fn add_row(surface: &Surface, y: u16, pixels: &mut [Pixel], bytes: &mut [u8], hasher: &mut Sha256)
    requires row { y < surface.now.height }
    requires pixels { length pixels.old ≡ PIECE }
    requires bytes { length bytes.old ≡ BYTES_PER_PIXEL * PIECE }
    ensures { Took hasher.old hasher.new (pixels_bytes (row_of surface.now y)) }
{
    let (width, _) = surface.size();
    let mut x = 0;
    'runs: while x < width {
        let count = usize::from(width - x).min(PIECE);
        let run = &mut pixels[..count];
        add_run(
            surface,
            x,
            y,
            run,
            &mut bytes[..BYTES_PER_PIXEL * count],
            hasher,
        );
        x += count as u16;
    }
}

/// Adds as many pixels of a row as a slice has, read into it.
fn add_run(
    surface: &Surface,
    x: u16,
    y: u16,
    pixels: &mut [Pixel],
    bytes: &mut [u8],
    hasher: &mut Sha256,
)
    requires columns { x + length pixels.old ≤ surface.now.width }
    requires row { y < surface.now.height }
    requires bytes { length bytes.old ≡ BYTES_PER_PIXEL * length pixels.old }
    ensures { Took hasher.old hasher.new (pixels_bytes (run_of surface.now x y (length pixels.old))) }
{
    surface.read_row(x, y, pixels);
    add_piece(pixels, bytes, hasher);
}

/// Adds pixels, piece by piece.
pub(crate) fn add_pixels(pixels: &[Pixel], hasher: &mut Sha256)
    ensures { Took hasher.old hasher.new (pixels_bytes pixels.now) }
{
    let mut bytes = [0; BYTES_PER_PIXEL * PIECE];
    let mut rest = pixels;
    'pieces: while !rest.is_empty() {
        let count = rest.len().min(PIECE);
        let (piece, after) = rest.split_at(count);
        add_piece(piece, &mut bytes[..BYTES_PER_PIXEL * count], hasher);
        rest = after;
    }
}

/// Adds pixels, whose bytes are made in a slice that is as long.
fn add_piece(pixels: &[Pixel], bytes: &mut [u8], hasher: &mut Sha256)
    requires { length bytes.old ≡ BYTES_PER_PIXEL * length pixels.now }
    ensures { Took hasher.old hasher.new (pixels_bytes pixels.now) }
{
    fill_bytes(pixels, bytes);
    hasher.update(bytes);
}

/// Fills a slice with the bytes of these pixels.
fn fill_bytes(pixels: &[Pixel], bytes: &mut [u8])
    requires { length bytes.old ≡ BYTES_PER_PIXEL * length pixels.now }
    ensures { bytes.new ≡ pixels_bytes pixels.now }
{
    'pixels: for i in 0..pixels.len() {
        let at = BYTES_PER_PIXEL * i;
        bytes[at..at + BYTES_PER_PIXEL].copy_from_slice(&bytes_of(pixels[i]));
    }
}

/// The bytes of a pixel.
fn bytes_of(pixel: Pixel) -> [u8; BYTES_PER_PIXEL]
    ensures { result ≡ pixel_bytes pixel }
{
    let Pixel { b, g, r, a } = pixel;
    [b, g, r, a]
}

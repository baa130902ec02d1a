//! Pixels as bytes.
ghost use Rattle.std.specs.Prelude.{◌≡◌, ◌*◌, ◌++◌, length, OnErr, OnOk};
ghost use Rattle.std.specs.List.{flat_map};
ghost use Rattle.gfx_surface_map.specs.Composed.{Keeps, pixel_bytes};

use gfx_base::{BYTES_PER_PIXEL, Bytes, NoMemory, Pixel};

/// How many pixels are made bytes in one piece.
const PIECE: usize = 256;

/// Puts the bytes of these pixels at the end, piece by piece; where memory ends, some of them may stand there.
pub(crate) fn append_pixels(pixels: &[Pixel], out: &mut Bytes) -> Result<(), NoMemory>
    ensures ok { OnOk result (out.new ≡ out.old ++ flat_map pixel_bytes pixels.now) }
    ensures err { OnErr result (Keeps out.old out.new) }
{
    let mut bytes = [0; BYTES_PER_PIXEL * PIECE];
    let mut rest = pixels;
    'pieces: while !rest.is_empty() {
        let count = rest.len().min(PIECE);
        let (piece, after) = rest.split_at(count);
        append_piece(piece, &mut bytes[..BYTES_PER_PIXEL * count], out)?;
        rest = after;
    }
    Ok(())
}

/// Puts the bytes of these pixels at the end, made in a slice that is as long.
fn append_piece(pixels: &[Pixel], bytes: &mut [u8], out: &mut Bytes) -> Result<(), NoMemory>
    requires { length bytes.old ≡ BYTES_PER_PIXEL * length pixels.now }
    ensures ok { OnOk result (out.new ≡ out.old ++ flat_map pixel_bytes pixels.now) }
    ensures err { OnErr result (out.new ≡ out.old) }
{
    fill_bytes(pixels, bytes);
    out.append(bytes)
}

/// Fills a slice with the bytes of these pixels.
fn fill_bytes(pixels: &[Pixel], bytes: &mut [u8])
    requires { length bytes.old ≡ BYTES_PER_PIXEL * length pixels.now }
    ensures { bytes.new ≡ flat_map pixel_bytes pixels.now }
{
    'pixels: for i in 0..pixels.len() {
        let at = BYTES_PER_PIXEL * i;
        bytes[at..at + BYTES_PER_PIXEL].copy_from_slice(&bytes_of(pixels[i]));
    }
}

/// The bytes of a pixel.
fn bytes_of(pixel: Pixel) -> [u8; BYTES_PER_PIXEL]
    ensures { result ≡ pixel_bytes pixel }
{
    let Pixel { b, g, r, a } = pixel;
    [b, g, r, a]
}

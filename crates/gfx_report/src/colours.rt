//! The bytes of colours, as a hasher takes them in.
ghost use Rattle.std.specs.Prelude.{◌≡◌, ◌*◌, length};
ghost use Rattle.gfx_clear_bands.specs.Writing.{colour_bytes};
ghost use Rattle.gfx_report.specs.Hashing.{Took};
ghost use Rattle.gfx_report.specs.StateBytes.{colours_bytes};

use gfx_base::Rgb;
use sha2::{Digest, Sha256};

/// How many bytes a colour has.
const COLOUR_BYTES: usize = 3;

/// How many colours are added in one piece. No column of a ring has more.
const PIECE: usize = 64;

/// Adds colours, piece by piece.
pub(crate) fn add_colours(pixels: &[Rgb], hasher: &mut Sha256)
    ensures { Took hasher.old hasher.new (colours_bytes pixels.now) }
{
    let mut bytes = [0; COLOUR_BYTES * PIECE];
    let mut rest = pixels;
    'pieces: while !rest.is_empty() {
        let count = rest.len().min(PIECE);
        let (piece, after) = rest.split_at(count);
        add_piece(piece, &mut bytes[..COLOUR_BYTES * count], hasher);
        rest = after;
    }
}

/// Adds colours, whose bytes are made in a slice that is as long.
fn add_piece(pixels: &[Rgb], bytes: &mut [u8], hasher: &mut Sha256)
    requires { length bytes.old ≡ COLOUR_BYTES * length pixels.now }
    ensures { Took hasher.old hasher.new (colours_bytes pixels.now) }
{
    fill_bytes(pixels, bytes);
    hasher.update(bytes);
}

/// Fills a slice with the bytes of these colours.
fn fill_bytes(pixels: &[Rgb], bytes: &mut [u8])
    requires { length bytes.old ≡ COLOUR_BYTES * length pixels.now }
    ensures { bytes.new ≡ colours_bytes pixels.now }
{
    'pixels: for i in 0..pixels.len() {
        let at = COLOUR_BYTES * i;
        bytes[at..at + COLOUR_BYTES].copy_from_slice(&bytes_of(pixels[i]));
    }
}

/// The bytes of a colour.
fn bytes_of(pixel: Rgb) -> [u8; COLOUR_BYTES]
    ensures { result ≡ colour_bytes pixel }
{
    let Rgb { b, g, r } = pixel;
    [b, g, r]
}

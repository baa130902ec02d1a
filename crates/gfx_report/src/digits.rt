//! Pixels as hexadecimal digits.
ghost use Rattle.std.specs.Prelude.{◌≡◌, ◌*◌, ◌/◌, ◌%◌, length, slice_index};
ghost use Rattle.std.specs.List.{flat_map};
ghost use Rattle.hex.specs.Hex.{lower_digits};
ghost use Rattle.gfx_report.specs.Texts.{pixel_digits};

use gfx_base::Pixel;

/// How many digits a pixel has.
pub const PIXEL_DIGITS: usize = 8;

/// The two digits of each byte. One look-up a byte is faster than one a digit.
const PAIRS: &[u8; 512] = b"000102030405060708090a0b0c0d0e0f\
    101112131415161718191a1b1c1d1e1f\
    202122232425262728292a2b2c2d2e2f\
    303132333435363738393a3b3c3d3e3f\
    404142434445464748494a4b4c4d4e4f\
    505152535455565758595a5b5c5d5e5f\
    606162636465666768696a6b6c6d6e6f\
    707172737475767778797a7b7c7d7e7f\
    808182838485868788898a8b8c8d8e8f\
    909192939495969798999a9b9c9d9e9f\
    a0a1a2a3a4a5a6a7a8a9aaabacadaeaf\
    b0b1b2b3b4b5b6b7b8b9babbbcbdbebf\
    c0c1c2c3c4c5c6c7c8c9cacbcccdcecf\
    d0d1d2d3d4d5d6d7d8d9dadbdcdddedf\
    e0e1e2e3e4e5e6e7e8e9eaebecedeeef\
    f0f1f2f3f4f5f6f7f8f9fafbfcfdfeff";

/// Fills a slice with the digits of these pixels.
pub(crate) fn fill_digits(pixels: &[Pixel], digits: &mut [u8])
    requires { length digits.old ≡ PIXEL_DIGITS * length pixels.now }
    ensures { digits.new ≡ flat_map pixel_digits pixels.now }
{
    'pixels: for i in 0..pixels.len() {
        let at = PIXEL_DIGITS * i;
        digits[at..at + PIXEL_DIGITS].copy_from_slice(&digits_of(pixels[i]));
    }
}

/// The digits of a pixel.
#[tactic(auto, unfolding(hex::specs::Hex::encode_with))]
fn digits_of(pixel: Pixel) -> [u8; PIXEL_DIGITS]
    ensures { result ≡ pixel_digits pixel }
{
    let Pixel { b, g, r, a } = pixel;
    [
        high(b),
        low(b),
        high(g),
        low(g),
        high(r),
        low(r),
        high(a),
        low(a),
    ]
}

/// The digit of a byte's upper half.
fn high(byte: u8) -> u8
    ensures { result ≡ slice_index lower_digits (byte / 16) }
{
    PAIRS[2 * usize::from(byte)]
}

/// The digit of a byte's lower half.
fn low(byte: u8) -> u8
    ensures { result ≡ slice_index lower_digits (byte % 16) }
{
    PAIRS[2 * usize::from(byte) + 1]
}

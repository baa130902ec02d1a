ghost use Rattle.std.specs.Prelude.{◌≡◌, ◌≤◌, ◌<◌, ◌+◌, ◌*◌, ℕ, pos, ◌+ℤ◌, ◌<ℤ◌, ◌≤ℤ◌, Some, slice_get};
ghost use Rattle.gfx_dwt.specs.Ranges.{at};
ghost use Rattle.gfx_quant.specs.Colour.{channel, colour_of};

use crate::colour::level;
use crate::halves::{Halves, join_halves, pair};
use gfx_base::Pixel;

/// A sample without its shift below nought. From 4,095 on each is white.
#[inline]
fn lifted(y: i16) -> i16
    ensures below { y <ℤ pos 4095 → result ≡ y +ℤ pos 4096 }
    ensures rest { pos 4095 ≤ℤ y → result ≡ pos 8191 }
{
    y.min(4095) + 4096
}

/// Each channel of a sample beside which Cb and Cr are nought.
#[inline]
fn grey(y: i16) -> u8
    ensures { result ≡ channel y (pos 0) }
{
    level(i64::from(lifted(y)))
}

/// Two halves of each pixel of a row whose Cb and Cr are nought.
#[inline]
fn put_grey_halves(y: &[i16; 4096], from: usize, low: &mut [u16; 64], high: &mut [u16; 64])
    requires { from + 64 ≤ 4096 }
    ensures low { (k : ℕ) → k < 64 → slice_get low.new k ≡ Some (channel (at y.now (from + k)) (pos 0) + 256 * channel (at y.now (from + k)) (pos 0)) }
    ensures high { (k : ℕ) → k < 64 → slice_get high.new k ≡ Some (channel (at y.now (from + k)) (pos 0)) }
{
    for place in 0..64 {
        let grey = grey(y[from + place]);
        low[place] = pair(grey, grey);
        high[place] = u16::from(grey);
    }
}

/// The pixels of a row whose Cb and Cr are nought.
#[inline]
fn put_grey_row(y: &[i16; 4096], from: usize, halves: &mut Halves, out: &mut [Pixel; 4096])
    requires { from + 64 ≤ 4096 }
    ensures row { (k : ℕ) → k < 64 → slice_get out.new (from + k) ≡ Some (colour_of (at y.now (from + k)) (pos 0) (pos 0)) }
    ensures before { (k : ℕ) → k < from → slice_get out.new k ≡ slice_get out.old k }
{
    put_grey_halves(y, from, &mut halves.low, &mut halves.high);
    join_halves(&halves.low, &halves.high, from, out);
}

/// The pixels of a tile whose Cb and Cr are nought.
pub(crate) fn put_greys(y: &[i16; 4096], out: &mut [Pixel; 4096])
    ensures { (k : ℕ) → k < 4096 → slice_get out.new k ≡ Some (colour_of (at y.now k) (pos 0) (pos 0)) }
{
    let mut halves = Halves::new();
    for number in 0..64 {
        put_grey_row(y, 64 * number, &mut halves, out);
    }
}

/// A tile of one pixel.
pub(crate) fn put_solid(pixel: Pixel, out: &mut [Pixel; 4096])
    ensures { (k : ℕ) → k < 4096 → slice_get out.new k ≡ Some pixel }
{
    for place in 0..4096 {
        out[place] = pixel;
    }
}

ghost use Rattle.std.specs.Prelude.{◌≡◌, ◌≤◌, ◌<◌, ◌+◌, ◌*◌, ◌/◌, ◌%◌, ℕ, Some, slice_get};

use gfx_base::Pixel;

/// Two halves of each pixel of a row: blue and green, and red. They are found eight at a time, and joined then.
#[derive(Drop)]
pub(crate) struct Halves {
    pub(crate) low: [u16; 64],
    pub(crate) high: [u16; 64],
}

impl Halves {
    /// Room for the pixels of a row.
    pub(crate) fn new() -> Self {
        Halves {
            low: [0; 64],
            high: [0; 64],
        }
    }
}

/// Blue and green in 16 bits.
#[inline]
pub(crate) fn pair(b: u8, g: u8) -> u16
    ensures { result ≡ b + 256 * g }
{
    u16::from(b) + 256 * u16::from(g)
}

#[inline]
fn joined(low: u16, high: u16) -> Pixel
    ensures { result ≡ record { b = low % 256; g = low / 256; r = high % 256; a = 255 } }
{
    Pixel {
        b: (low % 256) as u8,
        g: (low / 256) as u8,
        r: (high % 256) as u8,
        a: 255,
    }
}

/// Puts the pixels of a row together.
#[inline]
pub(crate) fn join_halves(low: &[u16; 64], high: &[u16; 64], from: usize, out: &mut [Pixel; 4096])
    requires { from + 64 ≤ 4096 }
    ensures row { (k b g r : ℕ) → k < 64 → b < 256 → r < 256 → slice_get low.now k ≡ Some (b + 256 * g) → slice_get high.now k ≡ Some r → slice_get out.new (from + k) ≡ Some (record { b = b; g = g; r = r; a = 255 }) }
    ensures before { (k : ℕ) → k < from → slice_get out.new k ≡ slice_get out.old k }
{
    for place in 0..64 {
        out[from + place] = joined(low[place], high[place]);
    }
}

ghost use Rattle.std.specs.Prelude.{◌≡◌, ◌+◌, ◌*◌, ◌<◌, ◌≤◌, length};
ghost use Rattle.gfx_clear_runs.specs.Elements.{entries, stop_bits};

use arrayvec::ArrayVec;
use gfx_base::Rgb;

/// No palette has more colours.
pub const PALETTE_MOST: usize = 127;

/// The colours of a palette.
pub type Colours = ArrayVec<Rgb, PALETTE_MOST>;

/// A palette, and how many bits of a segment's byte say where it stops.
#[derive(Drop)]
pub struct Palette {
    pub colours: Colours,
    pub bits: u32,
    pub ghost bits_of: { bits ≡ stop_bits (length colours.items) },
    pub ghost few: { bits < 8 },
}

/// How many bits of a segment's byte say where it stops, with a palette of so many colours.
#[tactic(auto, unfolding(crate::specs::Elements::stop_bits))]
pub(crate) fn stop_bits(colours: usize) -> u32
    ensures value { result ≡ stop_bits colours }
    ensures few { result < 8 }
{
    match colours {
        0..=2 => 1,
        3..=4 => 2,
        5..=8 => 3,
        9..=16 => 4,
        17..=32 => 5,
        33..=64 => 6,
        _ => 7,
    }
}

/// The palette of so many entries at the front of bytes.
#[tactic(auto, unfolding(crate::specs::Elements::entries))]
pub(crate) fn read_entries(count: usize, bytes: &[u8]) -> Colours
    requires most { count ≤ 127 }
    requires within { 3 * count ≤ length bytes.now }
    ensures { result.items ≡ entries count bytes.now }
{
    let mut colours = ArrayVec::new();
    for place in 0..count {
        let entry = &bytes[3 * place..3 * place + 3];
        colours.push(Rgb {
            b: entry[0],
            g: entry[1],
            r: entry[2],
        });
    }
    colours
}

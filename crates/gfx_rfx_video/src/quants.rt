ghost use Rattle.std.specs.Prelude.{◌≡◌, ◌+◌, ◌*◌, ◌/◌, ◌%◌, ◌<◌, refl};
ghost use Rattle.gfx_rfx_video.specs.Shapes.{video_quant};
ghost use Rattle.gfx_rfx_video.specs.Message.{packed};
ghost use Rattle.gfx_rfx_video.specs.Tiles.{quant_numbers};

use gfx_base::{Bytes, Items, NoMemory};
use gfx_layout::Part;
use gfx_quant::Quant;

/// A number of four bits for each band of a component, the one named first in the low half of its byte
/// ([MS-RDPRFX] 2.2.2.1.5, TS_RFX_CODEC_QUANT). Whether they may be used is judged where a tile set is
/// applied.
#[derive(Clone, Copy, Debug, PartialEq, Eq)]
pub struct VideoQuant {
    pub ll3_lh3: u8,
    pub hl3_hh3: u8,
    pub lh2_hl2: u8,
    pub hh2_lh1: u8,
    pub hl1_hh1: u8,
}

/// Quants, in the order of a tile set.
pub type VideoQuants = Items<VideoQuant>;

impl Part for VideoQuant {
    ghost shape = { video_quant };

    const SIZE: usize = 5;

    ghost SIZE = { 5 };

    ghost sized = { refl };

    #[inline(always)]
    #[tactic(auto, unfolding(gfx_layout::specs::Shape::part_in))]
    fn read(bytes: &[u8]) -> VideoQuant {
        VideoQuant {
            ll3_lh3: bytes[0],
            hl3_hh3: bytes[1],
            lh2_hl2: bytes[2],
            hh2_lh1: bytes[3],
            hl1_hh1: bytes[4],
        }
    }

    #[tactic(auto, unfolding(gfx_layout::specs::Shape::text))]
    fn put(self, out: &mut Bytes) -> Result<(), NoMemory> {
        out.append(&[
            self.ll3_lh3,
            self.hl3_hh3,
            self.lh2_hl2,
            self.hh2_lh1,
            self.hl1_hh1,
        ])
    }
}

fn low_nibble(byte: u8) -> u8
    ensures value { result ≡ byte % 16 }
    ensures small { result < 16 }
{
    byte % 16
}

fn high_nibble(byte: u8) -> u8
    ensures value { result ≡ byte / 16 }
    ensures small { result < 16 }
{
    byte / 16
}

/// A byte of two nibbles.
fn byte_of(low: u8, high: u8) -> u8
    requires low { low < 16 }
    requires high { high < 16 }
    ensures { result ≡ low + 16 * high }
{
    low + 16 * high
}

impl VideoQuant {
    /// The quant of these numbers.
    pub fn new(quant: &Quant) -> VideoQuant
        ensures { result ≡ packed quant.now.values }
    {
        let [hl1, lh1, hh1, hl2, lh2, hh2, hl3, lh3, hh3, ll3] = quant.values;
        VideoQuant {
            ll3_lh3: byte_of(ll3, lh3),
            hl3_hh3: byte_of(hl3, hh3),
            lh2_hl2: byte_of(lh2, hl2),
            hh2_lh1: byte_of(hh2, lh1),
            hl1_hh1: byte_of(hl1, hh1),
        }
    }

    /// Its numbers.
    pub fn quant(&self) -> Quant
        ensures { result.values ≡ quant_numbers self.now }
    {
        Quant {
            values: [
                low_nibble(self.hl1_hh1),
                high_nibble(self.hh2_lh1),
                high_nibble(self.hl1_hh1),
                high_nibble(self.lh2_hl2),
                low_nibble(self.lh2_hl2),
                low_nibble(self.hh2_lh1),
                low_nibble(self.hl3_hh3),
                high_nibble(self.ll3_lh3),
                high_nibble(self.hl3_hh3),
                low_nibble(self.ll3_lh3),
            ],
        }
    }
}

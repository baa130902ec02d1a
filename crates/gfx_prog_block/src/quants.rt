//! Quants as they stand in a region: five bytes each, two bands to a byte.

ghost use Rattle.std.specs.Prelude.{◌≡◌, refl};
ghost use Rattle.gfx_quant.specs.Quant.{quant_bytes, quant_values};
ghost use Rattle.gfx_prog_block.specs.Shapes.{packed_quant, region_level, quant_digits};

use gfx_base::{Bytes, Items, NoMemory};
use gfx_layout::Part;
use gfx_quant::{Quant, quant_from, quant_to};

/// A number of four bits for each band of a component, the one named first in the low half of its byte
/// ([MS-RDPEGFX] 2.2.4.2, RFX_COMPONENT_CODEC_QUANT). Whether they may be used is judged where a
/// region is applied.
#[derive(Clone, Copy, Debug, PartialEq, Eq)]
pub struct PackedQuant {
    pub ll3_hl3: u8,
    pub lh3_hh3: u8,
    pub hl2_lh2: u8,
    pub hh2_hl1: u8,
    pub lh1_hh1: u8,
}

/// Quants, in the order of a region.
pub type PackedQuants = Items<PackedQuant>;

impl PackedQuant {
    /// A quant in its five bytes.
    pub fn new(quant: &Quant) -> PackedQuant
        ensures bytes { quant_digits result ≡ quant_bytes quant.now.values }
        ensures back { quant_values (quant_digits result) ≡ quant.now.values }
    {
        let [ll3_hl3, lh3_hh3, hl2_lh2, hh2_hl1, lh1_hh1] = quant_to(quant);
        PackedQuant {
            ll3_hl3,
            lh3_hh3,
            hl2_lh2,
            hh2_hl1,
            lh1_hh1,
        }
    }

    /// The number of each band.
    pub fn quant(&self) -> Quant
        ensures values { result.values ≡ quant_values (quant_digits self.now) }
        ensures back { quant_bytes result.values ≡ quant_digits self.now }
    {
        quant_from(&[
            self.ll3_hl3,
            self.lh3_hh3,
            self.hl2_lh2,
            self.hh2_hl1,
            self.lh1_hh1,
        ])
    }
}

impl Part for PackedQuant {
    ghost shape = { packed_quant };

    const SIZE: usize = 5;

    ghost SIZE = { 5 };

    ghost sized = { refl };

    #[inline(always)]
    #[tactic(auto, unfolding(gfx_layout::specs::Shape::part_in))]
    fn read(bytes: &[u8]) -> PackedQuant {
        PackedQuant {
            ll3_hl3: bytes[0],
            lh3_hh3: bytes[1],
            hl2_lh2: bytes[2],
            hh2_hl1: bytes[3],
            lh1_hh1: bytes[4],
        }
    }

    #[tactic(auto, unfolding(gfx_layout::specs::Shape::text))]
    fn put(self, out: &mut Bytes) -> Result<(), NoMemory> {
        out.append(&[
            self.ll3_hl3,
            self.lh3_hh3,
            self.hl2_lh2,
            self.hh2_hl1,
            self.lh1_hh1,
        ])
    }
}

/// How many low bits of each band a quality leaves out ([MS-RDPEGFX] 2.2.4.2,
/// RFX_PROGRESSIVE_CODEC_QUANT). Tiles name a level by its place; its own quality byte is kept as it
/// was read.
#[derive(Clone, Copy, Debug, PartialEq, Eq)]
pub struct RegionLevel {
    pub quality: u8,
    pub y: PackedQuant,
    pub cb: PackedQuant,
    pub cr: PackedQuant,
}

/// Levels, in the order of a region.
pub type RegionLevels = Items<RegionLevel>;

impl Part for RegionLevel {
    ghost shape = { region_level };

    const SIZE: usize = 16;

    ghost SIZE = { 16 };

    ghost sized = { refl };

    #[inline(always)]
    #[tactic(auto, unfolding(gfx_layout::specs::Shape::part_in))]
    fn read(bytes: &[u8]) -> RegionLevel {
        RegionLevel {
            quality: bytes[0],
            y: PackedQuant::read(&bytes[1..]),
            cb: PackedQuant::read(&bytes[6..]),
            cr: PackedQuant::read(&bytes[11..]),
        }
    }

    #[tactic(auto, unfolding(gfx_layout::specs::Shape::text))]
    fn put(self, out: &mut Bytes) -> Result<(), NoMemory> {
        let (y, cb, cr) = (self.y, self.cb, self.cr);
        out.append(&[
            self.quality,
            y.ll3_hl3,
            y.lh3_hh3,
            y.hl2_lh2,
            y.hh2_hl1,
            y.lh1_hh1,
            cb.ll3_hl3,
            cb.lh3_hh3,
            cb.hl2_lh2,
            cb.hh2_hl1,
            cb.lh1_hh1,
            cr.ll3_hl3,
            cr.lh3_hh3,
            cr.hl2_lh2,
            cr.hh2_hl1,
            cr.lh1_hh1,
        ])
    }
}

ghost use Rattle.std.specs.Prelude.{◌≡◌, ◌++◌, refl, OnOk, OnErr};
ghost use Rattle.gfx_caps.specs.Entries.{cache_entry};

use gfx_base::{Bytes, Items, NoMemory};
use gfx_layout::Part;

/// What a client says of a bitmap that it kept ([MS-RDPEGFX] 2.2.2.16.1, RDPGFX_CACHE_ENTRY_METADATA).
#[derive(Clone, Copy, Debug, PartialEq, Eq)]
pub struct CacheEntry {
    pub key: u64,
    /// How many bytes the bitmap has, four a pixel (bitmapLength).
    pub length: u32,
}

/// Entries, in the order of a message.
pub type CacheEntries = Items<CacheEntry>;

impl Part for CacheEntry {
    ghost shape = { cache_entry };

    const SIZE: usize = 12;

    ghost SIZE = { 12 };

    ghost sized = { refl };

    #[inline(always)]
    #[tactic(auto, unfolding(gfx_layout::specs::Shape::part_in))]
    fn read(bytes: &[u8]) -> CacheEntry {
        CacheEntry {
            key: u64::read(bytes),
            length: u32::read(&bytes[8..]),
        }
    }

    #[tactic(auto, unfolding(gfx_layout::specs::Shape::text))]
    fn put(self, out: &mut Bytes) -> Result<(), NoMemory> {
        let [k0, k1, k2, k3, k4, k5, k6, k7] = self.key.to_le_bytes();
        let [first, second, third, fourth] = self.length.to_le_bytes();
        out.append(&[k0, k1, k2, k3, k4, k5, k6, k7, first, second, third, fourth])
    }
}

//! The limits on bitmaps, with the small cache and without it, and what a bitmap takes of them.
ghost use Rattle.std.specs.Prelude.{◌≡◌, ◌≤◌, ◌*◌};
ghost use Rattle.gfx_bitmap_cache.specs.Slots.{last_slot, budget, bytes_for};

use gfx_base::BYTES_PER_PIXEL;

/// The last slot. The first is 1.
pub const MOST_SLOTS: u16 = 25600;

/// The last slot that a store takes under the small limits.
pub const MOST_SMALL_SLOTS: u16 = 4096;

/// The most bytes of all bitmaps together.
pub const MOST_BYTES: u64 = 104857600;

/// The most bytes of all bitmaps together after a store under the small limits.
pub const MOST_SMALL_BYTES: u64 = 16777216;

/// The last slot that a store takes.
pub fn last_slot(small: bool) -> u16
    ensures { result ≡ last_slot small }
{
    if small { MOST_SMALL_SLOTS } else { MOST_SLOTS }
}

/// The most bytes that a store may leave.
pub fn budget(small: bool) -> u64
    ensures { result ≡ budget small }
{
    if small { MOST_SMALL_BYTES } else { MOST_BYTES }
}

/// How many bytes a bitmap of these sides takes.
pub fn bytes_for(width: u16, height: u16) -> u64
    ensures bytes { result ≡ bytes_for width height }
    ensures fits { result ≤ 4 * 65535 * 65535 }
{
    BYTES_PER_PIXEL as u64 * (u64::from(width) * u64::from(height))
}

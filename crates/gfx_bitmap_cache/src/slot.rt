//! What one slot holds.
ghost use Rattle.std.specs.Prelude.{◌≡◌, ◌≤◌, ◌*◌};
ghost use Rattle.gfx_bitmap_cache.specs.Slots.{entry, image_of, bytes_of};

use crate::limits::bytes_for;
use gfx_base::Bitmap;
use std::marker::Model;

/// A bitmap with its key.
#[derive(Drop)]
pub struct Slot {
    key: u64,
    bitmap: Bitmap,
}

impl Model for Slot {
    ghost use Rattle.gfx_bitmap_cache.specs.Slots.{Entry};
    ghost use Rattle.gfx_bitmap_cache.specs.Codes.{entry_code};

    ghost Value = { Entry };

    ghost coded = { entry_code };

    ghost use Rattle.gfx_bitmap_cache.specs.Inside.{entry_of};

    ghost view = { entry_of };
}

impl Slot {
    pub fn new(key: u64, bitmap: Bitmap) -> Slot
        ensures { result ≡ entry key (image_of bitmap) }
    {
        Slot { key, bitmap }
    }

    pub fn key(&self) -> u64
        ensures { result ≡ self.now.key }
    {
        self.key
    }

    pub fn bitmap(&self) -> &Bitmap
        ensures { image_of result.now ≡ self.now.image }
    {
        &self.bitmap
    }

    /// What it takes of the budget.
    pub fn bytes(&self) -> u64
        ensures bytes { result ≡ bytes_of self.now }
        ensures small { result ≤ 4 * 65535 * 65535 }
    {
        bytes_for(self.bitmap.width, self.bitmap.height)
    }
}

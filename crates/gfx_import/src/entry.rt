//! One kept bitmap, while it isn't found by its key yet.
ghost use Rattle.std.specs.Prelude.{◌≡◌, ◌*◌, ◌≤◌, length};
ghost use Rattle.gfx_bitmap_cache.specs.Slots.{entry, image_of};
ghost use Rattle.gfx_import.specs.Entries.{image};

use crate::limits::MOST_PIXELS;
use gfx_base::{Bitmap, Pixels};
use std::marker::Model;

/// A bitmap with its key.
#[derive(Debug, Drop)]
pub(crate) struct KeptEntry {
    key: u64,
    bitmap: Bitmap,
}

impl Model for KeptEntry {
    ghost use Rattle.gfx_bitmap_cache.specs.Slots.{Entry};
    ghost use Rattle.gfx_bitmap_cache.specs.Codes.{entry_code};

    ghost Value = { Entry };

    ghost coded = { entry_code };

    ghost use Rattle.gfx_import.specs.Inside.{entry_of, IsSoundEntry};

    ghost view = { entry_of };

    ghost invariant = { IsSoundEntry };
}

impl KeptEntry {
    /// A bitmap of these sides, under its key.
    pub(crate) fn new(key: u64, width: u16, height: u16, pixels: Pixels) -> KeptEntry
        requires area { length pixels ≡ width * height }
        requires few { width * height ≤ MOST_PIXELS }
        ensures { result ≡ entry key (image width height pixels) }
    {
        let bitmap = Bitmap {
            width,
            height,
            pixels,
        };
        KeptEntry { key, bitmap }
    }

    /// Its key, and its bitmap, which has not too many pixels.
    pub(crate) fn into_parts(self) -> (u64, Bitmap)
        ensures same { entry result.0 (image_of result.1) ≡ self }
        ensures few { result.1.width * result.1.height ≤ MOST_PIXELS }
    {
        let KeptEntry { key, bitmap } = self;
        (key, bitmap)
    }
}

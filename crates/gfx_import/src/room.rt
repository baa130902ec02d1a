//! What is left of a cache's limits, while entries are taken one after another.
ghost use Rattle.std.specs.Prelude.{◌≡◌, ◌+◌, ◌-◌, ◌≤◌, ◌*◌, IfSome};
ghost use Rattle.std.specs.Option.{option_map};
ghost use Rattle.gfx_bitmap_cache.specs.Slots.{image_of, last_slot, budget, bytes_for};
ghost use Rattle.gfx_import.specs.Entries.{image_at};
ghost use Rattle.gfx_import.specs.Imported.{with_length};
ghost use Rattle.gfx_import.specs.Taking.{fits, found_in};

use crate::kept::Kept;
use crate::limits::MOST_PIXELS;
use gfx_base::Bitmap;
use gfx_bitmap_cache::{budget, bytes_for, last_slot};

/// How many slots, and how many bytes.
#[derive(Clone, Copy, Debug)]
pub(crate) struct Room {
    pub(crate) slots: u16,
    pub(crate) bytes: u64,
}

impl Room {
    /// All of a cache.
    pub(crate) fn new(small: bool) -> Room
        ensures slots { result.slots ≡ last_slot small }
        ensures bytes { result.bytes ≡ budget small }
    {
        Room {
            slots: last_slot(small),
            bytes: budget(small),
        }
    }

    /// The server's bitmap of this key, where it has so many bytes and there is a slot and room for it,
    /// which are taken then.
    pub(crate) fn take<'a>(&mut self, server: &'a Kept, key: u64, length: u64) -> Option<&'a Bitmap>
        ensures found { option_map (λ bitmap. image_of bitmap.now) result ≡ found_in self.old.slots self.old.bytes (with_length length (image_at server.now key)) }
        ensures slots { IfSome result (λ _. self.new.slots + 1 ≡ self.old.slots) }
        ensures bytes { IfSome result (λ bitmap. self.new.bytes ≡ self.old.bytes - bytes_for bitmap.now.width bitmap.now.height) }
        ensures few { IfSome result (λ bitmap. bitmap.now.width * bitmap.now.height ≤ MOST_PIXELS) }
    {
        let bitmap = server.find(key)?;
        let bytes = bytes_for(bitmap.width, bitmap.height);
        if bytes != length || self.slots == 0 || bytes > self.bytes {
            return None;
        }
        self.slots -= 1;
        self.bytes -= bytes;
        Some(bitmap)
    }
}

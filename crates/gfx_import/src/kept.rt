ghost use Rattle.std.specs.Prelude.{◌≡◌, ◌*◌, ◌≤◌, ◌<◌, ◌==◌, ◌∷◌, ◌++◌, true, [], length, IfOk, IfErr, IfSome, OnOk, OnErr, slice_get};
ghost use Rattle.std.specs.Option.{option_map};
ghost use Rattle.gfx_bitmap_cache.specs.Slots.{entry, image_of};
ghost use Rattle.gfx_import.specs.Entries.{image, image_at, takes, with_entry, IsKept};

use crate::limits::{MOST_ENTRIES, MOST_PIXELS};
use gfx_base::{Bitmap, NoMemory, Pixels};
use indexmap::IndexMap;
use std::alloc::Global;
use std::marker::Model;

/// Bitmaps kept by their keys, in the order in which they were added: at most 5,461, each of at most
/// 16,777,216 pixels. Contracts see the list of keys and images.
#[derive(Drop)]
pub struct Kept {
    bitmaps: IndexMap<u64, Bitmap>,
}

impl Model for Kept {
    ghost use Rattle.std.specs.Prelude.{List};
    ghost use Rattle.std.specs.Coded.{coded_list};
    ghost use Rattle.gfx_bitmap_cache.specs.Slots.{Entry};
    ghost use Rattle.gfx_bitmap_cache.specs.Codes.{entry_code};

    ghost Value = { List Entry };

    ghost coded = { coded_list entry_code };

    ghost use Rattle.gfx_import.specs.Inside.{kept_of, IsSound};

    ghost view = { kept_of };

    ghost invariant = { IsSound };
}

impl Kept {
    /// Nothing. It takes no memory.
    pub fn new(alloc: Global) -> Kept
        ensures { result ≡ [] }
    {
        Kept {
            bitmaps: IndexMap::new(alloc),
        }
    }

    /// Puts a bitmap of at most 16,777,216 pixels at the end, under this key. It answers false, and
    /// changes nothing, exactly where the key or 5,461 entries are held; then it takes no memory. Without
    /// memory all is as it was.
    pub fn add(&mut self, key: u64, bitmap: Bitmap) -> Result<bool, NoMemory>
        requires { bitmap.width * bitmap.height ≤ MOST_PIXELS }
        ensures added { IfOk result (λ added. added ≡ takes self.old key) }
        ensures ok { OnOk result (self.new ≡ with_entry self.old (entry key (image_of bitmap))) }
        ensures err { OnErr result (self.new ≡ self.old) }
        ensures memory { IfErr result (λ _. takes self.old key ≡ true) }
        ensures kept { IsKept self.new }
    {
        if !self.takes(key) {
            return Ok(false);
        }
        let Bitmap {
            width,
            height,
            pixels,
        } = bitmap;
        self.put(key, width, height, pixels)?;
        Ok(true)
    }

    /// Puts a bitmap of these sides at the end, under a key that isn't held.
    fn put(&mut self, key: u64, width: u16, height: u16, pixels: Pixels) -> Result<(), NoMemory>
        requires area { length pixels ≡ width * height }
        requires few { width * height ≤ MOST_PIXELS }
        requires takes { takes self.old key ≡ true }
        ensures ok { OnOk result (self.new ≡ self.old ++ entry key (image width height pixels) ∷ []) }
        ensures err { OnErr result (self.new ≡ self.old) }
        ensures kept { IsKept self.new }
    {
        let bitmap = Bitmap {
            width,
            height,
            pixels,
        };
        self.bitmaps.insert(key, bitmap)?;
        Ok(())
    }

    /// Whether one more may be kept under this key.
    fn takes(&self, key: u64) -> bool
        ensures takes { result ≡ takes self.now key }
        ensures kept { IsKept self.now }
    {
        !self.bitmaps.contains_key(&key) && self.bitmaps.len() < MOST_ENTRIES
    }

    /// The bitmap under a key; None exactly where the key isn't held.
    pub fn find(&self, key: u64) -> Option<&Bitmap>
        ensures found { option_map (λ bitmap. image_of bitmap.now) result ≡ image_at self.now key }
        ensures few { IfSome result (λ bitmap. bitmap.now.width * bitmap.now.height ≤ MOST_PIXELS) }
    {
        self.bitmaps.get(&key)
    }

    /// The key and the bitmap at a place, counted from 0; None exactly where the place isn't below `len`.
    pub fn at(&self, place: usize) -> Option<(u64, &Bitmap)>
        ensures found { option_map (λ held. entry held.0 (image_of held.1.now)) result ≡ slice_get self.now place }
        ensures few { IfSome result (λ held. held.1.now.width * held.1.now.height ≤ MOST_PIXELS) }
        ensures within { IfSome result (λ _. place < MOST_ENTRIES) }
        ensures kept { IsKept self.now }
    {
        match self.bitmaps.get_index(place) {
            Some((key, bitmap)) => Some((*key, bitmap)),
            None => None,
        }
    }

    pub fn len(&self) -> usize
        ensures len { result ≡ length self.now }
        ensures kept { IsKept self.now }
    {
        self.bitmaps.len()
    }

    pub fn is_empty(&self) -> bool
        ensures { result ≡ (length self.now == 0) }
    {
        self.bitmaps.is_empty()
    }
}

ghost use Rattle.std.specs.Prelude.{◌≡◌, ◌^◌, false, [], is_ok};
ghost use Rattle.std.specs.Option.{option_map, option_copied};
ghost use Rattle.std.specs.FinMap as map;
ghost use Rattle.gfx_base.specs.Outcome.{Applies, Performs, Says, WantsOnlyIf};
ghost use Rattle.gfx_bitmap_cache.specs.Slots.{IsCached, entry, cached, image_of, is_slot, takes_slot, has_room, stored, shown, evicted, bytes_at, bytes_with};
ghost use Rattle.gfx_bitmap_cache.specs.Order.{from_slot, first_slot};

use crate::limits::{MOST_SLOTS, budget, bytes_for, last_slot};
use crate::slot::Slot;
use gfx_base::{Bitmap, Fault, Refusal};
use std::alloc::Global;
use std::collections::BTreeMap;
use std::marker::Model;

/// Bitmaps by their slots. Contracts see the map from each filled slot to its key and image, and
/// whether the small limits bind the stores.
#[derive(Drop)]
pub struct Cache {
    slots: BTreeMap<u16, Slot>,
    bytes: u64,
    small: bool,
}

impl Model for Cache {
    ghost use Rattle.gfx_bitmap_cache.specs.Slots.{Cached};
    ghost use Rattle.gfx_bitmap_cache.specs.Codes.{cached_code};

    ghost Value = { Cached };

    ghost coded = { cached_code };

    ghost use Rattle.gfx_bitmap_cache.specs.Inside.{cached_of, IsSound};

    ghost view = { cached_of };

    ghost invariant = { IsSound };
}

impl Cache {
    /// No bitmaps, under the large limits. It takes no memory.
    pub fn new(alloc: Global) -> Cache
        ensures { result ≡ cached map.empty false }
    {
        Cache {
            slots: BTreeMap::new(alloc),
            bytes: 0,
            small: false,
        }
    }

    /// Chooses the limits of later stores. What is held stays, also above the small limits.
    pub fn set_small(&mut self, small: bool)
        ensures { self.new ≡ cached self.old.slots small }
    {
        self.small = small;
    }

    /// Whether a store takes this slot.
    pub fn takes_slot(&self, slot: u16) -> bool
        ensures { result ≡ takes_slot self.now.small slot }
    {
        (1..=last_slot(self.small)).contains(&slot)
    }

    /// Whether a bitmap of these sides is within the budget in this slot, in the place of what it
    /// holds: where it isn't, a store that takes the slot is refused.
    pub fn has_room(&self, slot: u16, width: u16, height: u16) -> bool
        ensures { result ≡ has_room self.now slot width height }
    {
        self.bytes_with(slot, width, height) <= budget(self.small)
    }

    /// Puts a bitmap into a slot, in the place of what it held ([MS-RDPEGFX]
    /// RDPGFX_SURFACE_TO_CACHE_PDU). Any fault leaves all as it was; one that is refused takes no memory.
    #[tactic(auto, unfolding(crate::specs::Slots::stored, gfx_base::specs::Results::and_then))]
    pub fn store(&mut self, slot: u16, key: u64, bitmap: Bitmap) -> Result<(), Fault>
        ensures stored { Applies result self.old self.new (stored self.old slot (entry key (image_of bitmap))) }
        ensures memory { WantsOnlyIf result (is_ok (stored self.old slot (entry key (image_of bitmap)))) }
    {
        if !self.takes_slot(slot) {
            return Err(Fault::Refused(Refusal::SlotRange));
        }
        let bytes = self.bytes_with(slot, bitmap.width, bitmap.height);
        if bytes > budget(self.small) {
            return Err(Fault::Refused(Refusal::CacheBudget));
        }
        let held = Slot::new(key, bitmap);
        self.slots.insert(slot, held)?;
        self.bytes = bytes;
        Ok(())
    }

    /// The bitmap of a slot ([MS-RDPEGFX] RDPGFX_CACHE_TO_SURFACE_PDU), whatever limits bind the stores.
    #[tactic(auto, unfolding(crate::specs::Slots::shown, gfx_base::specs::Results::and_then))]
    pub fn show(&self, slot: u16) -> Result<&Bitmap, Refusal>
        ensures { Says (λ bitmap. image_of bitmap.now) result (shown self.now slot) }
    {
        if !is_slot(slot) {
            return Err(Refusal::SlotRange);
        }
        match self.filled(slot) {
            Some(held) => Ok(held.bitmap()),
            None => Err(Refusal::SlotEmpty),
        }
    }

    /// Empties a slot ([MS-RDPEGFX] RDPGFX_EVICT_CACHE_ENTRY_PDU), which may be empty already. It
    /// takes no memory.
    #[tactic(auto, unfolding(crate::specs::Slots::evicted, gfx_base::specs::Results::and_then))]
    pub fn evict(&mut self, slot: u16) -> Result<(), Refusal>
        ensures { Performs result self.old self.new (evicted self.old slot) }
    {
        if !is_slot(slot) {
            return Err(Refusal::SlotRange);
        }
        self.remove(slot);
        Ok(())
    }

    /// The key of a filled slot.
    pub fn key(&self, slot: u16) -> Option<u64>
        ensures { result ≡ option_map (λ held. held.key) (map.get self.now.slots slot) }
    {
        match self.filled(slot) {
            Some(held) => Some(held.key()),
            None => None,
        }
    }

    /// The least filled slot not below this one.
    pub fn next_slot(&self, from: u16) -> Option<u16>
        ensures next { result ≡ first_slot (from_slot from (map.entries self.now.slots)) }

        // A loop may end at the last slot that fits.
        ensures past { from_slot (2 ^ 16) (map.entries self.now.slots) ≡ [] }
        ensures kept { IsCached self.now }
    {
        match self.slots.range(from..).next() {
            Some((slot, _)) => Some(*slot),
            None => None,
        }
    }

    /// What a slot holds.
    fn filled(&self, slot: u16) -> Option<&Slot>
        ensures { option_copied result ≡ map.get self.now.slots slot }
    {
        self.slots.get(&slot)
    }

    /// How many bytes all bitmaps take once a slot holds one of these sides.
    fn bytes_with(&self, slot: u16, width: u16, height: u16) -> u64
        ensures { result ≡ bytes_with self.now.slots slot width height }
    {
        self.bytes - self.bytes_at(slot) + bytes_for(width, height)
    }

    /// How many bytes a slot takes, which may be empty.
    fn bytes_at(&self, slot: u16) -> u64
        ensures { result ≡ bytes_at (map.get self.now.slots slot) }
    {
        match self.filled(slot) {
            Some(held) => held.bytes(),
            None => 0,
        }
    }

    /// Empties a slot, and gives its bytes back.
    fn remove(&mut self, slot: u16)
        ensures { self.new ≡ cached (map.remove self.old.slots slot) self.old.small }
    {
        if let Some(held) = self.slots.remove(&slot) {
            self.bytes -= held.bytes();
        }
    }
}

/// Whether there is such a slot.
fn is_slot(slot: u16) -> bool
    ensures { result ≡ is_slot slot }
{
    (1..=MOST_SLOTS).contains(&slot)
}

ghost use Rattle.std.specs.Prelude.{◌≡◌, [], is_ok, IfOk};
ghost use Rattle.gfx_base.specs.Outcome.{WantsOnlyIf};
ghost use Rattle.gfx_slot_plan.specs.Plan.{plan, IsPlan, keeps, slot_of, touched, forgotten, Chooses};

use crate::kept::{Kept, Slots};
use crate::pool::FreeSlots;
use crate::shelf::Shelf;
use gfx_base::{Fault, NoMemory, Refusal};
use gfx_bitmap_cache::{budget, bytes_for, last_slot};
use lru::LruCache;
use std::alloc::Global;
use std::marker::Model;

/// Which key has which slot. Contracts see the keys with their places, the most recently used
/// first, and whether the small limits hold.
#[derive(Drop)]
pub struct SlotPlan {
    shelf: Shelf,
    small: bool,
}

impl Model for SlotPlan {
    ghost use Rattle.gfx_slot_plan.specs.Plan.{Plan};
    ghost use Rattle.gfx_slot_plan.specs.Codes.{plan_code};

    ghost Value = { Plan };

    ghost coded = { plan_code };

    ghost use Rattle.gfx_slot_plan.specs.Inside.{plan_of, IsSound};

    ghost view = { plan_of };

    ghost invariant = { IsSound };
}

impl SlotPlan {
    /// No keys.
    pub fn new(alloc: Global, small: bool) -> Result<SlotPlan, NoMemory>
        ensures { IfOk result (λ slots. slots ≡ plan [] small) }
    {
        let places = LruCache::unbounded(alloc)?;
        let pool = FreeSlots::new(alloc, last_slot(small))?;
        let shelf = Shelf {
            places,
            pool,
            bytes: 0,
        };
        Ok(SlotPlan { shelf, small })
    }

    /// Keeps a key's bitmap of these sides in a slot, and says which slots are emptied for it. Any
    /// fault leaves all as it was; one that is refused takes no memory.
    #[tactic(auto, unfolding(crate::specs::Plan::keeps, gfx_base::specs::Results::and_then))]
    pub fn keep(&mut self, alloc: Global, key: u64, width: u16, height: u16) -> Result<Kept, Fault>
        ensures chosen { Chooses result self.old self.new (keeps self.old key width height) }
        ensures memory { WantsOnlyIf result (is_ok (keeps self.old key width height)) }
        ensures plan { IsPlan self.new }
    {
        let bytes = bytes_for(width, height);
        let most = budget(self.small);
        if bytes > most {
            return Err(Fault::Refused(Refusal::CacheBudget));
        }
        // Room for as many as there are, so that nothing fails once anything has changed.
        let mut dropped = Vec::with_capacity(alloc, self.shelf.places.len() + 1)?;
        let slot = self.shelf.keep(key, bytes, most, &mut dropped)?;
        dropped.shrink_to_fit();
        Ok(Kept {
            dropped: Slots::from_vec(dropped),
            slot,
        })
    }

    /// The slot of a key, if it is held. The order of use stays.
    pub fn slot(&self, key: u64) -> Option<u16>
        ensures { result ≡ slot_of key self.now.places }
    {
        match self.shelf.places.peek(&key) {
            Some(place) => Some(place.slot),
            None => None,
        }
    }

    /// The slot of a key that is shown, which becomes the most recently used. It takes no memory.
    pub fn touch(&mut self, key: u64) -> Option<u16>
        ensures slot { result ≡ slot_of key self.old.places }
        ensures order { self.new ≡ touched self.old key }
        ensures plan { IsPlan self.new }
    {
        let slot = self.shelf.places.peek(&key)?.slot;
        self.shelf.refresh(key);
        Some(slot)
    }

    /// Lets a key go, and says which slot it had. It takes no memory.
    pub fn forget(&mut self, key: u64) -> Option<u16>
        ensures slot { result ≡ slot_of key self.old.places }
        ensures rest { self.new ≡ forgotten self.old key }
        ensures plan { IsPlan self.new }
    {
        let place = self.shelf.places.pop(&key)?;
        self.shelf.release(place);
        Some(place.slot)
    }
}

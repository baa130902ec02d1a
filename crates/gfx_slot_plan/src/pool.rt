//! The slots that no key has.
ghost use Rattle.std.specs.Prelude.{◌≡◌, ◌≤◌, ℕ, [], Some, true, false, ◌||◌, ◌&&◌, not, nat_eq, slice_get, IfOk};
ghost use Rattle.gfx_slot_plan.specs.Pool.{pool, has_free, pool_slots, is_none};

use gfx_base::NoMemory;
use gfx_bitmap_cache::MOST_SLOTS;
use std::alloc::Global;
use std::cmp::Reverse;
use std::collections::BinaryHeap;
use std::marker::Model;

/// The slots from one on have never been taken; below it those are free that were given back.
#[derive(Drop)]
pub struct FreeSlots {
    returned: BinaryHeap<Reverse<u16>>,
    next: u16,
    last: u16,
}

impl Model for FreeSlots {
    ghost use Rattle.gfx_slot_plan.specs.Pool.{Pool};

    ghost Value = { Pool };

    ghost use Rattle.gfx_slot_plan.specs.PoolInside.{pool_of, IsPool};

    ghost view = { pool_of };

    ghost invariant = { IsPool };
}

impl FreeSlots {
    /// All slots up to this one.
    pub fn new(alloc: Global, last: u16) -> Result<FreeSlots, NoMemory>
        requires { last ≤ MOST_SLOTS }
        ensures { IfOk result (λ slots. slots ≡ pool 1 last []) }
    {
        let returned = BinaryHeap::with_capacity(alloc, usize::from(last))?;
        Ok(FreeSlots {
            returned,
            next: 1,
            last,
        })
    }

    pub fn is_empty(&self) -> bool
        ensures { result ≡ is_none (pool_slots self.now) }
    {
        self.returned.is_empty() && self.next > self.last
    }

    /// Takes the least of them.
    pub fn take(&mut self) -> u16
        requires { is_none (pool_slots self.old) ≡ false }
        ensures slot { slice_get (pool_slots self.old) 0 ≡ Some result }
        ensures last { self.new.last ≡ self.old.last }
        ensures free { (slot : ℕ) → has_free self.new slot ≡ (has_free self.old slot && not (nat_eq slot result)) }
    {
        match self.returned.pop() {
            Some(Reverse(slot)) => slot,
            None => {
                let slot = self.next;
                self.next += 1;
                slot
            }
        }
    }

    /// Gives a slot back. It takes no memory.
    pub fn give(&mut self, slot: u16)
        requires first { 1 ≤ slot }
        requires within { slot ≤ self.old.last }
        requires taken { has_free self.old slot ≡ false }
        ensures last { self.new.last ≡ self.old.last }
        ensures free { (other : ℕ) → has_free self.new other ≡ (nat_eq other slot || has_free self.old other) }
    {
        // There is room for all slots.
        let _ = self.returned.push(Reverse(slot));
    }
}

//! The places of the keys with what goes along: the free slots and the number of bytes.
ghost use Rattle.std.specs.Prelude.{◌≡◌, ◌+◌, ◌-◌, ◌*◌, ◌<◌, ◌≤◌, ◌^◌, [], ◌∷◌, ◌++◌, false, not, length, take, drop, nat_eq, OnOk, IfOk, OnErr};
ghost use Rattle.std.specs.Option.{option_map, option_to_list};
ghost use Rattle.std.specs.Vec.{vec_len, vec_capacity};
ghost use Rattle.lru.specs.LruCache.{lru_cache, last_entry, promoted};
ghost use Rattle.gfx_slot_plan.specs.Plan.{place, without, slot_of, slots_back, left_for, gone_for, least_free, dropped_for, takes_more};
ghost use Rattle.gfx_slot_plan.specs.Pool.{has_free, pool_slots, is_none};
ghost use Rattle.gfx_slot_plan.specs.Tied.{IsTied, Gives};

use crate::allocation::Allocation;
use crate::pool::FreeSlots;
use gfx_base::NoMemory;
use lru::LruCache;

/// The places by their keys, the slots that are free, and the bytes of all places together.
#[derive(Drop)]
pub struct Shelf {
    pub places: LruCache<u64, Allocation>,
    pub pool: FreeSlots,
    pub bytes: u64,
}

impl Shelf {
    /// Keeps a key in the least free slot, and says which. `dropped` gains the slots to empty first;
    /// it has room for all of them, so that nothing fails once anything has changed.
    pub fn keep(
        &mut self,
        key: u64,
        bytes: u64,
        most: u64,
        dropped: &mut Vec<u16>,
    ) -> Result<u16, NoMemory>
        requires tied { IsTied self.old.places.entries self.old.pool self.old.bytes }
        requires unbounded { self.old.places.cap ≡ 2 ^ 64 - 1 }
        requires fits { length self.old.places.entries < 2 ^ 63 }
        requires room { vec_len dropped.old + length self.old.places.entries < vec_capacity dropped.old }
        requires first { 1 ≤ self.old.pool.last }
        requires alone { bytes ≤ most }
        ensures slot { IfOk result (λ slot. slot
            ≡ least_free self.old.pool.last (left_for self.old.pool.last most bytes (without key self.old.places.entries))) }
        ensures places { IfOk result (λ slot. self.new.places
            ≡ lru_cache ((key, place slot bytes) ∷ left_for self.old.pool.last most bytes (without key self.old.places.entries)) self.old.places.cap) }
        ensures dropped { OnOk result (dropped.new.items
            ≡ dropped.old.items ++ dropped_for self.old.pool.last most key bytes self.old.places.entries) }
        ensures tied { OnOk result (IsTied self.new.places.entries self.new.pool self.new.bytes) }
        ensures last { OnOk result (self.new.pool.last ≡ self.old.pool.last) }
        ensures within { OnOk result (self.new.bytes ≤ most) }
        ensures err { OnErr result (self.new ≡ self.old) }
    {
        self.put_first(key, bytes, dropped)?;
        self.make_room(bytes, most, dropped);
        Ok(self.settle(key, bytes))
    }

    /// Puts the key first, with no slot yet, and lets go of the place that it had.
    fn put_first(&mut self, key: u64, bytes: u64, dropped: &mut Vec<u16>) -> Result<(), NoMemory>
        requires tied { IsTied self.old.places.entries self.old.pool self.old.bytes }
        requires unbounded { self.old.places.cap ≡ 2 ^ 64 - 1 }
        requires fits { length self.old.places.entries < 2 ^ 63 }
        requires room { vec_len dropped.old + length self.old.places.entries < vec_capacity dropped.old }
        ensures places { OnOk result (self.new.places ≡ lru_cache ((key, place 0 bytes) ∷ without key self.old.places.entries) self.old.places.cap) }
        ensures dropped { OnOk result (dropped.new.items ≡ dropped.old.items ++ option_to_list (slot_of key self.old.places.entries)) }
        ensures room { OnOk result (vec_len dropped.new + length (without key self.old.places.entries) ≤ vec_capacity dropped.new) }
        ensures tied { OnOk result (IsTied (without key self.old.places.entries) self.new.pool self.new.bytes) }
        ensures last { OnOk result (self.new.pool.last ≡ self.old.pool.last) }
        ensures err { OnErr result (self.new ≡ self.old) }
    {
        let held = self.places.put(key, Allocation { slot: 0, bytes })?;
        if let Some(own) = held {
            self.release(own);
            dropped.push_reserved(own.slot);
        }
        Ok(())
    }

    /// Lets go of a place that no key has any more.
    pub fn release(&mut self, place: Allocation)
        requires first { 1 ≤ place.slot }
        requires within { place.slot ≤ self.old.pool.last }
        requires taken { has_free self.old.pool place.slot ≡ false }
        requires counted { place.bytes ≤ self.old.bytes }
        ensures places { self.new.places ≡ self.old.places }
        ensures gives { Gives self.old.pool self.new.pool place.slot }
        ensures bytes { self.new.bytes + place.bytes ≡ self.old.bytes }
    {
        self.pool.give(place.slot);
        self.bytes -= place.bytes;
    }

    /// Lets go of the least recently used keys behind the first, until there is room.
    fn make_room(&mut self, bytes: u64, most: u64, dropped: &mut Vec<u16>)
        requires some { 0 < length self.old.places.entries }
        requires tied { IsTied (drop 1 self.old.places.entries) self.old.pool self.old.bytes }
        requires room { vec_len dropped.old + length (drop 1 self.old.places.entries) ≤ vec_capacity dropped.old }
        requires first { 1 ≤ self.old.pool.last }
        requires alone { bytes ≤ most }
        ensures places { self.new.places.entries
            ≡ take 1 self.old.places.entries ++ left_for self.old.pool.last most bytes (drop 1 self.old.places.entries) }
        ensures cap { self.new.places.cap ≡ self.old.places.cap }
        ensures dropped { dropped.new.items
            ≡ dropped.old.items ++ slots_back (gone_for self.old.pool.last most bytes (drop 1 self.old.places.entries)) }
        ensures tied { IsTied (drop 1 self.new.places.entries) self.new.pool self.new.bytes }
        ensures last { self.new.pool.last ≡ self.old.pool.last }
        ensures free { is_none (pool_slots self.new.pool) ≡ false }
        ensures within { self.new.bytes + bytes ≤ most }
    {
        'drops: while self.is_full(bytes, most) {
            self.drop_last(dropped);
        }
    }

    /// Whether no slot is free or so many bytes more are too many, the first key left aside.
    fn is_full(&self, bytes: u64, most: u64) -> bool
        requires tied { IsTied (drop 1 self.now.places.entries) self.now.pool self.now.bytes }
        requires alone { bytes ≤ most }
        ensures { result ≡ not (takes_more self.now.pool.last most bytes (drop 1 self.now.places.entries)) }
    {
        self.pool.is_empty() || self.bytes > most - bytes
    }

    /// Lets go of the least recently used key.
    fn drop_last(&mut self, dropped: &mut Vec<u16>)
        requires some { 1 < length self.old.places.entries }
        requires tied { IsTied (drop 1 self.old.places.entries) self.old.pool self.old.bytes }
        requires room { vec_len dropped.old < vec_capacity dropped.old }
        ensures places { self.new.places ≡ lru_cache (take (length self.old.places.entries - 1) self.old.places.entries) self.old.places.cap }
        ensures dropped { dropped.new.items
            ≡ dropped.old.items ++ slots_back (drop (length self.old.places.entries - 1) self.old.places.entries) }
        ensures len { vec_len dropped.new ≡ vec_len dropped.old + 1 }
        ensures capacity { vec_capacity dropped.new ≡ vec_capacity dropped.old }
        ensures tied { IsTied (drop 1 self.new.places.entries) self.new.pool self.new.bytes }
        ensures last { self.new.pool.last ≡ self.old.pool.last }
    {
        if let Some(place) = self.pop_last() {
            self.release(place);
            dropped.push_reserved(place.slot);
        }
    }

    /// Takes out the place of the least recently used key, which stays taken.
    fn pop_last(&mut self) -> Option<Allocation>
        ensures place { result ≡ option_map (λ held. held.1) (last_entry self.old.places.entries) }
        ensures places { self.new.places ≡ lru_cache (take (length self.old.places.entries - 1) self.old.places.entries) self.old.places.cap }
        ensures pool { self.new.pool ≡ self.old.pool }
        ensures bytes { self.new.bytes ≡ self.old.bytes }
    {
        match self.places.pop_lru() {
            Some((_, place)) => Some(place),
            None => None,
        }
    }

    /// Makes a key the most recently used, if it is held.
    pub fn refresh(&mut self, key: u64)
        ensures places { self.new.places ≡ lru_cache (promoted (nat_eq key) self.old.places.entries) self.old.places.cap }
        ensures pool { self.new.pool ≡ self.old.pool }
        ensures bytes { self.new.bytes ≡ self.old.bytes }
    {
        self.places.promote(&key);
    }

    /// Gives the first key the least free slot.
    fn settle(&mut self, key: u64, bytes: u64) -> u16
        requires some { take 1 self.old.places.entries ≡ (key, place 0 bytes) ∷ [] }
        requires tied { IsTied (drop 1 self.old.places.entries) self.old.pool self.old.bytes }
        requires free { is_none (pool_slots self.old.pool) ≡ false }
        requires fits { self.old.bytes + bytes < 2 ^ 64 }
        ensures slot { result ≡ least_free self.old.pool.last (drop 1 self.old.places.entries) }
        ensures places { self.new.places ≡ lru_cache ((key, place result bytes) ∷ drop 1 self.old.places.entries) self.old.places.cap }
        ensures tied { IsTied self.new.places.entries self.new.pool self.new.bytes }
        ensures last { self.new.pool.last ≡ self.old.pool.last }
        ensures bytes { self.new.bytes ≡ self.old.bytes + bytes }
    {
        let slot = self.pool.take();
        // The key is there, so this takes no memory.
        let _ = self.places.put(key, Allocation { slot, bytes });
        self.bytes += bytes;
        slot
    }
}

//! Bitmaps in slots: the server's choice, and what the cache holds.
use crate::claiming::claim;
use gfx_base::{Bitmap, Fault, NoMemory, Pixel, Pixels, Refusal};
use gfx_bitmap_cache::Cache;
use gfx_slot_plan::SlotPlan;
use std::alloc::Global;

/// Lets go of a plan, which is proved once here.
fn let_go(plan: SlotPlan) {
    drop(plan);
}

/// Whether a key of these sides is kept in this slot, and these slots are emptied for it.
fn keeps(
    alloc: Global,
    plan: &mut SlotPlan,
    key: u64,
    sides: (u16, u16),
    slot: u16,
    dropped: &[u16],
) -> Result<bool, Fault> {
    let kept = plan.keep(alloc, key, sides.0, sides.1)?;
    Ok(kept.slot == slot && kept.dropped.as_slice() == dropped)
}

/// Whether a bitmap is beyond the budget.
fn is_too_large(alloc: Global, plan: &mut SlotPlan, key: u64, sides: (u16, u16)) -> bool {
    matches!(
        plan.keep(alloc, key, sides.0, sides.1),
        Err(Fault::Refused(Refusal::CacheBudget))
    )
}

/// Whether one more pixel empties the slot of a bitmap that takes the whole budget, and none is larger.
fn budget_is_kept(alloc: Global, plan: &mut SlotPlan) -> Result<bool, Fault> {
    let first = keeps(alloc, plan, 1, (2048, 2048), 1, &[])?;
    let second = keeps(alloc, plan, 2, (1, 1), 1, &[1])?;
    let third = is_too_large(alloc, plan, 3, (2049, 2048));
    let slots = (plan.slot(2), plan.slot(1)) == (Some(1), None);
    Ok(first && second && third && slots && plan.touch(2) == Some(1))
}

/// The same of a new plan.
fn has_budget(alloc: Global) -> Result<bool, Fault> {
    let mut plan = SlotPlan::new(alloc, true)?;
    let right = budget_is_kept(alloc, &mut plan);
    let_go(plan);
    right
}

#[test]
fn slot_budget(rt: HostRuntime) {
    claim(&rt, has_budget(rt.alloc()));
}

/// Whether each of the keys below 4,096 is kept in the slot behind it.
fn all_are_kept(alloc: Global, plan: &mut SlotPlan) -> Result<bool, Fault> {
    for key in 0..4096u16 {
        if !keeps(alloc, plan, u64::from(key), (1, 1), key + 1, &[])? {
            return Ok(false);
        }
    }
    Ok(true)
}

/// Keys that are forgotten, and the slots that they had.
const FORGOTTEN: [(u64, Option<u16>); 3] = [(7, Some(8)), (5, Some(6)), (5, None)];

/// Whether these keys have their slots.
fn are_forgotten(plan: &mut SlotPlan) -> bool {
    for (key, slot) in &FORGOTTEN {
        if plan.forget(*key) != *slot {
            return false;
        }
    }
    true
}

/// Whether a plan that is full empties the slot that was used least recently, and goes on with it.
fn are_reused(alloc: Global, plan: &mut SlotPlan) -> Result<bool, Fault> {
    let all = all_are_kept(alloc, plan)?;
    let touched = (plan.touch(0), plan.touch(4096)) == (Some(1), None);
    // Key 1 is now the least recently used.
    let full = keeps(alloc, plan, 4096, (1, 1), 2, &[2])?;
    let forgotten = are_forgotten(plan);
    // A held key gives its slot back first, and the least free slot may be another.
    let again = keeps(alloc, plan, 4096, (1, 1), 2, &[2])?;
    let freed = keeps(alloc, plan, 9, (1, 1), 6, &[10])?;
    Ok(all && touched && full && forgotten && again && freed)
}

/// The same of a new plan.
fn reuses_slots(alloc: Global) -> Result<bool, Fault> {
    let mut plan = SlotPlan::new(alloc, true)?;
    let right = are_reused(alloc, &mut plan);
    let_go(plan);
    right
}

#[test]
fn slots_are_reused_by_use(rt: HostRuntime) {
    claim(&rt, reuses_slots(rt.alloc()));
}

/// One grey pixel.
fn dot(alloc: Global, shade: u8) -> Result<Option<Bitmap>, NoMemory> {
    let mut pixels = Pixels::new(alloc);
    pixels.push(Pixel {
        b: shade,
        g: shade,
        r: shade,
        a: 255,
    })?;
    Ok(dot_of(pixels))
}

/// One pixel, if it is one.
fn dot_of(pixels: Pixels) -> Option<Bitmap> {
    if pixels.len() != 1 {
        return None;
    }
    Some(Bitmap {
        width: 1,
        height: 1,
        pixels,
    })
}

/// The shade of the first pixel in a slot.
fn shade(cache: &Cache, slot: u16) -> Result<Option<u8>, Refusal> {
    let bitmap = cache.show(slot)?;
    Ok(bitmap.pixels.get(0).map(|pixel| pixel.b))
}

/// Whether a dot is shown once it is stored, and nothing once its slot is emptied.
fn is_emptied(alloc: Global, cache: &mut Cache) -> Result<bool, Fault> {
    let Some(bitmap) = dot(alloc, 9)? else {
        return Ok(false);
    };
    cache.store(25_600, 7, bitmap)?;
    let shown = shade(cache, 25_600) == Ok(Some(9));
    cache.evict(25_600)?;
    let empty = shade(cache, 25_600) == Err(Refusal::SlotEmpty);
    Ok(shown && empty && shade(cache, 25_601) == Err(Refusal::SlotRange))
}

#[test]
fn a_slot_is_stored_shown_and_emptied(rt: HostRuntime) {
    let mut cache = Cache::new(rt.alloc());
    let right = is_emptied(rt.alloc(), &mut cache);
    drop(cache);
    claim(&rt, right);
}

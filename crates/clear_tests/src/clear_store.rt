//! The rings of ClearCodec: wrapping, look-up and rolling back, by the worked examples.
use crate::claiming::claim;
use gfx_base::{NoMemory, Rgb};
use gfx_clear_store::Store;

// Two pixels that no other number has.
fn numbered(number: u32) -> [Rgb; 2] {
    let [b, g, r, x] = number.to_le_bytes();
    [Rgb { b, g, r }, Rgb { b: x, g: 0, r: 0 }]
}

// Bars with these numbers, one after another.
fn add_bars(store: &mut Store, from: u32, to: u32) {
    for number in from..to {
        // It takes no memory.
        let _ = store.add_bar(&numbered(number));
    }
}

// The least place of the bar with a number.
fn place(store: &Store, number: u32) -> Option<u16> {
    store.find_bar(&numbered(number))
}

// The cursors, and the least places of the bars with two numbers.
fn seen(store: &Store, one: u32, other: u32) -> ((u16, u16), Option<u16>, Option<u16>) {
    (store.cursors(), place(store, one), place(store, other))
}

// Whether the first bar has a number.
fn is_first(store: &Store, number: u32) -> bool {
    store.bar(0) == Some(numbered(number).as_slice())
}

// Whether the bars are found where the ring is full, and behind that.
fn bars_are_found(store: &mut Store) -> bool {
    add_bars(store, 0, 32_768);
    let full = seen(store, 0, 32_768) == ((0, 0), Some(0), None);
    store.prepare();
    let prepared = place(store, 32_767) == Some(32_767);
    add_bars(store, 32_768, 32_769);
    let behind = seen(store, 0, 32_768) == ((1, 0), None, Some(0));
    full && prepared && behind && is_first(store, 32_768)
}

// After 32,768 different bars the next overwrites the first.
#[test]
fn bars_wrap(rt: HostRuntime) -> Result<(), NoMemory> {
    let mut store = Store::new(rt.alloc())?;
    let right = bars_are_found(&mut store);
    claim(&rt, right);
    Ok(())
}

// Shorts with so many numbers, one after another.
fn add_shorts(store: &mut Store, count: u32) {
    for number in 0..count {
        // It takes no memory.
        let _ = store.add_short(&numbered(number));
    }
}

// The least place of the short with a number.
fn short_place(store: &Store, number: u32) -> Option<u16> {
    store.find_short(&numbered(number))
}

// Whether the second short has a number.
fn is_second(store: &Store, number: u32) -> bool {
    store.short(1) == Some(numbered(number).as_slice())
}

// Whether the last short stands on the place of the first.
fn shorts_are_found(store: &mut Store) -> bool {
    add_shorts(store, 16_385);
    let places = (short_place(store, 0), short_place(store, 16_384));
    store.cursors() == (0, 1) && places == (None, Some(0)) && is_second(store, 1)
}

// Shorts wrap at their own number.
#[test]
fn shorts_wrap(rt: HostRuntime) -> Result<(), NoMemory> {
    let mut store = Store::new(rt.alloc())?;
    let right = shorts_are_found(&mut store);
    claim(&rt, right);
    Ok(())
}

// Whether the least place is found by an index, without it, and by it again.
fn least_is_found(store: &mut Store) -> bool {
    add_bars(store, 7, 8);
    add_bars(store, 7, 8);
    store.prepare();
    let first = place(store, 7) == Some(0);
    add_bars(store, 8, 9);
    store.reset_cursors();
    add_bars(store, 9, 10);
    let other = place(store, 7) == Some(1);
    store.prepare();
    first && other && seen(store, 7, 9) == ((1, 0), Some(1), Some(0))
}

// Of two places with the same pixels the first is found, and the other once that is overwritten.
#[test]
fn least_place(rt: HostRuntime) -> Result<(), NoMemory> {
    let mut store = Store::new(rt.alloc())?;
    let right = least_is_found(&mut store);
    claim(&rt, right);
    Ok(())
}

// Writes so many bars, and one more on the first place, and goes back to the mark.
fn there_and_back(store: &mut Store, turns: u32) {
    add_bars(store, 40_000, 40_000u32.saturating_add(turns));
    store.reset_cursors();
    add_bars(store, 40_000, 40_001);
    store.roll_back();
}

// Whether the store is as at the mark, after few bars and after many.
fn is_back(store: &mut Store) -> bool {
    add_bars(store, 0, 32_769);
    store.mark();
    for turns in &[2, 70_000] {
        there_and_back(store, *turns);
        let first = seen(store, 0, 1) == ((1, 0), None, Some(1));
        if !first || seen(store, 32_768, 40_000) != ((1, 0), Some(0), None) {
            return false;
        }
    }
    true
}

// A mark holds what was overwritten after it, however often the ring went round.
#[test]
fn goes_back(rt: HostRuntime) -> Result<(), NoMemory> {
    let mut store = Store::new(rt.alloc())?;
    let right = is_back(&mut store);
    claim(&rt, right);
    Ok(())
}

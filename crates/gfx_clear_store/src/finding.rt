//! How a ring finds the first place of given pixels: along the links of its index, or place by place.
ghost use Rattle.std.specs.Prelude.{◌≡◌, ◌<◌, ◌≤◌, length, position, min, if◌then◌else◌, IfSome};
ghost use Rattle.gfx_clear_store.specs.Rings.{stands};
ghost use Rattle.gfx_clear_store.specs.Index.{rank, home_at, IsIndex};

use crate::bar::Slot;
use crate::home::home_of;
use crate::index::Index;
use gfx_base::Rgb;

/// The first place with these pixels, by the links from their home on.
pub(crate) fn follow<const MOST: usize>(
    index: &Index,
    slots: &[Slot<MOST>],
    count: u16,
    cursor: u16,
    pixels: &[Rgb],
) -> Option<u16>
    requires count { count ≤ 32768 }
    requires slots { length slots.now ≡ count }
    requires cursor { cursor < count }
    requires latest { length index.now.latest.items ≡ count }
    requires earlier { length index.now.earlier.items ≡ count }
    requires ready { IsIndex (rank count cursor) (home_at count slots.now) index.now.latest.items index.now.earlier.items }
    ensures least { result ≡ position (stands pixels.now) slots.now }
    ensures within { IfSome result (λ place. place < count) }
{
    let mut least = count;
    let mut place = index.latest[usize::from(home_of(count, pixels))];
    'chain: while place < count {
        least = lesser(&slots[usize::from(place)], pixels, place, least);
        place = index.before(count, cursor, place);
    }
    if least < count { Some(least) } else { None }
}

/// The lesser place, if these pixels stand at the first.
#[inline(always)]
fn lesser<const MOST: usize>(slot: &Slot<MOST>, pixels: &[Rgb], place: u16, least: u16) -> u16
    ensures { result ≡ (if stands pixels.now slot.now then min place least else least) }
{
    if stands(slot, pixels) {
        place.min(least)
    } else {
        least
    }
}

/// The first place with these pixels, by a look at each.
pub(crate) fn scan<const MOST: usize>(
    slots: &[Slot<MOST>],
    count: u16,
    pixels: &[Rgb],
) -> Option<u16>
    requires { length slots.now ≡ count }
    ensures least { result ≡ position (stands pixels.now) slots.now }
    ensures within { IfSome result (λ place. place < count) }
{
    'places: for (place, slot) in slots.iter().enumerate() {
        if stands(slot, pixels) {
            return Some(place as u16);
        }
    }
    None
}

#[inline(always)]
fn stands<const MOST: usize>(slot: &Slot<MOST>, pixels: &[Rgb]) -> bool
    ensures { result ≡ stands pixels.now slot.now }
{
    match slot {
        Some(bar) => bar.has(pixels),
        None => false,
    }
}

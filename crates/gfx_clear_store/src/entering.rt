//! How the places of a ring are entered into its index.
ghost use Rattle.std.specs.Prelude.{◌≡◌, ◌<◌, ◌≤◌, ◌+◌, length, slice_set, slice_index_or, MatchOption, true};
ghost use Rattle.gfx_clear_store.specs.Home.{home_of};
ghost use Rattle.gfx_clear_store.specs.Index.{rank, home_at, IsIndex};

use crate::bar::Slot;
use crate::home::home_of;
use crate::index::Index;

/// Enters all places that were ever written, the oldest first.
pub(crate) fn enter_all<const MOST: usize>(
    index: &mut Index,
    slots: &[Slot<MOST>],
    count: u16,
    cursor: u16,
)
    requires count { count ≤ 32768 }
    requires slots { length slots.now ≡ count }
    requires cursor { cursor < count }
    requires latest { length index.old.latest.items ≡ count }
    requires earlier { length index.old.earlier.items ≡ count }
    ensures latest { length index.new.latest.items ≡ count }
    ensures earlier { length index.new.earlier.items ≡ count }
    ensures index { IsIndex (rank count cursor) (home_at count slots.now) index.new.latest.items index.new.earlier.items }
{
    index.clear();
    'steps: for step in 0..count {
        let place = turned(count, cursor, step);
        enter_slot(index, count, place, &slots[usize::from(place)]);
    }
    index.ready = true;
}

/// Enters a place, if something stands there.
fn enter_slot<const MOST: usize>(index: &mut Index, count: u16, place: u16, slot: &Slot<MOST>)
    requires place { place < count }
    requires latest { length index.old.latest.items ≡ count }
    requires earlier { length index.old.earlier.items ≡ count }
    ensures latest { MatchOption slot.now (index.new.latest.items ≡ index.old.latest.items)
        (λ pixels. index.new.latest.items ≡ slice_set index.old.latest.items (home_of count pixels) place) }
    ensures earlier { MatchOption slot.now (index.new.earlier.items ≡ index.old.earlier.items)
        (λ pixels. index.new.earlier.items ≡ slice_set index.old.earlier.items place (slice_index_or index.old.latest.items (home_of count pixels) 0)) }
    ensures homes { length index.new.latest.items ≡ count }
    ensures places { length index.new.earlier.items ≡ count }
{
    if let Some(bar) = slot {
        index.enter(home_of(count, bar.as_slice()), place);
    }
}

/// The place that was written so many steps after the oldest.
fn turned(count: u16, cursor: u16, step: u16) -> u16
    requires cursor { cursor < count }
    requires step { step < count }
    ensures order { rank count cursor result ≡ cursor + step }
    ensures within { result < count }
{
    if step < count - cursor {
        cursor + step
    } else {
        step - (count - cursor)
    }
}

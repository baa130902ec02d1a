//! What a ring needs to go back to its mark.
ghost use Rattle.std.specs.Prelude.{◌≡◌, ◌<◌, ◌≤◌, [], length, IfOk};
ghost use Rattle.std.specs.Vec.{vec_capacity};
ghost use Rattle.gfx_clear_store.specs.Undoing.{logged, kept, undone, AreWithin};

use crate::bar::Slot;
use gfx_base::NoMemory;
use std::alloc::Global;
use std::marker::Model;

/// A place, and what stood there before it was written.
type Overwritten<const MOST: usize> = (u16, Slot<MOST>);

/// What stood at the mark in the places that were written since, each place once.
#[derive(Drop)]
pub(crate) struct Log<const MOST: usize> {
    entries: Vec<Overwritten<MOST>>,
    noted: Vec<bool>,
}

impl<const MOST: usize> Model for Log<MOST> {
    ghost use Rattle.gfx_clear_store.specs.Undoing.{Logged};

    ghost Value = { Logged };

    ghost use Rattle.gfx_clear_store.specs.LogInside.{logged_of, IsLog};

    ghost view = { logged_of };

    ghost invariant = { IsLog };
}

impl<const MOST: usize> Log<MOST> {
    /// Nothing, in a ring of so many places. It takes all the room that it will need.
    pub(crate) fn new(alloc: Global, count: u16) -> Result<Self, NoMemory>
        requires { MOST ≤ 255 }
        ensures { IfOk result (λ log. log ≡ logged count []) }
    {
        let entries = Vec::with_capacity(alloc, usize::from(count))?;
        let noted = vec![in alloc; false; usize::from(count)]?;
        Ok(Log { entries, noted })
    }

    /// Keeps what is overwritten, if its place was not written since the mark.
    pub(crate) fn keep(&mut self, place: u16, slot: Slot<MOST>)
        requires { place < self.old.room }
        ensures { self.new ≡ kept place slot.entry self.old }
    {
        if self.noted[usize::from(place)] {
            return;
        }
        self.noted[usize::from(place)] = true;
        self.entries.push_reserved((place, slot));
    }

    /// Puts everything back, and keeps nothing.
    pub(crate) fn take_back(&mut self, slots: &mut [Slot<MOST>])
        requires { length slots.old ≡ self.old.room }
        ensures slots { slots.new ≡ undone self.old.entries slots.old }
        ensures empty { self.new ≡ logged self.old.room [] }
    {
        put_back(&mut self.entries, slots);
        self.noted.fill(false);
    }

    /// Keeps nothing.
    pub(crate) fn clear(&mut self)
        ensures { self.new ≡ logged self.old.room [] }
    {
        self.entries.clear();
        self.noted.fill(false);
    }
}

/// Puts back what was overwritten, the last first.
fn put_back<const MOST: usize>(entries: &mut Vec<Overwritten<MOST>>, slots: &mut [Slot<MOST>])
    requires small { MOST ≤ 255 }
    requires within { AreWithin (length slots.old) entries.old.items }
    ensures slots { slots.new ≡ undone entries.old.items slots.old }
    ensures empty { entries.new.items ≡ [] }
    ensures room { vec_capacity entries.new ≡ vec_capacity entries.old }
{
    'entries: while let Some((place, slot)) = entries.pop() {
        slots[usize::from(place)] = slot;
    }
}

//! A store of columns that is written in turn.
ghost use Rattle.std.specs.Prelude.{◌≡◌, ◌<◌, ◌≤◌, ◌+◌, ℕ, length, replicate, slice_index_or, None, Some, true, false, IfOk, IfSome};
ghost use Rattle.gfx_clear_store.specs.Rings.{Places, places, unwritten, next_place, added, slot_at, stands, least_place, with_mark, IsRing};
ghost use Rattle.std.specs.Option.{option_map};
ghost use Rattle.gfx_clear_store.specs.Index.{rank, home_at, IsIndex};

use crate::bar::{Bar, Slot};
use crate::entering::enter_all;
use crate::finding::{follow, scan};
use crate::index::Index;
use crate::log::Log;
use gfx_base::{NoMemory, Rgb};
use std::alloc::Global;
use std::marker::Model;
use std::mem;

/// `COUNT` places, each with at most `MOST` pixels. Contracts see what stands there and which is written
/// next, now and at the mark.
#[derive(Drop)]
pub(crate) struct Ring<const COUNT: u16, const MOST: usize> {
    slots: Vec<Slot<MOST>>,
    cursor: u16,
    at_mark: u16,
    log: Log<MOST>,
    index: Index,
    /// From this place on nothing was ever written.
    written: u16,
}

impl<const COUNT: u16, const MOST: usize> Model for Ring<COUNT, MOST> {
    ghost use Rattle.gfx_clear_store.specs.Rings.{Places, Marked};

    ghost Value = { Marked Places };

    ghost use Rattle.gfx_clear_store.specs.RingInside.{ring_of, IsSound};

    ghost view = { ring_of };

    ghost invariant = { IsSound };
}

impl<const COUNT: u16, const MOST: usize> Ring<COUNT, MOST> {
    /// A ring to which nothing was ever written, marked. It takes all the room that it will need.
    #[tactic(auto, unfolding(crate::specs::Rings::unwritten))]
    pub(crate) fn new(alloc: Global) -> Result<Self, NoMemory>
        requires some { 0 < COUNT }
        requires count { COUNT ≤ 32768 }
        requires small { MOST ≤ 255 }
        ensures { IfOk result (λ ring. ring ≡ with_mark (unwritten COUNT) (unwritten COUNT)) }
    {
        let slots = no_slots(alloc, COUNT)?;
        let log = Log::new(alloc, COUNT)?;
        let index = Index::new(alloc, COUNT)?;
        Ok(Ring {
            slots,
            cursor: 0,
            at_mark: 0,
            log,
            index,
            written: 0,
        })
    }

    /// What stands at a place, if it was ever written.
    pub(crate) fn get(&self, place: u16) -> Option<&[Rgb]>
        requires { place < COUNT }
        ensures { option_map (λ pixels. pixels.now) result ≡ slot_at self.now.held place }
    {
        match &self.slots[usize::from(place)] {
            Some(bar) => Some(bar.as_slice()),
            None => None,
        }
    }

    /// The place that is written next.
    pub(crate) fn cursor(&self) -> u16
        ensures value { result ≡ self.now.held.cursor }
        ensures held { IsRing COUNT self.now.held }
        ensures marked { IsRing COUNT self.now.marked }
    {
        self.cursor
    }

    /// The place from which on nothing was ever written.
    pub(crate) fn written(&self) -> u16
        ensures blank { (place : ℕ) → result ≤ place → slot_at self.now.held place ≡ None }
        ensures within { result ≤ COUNT }
    {
        self.written
    }

    /// Sees to it that places are found by the index, until a cursor is reset or a mark is gone back to.
    pub(crate) fn prepare(&mut self)
        ensures { self.new ≡ self.old }
    {
        if self.index.ready {
            return;
        }
        enter_all(&mut self.index, &self.slots, COUNT, self.cursor);
    }

    /// The first place with these pixels, if there is one.
    pub(crate) fn find(&self, pixels: &[Rgb]) -> Option<u16>
        ensures least { result ≡ least_place pixels.now self.now.held }
        ensures within { IfSome result (λ place. place < COUNT) }
    {
        if self.index.ready {
            follow(&self.index, &self.slots, COUNT, self.cursor, pixels)
        } else {
            scan(&self.slots, COUNT, pixels)
        }
    }

    /// Writes these pixels at the cursor, which goes on. It takes no memory.
    pub(crate) fn add(&mut self, pixels: &[Rgb])
        requires { length pixels.now ≤ MOST }
        ensures { self.new ≡ with_mark (added COUNT pixels.now self.old.held) self.old.marked }
    {
        let place = self.cursor;
        self.index.note(COUNT, place, pixels);
        let bar = Some(Bar::new(pixels));
        let old = mem::replace(&mut self.slots[usize::from(place)], bar);
        self.log.keep(place, old);
        self.written = self.written.max(place + 1);
        self.cursor = next_place(COUNT, place);
    }

    /// Goes on from the first place.
    pub(crate) fn reset_cursor(&mut self)
        ensures { self.new ≡ with_mark (places self.old.held.slots 0) self.old.marked }
    {
        self.cursor = 0;
        self.index.ready = false;
    }

    /// Notes the present state.
    pub(crate) fn mark(&mut self)
        ensures { self.new ≡ with_mark self.old.held self.old.held }
    {
        self.log.clear();
        self.at_mark = self.cursor;
    }

    /// Goes back to the state that was noted last.
    pub(crate) fn roll_back(&mut self)
        ensures { self.new ≡ with_mark self.old.marked self.old.marked }
    {
        self.log.take_back(&mut self.slots);
        self.cursor = self.at_mark;
        self.index.ready = false;
    }
}

/// The place after this one; the first stands behind the last.
fn next_place(count: u16, place: u16) -> u16
    requires { place < count }
    ensures next { result ≡ next_place count place }
    ensures within { result < count }
{
    if place + 1 == count { 0 } else { place + 1 }
}

/// Places to which nothing was ever written.
fn no_slots<const MOST: usize>(alloc: Global, count: u16) -> Result<Vec<Slot<MOST>>, NoMemory>
    requires { MOST ≤ 255 }
    ensures { IfOk result (λ slots. slots.items ≡ replicate count None) }
{
    let mut slots = Vec::with_capacity(alloc, usize::from(count))?;
    for _ in 0..count {
        slots.push_reserved(None);
    }
    Ok(slots)
}

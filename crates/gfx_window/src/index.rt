//! Items by where they write, so that few are looked at to find one that covers a write.
ghost use Rattle.std.specs.Prelude.{◌≡◌, ◌<◌, ◌-◌, ◌||◌, length, OnOk};
ghost use Rattle.std.specs.List.{list_any};
ghost use Rattle.gfx_window.specs.Index.{Enters, cell, fits, found, hits, home_in, home_of, looks, near, spot, those};

use crate::covering::{Hull, Write, covers};
use crate::window::Queued;
use gfx_base::NoMemory;
use gfx_script::Script;
use std::alloc::Global;

/// The sides of squares by which hulls are told apart: the last is as long as any hull's.
pub(crate) const SIDES: [u32; 8] = [8, 32, 128, 512, 2_048, 8_192, 32_768, 131_072];

/// The places of items, each in the list of the square that the left top corner of its hull lies in. The square is of
/// the least side that is no shorter than the hull's own sides. What doesn't lie in any is in the first list, and so may
/// be others.
#[derive(Drop)]
pub(crate) struct Index {
    pub(crate) lists: Vec<Vec<usize>>,
    ghost some: { 0 < length lists.items },
}

/// What is looked for: one of the items at these places that covers a write of this hull.
#[derive(Clone, Copy, Debug)]
pub(crate) struct Sought {
    pub(crate) from: usize,
    pub(crate) limit: usize,
    pub(crate) write: Write,
    pub(crate) hull: Hull,
}

impl Index {
    /// Room for so many items, none of which is entered.
    pub(crate) fn new(alloc: Global, count: usize) -> Result<Index, NoMemory> {
        let mut lists = Vec::new(alloc);
        lists.push(Vec::new(alloc))?;
        'lists: for _ in 0..count {
            lists.push(Vec::new(alloc))?;
        }
        Ok(Index { lists })
    }

    /// Enters the item at a place by its hull.
    pub(crate) fn enter(&mut self, hull: Hull, place: usize) -> Result<(), NoMemory>
        ensures { OnOk result (Enters self.old.lists.items self.new.lists.items hull place) }
    {
        let home = home_of(self.lists.len(), hull);
        self.lists[home].push(place)?;
        Ok(())
    }

    /// Whether one of the items that are looked for is found.
    #[tactic(auto, unfolding(crate::specs::Index::found))]
    pub(crate) fn finds(&self, script: &Script, items: &[Queued], sought: Sought) -> bool
        ensures { result ≡ found script.now items.now sought self.now.lists.items }
    {
        self.any_is_near(script, items, sought, &SIDES) || self.is_in(script, items, sought, 0)
    }

    /// Whether one is near by one of these sides.
    fn any_is_near(&self, script: &Script, items: &[Queued], sought: Sought, sides: &[u32]) -> bool
        ensures { result ≡ list_any (near script.now items.now sought self.now.lists.items) sides.now }
    {
        sides
            .iter()
            .any(|side| self.is_near(script, items, sought, *side))
    }

    /// Whether one is in the square of this side that the hull's corner lies in, or in one left of it or above it.
    #[tactic(auto, unfolding(crate::specs::Index::near))]
    fn is_near(&self, script: &Script, items: &[Queued], sought: Sought, side: u32) -> bool
        ensures { result ≡ near script.now items.now sought self.now.lists.items side }
    {
        let x = cell(side, sought.hull.left);
        let y = cell(side, sought.hull.top);
        self.is_at(script, items, sought, side, x, y)
            || (self.is_at(script, items, sought, side, x.saturating_sub(1), y)
                || self.is_above(script, items, sought, side, x, y.saturating_sub(1)))
    }

    /// Whether one is in one of two squares beside each other.
    fn is_above(
        &self,
        script: &Script,
        items: &[Queued],
        sought: Sought,
        side: u32,
        x: u32,
        y: u32,
    ) -> bool
        ensures { result ≡ (looks script.now items.now sought self.now.lists.items side x y || looks script.now items.now sought self.now.lists.items side (x - 1) y) }
    {
        self.is_at(script, items, sought, side, x, y)
            || self.is_at(script, items, sought, side, x.saturating_sub(1), y)
    }

    /// Whether one is in this square's list.
    fn is_at(
        &self,
        script: &Script,
        items: &[Queued],
        sought: Sought,
        side: u32,
        x: u32,
        y: u32,
    ) -> bool
        ensures { result ≡ looks script.now items.now sought self.now.lists.items side x y }
    {
        self.is_in(script, items, sought, spot(self.lists.len(), side, x, y))
    }

    /// Whether one is in this list.
    fn is_in(&self, script: &Script, items: &[Queued], sought: Sought, home: usize) -> bool
        requires { home < length self.now.lists.items }
        ensures { result ≡ list_any (hits script.now items.now sought) (those self.now.lists.items home) }
    {
        any_hits(script, items, sought, &self.lists[home])
    }
}

/// Whether one of these places is looked for, and its item covers the write.
fn any_hits(script: &Script, items: &[Queued], sought: Sought, places: &[usize]) -> bool
    ensures { result ≡ list_any (hits script.now items.now sought) places.now }
{
    places
        .iter()
        .any(|place| hits(script, items, sought, *place))
}

/// The list of a hull, of so many.
fn home_of(count: usize, hull: Hull) -> usize
    requires { 0 < count }
    ensures home { result ≡ home_of count hull }
    ensures within { result < count }
{
    home_in(count, hull, &SIDES)
}

/// The list of a hull, of so many, by the first of these sides that it fits.
fn home_in(count: usize, hull: Hull, sides: &[u32]) -> usize
    requires { 0 < count }
    ensures home { result ≡ home_in count hull sides.now }
    ensures within { result < count }
{
    'sides: for side in sides {
        if fits(*side, hull) {
            return spot(count, *side, cell(*side, hull.left), cell(*side, hull.top));
        }
    }
    0
}

/// Whether a hull is no longer than a side.
fn fits(side: u32, hull: Hull) -> bool
    ensures { result ≡ fits side hull }
{
    0 < side
        && (hull.right.saturating_sub(hull.left) <= side
            && hull.bottom.saturating_sub(hull.top) <= side)
}

/// The number of the square of this side along one axis.
#[inline(always)]
#[tactic(auto, unfolding(crate::specs::Index::cell))]
fn cell(side: u32, at: u32) -> u32
    ensures { result ≡ cell side at }
{
    if side == 0 { 0 } else { at / side }
}

/// The list of a square, of so many.
#[inline(always)]
#[tactic(auto, unfolding(crate::specs::Index::spot))]
fn spot(count: usize, side: u32, x: u32, y: u32) -> usize
    requires { 0 < count }
    ensures spot { result ≡ spot count side x y }
    ensures within { result < count }
{
    let mixed = u64::from(side) + (u64::from(x) * 7_919 + u64::from(y) * 50_021);
    (mixed % count as u64) as usize
}

/// Whether an item at this place is looked for, and covers the write.
#[tactic(auto, unfolding(crate::specs::Index::hits))]
fn hits(script: &Script, items: &[Queued], sought: Sought, place: usize) -> bool
    ensures { result ≡ hits script.now items.now sought place }
{
    if place < sought.from {
        return false;
    }
    if sought.limit <= place {
        return false;
    }
    match items.get(place) {
        Some(item) => covers(script, *item, sought.write),
        None => false,
    }
}

//! Which of the items that wait are left out, found for all of them at once.
ghost use Rattle.std.specs.Prelude.{◌≡◌, ◌+◌, ◌<◌, ◌≤◌, IfOk, IsTrue, OnOk, drop, length, Ok};
ghost use Rattle.gfx_window.specs.Hulls.{is_covered_by};
ghost use Rattle.gfx_window.specs.Index.{AreLeftOut, Stands, written};
ghost use Rattle.gfx_window.specs.Superseded.{superseded};

use crate::covering::{Hull, Write, is_covered, plain_write, stands_aside};
use crate::index::{Index, Sought};
use crate::window::Queued;
use gfx_base::NoMemory;
use gfx_script::Script;
use std::alloc::Global;

/// So many items are looked at one by one: that is quicker than to find those that lie near.
const FEW: usize = 32;

/// Of each item whether a later one covers it, the last one first: what was passed is found by where it writes.
pub(crate) fn left_out(
    alloc: Global,
    script: &Script,
    items: &[Queued],
) -> Result<Vec<bool>, NoMemory>
    ensures { IfOk result (λ left. AreLeftOut script.now items.now left.items 0) }
{
    let mut left = vec![in alloc; false; items.len()]?;
    let mut index = Index::new(alloc, items.len())?;
    let mut limit = items.len();
    let mut place = items.len();
    'places: while 0 < place {
        place -= 1;
        left[place] = is_left_out_at(script, items, &index, place, limit);
        limit = pass(script, items, &mut index, place, limit)?;
    }
    Ok(left)
}

/// Whether a later item covers the one at a place.
fn is_left_out_at(
    script: &Script,
    items: &[Queued],
    index: &Index,
    place: usize,
    limit: usize,
) -> bool
    requires place { place < length items.now }
    requires stands { Stands script.now items.now index.now.lists.items (place + 1) limit }
    ensures { result ≡ superseded script.now items.now place }
{
    match plain_write(script, items[place]) {
        None => false,
        Some(write) => is_covered_behind(script, items, index, write, place + 1, limit),
    }
}

/// Whether an item from a place on covers a write that stands before it.
fn is_covered_behind(
    script: &Script,
    items: &[Queued],
    index: &Index,
    write: Write,
    from: usize,
    limit: usize,
) -> bool
    requires from { from ≤ length items.now }
    requires stands { Stands script.now items.now index.now.lists.items from limit }
    ensures { result ≡ is_covered_by script.now write (drop from items.now) }
{
    if let Some(hull) = write.hull {
        if is_worth_a_search(hull, from, limit) {
            return index.finds(
                script,
                items,
                Sought {
                    from,
                    limit,
                    write,
                    hull,
                },
            );
        }
    }
    let (_, behind) = items.split_at(from);
    is_covered(script, write, behind)
}

/// Whether what covers a hull is to be found by where it writes.
fn is_worth_a_search(hull: Hull, from: usize, limit: usize) -> bool
    ensures across { IsTrue result → hull.left ≤ hull.right }
    ensures down { IsTrue result → hull.top ≤ hull.bottom }
    ensures within { IsTrue result → from ≤ limit }
{
    hull.left <= hull.right && (hull.top <= hull.bottom && FEW < limit.saturating_sub(from))
}

/// Enters the item at a place, and answers up to where those from it on stand aside.
fn pass(
    script: &Script,
    items: &[Queued],
    index: &mut Index,
    place: usize,
    limit: usize,
) -> Result<usize, NoMemory>
    requires place { place < length items.now }
    requires stands { Stands script.now items.now index.old.lists.items (place + 1) limit }
    ensures { IfOk result (Stands script.now items.now index.new.lists.items place) }
{
    let item = items[place];
    if !stands_aside(script, item) {
        return Ok(place);
    }
    match written(script, item) {
        None => Ok(limit),
        Some(hull) => {
            index.enter(hull, place)?;
            Ok(limit)
        }
    }
}

/// The hull of what an item writes, if it is a plain write that writes anything.
fn written(script: &Script, item: Queued) -> Option<Hull>
    ensures { result ≡ written script.now item }
{
    plain_write(script, item)?.hull
}

//! Which steps a later one covers.
#![tactic(auto, unfolding(gfx_script::specs::Writes::writes_plainly, gfx_script::specs::Writes::paints_plainly))]

ghost use Rattle.std.specs.Prelude.{◌≡◌};
ghost use Rattle.std.specs.List.{list_any};
ghost use Rattle.std.specs.Option.{option_map};
ghost use Rattle.gfx_window.specs.Superseded.{plain_area, stands_aside};
ghost use Rattle.gfx_window.specs.Hulls.{as_hull, placed_hull, joined, hull_of, reaches, reaches_all, write_of, hull_covers, is_covered_by};

use crate::window::Queued;
use gfx_base::{Point, Rect};
use gfx_script::{Script, Step};

/// The sides that a rectangle has to reach so as to contain others: the least left and top, the greatest
/// right and bottom. Those of a picture may pass the 16 bits of a rectangle.
#[derive(Clone, Copy, Debug)]
pub struct Hull {
    pub left: u32,
    pub top: u32,
    pub right: u32,
    pub bottom: u32,
}

/// Where a plain write writes: its surface, and the hull of its rectangles, if it has any.
#[derive(Clone, Copy, Debug)]
pub struct Write {
    pub surface: u16,
    pub hull: Option<Hull>,
}

/// Where a pending item writes, if it is a plain write.
pub(crate) fn plain_write(script: &Script, item: Queued) -> Option<Write>
    ensures { result ≡ option_map write_of (plain_area script.now item) }
{
    match script.step(item.step)? {
        Step::Fill { id, rects, .. } => Some(Write {
            surface: *id,
            hull: hull_of(rects.as_slice()),
        }),
        Step::Paint {
            id,
            picture,
            at,
            ..
        } => {
            let kind = item.kind?;
            if !kind.is_plain_write() {
                return None;
            }
            let (width, height) = script.picture_size(*picture)?;
            Some(Write {
                surface: *id,
                hull: Some(placed(width, height, *at)),
            })
        }
        _ => None,
    }
}

/// Whether one of these items covers a write that stands before them, and those between the two stand
/// aside. It looks at each of them once, and at each of their rectangles once.
#[tactic(auto)]
pub(crate) fn is_covered(script: &Script, write: Write, items: &[Queued]) -> bool
    ensures { result ≡ is_covered_by script.now write items.now }
{
    'items: for item in items {
        if covers(script, *item, write) {
            return true;
        }
        if !stands_aside(script, *item) {
            return false;
        }
    }
    false
}

/// Whether an item covers a write.
#[inline(always)]
pub(crate) fn covers(script: &Script, item: Queued, write: Write) -> bool
    ensures { result ≡ hull_covers write (plain_area script.now item) }
{
    match script.step(item.step) {
        Some(Step::Fill { id, rects, .. }) => {
            *id == write.surface && any_reaches(rects.as_slice(), write.hull)
        }
        Some(
            Step::Paint {
                id,
                picture,
                at,
                ..
            },
        ) => {
            let Some(kind) = item.kind else {
                return false;
            };
            if !kind.is_plain_write() {
                return false;
            }
            match script.picture_size(*picture) {
                Some((width, height)) => {
                    *id == write.surface && reaches_all(placed(width, height, *at), write.hull)
                }
                None => false,
            }
        }
        _ => false,
    }
}

/// Whether an item may stand between a write that is covered and the one that covers it.
#[inline(always)]
pub(crate) fn stands_aside(script: &Script, item: Queued) -> bool
    ensures { result ≡ stands_aside script.now item }
{
    match script.step(item.step) {
        Some(Step::Fill { .. } | Step::Frame) => true,
        Some(Step::Paint { picture, .. }) => {
            let Some(kind) = item.kind else {
                return false;
            };
            if !kind.is_plain_write() {
                return false;
            }
            script.picture_size(*picture).is_some()
        }
        _ => false,
    }
}

/// The hull of these rectangles, if there are any.
#[tactic(auto)]
fn hull_of(rects: &[Rect]) -> Option<Hull>
    ensures { result ≡ hull_of rects.now }
{
    let mut hull = None;
    'rects: for rect in rects {
        hull = Some(joined(hull, as_hull(*rect)));
    }
    hull
}

/// The hull of what had a hull, and of one more.
#[tactic(auto)]
#[inline(always)]
fn joined(hull: Option<Hull>, more: Hull) -> Hull
    ensures { result ≡ joined hull more }
{
    match hull {
        None => more,
        Some(hull) => Hull {
            left: hull.left.min(more.left),
            top: hull.top.min(more.top),
            right: hull.right.max(more.right),
            bottom: hull.bottom.max(more.bottom),
        },
    }
}

/// Whether one of these rectangles reaches all sides of a hull.
#[tactic(auto)]
fn any_reaches(rects: &[Rect], hull: Option<Hull>) -> bool
    ensures { result ≡ list_any (λ outer. reaches_all (as_hull outer) hull) rects.now }
{
    rects.iter().any(|outer| reaches_all(as_hull(*outer), hull))
}

/// Whether a rectangle reaches all sides of a hull, if there is one.
#[tactic(auto)]
#[inline(always)]
fn reaches_all(outer: Hull, hull: Option<Hull>) -> bool
    ensures { result ≡ reaches_all outer hull }
{
    match hull {
        None => true,
        Some(hull) => reaches(outer, hull),
    }
}

/// Whether a rectangle reaches all sides of a hull.
#[tactic(auto)]
#[inline(always)]
fn reaches(outer: Hull, hull: Hull) -> bool
    ensures { result ≡ reaches outer hull }
{
    outer.left <= hull.left
        && outer.top <= hull.top
        && (hull.right <= outer.right && hull.bottom <= outer.bottom)
}

/// The sides of a rectangle.
#[tactic(auto)]
#[inline(always)]
fn as_hull(rect: Rect) -> Hull
    ensures { result ≡ as_hull rect }
{
    Hull {
        left: u32::from(rect.left),
        top: u32::from(rect.top),
        right: u32::from(rect.right),
        bottom: u32::from(rect.bottom),
    }
}

/// The sides of a picture at a place.
#[tactic(auto)]
#[inline(always)]
fn placed(width: u16, height: u16, at: Point) -> Hull
    ensures { result ≡ placed_hull width height at }
{
    Hull {
        left: u32::from(at.x),
        top: u32::from(at.y),
        right: u32::from(at.x) + u32::from(width),
        bottom: u32::from(at.y) + u32::from(height),
    }
}

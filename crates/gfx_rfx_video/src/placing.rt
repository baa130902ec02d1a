//! Where tiles and the rectangles of regions stand on a surface.
ghost use Rattle.std.specs.Prelude.{◌≡◌, ◌≤◌, ◌<◌, ◌+◌, ◌*◌, ◌/◌, min};
ghost use Rattle.gfx_base.specs.Cells.{cell, has_pixels};
ghost use Rattle.gfx_base.specs.Geometry.{width_of, height_of};
ghost use Rattle.gfx_rfx_video.specs.Inside.{begins_in, corner_of, has_all, is_in_one, is_whole_cell, overlap, placed};
ghost use Rattle.gfx_rfx_video.specs.Showing.{tile_in};

use gfx_base::{CELL_SIDE, Cell, Point, Rect};
use gfx_prog_block::{Area, TileHead};

/// Whether a tile begins in a rectangle of these sides, from whose corner its indices count.
pub(crate) fn begins_in(rect: Rect, head: &TileHead) -> bool
    ensures { result ≡ begins_in rect head.now }
{
    let side = u32::from(CELL_SIDE);
    side * u32::from(head.x_idx) < u32::from(rect.width())
        && side * u32::from(head.y_idx) < u32::from(rect.height())
}

/// What of a tile lies in a rectangle in which it begins.
pub(crate) fn tile_in(rect: Rect, head: &TileHead) -> Rect
    requires narrow { rect.right ≤ 8192 }
    requires low { rect.bottom ≤ 8192 }
    requires across { 64 * head.now.x_idx < width_of rect }
    requires down { 64 * head.now.y_idx < height_of rect }
    ensures { result ≡ tile_in rect head.now }
{
    let left = rect.left + CELL_SIDE * head.x_idx;
    let top = rect.top + CELL_SIDE * head.y_idx;
    Rect {
        left,
        top,
        right: (left + CELL_SIDE).min(rect.right),
        bottom: (top + CELL_SIDE).min(rect.bottom),
    }
}

/// The left top corner of a rectangle.
pub(crate) fn corner_of(rect: Rect) -> Point
    ensures { result ≡ corner_of rect }
{
    Point {
        x: rect.left,
        y: rect.top,
    }
}

/// An area on the surface, by the corner that it is taken from. No surface reaches past 65,535.
pub(crate) fn placed(corner: Point, area: Area) -> Rect
    ensures { result ≡ placed corner area }
{
    let left = corner.x.saturating_add(area.x);
    let top = corner.y.saturating_add(area.y);
    Rect {
        left,
        top,
        right: left.saturating_add(area.width),
        bottom: top.saturating_add(area.height),
    }
}

/// What two rectangles share; it may be upside down.
pub(crate) fn overlap(one: Rect, other: Rect) -> Rect
    ensures { result ≡ overlap one other }
{
    Rect {
        left: one.left.max(other.left),
        top: one.top.max(other.top),
        right: one.right.min(other.right),
        bottom: one.bottom.min(other.bottom),
    }
}

/// Whether a rectangle has pixels.
pub(crate) fn has_pixels(rect: Rect) -> bool
    ensures { result ≡ has_pixels rect }
{
    rect.left < rect.right && rect.top < rect.bottom
}

/// Whether a rectangle has all of another.
fn has_all(outer: Rect, inner: Rect) -> bool
    ensures { result ≡ has_all outer inner }
{
    outer.left <= inner.left
        && inner.right <= outer.right
        && outer.top <= inner.top
        && inner.bottom <= outer.bottom
}

/// Whether one of these areas has all of a rectangle.
pub(crate) fn is_in_one(corner: Point, areas: &[Area], rect: Rect) -> bool
    ensures { result ≡ is_in_one corner areas.now rect }
{
    areas
        .iter()
        .any(|area| has_all(placed(corner, *area), rect))
}

/// Whether a rectangle is a whole cell of a surface.
pub(crate) fn is_whole_cell(rect: Rect) -> bool
    ensures { result ≡ is_whole_cell rect }
{
    (rect.left % CELL_SIDE == 0)
        & (rect.top % CELL_SIDE == 0)
        & (rect.width() == CELL_SIDE)
        & (rect.height() == CELL_SIDE)
}

/// The cell of a rectangle's left top corner.
pub(crate) fn cell_of(rect: Rect) -> Cell
    ensures { result ≡ cell (rect.left / 64) (rect.top / 64) }
{
    Cell {
        x: rect.left / CELL_SIDE,
        y: rect.top / CELL_SIDE,
    }
}

/// The border of a cell behind this column, or row, or an end before it.
pub(crate) fn border(from: u16, end: u16) -> u16
    requires from { from ≤ 8192 }
    requires end { from ≤ end }
    ensures { result ≡ min (from / 64 * 64 + 64) end }
{
    (from / CELL_SIDE * CELL_SIDE + CELL_SIDE).min(end)
}

//! Rectangles that are put to those of a surface.
ghost use Rattle.std.specs.Prelude.{◌≡◌, map};
ghost use Rattle.gfx_base.specs.Geometry.{moved};
ghost use Rattle.gfx_prog_block.specs.declared.block.Block.{Block};
ghost use Rattle.gfx_state.specs.Written.{areas_in, clipped, rect_of_area};
ghost use Rattle.gfx_damage.specs.Marks.{with_rects};
ghost use Rattle.std.specs.List.{flat_map};

use crate::few_rects::FewRects;
use gfx_base::{Point, Rect};
use gfx_prog_block::{Area, Block};

/// The most rectangles that are kept of one surface.
pub const MOST_RECTS: usize = 64;

/// The sides of a surface.
#[derive(Clone, Copy, Debug)]
pub(crate) struct Sides {
    pub(crate) width: u16,
    pub(crate) height: u16,
}

/// What of a rectangle lies on a surface of these sides.
fn clipped(sides: Sides, rect: Rect) -> Rect
    ensures { result ≡ clipped sides.width sides.height rect }
{
    Rect {
        left: rect.left.min(sides.width),
        top: rect.top.min(sides.height),
        right: rect.right.min(sides.width),
        bottom: rect.bottom.min(sides.height),
    }
}

/// What of a rectangle lies on a surface of these sides, its left top corner taken to a point.
fn clipped_at(sides: Sides, rect: Rect, point: Point) -> Rect
    ensures { result ≡ clipped sides.width sides.height (moved rect point) }
{
    Rect {
        left: point.x.min(sides.width),
        top: point.y.min(sides.height),
        right: point.x.saturating_add(rect.width()).min(sides.width),
        bottom: point.y.saturating_add(rect.height()).min(sides.height),
    }
}

/// What of a rectangle of a region lies on a surface of these sides.
fn clipped_area(sides: Sides, area: Area) -> Rect
    ensures { result ≡ clipped sides.width sides.height (rect_of_area area) }
{
    Rect {
        left: area.x.min(sides.width),
        top: area.y.min(sides.height),
        right: area.x.saturating_add(area.width).min(sides.width),
        bottom: area.y.saturating_add(area.height).min(sides.height),
    }
}

/// Puts what of these rectangles lies on the surface to those that it has.
pub(crate) fn add_rects(held: &mut FewRects, sides: Sides, rects: &[Rect])
    ensures { held.new ≡ with_rects held.old (map (clipped sides.width sides.height) rects.now) }
{
    'rects: for rect in rects {
        held.add(clipped(sides, *rect));
    }
}

/// Puts what of a rectangle at each of these points lies on the surface to those that it has.
pub(crate) fn add_copies(held: &mut FewRects, sides: Sides, rect: Rect, points: &[Point])
    ensures { held.new ≡ with_rects held.old (map (clipped sides.width sides.height) (map (moved rect) points.now)) }
{
    'points: for point in points {
        held.add(clipped_at(sides, rect, *point));
    }
}

/// Puts what of these rectangles of a region lies on the surface to those that it has.
fn add_areas(held: &mut FewRects, sides: Sides, areas: &[Area])
    ensures { held.new ≡ with_rects held.old (map (clipped sides.width sides.height) (map rect_of_area areas.now)) }
{
    'areas: for area in areas {
        held.add(clipped_area(sides, *area));
    }
}

/// Puts what of the rectangles of these blocks lies on the surface to those that it has.
pub(crate) fn add_blocks(held: &mut FewRects, sides: Sides, blocks: &[Block<'_>])
    ensures { held.new ≡ with_rects held.old (map (clipped sides.width sides.height) (map rect_of_area (flat_map areas_in blocks.now))) }
{
    'regions: for block in blocks {
        if let Block::Region(region) = block {
            add_areas(held, sides, region.rects.as_slice());
        }
    }
}

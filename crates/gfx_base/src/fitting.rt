//! Rectangles against the sides of a surface.
ghost use Rattle.std.specs.Prelude.{◌≡◌, ◌<◌, ◌+◌, ◌^◌, nat_le};
ghost use Rattle.std.specs.List.{list_all};
ghost use Rattle.gfx_base.specs.Geometry.{lies_in, width_of, height_of, moved, fit_all};

use crate::geometry::{Point, Rect};

/// Whether all of these rectangles lie in an area of these sides.
pub fn all_lie_in(rects: &[Rect], width: u16, height: u16) -> bool
    ensures { result ≡ list_all (lies_in width height) rects.now }
{
    rects.iter().all(|rect| rect.lies_in(width, height))
}

/// Whether a rectangle, once it is taken to this point, lies in an area of these sides.
pub fn fits_at(rect: Rect, to: Point, width: u16, height: u16) -> bool
    ensures { result ≡ lies_in width height (moved rect to) }
{
    fits_along(to.x, rect.width(), width) && fits_along(to.y, rect.height(), height)
}

/// Whether a rectangle, once it is taken to any of these points, lies in an area of these sides.
pub fn fits_at_all(rect: Rect, points: &[Point], width: u16, height: u16) -> bool
    ensures { result ≡ fit_all width height rect points.now }
{
    points
        .iter()
        .all(|point| fits_at(rect, *point, width, height))
}

/// Whether so many pixels from a place on are within a side.
fn fits_along(from: u16, count: u16, side: u16) -> bool
    ensures { result ≡ nat_le (from + count) side }
{
    u32::from(from) + u32::from(count) <= u32::from(side)
}

/// A rectangle, once it is taken to this point.
pub fn moved_to(rect: Rect, to: Point) -> Rect
    requires columns { to.x + width_of rect < 2 ^ 16 }
    requires rows { to.y + height_of rect < 2 ^ 16 }
    ensures { result ≡ moved rect to }
{
    Rect {
        left: to.x,
        top: to.y,
        right: to.x + rect.width(),
        bottom: to.y + rect.height(),
    }
}

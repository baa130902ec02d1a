//! A rectangle of a surface that is copied to several points.
ghost use Rattle.std.specs.Prelude.{◌≡◌, ◌≤◌, ◌*◌, IfSome, IsSomeAnd, IsTrue, length};
ghost use Rattle.std.specs.FinMap as map;
ghost use Rattle.gfx_base.specs.Geometry.{lies_in, width_of, height_of, moved, fit_all};
ghost use Rattle.gfx_surface.specs.Picture.{rect_of, overlaid};
ghost use Rattle.gfx_surface_map.specs.Shown.{copied_to, stamped};

use crate::table::Table;
use gfx_base::{Pixel, Point, Rect, moved_to};
use gfx_surface::Surface;

/// Copies a rectangle of a surface to points of a surface, also of the same, by way of a scratch: what is
/// read was there before anything is written.
pub(crate) fn copy_by_scratch(
    table: &mut Table,
    scratch: &mut [Pixel],
    from: u16,
    to: u16,
    rect: Rect,
    points: &[Point],
)
    requires source { IsSomeAnd (map.get table.old from) (λ source. IsTrue (lies_in source.width source.height rect)) }
    requires target { IsSomeAnd (map.get table.old to) (λ target. IsTrue (fit_all target.width target.height rect points.now)) }
    requires room { width_of rect * height_of rect ≤ length scratch.old }
    ensures { IfSome (map.get table.old from) (λ source. IfSome (map.get table.old to)
        (λ target. table.new ≡ map.insert table.old to (copied_to source rect points.now target))) }
{
    let area = usize::from(rect.width()) * usize::from(rect.height());
    copy_by_room(table, &mut scratch[..area], from, to, rect, points);
}

/// The same, with a scratch that has room for the rectangle and no more.
fn copy_by_room(
    table: &mut Table,
    scratch: &mut [Pixel],
    from: u16,
    to: u16,
    rect: Rect,
    points: &[Point],
)
    requires source { IsSomeAnd (map.get table.old from) (λ source. IsTrue (lies_in source.width source.height rect)) }
    requires target { IsSomeAnd (map.get table.old to) (λ target. IsTrue (fit_all target.width target.height rect points.now)) }
    requires exact { length scratch.old ≡ width_of rect * height_of rect }
    ensures { IfSome (map.get table.old from) (λ source. IfSome (map.get table.old to)
        (λ target. table.new ≡ map.insert table.old to (copied_to source rect points.now target))) }
{
    read_rect(table, from, rect, scratch);
    put_rects(table, to, rect, scratch, points);
}

/// Reads a rectangle of a surface.
fn read_rect(table: &Table, id: u16, rect: Rect, out: &mut [Pixel])
    requires exact { length out.old ≡ width_of rect * height_of rect }
    requires source { IsSomeAnd (map.get table.now id) (λ source. IsTrue (lies_in source.width source.height rect)) }
    ensures { IfSome (map.get table.now id) (λ source. out.new ≡ rect_of source rect) }
{
    if let Some(surface) = table.get(id) {
        surface.read(rect, out);
    }
}

/// Puts the pixels of a rectangle at points of a surface.
fn put_rects(table: &mut Table, id: u16, rect: Rect, pixels: &[Pixel], points: &[Point])
    requires exact { length pixels.now ≡ width_of rect * height_of rect }
    requires target { IsSomeAnd (map.get table.old id) (λ target. IsTrue (fit_all target.width target.height rect points.now)) }
    ensures { IfSome (map.get table.old id) (λ target. table.new ≡ map.insert table.old id (stamped rect pixels.now points.now target)) }
{
    if let Some(surface) = table.get_mut(id) {
        put_at_all(surface, rect, pixels, points);
    }
}

/// Puts the pixels of a rectangle at points, one after another.
pub(crate) fn put_at_all(surface: &mut Surface, rect: Rect, pixels: &[Pixel], points: &[Point])
    requires exact { length pixels.now ≡ width_of rect * height_of rect }
    requires fits { IsTrue (fit_all surface.old.width surface.old.height rect points.now) }
    ensures { surface.new ≡ stamped rect pixels.now points.now surface.old }
{
    'points: for point in points {
        put_at(surface, rect, pixels, *point);
    }
}

/// Puts the pixels of a rectangle at a point.
fn put_at(surface: &mut Surface, rect: Rect, pixels: &[Pixel], point: Point)
    requires exact { length pixels.now ≡ width_of rect * height_of rect }
    requires fits { IsTrue (lies_in surface.old.width surface.old.height (moved rect point)) }
    ensures { surface.new ≡ overlaid surface.old (moved rect point) pixels.now }
{
    let (_, _) = surface.size();
    surface.put(moved_to(rect, point), pixels);
}

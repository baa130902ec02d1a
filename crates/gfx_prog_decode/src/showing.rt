//! Tiles, drawn on a surface.
ghost use Rattle.std.specs.Prelude.{◌≡◌, ◌≤◌, ◌+◌, IsTrue};
ghost use Rattle.gfx_base.specs.Cells.{cell};
ghost use Rattle.gfx_base.specs.Geometry.{lies_in};
ghost use Rattle.gfx_prog_decode.specs.Canvas.{IsCanvas};
ghost use Rattle.gfx_prog_decode.specs.Coding.{begins_in};
ghost use Rattle.gfx_prog_decode.specs.Showing.{cell_in, shown_in};
ghost use Rattle.gfx_prog_decode.specs.Inside.{ArePixels, area_shown, areas_shown, has_all, is_in_one, overlap};
ghost use Rattle.gfx_surface.specs.Picture.{AreOpaque};
ghost use Rattle.gfx_surface.specs.Views.{with_cell};
ghost use Rattle.gfx_tile_state.specs.declared.state.TileState.{TileState as Record};

use crate::bench::Bench;
use crate::key::Key;
use gfx_base::{CELL_SIDE, Pixel, Point, Rect};
use gfx_prog_block::Area;
use gfx_surface::Surface;
use gfx_tile_state::TileState;

/// What of a key's cell lies on a surface of these sides, where the cell begins on it.
pub(crate) fn cell_in(size: (u16, u16), key: Key) -> Rect
    requires { IsTrue (begins_in size.0 size.1 key.x key.y) }
    ensures cell { result ≡ cell_in size.0 size.1 key }
    ensures inside { IsTrue (lies_in size.0 size.1 result) }
{
    let (width, height) = size;
    let (left, top) = (CELL_SIDE * key.x, CELL_SIDE * key.y);
    Rect {
        left,
        top,
        right: left.saturating_add(CELL_SIDE).min(width),
        bottom: top.saturating_add(CELL_SIDE).min(height),
    }
}

/// Draws a record's tile where these rectangles have its cell.
pub(crate) fn show(
    tile: &TileState,
    bench: &mut Bench,
    surface: &mut Surface,
    key: Key,
    areas: &[Area],
)
    requires { IsTrue (begins_in surface.old.width surface.old.height key.x key.y) }
    ensures shown { surface.new ≡ shown_in surface.old key areas.now tile.now }
    ensures log { bench.new.log ≡ bench.old.log }
{
    let canvas = &mut bench.canvas;
    tile.pixels(&mut canvas.pixels, &mut bench.scratch);
    show_pixels(&canvas.pixels, &mut canvas.surface, surface, key, areas);
}

/// Draws the pixels of a tile where these rectangles have a key's cell: all of them at once where one has all that lies on
/// the surface, and else by way of a canvas.
fn show_pixels(
    pixels: &[Pixel; 4096],
    canvas: &mut Surface,
    surface: &mut Surface,
    key: Key,
    areas: &[Area],
)
    requires canvas { IsCanvas canvas.old }
    requires begins { IsTrue (begins_in surface.old.width surface.old.height key.x key.y) }
    requires tile { (tile : Record) × ArePixels tile pixels.now }
    ensures shown { (tile : Record) → ArePixels tile pixels.now → surface.new ≡ shown_in surface.old key areas.now tile }
    ensures canvas { IsCanvas canvas.new }
{
    if is_in_one(cell_in(surface.size(), key), areas) {
        put_tile(pixels, surface, key);
        return;
    }
    canvas.put(Rect::sized(CELL_SIDE, CELL_SIDE), pixels);
    show_areas(canvas, surface, key, areas);
}

/// Puts the pixels of a tile into a key's cell, as far as it lies on the surface.
fn put_tile(pixels: &[Pixel; 4096], surface: &mut Surface, key: Key)
    requires begins { IsTrue (begins_in surface.old.width surface.old.height key.x key.y) }
    requires opaque { AreOpaque pixels.now }
    ensures { surface.new ≡ with_cell surface.old (cell key.x key.y) pixels.now }
{
    surface.strip_mut(key.y).put_opaque(key.x, pixels);
}

/// Whether one of these areas has all that lies on the surface of a cell.
fn is_in_one(cell: Rect, areas: &[Area]) -> bool
    ensures { result ≡ is_in_one cell areas.now }
{
    areas.iter().any(|area| has_all(cell, area))
}

/// Whether an area has all of a cell.
fn has_all(cell: Rect, area: &Area) -> bool
    ensures { result ≡ has_all cell area.now }
{
    area.x <= cell.left
        && cell.right <= area.x.saturating_add(area.width)
        && area.y <= cell.top
        && cell.bottom <= area.y.saturating_add(area.height)
}

/// Draws the canvas where these rectangles have a key's cell.
fn show_areas(canvas: &Surface, surface: &mut Surface, key: Key, areas: &[Area])
    requires canvas { IsCanvas canvas.now }
    requires begins { IsTrue (begins_in surface.old.width surface.old.height key.x key.y) }
    ensures { surface.new ≡ areas_shown surface.old (cell_in surface.old.width surface.old.height key) areas.now canvas.now }
{
    let cell = cell_in(surface.size(), key);
    'areas: for area in areas {
        show_area(canvas, surface, cell, *area);
    }
}

/// Draws the canvas where an area has a cell, for which it stands.
fn show_area(canvas: &Surface, surface: &mut Surface, cell: Rect, area: Area)
    requires canvas { IsCanvas canvas.now }
    requires inside { IsTrue (lies_in surface.old.width surface.old.height cell) }
    requires narrow { cell.right ≤ cell.left + 64 }
    requires low { cell.bottom ≤ cell.top + 64 }
    ensures { surface.new ≡ area_shown surface.old cell area canvas.now }
{
    // What it promises of the picture is what leaves it as it is where there is no part.
    let (_, _) = surface.size();
    let part = overlap(cell, area);
    if part.left < part.right && part.top < part.bottom {
        let from = Rect {
            left: part.left - cell.left,
            top: part.top - cell.top,
            right: part.right - cell.left,
            bottom: part.bottom - cell.top,
        };
        let to = Point {
            x: part.left,
            y: part.top,
        };
        surface.copy_from(canvas, from, to);
    }
}

/// The part of a cell that an area has; it may be upside down.
fn overlap(cell: Rect, area: Area) -> Rect
    ensures { result ≡ overlap cell area }
{
    Rect {
        left: cell.left.max(area.x),
        top: cell.top.max(area.y),
        right: cell.right.min(area.x.saturating_add(area.width)),
        bottom: cell.bottom.min(area.y.saturating_add(area.height)),
    }
}

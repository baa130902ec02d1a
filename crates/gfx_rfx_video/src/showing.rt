//! Tiles, drawn on a surface: at once where one is a cell of it, and else cell by cell, of which it may meet four. Each
//! cell is kept before it is drawn on.
ghost use Rattle.std.specs.Prelude.{◌≡◌, ◌≤◌, ◌+◌, ◌*◌, ◌/◌, ◌&&◌, IsTrue, OnOk};
ghost use Rattle.gfx_base.specs.Geometry.{holds, lies_in};
ghost use Rattle.gfx_surface.specs.Picture.{AreOpaque};
ghost use Rattle.gfx_rfx_video.specs.Inside.{IsCanvas, IsPart, canvas_pixel, corner_of, is_whole_cell, painted_at, tile_pixel};
ghost use Rattle.gfx_rfx_video.specs.Showing.{changes, drawn_where, tile_in};
ghost use Rattle.gfx_rfx_video.specs.Undo.{StaysUndoable};

use crate::placing::{
    begins_in, border, cell_of, corner_of, has_pixels, is_in_one, is_whole_cell, overlap, placed,
    tile_in,
};
use gfx_base::{CELL_SIDE, NoMemory, Pixel, Point, Rect};
use gfx_prog_block::{Area, TileHead};
use gfx_surface::{CellLog, Surface};
use std::alloc::Global;

/// Draws a tile where these areas have it, as far as it lies in the message's rectangle.
pub(crate) fn show(
    alloc: Global,
    log: &mut CellLog,
    canvas: &mut Surface,
    pixels: &[Pixel; 4096],
    surface: &mut Surface,
    rect: Rect,
    areas: &[Area],
    head: &TileHead,
) -> Result<(), NoMemory>
    requires inside { IsTrue (lies_in surface.old.width surface.old.height rect) }
    requires canvas { IsCanvas canvas.old }
    requires opaque { AreOpaque pixels.now }
    ensures shown { OnOk result (surface.new ≡ drawn_where (changes rect areas.now head.now) (tile_pixel pixels.now (corner_of (tile_in rect head.now))) surface.old) }
    ensures undo { StaysUndoable log.old.cells.items surface.old log.new.cells.items surface.new }
    ensures canvas { IsCanvas canvas.new }
{
    // What it promises of the picture is what leaves it as it is where there is no tile.
    let (_, _) = surface.size();
    if !begins_in(rect, head) {
        return Ok(());
    }
    let tile = tile_in(rect, head);
    let corner = corner_of(rect);
    if is_whole_cell(tile) && is_in_one(corner, areas, tile) {
        return show_whole(alloc, log, pixels, surface, tile);
    }
    canvas.put(Rect::sized(CELL_SIDE, CELL_SIDE), pixels);
    show_columns(alloc, log, canvas, surface, corner, areas, tile)
}

/// Draws a tile that is a cell of the surface.
fn show_whole(
    alloc: Global,
    log: &mut CellLog,
    pixels: &[Pixel; 4096],
    surface: &mut Surface,
    tile: Rect,
) -> Result<(), NoMemory>
    requires inside { IsTrue (lies_in surface.old.width surface.old.height tile) }
    requires cell { IsTrue (is_whole_cell tile) }
    requires opaque { AreOpaque pixels.now }
    ensures shown { OnOk result (surface.new ≡ drawn_where (holds tile) (tile_pixel pixels.now (corner_of tile)) surface.old) }
    ensures undo { StaysUndoable log.old.cells.items surface.old log.new.cells.items surface.new }
{
    log.keep(alloc, surface, cell_of(tile))?;
    surface.put_opaque(tile, pixels);
    Ok(())
}

/// Draws a tile of any place: its part in one column of cells, and that in the next.
fn show_columns(
    alloc: Global,
    log: &mut CellLog,
    canvas: &Surface,
    surface: &mut Surface,
    corner: Point,
    areas: &[Area],
    tile: Rect,
) -> Result<(), NoMemory>
    requires canvas { IsCanvas canvas.now }
    requires part { IsPart surface.old (corner_of tile) tile }
    ensures shown { OnOk result (surface.new ≡ drawn_where (λ x y. holds tile x y && painted_at corner areas.now x y) (canvas_pixel canvas.now (corner_of tile)) surface.old) }
    ensures undo { StaysUndoable log.old.cells.items surface.old log.new.cells.items surface.new }
{
    let at = corner_of(tile);
    let middle = border(tile.left, tile.right);
    let (front, back) = (
        Rect {
            right: middle,
            ..tile
        },
        Rect {
            left: middle,
            ..tile
        },
    );
    show_rows(alloc, log, canvas, surface, corner, areas, at, front)?;
    show_rows(alloc, log, canvas, surface, corner, areas, at, back)
}

/// Draws a part of a tile in one column of cells: in one row of cells, and in the next.
fn show_rows(
    alloc: Global,
    log: &mut CellLog,
    canvas: &Surface,
    surface: &mut Surface,
    corner: Point,
    areas: &[Area],
    at: Point,
    part: Rect,
) -> Result<(), NoMemory>
    requires canvas { IsCanvas canvas.now }
    requires part { IsPart surface.old at part }
    requires column { part.right ≤ part.left / 64 * 64 + 64 }
    ensures shown { OnOk result (surface.new ≡ drawn_where (λ x y. holds part x y && painted_at corner areas.now x y) (canvas_pixel canvas.now at) surface.old) }
    ensures undo { StaysUndoable log.old.cells.items surface.old log.new.cells.items surface.new }
{
    let middle = border(part.top, part.bottom);
    let (front, back) = (
        Rect {
            bottom: middle,
            ..part
        },
        Rect {
            top: middle,
            ..part
        },
    );
    show_cell(alloc, log, canvas, surface, corner, areas, at, front)?;
    show_cell(alloc, log, canvas, surface, corner, areas, at, back)
}

/// Draws a part of a tile in one cell, if there is any.
fn show_cell(
    alloc: Global,
    log: &mut CellLog,
    canvas: &Surface,
    surface: &mut Surface,
    corner: Point,
    areas: &[Area],
    at: Point,
    part: Rect,
) -> Result<(), NoMemory>
    requires canvas { IsCanvas canvas.now }
    requires part { IsPart surface.old at part }
    requires column { part.right ≤ part.left / 64 * 64 + 64 }
    requires row { part.bottom ≤ part.top / 64 * 64 + 64 }
    ensures shown { OnOk result (surface.new ≡ drawn_where (λ x y. holds part x y && painted_at corner areas.now x y) (canvas_pixel canvas.now at) surface.old) }
    ensures undo { StaysUndoable log.old.cells.items surface.old log.new.cells.items surface.new }
{
    // What it promises of the picture is what leaves it as it is where there are no pixels.
    let (_, _) = surface.size();
    if !has_pixels(part) {
        return Ok(());
    }
    log.keep(alloc, surface, cell_of(part))?;
    show_areas(canvas, surface, corner, areas, at, part);
    Ok(())
}

/// Draws a part of a tile where these areas have it.
fn show_areas(
    canvas: &Surface,
    surface: &mut Surface,
    corner: Point,
    areas: &[Area],
    at: Point,
    part: Rect,
)
    requires canvas { IsCanvas canvas.now }
    requires part { IsPart surface.old at part }
    ensures { surface.new ≡ drawn_where (λ x y. holds part x y && painted_at corner areas.now x y) (canvas_pixel canvas.now at) surface.old }
{
    // What it promises of the picture is what leaves it as it is where there are no areas.
    let (_, _) = surface.size();
    'areas: for area in areas {
        show_area(canvas, surface, placed(corner, *area), at, part);
    }
}

/// Draws a part of a tile where a rectangle has it.
fn show_area(canvas: &Surface, surface: &mut Surface, area: Rect, at: Point, part: Rect)
    requires canvas { IsCanvas canvas.now }
    requires part { IsPart surface.old at part }
    ensures { surface.new ≡ drawn_where (λ x y. holds part x y && holds area x y) (canvas_pixel canvas.now at) surface.old }
{
    // What it promises of the picture is what leaves it as it is where there is no part.
    let (_, _) = surface.size();
    let both = overlap(part, area);
    if both.left < both.right && both.top < both.bottom {
        let from = Rect {
            left: both.left - at.x,
            top: both.top - at.y,
            right: both.right - at.x,
            bottom: both.bottom - at.y,
        };
        surface.copy_from(canvas, from, corner_of(both));
    }
}

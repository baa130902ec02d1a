//! The cells of a surface, and how rectangles lie on them.
ghost use Rattle.std.specs.Prelude.{◌≡◌, ◌<◌, ◌≤◌, ◌+◌, ◌-◌, ◌/◌, length};
ghost use Rattle.std.specs.List.{slice_index_or};
ghost use Rattle.gfx_base.specs.Cells.{cell, cells_along, cells_met, cut_to_cell, has_pixels};

use crate::geometry::{CELL_SIDE, Cell, Rect};
use std::marker::Model;

/// The cells that a rectangle meets, row by row. Contracts see the list.
#[derive(Debug, Drop)]
pub struct Cells {
    left: u16,
    top: u16,
    columns: u16,
    rows: u16,
}

impl Model for Cells {
    ghost use Rattle.std.specs.Prelude.{List};
    ghost use Rattle.gfx_base.specs.declared.geometry.Cell.{Cell as TheCell};

    ghost Value = { List TheCell };

    ghost use Rattle.gfx_base.specs.Blocks.{AreNarrow, cells_of};

    ghost view = { cells_of };

    ghost invariant = { AreNarrow };
}

impl Cells {
    /// The cells that a rectangle meets, if it has pixels.
    pub fn met(rect: Rect) -> Cells
        ensures { result ≡ cells_met rect }
    {
        Cells {
            left: rect.left / CELL_SIDE,
            top: rect.top / CELL_SIDE,
            columns: cells_between(rect.left, rect.right),
            rows: cells_between(rect.top, rect.bottom),
        }
    }

    /// How many cells there are.
    pub fn len(&self) -> usize
        ensures { result ≡ length self.now }
    {
        usize::from(self.columns) * usize::from(self.rows)
    }

    /// The cell at a place of the list, counted from 0.
    pub fn at(&self, place: usize) -> Cell
        requires { place < length self.now }
        ensures value { result ≡ slice_index_or self.now place (cell 0 0) }
        ensures across { result.x ≤ 1023 }
        ensures down { result.y ≤ 1023 }
    {
        let columns = usize::from(self.columns);
        Cell {
            x: self.left + (place % columns) as u16,
            y: self.top + (place / columns) as u16,
        }
    }
}

/// How many cells a side meets, a part cell counted whole.
pub fn cells_along(side: u16) -> u16
    ensures count { result ≡ cells_along side }
    ensures few { result ≤ 1024 }
{
    u32::from(side).div_ceil(u32::from(CELL_SIDE)) as u16
}

/// How many columns of cells, or rows, there are from the one of a coordinate to the one before another.
fn cells_between(from: u16, to: u16) -> u16
    ensures value { result ≡ cells_along to - from / CELL_SIDE }
    ensures few { from / CELL_SIDE + result ≤ 1024 }
{
    cells_along(to).saturating_sub(from / CELL_SIDE)
}

impl Rect {
    /// The part of the rectangle that lies in a cell. Of the rectangle of a surface's sides it is the cell's
    /// part on the surface.
    pub fn cut_to(self, cell: Cell) -> Rect
        requires across { cell.x ≤ 1023 }
        requires down { cell.y ≤ 1023 }
        ensures { result ≡ cut_to_cell self cell }
    {
        let (left, top) = (CELL_SIDE * cell.x, CELL_SIDE * cell.y);
        Rect {
            left: self.left.max(left),
            top: self.top.max(top),
            right: self.right.min(left.saturating_add(CELL_SIDE)),
            bottom: self.bottom.min(top.saturating_add(CELL_SIDE)),
        }
    }

    /// Whether the rectangle has pixels.
    pub fn has_pixels(self) -> bool
        ensures { result ≡ has_pixels self }
    {
        self.left < self.right && self.top < self.bottom
    }
}

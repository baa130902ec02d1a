//! Rectangles of a colour, cell by cell.
ghost use Rattle.std.specs.Prelude.{◌≡◌, ◌≤◌, ◌<◌, ◌+◌, ◌-◌, ◌*◌, length, min, IsTrue};
ghost use Rattle.gfx_base.specs.Geometry.{lies_in, holds};
ghost use Rattle.gfx_base.specs.Cells.{cells_along};
ghost use Rattle.gfx_surface.specs.Cells.{places};
ghost use Rattle.gfx_surface.specs.Rows.{WritesRows};
ghost use Rattle.gfx_surface.specs.Where.{WritesWhere, in_cell, in_row_of_cells, in_cells};

use crate::cells::{CELL_PLACES, Grid, cell_start};
use crate::rows::{Sides, fill_rows};
use gfx_base::{CELL_SIDE, Cell, Pixel, Rect};

/// Gives what a rectangle has of the cells this colour.
pub(crate) fn fill_cells(cells: &mut [Pixel], grid: Grid, rect: Rect, colour: Pixel)
    requires full { length cells.old ≡ places grid.width grid.height }
    requires inside { IsTrue (lies_in grid.width grid.height rect) }
    ensures { WritesWhere grid.width grid.height (holds rect) (λ _ _. colour) cells.old cells.new }
{
    let last = rect.bottom.div_ceil(CELL_SIDE);
    'rows: for row in rect.top / CELL_SIDE..last {
        fill_row_of_cells(cells, grid, row, rect, colour);
    }
}

/// Gives what it has of a row of cells this colour.
fn fill_row_of_cells(cells: &mut [Pixel], grid: Grid, row: u16, rect: Rect, colour: Pixel)
    requires full { length cells.old ≡ places grid.width grid.height }
    requires row { row < cells_along grid.height }
    requires inside { IsTrue (lies_in grid.width grid.height rect) }
    ensures { WritesWhere grid.width grid.height (in_row_of_cells row rect) (λ _ _. colour) cells.old cells.new }
{
    let last = rect.right.div_ceil(CELL_SIDE);
    'columns: for column in rect.left / CELL_SIDE..last {
        let cell = Cell { x: column, y: row };
        fill_cell(cells, grid, cell, rect, colour);
    }
}

/// Gives what it has of a cell this colour.
fn fill_cell(cells: &mut [Pixel], grid: Grid, cell: Cell, rect: Rect, colour: Pixel)
    requires full { length cells.old ≡ places grid.width grid.height }
    requires column { cell.x < cells_along grid.width }
    requires row { cell.y < cells_along grid.height }
    requires inside { IsTrue (lies_in grid.width grid.height rect) }
    ensures { WritesWhere grid.width grid.height (in_cell cell rect) (λ _ _. colour) cells.old cells.new }
{
    let start = cell_start(grid.width, cell);
    let piece = Rect {
        left: piece_below(rect.left, cell.x),
        top: piece_below(rect.top, cell.y),
        right: piece_below(rect.right, cell.x),
        bottom: piece_below(rect.bottom, cell.y),
    };
    fill_part(&mut cells[start..start + CELL_PLACES], piece, colour);
}

/// How much of a cell lies before a column or a row.
fn piece_below(side: u16, cell: u16) -> u16
    ensures { result ≡ min 64 (side - 64 * cell) }
{
    let before = 64 * u32::from(cell);
    let rest = u32::from(side).saturating_sub(before);
    rest.min(64) as u16
}

/// Gives a piece of a cell this colour: a whole cell at once.
fn fill_part(cell: &mut [Pixel], piece: Rect, colour: Pixel)
    requires full { length cell.old ≡ 4096 }
    requires inside { IsTrue (lies_in 64 64 piece) }
    ensures { WritesRows 64 piece (λ _ _. colour) cell.old cell.new }
{
    if piece.left == 0 && piece.right == 64 && piece.top == 0 && piece.bottom == 64 {
        cell.fill(colour);
    } else {
        let sides = Sides {
            width: 64,
            height: 64,
        };
        fill_rows(cell, sides, piece, colour);
    }
}

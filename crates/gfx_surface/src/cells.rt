//! Where pixels are kept: cells of 64 by 64, by row and then column, each with its own 4,096 places
//! (this project's own rule).
ghost use Rattle.std.specs.Prelude.{◌≡◌, ◌≤◌, ◌<◌, ◌+◌, ◌-◌, ◌%◌};
ghost use Rattle.gfx_base.specs.Cells.{cells_along};
ghost use Rattle.gfx_surface.specs.Cells.{cell_start, place, places};

use gfx_base::{CELL_SIDE, Cell};

/// How many places a cell has.
pub const CELL_PLACES: usize = 4096;

/// The sides of a surface, in pixels.
#[derive(Clone, Copy)]
pub struct Grid {
    pub width: u16,
    pub height: u16,
}

/// How many cells a side meets, a part cell counted whole.
#[inline(always)]
pub(crate) fn cells_along(side: u16) -> usize
    ensures { result ≡ cells_along side }
{
    usize::from(gfx_base::cells_along(side))
}

/// Where the places of a cell begin.
#[inline(always)]
pub(crate) fn cell_start(width: u16, cell: Cell) -> usize
    ensures { result ≡ cell_start width cell.x cell.y }
{
    (usize::from(cell.y) * cells_along(width) + usize::from(cell.x)) * CELL_PLACES
}

/// The place of a column of a row.
#[inline(always)]
#[tactic(auto, unfolding(crate::specs::Cells::place))]
pub(crate) fn place_of(width: u16, x: u16, y: u16) -> usize
    ensures { result ≡ place width x y }
{
    let cell = Cell {
        x: x / CELL_SIDE,
        y: y / CELL_SIDE,
    };
    cell_start(width, cell) + (usize::from(y % CELL_SIDE) * 64 + usize::from(x % CELL_SIDE))
}

/// Where a run of a row of one cell begins.
#[inline(always)]
pub(crate) fn run_at(grid: Grid, x: u16, y: u16, count: usize) -> usize
    requires some { 0 < count }
    requires columns { x + count ≤ grid.width }
    requires one_cell { x % 64 + count ≤ 64 }
    requires row { y < grid.height }
    ensures at { result ≡ place grid.width x y }
    ensures within { result + count ≤ places grid.width grid.height }
{
    place_of(grid.width, x, y)
}

/// How many columns of a cell are left from this column on.
#[inline(always)]
pub(crate) fn left_in_cell(x: u16) -> usize
    ensures { result ≡ 64 - x % 64 }
{
    usize::from(CELL_SIDE - x % CELL_SIDE)
}

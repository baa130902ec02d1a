//! Views of a surface for writing: of one cell, and of a row of cells (this project's own rule). They
//! write through the surface, and their calls say what the picture is then.
ghost use Rattle.std.specs.Prelude.{◌≡◌, ◌≢◌, ◌≤◌, ◌<◌, ◌+◌, ◌*◌, length, List};
ghost use Rattle.std.specs.Borrow.{MutBor};
ghost use Rattle.gfx_base.specs.declared.pixel.Pixel.{Pixel as AnyPixel};
ghost use Rattle.gfx_base.specs.Cells.{cells_along};
ghost use Rattle.gfx_surface.specs.Picture.{AreOpaque, pixel_at};
ghost use Rattle.gfx_surface.specs.Lending.{PairReturns, SplitReturns};
ghost use Rattle.gfx_surface.specs.Views.{LiesOn, IsInCell, IsCellOf, IsStripOf, part_of, with_cell, with_pixel};

use crate::surface::Surface;
use gfx_base::{CELL_SIDE, Cell, Pixel};

/// A cell of a surface, for writing.
#[derive(Drop)]
pub struct TileMut<'a> {
    surface: &'a mut Surface,
    cell: Cell,
}

/// A row of cells of a surface, for writing. Its columns are those of the surface, in cells.
#[derive(Drop)]
pub struct StripMut<'a> {
    surface: &'a mut Surface,
    row: u16,
}

impl Surface {
    /// A cell, for writing. When the view ends, its pixels are as they were written, and all others as
    /// before.
    pub fn tile_mut(&mut self, cell: Cell) -> TileMut<'_>
        requires { LiesOn self.old cell }
        ensures same { result.surface.ghost_name ≡ self.entry.ghost_name }
        ensures value { result.surface.now ≡ self.old }
        ensures cell { result.cell ≡ cell }
    {
        TileMut {
            surface: self,
            cell,
        }
    }

    /// All cells of one row of them, for writing. When the view ends, its pixels are as they were written,
    /// and all others as before.
    pub fn strip_mut(&mut self, row: u16) -> StripMut<'_>
        requires { row < cells_along self.old.height }
        ensures same { result.surface.ghost_name ≡ self.entry.ghost_name }
        ensures value { result.surface.now ≡ self.old }
        ensures row { result.row ≡ row }
    {
        StripMut { surface: self, row }
    }

    /// Gives a closure two different cells, as 4,096 places each, row by row in rows of 64. When it ends,
    /// their pixels are as it left them, and all others as before; an XRGB surface keeps alpha 255.
    /// What a part cell has beyond the surface is not seen.
    pub fn with_pair<F: FnOnce(&mut [Pixel], &mut [Pixel])>(
        &mut self,
        first: Cell,
        second: Cell,
        f: F,
    )
        requires first { LiesOn self.old first }
        requires second { LiesOn self.old second }
        requires apart { first ≢ second }
        requires callable { (p q : MutBor (List AnyPixel)) → IsCellOf self.old first p.now → IsCellOf self.old second q.now → F.pre f p q }
        ensures { PairReturns F.FnOnce f first second self.old self.new }
    {
        self.lend_cells(first, second, f);
    }

    /// Gives a closure two parts of a row of cells: those before a column of them, and those from it on,
    /// cell by cell with 4,096 places each. When it ends, their pixels are as it left them, and all others as
    /// before; an XRGB surface keeps alpha 255. What a part cell has beyond the surface is not seen.
    pub fn with_split<F: FnOnce(&mut [Pixel], &mut [Pixel])>(&mut self, row: u16, column: u16, f: F)
        requires row { row < cells_along self.old.height }
        requires after { 0 < column }
        requires within { column ≤ cells_along self.old.width }
        requires callable { (p q : MutBor (List AnyPixel)) → IsStripOf self.old row 0 column p.now
            → IsStripOf self.old row column (cells_along self.old.width) q.now → F.pre f p q }
        ensures { SplitReturns F.FnOnce f row column self.old self.new }
    {
        self.lend_strip(row, column, f);
    }
}

impl<'a> TileMut<'a> {
    /// How many columns and how many rows of the cell lie on the surface.
    pub fn size(&self) -> (u16, u16)
        requires { LiesOn self.now.surface.now self.now.cell }
        ensures { result ≡ (part_of self.now.surface.now.width self.now.cell.x, part_of self.now.surface.now.height self.now.cell.y) }
    {
        let (width, height) = self.surface.size();
        (part_of(width, self.cell.x), part_of(height, self.cell.y))
    }

    /// The pixel in a column of a row of the cell, both counted from 0.
    pub fn get(&self, x: u16, y: u16) -> Pixel
        requires { IsInCell self.now.surface.now self.now.cell.x self.now.cell.y x y }
        ensures { result ≡ pixel_at self.now.surface.now (64 * self.now.cell.x + x) (64 * self.now.cell.y + y) }
    {
        let (_, _) = self.surface.size();
        self.surface
            .pixel(CELL_SIDE * self.cell.x + x, CELL_SIDE * self.cell.y + y)
    }

    /// Gives the place in a column of a row of the cell a pixel. An XRGB surface keeps alpha 255.
    pub fn set(&mut self, x: u16, y: u16, pixel: Pixel)
        requires { IsInCell self.old.surface.now self.old.cell.x self.old.cell.y x y }
        ensures same { self.new.surface.ghost_name ≡ self.old.surface.ghost_name }
        ensures cell { self.new.cell ≡ self.old.cell }
        ensures value { self.new.surface.now ≡ with_pixel self.old.surface.now (64 * self.old.cell.x + x) (64 * self.old.cell.y + y) pixel }
    {
        let (_, _) = self.surface.size();
        let (column, row) = (CELL_SIDE * self.cell.x + x, CELL_SIDE * self.cell.y + y);
        self.surface.set_pixel(column, row, pixel);
    }
}

impl<'a> StripMut<'a> {
    /// The pixel in a column of a row of a cell, both counted from 0.
    pub fn get(&self, column: u16, x: u16, y: u16) -> Pixel
        requires { IsInCell self.now.surface.now column self.now.row x y }
        ensures { result ≡ pixel_at self.now.surface.now (64 * column + x) (64 * self.now.row + y) }
    {
        let (_, _) = self.surface.size();
        self.surface
            .pixel(CELL_SIDE * column + x, CELL_SIDE * self.row + y)
    }

    /// Gives the place in a column of a row of a cell a pixel. An XRGB surface keeps alpha 255.
    pub fn set(&mut self, column: u16, x: u16, y: u16, pixel: Pixel)
        requires { IsInCell self.old.surface.now column self.old.row x y }
        ensures same { self.new.surface.ghost_name ≡ self.old.surface.ghost_name }
        ensures row { self.new.row ≡ self.old.row }
        ensures value { self.new.surface.now ≡ with_pixel self.old.surface.now (64 * column + x) (64 * self.old.row + y) pixel }
    {
        let (_, _) = self.surface.size();
        let (x, y) = (CELL_SIDE * column + x, CELL_SIDE * self.row + y);
        self.surface.set_pixel(x, y, pixel);
    }

    /// Gives a cell its 4,096 pixels, row by row in rows of 64; those beyond the surface are not seen. An XRGB surface keeps alpha 255.
    pub fn put(&mut self, column: u16, pixels: &[Pixel])
        requires column { column < cells_along self.old.surface.now.width }
        requires row { self.old.row < cells_along self.old.surface.now.height }
        requires whole { length pixels.now ≡ 4096 }
        ensures same { self.new.surface.ghost_name ≡ self.old.surface.ghost_name }
        ensures row { self.new.row ≡ self.old.row }
        ensures value { self.new.surface.now ≡ with_cell self.old.surface.now record { x = column; y = self.old.row } pixels.now }
    {
        let cell = Cell {
            x: column,
            y: self.row,
        };
        self.surface.put_cell(cell, pixels);
    }

    /// Gives a cell its 4,096 pixels, all of them opaque, row by row in rows of 64; those beyond the surface are not
    /// seen. They are moved as they are, for both formats.
    pub fn put_opaque(&mut self, column: u16, pixels: &[Pixel])
        requires column { column < cells_along self.old.surface.now.width }
        requires row { self.old.row < cells_along self.old.surface.now.height }
        requires whole { length pixels.now ≡ 4096 }
        requires opaque { AreOpaque pixels.now }
        ensures same { self.new.surface.ghost_name ≡ self.old.surface.ghost_name }
        ensures row { self.new.row ≡ self.old.row }
        ensures value { self.new.surface.now ≡ with_cell self.old.surface.now record { x = column; y = self.old.row } pixels.now }
    {
        let cell = Cell {
            x: column,
            y: self.row,
        };
        self.surface.put_opaque_cell(cell, pixels);
    }
}

/// How much of a side lies in a cell.
fn part_of(side: u16, cell: u16) -> u16
    requires { 64 * cell < side }
    ensures { result ≡ part_of side cell }
{
    (side - CELL_SIDE * cell).min(CELL_SIDE)
}

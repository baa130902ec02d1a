ghost use Rattle.std.specs.Prelude.{◌≡◌, ◌≢◌, ◌≤◌, ◌<◌, ◌+◌, ◌*◌, length, map, IsTrue, IfOk, List};
ghost use Rattle.gfx_base.specs.Geometry.{lies_in, width_of, height_of, moved};
ghost use Rattle.gfx_surface.specs.Picture.{IsPicture, AreOpaque, shade, blank, pixel_at, run_of, filled, copied, rect_of, overlaid, raw_pixels};
ghost use Rattle.gfx_base.specs.declared.pixel.Pixel.{Pixel as AnyPixel};
ghost use Rattle.std.specs.Borrow.{MutBor};
ghost use Rattle.gfx_base.specs.Cells.{cells_along};
ghost use Rattle.gfx_surface.specs.Lending.{PairReturns, SplitReturns};
ghost use Rattle.gfx_surface.specs.Views.{LiesOn, IsCellOf, IsStripOf, with_cell, with_pixel};

use crate::MOST_SIDE;
use crate::cells::{CELL_PLACES, Grid, cell_start, cells_along, place_of};
use crate::colour::{empty_colour, kept_by_both, shaded};
use crate::copies::copy_run;
use crate::crossing::copy_rect;
use crate::filling::fill_cells;
use crate::lending::{lend_pair, lend_two};
use crate::moves::move_rect;
use crate::putting::put_pixels;
use crate::raw::put_raw;
use crate::reading::{read_rect, read_row};
use gfx_base::{BYTES_PER_PIXEL, Cell, Format, NoMemory, Pixel, Point, Rect};
use std::alloc::Global;
use std::marker::Model;

/// A rectangle of pixels that messages draw on ([MS-RDPEGFX] RDPGFX_CREATE_SURFACE_PDU). Contracts
/// see the picture that it shows.
#[derive(Debug, Drop)]
pub struct Surface {
    width: u16,
    height: u16,
    format: Format,
    cells: Vec<Pixel>,
}

impl Model for Surface {
    ghost use Rattle.gfx_surface.specs.Picture.{Picture};

    ghost Value = { Picture };

    ghost use Rattle.gfx_surface.specs.Inside.{picture_of, IsSound};

    ghost view = { picture_of };

    ghost invariant = { IsSound };
}

impl Surface {
    /// A surface of zero colour.
    pub fn new(alloc: Global, width: u16, height: u16, format: Format) -> Result<Surface, NoMemory>
        requires width_from { 1 ≤ width }
        requires width_most { width ≤ MOST_SIDE }
        requires height_from { 1 ≤ height }
        requires height_most { height ≤ MOST_SIDE }
        ensures { IfOk result (λ surface. surface ≡ blank width height format) }
    {
        let count = CELL_PLACES * (cells_along(width) * cells_along(height));
        let cells = Vec::from_elem(alloc, empty_colour(format), count)?;
        Ok(Surface {
            width,
            height,
            format,
            cells,
        })
    }

    /// How many columns and how many rows.
    pub fn size(&self) -> (u16, u16)
        ensures size { result ≡ (self.now.width, self.now.height) }
        ensures shape { IsPicture self.now }
    {
        (self.width, self.height)
    }

    pub fn format(&self) -> Format
        ensures { result ≡ self.now.format }
    {
        self.format
    }

    /// The pixel in a column of a row, both counted from 0.
    pub fn pixel(&self, x: u16, y: u16) -> Pixel
        requires column { x < self.now.width }
        requires row { y < self.now.height }
        ensures { result ≡ pixel_at self.now x y }
    {
        self.cells[place_of(self.width, x, y)]
    }

    /// Reads a piece of a row into a slice, from this column on; both are counted from 0. It takes no
    /// memory.
    pub fn read_row(&self, x: u16, y: u16, out: &mut [Pixel])
        requires columns { x + length out.old ≤ self.now.width }
        requires row { y < self.now.height }
        ensures { out.new ≡ run_of self.now x y (length out.old) }
    {
        read_row(&self.cells, self.grid(), x, y, out);
    }

    /// Gives a rectangle this colour ([MS-RDPEGFX] RDPGFX_SOLIDFILL_PDU). An XRGB surface keeps
    /// alpha 255. It takes no memory.
    pub fn fill(&mut self, rect: Rect, colour: Pixel)
        requires { IsTrue (lies_in self.old.width self.old.height rect) }
        ensures { self.new ≡ filled self.old rect colour }
    {
        let colour = shaded(self.format, colour);
        let grid = self.grid();
        fill_cells(&mut self.cells, grid, rect, colour);
    }

    /// Puts pixels into a rectangle, row by row from its top. An XRGB surface keeps alpha 255, an ARGB
    /// one the pixels' own. It takes no memory.
    pub fn put(&mut self, rect: Rect, pixels: &[Pixel])
        requires inside { IsTrue (lies_in self.old.width self.old.height rect) }
        requires whole { length pixels.now ≡ width_of rect * height_of rect }
        ensures { self.new ≡ overlaid self.old rect pixels.now }
    {
        let format = self.format();
        self.put_as(rect, format, pixels);
    }

    /// Puts opaque pixels into a rectangle, row by row from its top: rows are moved as they are, for both
    /// formats. It takes no memory.
    pub fn put_opaque(&mut self, rect: Rect, pixels: &[Pixel])
        requires inside { IsTrue (lies_in self.old.width self.old.height rect) }
        requires whole { length pixels.now ≡ width_of rect * height_of rect }
        requires opaque { AreOpaque pixels.now }
        ensures { self.new ≡ overlaid self.old rect pixels.now }
    {
        self.put_as(rect, Format::Argb, pixels);
    }

    /// Puts pixels into a rectangle, row by row from its top, as this format keeps them. The surface's
    /// own keeps them alike.
    fn put_as(&mut self, rect: Rect, format: Format, pixels: &[Pixel])
        requires inside { IsTrue (lies_in self.old.width self.old.height rect) }
        requires whole { length pixels.now ≡ width_of rect * height_of rect }
        requires alike { map (shade format) pixels.now ≡ map (shade self.old.format) pixels.now }
        ensures { self.new ≡ overlaid self.old rect pixels.now }
    {
        let grid = self.grid();
        put_pixels(&mut self.cells, grid, rect, pixels, format);
    }

    /// Puts the pixels of uncompressed data into a rectangle, row by row from its top ([MS-RDPEGFX]
    /// RDPGFX_WIRE_TO_SURFACE_PDU_1). Their alpha stays where both the data's format and the surface's
    /// keep it. It takes no memory.
    pub fn put_bytes(&mut self, rect: Rect, format: Format, bytes: &[u8])
        requires inside { IsTrue (lies_in self.old.width self.old.height rect) }
        requires whole { length bytes.now ≡ BYTES_PER_PIXEL * (width_of rect * height_of rect) }
        ensures { self.new ≡ overlaid self.old rect (raw_pixels format bytes.now) }
    {
        let format = kept_by_both(self.format, format);
        let grid = self.grid();
        put_raw(&mut self.cells, grid, rect, bytes, format);
    }

    /// Copies a rectangle to a point of the same surface ([MS-RDPEGFX] RDPGFX_SURFACE_TO_SURFACE_PDU).
    /// It reads before it writes, and takes no memory.
    pub fn copy_within(&mut self, rect: Rect, to: Point)
        requires inside { IsTrue (lies_in self.old.width self.old.height rect) }
        requires fits { IsTrue (lies_in self.old.width self.old.height (moved rect to)) }
        ensures { self.new ≡ copied self.old rect to self.old }
    {
        let grid = self.grid();
        move_rect(&mut self.cells, grid, rect, to);
    }

    /// Copies a rectangle of another surface to a point of this one ([MS-RDPEGFX]
    /// RDPGFX_SURFACE_TO_SURFACE_PDU). An XRGB surface keeps alpha 255. It takes no memory.
    pub fn copy_from(&mut self, from: &Surface, rect: Rect, to: Point)
        requires inside { IsTrue (lies_in from.now.width from.now.height rect) }
        requires fits { IsTrue (lies_in self.old.width self.old.height (moved rect to)) }
        ensures { self.new ≡ copied from.now rect to self.old }
    {
        let (format, grid) = (self.format, self.grid());
        let from_grid = from.grid();
        copy_rect(
            &from.cells,
            from_grid,
            rect,
            format,
            &mut self.cells,
            grid,
            to,
        );
    }

    /// Reads the pixels of a rectangle into a slice, row by row from its top. It takes no memory.
    pub fn read(&self, rect: Rect, out: &mut [Pixel])
        requires inside { IsTrue (lies_in self.now.width self.now.height rect) }
        requires whole { length out.old ≡ width_of rect * height_of rect }
        ensures { out.new ≡ rect_of self.now rect }
    {
        read_rect(&self.cells, self.grid(), rect, out);
    }

    /// Gives the place in a column of a row a pixel, as the format keeps it.
    pub(crate) fn set_pixel(&mut self, x: u16, y: u16, pixel: Pixel)
        requires column { x < self.old.width }
        requires row { y < self.old.height }
        ensures { self.new ≡ with_pixel self.old x y pixel }
    {
        let place = place_of(self.width, x, y);
        self.cells[place] = shaded(self.format, pixel);
    }

    /// The 4,096 places of a cell, row by row in rows of 64.
    pub(crate) fn cell(&self, cell: Cell) -> &[Pixel]
        requires { LiesOn self.now cell }
        ensures { IsCellOf self.now cell result.now }
    {
        let start = cell_start(self.width, cell);
        &self.cells[start..start + CELL_PLACES]
    }

    /// Gives a cell its 4,096 pixels, as the format keeps them.
    pub(crate) fn put_cell(&mut self, cell: Cell, pixels: &[Pixel])
        requires cell { LiesOn self.old cell }
        requires whole { length pixels.now ≡ 4096 }
        ensures { self.new ≡ with_cell self.old cell pixels.now }
    {
        let format = self.format();
        self.put_cell_as(cell, format, pixels);
    }

    /// Gives a cell its 4,096 pixels, all of them opaque: they are moved as they are, for both formats.
    pub(crate) fn put_opaque_cell(&mut self, cell: Cell, pixels: &[Pixel])
        requires cell { LiesOn self.old cell }
        requires whole { length pixels.now ≡ 4096 }
        requires opaque { AreOpaque pixels.now }
        ensures { self.new ≡ with_cell self.old cell pixels.now }
    {
        self.put_cell_as(cell, Format::Argb, pixels);
    }

    /// Gives a cell its 4,096 pixels, as this format keeps them. The surface's own keeps them alike.
    fn put_cell_as(&mut self, cell: Cell, format: Format, pixels: &[Pixel])
        requires cell { LiesOn self.old cell }
        requires whole { length pixels.now ≡ 4096 }
        requires alike { map (shade format) pixels.now ≡ map (shade self.old.format) pixels.now }
        ensures { self.new ≡ with_cell self.old cell pixels.now }
    {
        let start = cell_start(self.width, cell);
        copy_run(pixels, format, &mut self.cells, start);
    }

    /// Gives a closure two different cells.
    pub(crate) fn lend_cells<F: FnOnce(&mut [Pixel], &mut [Pixel])>(
        &mut self,
        first: Cell,
        second: Cell,
        f: F,
    )
        requires first { LiesOn self.old first }
        requires second { LiesOn self.old second }
        requires apart { first ≢ second }
        requires callable { (p q : MutBor (List AnyPixel)) → IsCellOf self.old first p.now → IsCellOf self.old second q.now → F.pre f p q }
        ensures { PairReturns F.FnOnce f first second self.old self.new }
    {
        let start = cell_start(self.width, first);
        let other = cell_start(self.width, second);
        let format = self.format;
        lend_pair(&mut self.cells, start, other, CELL_PLACES, format, f);
    }

    /// Gives a closure the cells of a row of them before a column, and those from it on.
    pub(crate) fn lend_strip<F: FnOnce(&mut [Pixel], &mut [Pixel])>(
        &mut self,
        row: u16,
        column: u16,
        f: F,
    )
        requires row { row < cells_along self.old.height }
        requires within { column ≤ cells_along self.old.width }
        requires callable { (p q : MutBor (List AnyPixel)) → IsStripOf self.old row 0 column p.now
            → IsStripOf self.old row column (cells_along self.old.width) q.now → F.pre f p q }
        ensures { SplitReturns F.FnOnce f row column self.old self.new }
    {
        let start = cell_start(self.width, Cell { x: 0, y: row });
        let middle = cell_start(self.width, Cell { x: column, y: row });
        let front = CELL_PLACES * usize::from(column);
        let back = CELL_PLACES * (cells_along(self.width) - usize::from(column));
        let format = self.format;
        lend_two(&mut self.cells, start, front, middle, back, format, f);
    }

    fn grid(&self) -> Grid
        ensures width { result.width ≡ self.now.width }
        ensures height { result.height ≡ self.now.height }
    {
        Grid {
            width: self.width,
            height: self.height,
        }
    }
}

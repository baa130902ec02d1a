//! Cells as they stood before they were drawn on, kept and put back.
ghost use Rattle.std.specs.Prelude.{◌≡◌, ◌<◌, ◌≤◌, ◌^◌, [], length, IfOk, IsTrue, OnErr, OnOk, ℕ};
ghost use Rattle.std.specs.List.{slice_index_or};
ghost use Rattle.std.specs.Vec.{vec_len};
ghost use Rattle.gfx_surface.specs.Kept.{AreFound, IsKept, IsKeptOf, KeepsCell, cell_at, cells_of, lies_on, number_of, put_back};
ghost use Rattle.gfx_surface.specs.declared.log.TheConstants.{MOST_SPARE};
ghost use Rattle.gfx_surface.specs.Views.{LiesOn, with_cell};

use crate::MOST_SIDE;
use crate::cells::cells_along;
use crate::kept_cell::KeptCell;
use crate::surface::Surface;
use gfx_base::{Cell, NoMemory, Pixel};
use std::alloc::Global;

/// How many cells' memory is kept at most: those of a desktop of 3840 by 2160 pixels. This project's own rule.
const MOST_SPARE: usize = 2_048;

/// Cells of a surface as they stood before they were drawn on, to be put back where what draws on them is
/// refused (this project's own rule), and memory for more of them.
#[derive(Drop)]
pub struct CellLog {
    pub(crate) cells: Vec<KeptCell>,
    /// Where among the cells that of a number stands, if it is kept. At another number anything may stand.
    places: Vec<usize>,
    /// Pixels that mean nothing.
    spare: Vec<Vec<Pixel>>,
    ghost found: { AreFound (cells_of cells.items) places.items },
    ghost few: { vec_len spare ≤ MOST_SPARE },
}

impl CellLog {
    /// No cells. It takes no memory.
    pub fn new(alloc: Global) -> CellLog
        ensures { result.cells.items ≡ [] }
    {
        CellLog {
            cells: Vec::new(alloc),
            places: Vec::new(alloc),
            spare: Vec::new(alloc),
        }
    }

    /// Keeps a cell as it stands, if it isn't kept yet. One that is kept stays as it is kept.
    pub fn keep(&mut self, alloc: Global, surface: &Surface, cell: Cell) -> Result<(), NoMemory>
        requires { LiesOn surface.now cell }
        ensures ok { OnOk result (KeepsCell cell surface.now self.old.cells.items self.new.cells.items) }
        ensures again { IsKept cell self.old.cells.items → self.new.cells.items ≡ self.old.cells.items }
        ensures err { OnErr result (self.new.cells.items ≡ self.old.cells.items) }
    {
        // Its sides are no longer than the longest.
        let (_, _) = surface.size();
        let number = number_of(cell);
        make_place(&mut self.places, number)?;
        if !is_kept(&self.cells, self.places[number], cell) {
            let kept = as_it_stands(alloc, &mut self.spare, surface, cell)?;
            self.places[number] = self.cells.len();
            self.cells.push(kept)?;
        }
        Ok(())
    }

    /// Puts all cells back, the one that was kept last first, and lets go of them; their memory is kept.
    pub fn put_back(&mut self, surface: &mut Surface)
        ensures back { surface.new ≡ put_back self.old.cells.items surface.old }
        ensures none { self.new.cells.items ≡ [] }
    {
        'cells: while let Some(kept) = self.cells.pop() {
            put_cell_back(surface, &kept);
            take(&mut self.spare, kept);
        }
    }

    /// Lets go of all cells and keeps their memory.
    pub fn spend(&mut self)
        ensures { self.new.cells.items ≡ [] }
    {
        'cells: while let Some(kept) = self.cells.pop() {
            take(&mut self.spare, kept);
        }
    }
}

/// The number of a cell, row by row on a surface of the longest sides.
fn number_of(cell: Cell) -> usize
    ensures number { result ≡ number_of cell }
    ensures few { result < 2 ^ 32 }
{
    usize::from(cell.y) * cells_along(MOST_SIDE) + usize::from(cell.x)
}

/// Makes a place for this number. The places that there are stay.
fn make_place(places: &mut Vec<usize>, number: usize) -> Result<(), NoMemory>
    requires { number < 2 ^ 32 }
    ensures place { OnOk result (number < length places.new.items) }
    ensures more { length places.old.items ≤ length places.new.items }
    ensures stay { (k : ℕ) → k < length places.old.items → slice_index_or places.new.items k 0 ≡ slice_index_or places.old.items k 0 }
{
    if number >= places.len() {
        places.resize(number + 1, 0)?;
    }
    Ok(())
}

/// Whether a cell is the one that is kept at this place.
fn is_kept(cells: &[KeptCell], place: usize, cell: Cell) -> bool
    ensures kept { IsTrue result → IsKept cell cells.now }
    ensures here { place < length cells.now → cell_at (cells_of cells.now) place ≡ cell → IsTrue result }
{
    place < cells.len() && is_same(cells[place].cell, cell)
}

/// Whether two cells are one.
fn is_same(first: Cell, second: Cell) -> bool
    ensures same { IsTrue result → first ≡ second }
    ensures found { first ≡ second → IsTrue result }
{
    first.x == second.x && first.y == second.y
}

/// A cell as it stands.
fn as_it_stands(
    alloc: Global,
    spare: &mut Vec<Vec<Pixel>>,
    surface: &Surface,
    cell: Cell,
) -> Result<KeptCell, NoMemory>
    requires { LiesOn surface.now cell }
    ensures ok { IfOk result (IsKeptOf cell surface.now) }
    ensures few { vec_len spare.new ≤ vec_len spare.old }
{
    let pixels = copied(some_memory(alloc, spare), surface.cell(cell))?;
    Ok(KeptCell { cell, pixels })
}

/// Memory for pixels, which mean nothing.
fn some_memory(alloc: Global, spare: &mut Vec<Vec<Pixel>>) -> Vec<Pixel>
    ensures { vec_len spare.new ≤ vec_len spare.old }
{
    match spare.pop() {
        Some(pixels) => pixels,
        None => Vec::new(alloc),
    }
}

/// Pixels in this memory.
fn copied(memory: Vec<Pixel>, pixels: &[Pixel]) -> Result<Vec<Pixel>, NoMemory>
    ensures { IfOk result (λ copied. copied.items ≡ pixels.now) }
{
    let mut copied = memory;
    copied.clear();
    copied.extend_from_slice(pixels)?;
    Ok(copied)
}

/// Puts a cell back, if it lies on the surface.
fn put_cell_back(surface: &mut Surface, kept: &KeptCell)
    ensures { surface.new ≡ with_cell surface.old kept.now.cell kept.now.pixels.items }
{
    if lies_on(surface.size(), kept.cell) {
        surface.put_cell(kept.cell, &kept.pixels);
    }
}

/// Whether a cell is one of a surface's of these sides.
fn lies_on(size: (u16, u16), cell: Cell) -> bool
    ensures { result ≡ lies_on size.0 size.1 cell }
{
    usize::from(cell.x) < cells_along(size.0) && usize::from(cell.y) < cells_along(size.1)
}

/// Takes the memory of a cell. Where there is no room for it, it is let go of.
fn take(spare: &mut Vec<Vec<Pixel>>, kept: KeptCell)
    requires { vec_len spare.old ≤ MOST_SPARE }
    ensures { vec_len spare.new ≤ MOST_SPARE }
{
    if spare.len() < MOST_SPARE {
        let _ = spare.push(kept.pixels);
    }
}

//! The keys of cells among the records of tiles ([MS-RDPEGFX] 2.2.4.2).
ghost use Rattle.std.specs.Prelude.{◌≡◌};
ghost use Rattle.gfx_prog_live.specs.Cells.{cell_key};

use gfx_base::Cell;
use gfx_prog_decode::Key;
use gfx_prog_encode::CONTEXT;

/// The key of a cell of a surface.
pub(crate) fn cell_key(id: u16, cell: Cell) -> Key
    ensures { result ≡ cell_key id cell }
{
    Key {
        surface: id,
        context: CONTEXT,
        x: cell.x,
        y: cell.y,
    }
}

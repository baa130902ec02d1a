//! Sides of surfaces, and the cells that they take.
ghost use Rattle.std.specs.Prelude.{◌≡◌, ◌≤◌, ◌*◌};
ghost use Rattle.gfx_surface_map.specs.Surfaces.{cells, is_side, is_size};

use gfx_base::cells_along;
use gfx_surface::MOST_SIDE;

/// Whether a surface may have these sides: 1 to 8,192 pixels each.
pub fn fits_size(width: u16, height: u16) -> bool
    ensures { result ≡ is_size width height }
{
    fits_side(width) && fits_side(height)
}

/// Whether a surface may have a side of this length.
fn fits_side(side: u16) -> bool
    ensures { result ≡ is_side side }
{
    (1..=MOST_SIDE).contains(&side)
}

/// How many cells a surface of these sides has, a part cell counted whole.
pub fn count_cells(width: u16, height: u16) -> u32
    ensures cells { result ≡ cells width height }
    ensures small { result ≤ 1024 * 1024 }
{
    u32::from(cells_along(width)) * u32::from(cells_along(height))
}

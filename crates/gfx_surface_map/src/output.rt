//! The output's sides, and where surfaces stand on it.
ghost use Rattle.std.specs.Prelude.{◌≡◌, ◌&&◌};
ghost use Rattle.gfx_surface_map.specs.Shown.{is_output_side};

use crate::place::MOST_OUTPUT_SIDE;

/// Whether the output may have these sides: 1 to 32,766 pixels each.
pub(crate) fn fits_output(width: u32, height: u32) -> bool
    ensures { result ≡ (is_output_side width && is_output_side height) }
{
    fits_output_side(width) && fits_output_side(height)
}

/// Whether the output may have a side of this length.
fn fits_output_side(side: u32) -> bool
    ensures { result ≡ is_output_side side }
{
    (1..=MOST_OUTPUT_SIDE).contains(&side)
}

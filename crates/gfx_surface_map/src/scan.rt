//! What a scan over all surfaces finds.
ghost use Rattle.std.specs.Prelude.{◌≡◌, ◌≤◌, ◌*◌};
ghost use Rattle.std.specs.List.{sum_by};
ghost use Rattle.indexmap.specs.IndexMap.{index_map_len, keys, values};
ghost use Rattle.gfx_surface_map.specs.Surfaces.{cells_of_picture};
ghost use Rattle.gfx_surface_map.specs.Order.{IsLeastFrom};

use crate::MOST_SURFACES;
use crate::size::count_cells;
use gfx_surface::Surface;
use indexmap::IndexMap;

/// How many cells these surfaces have together.
pub(crate) fn total_cells(surfaces: &IndexMap<u16, Surface>) -> u32
    requires { index_map_len surfaces.now ≤ MOST_SURFACES }
    ensures total { result ≡ sum_by cells_of_picture (values surfaces.now) }
    ensures small { result ≤ 1024 * 1024 * MOST_SURFACES }
{
    let mut total = 0;
    'surfaces: for surface in surfaces.values() {
        let (width, height) = surface.size();
        total += count_cells(width, height);
    }
    total
}

/// The least id not below this one.
pub(crate) fn least_from(surfaces: &IndexMap<u16, Surface>, from: u16) -> Option<u16>
    ensures least { IsLeastFrom from (keys surfaces.now) result }
{
    surfaces.keys().copied().filter(|id| *id >= from).min()
}

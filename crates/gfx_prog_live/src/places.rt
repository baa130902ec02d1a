//! Which live tiles an improvement raises, and where they stand on their surface.
ghost use Rattle.std.specs.Prelude.{◌≡◌};
ghost use Rattle.gfx_prog_live.specs.Places.{is_new, place_to_raise};

use gfx_prog_decode::Key;

/// The place of a tile of this key and level among the cells of a surface, which has so many columns and rows of them: it
/// is counted from 0, row by row. There is none where the tile lies outside of them, or is at the last level, which so
/// many are listed before.
pub(crate) fn place_to_raise(
    listed: usize,
    id: u16,
    columns: u16,
    rows: u16,
    key: Key,
    level: u8,
) -> Option<usize>
    ensures { result ≡ place_to_raise listed id columns rows key level }
{
    let there = (key.surface == id) & (key.x < columns) & (key.y < rows);
    if there & (usize::from(level) < listed) {
        Some(usize::from(key.y) * usize::from(columns) + usize::from(key.x))
    } else {
        None
    }
}

/// Whether a tile of this surface and level isn't at the last level, which so many are listed before, and its surface
/// isn't among these yet.
pub(crate) fn is_new(listed: usize, surface: u16, level: u8, ids: &[u16]) -> bool
    ensures { result ≡ is_new listed surface level ids.now }
{
    usize::from(level) < listed && !ids.contains(&surface)
}

//! The tiles that a paint sends.
ghost use Rattle.std.specs.Prelude.{◌≡◌, ◌<◌, ◌≤◌, ℕ, IfOk, IfSome, IsSome, Some, true};
ghost use Rattle.std.specs.List.{slice_get};
ghost use Rattle.std.specs.Option.{option_copied};
ghost use Rattle.gfx_base.specs.Cells.{has_pixels};
ghost use Rattle.gfx_quant.specs.Setting.{is_accepted};
ghost use Rattle.gfx_prog_live.specs.Inside.{AreBy, IsBy, OfPicture, sent_over};
ghost use Rattle.gfx_prog_live.specs.Live.{painted_sends};
ghost use Rattle.gfx_prog_live.specs.Tiles.{cell_pixels, gone_on, nearest};

use crate::live::LiveTiles;
use gfx_base::{CELL_SIDE, Cell, Cells, NoMemory, Pixel, Rect};
use gfx_prog_encode::TileSend;
use gfx_script::Script;
use gfx_tile_make::SourceTile;
use std::alloc::Global;

/// What a paint sends: the tiles of the cells that it meets, row by row.
pub(crate) fn painted_sends(
    alloc: Global,
    script: &Script,
    live: &LiveTiles,
    id: u16,
    picture: u32,
    rect: Rect,
) -> Result<Vec<TileSend>, NoMemory>
    requires accepted { is_accepted script.now.setting ≡ true }
    requires drawn { IsSome (slice_get script.now.pictures picture) }
    requires some { has_pixels rect ≡ true }
    requires one_setting { AreBy script.now.setting live.now }
    ensures { IfOk result (λ sends. OfPicture script.now picture (λ drawing. sends.items ≡ painted_sends script.now live.now id drawing rect)) }
{
    let cells = Cells::met(rect);
    let mut sends = Vec::new(alloc);
    'cells: for place in 0..cells.len() {
        let cell = cells.at(place);
        let before = live.get(id, cell);
        sends.push(send_over(alloc, script, before, picture, rect, cell)?)?;
    }
    Ok(sends)
}

/// The tile of a cell at the first level, by what was live there before.
fn send_over(
    alloc: Global,
    script: &Script,
    before: Option<&TileSend>,
    picture: u32,
    rect: Rect,
    cell: Cell,
) -> Result<TileSend, NoMemory>
    requires accepted { is_accepted script.now.setting ≡ true }
    requires drawn { IsSome (slice_get script.now.pictures picture) }
    requires some { has_pixels rect ≡ true }
    requires one_setting { IfSome (option_copied before) (IsBy script.now.setting) }
    requires across { cell.x ≤ 1023 }
    requires down { cell.y ≤ 1023 }
    ensures { IfOk result (λ send. OfPicture script.now picture (λ drawing. send ≡ sent_over script.now (option_copied before.entry) drawing rect cell)) }
{
    let mut pixels = [Pixel::default(); 4096];
    cell_pixels(script, picture, rect, cell, &mut pixels);
    let mut tile = SourceTile::from_pixels(alloc, &pixels, script.setting())?;
    go_on(&mut tile, script, before);
    Ok(TileSend {
        cell,
        rect: rect.cut_to(cell),
        tile,
        level: 0,
    })
}

/// The pixels of a cell, row by row, of the picture of this number in a rectangle: outside of it those of the nearest
/// place.
pub fn cell_pixels(
    script: &Script,
    picture: u32,
    rect: Rect,
    cell: Cell,
    pixels: &mut [Pixel; 4096],
)
    requires drawn { IsSome (slice_get script.now.pictures picture) }
    requires some { has_pixels rect ≡ true }
    requires across { cell.x ≤ 1023 }
    requires down { cell.y ≤ 1023 }
    ensures { OfPicture script.now picture (λ drawing. pixels.new ≡ cell_pixels drawing rect cell) }
{
    'pixels: for place in 0..4096 {
        let x = CELL_SIDE * cell.x + (place % 64) as u16;
        let y = CELL_SIDE * cell.y + (place / 64) as u16;
        pixels[place] = script.picture_pixel(
            picture,
            nearest(rect.left, rect.right, x),
            nearest(rect.top, rect.bottom, y),
        );
    }
}

/// The place of a picture that is nearest to a coordinate, where the picture begins and ends at these.
#[inline(always)]
fn nearest(from: u16, to: u16, at: u16) -> u16
    requires { from < to }
    ensures { result ≡ nearest from to at }
{
    from.max(at.min(to - 1)) - from
}

/// Lets a tile go on the one before it in its cell, where the script lets it, that one is at the last level, and what
/// is sent then stays in range.
fn go_on(tile: &mut SourceTile, script: &Script, before: Option<&TileSend>)
    requires setting { tile.old.setting ≡ script.now.setting }
    requires one_setting { IfSome (option_copied before) (IsBy script.now.setting) }
    ensures { tile.new ≡ gone_on script.now.differences (option_copied before.entry) tile.old }
{
    match before {
        None => {}
        Some(old) => go_on_old(tile, script, old),
    }
}

/// The same where there is one.
fn go_on_old(tile: &mut SourceTile, script: &Script, old: &TileSend)
    requires setting { tile.old.setting ≡ script.now.setting }
    requires one_setting { IsBy script.now.setting old.now }
    ensures { tile.new ≡ gone_on script.now.differences (Some old.now) tile.old }
{
    let is_last = usize::from(old.level) == script.setting().levels.len();
    if script.differences() & is_last {
        tile.against(&old.tile);
    }
}

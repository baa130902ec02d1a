//! The tiles of a picture.
ghost use Rattle.std.specs.Prelude.{◌≡◌, ◌≤◌, ◌-◌, IfOk, IsSome, drop, length, map, take, true};
ghost use Rattle.std.specs.List.{slice_get};
ghost use Rattle.gfx_base.specs.Cells.{has_pixels};
ghost use Rattle.gfx_base.specs.Geometry.{sized};
ghost use Rattle.gfx_quant.specs.Setting.{is_accepted};
ghost use Rattle.gfx_prog_live.specs.Inside.{OfPicture};
ghost use Rattle.gfx_video_paint.specs.Inside.{HasSides};
ghost use Rattle.gfx_video_paint.specs.Video.{video_setting, video_tile};

use gfx_base::{Cell, Cells, NoMemory, Pixel, Rect};
use gfx_dwt::Transform;
use gfx_prog_live::cell_pixels;
use gfx_quant::Setting;
use gfx_rfx_video::{VideoTile, VideoTiles};
use gfx_script::Script;
use gfx_tile_make::SourceTile;
use std::alloc::Global;

/// How the tiles of video are coded: by the plain transform, and else as progressive ones.
pub(crate) fn video_setting(setting: &Setting) -> Setting
    ensures { result ≡ video_setting setting.now }
{
    Setting {
        transform: Transform::Plain,
        rounding: setting.rounding,
        y: setting.y,
        cb: setting.cb,
        cr: setting.cr,
        levels: setting.levels.copy(),
    }
}

/// The tiles of the squares of a picture of these sides, from a place of their list to before another.
pub(crate) fn video_tiles(
    alloc: Global,
    script: &Script,
    setting: &Setting,
    picture: u32,
    width: u16,
    height: u16,
    squares: &Cells,
    from: usize,
    to: usize,
) -> Result<VideoTiles, NoMemory>
    requires setting { setting.now ≡ video_setting script.now.setting }
    requires accepted { is_accepted setting.now ≡ true }
    requires drawn { IsSome (slice_get script.now.pictures picture) }
    requires sides { OfPicture script.now picture (HasSides width height) }
    requires some { has_pixels (sized width height) ≡ true }
    requires ordered { from ≤ to }
    requires within { to ≤ length squares.now }
    ensures { IfOk result (λ tiles. OfPicture script.now picture (λ drawing. tiles ≡ map (video_tile script.now.setting drawing) (take (to - from) (drop from squares.now)))) }
{
    let mut tiles = VideoTiles::new(alloc);
    'squares: for place in from..to {
        let square = squares.at(place);
        tiles.push(tile_of(alloc, script, setting, picture, width, height, square)?)?;
    }
    Ok(tiles)
}

/// The tile of a square.
fn tile_of(
    alloc: Global,
    script: &Script,
    setting: &Setting,
    picture: u32,
    width: u16,
    height: u16,
    square: Cell,
) -> Result<VideoTile, NoMemory>
    requires setting { setting.now ≡ video_setting script.now.setting }
    requires accepted { is_accepted setting.now ≡ true }
    requires drawn { IsSome (slice_get script.now.pictures picture) }
    requires sides { OfPicture script.now picture (HasSides width height) }
    requires some { has_pixels (sized width height) ≡ true }
    requires across { square.x ≤ 1023 }
    requires down { square.y ≤ 1023 }
    ensures { IfOk result (λ tile. OfPicture script.now picture (λ drawing. tile ≡ video_tile script.now.setting drawing square)) }
{
    let mut pixels = [Pixel::default(); 4096];
    cell_pixels(
        script,
        picture,
        Rect::sized(width, height),
        square,
        &mut pixels,
    );
    Ok(VideoTile {
        x: square.x,
        y: square.y,
        tile: SourceTile::from_pixels(alloc, &pixels, setting)?,
    })
}

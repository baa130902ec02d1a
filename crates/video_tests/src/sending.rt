//! A message that a server makes of a tile, as an independent program makes it.
ghost use Rattle.std.specs.Prelude.{◌≡◌, ◌<◌, ◌∷◌, [], IfSome};
ghost use Rattle.gfx_dwt.specs.declared.layout.Transform.TheVariants.{Plain};

use crate::messages::GREY;
use gfx_base::{Bytes, Pixel};
use gfx_dwt::Transform;
use gfx_quant::{Level, Levels, Quant, Rounding, Setting};
use gfx_rfx_video::{Entropy, VideoTile, VideoTiles, video_message};
use gfx_tile_make::SourceTile;
use std::alloc::Global;
use std::test::Fail;

// All bands of all components by 6, and a level that leaves out nothing.
fn plain() -> Setting
    ensures { result.transform ≡ Plain }
{
    let base = Quant { values: [6; 10] };
    let mut levels = Levels::new();
    levels.push(Level::whole());
    Setting {
        transform: Transform::Plain,
        rounding: Rounding::Zero,
        y: base,
        cb: base,
        cr: base,
        levels,
    }
}

// A solid grey tile.
fn grey_tile(alloc: Global, setting: &Setting) -> Option<SourceTile>
    ensures { IfSome result (λ tile. tile.setting ≡ setting.now) }
{
    let grey = Pixel {
        b: 0x80,
        g: 0x80,
        r: 0x80,
        a: 0xff,
    };
    if setting.is_accepted() {
        SourceTile::from_pixels(alloc, &[grey; 4096], setting).ok()
    } else {
        None
    }
}

// The only tile of a message.
fn only(alloc: Global, tile: SourceTile) -> Option<VideoTiles>
    ensures { IfSome result (λ tiles. tiles ≡ record { x = 0; y = 0; tile = tile } ∷ []) }
{
    let mut tiles = VideoTiles::new(alloc);
    match tiles.push(VideoTile { x: 0, y: 0, tile }) {
        Ok(()) => Some(tiles),
        Err(_) => None,
    }
}

// The message that paints it.
fn message(alloc: Global) -> Option<Bytes> {
    let setting = plain();
    let tile = grey_tile(alloc, &setting)?;
    let tiles = only(alloc, tile)?;
    video_message(alloc, &setting, Entropy::Rlgr1, 64, 64, &tiles, 0).ok()
}

#[test]
fn a_grey_tile_is_painted(rt: HostRuntime) -> Result<(), Fail> {
    let message = message(rt.alloc()).ok_or("no message")?;
    assert!(rt; message.as_slice() == GREY.as_slice());
    Ok(())
}

ghost use Rattle.std.specs.Prelude.{◌≡◌, ◌≤◌, ◌<◌, ◌^◌, ℕ, ℤ, List, length, take, drop, All, Ok};
ghost use Rattle.std.specs.List.{AllByRecursion};
ghost use Rattle.gfx_base.specs.declared.geometry.Rect.{Rect};
ghost use Rattle.gfx_base.specs.Geometry.{height_of, width_of};
ghost use Rattle.gfx_dwt.specs.declared.layout.Transform.TheVariants.{Plain};
ghost use Rattle.gfx_quant.specs.declared.quant.Component.{Component};
ghost use Rattle.gfx_quant.specs.declared.setting.Setting.{Setting};
ghost use Rattle.gfx_quant.specs.Setting.{IsSetting};
ghost use Rattle.gfx_surface.specs.Picture.{Picture};
ghost use Rattle.gfx_rlgr.specs.declared.mode.Mode.{Mode};
ghost use Rattle.gfx_rlgr.specs.declared.mode.Mode.TheVariants.{Rlgr3};
ghost use Rattle.gfx_rlgr.specs.Bound.{IsWithin};
ghost use Rattle.gfx_rlgr.specs.Rlgr.{Encodes};
ghost use Rattle.gfx_prog_block.specs.declared.tile.TileHead.{TileHead};
ghost use Rattle.gfx_tile_state.specs.Passes.{blank};
ghost use Rattle.gfx_tile_make.specs.Levels.{MayBeSent, direct_pixel};
ghost use Rattle.gfx_tile_make.specs.Source.{SourceTile, planes_of};
ghost use Rattle.gfx_rfx_video.specs.declared.video_tile.VideoTile.{VideoTile};
ghost use Rattle.gfx_rfx_video.specs.BlockReading.{video_blocks_of};
ghost use Rattle.gfx_rfx_video.specs.Message.{IsSent, bases_by, blocks_by, coded_tile, codes_of, direct_planes, video_data};
ghost use Rattle.gfx_rfx_video.specs.Painted.{IsPlain, all_painted};
ghost use Rattle.gfx_rfx_video.specs.Tiles.{pixel_of, planes_by};
ghost use Rattle.gfx_rfx_video.specs.Video.{after_video};

/// Values as small as those of a tile of the plain transform, whose last band has 64 places, have
/// codes that fit a tile's 16-bit lengths.
pub fn plain_codes_are_short()
    ensures { (values : List ℤ) (bytes : List ℕ) → length values ≡ 4096
        → All (IsWithin 1024) (take 4032 values) → All (IsWithin 2048) (drop 4032 values) → Encodes Rlgr3 values bytes → length bytes ≤ 65535 }
{}

/// The codes of a tile at its source that goes on nothing, by either coder, are decoded by its setting's base values to
/// the coefficients of its own values, and so show Direct.
pub fn tile_codes_are_direct()
    ensures planes { (mode : Mode) (source : SourceTile) (head : TileHead) → MayBeSent source → source.setting.transform ≡ Plain → ((component : Component) → (planes_of source component).kept ≡ blank)
        → planes_by mode (bases_by source.setting) (coded_tile head (codes_of mode source)) ≡ Ok (direct_planes source) }
    ensures pixels { (source : SourceTile) → source.setting.transform ≡ Plain → (y x : ℕ) → pixel_of (direct_planes source) y x ≡ direct_pixel source y x }
{}

/// The data of a server's message are read as the blocks that they were made of.
pub fn video_messages_are_read()
    ensures { (setting : Setting) (mode : Mode) (width height : ℕ) (tiles : List VideoTile) (index : ℕ) → width < 2 ^ 16 → height < 2 ^ 16 → length tiles ≤ 256
        → AllByRecursion (IsSent setting width height) tiles → AllByRecursion (λ t. MayBeSent t.tile) tiles
        → video_blocks_of (video_data setting mode width height tiles index) ≡ Ok (blocks_by mode setting width height tiles) }
{}

/// The data of a server's message, applied to a picture, paint each tile's Direct at its place, one after the other.
pub fn video_messages_show_direct()
    ensures { (setting : Setting) (mode : Mode) (rect : Rect) (tiles : List VideoTile) (index : ℕ) (picture : Picture) → width_of rect < 2 ^ 16 → height_of rect < 2 ^ 16 → length tiles ≤ 256
        → IsSetting setting → AllByRecursion (IsSent setting (width_of rect) (height_of rect)) tiles → AllByRecursion IsPlain tiles
        → after_video rect (video_data setting mode (width_of rect) (height_of rect) tiles index) picture ≡ Ok (all_painted rect tiles picture) }
{}

//! The data of a server's messages.
ghost use Rattle.std.specs.Prelude.{◌≡◌, ◌≤◌, ◌<◌, ◌+◌, ◌*◌, ◌^◌, ◌++◌, IfOk, OnOk, length, map};
ghost use Rattle.std.specs.List.{AllByRecursion, flat_map};
ghost use Rattle.gfx_rfx_video.specs.Message.{AreShort, IsSent, area_of, begin_text, channels_text, coded_text, context_properties, context_text, end_text, front_text, head_of, packed, quants_of, region_text, set_properties, set_text, sync_text, tile_text, versions_text, video_data};

use crate::coding::{Codes, codes_of};
use crate::frame::put_frame;
use crate::kinds::{BlockType, TILE};
use crate::quants::VideoQuant;
use crate::set::SetHead;
use crate::video_tile::{VideoTile, VideoTiles};
use gfx_base::{Bytes, CELL_SIDE, Items, NoMemory};
use gfx_layout::{Part, put_bytes, put_items, put_list};
use gfx_prog_block::{Area, Areas, TileHead};
use gfx_quant::{Quant, Setting};
use gfx_rlgr::Mode;
use std::alloc::Global;

/// The data of a message that paints tiles in a rectangle of these sides, by this entropy coder. The index counts the
/// messages of a server from 0.
pub fn video_message(
    alloc: Global,
    setting: &Setting,
    mode: Mode,
    width: u16,
    height: u16,
    tiles: &VideoTiles,
    index: u32,
) -> Result<Bytes, NoMemory>
    requires few { length tiles.now ≤ 256 }
    requires sent { AllByRecursion (IsSent setting.now width height) tiles.now }
    ensures data { IfOk result (λ bytes. bytes ≡ video_data setting.now mode width height tiles.now index) }
    ensures short { IfOk result (λ bytes. length bytes ≤ 51000000) }
{
    write_message(alloc, setting, mode, width, height, tiles.as_slice(), index)
}

/// The same of tiles in a slice.
#[tactic(auto, unfolding(crate::specs::Message::video_data))]
fn write_message(
    alloc: Global,
    setting: &Setting,
    mode: Mode,
    width: u16,
    height: u16,
    tiles: &[VideoTile],
    index: u32,
) -> Result<Bytes, NoMemory>
    requires few { length tiles.now ≤ 256 }
    requires sent { AllByRecursion (IsSent setting.now width height) tiles.now }
    ensures data { IfOk result (λ bytes. bytes ≡ video_data setting.now mode width height tiles.now index) }
    ensures tiles { IfOk result (λ _. length (flat_map (tile_text mode) tiles.now) ≤ length tiles.now * 196624) }
{
    let texts = tile_texts(alloc, setting, mode, width, height, tiles)?;
    let areas = areas_of(alloc, setting, width, height, tiles)?;
    let mut out = Bytes::new(alloc);
    put_front(&mut out, mode, width, height, index)?;
    put_region(&mut out, areas.as_slice())?;
    put_set(
        &mut out,
        mode,
        setting,
        tiles.len() as u16,
        texts.as_slice(),
    )?;
    put_end(&mut out)?;
    Ok(out)
}

/// The bytes of tiles, one after the other.
fn tile_texts(
    alloc: Global,
    setting: &Setting,
    mode: Mode,
    width: u16,
    height: u16,
    tiles: &[VideoTile],
) -> Result<Bytes, NoMemory>
    requires { AllByRecursion (IsSent setting.now width height) tiles.now }
    ensures value { IfOk result (λ bytes. bytes ≡ flat_map (tile_text mode) tiles.now) }
    ensures short { IfOk result (λ bytes. length bytes ≤ length tiles.now * 196624) }
{
    let levels = setting.levels.len() as u8;
    let mut out = Bytes::new(alloc);
    'tiles: for tile in tiles {
        let codes = codes_of(alloc, mode, &tile.tile, levels)?;
        put_tile(&mut out, head_of(tile), &codes)?;
    }
    Ok(out)
}

/// The place of a tile, and the quants of its components.
fn head_of(tile: &VideoTile) -> TileHead
    ensures { result ≡ head_of tile.now }
{
    TileHead {
        quant_y: 0,
        quant_cb: 1,
        quant_cr: 2,
        x_idx: tile.x,
        y_idx: tile.y,
    }
}

/// Puts a tile at the end.
#[tactic(auto, unfolding(crate::specs::Message::coded_text, gfx_layout::specs::Shape::text))]
fn put_tile(out: &mut Bytes, head: TileHead, codes: &Codes) -> Result<(), NoMemory>
    requires { AreShort codes.now }
    ensures { OnOk result (out.new ≡ out.old ++ (coded_text head codes.now)) }
{
    let (y, cb, cr) = (codes.y.as_slice(), codes.cb.as_slice(), codes.cr.as_slice());
    let lengths = [y.len() as u16, cb.len() as u16, cr.len() as u16];
    put_frame(
        out,
        TILE,
        TileHead::SIZE + 3 * u16::SIZE + (y.len() + cb.len() + cr.len()),
    )?;
    head.put(out)?;
    put_items(out, &lengths)?;
    put_bytes(out, y)?;
    put_bytes(out, cb)?;
    put_bytes(out, cr)?;
    Ok(())
}

/// What of tiles lies in a rectangle of these sides.
fn areas_of(
    alloc: Global,
    setting: &Setting,
    width: u16,
    height: u16,
    tiles: &[VideoTile],
) -> Result<Areas, NoMemory>
    requires { AllByRecursion (IsSent setting.now width height) tiles.now }
    ensures { IfOk result (λ areas. areas ≡ map (area_of width height) tiles.now) }
{
    let mut areas = Areas::new(alloc);
    'tiles: for tile in tiles {
        areas.push(area_of(width, height, tile))?;
    }
    Ok(areas)
}

/// What of a tile lies in a rectangle of these sides, in which it begins.
fn area_of(width: u16, height: u16, tile: &VideoTile) -> Area
    requires across { CELL_SIDE * tile.now.x < width }
    requires down { CELL_SIDE * tile.now.y < height }
    ensures { result ≡ area_of width height tile.now }
{
    let (x, y) = (CELL_SIDE * tile.x, CELL_SIDE * tile.y);
    Area {
        x,
        y,
        width: CELL_SIDE.min(width - x),
        height: CELL_SIDE.min(height - y),
    }
}

/// Puts what stands before the region at the end.
#[tactic(auto, unfolding(crate::specs::Message::front_text))]
fn put_front(
    out: &mut Bytes,
    mode: Mode,
    width: u16,
    height: u16,
    index: u32,
) -> Result<(), NoMemory>
    ensures { OnOk result (out.new ≡ out.old ++ (front_text mode width height index)) }
{
    put_sync(out)?;
    put_versions(out)?;
    put_channels(out, width, height)?;
    put_context(out, mode)?;
    put_begin(out, index)?;
    Ok(())
}

/// Puts TS_RFX_SYNC at the end.
#[tactic(auto, unfolding(crate::specs::Message::sync_text))]
fn put_sync(out: &mut Bytes) -> Result<(), NoMemory>
    ensures { OnOk result (out.new ≡ out.old ++ sync_text) }
{
    put_frame(out, BlockType::Sync.number(), 6)?;
    out.append(&[0xCA, 0xAC, 0xCC, 0xCA, 0, 1])
}

/// Puts TS_RFX_CODEC_VERSIONS at the end.
#[tactic(auto, unfolding(crate::specs::Message::versions_text))]
fn put_versions(out: &mut Bytes) -> Result<(), NoMemory>
    ensures { OnOk result (out.new ≡ out.old ++ versions_text) }
{
    put_frame(out, BlockType::Versions.number(), 4)?;
    out.append(&[1, 1, 0, 1])
}

/// Puts TS_RFX_CHANNELS at the end.
#[tactic(auto, unfolding(crate::specs::Message::channels_text, gfx_layout::specs::Shape::text))]
fn put_channels(out: &mut Bytes, width: u16, height: u16) -> Result<(), NoMemory>
    ensures { OnOk result (out.new ≡ out.old ++ (channels_text width height)) }
{
    put_frame(out, BlockType::Channels.number(), 6)?;
    out.append(&[1, 0])?;
    width.put(out)?;
    height.put(out)?;
    Ok(())
}

/// The properties of a context.
fn context_properties(mode: Mode) -> u16
    ensures { result ≡ context_properties mode }
{
    match mode {
        Mode::Rlgr1 => 0x222A,
        Mode::Rlgr3 => 0x282A,
    }
}

/// Puts TS_RFX_CONTEXT at the end.
#[tactic(auto, unfolding(crate::specs::Message::context_text, gfx_layout::specs::Shape::text))]
fn put_context(out: &mut Bytes, mode: Mode) -> Result<(), NoMemory>
    ensures { OnOk result (out.new ≡ out.old ++ (context_text mode)) }
{
    put_frame(out, BlockType::Context.number(), 7)?;
    out.append(&[1, 0xFF, 0, 0x40, 0])?;
    context_properties(mode).put(out)
}

/// Puts TS_RFX_FRAME_BEGIN at the end.
#[tactic(auto, unfolding(crate::specs::Message::begin_text, gfx_layout::specs::Shape::text))]
fn put_begin(out: &mut Bytes, index: u32) -> Result<(), NoMemory>
    ensures { OnOk result (out.new ≡ out.old ++ (begin_text index)) }
{
    put_frame(out, BlockType::FrameBegin.number(), 8)?;
    out.append(&[1, 0])?;
    index.put(out)?;
    out.append(&[1, 0])?;
    Ok(())
}

/// Puts TS_RFX_REGION at the end.
#[tactic(auto, unfolding(crate::specs::Message::region_text))]
fn put_region(out: &mut Bytes, areas: &[Area]) -> Result<(), NoMemory>
    requires { length areas.now ≤ 256 }
    ensures { OnOk result (out.new ≡ out.old ++ (region_text areas.now)) }
{
    let body = 3 + u16::SIZE + areas.len() * Area::SIZE + 4;
    put_frame(out, BlockType::Region.number(), body)?;
    out.append(&[1, 0, 1])?;
    put_list(out, areas)?;
    out.append(&[0xC1, 0xCA, 1, 0])?;
    Ok(())
}

/// The properties of a tile set.
fn set_properties(mode: Mode) -> u16
    ensures { result ≡ set_properties mode }
{
    match mode {
        Mode::Rlgr1 => 0x4455,
        Mode::Rlgr3 => 0x5055,
    }
}

/// Puts TS_RFX_TILESET of so many tiles of these bytes at the end.
#[tactic(auto, unfolding(crate::specs::Message::set_text))]
fn put_set(
    out: &mut Bytes,
    mode: Mode,
    setting: &Setting,
    count: u16,
    texts: &[u8],
) -> Result<(), NoMemory>
    requires { length texts.now ≤ 50335744 }
    ensures { OnOk result (out.new ≡ out.old ++ (set_text mode setting.now count texts.now)) }
{
    let head = SetHead {
        properties: set_properties(mode),
        quants: 3,
        tile_size: 64,
        tiles: count,
        tile_bytes: texts.len() as u32,
    };
    let quants = [
        VideoQuant::new(&setting.y),
        VideoQuant::new(&setting.cb),
        VideoQuant::new(&setting.cr),
    ];
    let body = 6 + SetHead::SIZE + 3 * VideoQuant::SIZE + texts.len();
    put_frame(out, BlockType::TileSet.number(), body)?;
    out.append(&[1, 0, 0xC2, 0xCA, 0, 0])?;
    head.put(out)?;
    put_items(out, &quants)?;
    put_bytes(out, texts)?;
    Ok(())
}

/// Puts TS_RFX_FRAME_END at the end.
#[tactic(auto, unfolding(crate::specs::Message::end_text))]
fn put_end(out: &mut Bytes) -> Result<(), NoMemory>
    ensures { OnOk result (out.new ≡ out.old ++ end_text) }
{
    put_frame(out, BlockType::FrameEnd.number(), 2)?;
    out.append(&[1, 0])
}

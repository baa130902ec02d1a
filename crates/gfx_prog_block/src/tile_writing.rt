//! Tiles, put at the end of bytes.

ghost use Rattle.std.specs.Prelude.{◌≡◌, ◌+◌, ◌<◌, ◌^◌, length};
ghost use Rattle.std.specs.List.{AllByRecursion, flat_map, sum_by};
ghost use Rattle.gfx_layout.specs.Writing.{Puts};
ghost use Rattle.gfx_prog_block.specs.declared.tile.Tile.TheVariants as tiles;
ghost use Rattle.gfx_prog_block.specs.Fitting.{FirstPassFits, UpgradePassFits, IsSpellableTile};
ghost use Rattle.gfx_prog_block.specs.Spelling.{tile_body, tile_measure, tile_size, tile_text, first_text, upgrade_text};

use crate::frame::{FRAME, put_frame};
use crate::tile::{FirstPass, Tile, TileHead, UpgradePass};
use gfx_base::{Bytes, NoMemory};
use gfx_layout::{Part, put_bytes, put_items};

/// How many bytes of a simple tile's body stand before its data: head, flags and four lengths.
const SIMPLE: usize = TileHead::SIZE + u8::SIZE + 4 * u16::SIZE;

/// How many bytes of a first tile's body stand before its data: head, flags, quality and four lengths.
const FIRST: usize = SIMPLE + u8::SIZE;

/// How many bytes of an upgrade's body stand before its data: head, quality and six lengths.
const UPGRADE: usize = TileHead::SIZE + u8::SIZE + 6 * u16::SIZE;

/// How many bytes the data of a simple or first tile have.
fn first_data(pass: &FirstPass<'_>) -> usize
    requires { FirstPassFits pass.now }
    ensures { result ≡ length pass.now.y + length pass.now.cb + length pass.now.cr + length pass.now.tail }
{
    pass.y.as_slice().len()
        + pass.cb.as_slice().len()
        + pass.cr.as_slice().len()
        + pass.tail.as_slice().len()
}

/// How many bytes the data of an upgrade have.
fn upgrade_data(pass: &UpgradePass<'_>) -> usize
    requires { UpgradePassFits pass.now }
    ensures { result ≡ length pass.now.y_srl + length pass.now.y_raw + length pass.now.cb_srl + length pass.now.cb_raw + length pass.now.cr_srl + length pass.now.cr_raw }
{
    pass.y_srl.as_slice().len()
        + pass.y_raw.as_slice().len()
        + pass.cb_srl.as_slice().len()
        + pass.cb_raw.as_slice().len()
        + pass.cr_srl.as_slice().len()
        + pass.cr_raw.as_slice().len()
}

/// How many bytes a tile's body has.
#[tactic(auto, using(crate::proofs::WritingLaws::measures))]
fn measure(tile: &Tile<'_>) -> usize
    requires { IsSpellableTile tile.now }
    ensures value { result ≡ tile_measure tile.now }
    ensures short { result < 2 ^ 30 }
{
    match tile {
        Tile::Simple { pass, .. } => SIMPLE + first_data(pass),
        Tile::First { pass, .. } => FIRST + first_data(pass),
        Tile::Upgrade { pass, .. } => UPGRADE + upgrade_data(pass),
    }
}

/// How many bytes these tiles have together.
pub(crate) fn tiles_size(tiles: &[Tile<'_>]) -> usize
    requires fit { AllByRecursion IsSpellableTile tiles.now }
    requires short { sum_by tile_size tiles.now < 2 ^ 32 }
    ensures { result ≡ sum_by tile_size tiles.now }
{
    let mut size = 0;
    'tiles: for tile in tiles {
        size += FRAME + measure(tile);
    }
    size
}

/// Puts the data of a simple or first tile behind their four lengths.
#[tactic(auto, unfolding(crate::specs::Spelling::first_text, gfx_layout::specs::Shape::text))]
fn put_first_pass(out: &mut Bytes, pass: &FirstPass<'_>) -> Result<(), NoMemory>
    requires { FirstPassFits pass.now }
    ensures { Puts result out.old out.new (first_text pass.now) }
{
    let y = pass.y.as_slice();
    let cb = pass.cb.as_slice();
    let cr = pass.cr.as_slice();
    let tail = pass.tail.as_slice();
    let sizes = [
        y.len() as u16,
        cb.len() as u16,
        cr.len() as u16,
        tail.len() as u16,
    ];
    put_items(out, &sizes)?;
    put_bytes(out, y)?;
    put_bytes(out, cb)?;
    put_bytes(out, cr)?;
    put_bytes(out, tail)
}

/// Puts the data of an upgrade behind their six lengths.
fn put_upgrade_pass(out: &mut Bytes, pass: &UpgradePass<'_>) -> Result<(), NoMemory>
    requires { UpgradePassFits pass.now }
    ensures { Puts result out.old out.new (upgrade_text pass.now) }
{
    let y_srl = pass.y_srl.as_slice();
    let y_raw = pass.y_raw.as_slice();
    let cb_srl = pass.cb_srl.as_slice();
    let cb_raw = pass.cb_raw.as_slice();
    let cr_srl = pass.cr_srl.as_slice();
    let cr_raw = pass.cr_raw.as_slice();
    let sizes = [
        y_srl.len() as u16,
        y_raw.len() as u16,
        cb_srl.len() as u16,
        cb_raw.len() as u16,
        cr_srl.len() as u16,
        cr_raw.len() as u16,
    ];
    put_items(out, &sizes)?;
    put_bytes(out, y_srl)?;
    put_bytes(out, y_raw)?;
    put_bytes(out, cb_srl)?;
    put_bytes(out, cb_raw)?;
    put_bytes(out, cr_srl)?;
    put_bytes(out, cr_raw)?;
    Ok(())
}

/// Puts the body of RFX_PROGRESSIVE_TILE_SIMPLE at the end.
#[tactic(auto, unfolding(crate::specs::Spelling::tile_body, crate::specs::Spelling::first_text))]
fn put_simple(
    out: &mut Bytes,
    head: TileHead,
    flags: u8,
    pass: &FirstPass<'_>,
) -> Result<(), NoMemory>
    requires { FirstPassFits pass.now }
    ensures { Puts result out.old out.new (tile_body (tiles.Simple head flags pass.now)) }
{
    head.put(out)?;
    flags.put(out)?;
    put_first_pass(out, pass)?;
    Ok(())
}

/// Puts the body of RFX_PROGRESSIVE_TILE_FIRST at the end.
#[tactic(auto, unfolding(crate::specs::Spelling::tile_body, crate::specs::Spelling::first_text))]
fn put_first(
    out: &mut Bytes,
    head: TileHead,
    flags: u8,
    quality: u8,
    pass: &FirstPass<'_>,
) -> Result<(), NoMemory>
    requires { FirstPassFits pass.now }
    ensures { Puts result out.old out.new (tile_body (tiles.First head flags quality pass.now)) }
{
    head.put(out)?;
    flags.put(out)?;
    quality.put(out)?;
    put_first_pass(out, pass)?;
    Ok(())
}

/// Puts the body of RFX_PROGRESSIVE_TILE_UPGRADE at the end.
#[tactic(auto, unfolding(crate::specs::Spelling::tile_body, crate::specs::Spelling::upgrade_text))]
fn put_upgrade(
    out: &mut Bytes,
    head: TileHead,
    quality: u8,
    pass: &UpgradePass<'_>,
) -> Result<(), NoMemory>
    requires { UpgradePassFits pass.now }
    ensures { Puts result out.old out.new (tile_body (tiles.Upgrade head quality pass.now)) }
{
    head.put(out)?;
    quality.put(out)?;
    put_upgrade_pass(out, pass)?;
    Ok(())
}

/// Puts the body of a tile at the end.
fn put_body(out: &mut Bytes, tile: &Tile<'_>) -> Result<(), NoMemory>
    requires { IsSpellableTile tile.now }
    ensures { Puts result out.old out.new (tile_body tile.now) }
{
    match tile {
        Tile::Simple { head, flags, pass } => put_simple(out, *head, *flags, pass),
        Tile::First {
            head,
            flags,
            quality,
            pass,
        } => put_first(out, *head, *flags, *quality, pass),
        Tile::Upgrade {
            head,
            quality,
            pass,
        } => put_upgrade(out, *head, *quality, pass),
    }
}

/// Puts a tile at the end.
#[tactic(auto, unfolding(crate::specs::Spelling::tile_text))]
fn put_tile(out: &mut Bytes, tile: &Tile<'_>) -> Result<(), NoMemory>
    requires { IsSpellableTile tile.now }
    ensures { Puts result out.old out.new (tile_text tile.now) }
{
    put_frame(out, tile.kind().number(), measure(tile))?;
    put_body(out, tile)?;
    Ok(())
}

/// Puts tiles at the end, one after the other.
pub(crate) fn put_tiles(out: &mut Bytes, tiles: &[Tile<'_>]) -> Result<(), NoMemory>
    requires { AllByRecursion IsSpellableTile tiles.now }
    ensures { Puts result out.old out.new (flat_map tile_text tiles.now) }
{
    'tiles: for tile in tiles {
        put_tile(out, tile)?;
    }
    Ok(())
}

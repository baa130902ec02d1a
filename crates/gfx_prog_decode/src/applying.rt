//! The data of a message, applied block after block. Where a step gives no answer, the caller undoes the message.
ghost use Rattle.std.specs.Prelude.{◌≡◌, IfSome, IsTrue};
ghost use Rattle.std.specs.FinMap as finmap;
ghost use Rattle.gfx_base.specs.Outcome.{Applies, Gives, WantsOnlyIf};
ghost use Rattle.gfx_prog_block.specs.Reading.{begins_block};
ghost use Rattle.gfx_prog_decode.specs.Coding.{are_bases, begins_in};
ghost use Rattle.gfx_prog_decode.specs.Progressive.{after_block, after_first, after_message, after_region, after_tile, after_upgrade};
ghost use Rattle.gfx_prog_decode.specs.Scene.{in_turn, scene};
ghost use Rattle.gfx_prog_decode.specs.Showing.{shown_in};
ghost use Rattle.gfx_prog_decode.specs.Undo.{StaysUndoable, kept, nothing};

use crate::bench::Bench;
use crate::coding::{check_bases, shape_of};
use crate::improving::improve;
use crate::key::{Key, Place};
use crate::log::undo;
use crate::passing::check_start;
use crate::records::Records;
use crate::showing::show;
use crate::starting::start;
use gfx_base::Fault;
use gfx_prog_block::{
    Area, Block, DIFFERENCE, FirstPass, NO_QUALITY, Region, Tile, TileHead, UpgradePass,
    read_blocks,
};
use gfx_surface::Surface;
use std::alloc::Global;

/// Applies the data of a message. Any fault leaves records and surface as they were. Memory is wanted only where the first
/// block's frame and type are accepted.
pub(crate) fn apply_data(
    alloc: Global,
    records: &mut Records,
    surface: &mut Surface,
    place: Place,
    bytes: &[u8],
) -> Result<(), Fault>
    ensures value { Applies result (scene records.old surface.old) (scene records.new surface.new) (after_message place bytes.now (scene records.old surface.old)) }
    ensures memory { WantsOnlyIf result (begins_block bytes.now) }
{
    let blocks = read_blocks(alloc, bytes)?;
    if blocks.is_empty() {
        return Ok(());
    }
    apply_all(alloc, records, surface, place, blocks.as_slice())
}

/// Applies blocks, or none of them.
fn apply_all(
    alloc: Global,
    records: &mut Records,
    surface: &mut Surface,
    place: Place,
    blocks: &[Block<'_>],
) -> Result<(), Fault>
    ensures { Applies result (scene records.old surface.old) (scene records.new surface.new) (in_turn (after_block place) blocks.now (scene records.old surface.old)) }
{
    let mut bench = records.take_bench(alloc)?;
    let result = apply_whole(&mut bench, records, surface, place, blocks);
    records.give_back(bench);
    result
}

/// The same on a bench whose log is empty.
fn apply_whole(
    bench: &mut Bench,
    records: &mut Records,
    surface: &mut Surface,
    place: Place,
    blocks: &[Block<'_>],
) -> Result<(), Fault>
    requires { kept bench.old.log ≡ nothing }
    ensures { Applies result (scene records.old surface.old) (scene records.new surface.new) (in_turn (after_block place) blocks.now (scene records.old surface.old)) }
{
    match apply_blocks(bench, records, surface, place, blocks) {
        Ok(()) => Ok(()),
        Err(fault) => {
            undo(records, surface, &mut bench.log);
            Err(fault)
        }
    }
}

/// Applies blocks in turn.
fn apply_blocks(
    bench: &mut Bench,
    records: &mut Records,
    surface: &mut Surface,
    place: Place,
    blocks: &[Block<'_>],
) -> Result<(), Fault>
    ensures gives { Gives (λ _. scene records.new surface.new) result (in_turn (after_block place) blocks.now (scene records.old surface.old)) }
    ensures undo { StaysUndoable (kept bench.old.log) (scene records.old surface.old) (kept bench.new.log) (scene records.new surface.new) }
{
    'all: for block in blocks {
        apply_block(bench, records, surface, place, block)?;
    }
    Ok(())
}

/// Applies a block.
fn apply_block(
    bench: &mut Bench,
    records: &mut Records,
    surface: &mut Surface,
    place: Place,
    block: &Block<'_>,
) -> Result<(), Fault>
    ensures gives { Gives (λ _. scene records.new surface.new) result (after_block place block.now (scene records.old surface.old)) }
    ensures undo { StaysUndoable (kept bench.old.log) (scene records.old surface.old) (kept bench.new.log) (scene records.new surface.new) }
{
    match block {
        Block::Region(region) => apply_region(bench, records, surface, place, region),
        Block::Sync | Block::FrameBegin { .. } | Block::FrameEnd | Block::Context { .. } => Ok(()),
    }
}

/// Applies a region.
fn apply_region(
    bench: &mut Bench,
    records: &mut Records,
    surface: &mut Surface,
    place: Place,
    region: &Region<'_>,
) -> Result<(), Fault>
    ensures gives { Gives (λ _. scene records.new surface.new) result (after_region place region.now (scene records.old surface.old)) }
    ensures undo { StaysUndoable (kept bench.old.log) (scene records.old surface.old) (kept bench.new.log) (scene records.new surface.new) }
{
    check_bases(region.quants.as_slice())?;
    apply_tiles(
        bench,
        records,
        surface,
        place,
        region,
        region.tiles.as_slice(),
    )
}

/// Applies tiles of a region in turn.
fn apply_tiles(
    bench: &mut Bench,
    records: &mut Records,
    surface: &mut Surface,
    place: Place,
    region: &Region<'_>,
    tiles: &[Tile<'_>],
) -> Result<(), Fault>
    requires { IsTrue (are_bases region.now.quants) }
    ensures gives { Gives (λ _. scene records.new surface.new) result (in_turn (after_tile place region.now) tiles.now (scene records.old surface.old)) }
    ensures undo { StaysUndoable (kept bench.old.log) (scene records.old surface.old) (kept bench.new.log) (scene records.new surface.new) }
{
    'tiles: for tile in tiles {
        apply_tile(bench, records, surface, place, region, tile)?;
    }
    Ok(())
}

/// Applies a tile.
fn apply_tile(
    bench: &mut Bench,
    records: &mut Records,
    surface: &mut Surface,
    place: Place,
    region: &Region<'_>,
    tile: &Tile<'_>,
) -> Result<(), Fault>
    requires { IsTrue (are_bases region.now.quants) }
    ensures gives { Gives (λ _. scene records.new surface.new) result (after_tile place region.now tile.now (scene records.old surface.old)) }
    ensures undo { StaysUndoable (kept bench.old.log) (scene records.old surface.old) (kept bench.new.log) (scene records.new surface.new) }
{
    match tile {
        Tile::Simple { head, flags, pass } => apply_first(
            bench, records, surface, place, region, head, *flags, NO_QUALITY, pass,
        ),
        Tile::First {
            head,
            flags,
            quality,
            pass,
        } => apply_first(
            bench, records, surface, place, region, head, *flags, *quality, pass,
        ),
        Tile::Upgrade {
            head,
            quality,
            pass,
        } => apply_upgrade(bench, records, surface, place, region, head, *quality, pass),
    }
}

/// Applies a simple or first tile.
fn apply_first(
    bench: &mut Bench,
    records: &mut Records,
    surface: &mut Surface,
    place: Place,
    region: &Region<'_>,
    head: &TileHead,
    flags: u8,
    quality: u8,
    pass: &FirstPass<'_>,
) -> Result<(), Fault>
    requires { IsTrue (are_bases region.now.quants) }
    ensures gives { Gives (λ _. scene records.new surface.new) result (after_first place region.now head.now flags quality pass.now (scene records.old surface.old)) }
    ensures undo { StaysUndoable (kept bench.old.log) (scene records.old surface.old) (kept bench.new.log) (scene records.new surface.new) }
{
    let shape = shape_of(region, surface.size(), head, quality)?;
    let key = place.key(head);
    let difference = flags % 2 == DIFFERENCE;
    check_start(
        difference,
        records.get(key),
        records.count(),
        shape.transform,
    )?;
    start(bench, records, surface, key, difference, &shape, pass)?;
    show_record(bench, records, surface, key, region.rects.as_slice());
    Ok(())
}

/// Applies an upgrade tile.
fn apply_upgrade(
    bench: &mut Bench,
    records: &mut Records,
    surface: &mut Surface,
    place: Place,
    region: &Region<'_>,
    head: &TileHead,
    quality: u8,
    pass: &UpgradePass<'_>,
) -> Result<(), Fault>
    requires { IsTrue (are_bases region.now.quants) }
    ensures gives { Gives (λ _. scene records.new surface.new) result (after_upgrade place region.now head.now quality pass.now (scene records.old surface.old)) }
    ensures undo { StaysUndoable (kept bench.old.log) (scene records.old surface.old) (kept bench.new.log) (scene records.new surface.new) }
{
    let shape = shape_of(region, surface.size(), head, quality)?;
    let key = place.key(head);
    improve(bench, records, surface, key, &shape, pass)?;
    show_record(bench, records, surface, key, region.rects.as_slice());
    Ok(())
}

/// Draws the tile of a key's record.
fn show_record(
    bench: &mut Bench,
    records: &Records,
    surface: &mut Surface,
    key: Key,
    areas: &[Area],
)
    requires { IsTrue (begins_in surface.old.width surface.old.height key.x key.y) }
    ensures shown { IfSome (finmap.get records.now key) (λ tile. surface.new ≡ shown_in surface.old key areas.now tile) }
    ensures log { bench.new.log ≡ bench.old.log }
{
    if let Some(tile) = records.get(key) {
        show(tile, bench, surface, key, areas);
    }
}

//! Blocks, applied one after another, all or none of them.
ghost use Rattle.std.specs.Prelude.{◌≡◌, [], IsTrue, OnOk};
ghost use Rattle.gfx_base.specs.Geometry.{lies_in};
ghost use Rattle.gfx_base.specs.Outcome.{Applies, Gives};
ghost use Rattle.std.specs.Option.{ok_or};
ghost use Rattle.gfx_base.specs.declared.refusal.Refusal.TheVariants.{EntropyUnknown};
ghost use Rattle.gfx_rfx_video.specs.Inside.{IsCanvas};
ghost use Rattle.gfx_rfx_video.specs.Showing.{open_areas};
ghost use Rattle.gfx_rfx_video.specs.Tiles.{are_bases};
ghost use Rattle.gfx_rfx_video.specs.Undo.{StaysUndoable};
ghost use Rattle.gfx_rfx_video.specs.Video.{after_block, after_blocks, after_set, after_tile, entropy_of, in_turn, scene};

use crate::block::VideoBlock;
use crate::canvas::Canvas;
use crate::colours::colour;
use crate::planes::{check_bases, read_planes};
use crate::quants::VideoQuant;
use crate::set::TileSet;
use crate::showing::show;
use crate::tile::CodedTile;
use gfx_base::{Fault, Rect, Refusal};
use gfx_prog_block::Area;
use gfx_rlgr::Mode;
use gfx_surface::{CellLog, Surface};
use std::alloc::Global;

/// Applies blocks, or none of them. The log is empty, and is empty again behind them.
pub(crate) fn apply_whole(
    alloc: Global,
    surface: &mut Surface,
    canvas: &mut Canvas,
    log: &mut CellLog,
    rect: Rect,
    blocks: &[VideoBlock<'_>],
) -> Result<(), Fault>
    requires inside { IsTrue (lies_in surface.old.width surface.old.height rect) }
    requires canvas { IsCanvas canvas.old }
    requires empty { log.old.cells.items ≡ [] }
    ensures applies { Applies result surface.old surface.new (after_blocks rect blocks.now surface.old) }
    ensures empty { log.new.cells.items ≡ [] }
    ensures canvas { IsCanvas canvas.new }
{
    match apply_blocks(alloc, surface, canvas, log, rect, blocks) {
        Ok(()) => {
            log.spend();
            Ok(())
        }
        Err(fault) => {
            log.put_back(surface);
            Err(fault)
        }
    }
}

/// Applies blocks in turn.
fn apply_blocks(
    alloc: Global,
    surface: &mut Surface,
    canvas: &mut Canvas,
    log: &mut CellLog,
    rect: Rect,
    blocks: &[VideoBlock<'_>],
) -> Result<(), Fault>
    requires inside { IsTrue (lies_in surface.old.width surface.old.height rect) }
    requires canvas { IsCanvas canvas.old }
    ensures gives { Gives (λ _. surface.new) result (after_blocks rect blocks.now surface.old) }
    ensures undo { StaysUndoable log.old.cells.items surface.old log.new.cells.items surface.new }
    ensures canvas { IsCanvas canvas.new }
{
    let mut areas: &[Area] = &[];
    'all: for block in blocks {
        areas = apply_block(alloc, surface, canvas, log, rect, areas, block)?;
    }
    Ok(())
}

/// Applies a block, and gives the rectangles of the last region.
#[tactic(auto, unfolding(crate::specs::Video::painted, gfx_base::specs::Results::and_then))]
fn apply_block<'b>(
    alloc: Global,
    surface: &mut Surface,
    canvas: &mut Canvas,
    log: &mut CellLog,
    rect: Rect,
    areas: &'b [Area],
    block: &'b VideoBlock<'_>,
) -> Result<&'b [Area], Fault>
    requires inside { IsTrue (lies_in surface.old.width surface.old.height rect) }
    requires canvas { IsCanvas canvas.old }
    ensures gives { Gives (λ now. scene now.now surface.new) result (after_block rect block.now (scene areas.now surface.old)) }
    ensures undo { StaysUndoable log.old.cells.items surface.old log.new.cells.items surface.new }
    ensures inside { OnOk result (IsTrue (lies_in surface.new.width surface.new.height rect)) }
    ensures canvas { IsCanvas canvas.new }
{
    match block {
        VideoBlock::Region(region) => Ok(region.as_slice()),
        VideoBlock::TileSet(set) => {
            paint(alloc, surface, canvas, log, rect, areas, set)?;
            Ok(areas)
        }
        VideoBlock::Sync
        | VideoBlock::Versions
        | VideoBlock::Channels
        | VideoBlock::Context
        | VideoBlock::FrameBegin
        | VideoBlock::FrameEnd => Ok(areas),
    }
}

/// Applies a tile set, by the rectangles of the last region: where there are none, all of the message's is open.
fn paint(
    alloc: Global,
    surface: &mut Surface,
    canvas: &mut Canvas,
    log: &mut CellLog,
    rect: Rect,
    areas: &[Area],
    set: &TileSet<'_>,
) -> Result<(), Fault>
    requires inside { IsTrue (lies_in surface.old.width surface.old.height rect) }
    requires canvas { IsCanvas canvas.old }
    ensures gives { Gives (λ _. surface.new) result (after_set rect (open_areas rect areas.now) set.now surface.old) }
    ensures undo { StaysUndoable log.old.cells.items surface.old log.new.cells.items surface.new }
    ensures inside { OnOk result (IsTrue (lies_in surface.new.width surface.new.height rect)) }
    ensures canvas { IsCanvas canvas.new }
{
    if areas.is_empty() {
        let whole = [Area {
            x: 0,
            y: 0,
            width: rect.width(),
            height: rect.height(),
        }];
        apply_set(alloc, surface, canvas, log, rect, &whole, set)
    } else {
        apply_set(alloc, surface, canvas, log, rect, areas, set)
    }
}

/// The entropy coder that a tile set's properties name.
#[tactic(auto, unfolding(crate::specs::Video::entropy_of))]
fn entropy_of(properties: u16) -> Result<Mode, Refusal>
    ensures { result ≡ ok_or (entropy_of properties) EntropyUnknown }
{
    match properties / 1024 % 16 {
        1 => Ok(Mode::Rlgr1),
        4 => Ok(Mode::Rlgr3),
        _ => Err(Refusal::EntropyUnknown),
    }
}

/// Applies a tile set.
#[tactic(auto, unfolding(crate::specs::Video::after_set, gfx_base::specs::Results::and_then))]
fn apply_set(
    alloc: Global,
    surface: &mut Surface,
    canvas: &mut Canvas,
    log: &mut CellLog,
    rect: Rect,
    areas: &[Area],
    set: &TileSet<'_>,
) -> Result<(), Fault>
    requires inside { IsTrue (lies_in surface.old.width surface.old.height rect) }
    requires canvas { IsCanvas canvas.old }
    ensures gives { Gives (λ _. surface.new) result (after_set rect areas.now set.now surface.old) }
    ensures undo { StaysUndoable log.old.cells.items surface.old log.new.cells.items surface.new }
    ensures inside { OnOk result (IsTrue (lies_in surface.new.width surface.new.height rect)) }
    ensures canvas { IsCanvas canvas.new }
{
    let mode = entropy_of(set.properties)?;
    let quants = set.quants.as_slice();
    check_bases(quants)?;
    apply_tiles(
        alloc,
        surface,
        canvas,
        log,
        rect,
        mode,
        quants,
        areas,
        set.tiles.as_slice(),
    )
}

/// Applies tiles in turn.
fn apply_tiles(
    alloc: Global,
    surface: &mut Surface,
    canvas: &mut Canvas,
    log: &mut CellLog,
    rect: Rect,
    mode: Mode,
    quants: &[VideoQuant],
    areas: &[Area],
    tiles: &[CodedTile<'_>],
) -> Result<(), Fault>
    requires inside { IsTrue (lies_in surface.old.width surface.old.height rect) }
    requires canvas { IsCanvas canvas.old }
    requires bases { IsTrue (are_bases quants.now) }
    ensures gives { Gives (λ _. surface.new) result (in_turn (after_tile rect mode quants.now areas.now) tiles.now surface.old) }
    ensures undo { StaysUndoable log.old.cells.items surface.old log.new.cells.items surface.new }
    ensures inside { OnOk result (IsTrue (lies_in surface.new.width surface.new.height rect)) }
    ensures canvas { IsCanvas canvas.new }
{
    'tiles: for tile in tiles {
        apply_tile(alloc, surface, canvas, log, rect, mode, quants, areas, tile)?;
    }
    Ok(())
}

/// Applies a tile.
fn apply_tile(
    alloc: Global,
    surface: &mut Surface,
    canvas: &mut Canvas,
    log: &mut CellLog,
    rect: Rect,
    mode: Mode,
    quants: &[VideoQuant],
    areas: &[Area],
    tile: &CodedTile<'_>,
) -> Result<(), Fault>
    requires inside { IsTrue (lies_in surface.old.width surface.old.height rect) }
    requires canvas { IsCanvas canvas.old }
    requires bases { IsTrue (are_bases quants.now) }
    ensures gives { Gives (λ _. surface.new) result (after_tile rect mode quants.now areas.now tile.now surface.old) }
    ensures undo { StaysUndoable log.old.cells.items surface.old log.new.cells.items surface.new }
    ensures inside { OnOk result (IsTrue (lies_in surface.new.width surface.new.height rect)) }
    ensures canvas { IsCanvas canvas.new }
{
    read_planes(mode, quants, tile, &mut canvas.values, &mut canvas.planes)?;
    colour(&canvas.planes, &mut canvas.samples, &mut canvas.pixels);
    show(
        alloc,
        log,
        &mut canvas.surface,
        &canvas.pixels,
        surface,
        rect,
        areas,
        &tile.head,
    )?;
    Ok(())
}

//! Upgrades of records, with their cells kept before.
ghost use Rattle.std.specs.Prelude.{IsTrue, OnErr, OnOk};
ghost use Rattle.std.specs.FinMap as finmap;
ghost use Rattle.std.specs.Option.{option_copied};
ghost use Rattle.gfx_base.specs.Outcome.{Says};
ghost use Rattle.gfx_prog_decode.specs.Coding.{begins_in};
ghost use Rattle.gfx_prog_decode.specs.Inside.{Starts, coding_seen, improved_in};
ghost use Rattle.gfx_prog_decode.specs.Scene.{scene};
ghost use Rattle.gfx_prog_decode.specs.Undo.{Keeps, StaysUndoable, kept};
ghost use Rattle.gfx_surface.specs.Picture.{IsPicture};

use crate::bench::Bench;
use crate::key::Key;
use crate::log::exchange;
use crate::passing::improve_tile;
use crate::records::Records;
use gfx_base::{Fault, Refusal};
use gfx_prog_block::UpgradePass;
use gfx_surface::Surface;
use gfx_tile_state::{PassShape, Scratch, TileState};

/// An upgrade of a key's record. What it makes is another record, which takes its place.
pub(crate) fn improve(
    bench: &mut Bench,
    records: &mut Records,
    surface: &Surface,
    key: Key,
    shape: &PassShape,
    pass: &UpgradePass<'_>,
) -> Result<(), Fault>
    requires shape { IsPicture surface.now }
    requires begins { IsTrue (begins_in surface.now.width surface.now.height key.x key.y) }
    ensures starts { Starts result (improved_in (coding_seen shape.now) pass.now (finmap.get records.old key)) key records.old records.new }
    ensures keeps { OnOk result (Keeps key (scene records.old surface.now) (kept bench.old.log) (kept bench.new.log)) }
    ensures undo { OnErr result (StaysUndoable (kept bench.old.log) (scene records.old surface.now) (kept bench.new.log) (scene records.new surface.now)) }
{
    let mut tile = bench.log.tile(bench.alloc)?;
    improve_found(&mut tile, records.get(key), shape, pass, &mut bench.scratch)?;
    exchange(bench.alloc, &mut bench.log, records, surface, key, tile)?;
    Ok(())
}

/// An upgrade of a record, if there is one.
#[tactic(auto, unfolding(gfx_base::specs::Results::and_then))]
fn improve_found(
    tile: &mut TileState,
    before: Option<&TileState>,
    shape: &PassShape,
    pass: &UpgradePass<'_>,
    scratch: &mut Scratch,
) -> Result<(), Refusal>
    ensures { Says (λ _. tile.new) result (improved_in (coding_seen shape.now) pass.now (option_copied before.entry)) }
{
    match before {
        Some(before) => improve_tile(tile, before, shape, pass, scratch),
        None => Err(Refusal::NoFirstPass),
    }
}

//! First passes of records, with their cells kept before.
ghost use Rattle.std.specs.Prelude.{◌≡◌, IfSome, IsSomeAnd, IsTrue, OnErr, OnOk, false, true};
ghost use Rattle.std.specs.FinMap as finmap;
ghost use Rattle.gfx_prog_decode.specs.Coding.{begins_in};
ghost use Rattle.gfx_prog_decode.specs.Inside.{Passes, Starts, coding_seen};
ghost use Rattle.gfx_prog_decode.specs.Passes.{start_of, started};
ghost use Rattle.gfx_prog_decode.specs.Scene.{scene};
ghost use Rattle.gfx_prog_decode.specs.Undo.{Keeps, StaysUndoable, kept};
ghost use Rattle.gfx_surface.specs.Picture.{IsPicture};
ghost use Rattle.gfx_tile_state.specs.Record.{fits_transform};

use crate::bench::Bench;
use crate::key::Key;
use crate::log::{exchange, keep};
use crate::passing::start_tile;
use crate::records::Records;
use gfx_base::{Fault, Refusal};
use gfx_prog_block::FirstPass;
use gfx_surface::Surface;
use gfx_tile_state::{PassShape, Scratch};

/// A first pass of a key's record, plain or over what it shows.
pub(crate) fn start(
    bench: &mut Bench,
    records: &mut Records,
    surface: &Surface,
    key: Key,
    difference: bool,
    shape: &PassShape,
    pass: &FirstPass<'_>,
) -> Result<(), Fault>
    requires shape { IsPicture surface.now }
    requires begins { IsTrue (begins_in surface.now.width surface.now.height key.x key.y) }
    requires fits { difference ≡ true → fits_transform (start_of (finmap.get records.old key)).transform shape.now.transform ≡ true }
    ensures starts { Starts result (started difference (coding_seen shape.now) pass.now (start_of (finmap.get records.old key))) key records.old records.new }
    ensures keeps { OnOk result (Keeps key (scene records.old surface.now) (kept bench.old.log) (kept bench.new.log)) }
    ensures undo { OnErr result (StaysUndoable (kept bench.old.log) (scene records.old surface.now) (kept bench.new.log) (scene records.new surface.now)) }
{
    if difference {
        start_over(bench, records, surface, key, shape, pass)
    } else {
        start_anew(bench, records, surface, key, shape, pass)
    }
}

/// A first pass over what the record shows.
fn start_over(
    bench: &mut Bench,
    records: &mut Records,
    surface: &Surface,
    key: Key,
    shape: &PassShape,
    pass: &FirstPass<'_>,
) -> Result<(), Fault>
    requires shape { IsPicture surface.now }
    requires begins { IsTrue (begins_in surface.now.width surface.now.height key.x key.y) }
    requires fits { IsTrue (fits_transform (start_of (finmap.get records.old key)).transform shape.now.transform) }
    ensures starts { Starts result (started true (coding_seen shape.now) pass.now (start_of (finmap.get records.old key))) key records.old records.new }
    ensures keeps { OnOk result (Keeps key (scene records.old surface.now) (kept bench.old.log) (kept bench.new.log)) }
    ensures undo { OnErr result (StaysUndoable (kept bench.old.log) (scene records.old surface.now) (kept bench.new.log) (scene records.new surface.now)) }
{
    keep(bench.alloc, &mut bench.log, records, surface, key)?;
    records.begin(bench.alloc, key)?;
    start_record(records, key, shape, pass, &mut bench.scratch)?;
    Ok(())
}

/// A plain first pass. What the record was doesn't count, so another is made and takes its place.
fn start_anew(
    bench: &mut Bench,
    records: &mut Records,
    surface: &Surface,
    key: Key,
    shape: &PassShape,
    pass: &FirstPass<'_>,
) -> Result<(), Fault>
    requires shape { IsPicture surface.now }
    requires begins { IsTrue (begins_in surface.now.width surface.now.height key.x key.y) }
    ensures starts { Starts result (started false (coding_seen shape.now) pass.now (start_of (finmap.get records.old key))) key records.old records.new }
    ensures keeps { OnOk result (Keeps key (scene records.old surface.now) (kept bench.old.log) (kept bench.new.log)) }
    ensures undo { OnErr result (StaysUndoable (kept bench.old.log) (scene records.old surface.now) (kept bench.new.log) (scene records.new surface.now)) }
{
    let mut tile = bench.log.tile(bench.alloc)?;
    start_tile(&mut tile, false, shape, pass, &mut bench.scratch)?;
    exchange(bench.alloc, &mut bench.log, records, surface, key, tile)?;
    Ok(())
}

/// A difference pass of a key's record.
fn start_record(
    records: &mut Records,
    key: Key,
    shape: &PassShape,
    pass: &FirstPass<'_>,
    scratch: &mut Scratch,
) -> Result<(), Refusal>
    requires { IsSomeAnd (finmap.get records.old key) (λ tile. IsTrue (fits_transform tile.transform shape.now.transform)) }
    ensures { IfSome (finmap.get records.old key) (λ tile. Passes result (started true (coding_seen shape.now) pass.now tile) key records.old records.new) }
{
    match records.get_mut(key) {
        Some(tile) => start_tile(tile, true, shape, pass, scratch),
        None => Ok(()),
    }
}

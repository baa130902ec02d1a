//! Passes over the record of a tile, component after component.
ghost use Rattle.std.specs.Prelude.{◌≡◌, ℕ, true, OnOk, Some};
ghost use Rattle.std.specs.Option.{option_copied};
ghost use Rattle.gfx_base.specs.Outcome.{Says};
ghost use Rattle.gfx_prog_decode.specs.Inside.{coding_seen};
ghost use Rattle.gfx_prog_decode.specs.Passes.{improved, kept_of, may_start, started};
ghost use Rattle.gfx_tile_state.specs.Record.{StartsIn, fits_transform, part_of};

use crate::MOST_RECORDS;
use gfx_base::Refusal;
use gfx_dwt::Transform;
use gfx_prog_block::{FirstPass, UpgradePass};
use gfx_quant::Component;
use gfx_tile_state::{PassShape, Scratch, TileState};

/// Whether a first pass may begin, of so many records.
#[tactic(auto, unfolding(crate::specs::Passes::may_start, gfx_base::specs::Results::and_then))]
pub(crate) fn check_start(
    difference: bool,
    old: Option<&TileState>,
    count: usize,
    transform: Transform,
) -> Result<(), Refusal>
    ensures { result ≡ may_start difference (option_copied old.entry) count transform }
{
    match old {
        Some(tile) => check_old(difference, tile, transform),
        None => {
            if count < MOST_RECORDS {
                Ok(())
            } else {
                Err(Refusal::TileBudget)
            }
        }
    }
}

/// The same over a record.
fn check_old(difference: bool, tile: &TileState, transform: Transform) -> Result<(), Refusal>
    ensures { (count : ℕ) → result ≡ may_start difference (Some tile.now) count transform }
{
    if difference {
        tile.may_add(transform)
    } else {
        Ok(())
    }
}

/// A first pass of one component, plain or over what it shows.
fn start_part(
    tile: &mut TileState,
    difference: bool,
    component: Component,
    bytes: &[u8],
    shape: &PassShape,
    scratch: &mut Scratch,
) -> Result<(), Refusal>
    requires { difference ≡ true → fits_transform tile.old.transform shape.now.transform ≡ true }
    ensures part { StartsIn result component bytes.now shape.now (kept_of difference (part_of tile.old component)) tile.old tile.new }
    ensures ok { OnOk result (tile.new.transform ≡ Some shape.now.transform) }
{
    if difference {
        tile.add(component, bytes, shape)
    } else {
        tile.first(component, bytes, shape, scratch)
    }
}

/// A first pass of all components.
pub(crate) fn start_tile(
    tile: &mut TileState,
    difference: bool,
    shape: &PassShape,
    pass: &FirstPass<'_>,
    scratch: &mut Scratch,
) -> Result<(), Refusal>
    requires { difference ≡ true → fits_transform tile.old.transform shape.now.transform ≡ true }
    ensures { Says (λ _. tile.new) result (started difference (coding_seen shape.now) pass.now tile.old) }
{
    let (y, cb, cr) = (pass.y.as_slice(), pass.cb.as_slice(), pass.cr.as_slice());
    start_part(tile, difference, Component::Y, y, shape, scratch)?;
    start_part(tile, difference, Component::Cb, cb, shape, scratch)?;
    start_part(tile, difference, Component::Cr, cr, shape, scratch)
}

/// An upgrade of all components of a record, where one may follow. What it makes is another record.
pub(crate) fn improve_tile(
    tile: &mut TileState,
    before: &TileState,
    shape: &PassShape,
    pass: &UpgradePass<'_>,
    scratch: &mut Scratch,
) -> Result<(), Refusal>
    ensures { Says (λ _. tile.new) result (improved (coding_seen shape.now) pass.now before.now) }
{
    before.may_upgrade(shape)?;
    let (y_srl, y_raw) = (pass.y_srl.as_slice(), pass.y_raw.as_slice());
    tile.upgrade_from(before, Component::Y, y_srl, y_raw, shape, scratch)?;
    let (cb_srl, cb_raw) = (pass.cb_srl.as_slice(), pass.cb_raw.as_slice());
    tile.upgrade_from(before, Component::Cb, cb_srl, cb_raw, shape, scratch)?;
    let (cr_srl, cr_raw) = (pass.cr_srl.as_slice(), pass.cr_raw.as_slice());
    tile.upgrade_from(before, Component::Cr, cr_srl, cr_raw, shape, scratch)
}

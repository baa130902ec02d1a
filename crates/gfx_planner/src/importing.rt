//! The choice of slots of a session that begins with bitmaps.

ghost use Rattle.std.specs.Prelude.{◌≡◌, [], Ok, IsOk, OnOk};
ghost use Rattle.gfx_import.specs.Imported.{imported};
ghost use Rattle.gfx_script.specs.Starting.{starts_of, stock_with};
ghost use Rattle.gfx_slot_plan.specs.declared.kept.Kept.{Kept as Choice};
ghost use Rattle.gfx_slot_plan.specs.Plan.{keeps, plan};

use gfx_base::{Fault, NoMemory};
use gfx_import::{Kept, imported_at, imported_count};
use gfx_slot_plan::SlotPlan;
use std::alloc::Global;

/// Keeps a key that a slot and room are left for.
fn keep_key(
    alloc: Global,
    slots: &mut SlotPlan,
    key: u64,
    width: u16,
    height: u16,
) -> Result<(), NoMemory>
    requires { IsOk (keeps slots.old key width height) }
    ensures { OnOk result ((choice : Choice) × (keeps slots.old key width height ≡ Ok (slots.new, choice))) }
{
    match slots.keep(alloc, key, width, height) {
        Ok(_) => Ok(()),
        Err(Fault::Memory) => Err(NoMemory),
        Err(Fault::Refused(_)) => unreachable!(),
    }
}

/// Keeps the keys that are imported of two files, one after another, where none is kept: they get slots 1, 2 and so
/// on, and the last is the most recently used.
pub(crate) fn keep_imported(
    alloc: Global,
    slots: &mut SlotPlan,
    server: &Kept,
    client: &Kept,
    small: bool,
) -> Result<(), NoMemory>
    requires { slots.old ≡ plan [] small }
    ensures { OnOk result (slots.new ≡ (stock_with (starts_of (imported server.now client.now small)) small).plan) }
{
    let count = imported_count(server, client, small);
    'keys: for place in 0..count {
        let Some((key, bitmap)) = imported_at(server, client, place) else {
            unreachable!()
        };
        keep_key(alloc, slots, key, bitmap.width, bitmap.height)?;
    }
    Ok(())
}

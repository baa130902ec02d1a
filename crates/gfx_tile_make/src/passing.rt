ghost use Rattle.std.specs.Prelude.{◌≡◌, ◌<◌, ◌≤◌, ℕ, List, ℤ, IfOk, OnOk, length};
ghost use Rattle.gfx_dwt.specs.declared.layout.Band.{Band};
ghost use Rattle.gfx_dwt.specs.Ranges.{AllWithin};
ghost use Rattle.gfx_tile_state.specs.Entries.{Pass as Upgrade, is_low};
ghost use Rattle.gfx_tile_state.specs.Shape.{AreAtMost, AreBelow};
ghost use Rattle.gfx_tile_make.specs.Upgrade.{AreData, entries_of};
ghost use Rattle.gfx_tile_make.specs.Writing.{AreDue, HasPassed, upgrade_by};

use crate::data::Pass;
use crate::entry::{Writers, write_entry};
use gfx_base::NoMemory;
use gfx_bits::BitWriter;
use gfx_dwt::Transform;
use gfx_quant::{band_size, band_start, nth_band};
use gfx_srl::SrlWriter;
use std::alloc::Global;

/// The number of the band LL3, whose numbers have no sign.
const LOW: usize = 9;

/// Writes what the values from one place to before another gain, all of one band.
#[inline(always)]
fn write_places(
    writers: &mut Writers,
    values: &[i32; 4096],
    from: usize,
    to: usize,
    before: u8,
    behind: u8,
    low: bool,
) -> Result<(), NoMemory>
    requires order { from ≤ to }
    requires end { to ≤ 4096 }
    requires falls { behind < before }
    requires few { before ≤ 15 }
    requires small { AllWithin 65535 values.now }
    ensures { OnOk result ((pass : Upgrade) (entries : List ℤ) (band : Band) → low ≡ is_low band → AreDue pass entries values.now band before behind from to → HasPassed pass entries from writers.old → HasPassed pass entries to writers.new) }
{
    for place in from..to {
        write_entry(writers, values[place], before, behind, low)?;
    }
    Ok(())
}

/// The same where no more bits may be sent: nothing is written then.
#[inline(always)]
fn write_band(
    writers: &mut Writers,
    values: &[i32; 4096],
    from: usize,
    to: usize,
    before: u8,
    behind: u8,
    low: bool,
) -> Result<(), NoMemory>
    requires order { from ≤ to }
    requires end { to ≤ 4096 }
    requires falls { behind ≤ before }
    requires few { before ≤ 15 }
    requires small { AllWithin 65535 values.now }
    ensures { OnOk result ((pass : Upgrade) (entries : List ℤ) (band : Band) → low ≡ is_low band → AreDue pass entries values.now band before behind from to → HasPassed pass entries from writers.old → HasPassed pass entries to writers.new) }
{
    if before == behind {
        return Ok(());
    }
    write_places(writers, values, from, to, before, behind, low)
}

/// Writes what a component's values gain, band after band.
fn write_plane(
    writers: &mut Writers,
    values: &[i32; 4096],
    transform: Transform,
    before: &[u8; 10],
    behind: &[u8; 10],
) -> Result<(), NoMemory>
    requires falls { AreBelow behind.now before.now }
    requires few { AreAtMost 15 before.now }
    requires small { AllWithin 65535 values.now }
    ensures { OnOk result ((base : List ℕ) → HasPassed (upgrade_by transform base before.now behind.now values.now) (entries_of transform before.now behind.now values.now) 0 writers.old → HasPassed (upgrade_by transform base before.now behind.now values.now) (entries_of transform before.now behind.now values.now) 4096 writers.new) }
{
    for index in 0..10 {
        let band = nth_band(index);
        let start = band_start(transform, band);
        write_band(
            writers,
            values,
            start,
            start + band_size(transform, band),
            before[index],
            behind[index],
            index == LOW,
        )?;
    }
    Ok(())
}

/// Both data of what a component's values gain where so many of their low bits were left out, and
/// then fewer.
pub(crate) fn write_pass(
    alloc: Global,
    values: &[i32; 4096],
    transform: Transform,
    before: &[u8; 10],
    behind: &[u8; 10],
) -> Result<Pass, NoMemory>
    requires falls { AreBelow behind.now before.now }
    requires few { AreAtMost 15 before.now }
    requires small { AllWithin 65535 values.now }
    ensures { IfOk result (λ pass. (base : List ℕ) → AreData (upgrade_by transform base before.now behind.now values.now) (entries_of transform before.now behind.now values.now) pass.srl pass.raw) }
{
    let mut writers = Writers {
        srl: SrlWriter::new(alloc),
        bits: BitWriter::new(alloc),
    };
    write_plane(&mut writers, values, transform, before, behind)?;
    finish(writers)
}

/// What was written, as bytes.
fn finish(writers: Writers) -> Result<Pass, NoMemory>
    ensures { IfOk result (λ pass. (upgrade : Upgrade) (entries : List ℤ) → length entries ≡ 4096 → HasPassed upgrade entries 4096 writers → AreData upgrade entries pass.srl pass.raw) }
{
    let Writers { srl, bits } = writers;
    let srl = srl.finish()?;
    match bits.finish() {
        Ok(raw) => Ok(Pass {
            srl,
            raw: gfx_base::Bytes::from_vec(raw),
        }),
        Err(_) => Err(NoMemory),
    }
}

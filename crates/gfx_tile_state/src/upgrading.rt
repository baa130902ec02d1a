//! Upgrades of a component's sums: from their bit positions to lower ones, band by band ([MS-RDPEGFX] 3.2.8.1.5.2).

ghost use Rattle.std.specs.Prelude.{◌≤◌, ◌<◌, ◌+◌, ◌-◌, ℤ, Bool, true, false, ◌&&◌, List};
ghost use Rattle.gfx_bits.specs.Bits.{number};
ghost use Rattle.gfx_dwt.specs.Ranges.{AllCoefficients};
ghost use Rattle.gfx_tile_state.specs.declared.entries.Readers.{Readers};
ghost use Rattle.gfx_tile_state.specs.Entries.{AreAlike, Pass, Upgraded, pass_of};
ghost use Rattle.gfx_tile_state.specs.Shape.{AreAtMost, AreWithin, AreBelow};

mod adding;
mod noughts;
mod others;
mod sifting;

use crate::entries::{Readers, read_raw};
use adding::add_entry;
use gfx_dwt::Transform;
use gfx_quant::{band_size, band_start, nth_band};
use noughts::upgrade_noughts;
use others::upgrade_others;
use sifting::sift;

/// The number of the band LL3, whose numbers have no sign.
const LOW: usize = 9;

/// Upgrades the places from one to before another, all of LL3, and says whether all sums stay in the range of a
/// coefficient.
#[inline(always)]
fn upgrade_low(
    plane: &mut [i16; 4096],
    from: usize,
    to: usize,
    n: u8,
    position: u8,
    readers: &mut Readers<'_>,
) -> bool
    requires order { from ≤ to }
    requires end { to ≤ 4096 }
    requires some { 1 ≤ n }
    requires few { n ≤ 24 }
    requires least { 1 ≤ position }
    requires most { position ≤ 30 }
    requires coefficients { AllCoefficients plane.old }
    ensures upgraded { (pass : Pass) (fits : Bool) → AreAlike pass from to n position true → Upgraded pass from plane.old fits readers.old → Upgraded pass to plane.new (fits && result) readers.new }
    ensures coefficients { AllCoefficients plane.new }
{
    let mut fits = true;
    for place in from..to {
        let entry = read_raw(readers, plane[place], n, true);
        fits &= add_entry(plane, place, entry, position);
    }
    fits
}

/// Two lists of places of a band.
#[derive(Drop)]
pub struct Lists {
    noughts: [u16; 1024],
    others: [u16; 1024],
}

impl Lists {
    /// Lists, for any number of bands.
    pub fn new() -> Self {
        Lists {
            noughts: [0; 1024],
            others: [0; 1024],
        }
    }
}

/// Upgrades the places from one to before another, all of one band with signs, and says whether all sums stay in the
/// range of a coefficient. The raw numbers and the values that are coded are read apart, each for a list of places.
#[inline(always)]
fn upgrade_signed(
    plane: &mut [i16; 4096],
    from: usize,
    to: usize,
    n: u8,
    position: u8,
    lists: &mut Lists,
    readers: &mut Readers<'_>,
) -> bool
    requires order { from ≤ to }
    requires end { to ≤ 4096 }
    requires room { to ≤ from + 1024 }
    requires some { 1 ≤ n }
    requires few { n ≤ 24 }
    requires least { 1 ≤ position }
    requires most { position ≤ 30 }
    requires coefficients { AllCoefficients plane.old }
    ensures upgraded { (pass : Pass) (fits : Bool) → AreAlike pass from to n position false → Upgraded pass from plane.old fits readers.old → Upgraded pass to plane.new (fits && result) readers.new }
    ensures coefficients { AllCoefficients plane.new }
{
    let count = sift(plane, from, to, &mut lists.noughts, &mut lists.others);
    let others_fit = upgrade_others(
        plane,
        &lists.others,
        to - from - count,
        n,
        position,
        readers,
    );
    let noughts_fit = upgrade_noughts(plane, &lists.noughts, count, n, position, readers);
    others_fit & noughts_fit
}

/// Upgrades the places of a band, whose position may also stay: nothing is read then.
#[inline(always)]
fn upgrade_band(
    plane: &mut [i16; 4096],
    from: usize,
    to: usize,
    n: u8,
    position: u8,
    low: bool,
    lists: &mut Lists,
    readers: &mut Readers<'_>,
) -> bool
    requires order { from ≤ to }
    requires end { to ≤ 4096 }
    requires room { to ≤ from + 1024 }
    requires few { n ≤ 24 }
    requires least { 1 ≤ position }
    requires most { position ≤ 30 }
    requires coefficients { AllCoefficients plane.old }
    ensures upgraded { (pass : Pass) (fits : Bool) → AreAlike pass from to n position low → Upgraded pass from plane.old fits readers.old → Upgraded pass to plane.new (fits && result) readers.new }
    ensures coefficients { AllCoefficients plane.new }
{
    if n == 0 {
        return true;
    }
    if low {
        return upgrade_low(plane, from, to, n, position, readers);
    }
    upgrade_signed(plane, from, to, n, position, lists, readers)
}

/// Upgrades a component's sums from their positions to new ones, and says whether all stay in the
/// range of a coefficient.
pub(crate) fn upgrade_plane(
    plane: &mut [i16; 4096],
    transform: Transform,
    before: &[u8; 10],
    behind: &[u8; 10],
    lists: &mut Lists,
    readers: &mut Readers<'_>,
) -> bool
    requires before { AreAtMost 30 before.now }
    requires positions { AreWithin 6 30 behind.now }
    requires falls { AreBelow behind.now before.now }
    requires coefficients { AllCoefficients plane.old }
    ensures upgraded { (sums : List ℤ) (srl raw : List Bool) → Upgraded (pass_of transform before.now behind.now sums srl raw) 0 plane.old true readers.old
        → Upgraded (pass_of transform before.now behind.now sums srl raw) 4096 plane.new result readers.new }
    ensures coefficients { AllCoefficients plane.new }
{
    let mut fits = true;
    for index in 0..10 {
        let band = nth_band(index);
        let start = band_start(transform, band);
        fits &= upgrade_band(
            plane,
            start,
            start + band_size(transform, band),
            before[index] - behind[index],
            behind[index],
            index == LOW,
            lists,
            readers,
        );
    }
    fits
}

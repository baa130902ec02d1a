ghost use Rattle.std.specs.Prelude.{◌≡◌, ◌<◌, ◌≤◌, ◌+◌, ◌-◌, ◌^◌, ◌*◌, ℕ, List, ℤ, pos, ◌+ℤ◌, ◌*ℤ◌, MatchBool, true, ◌&&◌, length};
ghost use Rattle.gfx_dwt.specs.Ranges.{AllWithin, Within};
ghost use Rattle.gfx_quant.specs.Coefficient.{coefficient_of, is_coefficient, truncated};
ghost use Rattle.gfx_quant.specs.Quant.{value_of};
ghost use Rattle.gfx_quant.specs.Setting.{left_out};
ghost use Rattle.gfx_tile_state.specs.Shape.{AreAtMost, AreWithin};
ghost use Rattle.gfx_tile_make.specs.Planes.{less};
ghost use Rattle.gfx_tile_make.specs.Fitting.{BandFits, BandLeaves, LevelsFit, LevelsLeave, PlaneFits, PlaneLeaves, StayWithin, fits_at};

use crate::levels::left_out;
use crate::planes::subtract;
use gfx_dwt::{Band, Transform};
use gfx_quant::{Component, Level, band_size, band_start, nth_band, truncate};

/// What a value is multiplied by at a bit position.
#[inline(always)]
fn weight(position: u8) -> i32
    requires low { 1 ≤ position }
    requires high { position ≤ 15 }
    ensures value { result ≡ pos (2 ^ (position - 1)) }
    ensures small { Within 16384 result }
{
    1 << (position - 1)
}

#[inline(always)]
fn weighed(value: i32, weight: i32) -> i32
    requires value { Within 65535 value }
    requires weight { Within 16384 weight }
    ensures value { result ≡ value *ℤ weight }
    ensures small { Within 1073725440 result }
{
    value * weight
}

#[inline(always)]
fn kept_weighed(kept: i16, weight: i32) -> i32
    requires weight { Within 16384 weight }
    ensures value { result ≡ kept *ℤ weight }
    ensures small { Within 536870912 result }
{
    i32::from(kept) * weight
}

#[inline(always)]
fn is_small(number: i32) -> bool
    ensures { result ≡ is_coefficient number }
{
    -32768 <= number && number <= 32767
}

/// Whether a sum, and what it makes of the kept plane, are in the range of a coefficient.
#[inline(always)]
fn both_small(kept: i32, sum: i32) -> bool
    requires kept { Within 536870912 kept }
    requires sum { Within 1073725440 sum }
    ensures { result ≡ (is_coefficient sum && is_coefficient (kept +ℤ sum)) }
{
    is_small(sum) & is_small(kept + sum)
}

/// Whether a value fits at a level.
#[inline(always)]
#[tactic(auto, unfolding(crate::specs::Fitting::fits_at))]
fn place_fits(kept: i16, value: i32, band: Band, base: u8, level: u8) -> bool
    requires low { 1 ≤ base }
    requires high { base + level ≤ 15 }
    requires value { Within 65535 value }
    ensures { result ≡ fits_at band base level kept value }
{
    let sum = sum_of(value, band, base, level);
    both_small(kept_weighed(kept, weight(base)), sum)
}

/// The sum of a value at a level.
#[inline(always)]
fn sum_of(value: i32, band: Band, base: u8, level: u8) -> i32
    requires low { 1 ≤ base }
    requires high { base + level ≤ 15 }
    requires value { Within 65535 value }
    ensures value { result ≡ coefficient_of (truncated band value level) (base + level) }
    ensures small { Within 1073725440 result }
{
    weighed(without(value, level, band), weight(base + level))
}

/// A value without the low bits that a level leaves out.
#[inline(always)]
fn without(value: i32, level: u8, band: Band) -> i32
    requires few { level ≤ 15 }
    requires value { Within 65535 value }
    ensures value { result ≡ truncated band value level }
    ensures small { Within 65535 result }
{
    truncate(value, level, band)
}

/// Whether the values from one place to before another, all of one band, fit at a level.
#[inline(always)]
fn band_fits(
    kept: &[i16],
    values: &[i32; 4096],
    from: usize,
    to: usize,
    band: Band,
    base: u8,
    level: u8,
) -> bool
    requires whole { length kept.now ≡ 4096 }
    requires order { from ≤ to }
    requires end { to ≤ 4096 }
    requires low { 1 ≤ base }
    requires high { base + level ≤ 15 }
    requires values { AllWithin 65535 values.now }
    ensures { MatchBool result (BandFits band base level kept.now values.now from to) (BandLeaves band base level kept.now values.now from to) }
{
    let mut fits = true;
    for place in from..to {
        fits &= place_fits(kept[place], values[place], band, base, level);
    }
    fits
}

/// Whether a component fits at a level.
fn plane_fits(
    kept: &[i16],
    values: &[i32; 4096],
    transform: Transform,
    base: &[u8; 10],
    level: &[u8; 10],
) -> bool
    requires whole { length kept.now ≡ 4096 }
    requires low { AreWithin 1 15 base.now }
    requires high { StayWithin 15 base.now level.now }
    requires values { AllWithin 65535 values.now }
    ensures { MatchBool result (PlaneFits transform base.now level.now kept.now values.now 4096) (PlaneLeaves transform base.now level.now kept.now values.now 4096) }
{
    let mut fits = true;
    for index in 0..10 {
        let band = nth_band(index);
        let start = band_start(transform, band);
        fits &= band_fits(
            kept,
            values,
            start,
            start + band_size(transform, band),
            band,
            base[index],
            level[index],
        );
    }
    fits
}

/// Whether a component that goes on these kept values fits at each level.
pub(crate) fn levels_fit(
    own: &[i16],
    kept: &[i16],
    transform: Transform,
    base: &[u8; 10],
    levels: &[Level],
    component: Component,
) -> bool
    requires own { length own.now ≡ 4096 }
    requires kept { length kept.now ≡ 4096 }
    requires few { length levels.now ≤ 7 }
    requires low { AreWithin 1 15 base.now }
    requires high { (i : ℕ) → i ≤ length levels.now → StayWithin 15 base.now (left_out component levels.now i) }
    ensures { MatchBool result (LevelsFit component transform base.now levels.now kept.now (less own.now kept.now) (length levels.now + 1)) (LevelsLeave component transform base.now levels.now kept.now (less own.now kept.now) (length levels.now + 1)) }
{
    let mut values = [0; 4096];
    subtract(own, kept, &mut values);
    let mut fits = true;
    for index in 0..levels.len() + 1 {
        let level = left_out(component, levels, index);
        fits &= plane_fits(kept, &values, transform, base, &level.values);
    }
    fits
}

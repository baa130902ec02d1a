ghost use Rattle.std.specs.Prelude.{◌≡◌, ℕ, ◌≤◌, ◌<◌, ◌-◌, ◌+◌, ℤ, ◌^◌, pos, int_div, length, IsTrue};
ghost use Rattle.std.specs.Int.{int_shr};
ghost use Rattle.gfx_dwt.specs.Ranges.{AllCoefficients, AllWithin, IsCoefficient, at};
ghost use Rattle.gfx_dwt.specs.declared.layout.Band.TheVariants.{Hl1, Ll3};
ghost use Rattle.gfx_quant.specs.declared.rounding.Rounding.TheVariants.{Nearest};
ghost use Rattle.gfx_quant.specs.Coefficient.{capped, cut, nearest, quantised, truncated};
ghost use Rattle.gfx_quant.specs.Planes.{AreBits, MapsBands, MapsBetween};
ghost use Rattle.gfx_quant.specs.Quant.{is_base, value_of};

use crate::bands::{band_size, band_start, nth_band};
use crate::coefficients::{floored, toward_zero};
use crate::quant::Quant;
use crate::rounding::{Rounding, rounded_away, rounded_up};
use gfx_dwt::{Band, Transform};

/// A number cut to the signed 16-bit range.
#[inline]
fn cut_number(number: i32) -> i32
    ensures value { result ≡ cut number }
    ensures small { IsCoefficient result }
{
    number.clamp(-32768, 32767)
}

/// Cuts each number of a plane to the signed 16-bit range.
pub fn cut_plane(plane: &mut [i32; 4096])
    ensures value { (k : ℕ) → k < 4096 → at plane.new k ≡ cut (at plane.old k) }
    ensures small { AllCoefficients plane.new }
{
    for place in 0..4096 {
        plane[place] = cut_number(plane[place]);
    }
}

#[inline]
fn floor_places(values: &[i32], from: usize, to: usize, bits: u8, out: &mut [i32])
    requires order { from ≤ to }
    requires end { to ≤ length values.now }
    requires room { length out.old ≡ length values.now }
    requires few { bits ≤ 15 }
    ensures { MapsBetween (λ v. int_shr v bits) from to values.now out.old out.new }
{
    for place in from..to {
        out[place] = floored(values[place], bits);
    }
}

#[inline]
fn cut_places(values: &[i32], from: usize, to: usize, bits: u8, out: &mut [i32])
    requires order { from ≤ to }
    requires end { to ≤ length values.now }
    requires room { length out.old ≡ length values.now }
    requires few { bits ≤ 15 }
    ensures { MapsBetween (λ v. int_div v (pos (2 ^ bits))) from to values.now out.old out.new }
{
    for place in from..to {
        out[place] = toward_zero(values[place], bits);
    }
}

/// Truncates the values from one place to before another, all of one band.
#[tactic(auto, unfolding(crate::specs::Coefficient::truncated))]
fn truncate_places(values: &[i32], from: usize, to: usize, bits: u8, band: Band, out: &mut [i32])
    requires order { from ≤ to }
    requires end { to ≤ length values.now }
    requires room { length out.old ≡ length values.now }
    requires few { bits ≤ 15 }
    ensures { MapsBetween (λ v. truncated band v bits) from to values.now out.old out.new }
{
    match band {
        Band::Ll3 => floor_places(values, from, to, bits, out),
        _ => cut_places(values, from, to, bits, out),
    }
}

/// Truncates a plane, in each band by its number less `fewer`.
fn truncate_bands(
    values: &[i32; 4096],
    transform: Transform,
    numbers: &[u8; 10],
    fewer: u8,
    out: &mut [i32; 4096],
)
    requires { AreBits fewer numbers.now }
    ensures { MapsBands transform (λ band v. truncated band v (value_of numbers.now band - fewer)) values.now out.new }
{
    for index in 0..10 {
        let band = nth_band(index);
        let start = band_start(transform, band);
        truncate_places(
            values,
            start,
            start + band_size(transform, band),
            numbers[index] - fewer,
            band,
            out,
        );
    }
}

/// The values of a component at a level, each as `truncate` gives it.
pub fn truncate_plane(
    values: &[i32; 4096],
    transform: Transform,
    level: &Quant,
    out: &mut [i32; 4096],
)
    ensures kept { (bound : ℕ) → AllWithin bound values.now → AllWithin bound out.new }
    ensures exact { MapsBands transform (λ band v. truncated band v (value_of level.now.values band)) values.now out.new }
{
    truncate_bands(values, transform, &level.values, 0, out);
}

#[inline]
fn round_up_places(values: &[i32], from: usize, to: usize, base: u8, out: &mut [i32])
    requires coefficients { AllCoefficients values.now }
    requires order { from ≤ to }
    requires end { to ≤ length values.now }
    requires room { length out.old ≡ length values.now }
    requires low { 6 ≤ base }
    requires high { base ≤ 15 }
    ensures { MapsBetween (λ c. capped (nearest Ll3 c base) base) from to values.now out.old out.new }
{
    for place in from..to {
        out[place] = rounded_up(values[place], base);
    }
}

#[inline]
fn round_away_places(values: &[i32], from: usize, to: usize, base: u8, out: &mut [i32])
    requires coefficients { AllCoefficients values.now }
    requires order { from ≤ to }
    requires end { to ≤ length values.now }
    requires room { length out.old ≡ length values.now }
    requires low { 6 ≤ base }
    requires high { base ≤ 15 }
    ensures { MapsBetween (λ c. capped (nearest Hl1 c base) base) from to values.now out.old out.new }
{
    for place in from..to {
        out[place] = rounded_away(values[place], base);
    }
}

/// Rounds the coefficients from one place to before another, all of one band, to the nearest values.
#[tactic(auto, unfolding(crate::specs::Coefficient::nearest))]
fn round_places(values: &[i32], from: usize, to: usize, base: u8, band: Band, out: &mut [i32])
    requires coefficients { AllCoefficients values.now }
    requires order { from ≤ to }
    requires end { to ≤ length values.now }
    requires room { length out.old ≡ length values.now }
    requires low { 6 ≤ base }
    requires high { base ≤ 15 }
    ensures { MapsBetween (λ c. quantised Nearest band c base) from to values.now out.old out.new }
{
    match band {
        Band::Ll3 => round_up_places(values, from, to, base, out),
        _ => round_away_places(values, from, to, base, out),
    }
}

/// Rounds a plane to the nearest values, in each band by its base.
fn round_bands(
    coefficients: &[i32; 4096],
    transform: Transform,
    base: &[u8; 10],
    out: &mut [i32; 4096],
)
    requires coefficients { AllCoefficients coefficients.now }
    requires base { AreBits 6 base.now }
    ensures { MapsBands transform (λ band c. quantised Nearest band c (value_of base.now band)) coefficients.now out.new }
{
    for index in 0..10 {
        let band = nth_band(index);
        let start = band_start(transform, band);
        round_places(
            coefficients,
            start,
            start + band_size(transform, band),
            base[index],
            band,
            out,
        );
    }
}

/// Quantises a plane, in each band by its base.
fn quantise_bands(
    rounding: Rounding,
    coefficients: &[i32; 4096],
    transform: Transform,
    base: &[u8; 10],
    out: &mut [i32; 4096],
)
    requires coefficients { AllCoefficients coefficients.now }
    requires base { AreBits 6 base.now }
    ensures { MapsBands transform (λ band c. quantised rounding band c (value_of base.now band)) coefficients.now out.new }
{
    match rounding {
        Rounding::Zero => truncate_bands(coefficients, transform, base, 1, out),
        Rounding::Nearest => round_bands(coefficients, transform, base, out),
    }
}

/// The values that are coded for a component's coefficients: each as `quantise` gives it where they are
/// rounded toward zero, and as `round` does where they become the nearest.
pub fn quantise_plane(
    rounding: Rounding,
    coefficients: &[i32; 4096],
    transform: Transform,
    base: &Quant,
    out: &mut [i32; 4096],
)
    requires coefficients { AllCoefficients coefficients.now }
    requires base { IsTrue (is_base base.now.values) }
    ensures small { AllWithin 1024 out.new }
    ensures exact { MapsBands transform (λ band c. quantised rounding band c (value_of base.now.values band)) coefficients.now out.new }
{
    quantise_bands(rounding, coefficients, transform, &base.values, out);
}

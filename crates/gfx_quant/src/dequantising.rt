ghost use Rattle.std.specs.Prelude.{◌≡◌, ℕ, ◌≤◌, ◌<◌, ◌-◌, ◌+◌, ◌/◌, ◌^◌, pos, neg_ℤ, ◌≤ℤ◌, ◌<ℤ◌, ◌⊎◌, length, nat_le, IsTrue, MatchBool};
ghost use Rattle.gfx_dwt.specs.declared.layout.Band.TheVariants.{Ll3};
ghost use Rattle.gfx_dwt.specs.Place.{number, size, start};
ghost use Rattle.gfx_dwt.specs.Ranges.{AllCoefficients, IsCoefficient, Within, at};
ghost use Rattle.gfx_quant.specs.Coefficient.{coefficient_of};
ghost use Rattle.gfx_quant.specs.Planes.{AllHave, ArePositions, Dequantises, LeavesRange, MapsBands, MapsBetween, PlaneHas, SomeLacks};
ghost use Rattle.gfx_quant.specs.Quant.{value_of};

use crate::bands::{band_size, band_start, nth_band};
use gfx_dwt::{Band, Transform, noughts_before};

/// The least value that has a coefficient at this bit position.
#[inline]
fn least(position: u8) -> i16
    requires low { 1 ≤ position }
    requires high { position ≤ 30 }
    ensures { result ≡ neg_ℤ (pos (32768 / 2 ^ (position - 1))) }
{
    (-((32_768u32 >> (position - 1)) as i32)) as i16
}

/// The greatest value that has a coefficient at this bit position.
#[inline]
fn most(position: u8) -> i16
    requires low { 1 ≤ position }
    requires high { position ≤ 30 }
    ensures { result ≡ pos (32767 / 2 ^ (position - 1)) }
{
    (32_767u32 >> (position - 1)) as i16
}

#[inline]
fn is_between(v: i16, least: i16, most: i16) -> bool
    ensures { MatchBool result ((least ≤ℤ v) × (v ≤ℤ most)) ((v <ℤ least) ⊎ (most <ℤ v)) }
{
    least <= v && v <= most
}

/// The lower of two values.
#[inline]
fn lower(one: i16, other: i16) -> i16
    ensures one { result ≤ℤ one }
    ensures other { result ≤ℤ other }
    ensures either { (result ≡ one) ⊎ (result ≡ other) }
{
    if other < one { other } else { one }
}

/// The higher of two values.
#[inline]
fn higher(one: i16, other: i16) -> i16
    ensures one { one ≤ℤ result }
    ensures other { other ≤ℤ result }
    ensures either { (result ≡ one) ⊎ (result ≡ other) }
{
    if one < other { other } else { one }
}

/// Whether all values from one place to before another have a coefficient: the lowest and the highest have.
// No early return: so it is done on many values at a time.
#[inline]
fn all_have(values: &[i16], from: usize, to: usize, position: u8) -> bool
    requires order { from ≤ to }
    requires end { to ≤ length values.now }
    requires low { 1 ≤ position }
    requires high { position ≤ 30 }
    ensures { MatchBool result (AllHave position values.now from to) (SomeLacks position values.now from to) }
{
    let least = least(position);
    let most = most(position);
    let mut lowest = 0;
    let mut highest = 0;
    for place in from..to {
        lowest = lower(lowest, values[place]);
        highest = higher(highest, values[place]);
    }
    is_between(lowest, least, most) & is_between(highest, least, most)
}

// A shift: the processor multiplies numbers in slow steps. Beyond 15 only nought has a coefficient.
#[inline]
fn scaled(v: i16, position: u8) -> i16
    requires low { 1 ≤ position }
    requires high { position ≤ 30 }
    requires fits { IsCoefficient (coefficient_of v position) }
    ensures { result ≡ coefficient_of v position }
{
    v << (position - 1).min(15)
}

/// Whether so large a value of either sign has a coefficient at this bit position.
#[inline]
fn has_both(magnitude: u16, position: u8) -> bool
    requires low { 1 ≤ position }
    requires high { position ≤ 30 }
    ensures { result ≡ nat_le magnitude (32767 / 2 ^ (position - 1)) }
{
    u32::from(magnitude) <= 32_767u32 >> (position - 1)
}

/// Whether all values of a band have a coefficient; before a place they are nought, which has one.
#[inline]
fn band_has(values: &[i16], from: usize, to: usize, position: u8, noughts: usize) -> bool
    requires order { from ≤ to }
    requires end { to ≤ length values.now }
    requires low { 1 ≤ position }
    requires high { position ≤ 30 }
    requires noughts { (k : ℕ) → from ≤ k → k < to → k < noughts → at values.now k ≡ pos 0 }
    ensures { MatchBool result (AllHave position values.now from to) (SomeLacks position values.now from to) }
{
    all_have(values, noughts.max(from).min(to), to, position)
}

/// Whether a magnitude tells that all values of a band have a coefficient: none outside LL3 is beyond it.
#[inline]
fn is_known(band: Band, position: u8, magnitude: u16) -> bool
    requires low { 1 ≤ position }
    requires high { position ≤ 30 }
    ensures { IsTrue result → (number band < number Ll3) × IsTrue (nat_le magnitude (32767 / 2 ^ (position - 1))) }
{
    match band {
        Band::Ll3 => false,
        _ => has_both(magnitude, position),
    }
}

/// Whether all values of a band have a coefficient. They aren't looked at where the greatest magnitude outside LL3 tells.
#[inline]
fn band_fits(
    plane: &[i16; 4096],
    transform: Transform,
    band: Band,
    position: u8,
    noughts: usize,
    magnitude: u16,
) -> bool
    requires low { 1 ≤ position }
    requires high { position ≤ 30 }
    requires noughts { (k : ℕ) → k < noughts → at plane.now k ≡ pos 0 }
    requires magnitude { (k : ℕ) → k < start transform Ll3 → Within magnitude (at plane.now k) }
    ensures { MatchBool result (AllHave position plane.now (start transform band) (start transform band + size transform band)) (SomeLacks position plane.now (start transform band) (start transform band + size transform band)) }
{
    if is_known(band, position, magnitude) {
        return true;
    }
    let start = band_start(transform, band);
    let end = start + band_size(transform, band);
    band_has(plane, start, end, position, noughts)
}

/// Whether all values of a plane have a coefficient; none of all bands but LL3 is beyond a magnitude, and before a place
/// they are nought.
fn plane_has(
    plane: &[i16; 4096],
    transform: Transform,
    positions: &[u8; 10],
    noughts: usize,
    magnitude: u16,
) -> bool
    requires positions { ArePositions positions.now }
    requires noughts { (k : ℕ) → k < noughts → at plane.now k ≡ pos 0 }
    requires magnitude { (k : ℕ) → k < start transform Ll3 → Within magnitude (at plane.now k) }
    ensures { MatchBool result (PlaneHas 10 transform positions.now plane.now) (LeavesRange transform positions.now plane.now) }
{
    let mut fits = true;
    for index in 0..10 {
        let band = nth_band(index);
        fits &= band_fits(plane, transform, band, positions[index], noughts, magnitude);
    }
    fits
}

/// Puts nought in all places from one to before another.
#[inline]
fn clear(out: &mut [i16], from: usize, to: usize)
    requires order { from ≤ to }
    requires end { to ≤ length out.old }
    ensures { MapsBetween (λ _. pos 0) from to out.old out.old out.new }
{
    for place in from..to {
        out[place] = 0;
    }
}

/// Puts the coefficients of the values from one place to before another.
#[inline]
fn narrow(values: &[i16], from: usize, to: usize, position: u8, out: &mut [i16])
    requires order { from ≤ to }
    requires end { to ≤ length values.now }
    requires out { to ≤ length out.old }
    requires low { 1 ≤ position }
    requires high { position ≤ 30 }
    requires fits { AllHave position values.now from to }
    ensures { MapsBetween (λ v. coefficient_of v position) from to values.now out.old out.new }
{
    for place in from..to {
        out[place] = scaled(values[place], position);
    }
}

/// Puts the coefficients of the values of a band; before a place they are nought.
#[inline]
fn narrow_band(
    values: &[i16],
    from: usize,
    to: usize,
    position: u8,
    noughts: usize,
    out: &mut [i16],
)
    requires order { from ≤ to }
    requires end { to ≤ length values.now }
    requires out { to ≤ length out.old }
    requires low { 1 ≤ position }
    requires high { position ≤ 30 }
    requires noughts { (k : ℕ) → from ≤ k → k < to → k < noughts → at values.now k ≡ pos 0 }
    requires fits { AllHave position values.now from to }
    ensures { MapsBetween (λ v. coefficient_of v position) from to values.now out.old out.new }
{
    let known = noughts.max(from).min(to);
    clear(out, from, known);
    narrow(values, known, to, position, out);
}

/// Puts the coefficients of the values of a plane; before a place they are nought.
fn narrow_plane(
    plane: &[i16; 4096],
    transform: Transform,
    positions: &[u8; 10],
    noughts: usize,
    out: &mut [i16],
)
    requires room { length out.old ≡ 4096 }
    requires positions { ArePositions positions.now }
    requires noughts { (k : ℕ) → k < noughts → at plane.now k ≡ pos 0 }
    requires fits { PlaneHas 10 transform positions.now plane.now }
    ensures { MapsBands transform (λ band v. coefficient_of v (value_of positions.now band)) plane.now out.new }
{
    for index in 0..10 {
        let band = nth_band(index);
        let start = band_start(transform, band);
        narrow_band(
            plane,
            start,
            start + band_size(transform, band),
            positions[index],
            noughts,
            out,
        );
    }
}

/// Puts the coefficients of a component's values in `out`, each as `dequantise` gives it at the bit position of its
/// band; these have the order of `Band`. Where a value has none the answer is false, and `out` stays, which has room
/// for 4,096 numbers. No value outside LL3 may be beyond `magnitude`: a caller that knows the greatest one saves a look
/// at all of them.
pub fn dequantise_plane(
    plane: &[i16; 4096],
    transform: Transform,
    positions: &[u8; 10],
    magnitude: u16,
    out: &mut [i16],
) -> bool
    requires room { length out.old ≡ 4096 }
    requires positions { ArePositions positions.now }
    requires magnitude { (k : ℕ) → k < start transform Ll3 → Within magnitude (at plane.now k) }
    ensures coefficients { IsTrue result → AllCoefficients out.new }
    ensures exact { MatchBool result (Dequantises transform positions.now plane.now out.new) (LeavesRange transform positions.now plane.now × (out.new ≡ out.old)) }
{
    let noughts = noughts_before(plane);
    let fits = plane_has(plane, transform, positions, noughts, magnitude);
    if fits {
        narrow_plane(plane, transform, positions, noughts, out);
    }
    fits
}

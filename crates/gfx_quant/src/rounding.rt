ghost use Rattle.std.specs.Prelude.{◌≡◌, ◌≤◌, ◌-◌, ◌^◌, pos, ◌+ℤ◌, ◌-ℤ◌, ◌<ℤ◌, ◌≤ℤ◌, IsTrue};
ghost use Rattle.std.specs.Int.{int_shr};
ghost use Rattle.gfx_dwt.specs.declared.layout.Band.TheVariants.{Hl1, Ll3};
ghost use Rattle.gfx_dwt.specs.Ranges.{IsCoefficient, Within};
ghost use Rattle.gfx_quant.specs.declared.rounding.Rounding.TheVariants.{Nearest};
ghost use Rattle.gfx_quant.specs.Coefficient.{capped, coefficient_of, nearest, quantised};
ghost use Rattle.gfx_quant.specs.Planes.{has_coefficient};

use crate::coefficients::floored;
use gfx_dwt::Band;

/// How a coefficient becomes the value that is coded for it (this project's own rule).
#[derive(Clone, Copy, Debug, PartialEq, Eq)]
pub enum Rounding {
    /// Without its low bits: floored in LL3, toward zero elsewhere.
    Zero,
    /// The nearest value: of two, the upper one in LL3, the one farther from zero elsewhere; none above
    /// the largest whose coefficient fits 16 bits.
    Nearest,
}

/// A coefficient and half of what a value counts for: its floor is the nearest value in LL3.
#[inline]
fn raised(c: i32, base: u8) -> i32
    requires coefficient { IsCoefficient c }
    requires low { 6 ≤ base }
    requires high { base ≤ 15 }
    ensures { result ≡ c +ℤ pos (2 ^ (base - 2)) }
{
    c + (1 << (base - 2))
}

/// The same of another band: one less below nought, so that its floor is the nearest value there.
#[inline]
fn spread(c: i32, base: u8) -> i32
    requires coefficient { IsCoefficient c }
    requires low { 6 ≤ base }
    requires high { base ≤ 15 }
    ensures below { c <ℤ pos 0 → result ≡ c +ℤ pos (2 ^ (base - 2) - 1) }
    ensures rest { pos 0 ≤ℤ c → result ≡ c +ℤ pos (2 ^ (base - 2)) }
{
    if c < 0 {
        c + ((1 << (base - 2)) - 1)
    } else {
        c + (1 << (base - 2))
    }
}

/// A value, but none above the largest whose coefficient fits 16 bits.
#[inline]
fn capped(v: i32, base: u8) -> i32
    requires low { 1 ≤ base }
    requires high { base ≤ 15 }
    ensures { result ≡ capped v base }
{
    v.min(32767 >> (base - 1))
}

/// The value of a coefficient of LL3.
#[inline]
pub(crate) fn rounded_up(c: i32, base: u8) -> i32
    requires coefficient { IsCoefficient c }
    requires low { 6 ≤ base }
    requires high { base ≤ 15 }
    ensures { result ≡ capped (nearest Ll3 c base) base }
{
    capped(floored(raised(c, base), base - 1), base)
}

/// The value of a coefficient of another band, all of which round alike.
#[inline]
pub(crate) fn rounded_away(c: i32, base: u8) -> i32
    requires coefficient { IsCoefficient c }
    requires low { 6 ≤ base }
    requires high { base ≤ 15 }
    ensures { result ≡ capped (nearest Hl1 c base) base }
{
    capped(floored(spread(c, base), base - 1), base)
}

#[tactic(auto, unfolding(crate::specs::Coefficient::nearest))]
fn rounded(c: i32, base: u8, band: Band) -> i32
    requires coefficient { IsCoefficient c }
    requires low { 6 ≤ base }
    requires high { base ≤ 15 }
    ensures { result ≡ quantised Nearest band c base }
{
    match band {
        Band::Ll3 => rounded_up(c, base),
        _ => rounded_away(c, base),
    }
}

/// The value that is coded for a coefficient, in a band of this base, where it is the nearest one.
pub fn round(c: i32, q: u8, band: Band) -> i32
    requires coefficient { IsCoefficient c }
    requires low { 6 ≤ q }
    requires high { q ≤ 15 }
    ensures value { result ≡ quantised Nearest band c q }
    ensures fits { IsTrue (has_coefficient q result) }
{
    rounded(c, q, band)
}

/// The nearest value's coefficient is half a step off at most.
pub fn nearest_is_near(c: i32, q: u8, band: Band)
    requires low { 2 ≤ q }
    requires high { q ≤ 15 }
    ensures { Within (2 ^ (q - 2)) (c -ℤ coefficient_of (nearest band c q) q) }
{
    let _ = (c, q, band);
}

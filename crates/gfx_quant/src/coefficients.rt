ghost use Rattle.std.specs.Prelude.{◌≡◌, ◌≤◌, ◌-◌, ◌^◌, pos, ◌+ℤ◌, ◌*ℤ◌, ◌<ℤ◌, ◌≤ℤ◌, int_div};
ghost use Rattle.std.specs.Int.{int_shr};
ghost use Rattle.gfx_dwt.specs.Ranges.{IsCoefficient};
ghost use Rattle.gfx_quant.specs.declared.rounding.Rounding.TheVariants.{Zero};
ghost use Rattle.gfx_quant.specs.Coefficient.{coefficient_of, dequantised, quantised, truncated};

use gfx_dwt::Band;

/// What a value at this bit position is multiplied by.
#[inline]
fn weight(position: u8) -> i32
    requires low { 1 ≤ position }
    requires high { position ≤ 30 }
    ensures { result ≡ pos (2 ^ (position - 1)) }
{
    1 << (position - 1)
}

#[inline]
fn weighed(value: i32, weight: i32) -> i64
    ensures { result ≡ value *ℤ weight }
{
    i64::from(value) * i64::from(weight)
}

/// The coefficient that a value stands for at a bit position, 1 to 30; None where it leaves the signed
/// 16-bit range.
pub fn dequantise(v: i32, position: u8) -> Option<i32>
    requires low { 1 ≤ position }
    requires high { position ≤ 30 }
    ensures { result ≡ dequantised v position }
{
    let coefficient = weighed(v, weight(position));
    if -32768 <= coefficient && coefficient <= 32767 {
        Some(coefficient as i32)
    } else {
        None
    }
}

#[inline]
pub(crate) fn floored(v: i32, bits: u8) -> i32
    requires { bits ≤ 15 }
    ensures { result ≡ int_shr v bits }
{
    v >> bits
}

/// A number below nought raised so far that its floor is its quotient toward zero.
#[inline]
fn raised(v: i32, bits: u8) -> i32
    requires { bits ≤ 15 }
    ensures below { v <ℤ pos 0 → result ≡ v +ℤ pos (2 ^ bits - 1) }
    ensures rest { pos 0 ≤ℤ v → result ≡ v }
{
    if v < 0 { v + ((1 << bits) - 1) } else { v }
}

// Two shifts and a choice in place of a division: so it is done on many values at a time.
#[inline]
pub(crate) fn toward_zero(v: i32, bits: u8) -> i32
    requires { bits ≤ 15 }
    ensures { result ≡ int_div v (pos (2 ^ bits)) }
{
    floored(raised(v, bits), bits)
}

/// A value without its low bits, at most 15 of them: floored in LL3, toward zero elsewhere.
#[tactic(auto, unfolding(crate::specs::Coefficient::truncated))]
pub fn truncate(v: i32, p: u8, band: Band) -> i32
    requires { p ≤ 15 }
    ensures { result ≡ truncated band v p }
{
    match band {
        Band::Ll3 => floored(v, p),
        _ => toward_zero(v, p),
    }
}

/// The value that is coded for a coefficient, in a band of this base, where it is rounded toward zero.
pub fn quantise(c: i32, q: u8, band: Band) -> i32
    requires coefficient { IsCoefficient c }
    requires low { 6 ≤ q }
    requires high { q ≤ 15 }
    ensures { result ≡ quantised Zero band c q }
{
    truncate(c, q - 1, band)
}

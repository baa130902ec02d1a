//! What a token gives, and its place among the values.
ghost use Rattle.std.specs.Prelude.{◌≡◌, ◌+◌, ◌<◌, ◌∷◌, ◌++◌, [], min, max, ℤ, List, length, take};
ghost use Rattle.gfx_rlgr.specs.Bound.{greatest};
ghost use Rattle.gfx_rlgr.specs.Steps.{filled, shown};

use crate::params::TERMS;

/// What a token gives: zeros, a value behind so many zeros, or two values.
#[derive(Clone, Copy)]
pub(crate) enum Terms {
    Zeros(u32),
    ValueBehind(u32, i16),
    TwoValues(i16, i16),
}

/// The greater magnitude.
#[inline(always)]
pub(crate) fn higher(one: u16, other: u16) -> u16
    ensures { result ≡ max one other }
{
    if one < other { other } else { one }
}

/// Puts the terms in their places, and says how many places are taken, and what magnitude the values have.
#[inline(always)]
pub(crate) fn place(out: &mut [i16; 4096], at: usize, terms: Terms) -> (usize, u16)
    requires { at < 4096 }
    ensures { (values : List ℤ) → out.old ≡ filled 4096 values → at ≡ length values
        → (out.new ≡ filled 4096 (values ++ shown terms))
        × (result.0 ≡ min 4096 (length (values ++ shown terms)))
        × (greatest (take 4096 (values ++ shown terms)) ≡ max (greatest values) result.1) }
{
    match terms {
        Terms::Zeros(zeros) => (TERMS.min(at + zeros as usize), 0),
        Terms::ValueBehind(zeros, value) => place_value(out, at, zeros, value),
        Terms::TwoValues(one, other) => place_pair(out, at, one, other),
    }
}

// Puts a value behind so many zeros, if its place is one of them.
#[inline(always)]
fn place_value(out: &mut [i16; 4096], at: usize, zeros: u32, value: i16) -> (usize, u16)
    requires { at < 4096 }
    ensures { (values : List ℤ) → out.old ≡ filled 4096 values → at ≡ length values
        → (out.new ≡ filled 4096 (values ++ shown (Terms.ValueBehind zeros value)))
        × (result.0 ≡ min 4096 (length (values ++ shown (Terms.ValueBehind zeros value))))
        × (greatest (take 4096 (values ++ shown (Terms.ValueBehind zeros value))) ≡ max (greatest values) result.1) }
{
    let next = at + zeros as usize;
    if next >= TERMS {
        return (TERMS, 0);
    }
    out[next] = value;
    (next + 1, value.unsigned_abs())
}

// Puts two values; behind the last place the second is cut.
#[inline(always)]
fn place_pair(out: &mut [i16; 4096], at: usize, one: i16, other: i16) -> (usize, u16)
    requires { at < 4096 }
    ensures { (values : List ℤ) → out.old ≡ filled 4096 values → at ≡ length values
        → (out.new ≡ filled 4096 (values ++ one ∷ (other ∷ [])))
        × (result.0 ≡ min 4096 (length (values ++ one ∷ (other ∷ []))))
        × (greatest (take 4096 (values ++ one ∷ (other ∷ []))) ≡ max (greatest values) result.1) }
{
    out[at] = one;
    let next = at + 1;
    if next == TERMS {
        return (TERMS, one.unsigned_abs());
    }
    out[next] = other;
    (next + 1, higher(one.unsigned_abs(), other.unsigned_abs()))
}

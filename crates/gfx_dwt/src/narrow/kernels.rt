ghost use Rattle.std.specs.Prelude.{◌≡◌, ℕ, ◌<◌, ◌+ℤ◌, length};
ghost use Rattle.gfx_dwt.specs.Lifting.{even_of, halved, odd_of};
ghost use Rattle.gfx_dwt.specs.Ranges.{AllWithin, Within, at};

use crate::layout::Transform;
use crate::narrow::formula::{
    NarrowLifting, PlainNarrow, ReducedNarrow, between, even_sample, odd_sample,
};

/// Writes even samples, from the low half and the high half around them.
#[inline(always)]
fn lower_by<L: NarrowLifting>(out: &mut [i16], low: &[i16], before: &[i16], here: &[i16])
    requires low_len { length low.now ≡ length out.old }
    requires before_len { length before.now ≡ length out.old }
    requires here_len { length here.now ≡ length out.old }
    requires low { AllWithin 16382 low.now }
    requires before { AllWithin 8191 before.now }
    requires here { AllWithin 8191 here.now }
    requires evens { (k : ℕ) → k < length out.old → Within 16382 (even_of L.transform (at low.now k) (at before.now k) (at here.now k)) }
    ensures { (k : ℕ) → k < length out.old → at out.new k ≡ even_of L.transform (at low.now k) (at before.now k) (at here.now k) }
{
    for k in 0..out.len() {
        out[k] = even_sample::<L>(low[k], before[k], here[k]);
    }
}

/// Writes the odd samples behind known even ones, and the even samples behind those.
#[inline(always)]
fn pair_by<L: NarrowLifting>(
    above: &[i16],
    odds: &mut [i16],
    evens: &mut [i16],
    low: &[i16],
    high: &[i16],
    next: &[i16],
)
    requires above_len { length above.now ≡ length odds.old }
    requires evens_len { length evens.old ≡ length odds.old }
    requires low_len { length low.now ≡ length odds.old }
    requires high_len { length high.now ≡ length odds.old }
    requires next_len { length next.now ≡ length odds.old }
    requires above { AllWithin 16382 above.now }
    requires low { AllWithin 16382 low.now }
    requires high { AllWithin 8191 high.now }
    requires next { AllWithin 8191 next.now }
    requires evens { (k : ℕ) → k < length odds.old → Within 16382 (even_of L.transform (at low.now k) (at high.now k) (at next.now k)) }
    ensures evens { (k : ℕ) → k < length odds.old → at evens.new k ≡ even_of L.transform (at low.now k) (at high.now k) (at next.now k) }
    ensures odds { (k : ℕ) → k < length odds.old → at odds.new k ≡ odd_of L.transform (at high.now k) (at above.now k) (even_of L.transform (at low.now k) (at high.now k) (at next.now k)) }
{
    for k in 0..odds.len() {
        let even = even_sample::<L>(low[k], high[k], next[k]);
        evens[k] = even;
        odds[k] = odd_sample::<L>(high[k], above[k], even);
    }
}

/// Writes odd samples, from the high half and the even samples on both sides.
#[inline(always)]
fn raise_by<L: NarrowLifting>(out: &mut [i16], high: &[i16], left: &[i16], right: &[i16])
    requires high_len { length high.now ≡ length out.old }
    requires left_len { length left.now ≡ length out.old }
    requires right_len { length right.now ≡ length out.old }
    requires high { AllWithin 8191 high.now }
    requires left { AllWithin 16382 left.now }
    requires right { AllWithin 16382 right.now }
    ensures { (k : ℕ) → k < length out.old → at out.new k ≡ odd_of L.transform (at high.now k) (at left.now k) (at right.now k) }
{
    for k in 0..out.len() {
        out[k] = odd_sample::<L>(high[k], left[k], right[k]);
    }
}

/// Writes samples half way between their neighbours.
#[inline(always)]
fn amid_by<L: NarrowLifting>(out: &mut [i16], left: &[i16], right: &[i16])
    requires left_len { length left.now ≡ length out.old }
    requires right_len { length right.now ≡ length out.old }
    requires left { AllWithin 16382 left.now }
    requires right { AllWithin 16382 right.now }
    ensures { (k : ℕ) → k < length out.old → at out.new k ≡ halved L.transform (at left.now k +ℤ at right.now k) }
{
    for k in 0..out.len() {
        out[k] = between::<L>(left[k], right[k]);
    }
}

#[inline(always)]
pub(crate) fn lower(
    transform: Transform,
    out: &mut [i16],
    low: &[i16],
    before: &[i16],
    here: &[i16],
)
    requires low_len { length low.now ≡ length out.old }
    requires before_len { length before.now ≡ length out.old }
    requires here_len { length here.now ≡ length out.old }
    requires low { AllWithin 16382 low.now }
    requires before { AllWithin 8191 before.now }
    requires here { AllWithin 8191 here.now }
    requires evens { (k : ℕ) → k < length out.old → Within 16382 (even_of transform (at low.now k) (at before.now k) (at here.now k)) }
    ensures { (k : ℕ) → k < length out.old → at out.new k ≡ even_of transform (at low.now k) (at before.now k) (at here.now k) }
{
    match transform {
        Transform::Plain => lower_by::<PlainNarrow>(out, low, before, here),
        Transform::Reduced => lower_by::<ReducedNarrow>(out, low, before, here),
    }
}

#[inline(always)]
pub(crate) fn pair(
    transform: Transform,
    above: &[i16],
    odds: &mut [i16],
    evens: &mut [i16],
    low: &[i16],
    high: &[i16],
    next: &[i16],
)
    requires above_len { length above.now ≡ length odds.old }
    requires evens_len { length evens.old ≡ length odds.old }
    requires low_len { length low.now ≡ length odds.old }
    requires high_len { length high.now ≡ length odds.old }
    requires next_len { length next.now ≡ length odds.old }
    requires above { AllWithin 16382 above.now }
    requires low { AllWithin 16382 low.now }
    requires high { AllWithin 8191 high.now }
    requires next { AllWithin 8191 next.now }
    requires evens { (k : ℕ) → k < length odds.old → Within 16382 (even_of transform (at low.now k) (at high.now k) (at next.now k)) }
    ensures evens { (k : ℕ) → k < length odds.old → at evens.new k ≡ even_of transform (at low.now k) (at high.now k) (at next.now k) }
    ensures odds { (k : ℕ) → k < length odds.old → at odds.new k ≡ odd_of transform (at high.now k) (at above.now k) (even_of transform (at low.now k) (at high.now k) (at next.now k)) }
{
    match transform {
        Transform::Plain => pair_by::<PlainNarrow>(above, odds, evens, low, high, next),
        Transform::Reduced => pair_by::<ReducedNarrow>(above, odds, evens, low, high, next),
    }
}

#[inline(always)]
pub(crate) fn raise(
    transform: Transform,
    out: &mut [i16],
    high: &[i16],
    left: &[i16],
    right: &[i16],
)
    requires high_len { length high.now ≡ length out.old }
    requires left_len { length left.now ≡ length out.old }
    requires right_len { length right.now ≡ length out.old }
    requires high { AllWithin 8191 high.now }
    requires left { AllWithin 16382 left.now }
    requires right { AllWithin 16382 right.now }
    ensures { (k : ℕ) → k < length out.old → at out.new k ≡ odd_of transform (at high.now k) (at left.now k) (at right.now k) }
{
    match transform {
        Transform::Plain => raise_by::<PlainNarrow>(out, high, left, right),
        Transform::Reduced => raise_by::<ReducedNarrow>(out, high, left, right),
    }
}

#[inline(always)]
pub(crate) fn amid(transform: Transform, out: &mut [i16], left: &[i16], right: &[i16])
    requires left_len { length left.now ≡ length out.old }
    requires right_len { length right.now ≡ length out.old }
    requires left { AllWithin 16382 left.now }
    requires right { AllWithin 16382 right.now }
    ensures { (k : ℕ) → k < length out.old → at out.new k ≡ halved transform (at left.now k +ℤ at right.now k) }
{
    match transform {
        Transform::Plain => amid_by::<PlainNarrow>(out, left, right),
        Transform::Reduced => amid_by::<ReducedNarrow>(out, left, right),
    }
}

/// Writes the same numbers.
#[inline(always)]
pub(crate) fn copy(values: &[i16], out: &mut [i16])
    requires { length values.now ≡ length out.old }
    ensures { (k : ℕ) → k < length out.old → at out.new k ≡ at values.now k }
{
    for k in 0..out.len() {
        out[k] = values[k];
    }
}

/// Puts one number in all places.
#[inline(always)]
pub(crate) fn fill(out: &mut [i16], value: i16)
    ensures { (k : ℕ) → k < length out.old → at out.new k ≡ value }
{
    for place in 0..out.len() {
        out[place] = value;
    }
}

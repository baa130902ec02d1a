ghost use Rattle.std.specs.Prelude.{◌≡◌, ℕ, ◌+◌, ◌-◌, ◌*◌, ◌<◌, ◌≤◌, ◌^◌, length};
ghost use Rattle.gfx_dwt.specs.Lifting.{even_of, high_of, low_of, odd_of};
ghost use Rattle.gfx_dwt.specs.Ranges.{AllWithin, at};
ghost use Rattle.gfx_dwt.specs.Splitting.{beyond as beyond_of};

use crate::formula::{
    Lifting, PlainLifting, ReducedLifting, beyond, even_sample, high_place, low_place, odd_sample,
};
use crate::layout::Transform;

/// Writes even samples, from the low half and the high half around them.
fn lower_by<L: Lifting>(out: &mut [i32], low: &[i32], before: &[i32], here: &[i32])
    requires low_len { length low.now ≡ length out.old }
    requires before_len { length before.now ≡ length out.old }
    requires here_len { length here.now ≡ length out.old }
    requires low { AllWithin (2 ^ 28) low.now }
    requires before { AllWithin (2 ^ 28) before.now }
    requires here { AllWithin (2 ^ 28) here.now }
    ensures { (k : ℕ) → k < length out.old → at out.new k ≡ even_of L.transform (at low.now k) (at before.now k) (at here.now k) }
{
    for k in 0..out.len() {
        out[k] = even_sample::<L>(low[k], before[k], here[k]);
    }
}

/// Writes the odd samples behind known even ones, and the even samples behind those.
fn pair_by<L: Lifting>(
    above: &[i32],
    odds: &mut [i32],
    evens: &mut [i32],
    low: &[i32],
    high: &[i32],
    next: &[i32],
)
    requires above_len { length above.now ≡ length odds.old }
    requires evens_len { length evens.old ≡ length odds.old }
    requires low_len { length low.now ≡ length odds.old }
    requires high_len { length high.now ≡ length odds.old }
    requires next_len { length next.now ≡ length odds.old }
    requires above { AllWithin (2 ^ 29) above.now }
    requires low { AllWithin (2 ^ 28) low.now }
    requires high { AllWithin (2 ^ 28) high.now }
    requires next { AllWithin (2 ^ 28) next.now }
    ensures evens { (k : ℕ) → k < length odds.old → at evens.new k ≡ even_of L.transform (at low.now k) (at high.now k) (at next.now k) }
    ensures odds { (k : ℕ) → k < length odds.old → at odds.new k ≡ odd_of L.transform (at high.now k) (at above.now k) (even_of L.transform (at low.now k) (at high.now k) (at next.now k)) }
{
    for k in 0..odds.len() {
        let even = even_sample::<L>(low[k], high[k], next[k]);
        evens[k] = even;
        odds[k] = odd_sample::<L>(high[k], above[k], even);
    }
}

/// Writes odd samples, from the high half and the even samples on both sides.
fn raise_by<L: Lifting>(out: &mut [i32], high: &[i32], left: &[i32], right: &[i32])
    requires high_len { length high.now ≡ length out.old }
    requires left_len { length left.now ≡ length out.old }
    requires right_len { length right.now ≡ length out.old }
    requires high { AllWithin (2 ^ 28) high.now }
    requires left { AllWithin (2 ^ 29) left.now }
    requires right { AllWithin (2 ^ 29) right.now }
    ensures { (k : ℕ) → k < length out.old → at out.new k ≡ odd_of L.transform (at high.now k) (at left.now k) (at right.now k) }
{
    for k in 0..out.len() {
        out[k] = odd_sample::<L>(high[k], left[k], right[k]);
    }
}

pub(crate) fn lower(
    transform: Transform,
    out: &mut [i32],
    low: &[i32],
    before: &[i32],
    here: &[i32],
)
    requires low_len { length low.now ≡ length out.old }
    requires before_len { length before.now ≡ length out.old }
    requires here_len { length here.now ≡ length out.old }
    requires low { AllWithin (2 ^ 28) low.now }
    requires before { AllWithin (2 ^ 28) before.now }
    requires here { AllWithin (2 ^ 28) here.now }
    ensures { (k : ℕ) → k < length out.old → at out.new k ≡ even_of transform (at low.now k) (at before.now k) (at here.now k) }
{
    match transform {
        Transform::Plain => lower_by::<PlainLifting>(out, low, before, here),
        Transform::Reduced => lower_by::<ReducedLifting>(out, low, before, here),
    }
}

pub(crate) fn pair(
    transform: Transform,
    above: &[i32],
    odds: &mut [i32],
    evens: &mut [i32],
    low: &[i32],
    high: &[i32],
    next: &[i32],
)
    requires above_len { length above.now ≡ length odds.old }
    requires evens_len { length evens.old ≡ length odds.old }
    requires low_len { length low.now ≡ length odds.old }
    requires high_len { length high.now ≡ length odds.old }
    requires next_len { length next.now ≡ length odds.old }
    requires above { AllWithin (2 ^ 29) above.now }
    requires low { AllWithin (2 ^ 28) low.now }
    requires high { AllWithin (2 ^ 28) high.now }
    requires next { AllWithin (2 ^ 28) next.now }
    ensures evens { (k : ℕ) → k < length odds.old → at evens.new k ≡ even_of transform (at low.now k) (at high.now k) (at next.now k) }
    ensures odds { (k : ℕ) → k < length odds.old → at odds.new k ≡ odd_of transform (at high.now k) (at above.now k) (even_of transform (at low.now k) (at high.now k) (at next.now k)) }
{
    match transform {
        Transform::Plain => pair_by::<PlainLifting>(above, odds, evens, low, high, next),
        Transform::Reduced => pair_by::<ReducedLifting>(above, odds, evens, low, high, next),
    }
}

pub(crate) fn raise(
    transform: Transform,
    out: &mut [i32],
    high: &[i32],
    left: &[i32],
    right: &[i32],
)
    requires high_len { length high.now ≡ length out.old }
    requires left_len { length left.now ≡ length out.old }
    requires right_len { length right.now ≡ length out.old }
    requires high { AllWithin (2 ^ 28) high.now }
    requires left { AllWithin (2 ^ 29) left.now }
    requires right { AllWithin (2 ^ 29) right.now }
    ensures { (k : ℕ) → k < length out.old → at out.new k ≡ odd_of transform (at high.now k) (at left.now k) (at right.now k) }
{
    match transform {
        Transform::Plain => raise_by::<PlainLifting>(out, high, left, right),
        Transform::Reduced => raise_by::<ReducedLifting>(out, high, left, right),
    }
}

/// Writes a row of the high half, from the odd samples and the even samples on both sides.
fn differ_by<L: Lifting>(out: &mut [i32], odd: &[i32], left: &[i32], right: &[i32])
    requires odd_len { length odd.now ≡ length out.old }
    requires left_len { length left.now ≡ length out.old }
    requires right_len { length right.now ≡ length out.old }
    requires odd { AllWithin (2 ^ 28) odd.now }
    requires left { AllWithin (2 ^ 28) left.now }
    requires right { AllWithin (2 ^ 28) right.now }
    ensures { (k : ℕ) → k < length out.old → at out.new k ≡ high_of L.transform (at odd.now k) (at left.now k) (at right.now k) }
{
    for k in 0..out.len() {
        out[k] = high_place::<L>(odd[k], left[k], right[k]);
    }
}

/// Writes a row of the low half, from the even samples and the high half around them.
fn smooth_by<L: Lifting>(out: &mut [i32], even: &[i32], before: &[i32], here: &[i32])
    requires even_len { length even.now ≡ length out.old }
    requires before_len { length before.now ≡ length out.old }
    requires here_len { length here.now ≡ length out.old }
    requires even { AllWithin (2 ^ 28) even.now }
    requires before { AllWithin (2 ^ 28) before.now }
    requires here { AllWithin (2 ^ 28) here.now }
    ensures { (k : ℕ) → k < length out.old → at out.new k ≡ low_of L.transform (at even.now k) (at before.now k) (at here.now k) }
{
    for k in 0..out.len() {
        out[k] = low_place::<L>(even[k], before[k], here[k]);
    }
}

pub(crate) fn differ(
    transform: Transform,
    out: &mut [i32],
    odd: &[i32],
    left: &[i32],
    right: &[i32],
)
    requires odd_len { length odd.now ≡ length out.old }
    requires left_len { length left.now ≡ length out.old }
    requires right_len { length right.now ≡ length out.old }
    requires odd { AllWithin (2 ^ 28) odd.now }
    requires left { AllWithin (2 ^ 28) left.now }
    requires right { AllWithin (2 ^ 28) right.now }
    ensures { (k : ℕ) → k < length out.old → at out.new k ≡ high_of transform (at odd.now k) (at left.now k) (at right.now k) }
{
    match transform {
        Transform::Plain => differ_by::<PlainLifting>(out, odd, left, right),
        Transform::Reduced => differ_by::<ReducedLifting>(out, odd, left, right),
    }
}

pub(crate) fn smooth(
    transform: Transform,
    out: &mut [i32],
    even: &[i32],
    before: &[i32],
    here: &[i32],
)
    requires even_len { length even.now ≡ length out.old }
    requires before_len { length before.now ≡ length out.old }
    requires here_len { length here.now ≡ length out.old }
    requires even { AllWithin (2 ^ 28) even.now }
    requires before { AllWithin (2 ^ 28) before.now }
    requires here { AllWithin (2 ^ 28) here.now }
    ensures { (k : ℕ) → k < length out.old → at out.new k ≡ low_of transform (at even.now k) (at before.now k) (at here.now k) }
{
    match transform {
        Transform::Plain => smooth_by::<PlainLifting>(out, even, before, here),
        Transform::Reduced => smooth_by::<ReducedLifting>(out, even, before, here),
    }
}

/// Writes a row of the high half and the row of the low half beside it. The row before in the high half is known,
/// and makes way for the new one: a row of its own, so that the compiler sees what is written apart from what is read.
#[inline(always)]
fn divide_by<L: Lifting>(
    even: &[i32],
    odd: &[i32],
    next: &[i32],
    known: &mut [i32],
    high: &mut [i32],
    low: &mut [i32],
)
    requires odd_len { length odd.now ≡ length even.now }
    requires next_len { length next.now ≡ length even.now }
    requires known_len { length known.old ≡ length even.now }
    requires high_len { length high.old ≡ length even.now }
    requires low_len { length low.old ≡ length even.now }
    requires even { AllWithin (2 ^ 28) even.now }
    requires odd { AllWithin (2 ^ 28) odd.now }
    requires next { AllWithin (2 ^ 28) next.now }
    requires known { AllWithin (2 ^ 28) known.old }
    ensures known { (k : ℕ) → k < length even.now → at known.new k ≡ high_of L.transform (at odd.now k) (at even.now k) (at next.now k) }
    ensures highs { (k : ℕ) → k < length even.now → at high.new k ≡ high_of L.transform (at odd.now k) (at even.now k) (at next.now k) }
    ensures lows { (k : ℕ) → k < length even.now → at low.new k ≡ low_of L.transform (at even.now k) (at known.old k) (high_of L.transform (at odd.now k) (at even.now k) (at next.now k)) }
{
    for k in 0..even.len() {
        let sample = even[k];
        let before = known[k];
        let here = high_place::<L>(odd[k], sample, next[k]);
        known[k] = here;
        high[k] = here;
        low[k] = low_place::<L>(sample, before, here);
    }
}

#[inline(always)]
pub(crate) fn divide(
    transform: Transform,
    even: &[i32],
    odd: &[i32],
    next: &[i32],
    known: &mut [i32],
    high: &mut [i32],
    low: &mut [i32],
)
    requires odd_len { length odd.now ≡ length even.now }
    requires next_len { length next.now ≡ length even.now }
    requires known_len { length known.old ≡ length even.now }
    requires high_len { length high.old ≡ length even.now }
    requires low_len { length low.old ≡ length even.now }
    requires even { AllWithin (2 ^ 28) even.now }
    requires odd { AllWithin (2 ^ 28) odd.now }
    requires next { AllWithin (2 ^ 28) next.now }
    requires known { AllWithin (2 ^ 28) known.old }
    ensures known { (k : ℕ) → k < length even.now → at known.new k ≡ high_of transform (at odd.now k) (at even.now k) (at next.now k) }
    ensures highs { (k : ℕ) → k < length even.now → at high.new k ≡ high_of transform (at odd.now k) (at even.now k) (at next.now k) }
    ensures lows { (k : ℕ) → k < length even.now → at low.new k ≡ low_of transform (at even.now k) (at known.old k) (high_of transform (at odd.now k) (at even.now k) (at next.now k)) }
{
    match transform {
        Transform::Plain => divide_by::<PlainLifting>(even, odd, next, known, high, low),
        Transform::Reduced => divide_by::<ReducedLifting>(even, odd, next, known, high, low),
    }
}

/// Writes the row behind two neighbouring rows, in straight lines with them.
pub(crate) fn extend(out: &mut [i32], before: &[i32], last: &[i32])
    requires before_len { length before.now ≡ length out.old }
    requires last_len { length last.now ≡ length out.old }
    requires before { AllWithin (2 ^ 28) before.now }
    requires last { AllWithin (2 ^ 28) last.now }
    ensures { (k : ℕ) → k < length out.old → at out.new k ≡ beyond_of (at before.now k) (at last.now k) }
{
    for k in 0..out.len() {
        out[k] = beyond(before[k], last[k]);
    }
}

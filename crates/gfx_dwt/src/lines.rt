ghost use Rattle.std.specs.Prelude.{◌≡◌, ℕ, ◌+◌, ◌-◌, ◌*◌, ◌<◌, ◌≤◌, ◌^◌, length, slice_set};
ghost use Rattle.gfx_dwt.specs.Place.{high_size, line_size, low_size};
ghost use Rattle.gfx_dwt.specs.declared.layout.Scale.TheVariants.{First};
ghost use Rattle.gfx_dwt.specs.declared.layout.Scale.{Scale};
ghost use Rattle.gfx_dwt.specs.declared.layout.Transform.TheVariants.{Plain, Reduced};
ghost use Rattle.gfx_dwt.specs.Joining.{joined, lowered};
ghost use Rattle.gfx_dwt.specs.Lifting.{odd_of};
ghost use Rattle.gfx_dwt.specs.Ranges.{AllWithin, Within, at};

use crate::formula::{Lifting, PlainLifting, ReducedLifting, even_sample, odd_sample};
use crate::layout::{Scale, Transform};

/// The samples that lie between two places of the high half, and the even sample behind them.
#[tactic(auto, unfolding(crate::specs::Joining::lowered))]
fn pairs<L: Lifting>(low: &[i32], high: &[i32], out: &mut [i32]) -> i32
    requires some { 0 < length high.now }
    requires low_len { length high.now ≤ length low.now }
    requires out_len { 2 * length high.now ≤ length out.old }
    requires low { AllWithin (2 ^ 28) low.now }
    requires high { AllWithin (2 ^ 28) high.now }
    ensures evens { (k : ℕ) → k + 1 < length high.now → at out.new (2 * k) ≡ lowered L.transform (at low.now) (at high.now) k }
    ensures odds { (k : ℕ) → k + 1 < length high.now → at out.new (2 * k + 1) ≡ odd_of L.transform (at high.now k) (lowered L.transform (at low.now) (at high.now) k) (lowered L.transform (at low.now) (at high.now) (k + 1)) }
    ensures last { result ≡ lowered L.transform (at low.now) (at high.now) (length high.now - 1) }
    ensures small { Within (2 ^ 29) result }
{
    let mut sample = even_sample::<L>(low[0], high[0], high[0]);
    for k in 0..high.len() - 1 {
        let next = even_sample::<L>(low[k + 1], high[k], high[k + 1]);
        out[2 * k] = sample;
        out[2 * k + 1] = odd_sample::<L>(high[k], sample, next);
        sample = next;
    }
    sample
}

/// Writes an even sample and the odd one behind it.
#[inline]
fn put_pair(out: &mut [i32], index: usize, even: i32, odd: i32)
    requires { 2 * index + 1 < length out.old }
    ensures { out.new ≡ slice_set (slice_set out.old (2 * index) even) (2 * index + 1) odd }
{
    out[2 * index] = even;
    out[2 * index + 1] = odd;
}

/// Joins a line of the plain transform, whose last even sample stands behind itself.
fn join_plain(low: &[i32], high: &[i32], out: &mut [i32])
    requires some { 0 < length high.now }
    requires low_len { length low.now ≡ length high.now }
    requires out_len { length out.old ≡ 2 * length high.now }
    requires low { AllWithin (2 ^ 28) low.now }
    requires high { AllWithin (2 ^ 28) high.now }
    ensures { (l : Scale) → length high.now ≡ high_size Plain l → (k : ℕ) → k < length out.old → at out.new k ≡ joined Plain l (at low.now) (at high.now) k }
{
    let sample = pairs::<PlainLifting>(low, high, out);
    let end = high.len() - 1;
    let odd = odd_sample::<PlainLifting>(high[end], sample, sample);
    put_pair(out, end, sample, odd);
}

/// Joins a line of reduce-extrapolate at its second and third level, whose low half has one place more.
fn join_later(low: &[i32], high: &[i32], out: &mut [i32])
    requires some { 0 < length high.now }
    requires low_len { length low.now ≡ length high.now + 1 }
    requires out_len { length out.old ≡ 2 * length high.now + 1 }
    requires low { AllWithin (2 ^ 28) low.now }
    requires high { AllWithin (2 ^ 28) high.now }
    ensures { (l : Scale) → length high.now ≡ high_size Reduced l → length low.now ≡ low_size Reduced l → (k : ℕ) → k < length out.old → at out.new k ≡ joined Reduced l (at low.now) (at high.now) k }
{
    let sample = pairs::<ReducedLifting>(low, high, out);
    let end = high.len() - 1;
    let next = even_sample::<ReducedLifting>(low[end + 1], high[end], high[end]);
    let odd = odd_sample::<ReducedLifting>(high[end], sample, next);
    put_pair(out, end, sample, odd);
    out[2 * end + 2] = next;
}

/// Joins a line of reduce-extrapolate at its first level, whose high half ends with noughts.
fn join_first(low: &[i32], high: &[i32], out: &mut [i32])
    requires low_len { length low.now ≡ 33 }
    requires high_len { length high.now ≡ 31 }
    requires out_len { length out.old ≡ 64 }
    requires low { AllWithin (2 ^ 28) low.now }
    requires high { AllWithin (2 ^ 28) high.now }
    ensures { (k : ℕ) → k < length out.old → at out.new k ≡ joined Reduced First (at low.now) (at high.now) k }
{
    let sample = pairs::<ReducedLifting>(low, high, out);
    let next = even_sample::<ReducedLifting>(low[31], high[30], 0);
    let odd = odd_sample::<ReducedLifting>(high[30], sample, next);
    put_pair(out, 30, sample, odd);
    let beyond = even_sample::<ReducedLifting>(low[32], 0, 0);
    let last = odd_sample::<ReducedLifting>(0, next, beyond);
    put_pair(out, 31, next, last);
}

/// Joins a line of its halves.
pub(crate) fn join_line(
    transform: Transform,
    level: Scale,
    low: &[i32],
    high: &[i32],
    out: &mut [i32],
)
    requires low_len { length low.now ≡ low_size transform level }
    requires high_len { length high.now ≡ high_size transform level }
    requires out_len { length out.old ≡ line_size transform level }
    requires low { AllWithin (2 ^ 28) low.now }
    requires high { AllWithin (2 ^ 28) high.now }
    ensures { (k : ℕ) → k < length out.old → at out.new k ≡ joined transform level (at low.now) (at high.now) k }
{
    match (transform, level) {
        (Transform::Plain, _) => join_plain(low, high, out),
        (Transform::Reduced, Scale::First) => join_first(low, high, out),
        (Transform::Reduced, _) => join_later(low, high, out),
    }
}

ghost use Rattle.std.specs.Prelude.{◌≡◌, ℕ, ◌+◌, ◌-◌, ◌*◌, ◌/◌, ◌<◌, ◌≤◌, length};
ghost use Rattle.gfx_dwt.specs.Place.{high_size, low_size};
ghost use Rattle.gfx_dwt.specs.Joining.{behind, edged};
ghost use Rattle.gfx_dwt.specs.Lifting.{even_of, odd_of};
ghost use Rattle.gfx_dwt.specs.Ranges.{AllWithin, Within, at};

use crate::layout::{Scale, Transform};
use crate::narrow::formula::{NarrowLifting, PlainNarrow, ReducedNarrow, odd_sample};
use crate::narrow::kernels::{fill, lower};

/// Writes places with the first one twice.
#[inline(always)]
fn put_behind_first(places: &[i16], out: &mut [i16])
    requires some { 0 < length places.now }
    requires out_len { length places.now < length out.old }
    requires places { AllWithin 8191 places.now }
    ensures { (k : ℕ) → k < length places.now + 1 → at out.new k ≡ at places.now (k - 1) }
{
    out[0] = places[0];
    out[1..places.len() + 1].copy_from_slice(places);
}

/// What stands behind the end of a high half with this last place.
#[inline(always)]
#[tactic(auto, unfolding(crate::specs::Joining::behind))]
fn place_behind(transform: Transform, level: Scale, last: i16) -> i16
    ensures { result ≡ behind transform level last }
{
    match (transform, level) {
        (Transform::Plain, _) => last,
        (Transform::Reduced, Scale::First) => 0,
        (Transform::Reduced, Scale::Second) => last,
        (Transform::Reduced, Scale::Third) => last,
    }
}

/// Writes a high half with what stands in front of it and behind its end.
#[inline(always)]
pub(crate) fn put_edged(transform: Transform, level: Scale, high: &[i16], edges: &mut [i16])
    requires high_len { length high.now ≡ high_size transform level }
    requires edges_len { length edges.old ≡ low_size transform level + 1 }
    requires high { AllWithin 8191 high.now }
    ensures { (k : ℕ) → k < length edges.old → at edges.new k ≡ edged transform level (at high.now) (k - 1) }
{
    put_behind_first(high, edges);
    let last = place_behind(transform, level, high[high.len() - 1]);
    fill(&mut edges[high.len() + 1..], last);
}

/// Writes the even samples of a line, and the last of them again.
#[inline(always)]
pub(crate) fn put_evens(transform: Transform, low: &[i16], edges: &[i16], evens: &mut [i16])
    requires some { 0 < length low.now }
    requires edges_len { length edges.now ≡ length low.now + 1 }
    requires evens_len { length evens.old ≡ length low.now + 1 }
    requires low { AllWithin 16382 low.now }
    requires edges { AllWithin 8191 edges.now }
    requires evens { (k : ℕ) → k < length low.now → Within 16382 (even_of transform (at low.now k) (at edges.now k) (at edges.now (k + 1))) }
    ensures each { (k : ℕ) → k < length low.now → at evens.new k ≡ even_of transform (at low.now k) (at edges.now k) (at edges.now (k + 1)) }
    ensures last { at evens.new (length low.now) ≡ at evens.new (length low.now - 1) }
{
    let end = low.len();
    lower(
        transform,
        &mut evens[..end],
        low,
        &edges[..end],
        &edges[1..end + 1],
    );
    evens[end] = evens[end - 1];
}

/// Writes pairs, each an even sample and the odd one behind it.
#[inline(always)]
pub(crate) fn put_pairs(evens: &[i16], odds: &[i16], out: &mut [i16])
    requires evens_len { length odds.now ≤ length evens.now }
    requires out_len { 2 * length odds.now ≤ length out.old }
    ensures evens { (k : ℕ) → k < length odds.now → at out.new (2 * k) ≡ at evens.now k }
    ensures odds { (k : ℕ) → k < length odds.now → at out.new (2 * k + 1) ≡ at odds.now k }
{
    for k in 0..odds.len() {
        out[2 * k] = evens[k];
        out[2 * k + 1] = odds[k];
    }
}

/// Writes a number at a place, if there is one.
#[inline(always)]
pub(crate) fn put_last(out: &mut [i16], place: usize, value: i16)
    ensures before { (k : ℕ) → k < place → at out.new k ≡ at out.old k }
    ensures here { place < length out.old → at out.new place ≡ value }
{
    if place < out.len() {
        out[place] = value;
    }
}

/// Writes the pairs of a line. Both numbers go straight to their places: the compiler does many of them at a time, and
/// wouldn't with an array of odd samples in between.
#[inline(always)]
fn pairs_by<L: NarrowLifting>(edges: &[i16], evens: &[i16], out: &mut [i16])
    requires edges_len { length out.old / 2 + 1 ≤ length edges.now }
    requires evens_len { length out.old / 2 + 1 ≤ length evens.now }
    requires edges { AllWithin 8191 edges.now }
    requires evens { AllWithin 16382 evens.now }
    ensures evens { (k : ℕ) → k < length out.old / 2 → at out.new (2 * k) ≡ at evens.now k }
    ensures odds { (k : ℕ) → k < length out.old / 2 → at out.new (2 * k + 1) ≡ odd_of L.transform (at edges.now (k + 1)) (at evens.now k) (at evens.now (k + 1)) }
{
    for k in 0..out.len() / 2 {
        out[2 * k] = evens[k];
        out[2 * k + 1] = odd_sample::<L>(edges[k + 1], evens[k], evens[k + 1]);
    }
}

/// Writes a line, from its high half with its edges and from its even samples with the last of them again.
#[inline(always)]
pub(crate) fn put_line(transform: Transform, edges: &[i16], evens: &[i16], out: &mut [i16])
    requires edges_len { length out.old / 2 + 1 ≤ length edges.now }
    requires evens_len { length out.old / 2 + 1 ≤ length evens.now }
    requires edges { AllWithin 8191 edges.now }
    requires evens { AllWithin 16382 evens.now }
    ensures evens { (k : ℕ) → 2 * k < length out.old → at out.new (2 * k) ≡ at evens.now k }
    ensures odds { (k : ℕ) → 2 * k + 1 < length out.old → at out.new (2 * k + 1) ≡ odd_of transform (at edges.now (k + 1)) (at evens.now k) (at evens.now (k + 1)) }
{
    let count = out.len() / 2;
    match transform {
        Transform::Plain => pairs_by::<PlainNarrow>(edges, evens, out),
        Transform::Reduced => pairs_by::<ReducedNarrow>(edges, evens, out),
    }
    put_last(out, 2 * count, evens[count]);
}

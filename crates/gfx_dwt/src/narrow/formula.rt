ghost use Rattle.std.specs.Prelude.{◌≡◌, pos, ◌+ℤ◌, ◌*ℤ◌};
ghost use Rattle.gfx_dwt.specs.declared.layout.Transform.{Transform as AnyTransform};
ghost use Rattle.gfx_dwt.specs.declared.layout.Transform.TheVariants.{Plain, Reduced};
ghost use Rattle.gfx_dwt.specs.Lifting.{even_of, halved, mean, odd_of};
ghost use Rattle.gfx_dwt.specs.Ranges.{Within};

#[inline]
#[tactic(auto, using(crate::proofs::Bounds::halved_within), unfolding(crate::specs::Lifting::halved))]
fn floor_half(z: i16) -> i16
    requires { Within 32764 z }
    ensures value { result ≡ halved Plain z }
    ensures small { Within 16382 result }
{
    z >> 1
}

#[inline]
#[tactic(auto, using(crate::proofs::Bounds::halved_within), unfolding(crate::specs::Lifting::halved))]
fn zero_half(z: i16) -> i16
    requires { Within 32764 z }
    ensures value { result ≡ halved Reduced z }
    ensures small { Within 16382 result }
{
    z / 2
}

#[inline]
fn sum(left: i16, right: i16) -> i16
    requires left { Within 16382 left }
    requires right { Within 16382 right }
    ensures value { result ≡ left +ℤ right }
    ensures small { Within 32764 result }
{
    left + right
}

#[inline]
fn double(high: i16) -> i16
    requires { Within 8191 high }
    ensures value { result ≡ pos 2 *ℤ high }
    ensures small { Within 16382 result }
{
    2 * high
}

#[inline]
#[tactic(auto, using(crate::proofs::Bounds::mean_within))]
fn plain_mean(before: i16, here: i16) -> i16
    requires before { Within 8191 before }
    requires here { Within 8191 here }
    ensures value { result ≡ mean Plain before here }
    ensures small { Within 8191 result }
{
    floor_half(sum(before, here) + 1)
}

#[inline]
#[tactic(auto, using(crate::proofs::Bounds::mean_within))]
fn reduced_mean(before: i16, here: i16) -> i16
    requires before { Within 8191 before }
    requires here { Within 8191 here }
    ensures value { result ≡ mean Reduced before here }
    ensures small { Within 8191 result }
{
    zero_half(sum(before, here))
}

/// The arithmetic in which the two transforms differ, in 16 bits: how halves are rounded.
pub trait NarrowLifting {
    ghost transform: { AnyTransform };

    /// Half of a number.
    fn half(z: i16) -> i16
        requires { Within 32764 z }
        ensures value { result ≡ halved transform z }
        ensures small { Within 16382 result };

    /// The mean of two neighbours of a high half.
    fn mean(before: i16, here: i16) -> i16
        requires before { Within 8191 before }
        requires here { Within 8191 here }
        ensures value { result ≡ mean transform before here }
        ensures small { Within 8191 result };
}

/// The lifting of the plain transform in 16 bits.
pub struct PlainNarrow;

impl NarrowLifting for PlainNarrow {
    ghost transform = { Plain };

    #[inline]
    fn half(z: i16) -> i16 {
        floor_half(z)
    }

    #[inline]
    fn mean(before: i16, here: i16) -> i16 {
        plain_mean(before, here)
    }
}

/// The lifting of reduce-extrapolate in 16 bits.
pub struct ReducedNarrow;

impl NarrowLifting for ReducedNarrow {
    ghost transform = { Reduced };

    #[inline]
    fn half(z: i16) -> i16 {
        zero_half(z)
    }

    #[inline]
    fn mean(before: i16, here: i16) -> i16 {
        reduced_mean(before, here)
    }
}

#[inline]
pub(crate) fn even_sample<L: NarrowLifting>(low: i16, before: i16, here: i16) -> i16
    requires low { Within 16382 low }
    requires before { Within 8191 before }
    requires here { Within 8191 here }
    requires small { Within 16382 (even_of L.transform low before here) }
    ensures value { result ≡ even_of L.transform low before here }
    ensures small { Within 16382 result }
{
    low - L::mean(before, here)
}

#[inline]
pub(crate) fn odd_sample<L: NarrowLifting>(high: i16, left: i16, right: i16) -> i16
    requires high { Within 8191 high }
    requires left { Within 16382 left }
    requires right { Within 16382 right }
    ensures { result ≡ odd_of L.transform high left right }
{
    sum(double(high), L::half(sum(left, right)))
}

#[inline]
pub(crate) fn between<L: NarrowLifting>(left: i16, right: i16) -> i16
    requires left { Within 16382 left }
    requires right { Within 16382 right }
    ensures { result ≡ halved L.transform (left +ℤ right) }
{
    L::half(sum(left, right))
}

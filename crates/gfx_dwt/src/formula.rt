ghost use Rattle.std.specs.Prelude.{◌≡◌, ◌^◌, pos, ◌+ℤ◌, ◌-ℤ◌, ◌*ℤ◌};
ghost use Rattle.gfx_dwt.specs.declared.layout.Transform.{Transform as AnyTransform};
ghost use Rattle.gfx_dwt.specs.declared.layout.Transform.TheVariants.{Plain, Reduced};
ghost use Rattle.gfx_dwt.specs.Lifting.{even_of, halved, high_of, low_of, mean, odd_of};
ghost use Rattle.gfx_dwt.specs.Ranges.{Within};
ghost use Rattle.gfx_dwt.specs.Splitting.{beyond as beyond_of};

#[inline]
#[tactic(auto, using(crate::proofs::Bounds::halved_within), unfolding(crate::specs::Lifting::halved))]
fn floor_half(z: i32) -> i32
    requires { Within (2 ^ 30) z }
    ensures value { result ≡ halved Plain z }
    ensures small { Within (2 ^ 29) result }
{
    z >> 1
}

#[inline]
#[tactic(auto, using(crate::proofs::Bounds::halved_within), unfolding(crate::specs::Lifting::halved))]
fn zero_half(z: i32) -> i32
    requires { Within (2 ^ 30) z }
    ensures value { result ≡ halved Reduced z }
    ensures small { Within (2 ^ 29) result }
{
    z / 2
}

#[inline]
fn sum(left: i32, right: i32) -> i32
    requires left { Within (2 ^ 29) left }
    requires right { Within (2 ^ 29) right }
    ensures value { result ≡ left +ℤ right }
    ensures small { Within (2 ^ 30) result }
{
    left + right
}

#[inline]
fn double(high: i32) -> i32
    requires { Within (2 ^ 28) high }
    ensures value { result ≡ pos 2 *ℤ high }
    ensures small { Within (2 ^ 29) result }
{
    2 * high
}

#[inline]
#[tactic(auto, using(crate::proofs::Bounds::mean_within))]
fn plain_mean(before: i32, here: i32) -> i32
    requires before { Within (2 ^ 28) before }
    requires here { Within (2 ^ 28) here }
    ensures value { result ≡ mean Plain before here }
    ensures small { Within (2 ^ 28) result }
{
    floor_half(sum(before, here) + 1)
}

#[inline]
#[tactic(auto, using(crate::proofs::Bounds::mean_within))]
fn reduced_mean(before: i32, here: i32) -> i32
    requires before { Within (2 ^ 28) before }
    requires here { Within (2 ^ 28) here }
    ensures value { result ≡ mean Reduced before here }
    ensures small { Within (2 ^ 28) result }
{
    zero_half(sum(before, here))
}

/// The arithmetic in which the two transforms differ: how halves are rounded.
pub trait Lifting {
    ghost transform: { AnyTransform };

    /// Half of a number.
    fn half(z: i32) -> i32
        requires { Within (2 ^ 30) z }
        ensures value { result ≡ halved transform z }
        ensures small { Within (2 ^ 29) result };

    /// The mean of two neighbours of a high half.
    fn mean(before: i32, here: i32) -> i32
        requires before { Within (2 ^ 28) before }
        requires here { Within (2 ^ 28) here }
        ensures value { result ≡ mean transform before here }
        ensures small { Within (2 ^ 28) result };
}

/// The lifting of the plain transform.
pub struct PlainLifting;

impl Lifting for PlainLifting {
    ghost transform = { Plain };

    #[inline]
    fn half(z: i32) -> i32 {
        floor_half(z)
    }

    #[inline]
    fn mean(before: i32, here: i32) -> i32 {
        plain_mean(before, here)
    }
}

/// The lifting of reduce-extrapolate.
pub struct ReducedLifting;

impl Lifting for ReducedLifting {
    ghost transform = { Reduced };

    #[inline]
    fn half(z: i32) -> i32 {
        zero_half(z)
    }

    #[inline]
    fn mean(before: i32, here: i32) -> i32 {
        reduced_mean(before, here)
    }
}

#[inline]
pub(crate) fn even_sample<L: Lifting>(low: i32, before: i32, here: i32) -> i32
    requires low { Within (2 ^ 28) low }
    requires before { Within (2 ^ 28) before }
    requires here { Within (2 ^ 28) here }
    ensures value { result ≡ even_of L.transform low before here }
    ensures small { Within (2 ^ 29) result }
{
    low - L::mean(before, here)
}

#[inline]
pub(crate) fn odd_sample<L: Lifting>(high: i32, left: i32, right: i32) -> i32
    requires high { Within (2 ^ 28) high }
    requires left { Within (2 ^ 29) left }
    requires right { Within (2 ^ 29) right }
    ensures { result ≡ odd_of L.transform high left right }
{
    sum(double(high), L::half(sum(left, right)))
}

#[inline]
fn difference(left: i32, right: i32) -> i32
    requires left { Within (2 ^ 29) left }
    requires right { Within (2 ^ 29) right }
    ensures value { result ≡ left -ℤ right }
    ensures small { Within (2 ^ 30) result }
{
    left - right
}

#[inline]
pub(crate) fn between<L: Lifting>(left: i32, right: i32) -> i32
    requires left { Within (2 ^ 28) left }
    requires right { Within (2 ^ 28) right }
    ensures value { result ≡ halved L.transform (left +ℤ right) }
    ensures small { Within (2 ^ 28) result }
{
    L::half(sum(left, right))
}

#[inline]
pub(crate) fn high_place<L: Lifting>(odd: i32, left: i32, right: i32) -> i32
    requires odd { Within (2 ^ 28) odd }
    requires left { Within (2 ^ 28) left }
    requires right { Within (2 ^ 28) right }
    ensures value { result ≡ high_of L.transform odd left right }
    ensures small { Within (2 ^ 28) result }
{
    L::half(difference(odd, between::<L>(left, right)))
}

#[inline]
pub(crate) fn low_place<L: Lifting>(even: i32, before: i32, here: i32) -> i32
    requires even { Within (2 ^ 30) even }
    requires before { Within (2 ^ 28) before }
    requires here { Within (2 ^ 28) here }
    ensures { result ≡ low_of L.transform even before here }
{
    even + L::mean(before, here)
}

/// The sample behind two neighbours, in a straight line with them.
#[inline]
pub(crate) fn beyond(before: i32, last: i32) -> i32
    requires before { Within (2 ^ 28) before }
    requires last { Within (2 ^ 28) last }
    ensures value { result ≡ beyond_of before last }
    ensures small { Within (2 ^ 30) result }
{
    difference(double(last), before)
}

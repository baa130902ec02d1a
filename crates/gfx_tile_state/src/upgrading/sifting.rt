//! The places of a band in two lists: those whose sum is zero, and the others.

ghost use Rattle.std.specs.Prelude.{◌≡◌, ◌≤◌, ◌<◌, ◌+◌, ◌-◌, pos, ℕ, true, IsTrue, if◌then◌else◌};
ghost use Rattle.gfx_bits.specs.Bits.{number};
ghost use Rattle.gfx_dwt.specs.Ranges.{at};
ghost use Rattle.gfx_tile_state.specs.Sifting.{Listed, is_nought};

/// One for a sum that is zero, and else none.
#[inline(always)]
fn nought(sum: i16) -> usize
    ensures { result ≡ (if is_nought sum then 1 else 0) }
{
    usize::from(sum == 0)
}

#[inline(always)]
fn is_zero(number: i16) -> bool
    ensures { IsTrue result → number ≡ pos 0 }
{
    number == 0
}

/// Whether 64 sums from a place on are zero.
// No early return: so it is done on many of them at a time.
#[inline(always)]
fn are_blank(plane: &[i16; 4096], from: usize) -> bool
    requires { from + 64 ≤ 4096 }
    ensures { IsTrue result → (k : ℕ) → from ≤ k → k < from + 64 → at plane.now k ≡ pos 0 }
{
    let mut blank = true;
    for place in from..from + 64 {
        blank &= is_zero(plane[place]);
    }
    blank
}

/// Where the places before one are listed, lists those up to another too: how many sums are zero.
// One sum says little of the next: a place is written at the end of both lists, and counted in one, so this has no branch.
#[inline(always)]
fn sift_places(
    plane: &[i16; 4096],
    from: usize,
    place: usize,
    to: usize,
    count: usize,
    noughts: &mut [u16; 1024],
    others: &mut [u16; 1024],
) -> usize
    requires begun { from ≤ place }
    requires order { place ≤ to }
    requires end { to ≤ 4096 }
    requires room { to ≤ from + 1024 }
    requires listed { Listed plane.now from place count noughts.old others.old }
    ensures { Listed plane.now from to result noughts.new others.new }
{
    let mut count = count;
    for at in place..to {
        noughts[count] = at as u16;
        others[at - from - count] = at as u16;
        count += nought(plane[at]);
    }
    count
}

/// The same for 64 places, which are often all zero.
#[inline(always)]
fn sift_block(
    plane: &[i16; 4096],
    from: usize,
    place: usize,
    count: usize,
    noughts: &mut [u16; 1024],
    others: &mut [u16; 1024],
) -> usize
    requires begun { from ≤ place }
    requires end { place + 64 ≤ 4096 }
    requires room { place + 64 ≤ from + 1024 }
    requires listed { Listed plane.now from place count noughts.old others.old }
    ensures { Listed plane.now from (place + 64) result noughts.new others.new }
{
    if !are_blank(plane, place) {
        return sift_places(plane, from, place, place + 64, count, noughts, others);
    }
    for ahead in 0..64 {
        noughts[count + ahead] = (place + ahead) as u16;
    }
    count + 64
}

/// Lists the places from one to before another whose sum is zero, and the others, and says how many are zero.
#[inline(always)]
pub(crate) fn sift(
    plane: &[i16; 4096],
    from: usize,
    to: usize,
    noughts: &mut [u16; 1024],
    others: &mut [u16; 1024],
) -> usize
    requires order { from ≤ to }
    requires end { to ≤ 4096 }
    requires room { to ≤ from + 1024 }
    ensures { Listed plane.now from to result noughts.new others.new }
{
    let mut count = 0;
    let mut place = from;
    'fronts: while to - place >= 64 {
        count = sift_block(plane, from, place, count, noughts, others);
        place += 64;
    }
    sift_places(plane, from, place, to, count, noughts, others)
}

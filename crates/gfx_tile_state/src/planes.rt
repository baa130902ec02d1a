ghost use Rattle.std.specs.Prelude.{◌≡◌, ◌≤◌, ◌<◌, ◌+◌, ℕ, pos, ◌+ℤ◌, length, IsTrue, MatchBool, true};
ghost use Rattle.gfx_dwt.specs.Ranges.{AllCoefficients, AllWithin, IsCoefficient, Within};
ghost use Rattle.gfx_quant.specs.Coefficient.{is_coefficient};
ghost use Rattle.gfx_tile_state.specs.Passes.{FitsOnto, LeavesKept, SomeLeaves, added, running};

#[inline(always)]
#[tactic(auto, using(crate::proofs::Places::short))]
fn widened(number: i16) -> i32
    ensures value { result ≡ number }
    ensures small { IsCoefficient result }
{
    i32::from(number)
}

#[inline(always)]
fn narrowed(number: i32) -> i16
    requires { IsCoefficient number }
    ensures { result ≡ number }
{
    number as i16
}

#[inline(always)]
fn both(one: i16, other: i16) -> i32
    ensures { result ≡ one +ℤ other }
{
    i32::from(one) + i32::from(other)
}

#[inline(always)]
fn fits_on(kept: i16, number: i16) -> bool
    ensures { result ≡ is_coefficient (kept +ℤ number) }
{
    is_small(both(kept, number))
}

#[inline(always)]
fn more(total: i32, number: i32) -> i32
    requires total { Within 2654127 total }
    requires number { Within 32767 number }
    ensures { result ≡ total +ℤ number }
{
    total + number
}

/// The numbers of a plane with more room for each.
pub(crate) fn load(from: &[i16], out: &mut [i32; 4096])
    requires { length from.now ≡ 4096 }
    ensures value { out.new ≡ from.now }
    ensures coefficients { AllCoefficients out.new }
{
    for place in 0..4096 {
        out[place] = widened(from[place]);
    }
}

/// The numbers of a plane, each in its 16 bits.
pub(crate) fn store(plane: &[i32; 4096], out: &mut [i16])
    requires coefficients { AllCoefficients plane.now }
    requires room { length out.old ≡ 4096 }
    ensures { out.new ≡ plane.now }
{
    for place in 0..4096 {
        out[place] = narrowed(plane[place]);
    }
}

/// A slice of a plane's size as a plane.
pub(crate) fn as_plane(numbers: &[i16]) -> &[i16; 4096]
    requires { length numbers.now ≡ 4096 }
    ensures { result.now ≡ numbers.now }
{
    numbers.try_into().unwrap()
}

/// Writes the numbers of a plane in 16 bits, and says whether each fits them; one that doesn't is cut to their end.
// No early return: so it is done on many numbers at a time.
pub(crate) fn shorten(plane: &[i32; 4096], out: &mut [i16; 4096]) -> bool
    ensures { IsTrue result → out.new ≡ plane.now }
{
    let mut fits = true;
    for place in 0..4096 {
        let short = cut(plane[place]);
        fits &= is_same(short, plane[place]);
        out[place] = short;
    }
    fits
}

#[inline(always)]
fn cut(number: i32) -> i16 {
    number.clamp(-32768, 32767) as i16
}

#[inline(always)]
fn is_same(short: i16, number: i32) -> bool
    ensures { IsTrue result → number ≡ short }
{
    i32::from(short) == number
}

/// Two planes, place by place.
pub(crate) fn add(kept: &[i16], sums: &[i16], out: &mut [i32; 4096])
    requires kept { length kept.now ≡ 4096 }
    requires sums { length sums.now ≡ 4096 }
    ensures { out.new ≡ added kept.now sums.now }
{
    for place in 0..4096 {
        out[place] = both(kept[place], sums[place]);
    }
}

/// Whether a plane with another stays in the range of a coefficient at each place.
pub(crate) fn fits_onto(kept: &[i16], plane: &[i16; 4096]) -> bool
    requires { length kept.now ≡ 4096 }
    ensures { MatchBool result (FitsOnto kept.now plane.now) (LeavesKept kept.now plane.now) }
{
    let mut fits = true;
    for place in 0..4096 {
        fits &= fits_on(kept[place], plane[place]);
    }
    fits
}

/// Whether a number is in the range of a coefficient.
#[inline(always)]
pub(crate) fn is_small(number: i32) -> bool
    ensures { result ≡ is_coefficient number }
{
    -32768 <= number && number <= 32767
}

/// Puts in place of each number its sum with all before it. Where one leaves 16 bits the answer is false, and nothing
/// is said of the numbers.
pub(crate) fn sum_up(values: &mut [i16]) -> bool
    requires few { length values.old ≤ 81 }
    requires small { AllWithin 32767 values.old }
    ensures { MatchBool result (values.new ≡ running (pos 0) values.old) (SomeLeaves values.old) }
{
    let mut total = 0;
    for place in 0..values.len() {
        total = more(total, widened(values[place]));
        if !is_small(total) {
            return false;
        }
        values[place] = narrowed(total);
    }
    true
}

/// Whether two planes, place by place, stay in the range of a coefficient.
pub(crate) fn fit_together(kept: &[i32; 4096], plane: &[i16; 4096]) -> bool
    requires { AllCoefficients kept.now }
    ensures { MatchBool result (FitsOnto kept.now plane.now) (LeavesKept kept.now plane.now) }
{
    let mut fits = true;
    for place in 0..4096 {
        fits &= fit_both(kept[place], widened(plane[place]));
    }
    fits
}

#[inline(always)]
fn fit_both(kept: i32, number: i32) -> bool
    requires kept { IsCoefficient kept }
    requires number { IsCoefficient number }
    ensures { result ≡ is_coefficient (kept +ℤ number) }
{
    is_small(kept + number)
}

/// Puts a plane in place of what was kept.
pub(crate) fn put(plane: &[i32; 4096], kept: &mut Vec<i16>)
    requires coefficients { AllCoefficients plane.now }
    requires room { length kept.old.items ≡ 4096 }
    ensures { kept.new.items ≡ plane.now }
{
    store(plane, kept);
}

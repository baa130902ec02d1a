//! Sums of values and all before them.
ghost use Rattle.std.specs.Prelude.{◌≡◌, ◌≤◌, ◌+ℤ◌, length, MatchBool, pos};
ghost use Rattle.gfx_dwt.specs.Ranges.{AllWithin, IsCoefficient, Within};
ghost use Rattle.gfx_quant.specs.Coefficient.{is_coefficient};
ghost use Rattle.gfx_tile_state.specs.Passes.{SomeLeaves, running};

#[inline(always)]
fn narrowed(number: i32) -> i16
    requires { IsCoefficient number }
    ensures { result ≡ number }
{
    number as i16
}

/// A number with more room.
#[inline(always)]
#[tactic(auto, using(gfx_tile_state::proofs::Places::short))]
pub(crate) fn widened(number: i16) -> i32
    ensures value { result ≡ number }
    ensures small { IsCoefficient result }
{
    i32::from(number)
}

#[inline(always)]
fn more(total: i32, number: i32) -> i32
    requires total { Within 2654127 total }
    requires number { Within 32767 number }
    ensures { result ≡ total +ℤ number }
{
    total + number
}

/// Whether a number is in the range of a coefficient.
#[inline(always)]
fn is_small(number: i32) -> bool
    ensures { result ≡ is_coefficient number }
{
    -32768 <= number && number <= 32767
}

/// Puts in place of each number its sum with all before it. Where one leaves 16 bits the answer is false, and nothing
/// is said of the numbers.
pub(crate) fn sum_up(values: &mut [i16]) -> bool
    requires few { length values.old ≤ 81 }
    requires small { AllWithin 32767 values.old }
    ensures { MatchBool result (values.new ≡ running (pos 0) values.old) (SomeLeaves values.old) }
{
    let mut total = 0;
    for place in 0..values.len() {
        total = more(total, widened(values[place]));
        if !is_small(total) {
            return false;
        }
        values[place] = narrowed(total);
    }
    true
}

//! Numbers' codes, and the values that numbers stand for.
ghost use Rattle.std.specs.Prelude.{◌≡◌, min, ℕ, pos, negsuc, suc, if◌then◌else◌};
ghost use Rattle.gfx_rlgr.specs.Code.{unfold_number};
ghost use Rattle.gfx_rlgr.specs.Steps.{AreWithin, ReadsNumber, kept};

use crate::params::{MAGNITUDE_MAX, Params};
use gfx_bits::BitReader;

/// What stands for each value that is out of range until it is refused. No value in range is so low.
pub(crate) const OUT_OF_RANGE: i16 = -32_768;

/// Reads a number's code.
#[inline(always)]
pub(crate) fn read_number(bits: &mut BitReader<'_>, params: &mut Params) -> u64
    requires { AreWithin params.old }
    ensures { ReadsNumber bits.old bits.new params.old params.new result }
{
    let kr = params.kr();
    let (ones, low) = bits.read_ones_then(kr);
    params.after_ones(ones);
    ((ones as u64) << kr) + low as u64
}

/// The value of this sign whose magnitude is one more.
#[inline(always)]
pub(crate) fn signed(negative: bool, below: u64) -> i16
    ensures { (exact : ℕ) → min exact 65535 ≡ min below 65535 → result ≡ kept (if negative then negsuc exact else pos (suc exact)) }
{
    if below >= MAGNITUDE_MAX as u64 {
        OUT_OF_RANGE
    } else if negative {
        -(below as i16) - 1
    } else {
        below as i16 + 1
    }
}

/// The value that a number stands for.
#[inline(always)]
pub(crate) fn unfolded(number: u64) -> i16
    ensures { (exact : ℕ) → min exact 65535 ≡ min number 65535 → result ≡ kept (unfold_number exact) }
{
    if number > 2 * MAGNITUDE_MAX as u64 {
        OUT_OF_RANGE
    } else if number % 2 == 0 {
        (number / 2) as i16
    } else {
        -((number / 2) as i16) - 1
    }
}

ghost use Rattle.std.specs.Prelude.{◌≡◌, MatchBool, OnErr, OnOk, length};
ghost use Rattle.gfx_dwt.specs.Ranges.{AllCoefficients, AllWithin};
ghost use Rattle.gfx_tile_state.specs.Passes.{ReadsFirst, SumsLeave, summed};
ghost use Rattle.gfx_tile_state.specs.Shape.{AreWithin};

use crate::planes::sum_up;
use gfx_base::Refusal;
use gfx_dwt::Transform;
use gfx_quant::{Band, band_start, dequantise_plane};
use gfx_rlgr::{Mode, decode};

/// Reads the sums of a first pass by way of a plane, on which nothing depends. An `Err` leaves those that were there.
pub(crate) fn read_sums(
    bytes: &[u8],
    transform: Transform,
    positions: &[u8; 10],
    sums: &mut [i16],
    plane: &mut [i16; 4096],
) -> Result<(), Refusal>
    requires within { AreWithin 6 30 positions.now }
    requires whole { length sums.old ≡ 4096 }
    ensures reads { ReadsFirst result transform positions.now bytes.now sums.new }
    ensures whole { length sums.new ≡ 4096 }
    ensures coefficients { OnOk result (AllCoefficients sums.new) }
    ensures err { OnErr result (sums.new ≡ sums.old) }
{
    let magnitude = decode(Mode::Rlgr1, bytes, plane)?;
    if !sum_low(plane, transform) {
        return Err(Refusal::CoefficientRange);
    }
    if dequantise_plane(plane, transform, positions, magnitude, sums) {
        Ok(())
    } else {
        Err(Refusal::CoefficientRange)
    }
}

/// LL3 is coded as differences from the value before it. Where a sum leaves 16 bits the answer is false, and nothing is
/// said of the plane.
fn sum_low(plane: &mut [i16; 4096], transform: Transform) -> bool
    requires { AllWithin 32767 plane.old }
    ensures { MatchBool result (plane.new ≡ summed transform plane.old) (SumsLeave transform plane.old) }
{
    let (_, low) = plane.split_at_mut(band_start(transform, Band::Ll3));
    sum_up(low)
}

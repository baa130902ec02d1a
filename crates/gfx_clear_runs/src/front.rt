//! The run at the front of pixels.
ghost use Rattle.std.specs.Prelude.{◌≡◌, ◌≤◌, false, length, take, drop, replicate};
ghost use Rattle.gfx_clear_runs.specs.Inner.{begins};

use gfx_base::Rgb;

/// How many pixels at the front have this colour.
#[inline(always)]
#[tactic(auto, using(crate::proofs::Colours::colour_more, crate::proofs::Colours::begins_none))]
pub(crate) fn front_run(colour: Rgb, pixels: &[Rgb]) -> usize
    ensures within { result ≤ length pixels.now }
    ensures same { take result pixels.now ≡ replicate result colour }
    ensures ended { begins colour (drop result pixels.now) ≡ false }
{
    for (i, pixel) in pixels.iter().enumerate() {
        if !colour.is_same(*pixel) {
            return i;
        }
    }
    pixels.len()
}

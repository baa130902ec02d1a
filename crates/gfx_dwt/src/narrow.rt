ghost use Rattle.std.specs.Prelude.{◌≡◌, ℕ, ◌-◌, ◌*◌, ◌<◌, ◌≤◌, length, pos, false, IsTrue};
ghost use Rattle.gfx_dwt.specs.Narrow.{StaysNarrow};
ghost use Rattle.gfx_dwt.specs.Ranges.{at};
ghost use Rattle.gfx_dwt.specs.Samples.{cell, sample};

mod flat;
mod formula;
mod grid;
mod joining;
mod kernels;
mod levels;
mod lines;
mod range;
mod rows;
mod smooth;

use crate::layout::{Scale, Transform};
use crate::narrow::kernels::fill;
use crate::narrow::levels::join_narrow;
use crate::noughts::all_are;

/// What `inverse_narrow` works on. Of what stands in it nothing is said between two calls.
#[derive(Drop)]
pub struct Workspace {
    third: [i16; 289],
    second: [i16; 1089],
    rows: [i16; 4096],
}

impl Workspace {
    /// A workspace, for any number of calls.
    pub fn new() -> Workspace {
        Workspace {
            third: [0; 289],
            second: [0; 1089],
            rows: [0; 4096],
        }
    }
}

/// Whether all numbers of a plane before a place are nought, and those behind it the same.
fn is_flat(plane: &[i16; 4096], start: usize) -> bool
    requires { start ≤ 4096 }
    ensures before { IsTrue result → (k : ℕ) → k < start → at plane.now k ≡ pos 0 }
    ensures behind { IsTrue result → (k : ℕ) → start ≤ k → k < 4096 → at plane.now k ≡ at plane.now 4095 }
{
    if !all_are(&plane[start..], plane[4095]) {
        return false;
    }
    all_are(&plane[..start], 0)
}

/// Turns coefficients in band order into samples row by row, as `inverse` does, in 16 bits. The answer is true at least
/// where at each level no number of its three bands is beyond 8,191, and the greatest magnitude among them and that of
/// its low quarter are at most 16,382 together, and where the same is so of the high and of the low rows of which its
/// columns are joined. Where it is false nothing is said of `out`.
pub fn inverse_narrow(
    coefficients: &[i16; 4096],
    transform: Transform,
    out: &mut [i16; 4096],
    workspace: &mut Workspace,
) -> bool
    ensures narrow { IsTrue result → (y x : ℕ) → y < 64 → x < 64 → cell 64 out.new y x ≡ sample transform coefficients.now y x }
    ensures wide { result ≡ false → StaysNarrow transform coefficients.now → ⊥ }
{
    let last_size = Scale::Third.low_size(transform);
    if is_flat(coefficients, 4096 - last_size * last_size) {
        fill(out, coefficients[4095]);
        return true;
    }
    join_narrow(
        transform,
        coefficients,
        &mut workspace.third,
        &mut workspace.second,
        &mut workspace.rows,
        out,
    )
}

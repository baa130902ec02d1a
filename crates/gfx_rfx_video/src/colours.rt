//! The pixels of a tile's coefficients.
ghost use Rattle.std.specs.Prelude.{◌≡◌, ◌<◌, ◌^◌, ℕ, IsTrue, length};
ghost use Rattle.gfx_dwt.specs.Ranges.{AllCoefficients, AllWithin};
ghost use Rattle.gfx_dwt.specs.Samples.{cell, sample};
ghost use Rattle.gfx_dwt.specs.declared.layout.Transform.TheVariants.{Plain};
ghost use Rattle.gfx_surface.specs.Picture.{AreOpaque};
ghost use Rattle.gfx_rfx_video.specs.Inside.{ArePixels};

use crate::planes::Planes;
use crate::running::widened;
use gfx_base::Pixel;
use gfx_dwt::{Transform, Workspace, inverse_narrow, inverse_with};
use gfx_quant::{to_colours, to_colours_narrow};

/// Samples of a tile, and memory that they are made in: one for a message. Of what stands in it nothing is said
/// between two calls.
#[derive(Drop)]
pub(crate) struct Samples {
    y: [i16; 4096],
    cb: [i16; 4096],
    cr: [i16; 4096],
    workspace: Workspace,
}

impl Samples {
    /// Memory for any number of tiles.
    pub(crate) fn new() -> Samples {
        Samples {
            y: [0; 4096],
            cb: [0; 4096],
            cr: [0; 4096],
            workspace: Workspace::new(),
        }
    }
}

/// The pixels of a tile: the colours of the samples of its coefficients.
pub(crate) fn colour(planes: &Planes, samples: &mut Samples, out: &mut [Pixel; 4096])
    ensures pixels { ArePixels planes.now out.new }
    ensures opaque { AreOpaque out.new }
{
    if !colour_narrow(planes, samples, out) {
        colour_wide(planes, out);
    }
}

/// The pixels of a tile by the transform in 16 bits, and whether that could be done exactly; if not, nothing is said of
/// `out`.
fn colour_narrow(planes: &Planes, samples: &mut Samples, out: &mut [Pixel; 4096]) -> bool
    ensures { IsTrue result → ArePixels planes.now out.new }
{
    let workspace = &mut samples.workspace;
    if !inverse_narrow(&planes.y, Transform::Plain, &mut samples.y, workspace) {
        return false;
    }
    if !inverse_narrow(&planes.cb, Transform::Plain, &mut samples.cb, workspace) {
        return false;
    }
    if !inverse_narrow(&planes.cr, Transform::Plain, &mut samples.cr, workspace) {
        return false;
    }
    to_colours_narrow(&samples.y, &samples.cb, &samples.cr, out);
    true
}

/// The pixels of a tile, whatever its coefficients.
// Not inlined: so its planes take no stack where it isn't called.
#[inline(never)]
fn colour_wide(planes: &Planes, out: &mut [Pixel; 4096])
    ensures { ArePixels planes.now out.new }
{
    let mut y = [0; 4096];
    let mut cb = [0; 4096];
    let mut cr = [0; 4096];
    let mut tmp = [0; 4096];
    sample_wide(&planes.y, &mut y, &mut tmp);
    sample_wide(&planes.cb, &mut cb, &mut tmp);
    sample_wide(&planes.cr, &mut cr, &mut tmp);
    to_colours(&y, &cb, &cr, out);
}

/// The samples of a component.
fn sample_wide(plane: &[i16; 4096], out: &mut [i32; 4096], tmp: &mut [i32; 4096])
    ensures value { (y x : ℕ) → y < 64 → x < 64 → cell 64 out.new y x ≡ sample Plain plane.now y x }
    ensures within { AllWithin (2 ^ 23) out.new }
{
    load(plane, out);
    inverse_with(out, Transform::Plain, tmp);
}

/// The numbers of a plane with more room for each.
fn load(from: &[i16; 4096], out: &mut [i32; 4096])
    ensures value { out.new ≡ from.now }
    ensures coefficients { AllCoefficients out.new }
{
    for place in 0..4096 {
        out[place] = widened(from[place]);
    }
}

ghost use Rattle.gfx_dwt.specs.Ranges.{AllSamples};
ghost use Rattle.gfx_quant.specs.Colour.{chroma_blue, chroma_red, luma};
ghost use Rattle.gfx_quant.specs.Planes.{EachIs};

use crate::colour::{chroma_blue_of, chroma_red_of, luma_of};
use gfx_base::Pixel;

/// The samples of a tile's pixels, each as `from_colour` gives it.
pub fn from_colours(
    pixels: &[Pixel; 4096],
    y: &mut [i32; 4096],
    cb: &mut [i32; 4096],
    cr: &mut [i32; 4096],
)
    ensures luma { EachIs luma pixels.now y.new }
    ensures blue { EachIs chroma_blue pixels.now cb.new }
    ensures red { EachIs chroma_red pixels.now cr.new }
    ensures y { AllSamples y.new }
    ensures cb { AllSamples cb.new }
    ensures cr { AllSamples cr.new }
{
    for place in 0..4096 {
        let pixel = pixels[place];
        y[place] = luma_of(pixel);
        cb[place] = chroma_blue_of(pixel);
        cr[place] = chroma_red_of(pixel);
    }
}

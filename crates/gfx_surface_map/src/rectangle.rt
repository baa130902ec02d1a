//! A rectangle of the output, put together as bytes.
ghost use Rattle.std.specs.Prelude.{◌≡◌, ◌++◌, IsTrue, length, OnErr, OnOk};
ghost use Rattle.gfx_base.specs.Geometry.{lies_in, width_of};
ghost use Rattle.gfx_base.specs.Outcome.{Applies, WantsOnlyIf};
ghost use Rattle.gfx_surface_map.specs.Composed.{Keeps, rect_bytes, with_rect_bytes};

use crate::map::SurfaceMap;
use crate::pixel_bytes::append_pixels;
use gfx_base::{Bytes, Fault, NoMemory, Pixel, Rect, Refusal};
use std::alloc::Global;

impl SurfaceMap {
    /// Puts a rectangle of the output together, and appends it as bytes: blue, green, red and 255 for each pixel, row
    /// by row from its top. Refused with RectOutside where it doesn't lie in the output. It takes memory for one
    /// row beside the bytes; after any fault `out` is as it was.
    #[tactic(auto, unfolding(crate::specs::Composed::with_rect_bytes, gfx_base::specs::Results::and_then))]
    pub fn compose_rect(&self, alloc: Global, rect: Rect, out: &mut Bytes) -> Result<(), Fault>
        ensures composed { Applies result out.old out.new (with_rect_bytes self.now.shown rect out.old) }
        ensures memory { WantsOnlyIf result (lies_in self.now.shown.output.width self.now.shown.output.height rect) }
    {
        let (width, height) = self.output_size();
        if !lies_in_output(rect, width, height) {
            return Err(Fault::Refused(Refusal::RectOutside));
        }
        let Ok(mut row) = Vec::from_elem(alloc, Pixel::default(), usize::from(rect.width())) else {
            return Err(Fault::Memory);
        };
        let before = out.len();
        if self.append_rows(rect, &mut row, out).is_err() {
            out.truncate(before);
            return Err(Fault::Memory);
        }
        Ok(())
    }

    /// Puts the rows of a rectangle that lies in the output at the end, each by way of a slice; where memory ends,
    /// some of them may stand there.
    fn append_rows(&self, rect: Rect, row: &mut [Pixel], out: &mut Bytes) -> Result<(), NoMemory>
        requires inside { IsTrue (lies_in self.now.shown.output.width self.now.shown.output.height rect) }
        requires whole { length row.old ≡ width_of rect }
        ensures ok { OnOk result (out.new ≡ out.old ++ rect_bytes self.now.shown rect) }
        ensures err { OnErr result (Keeps out.old out.new) }
    {
        'rows: for y in rect.top..rect.bottom {
            self.compose_part(u32::from(rect.left), u32::from(y), row);
            append_pixels(row, out)?;
        }
        Ok(())
    }
}

/// Whether a rectangle, which may be empty, lies in an output of these sides.
fn lies_in_output(rect: Rect, width: u32, height: u32) -> bool
    ensures { result ≡ lies_in width height rect }
{
    rect.left <= rect.right
        && u32::from(rect.right) <= width
        && rect.top <= rect.bottom
        && u32::from(rect.bottom) <= height
}

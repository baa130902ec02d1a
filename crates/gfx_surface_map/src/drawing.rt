//! What messages draw on a surface that is named by its id.
ghost use Rattle.std.specs.Prelude.{◌≡◌, ◌≤◌, ◌*◌, IfSome, IsSomeAnd, IsTrue, length};
ghost use Rattle.std.specs.FinMap as map;
ghost use Rattle.gfx_base.specs.Geometry.{lies_in, width_of, height_of, fit_all, sized};
ghost use Rattle.gfx_surface.specs.Picture.{overlaid, raw_pixels};
ghost use Rattle.gfx_surface_map.specs.Surfaces.{painted, AllLieIn};
ghost use Rattle.gfx_surface_map.specs.Shown.{with_picture, surface_copied, stamped, pixels_put};
ghost use Rattle.gfx_base.specs.Outcome.{Performs};

use crate::copying::put_at_all;
use crate::map::SurfaceMap;
use gfx_base::{BYTES_PER_PIXEL, Bitmap, Format, Pixel, Point, Rect, Refusal, fits_at_all};
use gfx_surface::Surface;

impl SurfaceMap {
    /// Gives rectangles of the id's surface this colour, one after another ([MS-RDPEGFX]
    /// RDPGFX_SOLIDFILL_PDU). It takes no memory.
    pub fn fill(&mut self, id: u16, rects: &[Rect], colour: Pixel)
        requires { IsSomeAnd (map.get self.old.shown.surfaces id) (λ picture. AllLieIn picture rects.now) }
        ensures { IfSome (map.get self.old.shown.surfaces id)
            (λ picture. self.new ≡ record self.old { shown = with_picture self.old.shown id (painted picture rects.now colour) }) }
    {
        if let Some(surface) = self.get_mut(id) {
            fill_all(surface, rects, colour);
        }
    }

    /// Puts the pixels of uncompressed data into a rectangle of the id's surface ([MS-RDPEGFX]
    /// RDPGFX_WIRE_TO_SURFACE_PDU_1). It takes no memory.
    pub fn put_bytes(&mut self, id: u16, rect: Rect, format: Format, bytes: &[u8])
        requires inside { IsSomeAnd (map.get self.old.shown.surfaces id) (λ picture. IsTrue (lies_in picture.width picture.height rect)) }
        requires whole { length bytes.now ≡ BYTES_PER_PIXEL * (width_of rect * height_of rect) }
        ensures { IfSome (map.get self.old.shown.surfaces id)
            (λ picture. self.new ≡ record self.old { shown = with_picture self.old.shown id (overlaid picture rect (raw_pixels format bytes.now)) }) }
    {
        if let Some(surface) = self.get_mut(id) {
            surface.put_bytes(rect, format, bytes);
        }
    }

    /// Copies a rectangle of a surface to points of another, or of the same ([MS-RDPEGFX]
    /// RDPGFX_SURFACE_TO_SURFACE_PDU). It is read once, before anything is written. All is checked before
    /// any pixel changes. It takes no memory.
    #[tactic(auto, unfolding(crate::specs::Shown::surface_copied, gfx_base::specs::Results::and_then))]
    pub fn copy(&mut self, from: u16, to: u16, rect: Rect, points: &[Point]) -> Result<(), Refusal>
        requires { IfSome (map.get self.old.shown.surfaces from) (λ source. source.width * source.height ≤ self.old.room) }
        ensures copied { Performs result self.old.shown self.new.shown (surface_copied self.old.shown from to rect points.now) }
        ensures room { self.new.room ≡ self.old.room }
    {
        let Some(source) = self.get(from) else {
            return Err(Refusal::NoSurface);
        };
        let (source_width, source_height) = source.size();
        let Some(target) = self.get(to) else {
            return Err(Refusal::NoSurface);
        };
        let (width, height) = target.size();
        if !rect.lies_in(source_width, source_height) {
            return Err(Refusal::RectOutside);
        }
        if !fits_at_all(rect, points, width, height) {
            return Err(Refusal::RectOutside);
        }
        self.copy_all(from, to, rect, points);
        Ok(())
    }

    /// Puts a bitmap at points of the id's surface, one after another ([MS-RDPEGFX]
    /// RDPGFX_CACHE_TO_SURFACE_PDU). All is checked before any pixel changes. It takes no memory.
    #[tactic(auto, unfolding(crate::specs::Shown::pixels_put, gfx_base::specs::Results::and_then))]
    pub fn put(&mut self, id: u16, bitmap: &Bitmap, points: &[Point]) -> Result<(), Refusal>
        ensures put { Performs result self.old.shown self.new.shown
            (pixels_put self.old.shown id (sized bitmap.now.width bitmap.now.height) bitmap.now.pixels points.now) }
        ensures room { self.new.room ≡ self.old.room }
    {
        let rect = Rect::sized(bitmap.width, bitmap.height);
        let Some(surface) = self.get(id) else {
            return Err(Refusal::NoSurface);
        };
        let (width, height) = surface.size();
        if !fits_at_all(rect, points, width, height) {
            return Err(Refusal::RectOutside);
        }
        self.put_all(id, rect, bitmap.pixels.as_slice(), points);
        Ok(())
    }

    /// Puts the pixels of a rectangle at points that it fits at.
    fn put_all(&mut self, id: u16, rect: Rect, pixels: &[Pixel], points: &[Point])
        requires exact { length pixels.now ≡ width_of rect * height_of rect }
        requires target { IsSomeAnd (map.get self.old.shown.surfaces id) (λ target. IsTrue (fit_all target.width target.height rect points.now)) }
        ensures { IfSome (map.get self.old.shown.surfaces id)
            (λ picture. self.new ≡ record self.old { shown = with_picture self.old.shown id (stamped rect pixels.now points.now picture) }) }
    {
        if let Some(surface) = self.get_mut(id) {
            put_at_all(surface, rect, pixels, points);
        }
    }
}

/// Gives rectangles this colour, one after another.
fn fill_all(surface: &mut Surface, rects: &[Rect], colour: Pixel)
    requires { AllLieIn surface.old rects.now }
    ensures { surface.new ≡ painted surface.old rects.now colour }
{
    'rects: for rect in rects {
        surface.fill(*rect, colour);
    }
}

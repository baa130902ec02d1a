//! What of the output the frames that have ended have written.

use gfx_base::{Bytes, NoMemory, Rect, Rects};
use gfx_client::{Client, MOST_RECTS};
use gfx_layout::put_items;
use gfx_surface_map::{Place, SurfaceMap};
use std::alloc::Global;

/// Rectangles of the output, at most `MOST_RECTS`, or all of it.
#[derive(Drop)]
pub struct Written {
    whole: bool,
    rects: Rects,
}

impl Written {
    /// Nothing was written. It takes no memory.
    pub fn new(alloc: Global) -> Written {
        Written {
            whole: false,
            rects: Rects::new(alloc),
        }
    }

    /// Begins anew.
    pub fn clear(&mut self) {
        self.whole = false;
        self.rects.truncate(0);
    }

    /// Notes what the client's frame that has just ended has written.
    pub fn note(&mut self, client: &Client) -> Result<(), NoMemory> {
        if client.damage().is_whole() {
            self.whole = true;
            return Ok(());
        }
        let surfaces = client.surfaces();
        let mut from = 0;
        'surfaces: for _ in 0..=u16::MAX {
            let Some(id) = surfaces.next_id(from) else {
                break;
            };
            self.note_surface(surfaces, id, client.damage().rects(id))?;
            // The id 65,535 has none behind it.
            let Some(next) = id.checked_add(1) else {
                break;
            };
            from = next;
        }
        Ok(())
    }

    /// Notes rectangles of a surface, where it is mapped.
    fn note_surface(
        &mut self,
        surfaces: &SurfaceMap,
        id: u16,
        rects: &[Rect],
    ) -> Result<(), NoMemory> {
        let Some(place) = surfaces.place(id) else {
            return Ok(());
        };
        let output = surfaces.output_size();
        'rects: for rect in rects {
            self.add(shown(*rect, place, output))?;
        }
        Ok(())
    }

    /// Adds a rectangle of the output, unless it is empty.
    fn add(&mut self, rect: Rect) -> Result<(), NoMemory> {
        if self.whole || rect.width() == 0 || rect.height() == 0 {
            return Ok(());
        }
        if self.rects.len() >= MOST_RECTS {
            self.whole = true;
            return Ok(());
        }
        self.rects.push(rect)
    }

    /// Puts the sides of the output, and the rectangles: all of the output as one, where anything may show.
    pub fn put(&self, output: (u32, u32), out: &mut Bytes) -> Result<(), NoMemory> {
        let (width, height) = output;
        put_items(out, &[width, height])?;
        if !self.whole {
            return put_items(out, self.rects.as_slice());
        }
        let all = Rect::sized(side(width), side(height));
        if all.width() == 0 || all.height() == 0 {
            return Ok(());
        }
        put_items(out, &[all])
    }
}

/// What of a surface's rectangle shows on an output of these sides, where the surface stands at this place.
fn shown(rect: Rect, place: Place, output: (u32, u32)) -> Rect {
    let (width, height) = output;
    Rect {
        left: along(rect.left, place.x, width),
        top: along(rect.top, place.y, height),
        right: along(rect.right, place.x, width),
        bottom: along(rect.bottom, place.y, height),
    }
}

/// Where on a side of the output a place of a surface is, or its end where it lies beyond.
fn along(at: u16, from: u32, most: u32) -> u16 {
    side(from.saturating_add(u32::from(at)).min(most))
}

/// A side of the output, which has at most 32,766 pixels.
fn side(pixels: u32) -> u16 {
    u16::try_from(pixels).unwrap_or(u16::MAX)
}

//! Surfaces: a copy that overlaps itself, and the least id from a number on.
use crate::claiming::claim;
use gfx_base::{Fault, Format, Pixel, Point, Rect, Refusal};
use gfx_surface_map::SurfaceMap;
use std::alloc::Global;

const ROW: Rect = Rect {
    left: 0,
    top: 0,
    right: 4,
    bottom: 1,
};

/// A grey that tells pixels apart.
fn grey(shade: u8) -> Pixel {
    Pixel {
        b: shade,
        g: shade,
        r: shade,
        a: 255,
    }
}

/// Puts four pixels on an id's surface, if it is a row of four.
fn put_row(surfaces: &mut SurfaceMap, id: u16, pixels: &[Pixel; 4]) {
    if let Some(surface) = surfaces.get_mut(id) {
        let (width, height) = surface.size();
        if ROW.lies_in(width, height) {
            surface.put(ROW, pixels);
        }
    }
}

/// The first four pixels of an id's surface.
fn row_of(surfaces: &SurfaceMap, id: u16) -> Option<[Pixel; 4]> {
    let surface = surfaces.get(id)?;
    let (width, height) = surface.size();
    if width < 4 || height == 0 {
        return None;
    }
    Some([
        surface.pixel(0, 0),
        surface.pixel(1, 0),
        surface.pixel(2, 0),
        surface.pixel(3, 0),
    ])
}

/// Lets go of surfaces, which is proved once here.
fn let_go(surfaces: SurfaceMap) {
    drop(surfaces);
}

/// Adds two surfaces of four pixels, 1 and 2.
fn create_two(alloc: Global, surfaces: &mut SurfaceMap) -> Result<(), Fault> {
    surfaces.create(alloc, 1, 4, 1, Format::Xrgb)?;
    surfaces.create(alloc, 2, 4, 1, Format::Xrgb)
}

/// Copies, where there is room for the source.
fn copy(
    surfaces: &mut SurfaceMap,
    from: u16,
    to: u16,
    rect: Rect,
    points: &[Point],
) -> Result<(), Refusal> {
    if let Some(source) = surfaces.get(from) {
        let (width, height) = source.size();
        if usize::from(width) * usize::from(height) > surfaces.room() {
            return Err(Refusal::SurfaceBudget);
        }
    }
    surfaces.copy(from, to, rect, points)
}

/// Whether a copy to two points that overlap is right from one surface to another, and within one.
fn overlap(alloc: Global, surfaces: &mut SurfaceMap) -> Result<bool, Fault> {
    let [p, q, r, s] = [grey(1), grey(2), grey(3), grey(4)];
    let front = Rect { right: 2, ..ROW };
    let points = [Point { x: 1, y: 0 }, Point { x: 2, y: 0 }];
    create_two(alloc, surfaces)?;
    put_row(surfaces, 1, &[p, q, r, s]);
    put_row(surfaces, 2, &[s, s, s, s]);
    copy(surfaces, 1, 2, front, &points)?;
    copy(surfaces, 1, 1, front, &points)?;
    let first = row_of(surfaces, 1) == Some([p, p, p, q]);
    Ok(first && row_of(surfaces, 2) == Some([s, p, p, q]))
}

#[test]
fn overlapping_copy(rt: HostRuntime) {
    let mut surfaces = SurfaceMap::new(rt.alloc());
    let right = overlap(rt.alloc(), &mut surfaces);
    let_go(surfaces);
    claim(&rt, right);
}

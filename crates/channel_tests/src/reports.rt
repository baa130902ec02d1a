//! The dumps of known pictures, and what a sink holds after a write that failed.
use crate::claiming::claim;
use gfx_base::{Failed, Fault, Format, NoMemory, Pixel, Rect, VecSink};
use gfx_report::{ReportFault, dump, dump_output};
use gfx_surface_map::SurfaceMap;
use std::alloc::Global;

const RED: Pixel = Pixel {
    b: 0,
    g: 0,
    r: 255,
    a: 255,
};

const SHEER: Pixel = Pixel {
    b: 0x1a,
    g: 0xb2,
    r: 0x09,
    a: 0x7f,
};

/// Two surfaces, as they are dumped.
const TWO_SURFACES: &str = "surface 1 2x1 xrgb
0000ffff0000ffff
surface 300 1x2 argb
1ab2097f
1ab2097f
";

/// Lets go of surfaces, which is proved once here.
fn let_go(surfaces: SurfaceMap) {
    drop(surfaces);
}

/// Adds a surface in one colour.
fn add(
    surfaces: &mut SurfaceMap,
    alloc: Global,
    id: u16,
    sides: (u16, u16),
    format: Format,
    colour: Pixel,
) -> Result<(), Fault> {
    surfaces.create(alloc, id, sides.0, sides.1, format)?;
    if let Some(surface) = surfaces.get_mut(id) {
        let (right, bottom) = surface.size();
        let all = Rect {
            left: 0,
            top: 0,
            right,
            bottom,
        };
        if all.lies_in(right, bottom) {
            surface.fill(all, colour);
        }
    }
    Ok(())
}

/// The width of a row of several pieces, and how many digits it has.
const WIDE: u16 = 1300;

const DIGITS: usize = 10_400;

/// Whether the last id is told, with a row of several pieces.
fn is_told(alloc: Global, surfaces: &SurfaceMap) -> Result<bool, NoMemory> {
    let mut out = VecSink::new(alloc, 2 * DIGITS, &[])?;
    let done = dump(surfaces, &mut out) == Ok(());
    let header = b"surface 65535 1300x1 argb\n";
    let ends = out.held().starts_with(header) && out.held().ends_with(b"1ab2097f1ab2097f\n");
    Ok(done && ends && out.held().len() == header.len() + DIGITS + 1)
}

/// The same of a surface of the last id, which is added to these.
fn last_is_told(alloc: Global, surfaces: &mut SurfaceMap) -> Result<bool, Fault> {
    add(surfaces, alloc, 65535, (WIDE, 1), Format::Argb, SHEER)?;
    Ok(is_told(alloc, surfaces)?)
}

#[test]
fn the_last_id_and_a_row_of_several_pieces(rt: HostRuntime) {
    let mut surfaces = SurfaceMap::new(rt.alloc());
    let right = last_is_told(rt.alloc(), &mut surfaces);
    let_go(surfaces);
    claim(&rt, right);
}

/// Writes that fail, and how many bytes are held then.
const FRONTS: [(u64, usize); 8] = [
    (1, 0),
    (2, 19),
    (3, 35),
    (4, 36),
    (5, 57),
    (6, 65),
    (7, 66),
    (8, 74),
];

/// Whether so many bytes are held where this write of a dump fails.
fn leaves(
    alloc: Global,
    surfaces: &SurfaceMap,
    write: u64,
    count: usize,
) -> Result<bool, NoMemory> {
    let fails = [write];
    let mut out = VecSink::new(alloc, 100, &fails)?;
    let failed = dump(surfaces, &mut out) == Err(Failed);
    Ok(failed && out.held().len() == count && TWO_SURFACES.as_bytes().starts_with(out.held()))
}

/// Whether a front is left by each write that fails, of two surfaces that are added. The later id comes first.
fn fronts_are_left(alloc: Global, surfaces: &mut SurfaceMap) -> Result<bool, Fault> {
    add(surfaces, alloc, 300, (1, 2), Format::Argb, SHEER)?;
    add(surfaces, alloc, 1, (2, 1), Format::Xrgb, RED)?;
    for (write, count) in &FRONTS {
        if !leaves(alloc, surfaces, *write, *count)? {
            return Ok(false);
        }
    }
    Ok(true)
}

#[test]
fn a_failed_write_leaves_a_front(rt: HostRuntime) {
    let mut surfaces = SurfaceMap::new(rt.alloc());
    let right = fronts_are_left(rt.alloc(), &mut surfaces);
    let_go(surfaces);
    claim(&rt, right);
}

/// The output of `map_two_pixels`.
const OUTPUT: &str = "output 2x2
000000ff0000ffff
000000ff000000ff
";

/// Two red pixels, of which the output shows one.
fn map_two_pixels(alloc: Global, surfaces: &mut SurfaceMap) -> Result<(), Fault> {
    add(surfaces, alloc, 1, (2, 1), Format::Xrgb, RED)?;
    surfaces.reset(2, 2)?;
    surfaces.map_output(1, 1, 0)?;
    Ok(())
}

/// Writes that fail, and how many bytes are held then.
const OUTPUT_FRONTS: [(u64, usize); 5] = [(1, 0), (2, 11), (3, 27), (4, 28), (5, 44)];

/// Whether so many bytes are held where this write of the output fails.
fn output_leaves(
    alloc: Global,
    surfaces: &SurfaceMap,
    write: u64,
    count: usize,
) -> Result<bool, NoMemory> {
    let fails = [write];
    let mut out = VecSink::new(alloc, 100, &fails)?;
    let failed = dump_output(alloc, surfaces, &mut out) == Err(ReportFault::Failed);
    Ok(failed && out.held().len() == count && OUTPUT.as_bytes().starts_with(out.held()))
}

/// Whether a front is left by each write that fails, of two pixels that are added.
fn output_fronts_are_left(alloc: Global, surfaces: &mut SurfaceMap) -> Result<bool, Fault> {
    map_two_pixels(alloc, surfaces)?;
    for (write, count) in &OUTPUT_FRONTS {
        if !output_leaves(alloc, surfaces, *write, *count)? {
            return Ok(false);
        }
    }
    Ok(true)
}

#[test]
fn a_failed_write_leaves_a_front_of_the_output(rt: HostRuntime) {
    let mut surfaces = SurfaceMap::new(rt.alloc());
    let right = output_fronts_are_left(rt.alloc(), &mut surfaces);
    let_go(surfaces);
    claim(&rt, right);
}

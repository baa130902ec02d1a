//! Surfaces by cells: copies in all directions across part cells against a plain program row by row,
//! sides at and around a cell's, and what views leave.
use crate::claiming::claim;
use gfx_base::{BYTES_PER_PIXEL, Cell, Fault, Format, Pixel, Point, Rect, fits_at};
use gfx_surface::Surface;
use std::alloc::Global;

const DOT: Pixel = Pixel {
    b: 1,
    g: 2,
    r: 3,
    a: 255,
};

/// A colour that tells places apart.
fn tone(x: u16, y: u16) -> Pixel {
    Pixel {
        b: (x % 256) as u8,
        g: (x / 256) as u8,
        r: (y % 256) as u8,
        a: (y / 256) as u8,
    }
}

/// Where a place stands in rows of this width that begins so far behind another.
fn place(width: u16, x: u16, y: u16, i: u16, j: u16) -> usize {
    (usize::from(y) + usize::from(j)) * usize::from(width) + (usize::from(x) + usize::from(i))
}

/// A picture kept row by row, for a plain program.
#[derive(Drop)]
struct Plain {
    width: u16,
    height: u16,
    pixels: Vec<Pixel>,
}

impl Plain {
    /// A picture of tones.
    fn new(alloc: Global, width: u16, height: u16) -> Result<Plain, Fault> {
        let mut pixels = Vec::new(alloc);
        for y in 0..height {
            for x in 0..width {
                pixels.push(tone(x, y))?;
            }
        }
        Ok(Plain {
            width,
            height,
            pixels,
        })
    }

    fn at(&self, place: usize) -> Pixel {
        match self.pixels.get(place) {
            Some(pixel) => *pixel,
            None => DOT,
        }
    }

    fn set(&mut self, place: usize, pixel: Pixel) {
        if let Some(old) = self.pixels.get_mut(place) {
            *old = pixel;
        }
    }

    /// Takes a rectangle of another picture to a point, as the format keeps it.
    fn copy(&mut self, from: &Plain, rect: Rect, to: Point, format: Format) {
        for j in 0..rect.height() {
            for i in 0..rect.width() {
                let pixel = from.at(place(from.width, rect.left, rect.top, i, j));
                self.set(place(self.width, to.x, to.y, i, j), kept(pixel, format));
            }
        }
    }

    /// Gives a rectangle a colour.
    fn fill(&mut self, rect: Rect, colour: Pixel) {
        for j in 0..rect.height() {
            for i in 0..rect.width() {
                self.set(place(self.width, rect.left, rect.top, i, j), colour);
            }
        }
    }

    /// The pixels of a rectangle, row by row.
    fn rect(&self, alloc: Global, rect: Rect) -> Result<Vec<Pixel>, Fault> {
        let mut pixels = Vec::new(alloc);
        for j in 0..rect.height() {
            for i in 0..rect.width() {
                pixels.push(self.at(place(self.width, rect.left, rect.top, i, j)))?;
            }
        }
        Ok(pixels)
    }
}

/// A pixel as a format keeps it.
fn kept(pixel: Pixel, format: Format) -> Pixel {
    match format {
        Format::Xrgb => Pixel { a: 255, ..pixel },
        Format::Argb => pixel,
    }
}

/// A surface of a picture's pixels.
fn surface_of(alloc: Global, plain: &Plain, format: Format) -> Result<Surface, Fault> {
    let (width, height) = (plain.width.max(1).min(8192), plain.height.max(1).min(8192));
    let mut surface = Surface::new(alloc, width, height, format)?;
    let all = Rect::sized(width, height);
    put(&mut surface, all, &plain.pixels);
    Ok(surface)
}

/// The same picture as a format keeps it.
fn picture(alloc: Global, width: u16, height: u16, format: Format) -> Result<Plain, Fault> {
    let mut plain = Plain::new(alloc, width, height)?;
    for pixel in &mut plain.pixels {
        *pixel = kept(*pixel, format);
    }
    Ok(plain)
}

/// Puts pixels, where they fit.
fn put(surface: &mut Surface, rect: Rect, pixels: &[Pixel]) {
    let (width, height) = surface.size();
    let area = usize::from(rect.width()) * usize::from(rect.height());
    if rect.lies_in(width, height) && pixels.len() == area {
        surface.put(rect, pixels);
    }
}

/// Puts pixels of data, where they fit.
fn put_bytes(surface: &mut Surface, rect: Rect, bytes: &[u8]) {
    let (width, height) = surface.size();
    let area = usize::from(rect.width()) * usize::from(rect.height());
    if rect.lies_in(width, height) && bytes.len() == BYTES_PER_PIXEL * area {
        surface.put_bytes(rect, Format::Argb, bytes);
    }
}

/// Fills, where it fits.
fn fill(surface: &mut Surface, rect: Rect, colour: Pixel) {
    let (width, height) = surface.size();
    if rect.lies_in(width, height) {
        surface.fill(rect, colour);
    }
}

/// Copies within a surface, where it fits.
fn copy_within(surface: &mut Surface, rect: Rect, to: Point) {
    let (width, height) = surface.size();
    if rect.lies_in(width, height) && fits_at(rect, to, width, height) {
        surface.copy_within(rect, to);
    }
}

/// Copies from another surface, where it fits.
fn copy_from(surface: &mut Surface, from: &Surface, rect: Rect, to: Point) {
    let (width, height) = surface.size();
    let (from_width, from_height) = from.size();
    if rect.lies_in(from_width, from_height) && fits_at(rect, to, width, height) {
        surface.copy_from(from, rect, to);
    }
}

/// Whether a surface shows a picture: pixel by pixel, row by row, and as a whole.
fn shows(alloc: Global, surface: &Surface, plain: &Plain) -> Result<bool, Fault> {
    let (width, height) = surface.size();
    if (width, height) != (plain.width, plain.height) {
        return Ok(false);
    }
    let mut same = true;
    for y in 0..height {
        for x in 0..width {
            same &= surface.pixel(x, y) == plain.at(place(plain.width, x, y, 0, 0));
        }
    }
    let mut row = Vec::from_elem(alloc, DOT, usize::from(width))?;
    for y in 0..height {
        surface.read_row(0, y, &mut row);
        for x in 0..width {
            let place = place(plain.width, x, y, 0, 0);
            same &= row.get(usize::from(x)) == plain.pixels.get(place);
        }
    }
    let area = usize::from(width) * usize::from(height);
    let mut all = Vec::from_elem(alloc, DOT, area)?;
    surface.read(Rect::sized(width, height), &mut all);
    Ok(same && all == plain.pixels)
}

/// Whether a copy within a surface does what a plain program does.
fn copies_within(alloc: Global, rect: Rect, to: Point, format: Format) -> Result<bool, Fault> {
    let before = picture(alloc, 130, 70, format)?;
    let mut plain = picture(alloc, 130, 70, format)?;
    let mut surface = surface_of(alloc, &plain, format)?;
    copy_within(&mut surface, rect, to);
    plain.copy(&before, rect, to, format);
    shows(alloc, &surface, &plain)
}

/// A rectangle that lies across cells.
const ACROSS: Rect = Rect {
    left: 20,
    top: 10,
    right: 120,
    bottom: 60,
};

/// The first point of a column to which a copy is wrong, if there is one.
fn first_wrong_below(alloc: Global, x: u16) -> Result<Option<Point>, Fault> {
    for y in &[0, 9, 10, 11, 20] {
        let to = Point { x, y: *y };
        if !copies_within(alloc, ACROSS, to, Format::Xrgb)? {
            return Ok(Some(to));
        }
    }
    Ok(None)
}

/// The first point to which a copy is wrong, if there is one.
fn first_wrong(alloc: Global) -> Result<Option<Point>, Fault> {
    for x in &[0, 1, 19, 20, 21, 29, 30] {
        let wrong = first_wrong_below(alloc, *x)?;
        if wrong.is_some() {
            return Ok(wrong);
        }
    }
    Ok(None)
}

#[test]
fn copies_in_all_directions(rt: HostRuntime) {
    assert_eq!(rt; first_wrong(rt.alloc()), Ok(None));
}

/// A rectangle of a cell's sides, elsewhere than a cell.
const SHIFTED: Rect = Rect {
    left: 33,
    top: 5,
    right: 97,
    bottom: 69,
};

/// Whether a copy of `SHIFTED` to a surface does what a plain program does.
fn copies_from(
    alloc: Global,
    source: &Surface,
    from: &Plain,
    plain: &mut Plain,
    to: Point,
    format: Format,
) -> Result<bool, Fault> {
    let mut surface = surface_of(alloc, plain, format)?;
    copy_from(&mut surface, source, SHIFTED, to);
    plain.copy(from, SHIFTED, to, format);
    shows(alloc, &surface, plain)
}

/// The same from a surface to one of a format.
fn copies_between(alloc: Global, to: Point, format: Format) -> Result<bool, Fault> {
    let from = picture(alloc, 130, 70, Format::Argb)?;
    let mut plain = picture(alloc, 200, 140, format)?;
    let source = surface_of(alloc, &from, Format::Argb)?;
    copies_from(alloc, &source, &from, &mut plain, to, format)
}

/// The first point to which a copy between surfaces is wrong, if there is one.
fn first_wrong_between(alloc: Global) -> Result<Option<Point>, Fault> {
    for (x, y) in &[(0, 0), (64, 64), (1, 63), (100, 30), (33, 5)] {
        let to = Point { x: *x, y: *y };
        let opaque = copies_between(alloc, to, Format::Xrgb)?;
        if !opaque || !copies_between(alloc, to, Format::Argb)? {
            return Ok(Some(to));
        }
    }
    Ok(None)
}

#[test]
fn copies_between_surfaces(rt: HostRuntime) {
    assert_eq!(rt; first_wrong_between(rt.alloc()), Ok(None));
}

/// The bytes of pixels, red first.
fn bytes_of(alloc: Global, pixels: &[Pixel]) -> Result<Vec<u8>, Fault> {
    let mut bytes = Vec::new(alloc);
    for pixel in pixels {
        bytes.extend_from_slice(&[pixel.r, pixel.g, pixel.b, pixel.a])?;
    }
    Ok(bytes)
}

/// Fills a piece of a surface and of its picture.
fn fill_both(surface: &mut Surface, plain: &mut Plain, piece: Rect) {
    fill(surface, piece, DOT);
    plain.fill(piece, DOT);
}

/// Puts data on a piece of a surface, and the same on its picture: what is there, with red for blue.
fn put_both(
    alloc: Global,
    surface: &mut Surface,
    plain: &mut Plain,
    piece: Rect,
) -> Result<(), Fault> {
    let pixels = plain.rect(alloc, piece)?;
    let bytes = bytes_of(alloc, &pixels)?;
    put_bytes(surface, piece, &bytes);
    plain.fill(piece, Pixel { b: 3, r: 1, ..DOT });
    Ok(())
}

/// Behind what a surface isn't as its picture, if it isn't: once it is made, filled or put.
fn what_is_wrong(
    alloc: Global,
    surface: &mut Surface,
    plain: &mut Plain,
    piece: Rect,
) -> Result<Option<&'static str>, Fault> {
    if !shows(alloc, surface, plain)? {
        return Ok(Some("made"));
    }
    fill_both(surface, plain, piece);
    if !shows(alloc, surface, plain)? {
        return Ok(Some("filled"));
    }
    put_both(alloc, surface, plain, piece)?;
    if !shows(alloc, surface, plain)? {
        return Ok(Some("put"));
    }
    Ok(None)
}

/// The same of a surface of these sides.
fn wrong_with(
    alloc: Global,
    width: u16,
    height: u16,
    format: Format,
) -> Result<Option<&'static str>, Fault> {
    let piece = Rect {
        left: width / 3,
        top: height / 3,
        right: width - width / 4,
        bottom: height,
    };
    let mut plain = picture(alloc, width, height, format)?;
    let mut surface = surface_of(alloc, &plain, format)?;
    what_is_wrong(alloc, &mut surface, &mut plain, piece)
}

/// Sides at and around a cell's.
const SIDES: [(u16, u16); 5] = [(1, 1), (64, 64), (65, 64), (63, 129), (8192, 3)];

/// The first sides with which a surface is wrong, and behind what, if there are any.
fn first_wrong_sides(alloc: Global) -> Result<Option<(u16, u16, &'static str)>, Fault> {
    for (width, height) in &SIDES {
        for format in &[Format::Xrgb, Format::Argb] {
            if let Some(wrong) = wrong_with(alloc, *width, *height, *format)? {
                return Ok(Some((*width, *height, wrong)));
            }
        }
    }
    Ok(None)
}

#[test]
fn sides_around_cells(rt: HostRuntime) {
    assert_eq!(rt; first_wrong_sides(rt.alloc()), Ok(None));
}

#[test]
fn wide_copy(rt: HostRuntime) {
    let rect = Rect::sized(100, 70);
    let to = Point { x: 1, y: 0 };
    claim(&rt, copies_within(rt.alloc(), rect, to, Format::Argb));
}

/// The sides of the surfaces below, of three cells by two, of which the last has 2 by 6 pixels.
const WIDTH: u16 = 130;

const HEIGHT: u16 = 70;

const LAST: Cell = Cell { x: 2, y: 1 };

/// The same pixels everywhere but at the last place.
fn dotted(alloc: Global) -> Result<Plain, Fault> {
    let zero = Pixel {
        b: 0,
        g: 0,
        r: 0,
        a: 0,
    };
    let mut plain = Plain::new(alloc, WIDTH, HEIGHT)?;
    plain.fill(Rect::sized(WIDTH, HEIGHT), zero);
    plain.set(place(WIDTH, 129, 69, 0, 0), DOT);
    Ok(plain)
}

/// Whether a surface shows a dot at its last place, and nothing else.
fn shows_dot(alloc: Global, surface: &Surface) -> Result<bool, Fault> {
    let plain = dotted(alloc)?;
    shows(alloc, surface, &plain)
}

/// Whether a pair of cells is lent in the order in which it is asked for.
fn lends_pair(alloc: Global) -> Result<bool, Fault> {
    let first = Cell { x: 0, y: 0 };
    let mut surface = Surface::new(alloc, WIDTH, HEIGHT, Format::Argb)?;
    let sides = surface.tile_mut(LAST).size();
    surface.with_pair(first, LAST, |_, other| {
        other[5 * 64 + 1] = DOT;
    });
    Ok(sides == (2, 6) && shows_dot(alloc, &surface)?)
}

#[test]
fn pair_views(rt: HostRuntime) {
    claim(&rt, lends_pair(rt.alloc()));
}

/// The same where the later cell is asked for first.
fn lends_turned_pair(alloc: Global) -> Result<bool, Fault> {
    let second = Cell { x: 0, y: 0 };
    let mut surface = Surface::new(alloc, WIDTH, HEIGHT, Format::Argb)?;
    surface.with_pair(LAST, second, |one, _| {
        one[5 * 64 + 1] = DOT;
    });
    shows_dot(alloc, &surface)
}

#[test]
fn turned_pair(rt: HostRuntime) {
    claim(&rt, lends_turned_pair(rt.alloc()));
}

/// Whether a dot is set by a view of a tile.
fn tile_is_set(alloc: Global) -> Result<bool, Fault> {
    let mut surface = Surface::new(alloc, WIDTH, HEIGHT, Format::Argb)?;
    let mut tile = surface.tile_mut(LAST);
    let before = tile.get(1, 5).a;
    tile.set(1, 5, DOT);
    Ok(before == 0 && shows_dot(alloc, &surface)?)
}

#[test]
fn views_of_a_tile(rt: HostRuntime) {
    claim(&rt, tile_is_set(rt.alloc()));
}

/// Whether a dot is set by a view of a strip.
fn strip_is_set(alloc: Global) -> Result<bool, Fault> {
    let mut surface = Surface::new(alloc, WIDTH, HEIGHT, Format::Argb)?;
    let mut strip = surface.strip_mut(1);
    let before = strip.get(2, 1, 5).a;
    strip.set(2, 1, 5, DOT);
    Ok(before == 0 && shows_dot(alloc, &surface)?)
}

#[test]
fn views_of_a_strip(rt: HostRuntime) {
    claim(&rt, strip_is_set(rt.alloc()));
}

/// The part of the last cell that lies on the surface.
const PART: Rect = Rect {
    left: 128,
    top: 64,
    right: WIDTH,
    bottom: HEIGHT,
};

/// Whether a surface shows dots on the part of its last cell, and nothing else.
fn shows_part(alloc: Global, surface: &Surface) -> Result<bool, Fault> {
    let mut plain = dotted(alloc)?;
    plain.fill(PART, DOT);
    shows(alloc, surface, &plain)
}

/// Whether the pixels of a cell are put by a view of a strip.
fn cell_is_put(alloc: Global) -> Result<bool, Fault> {
    let pixels = Vec::from_elem(alloc, DOT, 4096)?;
    let mut surface = Surface::new(alloc, WIDTH, HEIGHT, Format::Argb)?;
    let mut strip = surface.strip_mut(1);
    strip.put(2, &pixels);
    shows_part(alloc, &surface)
}

#[test]
fn cells_of_a_strip(rt: HostRuntime) {
    claim(&rt, cell_is_put(rt.alloc()));
}

/// Whether a dot is set by the back of a strip that is split, and what the front has beside the surface doesn't show.
fn split_is_set(alloc: Global) -> Result<bool, Fault> {
    let mut surface = Surface::new(alloc, WIDTH, HEIGHT, Format::Argb)?;
    surface.with_split(1, 2, |front, back| {
        front[4096 + 5 * 64 + 63] = back[0];
        back[5 * 64 + 1] = DOT;
    });
    shows_dot(alloc, &surface)
}

#[test]
fn split_views(rt: HostRuntime) {
    claim(&rt, split_is_set(rt.alloc()));
}

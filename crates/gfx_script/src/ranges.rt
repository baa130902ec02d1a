//! Tests of numbers against their ranges. What a number's type tells already takes no time.

ghost use Rattle.std.specs.Prelude.{◌≡◌};
ghost use Rattle.std.specs.List.{list_all};
ghost use Rattle.gfx_script.specs.declared.TheConstants.{MOST_RECTS};
ghost use Rattle.gfx_script.specs.Script.{are_some, is_from_one, is_index, is_pixel, is_point, is_rect, is_word};

use crate::{MOST_GLYPH, MOST_RECTS};
use gfx_base::{Pixel, Point, Rect};

/// Whether a number has 16 bits, as one of this type has.
#[inline(always)]
pub(crate) fn is_word(number: u16) -> bool
    ensures { result ≡ is_word number }
{
    let _number = number;
    true
}

/// Whether the parts of a colour have 8 bits each, as those of this type have.
#[inline(always)]
pub(crate) fn is_pixel(pixel: Pixel) -> bool
    ensures { result ≡ is_pixel pixel }
{
    let _pixel = pixel;
    true
}

/// Whether the coordinates of a point have 16 bits each, as those of this type have.
#[inline(always)]
pub(crate) fn is_point(point: Point) -> bool
    ensures { result ≡ is_point point }
{
    let _point = point;
    true
}

/// Whether the sides of a rectangle have 16 bits each, as those of this type have.
#[inline(always)]
pub(crate) fn is_rect(rect: Rect) -> bool
    ensures { result ≡ is_rect rect }
{
    let _rect = rect;
    true
}

/// Whether a number is from 1 to the most.
pub(crate) fn is_from_one(most: u32, number: u32) -> bool
    ensures { result ≡ is_from_one most number }
{
    1 <= number && number <= most
}

/// Whether there are some rectangles, and not too many.
pub(crate) fn are_some_rects(rects: &[Rect]) -> bool
    ensures { result ≡ are_some is_rect rects.now }
{
    is_count(rects.len()) && are_rects(rects)
}

fn are_rects(rects: &[Rect]) -> bool
    ensures { result ≡ list_all is_rect rects.now }
{
    rects.iter().all(|rect| is_rect(*rect))
}

/// Whether there are some points, and not too many.
pub(crate) fn are_some_points(points: &[Point]) -> bool
    ensures { result ≡ are_some is_point points.now }
{
    is_count(points.len()) && are_points(points)
}

fn are_points(points: &[Point]) -> bool
    ensures { result ≡ list_all is_point points.now }
{
    points.iter().all(|point| is_point(*point))
}

/// Whether a step may have so many rectangles or points.
fn is_count(count: usize) -> bool
    ensures { result ≡ is_from_one MOST_RECTS count }
{
    1 <= count && count <= MOST_RECTS
}

/// Whether a glyph may be kept at an index, where it has one.
pub(crate) fn is_index(glyph: Option<u16>) -> bool
    ensures { result ≡ is_index glyph }
{
    match glyph {
        None => true,
        Some(index) => index <= MOST_GLYPH,
    }
}

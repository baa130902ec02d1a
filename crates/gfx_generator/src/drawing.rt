//! How steps are drawn.
ghost use Rattle.std.specs.Prelude.{◌≡◌};
ghost use Rattle.gfx_generator.specs.Steps.{fill, paint, copy, step};

use crate::generator::Generator;
use crate::kind::{KINDS, Kind};
use crate::picture::{PICTURES, Picture};
use crate::step::Step;
use gfx_base::{Point, Rect, Rgb};

/// The width of the surface.
const WIDTH: u16 = 256;

/// Its height.
const HEIGHT: u16 = 192;

/// A side of the square that is copied.
const SQUARE: u16 = 64;

/// Draws a step.
#[tactic(auto, unfolding(crate::specs::Steps::step))]
pub(crate) fn draw_step(generator: &mut Generator) -> Step
    ensures value { result ≡ (step generator.old).value }
    ensures state { generator.new ≡ (step generator.old).state }
{
    match generator.draw(4) {
        0 => draw_fill(generator),
        1 => draw_paint(generator),
        2 => draw_copy(generator),
        _ => Step::Improve,
    }
}

/// Draws a fill of a rectangle on the surface.
#[tactic(auto, unfolding(crate::specs::Steps::fill))]
fn draw_fill(generator: &mut Generator) -> Step
    ensures value { result ≡ (fill generator.old).value }
    ensures state { generator.new ≡ (fill generator.old).state }
{
    let left = generator.draw(WIDTH);
    let top = generator.draw(HEIGHT);
    let width = generator.draw(WIDTH + 1 - left);
    let height = generator.draw(HEIGHT + 1 - top);
    let b = generator.draw(256) as u8;
    let g = generator.draw(256) as u8;
    let r = generator.draw(256) as u8;
    Step::Fill {
        colour: Rgb { b, g, r },
        rect: Rect {
            left,
            top,
            right: left + width,
            bottom: top + height,
        },
    }
}

/// Draws a paint of a picture that lies on the surface.
#[tactic(auto, unfolding(crate::specs::Steps::paint))]
fn draw_paint(generator: &mut Generator) -> Step
    ensures value { result ≡ (paint generator.old).value }
    ensures state { generator.new ≡ (paint generator.old).state }
{
    let picture = Picture::at(generator.draw(PICTURES));
    let kind = Kind::at(generator.draw(KINDS));
    let x = generator.draw(WIDTH + 1 - picture.width());
    let y = generator.draw(HEIGHT + 1 - picture.height());
    Step::Paint {
        picture,
        at: Point { x, y },
        kind,
    }
}

/// Draws a copy of the square to a point where it lies on the surface.
#[tactic(auto, unfolding(crate::specs::Steps::copy))]
fn draw_copy(generator: &mut Generator) -> Step
    ensures value { result ≡ (copy generator.old).value }
    ensures state { generator.new ≡ (copy generator.old).state }
{
    let x = generator.draw(WIDTH + 1 - SQUARE);
    let y = generator.draw(HEIGHT + 1 - SQUARE);
    Step::Copy { to: Point { x, y } }
}

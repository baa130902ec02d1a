//! The texts of steps, a line each.
ghost use Rattle.std.specs.Prelude.{◌≡◌, ◌+◌, ◌≤◌, [], ◌∷◌, ◌++◌, length};
ghost use Rattle.gfx_generator.specs.Texts.{step_text, fill_text, paint_text, copy_text, rect_text, point_text, colour_text, improve_text};

use crate::kind::Kind;
use crate::picture::Picture;
use crate::step::Step;
use gfx_base::{Point, Rect, Rgb};
use gfx_line::{LINE_ROOM, Line};

/// How many digits a colour has.
const COLOUR_DIGITS: usize = 6;

/// The line of a step.
#[tactic(auto, unfolding(crate::specs::Texts::step_text))]
pub(crate) fn step_text(step: Step) -> Line
    ensures { result ≡ step_text step }
{
    match step {
        Step::Fill { colour, rect } => fill_text(colour, rect),
        Step::Paint { picture, at, kind } => paint_text(picture, at, kind),
        Step::Copy { to } => copy_text(to),
        Step::Improve => improve_text(),
    }
}

/// The line of a fill.
#[tactic(auto, unfolding(crate::specs::Texts::fill_text))]
fn fill_text(colour: Rgb, rect: Rect) -> Line
    ensures { result ≡ fill_text colour rect }
{
    let mut line = Line::new();
    line.put(b"{ do = \"fill\", id = 1, colour = \"");
    put_colour(colour, &mut line);
    line.put(b"ff\", rects = [[");
    put_rect(rect, &mut line);
    line.put(b"]] },\n");
    line
}

/// The line of a paint.
#[tactic(auto, unfolding(crate::specs::Texts::paint_text))]
fn paint_text(picture: Picture, at: Point, kind: Kind) -> Line
    ensures { result ≡ paint_text picture at kind }
{
    let mut line = Line::new();
    line.put(b"{ do = \"paint\", id = 1, picture = \"");
    line.put(picture.name());
    line.put(b"\", at = [");
    put_point(at, &mut line);
    line.put(b"], kind = \"");
    line.put(kind.name());
    line.put(b"\" },\n");
    line
}

/// The line of a copy.
#[tactic(auto, unfolding(crate::specs::Texts::copy_text))]
fn copy_text(to: Point) -> Line
    ensures { result ≡ copy_text to }
{
    let mut line = Line::new();
    line.put(b"{ do = \"copy\", from = 1, to = 1, rect = [0, 0, 64, 64], points = [[");
    put_point(to, &mut line);
    line.put(b"]] },\n");
    line
}

/// The line of an improvement.
#[tactic(auto, unfolding(crate::specs::Texts::improve_text))]
fn improve_text() -> Line
    ensures { result ≡ improve_text }
{
    let mut line = Line::new();
    line.put(b"{ do = \"improve\", id = 1 },\n");
    line
}

/// Appends a colour, two lower-case hexadecimal digits a byte.
fn put_colour(colour: Rgb, line: &mut Line)
    requires { length line.old + COLOUR_DIGITS ≤ LINE_ROOM }
    ensures bytes { line.new ≡ line.old ++ colour_text colour }
    ensures len { length line.new ≡ length line.old + COLOUR_DIGITS }
{
    let mut digits = [0; COLOUR_DIGITS];
    hex::encode_to_slice(&[colour.b, colour.g, colour.r], &mut digits).unwrap();
    line.put(&digits);
}

/// Appends the sides of a rectangle.
fn put_rect(rect: Rect, line: &mut Line)
    requires { length line.old + 26 ≤ LINE_ROOM }
    ensures bytes { line.new ≡ line.old ++ rect_text rect }
    ensures len { length line.new ≤ length line.old + 26 }
{
    line.put_u16(rect.left);
    line.put(b", ");
    line.put_u16(rect.top);
    line.put(b", ");
    line.put_u16(rect.right);
    line.put(b", ");
    line.put_u16(rect.bottom);
}

/// Appends the coordinates of a point.
fn put_point(point: Point, line: &mut Line)
    requires { length line.old + 12 ≤ LINE_ROOM }
    ensures bytes { line.new ≡ line.old ++ point_text point }
    ensures len { length line.new ≤ length line.old + 12 }
{
    line.put_u16(point.x);
    line.put(b", ");
    line.put_u16(point.y);
}

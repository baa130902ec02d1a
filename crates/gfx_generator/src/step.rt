//! The steps that are drawn.
use crate::kind::Kind;
use crate::picture::Picture;
use gfx_base::{Point, Rect, Rgb};

/// A step of a script, on its one surface.
#[derive(Clone, Copy, Debug, PartialEq, Eq)]
pub enum Step {
    /// A rectangle is filled with a colour.
    Fill {
        colour: Rgb,
        rect: Rect,
    },
    /// A picture is painted at a point.
    Paint {
        picture: Picture,
        at: Point,
        kind: Kind,
    },
    /// The square at the left top is copied to a point.
    Copy {
        to: Point,
    },
    /// What was sent coarsely is sent again.
    Improve,
}

ghost use Rattle.std.specs.Prelude.{◌≡◌};
ghost use Rattle.gfx_script.specs.Kinds.{is_plain_write, kind_of};
ghost use Rattle.gfx_script.specs.Script.{is_frame, is_paint, is_step};

use crate::MOST_KEY;
use crate::ranges::{
    are_some_points, are_some_rects, is_from_one, is_index, is_pixel, is_point, is_rect, is_word,
};
use gfx_base::{Format, Pixel, Point, Points, Rect, Rects};
use gfx_surface::MOST_SIDE;
use gfx_surface_map::MOST_OUTPUT_SIDE;

/// How a picture is sent: uncompressed, by a layer of ClearCodec ([MS-RDPEGFX] 2.2.4.1), in passes by RemoteFX
/// Progressive ([MS-RDPEGFX] 2.2.4.2), or by RemoteFX video ([MS-RDPRFX]).
#[derive(Clone, Copy, Debug, PartialEq, Eq)]
pub enum Kind {
    /// Uncompressed.
    Raw,
    /// Runs of one colour.
    Residual,
    /// Columns that the client may hold already.
    Bands,
    /// Runs over a palette; plainly where there are too many colours.
    Palette,
    /// Pixel by pixel.
    Plain,
    /// In passes: a first one, which `Step::Improve` makes better. For a thin client as `Video`.
    Progressive,
    /// In tiles of RemoteFX video, each with all that it has.
    Video,
}

impl Kind {
    /// Whether a paint of this kind sets the pixels of its picture and nothing else, so that a later write may
    /// cover it.
    pub fn is_plain_write(self) -> bool
        ensures { result ≡ is_plain_write self }
    {
        match self {
            Kind::Raw | Kind::Residual | Kind::Bands | Kind::Palette | Kind::Plain => true,
            Kind::Progressive | Kind::Video => false,
        }
    }
}

/// How the coefficients of RemoteFX video are coded ([MS-RDPRFX] 3.1.8.1.7).
#[derive(Clone, Copy, Debug, PartialEq, Eq)]
pub enum Entropy {
    /// RLGR1: one value at a time.
    One,
    /// RLGR3: two values at a time where no run is due.
    Three,
}

/// One step of a script.
#[derive(Debug, Drop)]
pub enum Step {
    /// A surface of zero colour is made.
    Surface {
        id: u16,
        width: u16,
        height: u16,
        format: Format,
    },
    /// A surface is deleted.
    Delete {
        id: u16,
    },
    /// The output gets these sides.
    Reset {
        width: u32,
        height: u32,
    },
    /// A surface is mapped to a place of the output.
    Map {
        id: u16,
        x: u32,
        y: u32,
    },
    /// Rectangles of a surface are given one colour, one after another.
    Fill {
        id: u16,
        colour: Pixel,
        rects: Rects,
    },
    /// A rectangle is copied to points, from its surface as it was.
    Copy {
        from: u16,
        to: u16,
        rect: Rect,
        points: Points,
    },
    /// A rectangle of a surface is kept as the bitmap of a key.
    Keep {
        id: u16,
        key: u64,
        rect: Rect,
    },
    /// The bitmap of a key is put at points of a surface.
    Show {
        key: u64,
        to: u16,
        points: Points,
    },
    /// The bitmap of a key is held no more.
    Forget {
        key: u64,
    },
    /// The picture of this number, counted from 0, is painted with its top left corner at a place. Where it
    /// names no kind, the server's end chooses one. A glyph is the index at which the client is to keep it.
    Paint {
        id: u16,
        picture: u32,
        at: Point,
        kind: Option<Kind>,
        glyph: Option<u16>,
    },
    /// The progressive tiles of a surface that nothing has touched since are raised by one level.
    Improve {
        id: u16,
    },
    /// The steps since the last frame are shown.
    Frame,
}

impl Step {
    /// The kind that a paint goes as where nothing else chooses one: the kind that it names, or `Residual`.
    /// None of another step.
    pub fn kind(&self) -> Option<Kind>
        ensures { result ≡ kind_of self.now }
    {
        match self {
            Step::Paint { kind, .. } => Some(kind.unwrap_or(Kind::Residual)),
            _ => None,
        }
    }

    /// Whether the steps since the last frame are shown here.
    pub fn is_frame(&self) -> bool
        ensures { result ≡ is_frame self.now }
    {
        matches!(self, Step::Frame)
    }

    /// Whether it paints a picture.
    pub fn is_paint(&self) -> bool
        ensures { result ≡ is_paint self.now }
    {
        matches!(self, Step::Paint { .. })
    }

    /// Whether the numbers of the step are within their ranges.
    #[tactic(auto, unfolding(crate::specs::Script::is_step))]
    pub fn is_in_range(&self) -> bool
        ensures { result ≡ is_step self.now }
    {
        match self {
            Step::Surface {
                id,
                width,
                height,
                ..
            } => {
                is_word(*id)
                    && (is_from_one(MOST_SIDE.into(), (*width).into())
                        && is_from_one(MOST_SIDE.into(), (*height).into()))
            }
            Step::Delete { id } | Step::Improve { id } => is_word(*id),
            Step::Reset { width, height } => {
                is_from_one(MOST_OUTPUT_SIDE, *width) && is_from_one(MOST_OUTPUT_SIDE, *height)
            }
            Step::Map { id, x, y } => is_word(*id)
                && (*x <= MOST_OUTPUT_SIDE && *y <= MOST_OUTPUT_SIDE),
            Step::Fill { id, colour, rects } => is_word(*id)
                && (is_pixel(*colour) && are_some_rects(rects.as_slice())),
            Step::Copy {
                from,
                to,
                rect,
                points,
            } => is_word(*from)
                && (is_word(*to) && (is_rect(*rect) && are_some_points(points.as_slice()))),
            Step::Keep { id, key, rect } => is_word(*id) && (*key <= MOST_KEY && is_rect(*rect)),
            Step::Show { key, to, points } => *key <= MOST_KEY
                && (is_word(*to) && are_some_points(points.as_slice())),
            Step::Forget { key } => *key <= MOST_KEY,
            Step::Paint { id, at, glyph, .. } => is_word(*id)
                && (is_point(*at) && is_index(*glyph)),
            Step::Frame => true,
        }
    }
}
